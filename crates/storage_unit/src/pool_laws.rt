// Laws of the one list of bytes that a unit shows. They call nothing.
ghost use Rattle.storage_unit.specs.PoolLaws.{BringKeeps, FailedBringKeeps, EmptyKeeps, UndoForgets, CommitIsUnseen, SettleKeeps};

/// A page that comes in and is filled with its committed bytes, its kept lines over them, leaves the bytes as they were.
pub fn bring_keeps()
    ensures { BringKeeps }
{}

/// A page whose read failed leaves them too, once its kept lines lie over it and all pages went out.
pub fn failed_bring_keeps()
    ensures { FailedBringKeeps }
{}

/// Pages that all go out leave the bytes as they were.
pub fn empty_keeps()
    ensures { EmptyKeeps }
{}

/// An undo gives its lines their committed bytes, and changes no others.
pub fn undo_forgets()
    ensures { UndoForgets }
{}

/// A commit of marked lines alone isn't seen.
pub fn commit_is_unseen()
    ensures { CommitIsUnseen }
{}

/// Lines that are settled where they are as committed leave the bytes as they were.
pub fn settle_keeps()
    ensures { SettleKeeps }
{}
