ghost use Rattle.desk_law.specs.CurrentLaws.{CommitsChangeNoLine, CommitsLeaveOthers, HoldersSeeCurrent, OneListIsCurrent, RollbacksGiveBack, RowsChangeTheirLines, RowsRunOnCurrent};

/// One list of bytes, and no other, has every line as it is now (docs/MODEL.md). It calls nothing.
pub fn one_list_is_current()
    ensures { OneListIsCurrent }
{}

/// An active entry has each line that it holds as the line is now. It calls nothing.
#[tactic(auto, using(crate::proofs::CurrentLaw::holders_see_current))]
pub fn holders_see_current()
    ensures { HoldersSeeCurrent }
{}

/// A row that goes on while nobody conflicts changes the lines that it writes alone. It calls nothing.
#[tactic(auto, using(crate::proofs::CurrentLaw::rows_change_their_lines))]
pub fn rows_change_their_lines()
    ensures { RowsChangeTheirLines }
{}

/// Such a row does to the bytes as they are now what it does to its entry's own bytes. It calls nothing.
#[tactic(auto, using(crate::proofs::CurrentLaw::rows_run_on_current))]
pub fn rows_run_on_current()
    ensures { RowsRunOnCurrent }
{}

/// A commit changes no line as it is now. It calls nothing.
#[tactic(auto, using(crate::proofs::CurrentLaw::commits_change_no_line))]
pub fn commits_change_no_line()
    ensures { CommitsChangeNoLine }
{}

/// A rollback gives the lines that its entry wrote their committed bytes, and changes no other. It calls nothing.
#[tactic(auto, using(crate::proofs::CurrentLaw::rollbacks_give_back))]
pub fn rollbacks_give_back()
    ensures { RollbacksGiveBack }
{}

/// Over what a commit of one leaves, another that is active does the same. It calls nothing.
#[tactic(auto, using(crate::proofs::CurrentLaw::commits_leave_others))]
pub fn commits_leave_others()
    ensures { CommitsLeaveOthers }
{}
