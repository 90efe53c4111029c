ghost use Rattle.store.specs.Shows.{ShownStands};

/// The law of what is tracked: bytes that a [`crate::Durable`] shows stand for its number and some store
/// (docs/MODEL.md, "A store that is open"). The call does nothing; its contract is the law.
pub fn what_is_shown_stands()
    ensures { ShownStands }
{}
