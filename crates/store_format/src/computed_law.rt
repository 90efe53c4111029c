ghost use Rattle.store_format.specs.Bank.{ComputedIsHeld, OneIsHeld};

/// The law of what a bank holds (docs/MODEL.md, "What the bytes of a store stand for"): in every image what is computed of a bank is what it holds,
/// and from a gate on it holds one thing at most. The call does nothing; its contract is the law.
pub fn what_is_computed_is_held()
    ensures computed { ComputedIsHeld }
    ensures one { OneIsHeld }
{}
