ghost use Rattle.desk_law.specs.Causes.{EndsHaveCauses, TurnsEndForCause};

/// Each end of a turn of an active entry of a consistent desk has its cause (docs/MODEL.md). It calls nothing.
pub fn turns_end_for_cause()
    ensures { TurnsEndForCause }
{}

/// Who is active before a turn and not after it was the victim of a cycle that the turn recorded, or is its own
/// activation, and the turn ended by its check, the limit on lines, a page that can't be read, or its commit. It calls
/// nothing.
#[tactic(auto, using(crate::proofs::EndsCaused::ends_have_causes))]
pub fn ends_have_causes()
    ensures { EndsHaveCauses }
{}
