ghost use Rattle.progress.specs.Oldest.{VictimsHaveElders, ContestsSpareTheOldest, TurnsSpareTheOldest};

/// Somebody is older than the victim of each cycle. It calls nothing.
pub fn victims_have_elders()
    ensures { VictimsHaveElders }
{}

/// The contest of whoever it is leaves the oldest active, and the oldest never loses one. It calls nothing.
pub fn contests_spare_the_oldest()
    ensures { ContestsSpareTheOldest }
{}

/// A turn leaves the oldest active, but where it is its own and ends by itself. It calls nothing.
#[tactic(auto, using(crate::proofs::Turns::turns_spare))]
pub fn turns_spare_the_oldest()
    ensures { TurnsSpareTheOldest }
{}
