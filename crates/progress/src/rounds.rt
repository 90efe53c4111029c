ghost use Rattle.progress.specs.Rounds.{RoundsEndAll};

/// With nobody begun in between, where each one who is active ends within so many rows on every store, all are gone after as many rounds, in
/// each of which each one who is active gets a turn, as these have rows yet, all together. It calls nothing.
#[tactic(auto, using(crate::proofs::RoundsEnd::rounds_end_all))]
pub fn rounds_end_all()
    ensures { RoundsEndAll }
{}
