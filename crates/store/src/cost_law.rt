ghost use Rattle.store.specs.Exact.{RecordCosts};

/// The law of a record's cost: what it asks of the disk is two writes and two syncs, of the bytes of its lines and one more. It calls nothing.
#[tactic(auto, using(crate::proofs::CostLemmas::record_costs))]
pub fn a_record_costs_its_lines()
    ensures { RecordCosts }
{}
