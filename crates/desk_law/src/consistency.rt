ghost use Rattle.desk_law.specs.DeskLaws.{FineRowsAskForTheirLines, WriteBitsHoldPages, BrokenCyclesWere, ContestedCyclesClose, IdleWhereInactive, PermittedIsFree, RunsStayConsistent, SomebodyCanGoOn, StaysConsistent, UnrefusedAsksNothing};

/// A desk that is consistent is so after every event with every word (docs/MODEL.md). It calls nothing.
pub fn desks_stay_consistent()
    ensures { StaysConsistent }
{}

/// A desk that opens on a whole store with two frames or more is consistent after every run. It calls nothing.
pub fn runs_stay_consistent()
    ensures { RunsStayConsistent }
{}

/// A turn of a consistent desk is idle exactly where its activation isn't active. It calls nothing.
pub fn idle_where_inactive()
    ensures { IdleWhereInactive }
{}

/// An entry whose next row touches permitted lines alone conflicts with nobody. It calls nothing.
#[tactic(auto, using(crate::proofs::Permitted::permitted_is_free))]
pub fn permitted_is_free()
    ensures { PermittedIsFree }
{}

/// A row of which no entry refuses a line conflicts with nobody, and gets on without asking. It calls nothing.
pub fn unrefused_asks_nothing()
    ensures { UnrefusedAsksNothing }
{}

/// A row that writes into fine pages alone asks for the lines that it touches and no others. It calls nothing.
#[tactic(auto, using(crate::proofs::Permitted::fine_rows))]
pub fn fine_rows_ask_for_their_lines()
    ensures { FineRowsAskForTheirLines }
{}

/// Between two instructions all lines of a page whose write bit is on are held to read by its owner. It calls nothing.
#[tactic(auto, using(crate::proofs::Permitted::write_bits))]
pub fn write_bits_hold_pages()
    ensures { WriteBitsHoldPages }
{}

/// Where somebody is active, somebody who is active waits for nobody. It calls nothing.
pub fn somebody_can_go_on()
    ensures { SomebodyCanGoOn }
{}

/// Each member of a cycle that is broken waited for the next at the desk at which it was found. It calls nothing.
pub fn broken_cycles_were()
    ensures { BrokenCyclesWere }
{}

/// A cycle that is found in the contest of an entry ends with the number with which it begins. It calls nothing.
#[tactic(auto, using(crate::proofs::CyclesClose::contested_cycles_close))]
pub fn contested_cycles_close()
    ensures { ContestedCyclesClose }
{}
