// What holds of each desk that a session shows, and of each cycle that a turn records.
ghost use Rattle.session.specs.SessionLaws.{CyclesWereMet, ShownIsConsistent, ShownIsIsolated, ShownTurnsEnd, SomebodyGoesOn};

/// A desk that a session shows is consistent: no line that one wrote is held by another, what a page's entry permits is held,
/// no wait leads back to where it began, and its pages fit its frames (docs/MODEL.md). It calls nothing.
pub fn shown_desks_are_consistent()
    ensures { ShownIsConsistent }
{}

/// Where a desk is shown at which somebody is active, somebody who is active waits for nobody. It calls nothing.
pub fn somebody_goes_on()
    ensures { SomebodyGoesOn }
{}

/// From a desk that is shown each turn of one that is active ends for its cause, and one of who isn't active is idle. It
/// calls nothing.
pub fn shown_turns_end()
    ensures { ShownTurnsEnd }
{}

/// Each cycle that a turn records was met in it: there are a number of its rows, a round of its contest and a desk met in that,
/// at which the cycle is shown. It calls nothing.
pub fn cycles_were_met()
    ensures { CyclesWereMet }
{}

/// Where the desk of a run is shown, what runs in each seat is where the plain machine of its activation is that ran beside the
/// desk on one memory. It calls nothing.
pub fn shown_desks_are_isolated()
    ensures { ShownIsIsolated }
{}
