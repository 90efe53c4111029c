ghost use Rattle.desk_law.specs.Memory.{CommitsTellTheMachine, RunsAreIsolated, SideBySideIsSerial};

/// The law of isolation: plain machines without locks, side by side on one memory, which a desk alone schedules, rolls
/// back and commits, are after every run each where its entry is when it runs alone over what is committed; and the
/// memory has every line as the desk has it (docs/MODEL.md). It calls nothing.
pub fn runs_are_isolated()
    ensures { RunsAreIsolated }
{}

/// A commit tells the bytes that the machine of its activation printed. It calls nothing.
pub fn commits_tell_the_machine()
    ensures { CommitsTellTheMachine }
{}

/// What such machines commit is what the same programs leave one after another, and the commits tell what these print.
/// It calls nothing.
#[tactic(auto, using(crate::proofs::MemoryLaw::side_by_side_is_serial))]
pub fn side_by_side_is_serial()
    ensures { SideBySideIsSerial }
{}
