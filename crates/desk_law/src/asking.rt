ghost use Rattle.desk_law.specs.Asking.{CommitsTellTheMachineBy, InstructionsAskAlike, RunsAreIsolatedBy, RunsAskAlike, RunsStayConsistentBy, SideBySideIsSerialBy, asks_refused};
ghost use Rattle.desk_law.specs.Rules.{IsolationRestsOnRules};

/// An instruction of a desk that asks for locks where the entry of a page refuses a line alone is that of the desk that asks
/// at each row (docs/MODEL.md). It calls nothing.
#[tactic(auto, using(crate::proofs::AskingLaw::instructions_alike))]
pub fn instructions_ask_alike()
    ensures { InstructionsAskAlike }
{}

/// A run of the desk that asks where it is refused is that of the desk: the same desk, the same memory beside it, and the
/// same lines. It calls nothing.
#[tactic(auto, using(crate::proofs::AskingLaw::runs_alike))]
pub fn runs_ask_alike()
    ensures { RunsAskAlike }
{}

/// The desk that asks where it is refused is consistent after every run. It calls nothing.
pub fn asking_stays_consistent()
    ensures { RunsStayConsistentBy asks_refused }
{}

/// The law of isolation (`runs_are_isolated`) of the desk that asks where it is refused. It calls nothing.
#[tactic(auto, using(crate::proofs::AskingLaw::asking_isolated))]
pub fn asking_is_isolated()
    ensures { RunsAreIsolatedBy asks_refused }
{}

/// What machines beside the desk that asks where it is refused commit is what the same programs leave one after another.
/// It calls nothing.
pub fn asking_is_serial()
    ensures { SideBySideIsSerialBy asks_refused }
{}

/// A commit of the desk that asks where it is refused tells the bytes that its machine printed. It calls nothing.
pub fn asking_tells_the_machine()
    ensures { CommitsTellTheMachineBy asks_refused }
{}

/// Each rule of locks is needed: without it a run of the desk that asks where it is refused isn't isolated, or not
/// consistent. It calls nothing.
#[tactic(auto, using(crate::proofs::RuleRows::rules_needed))]
pub fn isolation_rests_on_rules()
    ensures { IsolationRestsOnRules }
{}
