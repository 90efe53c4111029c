ghost use Rattle.desk.specs.Commits.{RunsAreSerial};

/// The law of serial runs: the commits of every run of a desk that has just opened, however its events are interleaved,
/// are those of the same programs run one after another in the order of their commits (docs/MODEL.md). It calls nothing.
pub fn runs_are_serial()
    ensures { RunsAreSerial }
{}
