ghost use Rattle.desk_law.specs.Headline.{LeftIsPrefix, DoubtIsWhole};

/// The law of crashes: what a crash leaves of a run from an opening is the first commits of its order, run one after
/// another on the opening store: those that the printed lines tell of, and at most one more. It calls nothing.
pub fn a_crash_leaves_a_prefix()
    ensures { LeftIsPrefix }
{}

/// The law of doubts: where a commit in doubt goes well, what stands is the whole order. It calls nothing.
pub fn a_doubt_leaves_all()
    ensures { DoubtIsWhole }
{}
