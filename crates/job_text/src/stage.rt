/// Which lines of a job are due (docs/FORMATS.md, "Job").
#[derive(Clone, Copy, PartialEq, Eq)]
pub(crate) enum Stage {
    /// `frames`.
    Frames,
    /// `program` or `schedule`.
    Programs,
    /// Source lines and `end`.
    Source,
    /// Events and `end`.
    Schedule,
    /// Nothing more.
    Ended,
}
