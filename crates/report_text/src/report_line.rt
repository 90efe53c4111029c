ghost use Rattle.std.specs.Prelude.{IfOk};
ghost use Rattle.report_text.specs.Line.{line_told};
ghost use Rattle.report_text.specs.ReadLines.{TellsCommit};

use std::alloc::{AllocError, Global};

/// A line of a report, by its parts in their order. A name is that of a program; a cycle that a run breaks has its first
/// member again at its end. Activations are numbered from 1 by the begins.
#[derive(Clone, Copy)]
pub enum Line<'a> {
    /// The store's number, after an opening.
    Open(u64),
    /// An activation began the program with this name.
    Begin(u32, &'a [u8]),
    /// As many were active as may be.
    Busy(u32, &'a [u8]),
    /// The store has no segment with this identifier.
    NoSegment(u32, &'a [u8], u32),
    /// A turn of an activation that wasn't active.
    Idle(u32),
    /// A turn: the rows that took effect, the pages brought in and the pages whose entry refused.
    Turn {
        activation: u32,
        ran: u32,
        pages: u32,
        locks: u32,
    },
    /// A cycle of waits.
    Cycle(&'a [u32]),
    /// The member of a cycle that was rolled back.
    Victim(u32),
    /// A commit: the store's number after it, the rows in all and the printed bytes, of which there are at most 4,096.
    Commit {
        activation: u32,
        number: u64,
        steps: u64,
        out: &'a [u8],
    },
    /// A program check with its code and address.
    Check {
        activation: u32,
        code: u32,
        iar: u32,
    },
    /// A wait, and those whose locks are wanted.
    Wait(u32, &'a [u32]),
    /// More written lines than a record may have.
    Journal {
        activation: u32,
        lines: u32,
        limit: u32,
    },
    /// A page that could not be read.
    Disk(u32),
    /// A commit whose record may stand: the activation, and the store's number then.
    Doubt(u32, u64),
    /// The store is closed; the report ends.
    Closed,
    /// A checkpoint, with the store's number.
    Stored(u64),
    /// An activation that ended by a crash.
    Lost(u32),
    /// An activation that was active at the end.
    Left(u32),
    /// The store's number at the end.
    End(u64),
}

/// What a commit line tells: the activation, the store's number after it, the rows in all and the printed bytes.
#[derive(Drop)]
pub struct CommitLine {
    pub activation: u32,
    pub number: u64,
    pub steps: u64,
    pub out: Vec<u8>,
}

impl CommitLine {
    /// What a line tells, if it is that of a commit.
    pub(crate) fn of(alloc: Global, line: &Line) -> Result<Option<Self>, AllocError>
        ensures { IfOk result (λ found. TellsCommit found (line_told line.now)) }
    {
        match *line {
            Line::Commit {
                activation,
                number,
                steps,
                out,
            } => Ok(Some(CommitLine {
                activation,
                number,
                steps,
                out: out.to_vec(alloc)?,
            })),
            _ => Ok(None),
        }
    }
}
