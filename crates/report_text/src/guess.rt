// The line that a text can only be, if it is one. Whether it is one shows by writing the line again.
ghost use Rattle.std.specs.Prelude.{ℕ, List, IfOk};
ghost use Rattle.desk.specs.ReportLines as report;
ghost use Rattle.job_text.specs.Ready.{IsName};
ghost use Rattle.report_text.specs.Guesses.{ArePrintedBytes, AreCommitParts, AreListsOf, AreNamedParts, AreListedNumbers, AreWaitParts, IsGuess, IsGuessOf, IsIfParts};
ghost use Rattle.report_text.specs.Line.{line_told};
ghost use Rattle.report_text.specs.ReadLines.{LineHasWidths};

use super::report_line::Line;
use super::word_reading::{
    address, all_small, behind, bytes, first_number, first_small, small, split,
};
use std::alloc::{AllocError, Global};
use text_line::number;

/// The lists that a line has: the members of a cycle or the holders of a wait, and the bytes that a commit printed.
#[derive(Drop)]
pub(crate) struct Lists {
    pub(crate) numbers: Vec<u32>,
    pub(crate) bytes: Vec<u8>,
}

impl Lists {
    /// The lists of the line that a text without its line feed can only be.
    pub(crate) fn of(alloc: Global, text: &[u8]) -> Result<Self, AllocError>
        ensures { IfOk result (λ lists. AreListsOf text.now lists.numbers.items lists.bytes.items) }
    {
        let (kind, rest) = split(text);
        Ok(Lists {
            numbers: numbers_of(alloc, kind, rest)?,
            bytes: bytes_of(alloc, kind, rest)?,
        })
    }
}

/// The list of numbers that a line has which begins with this word.
fn numbers_of(alloc: Global, kind: &[u8], rest: &[u8]) -> Result<Vec<u32>, AllocError>
    ensures { IfOk result (λ numbers. AreListedNumbers kind.now rest.now numbers.items) }
{
    if kind == b"cycle".as_slice() {
        all_small(alloc, rest)
    } else if kind == b"wait".as_slice() {
        all_small(alloc, wait(rest).1)
    } else {
        Ok(Vec::new(alloc))
    }
}

/// The printed bytes that a line has which begins with this word.
fn bytes_of(alloc: Global, kind: &[u8], rest: &[u8]) -> Result<Vec<u8>, AllocError>
    ensures { IfOk result (λ bytes. ArePrintedBytes kind.now rest.now bytes.items) }
{
    if kind == b"commit".as_slice() {
        bytes(alloc, commit(rest).3)
    } else {
        Ok(Vec::new(alloc))
    }
}

/// The line that a text without its line feed can only be, whose lists are these.
pub(crate) fn guess<'a>(lists: &'a Lists, text: &'a [u8]) -> Line<'a>
    ensures is { IsGuess text.now lists.now.numbers.items lists.now.bytes.items (line_told result) }
    ensures widths { LineHasWidths (line_told result) }
{
    let (kind, rest) = split(text);
    of_kind(&lists.numbers, &lists.bytes, kind, rest)
}

/// The line that begins with this word and has these lists.
fn of_kind<'a>(numbers: &'a [u32], bytes: &'a [u8], kind: &[u8], rest: &'a [u8]) -> Line<'a>
    ensures is { IsGuessOf kind.now rest.now numbers.now bytes.now (line_told result) }
    ensures widths { LineHasWidths (line_told result) }
{
    if kind == b"open".as_slice() {
        Line::Open(number(rest))
    } else if kind == b"begin".as_slice() {
        let (activation, name) = named(rest);
        Line::Begin(activation, name)
    } else if kind == b"busy".as_slice() {
        let (activation, name) = named(rest);
        Line::Busy(activation, name)
    } else if kind == b"nosegment".as_slice() {
        no_segment(rest)
    } else if kind == b"idle".as_slice() {
        Line::Idle(small(rest))
    } else if kind == b"turn".as_slice() {
        turn(rest)
    } else if kind == b"cycle".as_slice() {
        Line::Cycle(numbers)
    } else if kind == b"victim".as_slice() {
        Line::Victim(small(rest))
    } else if kind == b"commit".as_slice() {
        let (activation, number, steps, _) = commit(rest);
        Line::Commit {
            activation,
            number,
            steps,
            out: bytes,
        }
    } else if kind == b"check".as_slice() {
        check(rest)
    } else if kind == b"wait".as_slice() {
        Line::Wait(wait(rest).0, numbers)
    } else if kind == b"journal".as_slice() {
        journal(rest)
    } else if kind == b"disk".as_slice() {
        Line::Disk(small(rest))
    } else if kind == b"doubt".as_slice() {
        doubt(rest)
    } else if kind == b"stored".as_slice() {
        Line::Stored(number(rest))
    } else if kind == b"lost".as_slice() {
        Line::Lost(small(rest))
    } else if kind == b"left".as_slice() {
        Line::Left(small(rest))
    } else if kind == b"end".as_slice() {
        Line::End(number(rest))
    } else {
        Line::Closed
    }
}

/// `begin A NAME` and `busy A NAME`: the activation and the name.
fn named(rest: &[u8]) -> (u32, &[u8])
    ensures { AreNamedParts rest.now result.0 result.1.now }
{
    first_small(rest)
}

/// `nosegment A NAME S`.
fn no_segment<'a>(rest: &'a [u8]) -> Line<'a>
    ensures is { (a s : ℕ) (name : List ℕ) → IsName name → IsIfParts rest.now (line_told result) (report.NoSegment a name s) }
    ensures widths { LineHasWidths (line_told result) }
{
    let (activation, rest) = first_small(rest);
    let (name, rest) = split(rest);
    let (segment, _) = first_small(rest);
    Line::NoSegment(activation, name, segment)
}

/// `turn A ran E page P lock L`.
fn turn<'a>(rest: &[u8]) -> Line<'a>
    ensures is { (a r p l : ℕ) → IsIfParts rest.now (line_told result) (report.Turn a r p l) }
    ensures widths { LineHasWidths (line_told result) }
{
    let (activation, rest) = first_small(rest);
    let (ran, rest) = first_small(behind(rest));
    let (pages, rest) = first_small(behind(rest));
    let (locks, _) = first_small(behind(rest));
    Line::Turn {
        activation,
        ran,
        pages,
        locks,
    }
}

/// `commit A number N steps S out HEX`: its numbers, and the word of the bytes.
fn commit(rest: &[u8]) -> (u32, u64, u64, &[u8])
    ensures { AreCommitParts rest.now result.0 result.1 result.2 result.3.now }
{
    let (activation, rest) = first_small(rest);
    let (number, rest) = first_number(behind(rest));
    let (steps, rest) = first_number(behind(rest));
    (activation, number, steps, behind(rest))
}

/// `check A code C at H`.
fn check<'a>(rest: &[u8]) -> Line<'a>
    ensures is { (a c h : ℕ) → IsIfParts rest.now (line_told result) (report.Check a c h) }
    ensures widths { LineHasWidths (line_told result) }
{
    let (activation, rest) = first_small(rest);
    let (code, rest) = first_small(behind(rest));
    Line::Check {
        activation,
        code,
        iar: address(behind(rest)),
    }
}

/// `wait A for U ..`: its activation, and the words of the others.
fn wait(rest: &[u8]) -> (u32, &[u8])
    ensures { AreWaitParts rest.now result.0 result.1.now }
{
    let (activation, rest) = first_small(rest);
    (activation, behind(rest))
}

/// `journal A lines L limit M`.
fn journal<'a>(rest: &[u8]) -> Line<'a>
    ensures is { (a l m : ℕ) → IsIfParts rest.now (line_told result) (report.Journal a l m) }
    ensures widths { LineHasWidths (line_told result) }
{
    let (activation, rest) = first_small(rest);
    let (lines, rest) = first_small(behind(rest));
    let (limit, _) = first_small(behind(rest));
    Line::Journal {
        activation,
        lines,
        limit,
    }
}

/// `doubt A number N`.
fn doubt<'a>(rest: &[u8]) -> Line<'a>
    ensures is { (a n : ℕ) → IsIfParts rest.now (line_told result) (report.Doubt a n) }
    ensures widths { LineHasWidths (line_told result) }
{
    let (activation, rest) = first_small(rest);
    let (number, _) = first_number(behind(rest));
    Line::Doubt(activation, number)
}
