ghost use Rattle.std.specs.Prelude.{◌≡◌, ◌≢◌, ◌+◌, ◌≤◌, ◌<◌, ◌^◌, ◌↔◌, IsTrue, ℕ, List, [], ◌∷◌, length, codes, decimal, MatchOption, MatchResult};
ghost use Rattle.std.specs.List.{join_with_byte};
ghost use Rattle.serial_audit.specs.Bundle.{AreAllowed, IsBundle, IsWrongAt, Sizes, bundle_from, head_text, head_words, parts_size, sizes_of, TellsSizes, LieFrom};

use report_text::{behind, first_number, place_of};
use text_line::TextLine;

/// The most bytes of a job.
const MOST_JOB: u64 = 1_048_576;
/// The most bytes of a report or of a store.
const MOST: u64 = 33_554_432;

/// A part of a bundle: the place of its first byte, and the place after its last.
#[derive(Clone, Copy)]
pub struct Span {
    pub from: u32,
    pub to: u32,
}

/// Where the parts of a bundle lie (docs/FORMATS.md, "Bundle").
#[derive(Clone, Copy)]
pub struct Bundle {
    pub job: Span,
    pub report: Span,
    pub opening: Span,
    pub closing: Span,
}

/// The lengths that a first line tells.
#[derive(Clone, Copy)]
struct Lengths {
    job: u64,
    report: u64,
    opening: u64,
    closing: u64,
}

/// The parts of a bundle (docs/FORMATS.md, "Bundle"). It takes no memory.
///
/// # Errors
///
/// 0 where the first line is of another form or a length is too large, and 5 where the bytes after it aren't as many as
/// the four lengths together.
pub fn split_bundle(bytes: &[u8]) -> Result<Bundle, u8>
    ensures { MatchResult result (IsBundle bytes.now) (IsWrongAt bytes.now) }
{
    match place_of(b'\n', bytes) {
        Some(at) => {
            let lengths = lengths_in(&bytes[..at]);
            if !lengths.are_allowed() || !lengths.are_told(&bytes[..at + 1]) {
                return Err(0);
            }
            match lengths.parts(at as u64 + 1, bytes.len() as u64) {
                Some(bundle) => Ok(bundle),
                None => Err(5),
            }
        }
        None => Err(0),
    }
}

/// The lengths that a line can only tell, if it is a first line.
fn lengths_in(line: &[u8]) -> Lengths
    ensures { TellsSizes line.now (sizes_of result) }
{
    let (job, rest) = first_number(behind(line));
    let (report, rest) = first_number(rest);
    let (opening, rest) = first_number(rest);
    let (closing, _) = first_number(rest);
    Lengths {
        job,
        report,
        opening,
        closing,
    }
}

impl Lengths {
    /// Whether no part is too long.
    fn are_allowed(&self) -> bool
        ensures { IsTrue result ↔ AreAllowed (sizes_of self.now) }
    {
        self.job <= MOST_JOB && self.report <= MOST && self.opening <= MOST && self.closing <= MOST
    }

    /// Whether a line tells just these lengths.
    fn are_told(&self, line: &[u8]) -> bool
        ensures told { IsTrue result ↔ (line.now ≡ head_text (sizes_of self.now)) }
        ensures short { IsTrue result → length line.now ≤ 100 }
    {
        let mut text = TextLine::new();
        text.begin(b"audit");
        text.number(self.job);
        text.number(self.report);
        text.number(self.opening);
        text.number(self.closing);
        text.end();
        line == text.as_slice()
    }

    /// The parts one after the other from a place on, if they end at this end.
    fn parts(&self, begin: u64, end: u64) -> Option<Bundle>
        requires allowed { AreAllowed (sizes_of self.now) }
        requires begin { begin ≤ 100 }
        ensures { LieFrom begin end (sizes_of self.now) result }
    {
        let job = span_of(begin, self.job);
        let report = span_of(begin + self.job, self.report);
        let opening = span_of(begin + self.job + self.report, self.opening);
        let closing = span_of(begin + self.job + self.report + self.opening, self.closing);
        if u64::from(closing.to) == end {
            Some(Bundle {
                job,
                report,
                opening,
                closing,
            })
        } else {
            None
        }
    }
}

/// So many bytes from a place on.
fn span_of(from: u64, length: u64) -> Span
    requires { from + length < 2 ^ 32 }
    ensures { result ≡ record { from = from; to = from + length } }
{
    Span {
        from: from as u32,
        to: (from + length) as u32,
    }
}
