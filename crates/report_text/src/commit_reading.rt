ghost use Rattle.std.specs.Prelude.{◌≡◌, ◌≢◌, ◌<◌, ◌≤◌, ◌^◌, ◌↔◌, ◌==◌, ◌||◌, ◌⊎◌, IsTrue, ℕ, List, [], ◌∷◌, ◌++◌, length, filter, Some, None, Ok, IfOk, OnOk, MatchOption, MatchResult, All};
ghost use Rattle.std.specs.Char.{is_ascii_alphabetic};
ghost use Rattle.std.specs.List.{list_all};
ghost use Rattle.std.specs.Option.{option_to_list};
ghost use Rattle.asm_parse.specs.Token.{continues_word};
ghost use Rattle.desk.specs.ReportLines.{line_text};
ghost use Rattle.desk.specs.ReportLines as report;
ghost use Rattle.job_text.specs.Ready.{IsName};
ghost use Rattle.report_text.specs.declared.commit_reading.LinesFault.TheVariants as lines;
ghost use Rattle.report_text.specs.Line.{IsShort, commit_told, line_told};
ghost use Rattle.report_text.specs.Words.{bytes_printed, numbers_in};
ghost use Rattle.report_text.specs.ReadLines.{AreCommitsOf, BeginsWithTold, BeginsWithNone, Finds, IsLinesFault, IsNoLine, IsNoLineWith, IsToldLine, IsWholeLine};

use super::guess::{Lists, guess};
use super::report_line::{CommitLine, Line};
use super::reporter::fill;
use std::alloc::{AllocError, AllocFailed, Global};
use text_line::{TextLine, place_of};

/// Why a text is not made up of lines of a report.
#[derive(Clone, Copy)]
pub enum LinesFault {
    /// The first line that is none, counted from 1.
    Bad(u32),
    /// There is no memory.
    Memory,
}

impl From<AllocError> for LinesFault {
    ghost from_gives = { λ _ fault. fault ≡ lines.Memory };

    fn from(_error: AllocError) -> Self {
        LinesFault::Memory
    }
}

impl<T: Drop> From<AllocFailed<T>> for LinesFault {
    ghost from_gives = { λ _ fault. fault ≡ lines.Memory };

    fn from(_error: AllocFailed<T>) -> Self {
        LinesFault::Memory
    }
}

/// The commit lines of a report, among the lines whose bytes make up its text (docs/FORMATS.md, "Report"). It takes time linear
/// in the text, and memory for these alone.
///
/// # Errors
///
/// [`LinesFault::Bad`] with the number of the first line that is none; a last line without its line feed is none.
/// [`LinesFault::Memory`] where there is no memory.
pub fn read_commits(alloc: Global, text: &[u8]) -> Result<Vec<CommitLine>, LinesFault>
    requires { length text.now < 2 ^ 32 }
    ensures { MatchResult result (λ read. AreCommitsOf text.now read.items) (IsLinesFault text.now) }
{
    let mut commits = Vec::new(alloc);
    let mut room = TextLine::new();
    let mut number: u32 = 1;
    let mut left = text;
    while !left.is_empty() {
        match next_line(alloc, &mut room, left)? {
            Some((told, rest)) => {
                keep(&mut commits, told)?;
                number += 1;
                left = rest;
            }
            None => return Err(LinesFault::Bad(number)),
        }
    }
    Ok(commits)
}

/// Keeps what a line tells, if it is that of a commit.
fn keep(commits: &mut Vec<CommitLine>, told: Option<CommitLine>) -> Result<(), AllocError>
    ensures { OnOk result (commits.new.items ≡ commits.old.items ++ option_to_list told) }
{
    if let Some(commit) = told {
        commits.push(commit)?;
    }
    Ok(())
}

/// What the line that a text begins with tells, if it is that of a commit, and what comes after it; none where it begins with
/// no line.
fn next_line<'a>(
    alloc: Global,
    room: &mut TextLine,
    text: &'a [u8],
) -> Result<Option<(Option<CommitLine>, &'a [u8])>, AllocError>
    ensures { Finds result (BeginsWithNone text.now) (λ told. BeginsWithTold text.now told.0 told.1.now) }
{
    match place_of(b'\n', text) {
        Some(at) => match whole_line(alloc, room, &text[..at + 1])? {
            Some(told) => Ok(Some((told, &text[at + 1..]))),
            None => Ok(None),
        },
        None => Ok(None),
    }
}

/// What the line that a text is tells, if it is that of a commit; the text's last byte is a line feed. None where it is no line.
fn whole_line(
    alloc: Global,
    room: &mut TextLine,
    text: &[u8],
) -> Result<Option<Option<CommitLine>>, AllocError>
    requires { 0 < length text.now }
    ensures { Finds result (IsNoLine text.now) (IsToldLine text.now) }
{
    let lists = Lists::of(alloc, &text[..text.len() - 1])?;
    line_with(alloc, room, &lists, text)
}

/// The same where the line has these lists.
fn line_with(
    alloc: Global,
    room: &mut TextLine,
    lists: &Lists,
    text: &[u8],
) -> Result<Option<Option<CommitLine>>, AllocError>
    requires { 0 < length text.now }
    ensures { Finds result (IsNoLineWith lists.now.numbers.items lists.now.bytes.items text.now) (IsToldLine text.now) }
{
    let line = guess(lists, &text[..text.len() - 1]);
    if are_bytes_of(room, &line, text) {
        Ok(Some(CommitLine::of(alloc, &line)?))
    } else {
        Ok(None)
    }
}

/// Whether a line may be put, and its bytes are these.
fn are_bytes_of(room: &mut TextLine, line: &Line, text: &[u8]) -> bool
    ensures { IsTrue result ↔ (IsWholeLine (line_told line.now) × (text.now ≡ line_text (line_told line.now))) }
{
    is_line(line) && is_written(room, line, text)
}

/// Whether a line may be put.
fn is_line(line: &Line) -> bool
    ensures whole { IsTrue result ↔ IsWholeLine (line_told line.now) }
    ensures short { IsTrue result → IsShort line.now }
{
    match *line {
        Line::Begin(_, name) => is_name(name),
        Line::Busy(_, name) => is_name(name),
        Line::NoSegment(_, name, _) => is_name(name),
        Line::Cycle(members) => !members.is_empty() && members.len() <= 17,
        Line::Wait(_, holders) => !holders.is_empty() && holders.len() <= 16,
        Line::Commit { out, .. } => out.len() <= 4096,
        _ => true,
    }
}

/// Whether bytes are a name of the job grammar.
fn is_name(name: &[u8]) -> bool
    ensures { IsTrue result ↔ IsName name.now }
{
    match name {
        [first, others @ ..] => begins(*first) && goes_on(others) && name.len() <= 31,
        [] => false,
    }
}

/// Whether a name may begin with a byte.
fn begins(byte: u8) -> bool
    ensures { result ≡ (is_ascii_alphabetic byte || byte == 95) }
{
    byte.is_ascii_alphabetic() || byte == b'_'
}

/// Whether a name may go on with these bytes.
fn goes_on(bytes: &[u8]) -> bool
    ensures { result ≡ list_all continues_word bytes.now }
{
    bytes
        .iter()
        .all(|byte| byte.is_ascii_alphanumeric() || *byte == b'_')
}

/// Whether these are the bytes of a line.
fn is_written(room: &mut TextLine, line: &Line, text: &[u8]) -> bool
    requires { IsShort line.now }
    ensures { IsTrue result ↔ (text.now ≡ line_text (line_told line.now)) }
{
    fill(room, line);
    text == room.as_slice()
}
