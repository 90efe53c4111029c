// The words of the command line.
ghost use Rattle.std.specs.Prelude.{◌≡◌, ◌≢◌, ◌≤◌, ◌<◌, ◌+◌, ◌^◌, [], ◌∷◌, ◌++◌, Bool, List, ℕ, All, map, length, false, MatchOption, Some, string_bytes};
ghost use Rattle.console.specs.Below.{AreFlags, HasRanges, IsInRange, AreSegmentsLegal};
ghost use Rattle.store_format.specs.Header.{Header as Layout};
ghost use Rattle.console.specs.Words.{IsForm, IsNoForm, AreBounded, AreNumbers, StandsAlone, IsLong, IsNumbered, IsOnStore, number_said, word_of, numbers_of, argument_number, marked_of, plain, spread, FindsOne, AreNumbersOf, AddsSegments, IsSegmentOf, IsNumberedForm, IsCommandWith, IsCommandAlone, IsCommandOn, IsRangeOf, IsHeaderOf, IsDirectoryOf, IsBankSize};

use arrayvec::ArrayVec;
use lines::{Directory, PageSize};
use store_calls::Range;
use store_format::Header;

/// The most numbers that a form has: the bytes of a bank, and fifteen segments with their pages.
const MOST_NUMBERS: usize = 31;

/// The letter after the pages of a fine segment.
const FINE: char = 'f';

/// What the words ask for (docs/FORMATS.md, "Words").
#[derive(Drop)]
pub enum Command {
    /// The events of a job are run, on the disk that is handed in.
    Try,
    /// The same on a store in a file.
    Run,
    /// The programs of a job are listed.
    List,
    /// A job is stopped at each of its writes in turn.
    Drill,
    /// Bytes of a store in a file are printed.
    Show(Range),
    /// A store with this header is made in a file: of version 1 where its pages have 2,048 bytes, else of version 2.
    New(Header),
    /// A store of version 1 that the source has is made one of version 2 in a file, with a bank of so many bytes.
    Renew(u32),
    /// The records that a store in a file keeps after a number are printed.
    Ship(u64),
    /// The records of the source's ship text are committed to a store in a file.
    Follow,
    /// The load of so many transfers is run, on the disk that is handed in.
    Big(u32),
    /// A bundle is audited.
    Audit,
    /// The lines that an activation touched in the run of a bundle are printed.
    Trace(u32),
}

/// The command that the words are, if they are one.
pub fn command_of(words: &[String]) -> Option<Command>
    ensures { MatchOption result (IsNoForm words.now) (λ command. IsForm command words.now) }
{
    if let Some(command) = numbered(words) {
        return Some(command);
    }
    if let Some(from) = shipping(words) {
        return Some(Command::Ship(from));
    }
    match words {
        [] => None,
        [word] => command_alone(word.as_str()),
        [word, store, rest @ ..] => {
            if store.as_str().is_empty() {
                return None;
            }
            match numbers_of(rest) {
                Some(numbers) => command_on(word.as_str(), numbers.as_slice()),
                None => None,
            }
        }
    }
}

/// The command that a word and a number are, if the words are these.
fn numbered(words: &[String]) -> Option<Command>
    ensures { FindsOne (IsNumberedForm words.now) result }
{
    match words {
        [word, number] => command_with(word.as_str(), number.as_str()),
        _ => None,
    }
}

/// The number from which the words ask a store to ship, if they do.
fn shipping(words: &[String]) -> Option<u64>
    ensures { FindsOne (λ from. IsForm (Command.Ship from) words.now) result }
{
    match words {
        [word, store, number] if word.as_str() == "ship" && !store.as_str().is_empty() => {
            long_number_of(number.as_str())
        }
        _ => None,
    }
}

/// The command that a word is with this number.
fn command_with(word: &str, number: &str) -> Option<Command>
    ensures { FindsOne (IsCommandWith word.now number.now) result }
{
    let number = number_of(number)?;
    if word == "trace" {
        Some(Command::Trace(number))
    } else if word == "big" && (1..=512).contains(&number) {
        Some(Command::Big(number))
    } else {
        None
    }
}

/// The command that one word alone is.
fn command_alone(word: &str) -> Option<Command>
    ensures { FindsOne (IsCommandAlone word.now) result }
{
    if word == "try" {
        Some(Command::Try)
    } else if word == "list" {
        Some(Command::List)
    } else if word == "drill" {
        Some(Command::Drill)
    } else if word == "audit" {
        Some(Command::Audit)
    } else {
        None
    }
}

/// The command that a word is with a store and these numbers, each with its mark or without.
fn command_on(word: &str, numbers: &[(u32, bool)]) -> Option<Command>
    ensures { FindsOne (IsCommandOn word.now numbers.now) result }
{
    if word == "run" {
        bare(numbers, Command::Run)
    } else if word == "follow" {
        bare(numbers, Command::Follow)
    } else if word == "show" {
        range_of(numbers).map(Command::Show)
    } else if word == "new" {
        header_of(PageSize::Two, numbers).map(Command::New)
    } else if word == "new2" {
        header_of(PageSize::Four, numbers).map(Command::New)
    } else if word == "renew" {
        bank_of(numbers).map(Command::Renew)
    } else {
        None
    }
}

/// A command on a store that has no numbers.
fn bare(numbers: &[(u32, bool)], command: Command) -> Option<Command>
    ensures { MatchOption result (numbers.now ≢ []) (λ bare. (bare ≡ command) × (numbers.now ≡ [])) }
{
    if numbers.is_empty() {
        Some(command)
    } else {
        None
    }
}

/// The range that these numbers are: its segment, its first offset and its number of bytes.
fn range_of(numbers: &[(u32, bool)]) -> Option<Range>
    ensures { FindsOne (IsRangeOf numbers.now) result }
{
    match numbers {
        [(segment, false), (from, false), (count, false)] if *count <= 65_536 => Some(Range {
            segment: *segment,
            from: *from,
            count: *count,
        }),
        _ => None,
    }
}

/// The bytes of a bank that these numbers are.
fn bank_of(numbers: &[(u32, bool)]) -> Option<u32>
    ensures { FindsOne (IsBankSize numbers.now) result }
{
    match numbers {
        [(bank, false)] if (4_096..=131_072).contains(bank) => Some(*bank),
        _ => None,
    }
}

/// The header that these numbers are, with pages of this size: the bytes of a bank, and the segments with their pages, which
/// are marked where the segment is fine.
fn header_of(page: PageSize, numbers: &[(u32, bool)]) -> Option<Header>
    ensures { FindsOne (IsHeaderOf page numbers.now) result }
{
    match numbers {
        [(bank_bytes, false), rest @ ..] if (4_096..=131_072).contains(bank_bytes) => {
            match directory_of(page, rest) {
                Some(directory) => Some(Header::new(directory, *bank_bytes)),
                None => None,
            }
        }
        _ => None,
    }
}

/// The directory of the segments that these numbers are, each an identifier and its pages, with pages of this size.
fn directory_of(page: PageSize, numbers: &[(u32, bool)]) -> Option<Directory>
    ensures { FindsOne (IsDirectoryOf page numbers.now) result }
{
    let mut segments = ArrayVec::<(u16, u16), 15>::new();
    let fine = add_segments(numbers, &mut segments)?;
    match Directory::with_fine(page, segments.as_slice(), fine) {
        Ok(directory) => Some(directory),
        Err(_) => None,
    }
}

/// Adds the segments that these numbers are, each an identifier and its pages, and gives their flags, the first one's lowest;
/// none where they aren't such, or there is no room.
fn add_segments(numbers: &[(u32, bool)], segments: &mut ArrayVec<(u16, u16), 15>) -> Option<u16>
    requires { length segments.old.items ≤ 15 }
    ensures few { length segments.new.items ≤ 15 }
    ensures flags { AddsSegments numbers.now segments.old.items segments.new.items result }
{
    match numbers {
        [] => Some(0),
        [(identifier, false), (pages, is_fine), rest @ ..] => {
            let segment = segment_of(*identifier, *pages)?;
            if segments.try_push(segment).is_err() {
                return None;
            }
            let others = add_segments(rest, segments)?;
            Some(2 * others + u16::from(*is_fine))
        }
        _ => None,
    }
}

/// An identifier and pages as they are kept; none where one is far out of its range.
fn segment_of(identifier: u32, pages: u32) -> Option<(u16, u16)>
    ensures { IsSegmentOf identifier pages result }
{
    match (u16::try_from(identifier), u16::try_from(pages)) {
        (Ok(identifier), Ok(pages)) => Some((identifier, pages)),
        _ => None,
    }
}

/// The numbers that these words are, where all are and a form has as many.
fn numbers_of(words: &[String]) -> Option<ArrayVec<(u32, bool), MOST_NUMBERS>>
    ensures { AreNumbersOf words.now result }
{
    let mut numbers = ArrayVec::new();
    for word in words {
        match marked_of(word.as_str()) {
            None => return None,
            Some(number) => {
                if numbers.try_push(number).is_err() {
                    return None;
                }
            }
        }
    }
    Some(numbers)
}

/// The number that a word says, if it does, and whether the mark of a fine segment stands after its digits.
fn marked_of(word: &str) -> Option<(u32, bool)>
    ensures { result ≡ marked_of word.now }
{
    match word.strip_suffix(FINE) {
        Some(digits) => Some((number_of(digits)?, true)),
        None => Some((number_of(word)?, false)),
    }
}

/// The number that a word is, if it is one.
fn number_of(word: &str) -> Option<u32>
    ensures { result ≡ argument_number word.now }
{
    let digits = word.as_bytes();
    if digits.is_empty() || digits.len() > 10 || digits[0] == b'+' {
        return None;
    }
    match word.parse::<u32>() {
        Ok(number) => Some(number),
        Err(_) => None,
    }
}

/// The long number that a word is, if it is one.
fn long_number_of(word: &str) -> Option<u64>
    ensures { FindsOne (IsLong word.now) result }
{
    let digits = word.as_bytes();
    if digits.is_empty() || digits.len() > 20 || digits[0] == b'+' {
        return None;
    }
    match word.parse::<u64>() {
        Ok(number) => Some(number),
        Err(_) => None,
    }
}
