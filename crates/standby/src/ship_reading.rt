// A ship text, read.
ghost use Rattle.std.specs.Prelude.{◌≡◌, ◌≢◌, ◌+◌, ◌≤◌, ◌<◌, ◌^◌, ◌++◌, ◌∷◌, ℕ, List, All, length, MatchResult, MatchOption, IfOk, IfErr};
ghost use Rattle.standby.specs.Read.{AreFirstLines, IsReadFault, IsReadRecord, ReadsOne};
ghost use Rattle.standby.specs.Text.{IsTextOf, head_line, line_line, lines_text, record_line, record_of};
ghost use Rattle.hex.specs.Hex.{encode_lower};

use super::digit_reading::{behind, bytes_of, number_to, short, skip, small};
use super::ship_filling::{fill_end, fill_head, fill_record};
use super::text::{Ship, ShipFault, ShipRecord};
use std::alloc::{AllocError, Global};
use text_line::{TextLine, place_of};

/// What a ship text holds (docs/FORMATS.md, "Ship text"). It takes time linear in the text.
///
/// # Errors
///
/// [`ShipFault::Bad`] with the first line with which no ship text goes on from the lines before it, or the one after the
/// last; [`ShipFault::Memory`] where there is no memory.
pub fn read_ship(alloc: Global, text: &[u8]) -> Result<Ship, ShipFault>
    requires { length text.now < 2 ^ 32 }
    ensures { MatchResult result (IsTextOf text.now) (IsReadFault text.now) }
{
    let mut room = TextLine::new();
    match head_of(&mut room, text) {
        Some((line_bytes, lines, start, rest)) => {
            read_records(alloc, &mut room, line_bytes, lines, start, rest)
        }
        None => Err(ShipFault::Bad(1)),
    }
}

/// What a text holds that begins with this head, and goes on so.
fn read_records(
    alloc: Global,
    room: &mut TextLine,
    line_bytes: u16,
    lines: u32,
    start: u64,
    text: &[u8],
) -> Result<Ship, ShipFault>
    requires some { 1 ≤ line_bytes }
    requires few { length text.now + 3 < 2 ^ 32 }
    ensures { MatchResult result (IsTextOf (head_line line_bytes lines start ++ text.now)) (IsReadFault (head_line line_bytes lines start ++ text.now)) }
{
    let mut records = Vec::new(alloc);
    let mut number = start;
    let mut left = text;
    let mut read = 1;
    while let Some((count, rest)) = count_of(room, number.wrapping_add(1), lines, left) {
        match read_record(alloc, room, line_bytes, lines, count, rest, read + 1) {
            Ok((record, rest)) => {
                records.push(record)?;
                number = number.wrapping_add(1);
                left = rest;
                read += 1 + count;
            }
            Err(fault) => return Err(fault),
        }
    }
    fill_end(room, number);
    match behind(room.as_slice(), left) {
        Some(rest) => {
            if rest.is_empty() {
                Ok(Ship {
                    line_bytes,
                    lines,
                    start,
                    records,
                })
            } else {
                Err(ShipFault::Bad(read + 2))
            }
        }
        None => Err(ShipFault::Bad(read + 1)),
    }
}

/// The record of so many lines that a text goes on with after so many lines, and what comes after it.
fn read_record<'a>(
    alloc: Global,
    room: &mut TextLine,
    line_bytes: u16,
    lines: u32,
    count: u32,
    text: &'a [u8],
    read: u32,
) -> Result<(ShipRecord, &'a [u8]), ShipFault>
    requires fits { count ≤ lines }
    requires few { read + length text.now + 2 < 2 ^ 32 }
    ensures done { IfOk result (λ one. IsReadRecord line_bytes lines count text.now one.0 one.1.now) }
    ensures goes { IfOk result (λ done. (front : List ℕ) (number : ℕ) → AreFirstLines line_bytes lines front read number count 0 → AreFirstLines line_bytes lines (front ++ lines_text (record_of line_bytes done.0)) (read + count) number 0 0) }
    ensures fault { IfErr result (λ fault. (front : List ℕ) (number : ℕ) → number < 2 ^ 64 → AreFirstLines line_bytes lines front read number count 0 → IsReadFault (front ++ text.now) fault) }
{
    let mut record = ShipRecord {
        lines: Vec::new(alloc),
        bytes: Vec::new(alloc),
    };
    let mut least = 0;
    let mut left = text;
    for index in 0..count {
        let most = lines - (count - index);
        match line_of(alloc, room, line_bytes, least, most, left)? {
            Some((line, bytes, rest)) => {
                record.lines.push(line)?;
                record.bytes.extend_from_slice(bytes.as_slice())?;
                least = line + 1;
                left = rest;
            }
            None => return Err(ShipFault::Bad(read + index + 1)),
        }
    }
    Ok((record, left))
}

/// What the first line of a text tells, and what comes after it; none where it is no head.
fn head_of<'a>(room: &mut TextLine, text: &'a [u8]) -> Option<(u16, u32, u64, &'a [u8])>
    ensures { MatchOption result
        ((bytes lines start : ℕ) (rest : List ℕ) → 1 ≤ bytes → bytes < 2 ^ 16 → lines < 2 ^ 32 → start < 2 ^ 64 → text.now ≢ head_line bytes lines start ++ rest)
        (λ found. (1 ≤ found.0) × (text.now ≡ head_line found.0 found.1 found.2 ++ found.3.now)) }
{
    let (line_bytes, rest) = number_to(b' ', skip(5, text));
    let (lines, rest) = number_to(b' ', rest);
    let (start, _) = number_to(b'\n', rest);
    let line_bytes = short(line_bytes);
    let lines = small(lines);
    if line_bytes == 0 {
        return None;
    }
    fill_head(room, line_bytes, lines, start);
    match behind(room.as_slice(), text) {
        Some(rest) => Some((line_bytes, lines, start, rest)),
        None => None,
    }
}

/// How many lines the record with this number has whose first line a text begins with, at most so many, and what stands
/// after it; none where it begins with none.
fn count_of<'a>(
    room: &mut TextLine,
    number: u64,
    lines: u32,
    text: &'a [u8],
) -> Option<(u32, &'a [u8])>
    ensures { ReadsOne {U = ℕ × List ℕ} result (λ found. (found.0, found.1.now)) (λ one. (one.0 ≤ lines) × (text.now ≡ record_line number one.0 ++ one.1)) }
{
    let (_, rest) = number_to(b' ', skip(7, text));
    let (count, _) = number_to(b'\n', rest);
    let count = small(count);
    if lines < count {
        return None;
    }
    fill_record(room, number, count);
    match behind(room.as_slice(), text) {
        Some(rest) => Some((count, rest)),
        None => None,
    }
}

/// The number and the bytes of the line of a record that a text begins with, the number within bounds, and what stands
/// after it; none where it begins with none.
fn line_of<'a>(
    alloc: Global,
    room: &mut TextLine,
    line_bytes: u16,
    least: u32,
    most: u32,
    text: &'a [u8],
) -> Result<Option<(u32, Vec<u8>, &'a [u8])>, AllocError>
    ensures { IfOk result (λ found. ReadsOne {U = ℕ × List ℕ × List ℕ} found (λ one. (one.0, one.1.items, one.2.now))
        (λ one. (least ≤ one.0) × (one.0 ≤ most) × (length one.1 ≡ line_bytes) × All (λ byte. byte < 256) one.1 × (text.now ≡ line_line one.0 one.1 ++ one.2))) }
{
    let (line, _) = number_to(b' ', skip(5, text));
    let line = small(line);
    if line < least || most < line {
        return Ok(None);
    }
    room.begin(b"line");
    room.number(u64::from(line));
    room.word(&[]);
    match behind(room.as_slice(), text) {
        Some(digits) => match held_of(alloc, line_bytes, digits)? {
            Some((held, rest)) => Ok(Some((line, held, rest))),
            None => Ok(None),
        },
        None => Ok(None),
    }
}

/// The bytes of a line whose digits a text begins with, to the end of a line of text, and what comes after it.
fn held_of<'a>(
    alloc: Global,
    line_bytes: u16,
    text: &'a [u8],
) -> Result<Option<(Vec<u8>, &'a [u8])>, AllocError>
    ensures { IfOk result (λ found. ReadsOne {U = List ℕ × List ℕ} found (λ one. (one.0.items, one.1.now))
        (λ one. (length one.0 ≡ line_bytes) × All (λ byte. byte < 256) one.0 × (text.now ≡ encode_lower one.0 ++ 10 ∷ one.1))) }
{
    match place_of(b'\n', text) {
        Some(at) => {
            if at != 2 * usize::from(line_bytes) {
                return Ok(None);
            }
            match bytes_of(alloc, &text[..at])? {
                Some(held) => Ok(Some((held, &text[at + 1..]))),
                None => Ok(None),
            }
        }
        None => Ok(None),
    }
}
