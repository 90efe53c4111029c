// The words of a line. Each function here gives what was written where something was, and anything where nothing was.
ghost use Rattle.std.specs.Prelude.{◌≡◌, ◌≢◌, ℕ, ◌<◌, ◌^◌, List, [], ◌∷◌, length, map, decimal, All, IfOk};
ghost use Rattle.std.specs.List.{AllByRecursion, after_first, before_first, join_with_byte};
ghost use Rattle.byteorder.specs.Endian.{big_bytes};
ghost use Rattle.hex.specs.Hex.{encode_lower};
ghost use Rattle.hex.specs.declared.error.FromHexError.TheVariants.{OutOfMemory};
ghost use Rattle.desk.specs.ReportLines.{printed};
ghost use Rattle.report_text.specs.Words.{ArePrinted, AreSmallNumbers, IsTextBehind, IsFirstNumber, IsSplit, is_space};

use byteorder::{BigEndian, ByteOrder};
use hex::FromHexError;
use std::alloc::{AllocError, Global};
use text_line::{number, place_of};

/// The first word of a text, and what comes after the space after it.
pub(crate) fn split(text: &[u8]) -> (&[u8], &[u8])
    ensures first { result.0.now ≡ before_first is_space text.now }
    ensures rest { result.1.now ≡ after_first is_space text.now }
    ensures parts { IsSplit text.now result.0.now result.1.now }
    ensures shorter { length text.now ≢ 0 → length result.1.now < length text.now }
{
    match place_of(b' ', text) {
        Some(at) => (&text[..at], &text[at + 1..]),
        None => (text, &[]),
    }
}

/// What comes after the first word of a text.
pub fn behind(text: &[u8]) -> &[u8]
    ensures value { result.now ≡ after_first is_space text.now }
    ensures parts { IsTextBehind text.now result.now }
{
    split(text).1
}

/// The number of 32 bits that a word is.
pub(crate) fn small(word: &[u8]) -> u32
    ensures { (n : ℕ) → n < 2 ^ 32 → word.now ≡ decimal n → result ≡ n }
{
    u32::try_from(number(word)).unwrap_or(0)
}

/// The number that a text begins with, anything where its first word is none; and what comes after that word.
pub fn first_number(text: &[u8]) -> (u64, &[u8])
    ensures rest { result.1.now ≡ after_first is_space text.now }
    ensures parts { IsFirstNumber 64 text.now result.0 result.1.now }
{
    let (word, rest) = split(text);
    (number(word), rest)
}

/// The number of 32 bits that a text begins with, and what comes after it.
pub(crate) fn first_small(text: &[u8]) -> (u32, &[u8])
    ensures parts { IsFirstNumber 32 text.now result.0 result.1.now }
    ensures shorter { length text.now ≢ 0 → length result.1.now < length text.now }
{
    let (word, rest) = split(text);
    (small(word), rest)
}

/// The numbers of 32 bits that a text is.
pub(crate) fn all_small(alloc: Global, text: &[u8]) -> Result<Vec<u32>, AllocError>
    ensures { IfOk result (λ numbers. AreSmallNumbers text.now numbers.items) }
{
    let mut numbers = Vec::new(alloc);
    let mut left = text;
    while !left.is_empty() {
        let (number, rest) = first_small(left);
        numbers.push(number)?;
        left = rest;
    }
    Ok(numbers)
}

/// The printed bytes that a word is.
pub(crate) fn bytes(alloc: Global, word: &[u8]) -> Result<Vec<u8>, AllocError>
    ensures { IfOk result (λ bytes. ArePrinted word.now bytes.items) }
{
    match hex::decode(alloc, word) {
        Ok(bytes) => Ok(bytes),
        Err(fault) => no_bytes(alloc, fault),
    }
}

/// No bytes, unless there was no memory.
fn no_bytes(alloc: Global, fault: FromHexError) -> Result<Vec<u8>, AllocError>
    ensures { IfOk result (λ bytes. (bytes.items ≡ []) × (fault ≢ OutOfMemory)) }
{
    match fault {
        FromHexError::OutOfMemory => Err(AllocError),
        _ => Ok(Vec::new(alloc)),
    }
}

/// The address that a word is.
pub(crate) fn address(word: &[u8]) -> u32
    ensures { (n : ℕ) → n < 2 ^ 32 → word.now ≡ encode_lower (big_bytes 4 n) → result ≡ n }
{
    let mut bytes = [0; 4];
    let _ = hex::decode_to_slice(word, &mut bytes);
    BigEndian::read_u32(&bytes)
}
