// The numbers and the digits of a text.
ghost use Rattle.std.specs.Prelude.{◌≡◌, ◌≢◌, ◌≤◌, ◌<◌, ◌^◌, ◌++◌, ◌∷◌, ℕ, List, All, drop, decimal, None, IfOk, MatchOption, IsTrue, ◌↔◌};
ghost use Rattle.hex.specs.Hex.{encode_lower};
ghost use Rattle.standby.specs.Read.{ReadsOne};
ghost use Rattle.hex.specs.declared.error.FromHexError.TheVariants.{OutOfMemory};

use hex::FromHexError;
use std::alloc::{AllocError, Global};
use text_line::{number, place_of};

/// What stands in a text after so many bytes; nothing where it has fewer.
pub fn skip(count: usize, text: &[u8]) -> &[u8]
    ensures { result.now ≡ drop count text.now }
{
    if count <= text.len() {
        &text[count..]
    } else {
        &[]
    }
}

/// The number that a text begins with in front of a byte, and what comes after that; anything where it begins with none.
pub fn number_to(stop: u8, text: &[u8]) -> (u64, &[u8])
    requires { stop ≤ 32 }
    ensures { (n : ℕ) (rest : List ℕ) → n < 2 ^ 64 → text.now ≡ decimal n ++ stop ∷ rest → (result.0 ≡ n) × (result.1.now ≡ rest) }
{
    match place_of(stop, text) {
        Some(at) => (number(&text[..at]), &text[at + 1..]),
        None => (0, &[]),
    }
}

/// What stands in a text after bytes; none where it doesn't begin with them.
pub fn behind<'a>(line: &[u8], text: &'a [u8]) -> Option<&'a [u8]>
    ensures { ReadsOne {U = List ℕ} result (λ rest. rest.now) (λ rest. text.now ≡ line.now ++ rest) }
{
    text.strip_prefix(line)
}

/// A number of 32 bits; 0 where it has more.
pub fn small(number: u64) -> u32
    ensures { number < 2 ^ 32 → result ≡ number }
{
    u32::try_from(number).unwrap_or(0)
}

/// A number of 16 bits; 0 where it has more.
pub fn short(number: u64) -> u16
    ensures { number < 2 ^ 16 → result ≡ number }
{
    u16::try_from(number).unwrap_or(0)
}

/// The bytes that digits in lower case are; none where they are none.
pub fn bytes_of(alloc: Global, digits: &[u8]) -> Result<Option<Vec<u8>>, AllocError>
    ensures { IfOk result (λ found. MatchOption found
        ((held : List ℕ) → All (λ byte. byte < 256) held → digits.now ≢ encode_lower held)
        (λ held. (digits.now ≡ encode_lower held.items) × All (λ byte. byte < 256) held.items)) }
{
    match hex::decode(alloc, digits) {
        Ok(bytes) => {
            if is_written(alloc, bytes.as_slice(), digits)? {
                Ok(Some(bytes))
            } else {
                Ok(None)
            }
        }
        Err(fault) => no_bytes(fault),
    }
}

/// No bytes, unless there was no memory.
fn no_bytes(fault: FromHexError) -> Result<Option<Vec<u8>>, AllocError>
    ensures { IfOk result (λ found. (found ≡ None) × (fault ≢ OutOfMemory)) }
{
    match fault {
        FromHexError::OutOfMemory => Err(AllocError),
        _ => Ok(None),
    }
}

/// Whether digits are those of bytes, in lower case.
fn is_written(alloc: Global, bytes: &[u8], digits: &[u8]) -> Result<bool, AllocError>
    ensures written { IfOk result (λ is. IsTrue is ↔ (digits.now ≡ encode_lower bytes.now)) }
    ensures small { All (λ byte. byte < 256) bytes.now }
{
    let written = hex::encode(alloc, bytes)?;
    Ok(digits == written.as_bytes())
}
