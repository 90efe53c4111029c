// The bytes of a job, a bundle, a ship text or a store, whole from their source.
ghost use Rattle.std.specs.Prelude.{◌≡◌, ◌≢◌, ◌≤◌, ◌<◌, ◌^◌, List, ℕ, Option, MatchResult, IfErr, OnOk};
ghost use Rattle.outside.specs.Causes.{Rose};
ghost use Rattle.call_status.specs.declared.source_text.TextFault.TheVariants.{Memory as memory_fault, Source as source_fault};
ghost use Rattle.call_status.specs.SourceText.{IsAll, IsWhy};

use outside::{Failed, Source};
use std::alloc::{AllocError, Global};

/// The most bytes that a job may have.
pub const MOST_OF_JOB: usize = 1_048_576;
/// The most bytes that the source of a renewal may have.
pub const MOST_OF_STORE: usize = 4_194_304;
/// The most bytes that a bundle may have.
pub const MOST_OF_BUNDLE: usize = 33_554_432;

/// Why a text could not be had.
#[derive(Clone, Copy)]
pub enum TextFault {
    /// The source failed.
    Source,
    /// The source gave a byte too many.
    TooBig,
    /// There is no memory.
    Memory,
}

impl From<Failed> for TextFault {
    ghost from_gives = { λ _ fault. fault ≡ source_fault };

    fn from(_failed: Failed) -> Self {
        TextFault::Source
    }
}

impl From<AllocError> for TextFault {
    ghost from_gives = { λ _ fault. fault ≡ memory_fault };

    fn from(_error: AllocError) -> Self {
        TextFault::Memory
    }
}

/// Reads a source to its end, or to the first byte after so many.
///
/// # Errors
///
/// As [`TextFault`] says; what was read is lost then.
pub fn read_text<S: Source>(
    alloc: Global,
    source: &mut S,
    most: usize,
) -> Result<Vec<u8>, TextFault>
    requires { most < 2 ^ 32 }
    ensures bytes { MatchResult result (λ text. IsAll most (S.left source.old) (S.left source.new) text.items)
        (λ fault. IsWhy most fault (S.left source.old) (S.left source.new) (Rose (S.faults source.old) (S.faults source.new))) }
    ensures later { S.faults source.old ≤ S.faults source.new }
    ensures unfailed { OnOk result (S.faults source.new ≡ S.faults source.old) }
    ensures calm { IfErr result (λ fault. fault ≢ source_fault → S.faults source.new ≡ S.faults source.old) }
{
    let mut text = Vec::new(alloc);
    while text.len() <= most {
        let mut part = [0; 4096];
        let room = (most + 1 - text.len()).min(part.len());
        let count = source.read(&mut part[..room])?;
        if count == 0 {
            return Ok(text);
        }
        text.extend_from_slice(&part[..count])?;
    }
    Err(TextFault::TooBig)
}
