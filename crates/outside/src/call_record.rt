// The record of a disk's calls.
ghost use Rattle.std.specs.Prelude.{◌≡◌, ◌≤◌, ◌++◌, [], ◌∷◌, length, OnOk, OnErr, IsSome};
ghost use Rattle.outside.specs.Bytes.{written};
ghost use Rattle.outside.specs.Calls.{made_of};
ghost use Rattle.outside.specs.Plan as plan;
ghost use Rattle.outside.specs.Record as spec;
ghost use Rattle.outside.specs.Record.{held_by, held_first, IsWriteInRange};

use crate::recorded_calls::Calls;
use std::alloc::{AllocError, Global};

/// What a call did to the bytes that a disk holds.
#[derive(Drop)]
pub enum DiskCall {
    /// Nothing.
    Asked,
    /// Nothing, and they are all on the disk.
    Synced,
    /// These bytes were written at the offset.
    Wrote {
        at: usize,
        bytes: Vec<u8>,
    },
    /// A write over so many bytes failed, and these were written.
    Tore {
        at: usize,
        bytes: Vec<u8>,
        count: usize,
    },
}

impl DiskCall {
    /// Whether it is a write that succeeded.
    pub fn is_write(&self) -> bool
        ensures { result ≡ spec.is_write self.now }
    {
        matches!(self, DiskCall::Wrote { .. })
    }
}

/// How a write goes on a disk in memory.
#[derive(Clone, Copy)]
pub enum Fate {
    /// All its bytes are written.
    Whole,
    /// It is refused, and writes nothing.
    Refused,
    /// The disk stops at it, and has its outcome written.
    Cut,
    /// The disk had stopped before.
    Stopped,
}

impl Fate {
    /// Whether the write fails.
    pub fn is_failed(self) -> bool
        ensures { result ≡ plan.is_failed self }
    {
        !matches!(self, Fate::Whole)
    }

    /// Whether the disk has stopped after it.
    pub fn stops(self) -> bool
        ensures { result ≡ plan.stops self }
    {
        matches!(self, Fate::Cut | Fate::Stopped)
    }
}

// Writes over what is there, and past the end.
fn overwrite(held: &mut Vec<u8>, at: usize, bytes: &[u8]) -> Result<(), AllocError>
    requires { at ≤ length held.old.items }
    ensures ok { OnOk result (held.new.items ≡ written held.old.items at bytes.now) }
    ensures err { OnErr result (held.new.items ≡ held.old.items) }
{
    let inside = bytes.len().min(held.len() - at);
    held.extend_from_slice(&bytes[inside..])?;
    held[at..at + inside].copy_from_slice(&bytes[..inside]);
    Ok(())
}

// Keeps what was held first, before it is changed.
fn keep_first(alloc: Global, first: &mut Option<Vec<u8>>, held: &Vec<u8>) -> Result<(), AllocError>
    ensures same { held_first first.new held.now.items ≡ held_first first.old held.now.items }
    ensures kept { OnOk result (IsSome first.new) }
{
    if first.is_none() {
        *first = Some(held.to_vec(alloc)?);
    }
    Ok(())
}

/// Does what the entry says to the bytes held, and records it.
#[inline(always)]
pub fn enter(
    alloc: Global,
    first: &mut Option<Vec<u8>>,
    held: &mut Vec<u8>,
    calls: &mut Calls,
    entry: DiskCall,
) -> Result<(), AllocError>
    requires { IsWriteInRange entry held.old.items }
    ensures held { OnOk result (held.new.items ≡ held_by entry held.old.items) }
    ensures calls { OnOk result (made_of calls.new ≡ made_of calls.old ++ entry ∷ []) }
    ensures first { held_first first.new held.new.items ≡ held_first first.old held.old.items }
    ensures same { OnErr result (held.new.items ≡ held.old.items) }
    ensures none { OnErr result (made_of calls.new ≡ made_of calls.old) }
{
    if let DiskCall::Asked = &entry {
        return calls.ask();
    }
    calls.reserve()?;
    if let DiskCall::Wrote { at, bytes } | DiskCall::Tore { at, bytes, .. } = &entry {
        keep_first(alloc, first, held)?;
        overwrite(held, *at, bytes)?;
    }
    calls.push(entry);
    Ok(())
}
