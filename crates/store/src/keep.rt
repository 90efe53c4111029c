// A body that is kept behind a gate.
ghost use Rattle.std.specs.Prelude.{◌≡◌, ◌+◌, ◌<◌, ◌^◌, length, None, Some};
ghost use Rattle.store.specs.Appended.{kept_in, KeepsBody};
ghost use Rattle.store.specs.Held.{HoldsAtLeast, WritesOnce, WritesSure};

use outside::{Failed, Outside};

/// The gate in front of a record. Any other byte is a closed gate.
pub const OPEN: u8 = 0xa5;

/// How far a record was kept (docs/FORMATS.md, "Protocols").
#[derive(Clone, Copy)]
pub enum Kept {
    /// It is on the disk.
    Done,
    /// The disk failed before the gate's write began: a crash leaves no such record.
    Unwritten,
    /// The disk failed from the gate's write on: a crash leaves the record or not.
    Doubt,
}

/// What came of an append: it found no room, or how far the record was kept (docs/FORMATS.md, "Protocols").
#[derive(Clone, Copy)]
pub enum Appended {
    /// As [`Kept::Done`].
    Done,
    /// The record and the gate after it don't fit the rest of the bank: nothing was written.
    Full,
    /// As [`Kept::Unwritten`].
    Unwritten,
    /// As [`Kept::Doubt`].
    Doubt,
}

impl Appended {
    /// How far the record was kept; none where it found no room.
    pub fn kept(self) -> Option<Kept>
        ensures value { result ≡ kept_in self }
        ensures full { result ≡ None → self ≡ Appended.Full }
        ensures done { result ≡ Some Kept.Done → self ≡ Appended.Done }
    {
        match self {
            Appended::Done => Some(Kept::Done),
            Appended::Full => None,
            Appended::Unwritten => Some(Kept::Unwritten),
            Appended::Doubt => Some(Kept::Doubt),
        }
    }
}

/// Writes a body after a closed gate, makes it durable, and then opens the gate and makes that durable.
pub fn keep_body<W: Outside>(outside: &mut W, gate: u64, body: &[u8]) -> Kept
    requires room { HoldsAtLeast W.Outside (gate + 1 + length body.now) outside.old }
    requires few { gate < 2 ^ 63 }
    ensures { KeepsBody W.Outside gate body.now outside.old outside.new result }
{
    match write_sure(outside, gate + 1, body) {
        Err(Failed) => return Kept::Unwritten,
        Ok(()) => {}
    }
    match write_sure(outside, gate, &[OPEN]) {
        Err(Failed) => Kept::Doubt,
        Ok(()) => Kept::Done,
    }
}

/// Writes over bytes that are held, and makes them sure. From the start on a crash may leave anything in their range.
///
/// # Errors
///
/// Only where the disk's count rose.
pub fn write_sure<W: Outside>(outside: &mut W, at: u64, bytes: &[u8]) -> Result<(), Failed>
    requires { HoldsAtLeast W.Outside (at + length bytes.now) outside.old }
    ensures { WritesSure W.Outside at bytes.now outside.old outside.new result }
{
    write_once(outside, at, bytes)?;
    outside.sync()
}

/// Writes over bytes that are held.
///
/// # Errors
///
/// Only where the disk's count rose.
pub fn write_once<W: Outside>(outside: &mut W, at: u64, bytes: &[u8]) -> Result<(), Failed>
    requires { HoldsAtLeast W.Outside (at + length bytes.now) outside.old }
    ensures { WritesOnce W.Outside at bytes.now outside.old outside.new result }
{
    outside.write_at(at, bytes)
}
