// An image that is written on an empty disk, and a line that tells it.
ghost use Rattle.std.specs.Prelude.{◌≡◌, ◌⊎◌, ◌≤◌, [], codes, length, replicate, take, IsSome, IfOk, IfErr, OnOk};
ghost use Rattle.store_calls.specs.Below.{call, FailsOnlyCounted, ForSome, held_of, OnlyAsks, put_of};
ghost use Rattle.store_calls.specs.New.{CanWrite, EndsAs, FillsImage, IsNoEmpty, IsOfWriting, PutsIn, Written, WritesImage, WritesNew};

use call_status::Status;
use outside::{Failed, Outside};

/// How many bytes the name has with which a store begins (docs/FORMATS.md, "Store").
const NAME: u64 = 8;

/// What stands there until the rest is durable.
const UNNAMED: [u8; 8] = [0; 8];

/// Asks whether the disk is empty.
///
/// # Errors
///
/// [`Status::DiskFault`] where its length can't be told, and [`Status::Exists`] where it holds bytes.
pub(super) fn ask_empty<W: Outside>(outside: &mut W) -> Result<(), Status>
    ensures asks { OnlyAsks W.Outside outside.old outside.new }
    ensures empty { OnOk result (IsSome (W.held outside.old) → held_of W.Outside outside.old ≡ []) }
    ensures calm { OnOk result (W.disk_faults outside.new ≡ W.disk_faults outside.old) }
    ensures refused { IfErr result (IsNoEmpty W.Outside outside.old outside.new) }
{
    match length(outside) {
        Err(Failed) => Err(Status::DiskFault),
        Ok(0) => Ok(()),
        Ok(_) => Err(Status::Exists),
    }
}

/// How many bytes the disk holds.
fn length<W: Outside>(outside: &mut W) -> Result<u64, Failed>
    ensures asks { OnlyAsks W.Outside outside.old outside.new }
    ensures cause { FailsOnlyCounted (W.disk_faults outside.old) (W.disk_faults outside.new) result }
    ensures number { IfOk result (λ number. IsSome (W.held outside.old) → number ≡ length (held_of W.Outside outside.old)) }
{
    outside.length()
}

/// Writes an image on an empty disk, and puts a line.
pub(super) fn write_store<W: Outside>(image: &[u8], line: &[u8], outside: &mut W) -> Status
    requires { CanWrite W.Outside image.now outside.old }
    ensures written { Written W.Outside image.now line.now (call outside.old outside.new [] result) }
    ensures ends { EndsAs W.Outside IsOfWriting outside.old outside.new result }
{
    match write(image, outside) {
        Err(Failed) => Status::DiskFault,
        Ok(()) => put_line(line, outside),
    }
}

/// Writes an image on an empty disk and makes it durable. Zeros come first where its name will be, then the rest, and last the name,
/// each made durable before the next: so whenever a crash comes, it leaves no store or the whole one (docs/FORMATS.md, "Protocols").
fn write<W: Outside>(image: &[u8], outside: &mut W) -> Result<(), Failed>
    requires { CanWrite W.Outside image.now outside.old }
    ensures { WritesImage W.Outside image.now outside.old outside.new result }
{
    write_sure(0, &UNNAMED, outside)?;
    fill(image, outside)
}

/// Writes the rest of an image after the place of its name, and then the name.
fn fill<W: Outside>(image: &[u8], outside: &mut W) -> Result<(), Failed>
    requires named { take 8 image.now ≡ codes "801STORE" }
    requires begun { IsSome (W.held outside.old) → held_of W.Outside outside.old ≡ replicate 8 0 }
    ensures { FillsImage W.Outside image.now outside.old outside.new result }
{
    write_sure(NAME, &image[NAME as usize..], outside)?;
    write_sure(0, &image[..NAME as usize], outside)
}

/// Writes bytes at an offset and makes them sure.
fn write_sure<W: Outside>(at: u64, bytes: &[u8], outside: &mut W) -> Result<(), Failed>
    requires { ForSome (W.held outside.old) (λ held. at ≤ length held) }
    ensures { WritesNew W.Outside at bytes.now outside.old outside.new result }
{
    outside.write_at(at, bytes)?;
    outside.sync()
}

/// Puts a line.
fn put_line<W: Outside>(line: &[u8], outside: &mut W) -> Status
    ensures put { PutsIn W.Outside line.now 1 outside.old outside.new (put_of result) }
    ensures only { (result ≡ Status.Done) ⊎ (result ≡ Status.PutFault) }
{
    match put(line, outside) {
        Err(Failed) => Status::PutFault,
        Ok(()) => Status::Done,
    }
}

/// Puts these bytes.
fn put<W: Outside>(bytes: &[u8], outside: &mut W) -> Result<(), Failed>
    ensures { PutsIn W.Outside bytes.now 1 outside.old outside.new result }
{
    outside.put(bytes)
}
