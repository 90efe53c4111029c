// The calls of the system that are noted. Each function here makes one call of std, and notes its outcome: no clause can say that the call
// is made, so these are read (docs/THEOREM.md). All around them is proved against the notes.
ghost use Rattle.std.specs.Prelude.{◌≡◌, ◌≤◌, ◌++◌, [], ◌∷◌, take, length, OnOk, OnErr, IfOk};
ghost use Rattle.real_files.specs.Deeds as deed;

use crate::file_trace::{FileTrace, SYNCED, TORE, UNSYNCED, WROTE};
use outside::Failed;
use std::fs::File;
use std::io;
use std::os::unix::fs::FileExt;

/// Writes into the file, where there is one.
pub(crate) fn noted_write(
    file: Option<&File>,
    trace: &mut FileTrace,
    at: u64,
    bytes: &[u8],
) -> Result<(), Failed>
    ensures done { OnOk result (trace.new.deeds ≡ trace.old.deeds ++ deed.Wrote at bytes.now ∷ []) }
    ensures failed { OnErr result (trace.new.deeds ≡ trace.old.deeds ++ deed.Tore at bytes.now ∷ []) }
{
    match file.map(|file| file.write_all_at(bytes, at)) {
        Some(Ok(())) => {
            trace.note(&[WROTE, at], bytes);
            Ok(())
        }
        _ => {
            trace.note(&[TORE, at], bytes);
            Err(Failed)
        }
    }
}

/// Syncs the file, where there is one: its data and its length, or, where it may be new, all of it.
pub(crate) fn noted_sync(
    file: Option<&File>,
    is_new: bool,
    trace: &mut FileTrace,
) -> Result<(), Failed>
    ensures done { OnOk result (trace.new.deeds ≡ trace.old.deeds ++ deed.Synced ∷ []) }
    ensures failed { OnErr result (trace.new.deeds ≡ trace.old.deeds ++ deed.Unsynced ∷ []) }
{
    match file.map(|file| if is_new {
        file.sync_all()
    } else {
        file.sync_data()
    }) {
        Some(Ok(())) => {
            trace.note(&[SYNCED, 0], &[]);
            Ok(())
        }
        _ => {
            trace.note(&[UNSYNCED, 0], &[]);
            Err(Failed)
        }
    }
}

/// Reads the file from its start, as many bytes as there is room for.
pub(crate) fn noted_read(file: &File, found: &mut FileTrace, into: &mut [u8]) -> io::Result<()>
    ensures done { OnOk result (found.new.deeds ≡ found.old.deeds ++ deed.Wrote 0 into.new ∷ []) }
    ensures failed { OnErr result (found.new.deeds ≡ found.old.deeds) }
    ensures same { length into.new ≡ length into.old }
{
    match file.read_exact_at(into, 0) {
        Ok(()) => {
            found.note(&[WROTE, 0], into);
            Ok(())
        }
        Err(error) => Err(error),
    }
}

/// Hands the bytes to a stream, and answers how many it took.
pub(crate) fn noted_print<R: Print>(
    stream: &R,
    handed: &mut FileTrace,
    bytes: &[u8],
) -> io::Result<usize>
    ensures done { IfOk result (λ count. (count ≤ length bytes.now) × (handed.new.deeds ≡ handed.old.deeds ++ deed.Wrote 0 (take count bytes.now) ∷ [])) }
    ensures failed { OnErr result (handed.new.deeds ≡ handed.old.deeds) }
{
    match stream.write_some(bytes) {
        Ok(count) => {
            handed.note(&[WROTE, 0], &bytes[..count]);
            Ok(count)
        }
        Err(error) => Err(error),
    }
}
