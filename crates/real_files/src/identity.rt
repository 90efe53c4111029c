// Which file a standard stream, or a path, leads to.
use std::fs::{File, Metadata};
use std::io;
use std::os::unix::fs::MetadataExt;
use std::rt::Files;

/// Where the system shows what is open.
const OPEN: &str = "/proc/self/fd";

const OUTPUT: &str = "/proc/self/fd/1";

const ERROR: &str = "/proc/self/fd/2";

// Whether these are of one file.
fn is_same(one: &Metadata, other: &Metadata) -> bool {
    one.dev() == other.dev() && one.ino() == other.ino()
}

// The file that a stream goes to, or none where it is closed. It fails where the system doesn't show what is open.
fn behind<R: Files<File = File>>(rt: &R, stream: &str) -> io::Result<Option<Metadata>> {
    rt.metadata(OPEN)?;
    match rt.metadata(stream) {
        Ok(found) => Ok(Some(found)),
        Err(error) if error.kind() == io::ErrorKind::NotFound => Ok(None),
        Err(error) => Err(error),
    }
}

// Whether the stream writes into this file.
fn goes_to<R: Files<File = File>>(rt: &R, stream: &str, file: &Metadata) -> io::Result<bool> {
    Ok(match behind(rt, stream)? {
        Some(found) => is_same(&found, file),
        None => false,
    })
}

/// Whether this open file has this path, and neither standard output nor error writes into it. It fails where that isn't to be had.
pub(crate) fn is_apart<R: Files<File = File>>(rt: &R, file: &File, path: &str) -> io::Result<bool> {
    let own = file.metadata()?;
    Ok(
        is_same(&own, &rt.metadata(path)?)
            && !goes_to(rt, OUTPUT, &own)?
            && !goes_to(rt, ERROR, &own)?,
    )
}

/// Whether a text on standard error may go into the file at this path: it does, or the system doesn't show where it goes.
pub fn may_spoil<R: Files<File = File>>(rt: &R, path: &str) -> bool {
    match rt.metadata(path) {
        Ok(file) => goes_to(rt, ERROR, &file).unwrap_or(true),
        Err(_) => false,
    }
}
