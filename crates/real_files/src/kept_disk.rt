// A disk that is a file whose bytes are in memory.
ghost use Rattle.std.specs.Prelude.{◌≡◌, ◌≤◌, [], length, count_by, false, OnOk, OnErr};
ghost use Rattle.outside.specs.Bytes.{written};
ghost use Rattle.real_files.specs.Deeds.{file_after, deed_failed, StopsAtFailure};

use crate::{RawFile, fault};
use outside::{Disk, Failed};
use std::alloc::AllocError;

/// A disk that is a file, whose bytes are kept in memory as well: it was read once, at its opening, and each write goes into
/// both. It is asked nothing of what it holds. After a write or a sync that fails it is stopped: each call fails. So it is where there was
/// no memory for a write past its end, or no number for one call more: then it is starved.
#[derive(Drop)]
pub struct KeptDisk<F: RawFile> {
    file: F,
    held: Vec<u8>,
    number: u64,
    is_stopped: bool,
    is_starved: bool,
    faults: u64,
    ghost replayed: { held.items ≡ file_after (F.first file) (F.deeds file) },
    ghost counted: { length (F.deeds file) ≡ number },
    ghost unfailed: { is_stopped ≡ false → count_by deed_failed (F.deeds file) ≡ 0 },
    ghost stops: { StopsAtFailure (F.deeds file) },
    ghost calm: { is_stopped ≡ false → faults ≡ 0 },
    ghost why: { is_starved ≡ false → count_by deed_failed (F.deeds file) ≡ 0 → is_stopped ≡ false },
}

impl<F: RawFile> KeptDisk<F> {
    ghost use Rattle.std.specs.Prelude.{◌≡◌, [], Some};

    /// This file, of which nothing was asked since it gave these bytes.
    pub fn new(file: F, bytes: Vec<u8>) -> Self
        requires first { F.first file ≡ bytes.items }
        requires deeds { F.deeds file ≡ [] }
        ensures file { result.file ≡ file }
        ensures held { ⟦<KeptDisk<F> as Disk>⟧.held result ≡ Some bytes.items }
        ensures moment { ⟦<KeptDisk<F> as Disk>⟧.moment result ≡ 0 }
        ensures faults { ⟦<KeptDisk<F> as Disk>⟧.faults result ≡ 0 }
    {
        KeptDisk {
            file,
            held: bytes,
            number: 0,
            is_stopped: false,
            is_starved: false,
            faults: 0,
        }
    }

    /// The file, and whether the disk is starved. Where a call on the file failed, that was the last.
    pub fn into_file(self) -> (F, bool)
        ensures file { result.0 ≡ self.file }
        ensures stops { StopsAtFailure (F.deeds result.0) }
        ensures starved { result.1 ≡ self.is_starved }
    {
        (self.file, self.is_starved)
    }
}

// Writes over what is there, and past the end.
fn overwrite(held: &mut Vec<u8>, at: usize, bytes: &[u8]) -> Result<(), AllocError>
    requires { at ≤ length held.old.items }
    ensures ok { OnOk result (held.new.items ≡ written held.old.items at bytes.now) }
    ensures err { OnErr result (held.new.items ≡ held.old.items) }
{
    let inside = bytes.len().min(held.len() - at);
    held.extend_from_slice(&bytes[inside..])?;
    held[at..at + inside].copy_from_slice(&bytes[..inside]);
    Ok(())
}

impl<F: RawFile> Disk for KeptDisk<F> {
    ghost use Rattle.std.specs.Prelude.{Some, None, true, length, count_by};
    ghost use Rattle.real_files.specs.Deeds.{file_images_at, deed_writes};

    ghost held = { λ disk. Some disk.held.items };

    ghost writes = { λ disk. Some (count_by deed_writes (F.deeds disk.file)) };

    ghost deeds = { λ disk. Some (F.deeds disk.file) };

    ghost moment = { λ disk. length (F.deeds disk.file) };

    ghost origin = { λ disk. record { first = F.first disk.file; stop = None } };

    ghost is_honest = { λ disk. true };

    ghost images = { λ disk. file_images_at (F.first disk.file) (F.deeds disk.file) };

    ghost faults = { λ disk. disk.faults };

    ghost use Rattle.real_files.specs.DeedLaws.{file_is_left};

    ghost held_now = { λ disk image is. file_is_left (F.first disk.file) disk.held.items (F.deeds disk.file) image disk.replayed is };

    fn moment(&self) -> u64 {
        self.number
    }

    fn length(&mut self) -> Result<u64, Failed> {
        if self.is_stopped {
            return fault(&mut self.faults);
        }
        Ok(self.held.len() as u64)
    }

    fn read_at(&mut self, at: u64, into: &mut [u8]) -> Result<(), Failed> {
        if self.is_stopped {
            return fault(&mut self.faults);
        }
        let start = at as usize;
        into.copy_from_slice(&self.held[start..start + into.len()]);
        Ok(())
    }

    fn write_at(&mut self, at: u64, bytes: &[u8]) -> Result<(), Failed> {
        if self.is_stopped {
            return fault(&mut self.faults);
        }
        if self.number == u64::MAX {
            self.is_stopped = true;
            self.is_starved = true;
            return fault(&mut self.faults);
        }
        if overwrite(&mut self.held, at as usize, bytes).is_err() {
            self.is_stopped = true;
            self.is_starved = true;
            return fault(&mut self.faults);
        }
        self.number += 1;
        match self.file.write_at(at, bytes) {
            Ok(()) => Ok(()),
            Err(_) => {
                self.is_stopped = true;
                fault(&mut self.faults)
            }
        }
    }

    fn sync(&mut self) -> Result<(), Failed> {
        if self.is_stopped {
            return fault(&mut self.faults);
        }
        if self.number == u64::MAX {
            self.is_stopped = true;
            self.is_starved = true;
            return fault(&mut self.faults);
        }
        self.number += 1;
        match self.file.sync() {
            Ok(()) => Ok(()),
            Err(_) => {
                self.is_stopped = true;
                fault(&mut self.faults)
            }
        }
    }
}
