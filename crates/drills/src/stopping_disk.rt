// A disk in memory that stops within one of its writes.
ghost use Rattle.std.specs.Prelude.{◌≡◌};
ghost use Rattle.outside.specs.MemoryDisk.{disk_plan};
ghost use Rattle.drills.specs.Stopping.{IsStopping};

use outside::{Disk, Failed, MemoryDisk};
use real_files::{FileTrace, SYNCED, TORE, WROTE};
use std::alloc::Global;

/// A disk in memory that stops within one of its writes. Until then it fails for want of memory alone. It tells what was asked of it.
#[derive(Drop)]
pub struct StoppingDisk {
    disk: MemoryDisk,
    is_stopped: bool,
    trace: FileTrace,
    ghost stops: { IsStopping disk trace.deeds },
    ghost mirrored: { (disk_plan disk).stopped ≡ is_stopped },
}

impl StoppingDisk {
    ghost use Rattle.std.specs.Prelude.{◌≤◌, ◌↔◌, List, ℕ, [], Some};
    ghost use Rattle.outside.specs.MemoryDisk.{disk_faults, disk_held, disk_images, disk_moment, disk_origin, disk_writes};
    ghost use Rattle.drills.specs.StoppingDisk.{deeds_of, memory_of};

    /// A disk that holds these bytes, which are its only crash image, and stops at the write with this number, counted from 1. The
    /// outcome covers the range of that write from its front, and the rest of the range keeps its old bytes.
    pub fn new(alloc: Global, bytes: Vec<u8>, write: u32, outcome: Vec<u8>) -> Self
        requires { 1 ≤ write }
        ensures held { disk_held (memory_of result) ≡ bytes.items }
        ensures moment { disk_moment (memory_of result) ≡ 0 }
        ensures images { (image : List ℕ) → disk_images (memory_of result) 0 image ↔ (image ≡ bytes.items) }
        ensures writes { disk_writes (memory_of result) ≡ 0 }
        ensures faults { disk_faults (memory_of result) ≡ 0 }
        ensures origin { disk_origin (memory_of result) ≡ record { first = bytes.items; stop = Some (write, outcome.items) } }
        ensures deeds { deeds_of result ≡ [] }
    {
        let mut disk = MemoryDisk::new(alloc, bytes, Vec::new(alloc));
        disk.fuse(write, outcome);
        StoppingDisk {
            disk,
            is_stopped: false,
            trace: FileTrace::new(),
        }
    }

    /// The disk in memory.
    pub fn memory(&self) -> &MemoryDisk
        ensures { result.now ≡ memory_of self.now }
    {
        &self.disk
    }

    /// The bytes held.
    pub fn into_image(self) -> Vec<u8>
        ensures { result.items ≡ disk_held (memory_of self) }
    {
        self.disk.into_image()
    }
}

impl Disk for StoppingDisk {
    ghost use Rattle.std.specs.Prelude.{true, Some};
    ghost use Rattle.outside.specs.MemoryDisk.{disk_faults, disk_held, disk_images, disk_moment, disk_origin, disk_writes};
    ghost use Rattle.outside.specs.MemoryDiskLaws.{held_is_left};
    ghost use Rattle.drills.specs.StoppingDisk.{deeds_of, memory_of};

    ghost held = { λ stopping. Some (disk_held (memory_of stopping)) };

    ghost writes = { λ stopping. Some (disk_writes (memory_of stopping)) };

    ghost deeds = { λ stopping. Some (deeds_of stopping) };

    ghost moment = { λ stopping. disk_moment (memory_of stopping) };

    ghost origin = { λ stopping. disk_origin (memory_of stopping) };

    ghost is_honest = { λ stopping. true };

    ghost images = { λ stopping. disk_images (memory_of stopping) };

    ghost faults = { λ stopping. disk_faults (memory_of stopping) };

    ghost held_now = { λ stopping. held_is_left (memory_of stopping) };

    fn moment(&self) -> u64 {
        self.disk.moment()
    }

    fn length(&mut self) -> Result<u64, Failed> {
        self.disk.length()
    }

    fn read_at(&mut self, at: u64, into: &mut [u8]) -> Result<(), Failed> {
        self.disk.read_at(at, into)
    }

    fn write_at(&mut self, at: u64, bytes: &[u8]) -> Result<(), Failed> {
        let before = self.disk.moment();
        match self.disk.write_at(at, bytes) {
            Ok(()) => {
                self.trace.note(&[WROTE, at], bytes);
                Ok(())
            }
            Err(Failed) => {
                if self.is_stopped {
                    return Err(Failed);
                }
                // One that found no memory for its record did nothing.
                if self.disk.moment() == before {
                    return Err(Failed);
                }
                self.is_stopped = true;
                self.trace.note(&[TORE, at], bytes);
                Err(Failed)
            }
        }
    }

    fn sync(&mut self) -> Result<(), Failed> {
        self.disk.sync()?;
        self.trace.note(&[SYNCED], &[]);
        Ok(())
    }
}
