// A disk that isn't there.
use crate::fault;
use outside::{Disk, Failed};

/// A disk that isn't there: it holds no bytes, and each call fails.
#[derive(Drop)]
pub struct AbsentDisk {
    faults: u64,
}

impl AbsentDisk {
    ghost use Rattle.std.specs.Prelude.{◌≡◌};

    /// No fault is counted yet.
    pub fn new() -> Self
        ensures { ⟦<AbsentDisk as Disk>⟧.faults result ≡ 0 }
    {
        AbsentDisk { faults: 0 }
    }
}

impl Disk for AbsentDisk {
    ghost use Rattle.std.specs.Prelude.{None, Some, true, []};
    ghost use Rattle.real_files.specs.Deeds.{file_images_at};

    ghost held = { λ disk. Some [] };

    ghost writes = { λ disk. Some 0 };

    ghost deeds = { λ disk. Some [] };

    ghost moment = { λ disk. 0 };

    ghost origin = { λ disk. record { first = []; stop = None } };

    ghost is_honest = { λ disk. true };

    ghost images = { λ disk. file_images_at [] [] };

    ghost faults = { λ disk. disk.faults };

    ghost use Rattle.real_files.specs.DeedLaws.{absent_left};

    ghost held_now = { λ disk image is. absent_left image is };

    fn moment(&self) -> u64 {
        0
    }

    fn length(&mut self) -> Result<u64, Failed> {
        fault(&mut self.faults)
    }

    fn read_at(&mut self, _at: u64, _into: &mut [u8]) -> Result<(), Failed> {
        fault(&mut self.faults)
    }

    fn write_at(&mut self, _at: u64, _bytes: &[u8]) -> Result<(), Failed> {
        fault(&mut self.faults)
    }

    fn sync(&mut self) -> Result<(), Failed> {
        fault(&mut self.faults)
    }
}
