// A source that was read as far as it is wanted.
ghost use Rattle.std.specs.Prelude.{◌≡◌, ◌≤◌, ◌<◌, length, true, IfOk};
ghost use Rattle.std.specs.Io.{ReadsAtMost};
ghost use Rattle.std.specs.Io.KnownBytes.{ReadConsumes};
ghost use Rattle.outside.specs.Causes.{FailsOnlyCounted};

use crate::fault;
use outside::{Failed, Source};
use std::alloc::{AllocError, Global};
use std::io::{ErrorKind, Read};

/// A source that was read before it is asked, and tells what it gave. Where that ended by a failure, so does this.
#[derive(Drop)]
pub struct ReadSource {
    bytes: Vec<u8>,
    taken: usize,
    is_cut: bool,
    faults: u64,
    ghost within: { taken ≤ length bytes.items },
}

impl ReadSource {
    ghost use Rattle.std.specs.Prelude.{◌≡◌, Some, IfOk, length, true};
    ghost use Rattle.real_files.specs.Found.{IsReadFrom};

    /// A source of these bytes. `is_cut` says that it fails after them.
    pub fn new(bytes: Vec<u8>, is_cut: bool) -> Self
        ensures bytes { result.bytes.items ≡ bytes.items }
        ensures cut { result.is_cut ≡ is_cut }
        ensures left { ⟦<ReadSource as Source>⟧.left result ≡ Some bytes.items }
        ensures faults { ⟦<ReadSource as Source>⟧.faults result ≡ 0 }
    {
        ReadSource {
            bytes,
            taken: 0,
            is_cut,
            faults: 0,
        }
    }

    /// All that the input gives, or its first `most` bytes: no more is asked of it. Where a read fails, what it gave until then, and the
    /// source fails behind that.
    ///
    /// # Errors
    ///
    /// Where there is no memory for these bytes.
    pub fn read<I: Read + Drop>(
        alloc: Global,
        mut input: I,
        most: usize,
    ) -> Result<Self, AllocError>
        ensures given { IfOk result (λ source. IsReadFrom most (I.remaining input) source.bytes.items source.is_cut) }
        ensures left { IfOk result (λ source. ⟦<ReadSource as Source>⟧.left source ≡ Some source.bytes.items) }
        ensures faults { IfOk result (λ source. ⟦<ReadSource as Source>⟧.faults source ≡ 0) }
    {
        let mut bytes = Vec::new(alloc);
        let mut piece = [0; 4096];
        for _ in 0..u64::MAX {
            if bytes.len() == most {
                return Ok(ReadSource::new(bytes, false));
            }
            let room = (most - bytes.len()).min(piece.len());
            match input.read(&mut piece[..room]) {
                Ok(0) => return Ok(ReadSource::new(bytes, false)),
                Ok(count) => bytes.extend_from_slice(&piece[..count])?,
                Err(error) if error.kind() == ErrorKind::Interrupted => continue,
                Err(_) => return Ok(ReadSource::new(bytes, true)),
            }
        }
        Ok(ReadSource::new(bytes, true))
    }

    // Whether it is where it was cut.
    fn is_over(&self) -> bool
        ensures { self.now.is_cut ≡ true → self.now.taken ≡ length self.now.bytes.items → result ≡ true }
    {
        self.is_cut && self.taken == self.bytes.len()
    }
}

impl Source for ReadSource {
    ghost use Rattle.std.specs.Prelude.{Some, drop};

    ghost left = { λ source. Some (drop source.taken source.bytes.items) };

    ghost faults = { λ source. source.faults };

    fn read(&mut self, into: &mut [u8]) -> Result<usize, Failed>
        ensures bound { ReadsAtMost result into.new }
        ensures bytes { ReadConsumes (⟦<ReadSource as Source>⟧.left self.old) (⟦<ReadSource as Source>⟧.left self.new) result into.new }
        ensures cause { FailsOnlyCounted (⟦<ReadSource as Source>⟧.faults self.old) (⟦<ReadSource as Source>⟧.faults self.new) result }

        // One that was cut never tells its end: it fails there.
        ensures cut { self.old.is_cut ≡ true → 0 < length into.old → IfOk result (λ count. 0 < count) }
    {
        if self.is_over() {
            return fault(&mut self.faults);
        }
        let count = into.len().min(self.bytes.len() - self.taken);
        into[..count].copy_from_slice(&self.bytes[self.taken..self.taken + count]);
        self.taken += count;
        Ok(count)
    }
}
