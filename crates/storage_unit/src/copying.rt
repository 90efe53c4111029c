// Bytes of frames that are copied, and written over.
ghost use Rattle.std.specs.Prelude.{◌≡◌, ◌+◌, ◌<◌, ◌≤◌, length, Ok, Some, true, false, IfSome};
ghost use Rattle.storage_unit.specs.Below.{access_to, FitsRegisters, page_bytes, stored_bytes};
ghost use Rattle.flat_machine.specs.Access.{FitsFrom};
ghost use Rattle.storage_unit.specs.Reach.{begins_at, put_from};
ghost use Rattle.storage_unit.specs.Reached.{CanReach, Lies, shown_from};
ghost use Rattle.storage_unit.specs.Held.{frame_found};
ghost use Rattle.storage_unit.specs.Accesses.{IsLoaded, IsReadIf, AreStored, IsWrittenIf, loaded, saved};
ghost use Rattle.storage_unit.specs.OpenLines.{IsOpenSpot};

use super::sizes::spot_of;
use super::stored_over::{drop_rows, use_bytes};
use super::unit::Unit;
use flat_machine::{fill, gather};
use page_table::Virtual;
use romp_cpu::{Access, Probe};

impl Unit {
    ghost use Rattle.storage_unit.specs.View.{reach_of};

    /// Some bytes of one page, as a frame has them.
    fn part_in(&self, frame: u16, first: Virtual, count: usize) -> &[u8]
        requires some { 0 < count }
        requires within { first.byte + count ≤ page_bytes (reach_of self.now).directory.page }
        requires lies { Lies (reach_of self.now) first count }
        requires frame { frame_found (reach_of self.now) first ≡ Some frame }
        ensures { result.now ≡ shown_from (reach_of self.now) first count }
    {
        self.pool.part(frame, usize::from(first.byte), count)
    }

    /// Copies some bytes that lie in frames; those of one page at once.
    #[inline(always)]
    pub(super) fn copy(&self, first: Virtual, into: &mut [u8])
        requires { CanReach (reach_of self.now) first (length into.old) }
        ensures { into.new ≡ shown_from (reach_of self.now) first (length into.old) }
    {
        if into.len() <= usize::from(self.rest(first)) {
            self.copy_part(first, into);
        } else {
            self.copy_parts(first, into);
        }
    }

    /// The same page by page.
    fn copy_parts(&self, first: Virtual, into: &mut [u8])
        requires { CanReach (reach_of self.now) first (length into.old) }
        ensures { into.new ≡ shown_from (reach_of self.now) first (length into.old) }
    {
        let rest = usize::from(self.rest(first));
        if into.len() <= rest {
            self.copy_part(first, into);
        } else {
            let (front, back) = into.split_at_mut(rest);
            self.copy_part(first, front);
            self.copy_parts(self.past(first, rest as u16), back);
        }
    }

    /// Copies some bytes of one page that is in a frame.
    #[inline(always)]
    fn copy_part(&self, first: Virtual, into: &mut [u8])
        requires within { first.byte + length into.old ≤ page_bytes (reach_of self.now).directory.page }
        requires can { CanReach (reach_of self.now) first (length into.old) }
        ensures { into.new ≡ shown_from (reach_of self.now) first (length into.old) }
    {
        if let Some(frame) = self.frame_at(first) {
            into.copy_from_slice(self.part_in(frame, first, into.len()));
        }
    }

    /// Writes some bytes over those from a byte on, which lie in frames; those of one page at once.
    #[inline(always)]
    pub(super) fn put(&mut self, first: Virtual, from: &[u8])
        requires { CanReach (reach_of self.old) first (length from.now) }
        ensures { reach_of self.new ≡ put_from (reach_of self.old) first from.now }
    {
        if from.len() <= usize::from(self.rest(first)) {
            self.put_part(first, from);
        } else {
            self.put_parts(first, from);
        }
    }

    /// The same page by page.
    fn put_parts(&mut self, first: Virtual, from: &[u8])
        requires { CanReach (reach_of self.old) first (length from.now) }
        ensures { reach_of self.new ≡ put_from (reach_of self.old) first from.now }
    {
        let rest = usize::from(self.rest(first));
        if from.len() <= rest {
            self.put_part(first, from);
        } else {
            let next = self.past(first, rest as u16);
            self.put_part(first, &from[..rest]);
            self.put_parts(next, &from[rest..]);
        }
    }

    /// Writes some bytes over those of one page, which is in a frame.
    #[inline(always)]
    fn put_part(&mut self, first: Virtual, from: &[u8])
        requires within { first.byte + length from.now ≤ page_bytes (reach_of self.old).directory.page }
        requires can { CanReach (reach_of self.old) first (length from.now) }
        ensures { reach_of self.new ≡ put_from (reach_of self.old) first from.now }
    {
        if let Some(frame) = self.frame_at(first) {
            let spot = spot_of(self.directory.page(), frame, first.byte) as usize;
            drop_rows(&mut self.rows, spot, from.len());
            use_bytes(&mut self.used, spot, from.len());
            self.pool
                .part_mut(frame, usize::from(first.byte), from.len())
                .copy_from_slice(from);
        }
    }

    /// Writes the bytes of registers over those of one page, which a frame has.
    #[inline(always)]
    fn gather_in(&mut self, frame: u16, first: Virtual, bytes: u8, from: u8, regs: &[u32; 16])
        requires fits { FitsFrom bytes from }
        requires within { first.byte + bytes ≤ page_bytes (reach_of self.old).directory.page }
        requires lies { Lies (reach_of self.old) first bytes }
        requires frame { frame_found (reach_of self.old) first ≡ Some frame }
        ensures { reach_of self.new ≡ put_from (reach_of self.old) first (stored_bytes regs.now bytes from) }
    {
        let spot = spot_of(self.directory.page(), frame, first.byte) as usize;
        let count = usize::from(bytes);
        drop_rows(&mut self.rows, spot, count);
        use_bytes(&mut self.used, spot, count);
        gather(
            from,
            regs,
            self.pool.part_mut(frame, usize::from(first.byte), count),
        );
    }

    /// Fills registers with the bytes of an access, if they lie from a spot on that is given.
    #[inline(always)]
    fn fill_if(
        &self,
        spot: Option<usize>,
        wants: &Access,
        to: u8,
        sign: bool,
        regs: &mut [u32; 16],
    ) -> bool
        requires fits { FitsFrom wants.now.bytes to }
        requires open { IfSome spot (IsOpenSpot (reach_of self.now) wants.now) }
        ensures { IsReadIf result self.now wants.now to sign regs.old regs.new }
    {
        let Some(spot) = spot else {
            return false;
        };
        let part = self.pool.spot_part(spot, usize::from(wants.bytes));
        fill(to, sign, part, regs);
        true
    }

    /// Writes the bytes of registers over those of a line that is known, which are marked.
    #[inline(always)]
    fn gather_over(&mut self, spot: usize, wants: &Access, from: u8, regs: &[u32; 16])
        requires wants { FitsRegisters wants.now true from }
        requires open { IsOpenSpot (reach_of self.old) wants.now spot }
        ensures { reach_of self.new ≡ saved (reach_of self.old) wants.now from regs.now }
    {
        let count = usize::from(wants.bytes);
        drop_rows(&mut self.rows, spot, count);
        use_bytes(&mut self.used, spot, count);
        gather(from, regs, self.pool.spot_mut(spot, count));
    }

    /// Writes the bytes of registers over those of an access, if they lie from a spot on that is given.
    #[inline(always)]
    fn gather_if(&mut self, spot: Option<usize>, wants: &Access, from: u8, regs: &[u32; 16]) -> bool
        requires wants { FitsRegisters wants.now true from }
        requires open { IfSome spot (IsOpenSpot (reach_of self.old) wants.now) }
        ensures { IsWrittenIf result self.old self.new wants.now from regs.now }
    {
        match spot {
            None => false,
            Some(spot) => {
                self.gather_over(spot, wants, from, regs);
                true
            }
        }
    }

    /// Fills registers with bytes of one page, if that is permitted.
    #[inline(always)]
    pub(super) fn fill_at(
        &mut self,
        wants: &Access,
        first: Virtual,
        to: u8,
        sign: bool,
        regs: &mut [u32; 16],
    ) -> Probe
        requires fits { FitsFrom wants.now.bytes to }
        requires located { begins_at (reach_of self.old) wants.now ≡ Ok first }
        requires within { first.byte + wants.now.bytes ≤ page_bytes (reach_of self.old).directory.page }
        ensures { IsLoaded self.old self.new wants.now to sign regs.old regs.new result }
    {
        match self.open(wants, first) {
            Ok(frame) => {
                let part = self.part_in(frame, first, usize::from(wants.bytes));
                fill(to, sign, part, regs);
                Probe::Permitted
            }
            Err(probe) => probe,
        }
    }

    /// Writes the bytes of registers over those of one page, if that is permitted. Then its line is known, as it is marked now.
    #[inline(always)]
    pub(super) fn gather_at(
        &mut self,
        wants: &Access,
        first: Virtual,
        from: u8,
        regs: &[u32; 16],
    ) -> Probe
        requires fits { FitsFrom wants.now.bytes from }
        requires located { begins_at (reach_of self.old) wants.now ≡ Ok first }
        requires within { first.byte + wants.now.bytes ≤ page_bytes (reach_of self.old).directory.page }
        ensures { AreStored self.old self.new wants.now from regs.now result }
    {
        match self.frame_for(first, wants.bytes, wants.store) {
            Ok(frame) => {
                self.gather_in(frame, first, wants.bytes, from, regs);
                self.keep_line(wants, first, frame);
                Probe::Permitted
            }
            Err(probe) => probe,
        }
    }

    /// Fills registers with so many bytes from an address on, if they lie in a line that is known.
    #[inline(always)]
    pub(super) fn fill_known(
        &self,
        address: u32,
        bytes: u8,
        to: u8,
        sign: bool,
        regs: &mut [u32; 16],
    ) -> bool
        requires fits { FitsFrom bytes to }
        ensures { IsReadIf result self.now (access_to address bytes false) to sign regs.old regs.new }
    {
        let wants = Access {
            address,
            bytes,
            store: false,
        };
        self.fill_if(self.known_spot(&wants), &wants, to, sign, regs)
    }

    /// Writes the bytes of registers over so many from an address on, if they lie in a line that is known to be stored.
    #[inline(always)]
    pub(super) fn gather_known(
        &mut self,
        address: u32,
        bytes: u8,
        from: u8,
        regs: &[u32; 16],
    ) -> bool
        requires fits { FitsFrom bytes from }
        ensures { IsWrittenIf result self.old self.new (access_to address bytes true) from regs.now }
    {
        let wants = Access {
            address,
            bytes,
            store: true,
        };
        let spot = self.known_spot(&wants);
        self.gather_if(spot, &wants, from, regs)
    }

    /// The same of bytes that lie in one or two lines that are known.
    #[inline(never)]
    pub(super) fn fill_words(
        &self,
        address: u32,
        bytes: u8,
        to: u8,
        sign: bool,
        regs: &mut [u32; 16],
    ) -> bool
        requires fits { FitsFrom bytes to }
        ensures { IsReadIf result self.now (access_to address bytes false) to sign regs.old regs.new }
    {
        let wants = Access {
            address,
            bytes,
            store: false,
        };
        self.fill_if(self.known_spots(&wants), &wants, to, sign, regs)
    }

    /// The same of bytes that lie in one or two lines that are known to be stored.
    #[inline(never)]
    pub(super) fn gather_words(
        &mut self,
        address: u32,
        bytes: u8,
        from: u8,
        regs: &[u32; 16],
    ) -> bool
        requires fits { FitsFrom bytes from }
        ensures { IsWrittenIf result self.old self.new (access_to address bytes true) from regs.now }
    {
        let wants = Access {
            address,
            bytes,
            store: true,
        };
        let spot = self.known_spots(&wants);
        self.gather_if(spot, &wants, from, regs)
    }
}
