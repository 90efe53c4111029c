// The unit as a storage.
ghost use Rattle.std.specs.Prelude.{◌≡◌, ◌+◌, ◌≤◌, true, false, IfSome};
ghost use Rattle.storage_unit.specs.Below.{FitsRegisters};
ghost use Rattle.storage_unit.specs.ReadyRows.{IsMadeOf};
ghost use Rattle.storage_unit.specs.Reach.{is_in_frame, refuses_byte};
ghost use Rattle.storage_unit.specs.Rows.{StepsOver};
ghost use Rattle.storage_unit.specs.Accesses.{IsLoaded, AreStored};

use super::unit::Unit;
use super::unit_model::Reach;
use byteorder::{BigEndian, ByteOrder};
use flat_machine::{Ready, fill, gather, ready_of};
use page_table::Check;
use romp_cpu::{Access, Attempt, Cpu, Probe, Storage};

impl Storage for Unit {
    ghost use Rattle.storage_unit.specs.Reach.{byte_at, is_in_frame, refuses_byte, stored};
    ghost use Rattle.storage_unit.specs.View.{reach_of};

    type State = Reach;

    ghost state = { reach_of };

    ghost byte_at = { byte_at };

    ghost registers = { λ state. state.registers };

    ghost is_in_frame = { is_in_frame };

    ghost refuses = { refuses_byte };

    ghost stored = { stored };

    #[inline(always)]
    fn fetch(&self, address: u32) -> Option<u16> {
        if address > 16382 {
            return None;
        }
        if self.runner == 0 {
            return Some(0);
        }
        let bytes = self.pool.private_part(self.runner - 1, address as usize, 2);
        Some(BigEndian::read_u16(bytes))
    }

    #[inline(always)]
    fn ready(&self, address: u32) -> Option<&Ready> {
        self.rows.at(address)
    }

    #[inline(never)]
    fn prepare(&mut self, address: u32) {
        if self.runner == 0 {
            return;
        }
        if let Some(row) = self.row_at(address) {
            self.rows.keep(address, row);
        }
    }

    #[inline(always)]
    fn probe(&mut self, wants: &Access) -> Probe {
        let bytes = u32::from(wants.bytes);
        match self.registers.locate(wants.address, bytes, wants.store) {
            Err(Check(code)) => Probe::Check(code),
            Ok(first) => self.answer(first, wants.bytes, wants.store),
        }
    }

    #[inline(always)]
    fn read(&mut self, wants: &Access, to: u8, sign: bool, regs: &mut [u32; 16]) -> Probe {
        self.read_any(wants, to, sign, regs)
    }

    #[inline(always)]
    fn read_known(
        &self,
        address: u32,
        bytes: u8,
        to: u8,
        sign: bool,
        regs: &mut [u32; 16],
    ) -> bool {
        match bytes {
            1 => self.fill_known(address, 1, to, sign, regs),
            2 => self.fill_known(address, 2, to, sign, regs),
            4 => self.fill_known(address, 4, to, sign, regs),
            _ => self.fill_words(address, bytes, to, sign, regs),
        }
    }

    #[inline(always)]
    fn write_known(&mut self, address: u32, bytes: u8, from: u8, regs: &[u32; 16]) -> bool {
        match bytes {
            1 => self.gather_known(address, 1, from, regs),
            2 => self.gather_known(address, 2, from, regs),
            4 => self.gather_known(address, 4, from, regs),
            _ => self.gather_words(address, bytes, from, regs),
        }
    }

    #[inline(always)]
    fn write(&mut self, wants: &Access, from: u8, regs: &[u32; 16]) -> Probe {
        self.write_any(wants, from, regs)
    }

    #[inline(always)]
    fn load(&self, address: u32, into: &mut [u8]) {
        if into.is_empty() {
            return;
        }
        if let Ok(first) = self.registers.locate(address, 0, false) {
            self.copy(first, into);
        }
    }

    #[inline(always)]
    fn store(&mut self, address: u32, from: &[u8]) {
        if from.is_empty() {
            return;
        }
        if let Ok(first) = self.registers.locate(address, 0, false) {
            self.put(first, from);
        }
    }
}

impl Unit {
    ghost use Rattle.storage_unit.specs.View.{reach_of};

    /// The row at an address made ready, if it is one that can be. A row of the last halfword alone isn't.
    fn row_at(&self, address: u32) -> Option<Ready>
        requires { 1 ≤ (reach_of self.now).runner }
        ensures within { IfSome result (λ row. address + 4 ≤ 16384) }
        ensures row { IfSome result (IsMadeOf self.now.pool.bytes self.now.runner address) }
    {
        let first = self.fetch(address)?;
        let second = self.fetch(address + 2)?;
        ready_of(first, second, address)
    }

    /// Fills registers with bytes, as they are probed and loaded.
    #[inline(always)]
    fn read_any(&mut self, wants: &Access, to: u8, sign: bool, regs: &mut [u32; 16]) -> Probe
        requires { FitsRegisters wants.now false to }
        ensures { IsLoaded self.old self.new wants.now to sign regs.old regs.new result }
    {
        let bytes = u32::from(wants.bytes);
        match self.registers.locate(wants.address, bytes, wants.store) {
            Err(Check(code)) => Probe::Check(code),
            Ok(first) => {
                if !self.is_in_page(first, wants.bytes) {
                    return self.read_apart(wants, to, sign, regs);
                }
                self.fill_at(wants, first, to, sign, regs)
            }
        }
    }

    /// Writes the bytes of registers, as they are probed and stored.
    #[inline(always)]
    fn write_any(&mut self, wants: &Access, from: u8, regs: &[u32; 16]) -> Probe
        requires { FitsRegisters wants.now true from }
        ensures { AreStored self.old self.new wants.now from regs.now result }
    {
        let bytes = u32::from(wants.bytes);
        match self.registers.locate(wants.address, bytes, wants.store) {
            Err(Check(code)) => Probe::Check(code),
            Ok(first) => {
                if !self.is_in_page(first, wants.bytes) {
                    return self.write_apart(wants, from, regs);
                }
                self.gather_at(wants, first, from, regs)
            }
        }
    }

    /// Fills registers with bytes of two pages, as they are probed and loaded.
    #[inline(never)]
    #[tactic(auto, using(std::proofs::lemmas::Bool::Decides::nat_tests))]
    fn read_apart(&mut self, wants: &Access, to: u8, sign: bool, regs: &mut [u32; 16]) -> Probe
        requires { FitsRegisters wants.now false to }
        ensures { IsLoaded self.old self.new wants.now to sign regs.old regs.new result }
    {
        let probe = self.probe(wants);
        if let Probe::Permitted = probe {
            let mut room = [0; 64];
            let part = &mut room[..usize::from(wants.bytes)];
            self.load(wants.address, part);
            fill(to, sign, part, regs);
        }
        probe
    }

    /// Writes the bytes of registers over those of two pages, as they are probed and stored.
    #[inline(never)]
    fn write_apart(&mut self, wants: &Access, from: u8, regs: &[u32; 16]) -> Probe
        requires { FitsRegisters wants.now true from }
        ensures { AreStored self.old self.new wants.now from regs.now result }
    {
        let probe = self.probe(wants);
        if let Probe::Permitted = probe {
            let mut room = [0; 64];
            let part = &mut room[..usize::from(wants.bytes)];
            gather(from, regs, part);
            self.store(wants.address, part);
        }
        probe
    }

    /// One attempt of the instruction at an address by a processor over this unit. What comes follows from the instruction's
    /// plan and the unit's answer to its access alone. Whatever bytes are committed, it is the program's
    /// row on the private bytes of the seat and the bytes of the store that the unit shows over them (docs/MODEL.md).
    /// True: it went at once. Else `went` says how.
    #[inline(always)]
    pub fn step(&mut self, cpu: &mut Cpu, iar: &mut u32, went: &mut Attempt) -> bool
        ensures { StepsOver self.old self.new cpu.old cpu.new iar.old iar.new result went.new }
    {
        cpu.step(self, iar, went)
    }
}
