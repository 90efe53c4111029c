ghost use Rattle.std.specs.Prelude.{◌≡◌, if◌then◌else◌, ℕ, Bool, true, false, List, Option, IfSome, length};
ghost use Rattle.flat_machine.specs.Access.{FitsFrom};
ghost use Rattle.flat_machine.specs.Effect.{filled};
ghost use Rattle.flat_machine.specs.Ready.{IsReadyAt};
ghost use Rattle.flat_machine.specs.Row.{stored_bytes};
ghost use Rattle.page_table.specs.Registers.{Registers};
ghost use Rattle.page_table.specs.declared.segment_regs.Virtual.{Virtual};
ghost use Rattle.romp_cpu.specs.declared.storage.Access.{Access};
ghost use Rattle.romp_cpu.specs.declared.storage.Probe.{Probe};
ghost use Rattle.romp_cpu.specs.Shown.{bytes_from, halfword_of};
ghost use Rattle.romp_cpu.specs.Answers.{Admits, answer_in, FitsRegisters, if_permitted, IsOutside};

use flat_machine::Ready;
use page_table::Virtual;

/// What an instruction or its subject accesses: so many bytes from an effective address on, to load or to store.
#[derive(Clone, Copy)]
pub struct Access {
    pub address: u32,
    pub bytes: u8,
    pub store: bool,
}

/// Why an access can't be made now: a page of it is in no frame, or its entry refuses. It names the first such page by
/// address.
#[derive(Clone, Copy, PartialEq, Eq)]
pub enum Fault {
    Page(Virtual),
    Lock(Virtual),
}

/// The answer to an access: it may be made, it is a program check with this code, or it can't be made now.
#[derive(Clone, Copy, PartialEq, Eq)]
pub enum Probe {
    Permitted,
    Check(u8),
    Fault(Fault),
}

/// What a processor fetches from, loads from and stores to. Its contracts speak of a state, which is plain data of the
/// implementation's own: the bytes that it shows, the segment registers, which pages are in frames and which bytes their
/// entries refuse, and the state that a store leaves (docs/MODEL.md).
pub trait Storage {
    /// The states.
    type State;

    /// The state that it is in.
    ghost state: { Self → Self.State };

    /// The byte that a state shows at an effective address.
    ghost byte_at: { Self.State → ℕ → ℕ };

    /// The segment registers.
    ghost registers: { Self.State → Registers };

    /// Whether the page of a byte is in a frame.
    ghost is_in_frame: { Self.State → Virtual → Bool };

    /// Whether the entry of a byte's page refuses to load it, or to store it.
    ghost refuses: { Self.State → Virtual → Bool → Bool };

    /// The state that a store of bytes from an address on leaves.
    ghost stored: { Self.State → ℕ → List ℕ → Self.State };

    /// The halfword at an address, the higher byte first. None exactly where it is outside the 16,384 bytes of register 0.
    fn fetch(&self, address: u32) -> Option<u16>
        ensures { result ≡ halfword_of (byte_at (state self.now)) address };

    /// The row made ready at an address, if one is known there.
    fn ready(&self, address: u32) -> Option<&Ready>
        ensures { IfSome result (λ it. IsReadyAt it.now (halfword_of (byte_at (state self.now))) address) };

    /// Makes the row at an address ready, where it is one that can be. The state stays.
    fn prepare(&mut self, address: u32)
        ensures { state self.new ≡ state self.old };

    /// Whether an access may be made: a check as it is located; else the first page by address that is in no frame; else the
    /// first whose entry refuses. It may arrange things for itself, but the state stays.
    fn probe(&mut self, wants: &Access) -> Probe
        ensures answer { result ≡ answer_in registers is_in_frame refuses (state self.old) wants.now }
        ensures state { state self.new ≡ state self.old };

    /// Fills the slice with the bytes from an address on, an access that is permitted.
    fn load(&self, address: u32, into: &mut [u8])
        requires { Admits registers is_in_frame refuses (state self.now) address (length into.old) false }
        ensures { into.new ≡ bytes_from (byte_at (state self.now)) address (length into.old) };

    /// Stores bytes from an address on, an access that is permitted. The range then shows them, and other addresses change
    /// only where they name the same byte through another register. No access gets another answer.
    fn store(&mut self, address: u32, from: &[u8])
        requires { Admits registers is_in_frame refuses (state self.old) address (length from.now) true }
        ensures state { state self.new ≡ stored (state self.old) address from.now }
        ensures shows { bytes_from (byte_at (state self.new)) address (length from.now) ≡ from.now }
        ensures others { (other : ℕ) → IsOutside (registers (state self.old)) address (length from.now) other → byte_at (state self.new) other ≡ byte_at (state self.old) other }
        ensures answers { (access : Access) → answer_in registers is_in_frame refuses (state self.new) access ≡ answer_in registers is_in_frame refuses (state self.old) access };

    /// Fills registers from one upwards with the bytes of an access, as `load` tells them, if `probe` permits it.
    fn read(&mut self, wants: &Access, to: u8, sign: bool, regs: &mut [u32; 16]) -> Probe
        requires { FitsRegisters wants.now false to }
        ensures answer { result ≡ answer_in registers is_in_frame refuses (state self.old) wants.now }
        ensures state { state self.new ≡ state self.old }
        ensures registers { regs.new ≡ if_permitted result (filled to sign (bytes_from (byte_at (state self.old)) wants.now.address wants.now.bytes) regs.old) regs.old };

    /// Does what `read` does for so many bytes from an address on, where it is known at once that this is permitted. Else it
    /// does nothing.
    fn read_known(&self, address: u32, bytes: u8, to: u8, sign: bool, regs: &mut [u32; 16]) -> bool
        requires { FitsFrom bytes to }
        ensures permitted { result ≡ true → Admits registers is_in_frame refuses (state self.now) address bytes false }
        ensures registers { regs.new ≡ (if result then filled to sign (bytes_from (byte_at (state self.now)) address bytes) regs.old else regs.old) };

    /// Does what `write` does for so many bytes from an address on, where it is known at once that this is permitted. Else it
    /// does nothing.
    fn write_known(&mut self, address: u32, bytes: u8, from: u8, regs: &[u32; 16]) -> bool
        requires { FitsFrom bytes from }
        ensures permitted { result ≡ true → Admits registers is_in_frame refuses (state self.old) address bytes true }
        ensures state { state self.new ≡ (if result then stored (state self.old) address (stored_bytes regs.now bytes from) else state self.old) };

    /// Stores the bytes of registers from one upwards, as `store` does, if `probe` permits the access.
    fn write(&mut self, wants: &Access, from: u8, regs: &[u32; 16]) -> Probe
        requires { FitsRegisters wants.now true from }
        ensures answer { result ≡ answer_in registers is_in_frame refuses (state self.old) wants.now }
        ensures state { state self.new ≡ if_permitted result (stored (state self.old) wants.now.address (stored_bytes regs.now wants.now.bytes from)) (state self.old) };
}
