ghost use Rattle.std.specs.Prelude.{◌≡◌, ◌<◌, length, None};
ghost use Rattle.std.specs.Option.{ForSome};
ghost use Rattle.flat_machine.specs.Access.{FitsFrom, IsAccess};
ghost use Rattle.flat_machine.specs.Pending.{planned, IsSoundPending, StaysIfPending};
ghost use Rattle.flat_machine.specs.declared.machine.Act.{Act};
ghost use Rattle.romp_cpu.specs.Shown.{halfword_of};
ghost use Rattle.romp_cpu.specs.Tried.{at, how_went, link_set, tried};
ghost use Rattle.romp_cpu.specs.Attempts.{left_as, plan_over, seen_of, GivesNext, TriesAct, TriesNext, UndoesUnlessWent, IsOfFewBytes, StoresAll};

use super::storage::{Access, Fault, Probe, Storage};
use flat_machine::{Act, Cs, Fetch, Pending, Rest, do_ready, start_row};

/// A processor: sixteen registers, the condition status, the address of the next instruction, and how many bytes were
/// printed.
#[derive(Drop)]
pub struct Cpu {
    pub regs: [u32; 16],
    pub cs: Cs,
    pub iar: u32,
    pub printed: u16,
}

/// How an attempt went: the instruction took effect, maybe with a byte to print; or it is the commit call, a program check
/// or an access that can't be made now, and took none.
#[derive(Clone, Copy)]
pub enum Attempt {
    Went,
    Fault(Fault, Access),
    Print(u8),
    Commit,
    Check(u8),
}

/// What a storage shows, as a place to fetch instructions from.
#[derive(Drop)]
struct Shown<'a, S> {
    storage: &'a S,
}

impl<'a, S: Storage> Fetch for Shown<'a, S> {
    ghost use Rattle.std.specs.Prelude.{⊤};
    ghost use Rattle.romp_cpu.specs.Shown.{halfword_of};

    ghost is_whole = { λ _. ⊤ };

    ghost halfword_at = { λ code. halfword_of (S.byte_at (S.state code.storage.now)) };

    fn fetch(&self, address: u32) -> Option<u16> {
        self.storage.fetch(address)
    }
}

impl Cpu {
    /// One attempt of the next instruction, a branch with execute and its subject being one. What it and its subject access
    /// is asked for once, before anything changes: a fault, a commit and a check leave processor and storage as they were.
    ///
    /// What comes follows from the instruction's plan and the storage's answer to its access alone: a fault exactly where
    /// that is the answer, with the access that was asked (docs/MODEL.md).
    #[inline(always)]
    pub fn attempt<S: Storage>(&mut self, storage: &mut S) -> Attempt
        ensures tried { TriesNext S.Storage storage.old storage.new self.old self.new result }
        ensures row { GivesNext S.Storage storage.old storage.new self.old self.new result }
        ensures undone { UndoesUnlessWent result self.old self.new (S.state storage.old) (S.state storage.new) }
        ensures few { IsOfFewBytes result }
        ensures whole { StoresAll (plan_over S.Storage storage.old self.old) }
    {
        let mut iar = self.iar;
        let mut went = Attempt::Went;
        let at_once = self.step(storage, &mut iar, &mut went);
        self.iar = iar;
        if at_once { Attempt::Went } else { went }
    }

    /// The attempt of the instruction at an address that the caller keeps, so that it needn't go through memory from one row to
    /// the next. The processor's own is any after it. True: it went at once. Else `went` says how, in a place of the caller's,
    /// so that none is cleared for a row that goes at once (docs/MODEL.md).
    #[inline(always)]
    pub fn step<S: Storage>(&mut self, storage: &mut S, iar: &mut u32, went: &mut Attempt) -> bool
        ensures tried { TriesNext S.Storage storage.old storage.new (at self.old iar.old) (at self.new iar.new) (how_went result went.new) }
        ensures row { GivesNext S.Storage storage.old storage.new (at self.old iar.old) (at self.new iar.new) (how_went result went.new) }
        ensures few { IsOfFewBytes (how_went result went.new) }
        ensures whole { StoresAll (plan_over S.Storage storage.old (at self.old iar.old)) }
    {
        self.carry_out(storage, iar, went)
    }

    /// Does what the instruction at an address is to do, as far as the storage permits.
    #[inline(always)]
    fn carry_out<S: Storage>(&mut self, storage: &mut S, iar: &mut u32, went: &mut Attempt) -> bool
        ensures tried { TriesNext S.Storage storage.old storage.new (at self.old iar.old) (at self.new iar.new) (how_went result went.new) }
        ensures few { IsOfFewBytes (how_went result went.new) }
        ensures whole { StoresAll (plan_over S.Storage storage.old (at self.old iar.old)) }
    {
        let Some(row) = storage.ready(*iar) else {
            return self.carry_out_at(storage, iar, went);
        };
        match do_ready(row, &mut self.regs, &mut self.cs, *iar) {
            Rest::On(next) => {
                *iar = next;
                true
            }
            Rest::Link {
                to,
                register,
                after,
            } => {
                self.regs[usize::from(register)] = after;
                *iar = to;
                true
            }
            Rest::Load {
                address,
                bytes,
                to,
                sign,
                next,
            } => self.load_at(storage, iar, address, bytes, to, sign, next, went),
            Rest::Store {
                address,
                bytes,
                from,
                next,
            } => self.store_at(storage, iar, address, bytes, from, next, went),
            Rest::Trap(_) => {
                *went = Attempt::Check(3);
                false
            }
        }
    }

    /// A load of a row that is known, at once where it is known to be permitted. Its address goes into no call, so that it
    /// needn't lie in memory.
    #[inline(always)]
    fn load_at<S: Storage>(
        &mut self,
        storage: &mut S,
        iar: &mut u32,
        address: u32,
        bytes: u8,
        to: u8,
        sign: bool,
        next: u32,
        went: &mut Attempt,
    ) -> bool
        requires fits { FitsFrom bytes to }
        ensures { TriesAct S.Storage storage.old storage.new (at self.old iar.old) (at self.new iar.new) (Act.Load address bytes to sign) next None (how_went result went.new) }
    {
        if storage.read_known(address, bytes, to, sign, &mut self.regs) {
            *iar = next;
            return true;
        }
        self.iar = *iar;
        self.load(storage, address, bytes, to, sign, next, None, went);
        *iar = self.iar;
        false
    }

    /// The same of a store.
    #[inline(always)]
    fn store_at<S: Storage>(
        &mut self,
        storage: &mut S,
        iar: &mut u32,
        address: u32,
        bytes: u8,
        from: u8,
        next: u32,
        went: &mut Attempt,
    ) -> bool
        requires fits { FitsFrom bytes from }
        ensures { TriesAct S.Storage storage.old storage.new (at self.old iar.old) (at self.new iar.new) (Act.Store address bytes from) next None (how_went result went.new) }
    {
        if storage.write_known(address, bytes, from, &self.regs) {
            *iar = next;
            return true;
        }
        self.iar = *iar;
        self.store(storage, address, bytes, from, next, None, went);
        *iar = self.iar;
        false
    }

    /// The instruction at an address where no row made ready is known.
    #[inline(always)]
    fn carry_out_at<S: Storage>(
        &mut self,
        storage: &mut S,
        iar: &mut u32,
        went: &mut Attempt,
    ) -> bool
        ensures tried { TriesNext S.Storage storage.old storage.new (at self.old iar.old) (at self.new iar.new) (how_went result went.new) }
        ensures few { IsOfFewBytes (how_went result went.new) }
        ensures whole { StoresAll (plan_over S.Storage storage.old (at self.old iar.old)) }
    {
        self.iar = *iar;
        self.carry_out_anew(storage, went);
        *iar = self.iar;
        false
    }

    /// A load, as far as the storage permits. It is told in numbers, so that none of them lies in memory for a row that goes on
    /// at once.
    #[inline(never)]
    fn load<S: Storage>(
        &mut self,
        storage: &mut S,
        address: u32,
        bytes: u8,
        to: u8,
        sign: bool,
        next: u32,
        link: Option<(u8, u32)>,
        went: &mut Attempt,
    )
        requires fits { FitsFrom bytes to }
        requires link { ForSome link (λ written. written.0 < 16) }
        ensures { TriesAct S.Storage storage.old storage.new self.old self.new (Act.Load address bytes to sign) next link went.new }
    {
        let access = Access {
            address,
            bytes,
            store: false,
        };
        *went = match storage.read(&access, to, sign, &mut self.regs) {
            Probe::Permitted => self.go_on(next, link),
            Probe::Check(code) => Attempt::Check(code),
            Probe::Fault(fault) => Attempt::Fault(fault, access),
        };
    }

    /// A store, as far as the storage permits, told in numbers too.
    #[inline(never)]
    fn store<S: Storage>(
        &mut self,
        storage: &mut S,
        address: u32,
        bytes: u8,
        from: u8,
        next: u32,
        link: Option<(u8, u32)>,
        went: &mut Attempt,
    )
        requires fits { FitsFrom bytes from }
        requires link { ForSome link (λ written. written.0 < 16) }
        ensures { TriesAct S.Storage storage.old storage.new self.old self.new (Act.Store address bytes from) next link went.new }
    {
        let access = Access {
            address,
            bytes,
            store: true,
        };
        *went = match storage.write(&access, from, &self.regs) {
            Probe::Permitted => self.go_on(next, link),
            Probe::Check(number) => Attempt::Check(number),
            Probe::Fault(why) => Attempt::Fault(why, access),
        };
    }

    /// The same where no row made ready is known there: one is asked for.
    #[inline(never)]
    fn carry_out_anew<S: Storage>(&mut self, storage: &mut S, went: &mut Attempt)
        ensures tried { TriesNext S.Storage storage.old storage.new self.old self.new went.new }
        ensures few { IsOfFewBytes went.new }
        ensures whole { StoresAll (plan_over S.Storage storage.old self.old) }
    {
        storage.prepare(self.iar);
        let pending = self.start(storage);
        self.finish(storage, pending, went);
    }

    /// Does to registers and status what the next instruction does, and tells what is left of it: by the row made ready for it,
    /// where there is one, and else the instruction is decoded.
    #[inline(always)]
    fn start<S: Storage>(&mut self, storage: &S) -> Pending
        ensures plan { plan_over S.Storage storage.now self.old ≡ planned self.new.regs self.new.cs result }
        ensures stays { StaysIfPending result self.old.regs self.new.regs self.old.cs self.new.cs }
        ensures sound { IsSoundPending result }
        ensures long { length self.new.regs ≡ 16 }
        ensures rest { self.new ≡ record self.old { regs = self.new.regs; cs = self.new.cs } }
    {
        if let Some(row) = storage.ready(self.iar) {
            return do_ready(row, &mut self.regs, &mut self.cs, self.iar).pending();
        }
        let code = Shown { storage };
        start_row(&code, &mut self.regs, &mut self.cs, self.iar)
    }

    /// What is left of an instruction whose registers and status are as it makes them.
    #[inline(always)]
    fn finish<S: Storage>(&mut self, storage: &mut S, pending: Pending, went: &mut Attempt)
        requires sound { IsSoundPending pending }
        ensures tried { left_as S.Storage went.new self.new storage.new ≡ tried (seen_of S.Storage storage.old) self.old (planned self.old.regs self.old.cs pending) }
        ensures few { IsOfFewBytes went.new }
    {
        match pending {
            Pending::Fails(code) => *went = Attempt::Check(code),
            Pending::Does { act, next, link } => self.act(storage, act, next, link, went),
        }
    }

    /// What is left of an instruction that has done its registers and status.
    #[inline(always)]
    fn act<S: Storage>(
        &mut self,
        storage: &mut S,
        act: Act,
        next: u32,
        link: Option<(u8, u32)>,
        went: &mut Attempt,
    )
        requires access { IsAccess act }
        requires link { ForSome link (λ written. written.0 < 16) }
        ensures { TriesAct S.Storage storage.old storage.new self.old self.new act next link went.new }
    {
        *went = match act {
            Act::Nothing => self.go_on(next, link),
            Act::Load {
                address,
                bytes,
                to,
                sign,
            } => return self.load(storage, address, bytes, to, sign, next, link, went),
            Act::Store {
                address,
                bytes,
                from,
            } => return self.store(storage, address, bytes, from, next, link, went),
            Act::Print(byte) => {
                if self.printed < 4096 {
                    self.printed += 1;
                    let _ = self.go_on(next, link);
                    Attempt::Print(byte)
                } else {
                    Attempt::Check(5)
                }
            }
            Act::Commit => Attempt::Commit,
            Act::Check(code) => Attempt::Check(code),
        };
    }

    /// The instruction takes effect: its link is written last.
    #[inline(always)]
    fn go_on(&mut self, next: u32, link: Option<(u8, u32)>) -> Attempt
        requires { ForSome link (λ written. written.0 < 16) }
        ensures cpu { self.new ≡ record self.old { regs = link_set link self.old.regs; iar = next } }
        ensures went { result ≡ Attempt.Went }
    {
        self.iar = next;
        if let Some((register, address)) = link {
            self.regs[usize::from(register)] = address;
        }
        Attempt::Went
    }
}
