ghost use Rattle.std.specs.Prelude.{ℕ, List, Option, Some, ◌≡◌, ◌<◌, ◌≤◌, ◌+◌, IfOk, OnOk, OnSome, length};
ghost use Rattle.flat_machine.specs.Below.{ForSome, HasWidths};
ghost use Rattle.flat_machine.specs.Access.{IsAccess};
ghost use Rattle.flat_machine.specs.Pending.{planned, IsSoundPending, StaysIfPending, StaysIfWanting, IsLeftOf, BeginsRow};
ghost use Rattle.flat_machine.specs.declared.machine.Cs.{Cs};
ghost use Rattle.flat_machine.specs.Row.{plan, plan_of, plan_of_pair, goes_by, fetched};

use super::branches::{branch, branches, is_subject};
use super::effects::effect;
use super::machine::{Act, Branch, Cs, Pending};
use romp_table::{Inst, decode, length_of};

/// What instructions are fetched from: 16,384 bytes.
pub trait Fetch {
    /// Whether the bytes are all there.
    ghost is_whole: { Self → Type 0 };

    /// The halfword at an address, the higher byte first.
    ghost halfword_at: { Self → ℕ → Option ℕ };

    /// The halfword at an address, if it lies in these bytes.
    fn fetch(&self, address: u32) -> Option<u16>
        requires { is_whole self.now }
        ensures value { result ≡ halfword_at self.now address }
        ensures within { OnSome result (address + 2 ≤ 16384) };
}

/// Does to registers and status what the row at an address does, and tells what is left of it. Where it wants something
/// beside them, and where its fetch fails, they stay. It looks at no byte of the store (docs/MODEL.md).
#[inline(always)]
pub fn start_row<F: Fetch>(code: &F, regs: &mut [u32; 16], cs: &mut Cs, iar: u32) -> Pending
    requires { F.is_whole code.now }
    ensures { BeginsRow (plan (F.halfword_at code.now)) iar regs.old regs.new cs.old cs.new result }
{
    match fetch_instruction(code, iar) {
        Err(code) => Pending::Fails(code),
        Ok((inst, bytes)) => start_instruction(code, &inst, bytes, regs, cs, iar),
    }
}

/// The same of an instruction of so many bytes.
#[inline(always)]
fn start_instruction<F: Fetch>(
    code: &F,
    inst: &Inst,
    bytes: u8,
    regs: &mut [u32; 16],
    cs: &mut Cs,
    iar: u32,
) -> Pending
    requires whole { F.is_whole code.now }
    requires widths { HasWidths inst.now }
    requires within { iar < 16384 }
    requires bytes { bytes ≤ 4 }
    ensures { BeginsRow (plan_of (F.halfword_at code.now) inst.now bytes) iar regs.old regs.new cs.old cs.new result }
{
    let after = iar + u32::from(bytes);
    if !branches(inst) {
        let act = effect(inst, regs, cs);
        return Pending::Does {
            act,
            next: after,
            link: None,
        };
    }
    let way = branch(inst, regs, cs, iar);
    if way.execute {
        start_pair(code, way, regs, cs, after)
    } else {
        go_by(way, Act::Nothing, after)
    }
}

/// The same of a branch with execute, by its subject, which stands at an address. The branch is the one that registers and
/// status before the subject make.
#[inline(never)]
fn start_pair<F: Fetch>(
    code: &F,
    way: Branch,
    regs: &mut [u32; 16],
    cs: &mut Cs,
    address: u32,
) -> Pending
    requires whole { F.is_whole code.now }
    requires link { ForSome way.link (λ register. register < 16) }
    requires within { address ≤ 16388 }
    ensures { BeginsRow (plan_of_pair way (fetched (F.halfword_at code.now) address)) address regs.old regs.new cs.old cs.new result }
{
    let (inst, bytes) = match fetch_instruction(code, address) {
        Err(code) => return Pending::Fails(code),
        Ok(fetch) => fetch,
    };
    if !is_subject(&inst) {
        return Pending::Fails(4);
    }
    let act = effect(&inst, regs, cs);
    go_by(way, act, address + u32::from(bytes))
}

/// Control goes to a branch's target, or else to the address after the row, which is the link.
#[inline(always)]
fn go_by(way: Branch, act: Act, after: u32) -> Pending
    requires link { ForSome way.link (λ register. register < 16) }
    requires access { IsAccess act }
    ensures { IsLeftOf way act after result }
{
    Pending::Does {
        act,
        next: way.to.unwrap_or(after),
        link: way.link.map(|register| (register, after)),
    }
}

/// The instruction at an address and its bytes, or the code of a check.
#[inline(always)]
fn fetch_instruction<F: Fetch>(code: &F, address: u32) -> Result<(Inst, u8), u8>
    requires { F.is_whole code.now }
    ensures value { result ≡ fetched (F.halfword_at code.now) address }
    ensures widths { IfOk result (λ fetch. HasWidths fetch.0) }
    ensures within { OnOk result (address < 16384) }
    ensures bytes { IfOk result (λ fetch. fetch.1 ≤ 4) }
{
    let Some(first) = code.fetch(address) else {
        return Err(2);
    };
    if length_of(first) == 2 {
        return match decode(first, 0) {
            None => Err(1),
            Some(inst) => Ok((inst, 2)),
        };
    }
    let Some(second) = code.fetch(address + 2) else {
        return Err(2);
    };
    match decode(first, second) {
        None => Err(1),
        Some(inst) => Ok((inst, 4)),
    }
}
