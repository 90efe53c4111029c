ghost use Rattle.std.specs.Prelude.{◌≡◌, ◌<◌, ◌≤◌, ◌≤ℤ◌, ◌+ℤ◌, pos, ◌-ℤ◌, ◌^◌, IsTrue, IfSome, None, false};
ghost use Rattle.romp_table.specs.Legal.{HasWidths};
ghost use Rattle.flat_machine.specs.Branches.{condition, even, target, is_register_branch, is_branch, is_taken, link_of, executes, branch_to, branch_of, may_be_subject};

use super::machine::{Branch, Cs};
use romp_table::{Inst, Op};

/// What a branch or jump at an address does (docs/FORMATS.md).
#[inline(always)]
pub fn branch(inst: &Inst, regs: &[u32; 16], cs: &Cs, iar: u32) -> Branch
    requires widths { HasWidths inst.now }
    requires branches { IsTrue (is_branch inst.now) }
    ensures value { result ≡ branch_of inst.now regs.now cs.now iar }
    ensures link { IfSome result.link (λ register. register < 16) }
{
    match *inst {
        Inst::J { op, cond, disp } => {
            branches_to(op, cond, cs, target_of(iar, 2 * i32::from(disp)))
        }
        Inst::BI { op, b, disp } => branches_to(op, b, cs, target_of(iar, 2 * disp)),
        Inst::BA { op, to } => branches_to(op, 0, cs, to - to % 2),
        Inst::R { op, b, c } => {
            let to = regs[usize::from(c)];
            branches_to(op, b, cs, to - to % 2)
        }
        _ => unreachable!(),
    }
}

/// Whether an instruction branches or jumps.
#[inline(always)]
pub fn branches(inst: &Inst) -> bool
    ensures { result ≡ is_branch inst.now }
{
    match *inst {
        Inst::J { .. } | Inst::BI { .. } | Inst::BA { .. } => true,
        Inst::R { op, .. } => branches_by_register(op),
        _ => false,
    }
}

/// Whether a row of format R branches.
fn branches_by_register(op: Op) -> bool
    ensures { result ≡ is_register_branch op }
{
    match op {
        Op::Bnbr | Op::Bnbrx | Op::Bbr | Op::Bbrx | Op::Balr | Op::Balrx => true,
        _ => false,
    }
}

/// Whether an instruction may be a subject.
pub fn is_subject(inst: &Inst) -> bool
    ensures { result ≡ may_be_subject inst.now }
{
    match *inst {
        Inst::R { op, .. } => match op {
            Op::Tgte | Op::Tlt => false,
            _ => !branches_by_register(op),
        },
        Inst::D { op, .. } => match op {
            Op::Ti | Op::Svc => false,
            _ => true,
        },
        _ => !branches(inst),
    }
}

/// A branch with this operation and field B, to an address if it is taken.
#[inline(always)]
fn branches_to(op: Op, b: u8, cs: &Cs, to: u32) -> Branch
    requires { b < 16 }
    ensures value { result ≡ branch_to op b cs.now to }
    ensures link { IfSome result.link (λ register. register < 16) }
{
    Branch {
        to: if takes(op, cs, b) { Some(to) } else { None },
        link: link_register(op, b),
        execute: has_subject(op),
    }
}

/// Whether a branch is taken.
#[inline(always)]
fn takes(op: Op, cs: &Cs, field: u8) -> bool
    ensures { result ≡ is_taken op cs.now field }
{
    match op {
        Op::Balr | Op::Balrx | Op::Bali | Op::Balix | Op::Bala | Op::Balax => true,
        Op::Jb | Op::Bb | Op::Bbx | Op::Bbr | Op::Bbrx => holds(cs, field),
        _ => !holds(cs, field),
    }
}

/// The register that gets the link, if the row has one.
#[inline(always)]
fn link_register(op: Op, b: u8) -> Option<u8>
    requires { b < 16 }
    ensures value { result ≡ link_of op b }
    ensures register { IfSome result (λ register. register < 16) }
{
    match op {
        Op::Balr | Op::Balrx | Op::Bali | Op::Balix => Some(b),
        Op::Bala | Op::Balax => Some(15),
        _ => None,
    }
}

/// Whether the instruction after a branch is its subject.
#[inline(always)]
fn has_subject(op: Op) -> bool
    ensures { result ≡ executes op }
{
    match op {
        Op::Bnbrx | Op::Bbrx | Op::Balrx | Op::Bnbx | Op::Bbx | Op::Balix | Op::Balax => true,
        _ => false,
    }
}

/// The value of a condition field.
pub fn holds(cs: &Cs, field: u8) -> bool
    ensures { result ≡ condition cs.now field }
{
    match field {
        1 => cs.lt(),
        2 => cs.eq(),
        3 => cs.gt(),
        4 => cs.c0(),
        5 => cs.ov(),
        _ => false,
    }
}

/// The address so many bytes away, its lowest bit taken as zero.
pub fn target_of(address: u32, away: i32) -> u32
    requires { pos 0 ≤ℤ (away +ℤ pos (2 ^ 31)) }
    ensures { result ≡ target address away }
{
    let to = i64::from(address) + i64::from(away);
    let wrapped = if to < 0 {
        (to + 0x1_0000_0000) as u32
    } else {
        (to % 0x1_0000_0000) as u32
    };
    wrapped - wrapped % 2
}
