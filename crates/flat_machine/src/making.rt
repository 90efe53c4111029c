//! How a row is made ready.
ghost use Rattle.std.specs.Prelude.{◌≡◌, ◌<◌, ◌≤◌, ℕ, List, Result, IfSome, false};
ghost use Rattle.flat_machine.specs.Below.{HasWidths, Inst};
ghost use Rattle.flat_machine.specs.declared.machine.Cs.{Cs};
ghost use Rattle.flat_machine.specs.declared.ready.Ready.{Ready};
ghost use Rattle.flat_machine.specs.Branches.{branch_to, is_register_branch};
ghost use Rattle.flat_machine.specs.Row.{plan_of_branch};
ghost use Rattle.flat_machine.specs.Work.{work_of_r, work_of_d, work_of_s};
ghost use Rattle.flat_machine.specs.Lengths.{inst_length, length_made};
ghost use Rattle.flat_machine.specs.Ready.{done_by, has_second, work_made, GoesOn, IsReadyOf, IsReadyRowOf, IsJump, IsMade, DoesTwo, DoesCount, MakesWork};

use super::branches::target_of;
use super::ready::{Doing, Ready};
use super::words::{bias, bit_at, extend, invert};
use romp_table::{Inst, Op, decode, length_of};

impl Ready {
    /// Whether it has a second halfword.
    pub fn is_long(&self) -> bool
        ensures { result ≡ has_second self.now }
    {
        self.bytes == 4
    }
}

/// The row of two halfwords at an address made ready, if it is one that is done in one go. The second counts for rows of four
/// bytes alone.
pub fn ready_of(first: u16, second: u16, iar: u32) -> Option<Ready>
    ensures { IfSome result (λ row. IsReadyRowOf row first second iar) }
{
    if length_of(first) == 2 {
        ready_instruction(&decode(first, 0)?, 2, iar)
    } else {
        ready_instruction(&decode(first, second)?, 4, iar)
    }
}

/// The same of an instruction of so many bytes.
fn ready_instruction(inst: &Inst, bytes: u8, iar: u32) -> Option<Ready>
    requires widths { HasWidths inst.now }
    requires bytes { bytes ≡ inst_length inst.now }
    ensures { IfSome result (IsMade inst.now bytes iar) }
{
    match *inst {
        Inst::J { op, cond, disp } => {
            let doing = jump_made(op, cond)?;
            let i = target_of(iar, 2 * i32::from(disp));
            Some(row_with(doing, bytes, 0, 0, i))
        }
        Inst::S { op, k, b, c } => {
            let (doing, i) = short_made(op, k)?;
            Some(row_with(doing, bytes, b, c, i))
        }
        Inst::X { op, a, b, c } => match op {
            Op::Cas => Some(row_with(Doing::AddressOfTwo, bytes, a, c, u32::from(b))),
            _ => None,
        },
        Inst::R { op, b, c } => ready_two(op, b, c, bytes, iar),
        Inst::D { op, b, c, i } => {
            let (doing, i) = long_made(op, i)?;
            Some(row_with(doing, bytes, b, c, i))
        }
        Inst::BI { op, b, disp } => ready_far(op, b, disp, bytes, iar),
        Inst::BA { op, to } => match op {
            Op::Bala => Some(row_with(Doing::Link, bytes, 15, 0, to - to % 2)),
            _ => None,
        },
    }
}

/// These parts as a row.
fn row_with(doing: Doing, bytes: u8, b: u8, c: u8, i: u32) -> Ready
    requires fields { (bytes ≤ 4) × (b < 16) × (c < 16) }
    requires length { length_made doing bytes ≡ bytes }
    ensures parts { (result.doing ≡ doing) × (result.bytes ≡ bytes) × (result.b ≡ b) × (result.c ≡ c) × (result.i ≡ i) }
{
    Ready {
        doing,
        bytes,
        b,
        c,
        i,
    }
}

/// Format R.
fn ready_two(op: Op, b: u8, c: u8, bytes: u8, iar: u32) -> Option<Ready>
    requires { (bytes ≡ 2) × (b < 16) × (c < 16) }
    ensures { IfSome result (IsMade (Inst.R op b c) bytes iar) }
{
    match op {
        Op::Bnbr => Some(row_with(Doing::GoToUnless, bytes, b, c, 0)),
        Op::Bbr => Some(row_with(Doing::GoToIf, bytes, b, c, 0)),
        Op::Balr => Some(row_with(Doing::LinkTo, bytes, b, c, 0)),
        _ => ready_work(op, b, c, bytes, iar),
    }
}

/// The same of those that don't branch.
fn ready_work(op: Op, b: u8, c: u8, bytes: u8, iar: u32) -> Option<Ready>
    requires { (bytes ≡ 2) × (b < 16) × (c < 16) }
    ensures { IfSome result (IsMade (Inst.R op b c) bytes iar) }
{
    if let Some(doing) = two_made(op) {
        return Some(row_with(doing, bytes, b, c, 0));
    }
    let (doing, i) = count_made(op, c)?;
    Some(row_with(doing, bytes, b, b, i))
}

/// Format BI.
fn ready_far(op: Op, b: u8, disp: i32, bytes: u8, iar: u32) -> Option<Ready>
    requires widths { HasWidths (Inst.BI op b disp) }
    requires bytes { bytes ≡ 4 }
    ensures { IfSome result (IsMade (Inst.BI op b disp) bytes iar) }
{
    let i = target_of(iar, 2 * disp);
    match op {
        Op::Bali => Some(row_with(Doing::Link, bytes, b, 0, i)),
        _ => Some(row_with(jump_made(op, b)?, bytes, 0, 0, i)),
    }
}

/// What a branch or jump by a condition does, if it has neither a link nor a subject.
fn jump_made(op: Op, field: u8) -> Option<Doing>
    ensures goes { IfSome result (IsJump op field) }
    ensures length { IfSome result (λ doing. (bytes : ℕ) → length_made doing bytes ≡ bytes) }
{
    match op {
        Op::Jb | Op::Bb => match field {
            0 => Some(Doing::Stay),
            1 => Some(Doing::GoIfLess),
            2 => Some(Doing::GoIfEqual),
            3 => Some(Doing::GoIfGreater),
            4 => Some(Doing::GoIfCarry),
            5 => Some(Doing::GoIfOverflow),
            _ => None,
        },
        Op::Jnb | Op::Bnb => match field {
            0 => Some(Doing::Go),
            1 => Some(Doing::GoUnlessLess),
            2 => Some(Doing::GoUnlessEqual),
            3 => Some(Doing::GoUnlessGreater),
            4 => Some(Doing::GoUnlessCarry),
            5 => Some(Doing::GoUnlessOverflow),
            _ => None,
        },
        _ => None,
    }
}

/// What a row of format S does, and its operand.
fn short_made(op: Op, k: u8) -> Option<(Doing, u32)>
    requires { k < 16 }
    ensures works { MakesWork (λ registers status b x y z. work_of_s op k b z) result }
    ensures length { IfSome result (λ made. length_made made.0 2 ≡ 2) }
{
    let k = u32::from(k);
    match op {
        Op::Stcs => Some((Doing::StoreByteShort, k)),
        Op::Sths => Some((Doing::StoreHalfShort, k * 2)),
        Op::Sts => Some((Doing::StoreWordShort, k * 4)),
        Op::Lcs => Some((Doing::LoadByteShort, k)),
        Op::Lhas => Some((Doing::LoadHalfSignedShort, k * 2)),
        Op::Ls => Some((Doing::LoadWordShort, k * 4)),
        _ => None,
    }
}

/// What a row of format R with two registers does; it has no operand.
fn two_made(op: Op) -> Option<Doing>
    ensures does { IfSome result (DoesTwo op) }
    ensures works { IfSome result (λ doing. is_register_branch op ≡ false) }
    ensures length { IfSome result (λ doing. length_made doing 2 ≡ 2) }
{
    match op {
        Op::Sar => Some(Doing::ShiftSigned),
        Op::Sr => Some(Doing::ShiftRight),
        Op::Sl => Some(Doing::ShiftLeft),
        Op::Exts => Some(Doing::Extend),
        Op::Sf => Some(Doing::SubtractFrom),
        Op::S => Some(Doing::Subtract),
        Op::A => Some(Doing::Add),
        Op::Ae => Some(Doing::AddCarry),
        Op::Se => Some(Doing::SubtractCarry),
        Op::Cl => Some(Doing::Compare),
        Op::C => Some(Doing::CompareSigned),
        Op::Tgte => Some(Doing::TrapUnlessBelow),
        Op::Tlt => Some(Doing::TrapIfBelow),
        Op::Abs => Some(Doing::Magnitude),
        Op::Twoc => Some(Doing::Negate),
        Op::Onec => Some(Doing::Invert),
        Op::O => Some(Doing::Or),
        Op::N => Some(Doing::And),
        Op::X => Some(Doing::Differ),
        Op::Lhs => Some(Doing::LoadHalfAt),
        _ => None,
    }
}

/// What a row of format R with a number does, and its operand; register B stands for register C too.
fn count_made(op: Op, k: u8) -> Option<(Doing, u32)>
    requires { k < 16 }
    ensures does { IfSome result (λ made. DoesCount op k made.0 made.1) }
    ensures works { IfSome result (λ made. is_register_branch op ≡ false) }
    ensures length { IfSome result (λ made. length_made made.0 2 ≡ 2) }
{
    let count = u32::from(k);
    match op {
        Op::Ais => Some((Doing::AddOperandShort, count)),
        Op::Sis => Some((Doing::AddOperandOne, invert(count))),
        Op::Inc => Some((Doing::Increase, count)),
        Op::Dec => Some((Doing::Decrease, count)),
        Op::Lis => Some((Doing::Take, count)),
        Op::Cis => Some((Doing::CompareSignedOperandShort, bias(count))),
        Op::Clrbu => Some((Doing::AndOperandShort, invert(bit_at(k)))),
        Op::Clrbl => Some((Doing::AndOperandShort, invert(bit_at(16 + k)))),
        Op::Setbu => Some((Doing::OrOperandShort, bit_at(k))),
        Op::Setbl => Some((Doing::OrOperandShort, bit_at(16 + k))),
        Op::Sari => Some((Doing::ShiftSignedBy, count)),
        Op::Sari16 => Some((Doing::ShiftSignedBy, count + 16)),
        Op::Sri => Some((Doing::ShiftRightBy, count)),
        Op::Sri16 => Some((Doing::ShiftRightBy, count + 16)),
        Op::Sli => Some((Doing::ShiftLeftBy, count)),
        Op::Sli16 => Some((Doing::ShiftLeftBy, count + 16)),
        _ => None,
    }
}

/// What a row of format D does, and its operand.
fn long_made(op: Op, i: u16) -> Option<(Doing, u32)>
    ensures works { MakesWork (λ r cs b x y z. work_of_d op r cs b y z i) result }
    ensures length { IfSome result (λ made. length_made made.0 4 ≡ 4) }
{
    let low = u32::from(i);
    let high = low * 0x1_0000;
    match op {
        Op::Ai => Some((Doing::AddOperand, extend(i))),
        Op::Aei => Some((Doing::AddOperandCarry, extend(i))),
        Op::Sfi => Some((Doing::SubtractFromOperand, extend(i))),
        Op::Cli => Some((Doing::CompareOperand, extend(i))),
        Op::Ci => Some((Doing::CompareSignedOperand, bias(extend(i)))),
        Op::Ti => Some((Doing::TrapIfMasked, bias(extend(i)))),
        Op::Cal => Some((Doing::Address, extend(i))),
        Op::Cau => Some((Doing::Address, high)),
        Op::Oiu => Some((Doing::OrOperand, high)),
        Op::Oil => Some((Doing::OrOperand, low)),
        Op::Xiu => Some((Doing::DifferOperand, high)),
        Op::Xil => Some((Doing::DifferOperand, low)),
        Op::Nilz => Some((Doing::AndOperand, low)),
        Op::Nilo => Some((Doing::AndOperand, 0xFFFF_0000 + low)),
        Op::Niuz => Some((Doing::AndOperand, high)),
        Op::Niuo => Some((Doing::AndOperand, high + 0xFFFF)),
        _ => access_of(op, i),
    }
}

/// What a row of format D that loads or stores does, and its displacement.
fn access_of(op: Op, i: u16) -> Option<(Doing, u32)>
    ensures works { MakesWork (λ r cs b x y z. work_of_d op r cs b y z i) result }
    ensures length { IfSome result (λ made. length_made made.0 4 ≡ 4) }
{
    let doing = match op {
        Op::Lm => Doing::LoadWords,
        Op::Stm => Doing::StoreWords,
        Op::Lc => Doing::LoadByte,
        Op::Lh => Doing::LoadHalf,
        Op::Lha => Doing::LoadHalfSigned,
        Op::L => Doing::LoadWord,
        Op::Stc => Doing::StoreByte,
        Op::Sth => Doing::StoreHalf,
        Op::St => Doing::StoreWord,
        _ => return None,
    };
    Some((doing, extend(i)))
}
