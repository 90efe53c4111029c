//! How a row made ready is done.
ghost use Rattle.std.specs.Prelude.{◌≡◌, ◌<◌, ◌≤◌, ◌+◌, if◌then◌else◌, length, slice_index, slice_set};
ghost use Rattle.flat_machine.specs.declared.ready.Rest.TheVariants.{On, Link, Load, Store, Trap};
ghost use Rattle.flat_machine.specs.Access.{FitsFrom};
ghost use Rattle.flat_machine.specs.Branches.{even};
ghost use Rattle.flat_machine.specs.Pending.{pending_of, planned, IsSoundPending, StaysIfPending};
ghost use Rattle.flat_machine.specs.Ready.{done};
ghost use Rattle.flat_machine.specs.Words.{sum_of, signed_status, compared_status, sum_status};
ghost use Rattle.flat_machine.specs.Work.{base};

use super::branches::holds;
use super::machine::Cs;
use super::ready::{Doing, Ready, Rest};
use super::row_table::{
    base_of, carry_of, compare_with, half_at, masks, put, signed, sum, word_at,
};
use super::words::{
    add, bias, extend, invert, magnitude, shift_left, shift_right, shift_signed, subtract,
};

/// Does to registers and status what a row made ready does, by one look at what that is, and tells what is left of it. A row
/// adds its length itself, so that the next address doesn't come from memory.
#[inline(always)]
pub fn do_ready(row: &Ready, regs: &mut [u32; 16], cs: &mut Cs, iar: u32) -> Rest
    requires { iar < 16384 }
    ensures plan { done row.now regs.old cs.old iar ≡ planned regs.new cs.new (pending_of result) }
    ensures stays { StaysIfPending (pending_of result) regs.old regs.new cs.old cs.new }
    ensures sound { IsSoundPending (pending_of result) }
    ensures long { length regs.new ≡ 16 }
{
    match row.doing {
        Doing::Stay => Rest::On(after(row, iar)),
        Doing::Go => Rest::On(row.i),
        Doing::GoIfLess => to_if(cs.lt(), row.i, after(row, iar)),
        Doing::GoIfEqual => to_if(cs.eq(), row.i, after(row, iar)),
        Doing::GoIfGreater => to_if(cs.gt(), row.i, after(row, iar)),
        Doing::GoIfCarry => to_if(cs.c0(), row.i, after(row, iar)),
        Doing::GoIfOverflow => to_if(cs.ov(), row.i, after(row, iar)),
        Doing::GoUnlessLess => to_if(!cs.lt(), row.i, after(row, iar)),
        Doing::GoUnlessEqual => to_if(!cs.eq(), row.i, after(row, iar)),
        Doing::GoUnlessGreater => to_if(!cs.gt(), row.i, after(row, iar)),
        Doing::GoUnlessCarry => to_if(!cs.c0(), row.i, after(row, iar)),
        Doing::GoUnlessOverflow => to_if(!cs.ov(), row.i, after(row, iar)),
        Doing::GoTo => Rest::On(even(y_of(row, regs))),
        Doing::GoToIf => to_if(holds(cs, row.b), even(y_of(row, regs)), iar + 2),
        Doing::GoToUnless => to_if(!holds(cs, row.b), even(y_of(row, regs)), iar + 2),
        Doing::Link => link(row.i, row.b, iar + 4),
        Doing::LinkTo => link(even(y_of(row, regs)), row.b, iar + 2),
        Doing::Take => takes(row, row.i, regs, iar + 2),
        Doing::Increase => takes(row, add(y_of(row, regs), row.i, 0), regs, iar + 2),
        Doing::Decrease => takes(row, subtract(y_of(row, regs), row.i), regs, iar + 2),
        Doing::Address => takes(row, add(base_of(regs, row.c), row.i, 0), regs, iar + 4),
        Doing::AddressOfTwo => takes(
            row,
            add(regs[(row.i % 16) as usize], base_of(regs, row.c), 0),
            regs,
            iar + 2,
        ),
        Doing::AddOperand => sums(row, y_of(row, regs), row.i, 0, regs, cs, iar + 4),
        Doing::AddOperandShort => sums(row, y_of(row, regs), row.i, 0, regs, cs, iar + 2),
        Doing::AddOperandCarry => sums(
            row,
            y_of(row, regs),
            row.i,
            carry_of(cs),
            regs,
            cs,
            iar + 4,
        ),
        Doing::AddOperandOne => sums(row, y_of(row, regs), row.i, 1, regs, cs, iar + 2),
        Doing::SubtractFromOperand => sums(
            row,
            row.i,
            invert(y_of(row, regs)),
            1,
            regs,
            cs,
            iar + 4,
        ),
        Doing::AndOperand => signs(row, y_of(row, regs) & row.i, regs, cs, iar + 4),
        Doing::AndOperandShort => signs(row, y_of(row, regs) & row.i, regs, cs, iar + 2),
        Doing::OrOperand => signs(row, y_of(row, regs) | row.i, regs, cs, iar + 4),
        Doing::OrOperandShort => signs(row, y_of(row, regs) | row.i, regs, cs, iar + 2),
        Doing::DifferOperand => signs(row, y_of(row, regs) ^ row.i, regs, cs, iar + 4),
        Doing::ShiftLeftBy => signs(
            row,
            shift_left(x_of(row, regs), row.i % 64),
            regs,
            cs,
            iar + 2,
        ),
        Doing::ShiftRightBy => signs(
            row,
            shift_right(x_of(row, regs), row.i % 64),
            regs,
            cs,
            iar + 2,
        ),
        Doing::ShiftSignedBy => signs(
            row,
            shift_signed(x_of(row, regs), row.i % 64),
            regs,
            cs,
            iar + 2,
        ),
        Doing::CompareOperand => compares(y_of(row, regs), row.i, cs, iar + 4),
        Doing::CompareSignedOperand => compares(bias(y_of(row, regs)), row.i, cs, iar + 4),
        Doing::CompareSignedOperandShort => compares(bias(y_of(row, regs)), row.i, cs, iar + 2),
        Doing::Add => sums(row, x_of(row, regs), y_of(row, regs), 0, regs, cs, iar + 2),
        Doing::AddCarry => sums(
            row,
            x_of(row, regs),
            y_of(row, regs),
            carry_of(cs),
            regs,
            cs,
            iar + 2,
        ),
        Doing::Subtract => sums(
            row,
            x_of(row, regs),
            invert(y_of(row, regs)),
            1,
            regs,
            cs,
            iar + 2,
        ),
        Doing::SubtractCarry => sums(
            row,
            x_of(row, regs),
            invert(y_of(row, regs)),
            carry_of(cs),
            regs,
            cs,
            iar + 2,
        ),
        Doing::SubtractFrom => sums(
            row,
            y_of(row, regs),
            invert(x_of(row, regs)),
            1,
            regs,
            cs,
            iar + 2,
        ),
        Doing::Negate => sums(row, 0, invert(y_of(row, regs)), 1, regs, cs, iar + 2),
        Doing::Magnitude => signs(row, magnitude(y_of(row, regs)), regs, cs, iar + 2),
        Doing::Invert => signs(row, invert(y_of(row, regs)), regs, cs, iar + 2),
        Doing::Extend => signs(
            row,
            extend((y_of(row, regs) % 0x1_0000) as u16),
            regs,
            cs,
            iar + 2,
        ),
        Doing::And => signs(row, x_of(row, regs) & y_of(row, regs), regs, cs, iar + 2),
        Doing::Or => signs(row, x_of(row, regs) | y_of(row, regs), regs, cs, iar + 2),
        Doing::Differ => signs(row, x_of(row, regs) ^ y_of(row, regs), regs, cs, iar + 2),
        Doing::ShiftLeft => signs(
            row,
            shift_left(x_of(row, regs), y_of(row, regs) % 64),
            regs,
            cs,
            iar + 2,
        ),
        Doing::ShiftRight => signs(
            row,
            shift_right(x_of(row, regs), y_of(row, regs) % 64),
            regs,
            cs,
            iar + 2,
        ),
        Doing::ShiftSigned => signs(
            row,
            shift_signed(x_of(row, regs), y_of(row, regs) % 64),
            regs,
            cs,
            iar + 2,
        ),
        Doing::Compare => compares(x_of(row, regs), y_of(row, regs), cs, iar + 2),
        Doing::CompareSigned => compares(bias(x_of(row, regs)), bias(y_of(row, regs)), cs, iar + 2),
        Doing::LoadByte => load(address_of(row, regs), 1, row.b, false, iar + 4),
        Doing::LoadByteShort => load(address_of(row, regs), 1, row.b, false, iar + 2),
        Doing::LoadHalf => load(half_at(address_of(row, regs)), 2, row.b, false, iar + 4),
        Doing::LoadHalfSigned => load(half_at(address_of(row, regs)), 2, row.b, true, iar + 4),
        Doing::LoadHalfSignedShort => load(half_at(address_of(row, regs)), 2, row.b, true, iar + 2),
        Doing::LoadHalfAt => load(half_at(y_of(row, regs)), 2, row.b, false, iar + 2),
        Doing::LoadWord => load(word_at(address_of(row, regs)), 4, row.b, false, iar + 4),
        Doing::LoadWordShort => load(word_at(address_of(row, regs)), 4, row.b, false, iar + 2),
        Doing::LoadWords => load(
            word_at(address_of(row, regs)),
            4 * (16 - row.b),
            row.b,
            false,
            iar + 4,
        ),
        Doing::StoreByte => store(address_of(row, regs), 1, row.b, iar + 4),
        Doing::StoreByteShort => store(address_of(row, regs), 1, row.b, iar + 2),
        Doing::StoreHalf => store(half_at(address_of(row, regs)), 2, row.b, iar + 4),
        Doing::StoreHalfShort => store(half_at(address_of(row, regs)), 2, row.b, iar + 2),
        Doing::StoreWord => store(word_at(address_of(row, regs)), 4, row.b, iar + 4),
        Doing::StoreWordShort => store(word_at(address_of(row, regs)), 4, row.b, iar + 2),
        Doing::StoreWords => store(
            word_at(address_of(row, regs)),
            4 * (16 - row.b),
            row.b,
            iar + 4,
        ),
        Doing::TrapIfMasked => trap(masks(row.b, bias(y_of(row, regs)), row.i), iar + 4),
        Doing::TrapIfBelow => trap(x_of(row, regs) < y_of(row, regs), iar + 2),
        Doing::TrapUnlessBelow => trap(y_of(row, regs) <= x_of(row, regs), iar + 2),
    }
}

/// The value of register B.
fn x_of(row: &Ready, regs: &[u32; 16]) -> u32
    ensures { result ≡ slice_index regs.now row.now.b }
{
    regs[usize::from(row.b)]
}

/// The value of register C.
fn y_of(row: &Ready, regs: &[u32; 16]) -> u32
    ensures { result ≡ slice_index regs.now row.now.c }
{
    regs[usize::from(row.c)]
}

/// The address of what a row loads or stores: its operand behind register C as a base.
fn address_of(row: &Ready, regs: &[u32; 16]) -> u32
    ensures { result ≡ sum_of (base regs.now row.now.c) row.now.i 0 }
{
    add(base_of(regs, row.c), row.i, 0)
}

/// The address after a row at an address.
fn after(row: &Ready, iar: u32) -> u32
    requires { iar < 16384 }
    ensures { result ≡ iar + row.now.bytes }
{
    iar + u32::from(row.bytes)
}

/// An address with its lowest bit taken as zero.
fn even(address: u32) -> u32
    ensures { result ≡ even address }
{
    address - address % 2
}

/// Control goes there where a jump is taken, or else after it.
fn to_if(taken: bool, to: u32, after: u32) -> Rest
    ensures { result ≡ On (if taken then to else after) }
{
    Rest::On(if taken { to } else { after })
}

/// Control goes to an address, and a register gets the one after the row.
fn link(to: u32, register: u8, after: u32) -> Rest
    requires { register < 16 }
    ensures rest { result ≡ Link to register after }
    ensures sound { IsSoundPending (pending_of result) }
{
    Rest::Link {
        to,
        register,
        after,
    }
}

/// Register B gets a value.
fn takes(row: &Ready, value: u32, regs: &mut [u32; 16], next: u32) -> Rest
    ensures registers { regs.new ≡ slice_set regs.old row.now.b value }
    ensures rest { result ≡ On next }
{
    put(row.b, value, regs);
    Rest::On(next)
}

/// Register B gets a value, and the status tells its sign.
fn signs(row: &Ready, value: u32, regs: &mut [u32; 16], cs: &mut Cs, next: u32) -> Rest
    ensures registers { regs.new ≡ slice_set regs.old row.now.b value }
    ensures status { cs.new ≡ signed_status value cs.old }
    ensures rest { result ≡ On next }
{
    signed(row.b, value, regs, cs);
    Rest::On(next)
}

/// Register B gets a sum with a carry, and the status tells of it.
fn sums(
    row: &Ready,
    x: u32,
    y: u32,
    carry: u32,
    regs: &mut [u32; 16],
    cs: &mut Cs,
    next: u32,
) -> Rest
    requires { carry ≤ 1 }
    ensures registers { regs.new ≡ slice_set regs.old row.now.b (sum_of x y carry) }
    ensures status { cs.new ≡ sum_status x y carry cs.old }
    ensures rest { result ≡ On next }
{
    sum(row.b, x, y, carry, regs, cs);
    Rest::On(next)
}

/// The status tells how one number stands to another.
fn compares(x: u32, y: u32, cs: &mut Cs, next: u32) -> Rest
    ensures status { cs.new ≡ compared_status x y cs.old }
    ensures rest { result ≡ On next }
{
    compare_with(x, y, cs);
    Rest::On(next)
}

/// So many bytes are loaded.
fn load(address: u32, bytes: u8, to: u8, sign: bool, next: u32) -> Rest
    requires { FitsFrom bytes to }
    ensures rest { result ≡ Load address bytes to sign next }
    ensures sound { IsSoundPending (pending_of result) }
{
    Rest::Load {
        address,
        bytes,
        to,
        sign,
        next,
    }
}

/// So many bytes are stored.
fn store(address: u32, bytes: u8, from: u8, next: u32) -> Rest
    requires { FitsFrom bytes from }
    ensures rest { result ≡ Store address bytes from next }
    ensures sound { IsSoundPending (pending_of result) }
{
    Rest::Store {
        address,
        bytes,
        from,
        next,
    }
}

/// A trap that is taken or not.
fn trap(taken: bool, next: u32) -> Rest
    ensures { result ≡ (if taken then Trap next else On next) }
{
    if taken {
        Rest::Trap(next)
    } else {
        Rest::On(next)
    }
}
