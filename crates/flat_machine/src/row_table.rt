//! What each row does to registers and status, and what it wants beside them, format by format.
ghost use Rattle.flat_machine.specs.Below.{Inst};
ghost use Rattle.std.specs.Prelude.{◌≡◌, ◌<◌, ◌≤◌, ◌+◌, ◌*◌, slice_index, slice_set};
ghost use Rattle.flat_machine.specs.Plans.{Want};
ghost use Rattle.flat_machine.specs.declared.machine.Act.TheVariants.{Load, Store};
ghost use Rattle.flat_machine.specs.declared.machine.Cs.{Cs};
ghost use Rattle.flat_machine.specs.Access.{FitsFrom, IsAccess};
ghost use Rattle.flat_machine.specs.Effect.{worked};
ghost use Rattle.flat_machine.specs.Pending.{StaysIfWanting, Works, WorksBy};
ghost use Rattle.flat_machine.specs.Words.{bit, sum_of, signed_status, compared_status, sum_status};
ghost use Rattle.flat_machine.specs.Work.{base, half_address, word_address, traps, is_masked, called, work_with_count, work_of_r, work_of_d, work_of_s, work_of_x};

use super::machine::{Act, Cs};
use super::words::{
    add, bias, bit_at, extend, invert, magnitude, shift_left, shift_right, shift_signed, subtract,
};
use romp_table::Op;

/// What a row of format S wants.
#[inline(always)]
pub fn act_s(op: Op, k: u8, b: u8, z: u32) -> Act
    requires k { k < 16 }
    requires b { b < 16 }
    ensures value { work_of_s op k b z ≡ Want result }
    ensures access { IsAccess result }
{
    let k = u32::from(k);
    match op {
        Op::Stcs => store(add(z, k, 0), 1, b),
        Op::Sths => store(half_at(add(z, k * 2, 0)), 2, b),
        Op::Sts => store(word_at(add(z, k * 4, 0)), 4, b),
        Op::Lcs => load(add(z, k, 0), 1, b, false),
        Op::Lhas => load(half_at(add(z, k * 2, 0)), 2, b, true),
        Op::Ls => load(word_at(add(z, k * 4, 0)), 4, b, false),
        _ => Act::Check(1),
    }
}

/// So many bytes are loaded.
pub fn load(address: u32, bytes: u8, to: u8, sign: bool) -> Act
    requires { FitsFrom bytes to }
    ensures value { result ≡ Load address bytes to sign }
    ensures access { IsAccess result }
{
    Act::Load {
        address,
        bytes,
        to,
        sign,
    }
}

/// So many bytes are stored.
pub fn store(address: u32, bytes: u8, from: u8) -> Act
    requires { FitsFrom bytes from }
    ensures value { result ≡ Store address bytes from }
    ensures access { IsAccess result }
{
    Act::Store {
        address,
        bytes,
        from,
    }
}

/// Format X.
pub fn do_x(op: Op, a: u8, b: u8, c: u8, regs: &mut [u32; 16]) -> Act
    requires { (a < 16) × (b < 16) × (c < 16) }
    ensures { (status : Cs) → Works (Inst.X op a b c) regs.old regs.new status status result }
{
    let z = base_of(regs, c);
    match op {
        Op::Cas => put(a, add(regs[usize::from(b)], z, 0), regs),
        _ => return Act::Check(1),
    }
    Act::Nothing
}

/// Format R.
#[inline(always)]
pub fn do_r(op: Op, b: u8, c: u8, regs: &mut [u32; 16], cs: &mut Cs) -> Act
    requires { (b < 16) × (c < 16) }
    ensures { Works (Inst.R op b c) regs.old regs.new cs.old cs.new result }
{
    let x = regs[usize::from(b)];
    let y = regs[usize::from(c)];
    match op {
        Op::Sar => signed(b, shift_signed(x, y % 64), regs, cs),
        Op::Sr => signed(b, shift_right(x, y % 64), regs, cs),
        Op::Sl => signed(b, shift_left(x, y % 64), regs, cs),
        Op::Exts => signed(b, extend((y % 0x1_0000) as u16), regs, cs),
        Op::Sf => sum(b, y, invert(x), 1, regs, cs),
        Op::S => sum(b, x, invert(y), 1, regs, cs),
        Op::A => sum(b, x, y, 0, regs, cs),
        Op::Ae => sum(b, x, y, carry_of(cs), regs, cs),
        Op::Se => sum(b, x, invert(y), carry_of(cs), regs, cs),
        Op::Cl => compare_with(x, y, cs),
        Op::C => compare_with(bias(x), bias(y), cs),
        Op::Tgte => return trap(y <= x),
        Op::Tlt => return trap(x < y),
        Op::Abs => signed(b, magnitude(y), regs, cs),
        Op::Twoc => sum(b, 0, invert(y), 1, regs, cs),
        Op::Onec => signed(b, invert(y), regs, cs),
        Op::O => signed(b, x | y, regs, cs),
        Op::N => signed(b, x & y, regs, cs),
        Op::X => signed(b, x ^ y, regs, cs),
        Op::Lhs => return load(half_at(y), 2, b, false),
        _ => return do_count(op, b, c, regs, cs),
    }
    Act::Nothing
}

/// Format R with a number in field C.
#[inline(always)]
fn do_count(op: Op, b: u8, k: u8, regs: &mut [u32; 16], cs: &mut Cs) -> Act
    requires { (b < 16) × (k < 16) }
    ensures { WorksBy (work_with_count op b k (slice_index regs.old b)) regs.old regs.new cs.old cs.new result }
{
    let x = regs[usize::from(b)];
    let count = u32::from(k);
    match op {
        Op::Ais => sum(b, x, count, 0, regs, cs),
        Op::Sis => sum(b, x, invert(count), 1, regs, cs),
        Op::Inc => put(b, add(x, count, 0), regs),
        Op::Dec => put(b, subtract(x, count), regs),
        Op::Lis => put(b, count, regs),
        Op::Cis => compare_with(bias(x), bias(count), cs),
        Op::Clrbu => signed(b, x & invert(bit_at(k)), regs, cs),
        Op::Clrbl => signed(b, x & invert(bit_at(16 + k)), regs, cs),
        Op::Setbu => signed(b, x | bit_at(k), regs, cs),
        Op::Setbl => signed(b, x | bit_at(16 + k), regs, cs),
        Op::Sari => signed(b, shift_signed(x, count), regs, cs),
        Op::Sari16 => signed(b, shift_signed(x, count + 16), regs, cs),
        Op::Sri => signed(b, shift_right(x, count), regs, cs),
        Op::Sri16 => signed(b, shift_right(x, count + 16), regs, cs),
        Op::Sli => signed(b, shift_left(x, count), regs, cs),
        Op::Sli16 => signed(b, shift_left(x, count + 16), regs, cs),
        _ => return Act::Check(1),
    }
    Act::Nothing
}

/// Format D.
#[inline(always)]
pub fn do_d(op: Op, b: u8, c: u8, i: u16, regs: &mut [u32; 16], cs: &mut Cs) -> Act
    requires { (b < 16) × (c < 16) }
    ensures { Works (Inst.D op b c i) regs.old regs.new cs.old cs.new result }
{
    let y = regs[usize::from(c)];
    let z = base_of(regs, c);
    let low = u32::from(i);
    let high = low * 0x1_0000;
    let address = add(z, extend(i), 0);
    match op {
        Op::Svc => return call(i, regs),
        Op::Ai => sum(b, y, extend(i), 0, regs, cs),
        Op::Aei => sum(b, y, extend(i), carry_of(cs), regs, cs),
        Op::Sfi => sum(b, extend(i), invert(y), 1, regs, cs),
        Op::Cli => compare_with(y, extend(i), cs),
        Op::Ci => compare_with(bias(y), bias(extend(i)), cs),
        Op::Ti => return trap(masks(b, bias(y), bias(extend(i)))),
        Op::Cal => put(b, address, regs),
        Op::Cau => put(b, add(z, high, 0), regs),
        Op::Oiu => signed(b, y | high, regs, cs),
        Op::Oil => signed(b, y | low, regs, cs),
        Op::Xiu => signed(b, y ^ high, regs, cs),
        Op::Xil => signed(b, y ^ low, regs, cs),
        Op::Nilz => signed(b, y & low, regs, cs),
        Op::Nilo => signed(b, y & (0xFFFF_0000 + low), regs, cs),
        Op::Niuz => signed(b, y & high, regs, cs),
        Op::Niuo => signed(b, y & (high + 0xFFFF), regs, cs),
        Op::Lm => return load(word_at(address), 4 * (16 - b), b, false),
        Op::Stm => return store(word_at(address), 4 * (16 - b), b),
        Op::Lc => return load(address, 1, b, false),
        Op::Lh => return load(half_at(address), 2, b, false),
        Op::Lha => return load(half_at(address), 2, b, true),
        Op::L => return load(word_at(address), 4, b, false),
        Op::Stc => return store(address, 1, b),
        Op::Sth => return store(half_at(address), 2, b),
        Op::St => return store(word_at(address), 4, b),
        _ => return Act::Check(1),
    }
    Act::Nothing
}

/// A register gets a value, and the status stays.
pub fn put(to: u8, value: u32, regs: &mut [u32; 16])
    requires { to < 16 }
    ensures { regs.new ≡ slice_set regs.old to value }
{
    regs[usize::from(to)] = value;
}

/// A register gets a value, and less, equal and greater tell its sign.
pub fn signed(to: u8, value: u32, regs: &mut [u32; 16], cs: &mut Cs)
    requires { to < 16 }
    ensures registers { regs.new ≡ slice_set regs.old to value }
    ensures status { cs.new ≡ signed_status value cs.old }
{
    regs[usize::from(to)] = value;
    cs.tell(value);
}

/// A register gets the sum of two words and a carry, and the whole status tells of the sum.
pub fn sum(to: u8, x: u32, y: u32, carry: u32, regs: &mut [u32; 16], cs: &mut Cs)
    requires to { to < 16 }
    requires carry { carry ≤ 1 }
    ensures registers { regs.new ≡ slice_set regs.old to (sum_of x y carry) }
    ensures status { cs.new ≡ sum_status x y carry cs.old }
{
    regs[usize::from(to)] = cs.sum(x, y, carry);
}

/// Less, equal and greater tell how one number stands to another.
pub fn compare_with(x: u32, y: u32, cs: &mut Cs)
    ensures { cs.new ≡ compared_status x y cs.old }
{
    cs.compare(x, y);
}

/// The address of a halfword.
pub fn half_at(address: u32) -> u32
    ensures { result ≡ half_address address }
{
    address - address % 2
}

/// The address of a word.
pub fn word_at(address: u32) -> u32
    ensures { result ≡ word_address address }
{
    address - address % 4
}

/// A trap: check 3 where it is taken.
pub fn trap(taken: bool) -> Act
    ensures value { traps taken ≡ Want result }
    ensures access { IsAccess result }
{
    if taken { Act::Check(3) } else { Act::Nothing }
}

/// Whether one number stands to another in a way that a mask has.
pub fn masks(mask: u8, x: u32, y: u32) -> bool
    ensures { result ≡ is_masked mask x y }
{
    (mask / 4 % 2 == 1 && x < y) || (mask / 2 % 2 == 1 && x == y) || (mask % 2 == 1 && y < x)
}

/// The carry as a number.
pub fn carry_of(cs: &Cs) -> u32
    ensures value { result ≡ bit cs.now.c0 }
    ensures small { result ≤ 1 }
{
    u32::from(cs.c0())
}

/// The supervisor call with this number.
fn call(number: u16, regs: &[u32; 16]) -> Act
    ensures value { result ≡ called regs.now number }
    ensures access { IsAccess result }
{
    match number {
        0 => Act::Commit,
        1 => Act::Print((regs[2] % 0x100) as u8),
        2 => Act::Check(8),
        _ => Act::Check(6),
    }
}

/// The value of a base register, where field 0 means zero.
pub fn base_of(regs: &[u32; 16], c: u8) -> u32
    requires { c < 16 }
    ensures { result ≡ base regs.now c }
{
    if c == 0 { 0 } else { regs[usize::from(c)] }
}
