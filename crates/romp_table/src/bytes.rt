ghost use Rattle.std.specs.Prelude.{◌≡◌, ℕ, ◌+◌, ◌*◌, ◌/◌, ◌<◌, ◌^◌, length, slice_get, Some};
ghost use Rattle.romp_table.specs.Decode.{decoded, number_unit};
ghost use Rattle.romp_table.specs.Rows.{row_of};
ghost use Rattle.romp_table.specs.Legal.{HasWidths, IsLegal, IsSigned, format_of, op_of};
ghost use Rattle.romp_table.specs.Encode.{BeginWith, field_bits, inst_bytes, halfword_bytes, encoded, first_with, second_of};

use super::inst::{Code, Inst, Op};
use super::table::{Row, TABLE};

/// The bytes of a legal instruction.
///
/// Halfwords that begin with these bytes are those that [`decode`](super::decode) reads as the instruction.
/// `docs/FORMATS.md`, "Instructions", has the fields.
pub fn encode(inst: &Inst) -> Code
    requires { IsLegal inst.now }
    ensures value { result ≡ encoded inst.now }
    ensures back { (first second : ℕ) → first < 2 ^ 16 → BeginWith first second result → decoded first second ≡ Some inst.now }
{
    let row = row_of(operation_of(inst));
    let first = first_halfword(row.number, inst);
    Code {
        bytes: bytes_from(first, second_halfword(inst)),
        len: count_of(inst),
    }
}

/// The row of an operation.
///
/// It takes one look-up. `docs/FORMATS.md`, "Instructions", has the rows.
pub fn row_of(op: Op) -> Row
    ensures { row_of op ≡ Some result }
{
    row_among(&TABLE, op as usize)
}

fn row_among(rows: &[Row], place: usize) -> Row
    requires { place < length rows.now }
    ensures { slice_get rows.now place ≡ Some result }
{
    rows[place]
}

fn operation_of(inst: &Inst) -> Op
    ensures { result ≡ op_of inst.now }
{
    match *inst {
        Inst::J { op, .. }
        | Inst::S { op, .. }
        | Inst::X { op, .. }
        | Inst::R { op, .. }
        | Inst::D { op, .. }
        | Inst::BI { op, .. }
        | Inst::BA { op, .. } => op,
    }
}

/// The first halfword of an instruction whose row has this number.
#[tactic(auto, using(std::proofs::Common::arith))]
fn first_halfword(number: u16, inst: &Inst) -> u16
    requires widths { HasWidths inst.now }
    requires number { number < 2 ^ 16 / number_unit (format_of inst.now) }
    ensures { result ≡ first_with number inst.now }
{
    match *inst {
        Inst::J { cond, disp, .. } => number * 0x800 + u16::from(cond) * 0x100 + byte_of(disp),
        Inst::S { k, b, c, .. } => number * 0x1000
            + u16::from(k) * 0x100
            + u16::from(b) * 0x10
            + u16::from(c),
        Inst::X { a, b, c, .. } => number * 0x1000
            + u16::from(a) * 0x100
            + u16::from(b) * 0x10
            + u16::from(c),
        Inst::R { b, c, .. } | Inst::D { b, c, .. } => number * 0x100
            + u16::from(b) * 0x10
            + u16::from(c),
        Inst::BI { b, disp, .. } => {
            number * 0x100 + u16::from(b) * 0x10 + (twenty_bits_of(disp) / 0x1_0000) as u16
        }
        Inst::BA { to, .. } => number * 0x100 + (to / 0x1_0000) as u16,
    }
}

/// The second halfword of an instruction, and 0 where it has none.
#[tactic(auto, using(std::proofs::Common::arith))]
fn second_halfword(inst: &Inst) -> u16
    requires { HasWidths inst.now }
    ensures { result ≡ second_of inst.now }
{
    match *inst {
        Inst::D { i, .. } => i,
        Inst::BI { disp, .. } => (twenty_bits_of(disp) % 0x1_0000) as u16,
        Inst::BA { to, .. } => (to % 0x1_0000) as u16,
        _ => 0,
    }
}

/// How many bytes an instruction has.
fn count_of(inst: &Inst) -> u8
    ensures { result ≡ inst_bytes inst.now }
{
    match *inst {
        Inst::J { .. } | Inst::S { .. } | Inst::X { .. } | Inst::R { .. } => 2,
        Inst::D { .. } | Inst::BI { .. } | Inst::BA { .. } => 4,
    }
}

/// The bytes of two halfwords, the higher one of each first.
fn bytes_from(first: u16, second: u16) -> [u8; 4]
    ensures { result ≡ halfword_bytes first second }
{
    [
        (first / 0x100) as u8,
        (first % 0x100) as u8,
        (second / 0x100) as u8,
        (second % 0x100) as u8,
    ]
}

/// The eight bits of a signed number.
fn byte_of(disp: i8) -> u16
    ensures value { result ≡ field_bits 8 disp }
    ensures small { result < 2 ^ 8 }
{
    if disp < 0 {
        (i16::from(disp) + 0x100) as u16
    } else {
        disp as u16
    }
}

/// The lowest twenty bits of a signed number that they hold.
fn twenty_bits_of(disp: i32) -> u32
    requires { IsSigned 20 disp }
    ensures value { result ≡ field_bits 20 disp }
    ensures small { result < 2 ^ 20 }
{
    if disp < 0 {
        (disp + 0x10_0000) as u32
    } else {
        disp as u32
    }
}
