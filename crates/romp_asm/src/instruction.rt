ghost use Rattle.std.specs.Prelude.{◌≡◌, pos, ◌+ℤ◌, ◌≤ℤ◌};
ghost use Rattle.romp_asm.specs.Below.{form_of, IsSigned};
ghost use Rattle.romp_asm.specs.Size.{IsInstOf};
ghost use Rattle.romp_asm.specs.Instruction.{alone, at_place, conditional, immediate, inst_by, three_registers, to_register, trapping, two_registers, with_register};

use super::field::{at_most, even_at_most, number_field, relative, short_field, signed_field};
use super::value::Known;
use asm_parse::{Form, form_of};
use romp_table::{Inst, Op};

/// The instruction of an operation at an address, if its operands are in their ranges.
///
/// The ranges are in docs/FORMATS.md, "Assembler".
pub(crate) fn inst_of(op: Op, at: u32, knowns: &[Known]) -> Option<Inst>
    ensures { IsInstOf (form_of op) (inst_by op (form_of op) at knowns.now) result }
{
    let form = form_of(op);
    match knowns {
        [Known::Condition(condition), Known::Value(target)] => {
            conditional(op, form, at, *condition, *target)
        }
        [Known::Condition(condition), Known::Register(register)] => {
            to_register(op, form, *condition, *register)
        }
        [Known::Register(register), Known::Value(value)] => {
            with_register(op, form, at, *register, *value)
        }
        [Known::Value(value)] => alone(op, form, *value),
        [Known::Register(register), Known::Place(displacement, base)] => {
            at_place(op, form, *register, *displacement, *base)
        }
        [Known::Register(first), Known::Register(second)] => {
            two_registers(op, form, *first, *second)
        }
        [
            Known::Register(first),
            Known::Register(second),
            Known::Register(third),
        ] => three_registers(op, form, *first, *second, *third),
        [
            Known::Register(first),
            Known::Register(second),
            Known::Value(value),
        ] => immediate(op, form, *first, *second, *value),
        [
            Known::Value(mask),
            Known::Register(register),
            Known::Value(value),
        ] => trapping(op, form, *mask, *register, *value),
        _ => None,
    }
}

/// `cond, target`.
fn conditional(op: Op, form: Form, at: u32, condition: u8, target: i64) -> Option<Inst>
    requires { form ≡ form_of op }
    ensures { IsInstOf form (conditional op form at condition target) result }
{
    match form {
        Form::Jump => {
            let cond = number_field(5, condition)?;
            let disp = relative(256, 254, at, target)?;
            Some(Inst::J {
                op,
                cond,
                disp: eight_bits(disp),
            })
        }
        Form::Branch => {
            let b = number_field(5, condition)?;
            let disp = relative(1_048_576, 1_048_574, at, target)?;
            Some(Inst::BI {
                op,
                b,
                disp: twenty_bits(disp),
            })
        }
        _ => None,
    }
}

/// `cond, rC`.
fn to_register(op: Op, form: Form, condition: u8, register: u8) -> Option<Inst>
    requires { form ≡ form_of op }
    ensures { IsInstOf form (to_register op form condition register) result }
{
    match form {
        Form::BranchRegister => {
            let b = number_field(5, condition)?;
            let c = number_field(15, register)?;
            Some(Inst::R { op, b, c })
        }
        _ => None,
    }
}

/// `rB, target`, `rB, k` or `rC, n`.
fn with_register(op: Op, form: Form, at: u32, register: u8, value: i64) -> Option<Inst>
    requires { form ≡ form_of op }
    ensures { IsInstOf form (with_register op form at register value) result }
{
    match form {
        Form::Link => {
            let b = number_field(15, register)?;
            let disp = relative(1_048_576, 1_048_574, at, value)?;
            Some(Inst::BI {
                op,
                b,
                disp: twenty_bits(disp),
            })
        }
        Form::Count => {
            let b = number_field(15, register)?;
            let k = at_most(15, value)?;
            Some(Inst::R { op, b, c: k as u8 })
        }
        Form::Compare => {
            let c = number_field(15, register)?;
            let i = signed_field(value)?;
            Some(Inst::D { op, b: 0, c, i })
        }
        _ => None,
    }
}

/// `target` or `n`.
fn alone(op: Op, form: Form, value: i64) -> Option<Inst>
    requires { form ≡ form_of op }
    ensures { IsInstOf form (alone op form value) result }
{
    match form {
        Form::LinkAddress => {
            let to = even_at_most(16_777_214, value)?;
            Some(Inst::BA { op, to })
        }
        Form::Call => {
            let i = at_most(65_535, value)?;
            Some(Inst::D {
                op,
                b: 0,
                c: 0,
                i: i as u16,
            })
        }
        _ => None,
    }
}

/// `rB, disp(rC)`.
fn at_place(op: Op, form: Form, register: u8, displacement: i64, base: u8) -> Option<Inst>
    requires { form ≡ form_of op }
    ensures { IsInstOf form (at_place op form register displacement base) result }
{
    match form {
        Form::Short(scale) => {
            let b = number_field(15, register)?;
            let k = short_field(scale, displacement)?;
            let c = number_field(15, base)?;
            Some(Inst::S { op, k, b, c })
        }
        Form::Long => {
            let b = number_field(15, register)?;
            let i = signed_field(displacement)?;
            let c = number_field(15, base)?;
            Some(Inst::D { op, b, c, i })
        }
        _ => None,
    }
}

/// `rB, rC`.
fn two_registers(op: Op, form: Form, first: u8, second: u8) -> Option<Inst>
    requires { form ≡ form_of op }
    ensures { IsInstOf form (two_registers op form first second) result }
{
    match form {
        Form::TwoRegisters => {
            let b = number_field(15, first)?;
            let c = number_field(15, second)?;
            Some(Inst::R { op, b, c })
        }
        _ => None,
    }
}

/// `rA, rB, rC`.
fn three_registers(op: Op, form: Form, first: u8, second: u8, third: u8) -> Option<Inst>
    requires { form ≡ form_of op }
    ensures { IsInstOf form (three_registers op form first second third) result }
{
    match form {
        Form::ThreeRegisters => {
            let a = number_field(15, first)?;
            let b = number_field(15, second)?;
            let c = number_field(15, third)?;
            Some(Inst::X { op, a, b, c })
        }
        _ => None,
    }
}

/// `rB, rC, n`.
fn immediate(op: Op, form: Form, first: u8, second: u8, value: i64) -> Option<Inst>
    requires { form ≡ form_of op }
    ensures { IsInstOf form (immediate op form first second value) result }
{
    match form {
        Form::Signed => {
            let b = number_field(15, first)?;
            let c = number_field(15, second)?;
            let i = signed_field(value)?;
            Some(Inst::D { op, b, c, i })
        }
        Form::Unsigned => {
            let b = number_field(15, first)?;
            let c = number_field(15, second)?;
            let i = at_most(65_535, value)?;
            Some(Inst::D {
                op,
                b,
                c,
                i: i as u16,
            })
        }
        _ => None,
    }
}

/// `mask, rC, n`.
fn trapping(op: Op, form: Form, mask: i64, register: u8, value: i64) -> Option<Inst>
    requires { form ≡ form_of op }
    ensures { IsInstOf form (trapping op form mask register value) result }
{
    match form {
        Form::Trap => {
            let b = at_most(7, mask)?;
            let c = number_field(15, register)?;
            let i = signed_field(value)?;
            Some(Inst::D {
                op,
                b: b as u8,
                c,
                i,
            })
        }
        _ => None,
    }
}

/// A number that eight bits hold with its sign.
fn eight_bits(half: i64) -> i8
    requires low { pos 0 ≤ℤ (half +ℤ half +ℤ pos 256) }
    requires high { (half +ℤ half) ≤ℤ pos 254 }
    ensures same { result ≡ half }
    ensures signed { IsSigned 8 result }
{
    half as i8
}

/// A number that twenty bits hold with its sign.
fn twenty_bits(half: i64) -> i32
    requires low { pos 0 ≤ℤ (half +ℤ half +ℤ pos 1048576) }
    requires high { (half +ℤ half) ≤ℤ pos 1048574 }
    ensures same { result ≡ half }
    ensures signed { IsSigned 20 result }
{
    half as i32
}
