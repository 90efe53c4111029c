ghost use Rattle.std.specs.Prelude.{◌≡◌, ◌≤◌, length};
ghost use Rattle.asm_parse.specs.Form.{form_of, sorts_of};

use romp_table::Op;

/// How the operands of an instruction are written, and which fields they are for (docs/FORMATS.md, "Assembler").
#[derive(Clone, Copy)]
pub enum Form {
    /// `cond, target`, with a displacement of eight bits.
    Jump,
    /// `cond, target`, with a displacement of twenty bits.
    Branch,
    /// `cond, rC`.
    BranchRegister,
    /// `rB, target`.
    Link,
    /// `target`, an address.
    LinkAddress,
    /// `rB, disp(rC)`, with a displacement in units of so many bytes.
    Short(u8),
    /// `rB, disp(rC)`.
    Long,
    /// `rA, rB, rC`.
    ThreeRegisters,
    /// `rB, k`.
    Count,
    /// `rB, rC`.
    TwoRegisters,
    /// `rB, rC, n`, with a sign.
    Signed,
    /// `rB, rC, n`, without sign.
    Unsigned,
    /// `rC, n`, with a sign.
    Compare,
    /// `mask, rC, n`, with a sign.
    Trap,
    /// `n`, without sign.
    Call,
}

/// What an operand is.
#[derive(Clone, Copy)]
pub enum Sort {
    Register,
    Condition,
    Value,
    Place,
}

/// The form of an instruction.
#[tactic(auto, unfolding(crate::specs::Form::form_of))]
pub fn form_of(op: Op) -> Form
    ensures { result ≡ form_of op }
{
    match op {
        Op::Jb | Op::Jnb => Form::Jump,
        Op::Bnb | Op::Bnbx | Op::Bb | Op::Bbx => Form::Branch,
        Op::Bnbr | Op::Bnbrx | Op::Bbr | Op::Bbrx => Form::BranchRegister,
        Op::Bali | Op::Balix => Form::Link,
        Op::Bala | Op::Balax => Form::LinkAddress,
        Op::Stcs | Op::Lcs => Form::Short(1),
        Op::Sths | Op::Lhas => Form::Short(2),
        Op::Sts | Op::Ls => Form::Short(4),
        Op::Lm | Op::Stm | Op::Lc | Op::Lh | Op::Lha | Op::L | Op::Stc | Op::Sth | Op::St => {
            Form::Long
        }
        Op::Cas => Form::ThreeRegisters,
        Op::Ais
        | Op::Inc
        | Op::Sis
        | Op::Dec
        | Op::Cis
        | Op::Clrbu
        | Op::Clrbl
        | Op::Setbu
        | Op::Setbl
        | Op::Sari
        | Op::Sari16
        | Op::Lis
        | Op::Sri
        | Op::Sri16
        | Op::Sli
        | Op::Sli16 => Form::Count,
        Op::Ai | Op::Aei | Op::Sfi | Op::Cal => Form::Signed,
        Op::Oiu
        | Op::Oil
        | Op::Nilz
        | Op::Nilo
        | Op::Xil
        | Op::Niuz
        | Op::Niuo
        | Op::Xiu
        | Op::Cau => Form::Unsigned,
        Op::Ci | Op::Cli => Form::Compare,
        Op::Ti => Form::Trap,
        Op::Svc => Form::Call,
        _ => Form::TwoRegisters,
    }
}

/// The operands of a form, in the order of the text.
pub(crate) fn sorts_of(form: Form) -> &'static [Sort]
    ensures value { result.now ≡ sorts_of form }
    ensures few { length result.now ≤ 4 }
{
    match form {
        Form::Jump | Form::Branch => &[Sort::Condition, Sort::Value],
        Form::BranchRegister => &[Sort::Condition, Sort::Register],
        Form::Link | Form::Count | Form::Compare => &[Sort::Register, Sort::Value],
        Form::LinkAddress | Form::Call => &[Sort::Value],
        Form::Short(_) | Form::Long => &[Sort::Register, Sort::Place],
        Form::ThreeRegisters => &[Sort::Register, Sort::Register, Sort::Register],
        Form::TwoRegisters => &[Sort::Register, Sort::Register],
        Form::Signed | Form::Unsigned => &[Sort::Register, Sort::Register, Sort::Value],
        Form::Trap => &[Sort::Value, Sort::Register, Sort::Value],
    }
}
