ghost use Rattle.std.specs.Prelude.{◌≡◌};
ghost use Rattle.asm_parse.specs.Form.{form_of};
ghost use Rattle.romp_asm.specs.Size.{form_size, size_of};

use asm_parse::{Body, Form, form_of};

/// How many bytes a statement makes: by its mnemonic and the number of `.space` alone.
pub(crate) fn size_of(body: &Body) -> u32
    ensures { result ≡ size_of body.now }
{
    match body {
        Body::Inst(op, _) => form_size(form_of(*op)),
        Body::Data(count, _) => u32::from(*count),
        Body::Space(count) => *count,
        Body::Nothing | Body::Window(..) | Body::Entry(_) | Body::Export(_) => 0,
    }
}

/// The bytes of an instruction of this form.
fn form_size(form: Form) -> u32
    ensures { result ≡ form_size form }
{
    match form {
        Form::Jump
        | Form::BranchRegister
        | Form::Short(_)
        | Form::ThreeRegisters
        | Form::Count
        | Form::TwoRegisters => 2,
        Form::Branch
        | Form::Link
        | Form::LinkAddress
        | Form::Long
        | Form::Signed
        | Form::Unsigned
        | Form::Compare
        | Form::Trap
        | Form::Call => 4,
    }
}
