ghost use Rattle.std.specs.Prelude.{◌≡◌, ◌≤◌, [], ◌∷◌, length, true, IfOk, IfSome};
ghost use Rattle.romp_asm.specs.Below.{field_bits, inst_bytes, encoded, form_of, IsLegal, option_map};
ghost use Rattle.romp_asm.specs.Size.{form_size, size_of};
ghost use Rattle.romp_asm.specs.Value.{is_between};
ghost use Rattle.romp_asm.specs.Labels.{addresses_in};
ghost use Rattle.romp_asm.specs.Encoding.{code_bytes, data_bytes, encoding_of};
ghost use Rattle.romp_asm.specs.Piece.{IsReading, piece_bytes, IsPieceOf};
ghost use Rattle.asm_parse.specs.declared.statement.Body.TheVariants as body_is;

use super::field::{OUT_OF_REACH, even_at_most, is_between};
use super::instruction::inst_of;
use super::value::{Scope, knowns_of, value_of};
use arrayvec::ArrayVec;
use asm_parse::{Body, Expr, Operand};
use romp_table::{Inst, Op, encode};

/// The bytes of a statement, before they are laid.
#[derive(Drop)]
pub(crate) enum Piece {
    Bytes(ArrayVec<u8, 4>),
    Zeros(u32),
}

/// The bytes of a statement at an address.
pub(crate) fn piece_of<'a>(scope: &Scope<'_, '_, 'a>, at: u32, body: &'a Body) -> Result<Piece, u8>
    ensures { IsPieceOf scope.now at body.now (size_of body.now) result }
{
    match body {
        Body::Nothing | Body::Window(..) | Body::Export(_) => Ok(Piece::Zeros(0)),
        Body::Space(count) => Ok(Piece::Zeros(*count)),
        Body::Inst(op, operands) => inst_piece(scope, at, *op, operands),
        Body::Data(count, value) => data_piece(scope, *count, value),
        Body::Entry(value) => entry_piece(scope, value),
    }
}

/// The bytes of an instruction.
fn inst_piece<'a>(
    scope: &Scope<'_, '_, 'a>,
    at: u32,
    op: Op,
    operands: &'a ArrayVec<Operand, 4>,
) -> Result<Piece, u8>
    ensures { IsPieceOf scope.now at (body_is.Inst op operands.now) (form_size (form_of op)) result }
{
    match knowns_of(scope, operands.as_slice()) {
        Ok(knowns) => match inst_of(op, at, knowns.as_slice()) {
            Some(inst) => Ok(code_piece(&inst)),
            None => Err(OUT_OF_REACH),
        },
        Err(kind) => Err(kind),
    }
}

/// The bytes of an instruction that the table has.
fn code_piece(inst: &Inst) -> Piece
    requires { IsLegal inst.now }
    ensures value { piece_bytes result ≡ code_bytes (encoded inst.now) }
    ensures size { length (piece_bytes result) ≡ inst_bytes inst.now }
{
    let code = encode(inst);
    bytes_piece(&code.bytes[..usize::from(code.len)])
}

/// The bytes of a value.
fn data_piece<'a>(scope: &Scope<'_, '_, 'a>, count: u8, value: &'a Expr) -> Result<Piece, u8>
    ensures { IsPieceOf scope.now 0 (body_is.Data count value.now) count result }
{
    match value_of(scope, value) {
        Ok(number) => match data_bytes(count, number) {
            Some(piece) => Ok(piece),
            None => Err(OUT_OF_REACH),
        },
        Err(kind) => Err(kind),
    }
}

/// A value as so many bytes.
fn data_bytes(count: u8, value: i64) -> Option<Piece>
    ensures value { option_map piece_bytes result ≡ data_bytes count value }
    ensures size { IfSome result (λ piece. length (piece_bytes piece) ≡ count) }
{
    match count {
        4 if is_between(0x8000_0000, 0xFFFF_FFFF, value) => {
            Some(bytes_piece(&word_of(value).to_be_bytes()))
        }
        2 if is_between(0x8000, 0xFFFF, value) => {
            Some(bytes_piece(&half_of(value).to_be_bytes()))
        }
        1 if is_between(0x80, 0xFF, value) => Some(bytes_piece(&[byte_of(value)])),
        _ => None,
    }
}

/// The 32 bits of a value.
fn word_of(value: i64) -> u32
    requires { is_between 2147483648 4294967295 value ≡ true }
    ensures { result ≡ field_bits 32 value }
{
    if value < 0 {
        (value + 0x1_0000_0000) as u32
    } else {
        value as u32
    }
}

/// The sixteen bits of a value.
fn half_of(value: i64) -> u16
    requires { is_between 32768 65535 value ≡ true }
    ensures { result ≡ field_bits 16 value }
{
    if value < 0 {
        (value + 0x1_0000) as u16
    } else {
        value as u16
    }
}

/// The eight bits of a value.
fn byte_of(value: i64) -> u8
    requires { is_between 128 255 value ≡ true }
    ensures { result ≡ field_bits 8 value }
{
    if value < 0 {
        (value + 0x100) as u8
    } else {
        value as u8
    }
}

/// No bytes, if a value may be the entry address.
fn entry_piece<'a>(scope: &Scope<'_, '_, 'a>, value: &'a Expr) -> Result<Piece, u8>
    ensures { IsPieceOf scope.now 0 (body_is.Entry value.now) 0 result }
{
    match value_of(scope, value) {
        Ok(number) => match even_at_most(16_382, number) {
            Some(_) => Ok(Piece::Zeros(0)),
            None => Err(OUT_OF_REACH),
        },
        Err(kind) => Err(kind),
    }
}

/// These bytes.
fn bytes_piece(bytes: &[u8]) -> Piece
    requires { length bytes.now ≤ 4 }
    ensures { piece_bytes result ≡ bytes.now }
{
    let mut laid = ArrayVec::new();
    let _ = laid.try_extend_from_slice(bytes);
    Piece::Bytes(laid)
}
