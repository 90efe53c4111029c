ghost use Rattle.std.specs.Prelude.{◌≡◌, ◌<◌, ◌≤◌, length, map, position, Some, IfSome};
ghost use Rattle.std.specs.List.{before_first};
ghost use Rattle.std.specs.Option.{option_map};
ghost use Rattle.std.specs.Str.{bytes_eq};
ghost use Rattle.asm_parse.specs.Cut.{behind_first};
ghost use Rattle.asm_parse.specs.Operand.{base_register, condition_names, expression_of, is_comma, named_among, operand_of, operands_of, place_among, displacement_of, register_names};

use super::form::Sort;
use super::statement::{Expr, Operand};
use super::token::Token;
use arrayvec::ArrayVec;

/// The registers, in the order of their numbers.
const REGISTERS: [&str; 16] = [
    "r0", "r1", "r2", "r3", "r4", "r5", "r6", "r7", "r8", "r9", "r10", "r11", "r12", "r13", "r14",
    "r15",
];

/// The conditions, in the order of their numbers.
const CONDITIONS: [&str; 6] = ["pz", "lt", "eq", "gt", "c0", "ov"];

/// One operand of each of the sorts, with commas between them, if the tokens are so.
pub(crate) fn operands_of(sorts: &[Sort], tokens: &[Token]) -> Option<ArrayVec<Operand, 4>>
    requires { length sorts.now ≤ 4 }
    ensures { option_map (λ operands. operands.items) result ≡ operands_of sorts.now (Some tokens.now) }
{
    let mut operands = ArrayVec::new();
    let mut left = Some(tokens);
    for sort in sorts {
        let Some(tokens) = left else {
            return None;
        };
        let (part, behind) = first_part(tokens);
        operands.push(operand_of(*sort, part)?);
        left = behind;
    }
    match left {
        None => Some(operands),
        Some(_) => None,
    }
}

/// What comes before the first comma, and what comes after it, if there is one.
fn first_part(tokens: &[Token]) -> (&[Token], Option<&[Token]>)
    ensures first { result.0.now ≡ before_first is_comma tokens.now }
    ensures behind { option_map (λ part. part.now) result.1 ≡ behind_first is_comma tokens.now }
{
    match comma_in(tokens) {
        Some(at) => (&tokens[..at], Some(&tokens[at + 1..])),
        None => (tokens, None),
    }
}

/// The place of the first comma.
fn comma_in(tokens: &[Token]) -> Option<usize>
    ensures value { result ≡ position is_comma tokens.now }
    ensures inside { IfSome result (λ at. at < length tokens.now) }
{
    tokens.iter().position(|token| is_comma(token))
}

/// Whether a token is a comma.
fn is_comma(token: &Token) -> bool
    ensures { result ≡ is_comma token.now }
{
    matches!(token, Token::Comma)
}

/// The operand of a sort that tokens are.
fn operand_of(sort: Sort, tokens: &[Token]) -> Option<Operand>
    ensures { result ≡ operand_of sort tokens.now }
{
    match sort {
        Sort::Register => Some(Operand::Register(register_of(tokens)?)),
        Sort::Condition => Some(Operand::Condition(condition_of(tokens)?)),
        Sort::Value => Some(Operand::Value(expression_of(tokens)?)),
        Sort::Place => place_of(tokens),
    }
}

/// The register that tokens name.
fn register_of(tokens: &[Token]) -> Option<u8>
    ensures { result ≡ named_among register_names tokens.now }
{
    match tokens {
        [Token::Word(word)] => register_named(word.as_bytes()),
        _ => None,
    }
}

/// The condition that tokens name.
fn condition_of(tokens: &[Token]) -> Option<u8>
    ensures { result ≡ named_among condition_names tokens.now }
{
    match tokens {
        [Token::Word(word)] => condition_named(word.as_bytes()),
        _ => None,
    }
}

/// The register of this name.
fn register_named(word: &[u8]) -> Option<u8>
    ensures { result ≡ place_among register_names word.now }
{
    place_among(&REGISTERS, word)
}

/// The condition of this name.
fn condition_named(word: &[u8]) -> Option<u8>
    ensures { result ≡ place_among condition_names word.now }
{
    place_among(&CONDITIONS, word)
}

/// The place of a word among names.
fn place_among(names: &[&'static str], word: &[u8]) -> Option<u8>
    requires { length names.now ≤ 16 }
    ensures { result ≡ place_among (map (λ name. name.now) names.entry.now) word.now }
{
    match first_named(names, word) {
        Some(place) => Some(place as u8),
        None => None,
    }
}

/// The place of the first name that a word is.
fn first_named(names: &[&'static str], word: &[u8]) -> Option<usize>
    ensures value { result ≡ position (λ name. bytes_eq name.now word.now) names.entry.now }
    ensures inside { IfSome result (λ place. place < length names.entry.now) }
{
    names.iter().position(|name| name.as_bytes() == word)
}

/// The value that tokens are.
pub(crate) fn expression_of(tokens: &[Token]) -> Option<Expr>
    ensures { result ≡ expression_of tokens.now }
{
    match tokens {
        [Token::Number(number)] => Some(Expr::Number(i64::from(*number))),
        [Token::Minus, Token::Number(number)] => Some(Expr::Number(-i64::from(*number))),
        [Token::Word(word)] => Some(Expr::Label(word.copied(), 0)),
        [Token::Word(word), Token::Plus, Token::Number(number)] => {
            Some(Expr::Label(word.copied(), i64::from(*number)))
        }
        [Token::Word(word), Token::Minus, Token::Number(number)] => {
            Some(Expr::Label(word.copied(), -i64::from(*number)))
        }
        _ => None,
    }
}

/// The place that tokens are: a displacement, and a register in the last three.
fn place_of(tokens: &[Token]) -> Option<Operand>
    ensures { result ≡ displacement_of tokens.now }
{
    let (displacement, base) = tokens.split_at(tokens.len().saturating_sub(3));
    let displacement = expression_of(displacement)?;
    Some(Operand::Place(displacement, base_of(base)?))
}

/// The register between `(` and `)`.
fn base_of(tokens: &[Token]) -> Option<u8>
    ensures { result ≡ base_register tokens.now }
{
    match tokens {
        [Token::Open, Token::Word(word), Token::Close] => register_named(word.as_bytes()),
        _ => None,
    }
}
