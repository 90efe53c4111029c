ghost use Rattle.std.specs.Prelude.{◌≡◌, ◌+◌, ◌≤◌, ◌<◌, ◌^◌, ◌==◌, ◌∷◌, not, nat_eq, codes, length, position, Some, Ok, IfOk, IfSome};
ghost use Rattle.std.specs.List.{before_first, starts_with};
ghost use Rattle.std.specs.Option.{option_map};
ghost use Rattle.asm_parse.specs.Cut.{behind_first};
ghost use Rattle.asm_parse.specs.Operand.{expression_of};
ghost use Rattle.asm_parse.specs.Statement.{window_writes, behind_label, body_of, directive_of, export_of, label_of, line_meaning, on_line, space_of, window_of};
ghost use Rattle.asm_parse.specs.Text.{Adds, is_feed, parsed};
ghost use Rattle.asm_parse.specs.Answers.{IsTextAnswer};

use super::asm_fault::{AsmFault, LineFault, MNEMONIC, OPERANDS};
use super::form::{form_of, sorts_of};
use super::operand::{expression_of, operands_of};
use super::source_word::Word;
use super::statement::{Body, Statement};
use super::token::{Token, tokens_into};
use romp_table::by_name;
use std::alloc::Global;

/// The statements of a text. What comes after its last line feed is a line too.
///
/// The rules of a line are in docs/FORMATS.md, "Assembler".
///
/// # Errors
///
/// [`AsmFault::Fault`] with the first line that has a fault of kinds 1 to 4, and its kind; [`AsmFault::Memory`] where
/// there is no memory.
pub fn parse(alloc: Global, text: &[u8]) -> Result<Vec<Statement>, AsmFault>
    requires { length text.now < 2 ^ 30 }
    ensures value { IsTextAnswer (λ statements. statements.items) result (parsed text.now) }
    ensures few { IfOk result (λ statements. length statements.items ≤ 2 ^ 30) }
{
    let mut statements = Vec::new(alloc);
    let mut tokens = Vec::new(alloc);
    let mut number: u32 = 1;
    let mut left = Some(text);
    while let Some(rest) = left {
        let (line, behind) = first_line(rest);
        match push_line(&mut tokens, &mut statements, number, line) {
            Ok(()) => {}
            Err(LineFault::Kind(kind)) => return Err(AsmFault::Fault { line: number, kind }),
            Err(LineFault::Memory) => return Err(AsmFault::Memory),
        }
        number += 1;
        left = behind;
    }
    Ok(statements)
}

/// Appends the statement of a line, if it has one; its tokens lie in the room.
#[tactic(auto, using(crate::proofs::LongLemmas::line_kept))]
fn push_line(
    room: &mut Vec<Token>,
    statements: &mut Vec<Statement>,
    number: u32,
    line: &[u8],
) -> Result<(), LineFault>
    ensures { Adds result statements.old.items statements.new.items (line_meaning number line.now) }
{
    tokens_into(room, line)?;
    if room.is_empty() {
        return Ok(());
    }
    let (label, rest) = split_label(room.as_slice());
    push_body(statements, number, label, rest)
}

/// The first line of a text, and what comes after its line feed, if it has one.
///
/// Lines are those of docs/FORMATS.md, "Assembler".
pub fn first_line(text: &[u8]) -> (&[u8], Option<&[u8]>)
    ensures line { result.0.now ≡ before_first is_feed text.now }
    ensures behind { option_map (λ behind. behind.now) result.1 ≡ behind_first is_feed text.now }
{
    match feed_in(text) {
        Some(at) => (&text[..at], Some(&text[at + 1..])),
        None => (text, None),
    }
}

/// The place of the first line feed.
fn feed_in(text: &[u8]) -> Option<usize>
    ensures value { result ≡ position is_feed text.now }
    ensures inside { IfSome result (λ at. at < length text.now) }
{
    text.iter().position(|byte| *byte == b'\n')
}

/// The label that tokens begin with, if they do, and the tokens after it.
pub(crate) fn split_label(tokens: &[Token]) -> (Option<Word>, &[Token])
    ensures label { result.0 ≡ label_of tokens.now }
    ensures behind { result.1.now ≡ behind_label tokens.now }
{
    match tokens {
        [Token::Word(word), Token::Colon, rest @ ..] if word.is_label() => {
            (Some(word.copied()), rest)
        }
        _ => (None, tokens),
    }
}

/// Appends a statement with what tokens say after its label.
pub(crate) fn push_body(
    statements: &mut Vec<Statement>,
    line: u32,
    label: Option<Word>,
    tokens: &[Token],
) -> Result<(), LineFault>
    ensures { Adds result statements.old.items statements.new.items (on_line line label (body_of tokens.now)) }
{
    match tokens {
        [] => push(statements, line, label, Body::Nothing),
        [Token::Word(word), operands @ ..] => match by_name(word.as_bytes()) {
            Some(op) => match operands_of(sorts_of(form_of(op)), operands) {
                Some(operands) => push(statements, line, label, Body::Inst(op, operands)),
                None => Err(LineFault::Kind(OPERANDS)),
            },
            None => match directive_of(word.as_str(), operands) {
                Ok(body) => push(statements, line, label, body),
                Err(kind) => Err(LineFault::Kind(kind)),
            },
        },
        _ => Err(LineFault::Kind(MNEMONIC)),
    }
}

/// Appends a statement by its parts.
fn push(
    statements: &mut Vec<Statement>,
    line: u32,
    label: Option<Word>,
    body: Body,
) -> Result<(), LineFault>
    ensures { Adds result statements.old.items statements.new.items (on_line line label (Ok body)) }
{
    statements.push(Statement { line, label, body })?;
    Ok(())
}

/// A statement that is no instruction.
fn directive_of(word: &str, tokens: &[Token]) -> Result<Body, u8>
    ensures { result ≡ directive_of word.now tokens.now }
{
    let body = if word == ".word" {
        data_of(4, tokens)
    } else if word == ".half" {
        data_of(2, tokens)
    } else if word == ".byte" {
        data_of(1, tokens)
    } else if word == ".space" {
        space_of(tokens)
    } else if word == ".window" {
        window_of(tokens)
    } else if word == ".entry" {
        entry_of(tokens)
    } else if word == ".export" {
        export_of(tokens)
    } else {
        return Err(MNEMONIC);
    };
    body.ok_or(OPERANDS)
}

/// One value of so many bytes.
fn data_of(count: u8, tokens: &[Token]) -> Option<Body>
    ensures { result ≡ option_map (Body.Data count) (expression_of tokens.now) }
{
    match expression_of(tokens) {
        Some(value) => Some(Body::Data(count, value)),
        None => None,
    }
}

/// Where the program begins.
fn entry_of(tokens: &[Token]) -> Option<Body>
    ensures { result ≡ option_map Body.Entry (expression_of tokens.now) }
{
    match expression_of(tokens) {
        Some(value) => Some(Body::Entry(value)),
        None => None,
    }
}

/// A label that is exported.
fn export_of(tokens: &[Token]) -> Option<Body>
    ensures { result ≡ export_of tokens.now }
{
    match tokens {
        [Token::Word(word)] => Some(Body::Export(word.copied())),
        _ => None,
    }
}

/// One number of zero bytes.
fn space_of(tokens: &[Token]) -> Option<Body>
    ensures { result ≡ space_of tokens.now }
{
    match tokens {
        [Token::Number(count)] => Some(Body::Space(*count)),
        _ => None,
    }
}

/// A register's number, a segment's number and the access.
fn window_of(tokens: &[Token]) -> Option<Body>
    ensures { result ≡ window_of tokens.now }
{
    match tokens {
        [
            Token::Number(register),
            Token::Comma,
            Token::Number(segment),
            Token::Comma,
            Token::Word(word),
        ] => match access_of(word.as_str()) {
            Some(write) => Some(Body::Window(*register, *segment, write)),
            None => None,
        },
        _ => None,
    }
}

/// Whether a window is also to write.
fn access_of(word: &str) -> Option<bool>
    ensures { result ≡ window_writes word.now }
{
    if word == "r" {
        Some(false)
    } else if word == "rw" {
        Some(true)
    } else {
        None
    }
}
