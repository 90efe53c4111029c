ghost use Rattle.std.specs.Prelude.{◌≡◌, ◌+◌, ◌<◌, ◌≤◌, ◌∷◌, length, take};
ghost use Rattle.std.specs.Char.{is_ascii_alphanumeric};
ghost use Rattle.std.specs.List.{prefix_len};
ghost use Rattle.std.specs.Str.{IsAscii};
ghost use Rattle.asm_parse.specs.Number.{literal_number};
ghost use Rattle.asm_parse.specs.Token.{begin_at, begins_word, continues_word, is_blank, kept_tokens, mark_begins, more_of, number_begins, tokens, word_begins};
ghost use Rattle.asm_parse.specs.Answers.{Answers};

use super::asm_fault::LineFault;
use super::numbers::number_of;
use super::source_word::Word;

/// What a line is made of (docs/FORMATS.md, "Assembler").
#[derive(Drop)]
pub enum Token {
    /// A letter, `_` or `.`, and the letters, digits and `_` after it.
    Word(Word),
    /// A number in decimal or hexadecimal.
    Number(u32),
    Comma,
    Open,
    Close,
    Colon,
    Plus,
    Minus,
}

/// What begins at a byte of a line.
#[derive(Drop)]
pub(crate) enum Begin {
    Blank,
    /// The rest of the line is a comment.
    Comment,
    /// A token, and how many bytes of it stand after the first.
    Takes(Token, usize),
    /// No token, with the kind of this fault.
    Bad(u8),
}

/// A character that begins no token, or a word of more than 31 bytes.
const CHARACTER: u8 = 1;
/// A number that is none, or has more than 32 bits.
const NUMBER: u8 = 4;

/// How many tokens of a line are kept: a line that has more means what these do.
const MOST_TOKENS: usize = 64;

/// The tokens of a line without its line feed, at most the first 64, in a room that is kept for one line after another. So
/// no line takes more room, however long it is. Of the tokens before nothing is left; after an error any may lie there.
///
/// # Errors
///
/// [`LineFault::Kind`] with the kind of the first token that is bad: 1 for a byte that begins none or a word of more
/// than 31 bytes, 4 for a number that is none or has more than 32 bits. [`LineFault::Memory`] where there is no memory.
pub fn tokens_into(found: &mut Vec<Token>, line: &[u8]) -> Result<(), LineFault>
    ensures { Answers (λ _. found.new.items) result (kept_tokens (tokens line.now)) }
{
    found.clear();
    let mut left = line;
    while let Some((first, rest)) = left.split_first() {
        match begin_of(left, *first, rest) {
            Begin::Blank => left = rest,
            Begin::Comment => return Ok(()),
            Begin::Takes(_, more) if found.len() == MOST_TOKENS => left = rest.split_at(more).1,
            Begin::Takes(token, more) => {
                found.push(token)?;
                left = rest.split_at(more).1;
            }
            Begin::Bad(kind) => return Err(LineFault::Kind(kind)),
        }
    }
    Ok(())
}

/// What begins at the first byte of what is left of a line.
fn begin_of(left: &[u8], first: u8, rest: &[u8]) -> Begin
    requires { left.now ≡ first ∷ rest.now }
    ensures value { result ≡ begin_at first rest.now }
    ensures inside { more_of result ≤ length rest.now }
{
    if is_blank(first) {
        return Begin::Blank;
    }
    if first == b';' {
        return Begin::Comment;
    }
    if begins_word(first) {
        return word_begins(left, word_tail(rest));
    }
    if first.is_ascii_digit() {
        return number_begins(left, number_tail(rest));
    }
    mark_begins(first)
}

/// A word that has so many bytes after the first.
fn word_begins(left: &[u8], more: usize) -> Begin
    requires inside { more < length left.now }
    requires ascii { IsAscii (take (more + 1) left.now) }
    ensures { result ≡ word_begins more (take (more + 1) left.now) }
{
    match Word::from_ascii(&left[..=more]) {
        Some(word) => Begin::Takes(Token::Word(word), more),
        None => Begin::Bad(CHARACTER),
    }
}

/// A number that has so many bytes after the first.
fn number_begins(left: &[u8], more: usize) -> Begin
    requires { more < length left.now }
    ensures { result ≡ number_begins more (literal_number (take (more + 1) left.now)) }
{
    match number_of(&left[..=more]) {
        Some(number) => Begin::Takes(Token::Number(number), more),
        None => Begin::Bad(NUMBER),
    }
}

/// The token of one character.
fn mark_begins(first: u8) -> Begin
    ensures { result ≡ mark_begins first }
{
    let token = match first {
        b',' => Token::Comma,
        b'(' => Token::Open,
        b')' => Token::Close,
        b':' => Token::Colon,
        b'+' => Token::Plus,
        b'-' => Token::Minus,
        _ => return Begin::Bad(CHARACTER),
    };
    Begin::Takes(token, 0)
}

/// How many bytes from the front on continue a word.
fn word_tail(rest: &[u8]) -> usize
    ensures value { result ≡ prefix_len continues_word rest.now }
    ensures inside { result ≤ length rest.now }
{
    rest.iter()
        .take_while(|byte| continues_word(**byte))
        .count()
}

/// How many bytes from the front on are letters and digits.
fn number_tail(rest: &[u8]) -> usize
    ensures value { result ≡ prefix_len is_ascii_alphanumeric rest.now }
    ensures inside { result ≤ length rest.now }
{
    rest.iter()
        .take_while(|byte| byte.is_ascii_alphanumeric())
        .count()
}

/// Whether a byte is a space, a tab or a carriage return.
fn is_blank(byte: u8) -> bool
    ensures { result ≡ is_blank byte }
{
    byte == b' ' || byte == b'\t' || byte == b'\r'
}

/// Whether a byte begins a word.
fn begins_word(byte: u8) -> bool
    ensures { result ≡ begins_word byte }
{
    byte.is_ascii_alphabetic() || byte == b'_' || byte == b'.'
}

/// Whether a byte continues a word.
fn continues_word(byte: u8) -> bool
    ensures { result ≡ continues_word byte }
{
    byte.is_ascii_alphanumeric() || byte == b'_'
}
