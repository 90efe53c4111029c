//! The text of one line in a fixed room: words, numbers in decimal and bytes in hexadecimal, with a space between each
//! two, and the line feed at its end (docs/FORMATS.md, "Report" and "Listing").
#![tactic(auto)]

mod line_words;

ghost use Rattle.std.specs.Prelude.{◌≡◌, ◌+◌, ◌*◌, ◌≤◌, List, ℕ, [], ◌∷◌, ◌++◌, length, decimal};
ghost use Rattle.hex.specs.Hex.{encode_lower};

use arrayvec::ArrayVec;
use itoa::Buffer;
pub use line_words::{number, place_of};
use std::marker::Model;

/// Room for the longest line, a commit with 4,096 printed bytes, in bytes.
pub const ROOM: usize = 8320;

/// The bytes of a line so far, seen as their list. It is filled in place, and takes no memory.
#[derive(Drop)]
pub struct TextLine {
    bytes: ArrayVec<u8, ROOM>,
}

impl Model for TextLine {
    ghost use Rattle.std.specs.Prelude.{List, ℕ};

    ghost Value = { List ℕ };

    ghost view = { λ text. text.bytes.items };
}

impl TextLine {
    /// An empty line, whose room is then kept for one line after another.
    pub fn new() -> Self
        ensures { result ≡ [] }
    {
        TextLine {
            bytes: ArrayVec::new(),
        }
    }

    /// Begins a line anew with a word. Of the line before nothing is left.
    pub fn begin(&mut self, word: &[u8])
        requires { length word.now ≤ ROOM }
        ensures { self.new ≡ word.now }
    {
        self.bytes.clear();
        let _ = self.bytes.try_extend_from_slice(word);
    }

    /// The bytes so far.
    pub fn as_slice(&self) -> &[u8]
        ensures { result.now ≡ self.now }
    {
        self.bytes.as_slice()
    }

    /// A space and a word.
    pub fn word(&mut self, word: &[u8])
        requires { length self.old + (length word.now + 1) ≤ ROOM }
        ensures value { self.new ≡ self.old ++ 32 ∷ word.now }
        ensures longer { length self.new ≡ length self.old + (length word.now + 1) }
    {
        self.space();
        let _ = self.bytes.try_extend_from_slice(word);
    }

    /// A space and a number.
    pub fn number(&mut self, number: u64)
        requires { length self.old + 21 ≤ ROOM }
        ensures value { self.new ≡ self.old ++ 32 ∷ decimal number }
        ensures longer { length self.new ≤ length self.old + 21 }
    {
        let mut buffer = Buffer::new();
        self.word(buffer.format(number).as_bytes());
    }

    /// A space and a word, and a space and a number.
    pub fn part(&mut self, word: &[u8], number: u64)
        requires { length self.old + (length word.now + 22) ≤ ROOM }
        ensures value { self.new ≡ self.old ++ 32 ∷ word.now ++ 32 ∷ decimal number }
        ensures longer { length self.new ≤ length self.old + (length word.now + 22) }
    {
        self.word(word);
        self.number(number);
    }

    /// A space and bytes in hexadecimal.
    pub fn hex(&mut self, bytes: &[u8])
        requires { length self.old + (2 * length bytes.now + 1) ≤ ROOM }
        ensures value { self.new ≡ self.old ++ 32 ∷ encode_lower bytes.now }
        ensures longer { length self.new ≡ length self.old + (2 * length bytes.now + 1) }
    {
        self.space();
        let mut digits = [0; ROOM];
        let digits = &mut digits[..2 * bytes.len()];
        let _ = hex::encode_to_slice(bytes, digits);
        let _ = self.bytes.try_extend_from_slice(digits);
    }

    /// The line feed.
    pub fn end(&mut self)
        requires { length self.old + 1 ≤ ROOM }
        ensures { self.new ≡ self.old ++ 10 ∷ [] }
    {
        self.bytes.push(b'\n');
    }

    /// A space.
    fn space(&mut self)
        requires { length self.old + 1 ≤ ROOM }
        ensures { self.new ≡ self.old ++ 32 ∷ [] }
    {
        self.bytes.push(b' ');
    }
}
