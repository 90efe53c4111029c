ghost use Rattle.std.specs.Prelude.{◌≡◌, ◌≤◌, nat_le, if◌then◌else◌, length, Some, None};
ghost use Rattle.std.specs.Str.{IsAscii};
ghost use Rattle.asm_parse.specs.Statement.{is_label};

use std::marker::Model;

/// The most bytes of a word.
const MOST: usize = 31;

/// A word of the source: at most 31 bytes of ASCII. Contracts see it as the list of its bytes.
#[derive(Drop)]
pub struct Word {
    bytes: [u8; MOST],
    length: u8,
}

impl Model for Word {
    ghost use Rattle.std.specs.Prelude.{ℕ, List, ◌≤◌, take};
    ghost use Rattle.std.specs.Str.{IsAscii};

    ghost Value = { List ℕ };

    ghost view = { λ word. take word.length word.bytes };

    ghost invariant = { λ word. (word.length ≤ 31) × IsAscii (take word.length word.bytes) };
}

impl Word {
    /// The word of these bytes; none where they are more than 31.
    pub fn from_ascii(bytes: &[u8]) -> Option<Self>
        requires { IsAscii bytes.now }
        ensures { result ≡ (if nat_le (length bytes.now) 31 then Some bytes.now else None) }
    {
        if bytes.len() > MOST {
            return None;
        }
        let mut kept = [0; MOST];
        kept[..bytes.len()].copy_from_slice(bytes);
        Some(Word {
            bytes: kept,
            length: bytes.len() as u8,
        })
    }

    /// The same word once more.
    pub fn copied(&self) -> Self
        ensures { result ≡ self.now }
    {
        Word {
            bytes: self.bytes,
            length: self.length,
        }
    }

    /// Its text.
    pub fn as_str(&self) -> &str
        ensures { result.now ≡ self.now }
    {
        match str::from_utf8(&self.bytes[..usize::from(self.length)]) {
            Ok(text) => text,
            Err(_) => unreachable!(),
        }
    }

    /// Whether it may be a label or a name: it doesn't begin with `.`.
    pub fn is_label(&self) -> bool
        ensures { result ≡ is_label self.now }
    {
        !self.as_bytes().starts_with(b".")
    }

    /// Its bytes.
    pub fn as_bytes(&self) -> &[u8]
        ensures value { result.now ≡ self.now }
        ensures fits { length result.now ≤ 31 }
    {
        &self.bytes[..usize::from(self.length)]
    }
}
