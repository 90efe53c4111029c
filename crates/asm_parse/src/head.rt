ghost use Rattle.std.specs.Prelude.{◌≡◌};
ghost use Rattle.asm_parse.specs.Kept.{stated};

use super::source_word::Word;
use super::statement::{Body, Statement};

/// A statement as it is kept.
#[derive(Drop)]
pub(crate) enum Head {
    /// A label alone, and its line.
    Bare(u32, Word),
    /// The place of one among those that are kept whole.
    Whole(u32),
}

/// A statement by its parts.
#[derive(Clone, Copy)]
pub struct Part<'a> {
    /// The line of the text, counted from 1.
    pub line: u32,
    pub label: Option<&'a Word>,
    pub body: &'a Body,
}

impl<'a> Part<'a> {
    /// The parts of a statement.
    pub fn of(statement: &'a Statement) -> Self
        ensures { stated result ≡ statement.now }
    {
        Part {
            line: statement.line,
            label: statement.label.as_ref(),
            body: &statement.body,
        }
    }
}
