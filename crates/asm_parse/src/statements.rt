ghost use Rattle.std.specs.Prelude.{◌≡◌, ◌+◌, ◌≤◌, ◌<◌, ◌^◌, [], length, slice_index_or, Some, Ok};
ghost use Rattle.asm_parse.specs.Kept.{stated};
ghost use Rattle.asm_parse.specs.Statement.{body_of, on_line, statement_of};
ghost use Rattle.asm_parse.specs.Text.{Adds};
ghost use Rattle.asm_parse.specs.declared.statement.Body.TheVariants.{Nothing};

use super::asm_fault::LineFault;
use super::head::{Head, Part};
use super::parsing::{push_body, split_label};
use super::source_word::Word;
use super::statement::{Body, Statement};
use super::token::Token;
use std::alloc::Global;
use std::marker::Model;

/// Statements, one after another. A line with a label alone takes no room for a body. Contracts see their list.
#[derive(Drop)]
pub struct Statements {
    /// The body of each label alone.
    nothing: Body,
    heads: Vec<Head>,
    wholes: Vec<Statement>,
}

impl Model for Statements {
    ghost use Rattle.std.specs.Prelude.{List, map};
    ghost use Rattle.asm_parse.specs.declared.statement.Statement.{Statement as Stated};
    ghost use Rattle.asm_parse.specs.Kept.{AreHeadsKept, stated_by};

    ghost Value = { List Stated };

    ghost view = { λ kept. map (stated_by kept.wholes.items) kept.heads.items };

    ghost invariant = { λ kept. AreHeadsKept kept.nothing kept.wholes.items kept.heads.items };
}

impl Statements {
    /// No statements.
    pub fn new(alloc: Global) -> Self
        ensures { result ≡ [] }
    {
        Statements {
            nothing: Body::Nothing,
            heads: Vec::new(alloc),
            wholes: Vec::new(alloc),
        }
    }

    /// How many there are.
    pub fn len(&self) -> usize
        ensures { result ≡ length self.now }
    {
        self.heads.len()
    }

    /// Leaves none. The room stays.
    pub fn clear(&mut self)
        ensures { self.new ≡ [] }
    {
        self.heads.clear();
        self.wholes.clear();
    }

    /// Appends the statement of a line's tokens, if there are tokens. Otherwise, and where it is refused, the statements
    /// stay as they were.
    ///
    /// # Errors
    ///
    /// [`LineFault::Kind`] with the kind of the line's fault, 2 or 3; [`LineFault::Memory`] where there is no memory.
    pub fn push_line(&mut self, number: u32, tokens: &[Token]) -> Result<(), LineFault>
        requires { length self.old < 2 ^ 31 }
        ensures { Adds result self.old self.new (statement_of number tokens.now) }
    {
        if tokens.is_empty() {
            return Ok(());
        }
        match split_label(tokens) {
            (Some(label), []) => self.push_bare(number, label),
            (label, rest) => self.push_whole(number, label, rest),
        }
    }

    /// Appends a statement that is a label alone.
    fn push_bare(&mut self, line: u32, label: Word) -> Result<(), LineFault>
        ensures { Adds result self.old self.new (on_line line (Some label) (Ok Nothing)) }
    {
        self.heads.push(Head::Bare(line, label))?;
        Ok(())
    }

    /// Appends a statement with what tokens say after its label, whole.
    fn push_whole(
        &mut self,
        line: u32,
        label: Option<Word>,
        tokens: &[Token],
    ) -> Result<(), LineFault>
        requires { length self.old < 2 ^ 31 }
        ensures { Adds result self.old self.new (on_line line label (body_of tokens.now)) }
    {
        let place = self.wholes.len() as u32;
        self.heads.push(Head::Whole(place))?;
        match push_body(&mut self.wholes, line, label, tokens) {
            Ok(()) => Ok(()),
            Err(fault) => {
                let _ = self.heads.pop();
                Err(fault)
            }
        }
    }

    /// The parts of the statement at a place.
    pub fn at(&self, index: usize) -> Part<'_>
        requires { index < length self.now }
        ensures { stated result ≡ slice_index_or self.now index (stated result) }
    {
        match &self.heads[index] {
            Head::Bare(line, label) => Part {
                line: *line,
                label: Some(label),
                body: &self.nothing,
            },
            Head::Whole(place) => Part::of(&self.wholes[*place as usize]),
        }
    }
}
