ghost use Rattle.std.specs.Prelude.{◌≡◌, false, ◌<◌, ◌≤◌, ◌^◌, List, ◌++◌, length, sum_by, MatchResult};
ghost use Rattle.asm_parse.specs.Answers.{IsTextAnswer, IsTextFaultOf};
ghost use Rattle.romp_asm.specs.Below.{at_line, stated};
ghost use Rattle.romp_asm.specs.Labels.{addresses_in, found_in, repeated_in, stands_before, AreAlone};
ghost use Rattle.romp_asm.specs.Laid.{AreReadAs, IsLaid, LaidTo, MayRepeat, LaysAll, MayRepeatAt, LaysOne};
ghost use Rattle.asm_parse.specs.declared.statement.Statement.{Statement as Stated};
ghost use Rattle.romp_asm.specs.Source.{source_of};
ghost use Rattle.romp_asm.specs.Sources.{joined};
ghost use Rattle.romp_asm.specs.Layout.{assembled, parts_of, piece_of};

use super::output::Output;
use super::value::{Givers, Labels, Scope, label_key, labels_of, tables_of};
use asm_parse::{AsmFault, LineFault, Part, Statement, Statements, parse};
use flat_machine::Program;
use std::alloc::Global;
use std::collections::BTreeMap;

/// The program of a source.
///
/// The rules are in docs/FORMATS.md, "Assembler".
///
/// # Errors
///
/// [`AsmFault::Fault`] with the first line that has a fault of kinds 1 to 4, and its kind, or if there is none with the
/// first that has one of kinds 5 to 9, and its least kind; [`AsmFault::Memory`] where there is no memory.
#[tactic(auto, unfolding(crate::specs::Source::source_of))]
pub fn assemble_text(alloc: Global, text: &[u8]) -> Result<Program, AsmFault>
    requires { length text.now < 2 ^ 30 }
    ensures { IsTextAnswer parts_of result (source_of text.now) }
{
    match parse(alloc, text) {
        Ok(statements) => assemble(alloc, statements.as_slice()),
        Err(fault) => Err(fault),
    }
}

/// The program that statements make. An `.export` says nothing here.
///
/// The rules are in docs/FORMATS.md, "Assembler". What follows a statement with which the image passes 16,384 bytes is
/// not laid out.
///
/// # Errors
///
/// [`AsmFault::Fault`] with the line of the first statement that has a fault of kinds 5 to 9, and its least kind;
/// [`AsmFault::Memory`] where there is no memory.
pub fn assemble(alloc: Global, statements: &[Statement]) -> Result<Program, AsmFault>
    requires { length statements.now ≤ 2 ^ 30 }
    ensures { IsTextAnswer parts_of result (assembled statements.now) }
{
    let table = labels_of(alloc, statements)?;
    let givers = BTreeMap::new(alloc);
    let scope = Scope {
        own: &table,
        tables: &[],
        givers: &givers,
    };
    let mut output = Output::new(alloc);
    add_text(&mut output, &scope, statements)?;
    Ok(output.finish())
}

/// The program that several sources make: they stand end to end, and each sees its own labels, and of the others those
/// that `givers` says, by the number of the source, counted from 0. An `.export` says nothing here.
///
/// # Errors
///
/// As [`assemble`].
pub fn assemble_sources<'a>(
    alloc: Global,
    sources: &'a [Statements],
    givers: &Givers<'a>,
) -> Result<Program, AsmFault>
    requires { sum_by (λ source. length source) sources.now ≤ 2 ^ 30 }
    ensures { IsTextAnswer parts_of result (assembled (joined (found_in givers.now) sources.now)) }
{
    let kept = tables_of(alloc, sources)?;
    let tables = kept.as_slice();
    let mut output = Output::new(alloc);
    for (source, statements) in sources.iter().enumerate() {
        let scope = Scope {
            own: &tables[source],
            tables,
            givers,
        };
        add_source(&mut output, &scope, statements)?;
    }
    Ok(output.finish())
}

/// Lays the statements of a text.
fn add_text<'a>(
    output: &mut Output,
    scope: &Scope<'_, '_, 'a>,
    statements: &'a [Statement],
) -> Result<(), AsmFault>
    requires { MayRepeat scope.now statements.now }
    ensures { LaysAll scope.now statements.now output.old output.new result }
{
    for (index, statement) in statements.iter().enumerate() {
        add(output, scope, index, &Part::of(statement))?;
    }
    Ok(())
}

/// Lays the statements of a source after the others.
fn add_source<'a>(
    output: &mut Output,
    scope: &Scope<'_, '_, 'a>,
    statements: &'a Statements,
) -> Result<(), AsmFault>
    requires { MayRepeat scope.now statements.now }
    ensures { LaysAll scope.now statements.now output.old output.new result }
{
    for index in 0..statements.len() {
        add(output, scope, index, &statements.at(index))?;
    }
    Ok(())
}

/// Lays one statement after the others.
fn add<'a>(
    output: &mut Output,
    scope: &Scope<'_, '_, 'a>,
    index: usize,
    part: &Part<'a>,
) -> Result<(), AsmFault>
    requires { MayRepeatAt scope.now index (stated part.now) }
    ensures { LaysOne scope.now index (stated part.now) output.old output.new result }
{
    let repeated = scope.own.repeats && is_repeated(&scope.own.labels, index, part);
    match output.add(scope, repeated, part.body) {
        Ok(()) => Ok(()),
        Err(LineFault::Kind(kind)) => Err(AsmFault::Fault {
            line: part.line,
            kind,
        }),
        Err(LineFault::Memory) => Err(AsmFault::Memory),
    }
}

/// Whether an earlier statement than the one with this number has its label too.
fn is_repeated<'a>(labels: &Labels<'a>, index: usize, part: &Part<'a>) -> bool
    ensures { result ≡ repeated_in labels.now index (stated part.now) }
{
    match part.label {
        Some(label) => stands_before(labels, index, label.as_bytes()),
        None => false,
    }
}

/// Whether an earlier statement than the one with this number has a label.
fn stands_before<'a>(labels: &Labels<'a>, index: usize, word: &'a [u8]) -> bool
    ensures { result ≡ stands_before index (found_in labels.now word.now) }
{
    match labels.get(&label_key(word)) {
        Some(place) => place.statement < index,
        None => false,
    }
}
