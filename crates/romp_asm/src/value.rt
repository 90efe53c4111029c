ghost use Rattle.std.specs.Prelude.{◌≡◌, false, ◌+◌, ◌*◌, ◌≤◌, ◌<◌, ◌^◌, ◌+ℤ◌, sum_by, ℕ, List, length, IfOk, OnOk, MatchResult, Ok, Err};
ghost use Rattle.romp_asm.specs.Below.{option_map, stated};
ghost use Rattle.romp_asm.specs.Value.{is_labelled, known_of, knowns_of, least_kind, value_of, within_reach};
ghost use Rattle.romp_asm.specs.Size.{total_size};
ghost use Rattle.romp_asm.specs.Labels.{addresses_in, found_in, given_in, label_noted, label_place, AreAlone, AreTables, IsLabelNew, IsTable, word_number, HasLabelsOf, NotesLabel, AreKnowns};

use super::field::{OUT_OF_REACH, UNKNOWN_LABEL};
use super::size::size_of;
use arrayvec::ArrayVec;
use asm_parse::{Expr, Operand, Part, Statement, Statements};
use std::alloc::{AllocError, Global};
use std::collections::BTreeMap;

/// Where a label stands: its statement, counted from 0, and its address.
#[derive(Clone, Copy)]
pub(crate) struct Place {
    pub statement: usize,
    pub address: i64,
}

/// A word as a table has it: a number of its bytes, by which most words differ, and the bytes. So a look-up compares few
/// bytes, and words that agree in their numbers cost no more than a look at their bytes (docs/SPEED.md).
pub type LabelKey<'a> = (u64, &'a [u8]);

/// The labels of statements, each where it stands first.
pub(crate) type Labels<'a> = BTreeMap<LabelKey<'a>, Place>;

/// The source that gives a word to the others, by its number.
pub type Givers<'a> = BTreeMap<LabelKey<'a>, usize>;

/// A word as a table has it.
pub fn label_key(bytes: &[u8]) -> LabelKey<'_>
    ensures { result ≡ (word_number bytes.now, bytes.entry) }
{
    (word_number(bytes), bytes)
}

/// A number of a word's bytes, by which most words differ.
fn word_number(bytes: &[u8]) -> u64
    ensures { result ≡ word_number bytes.now }
{
    bytes.iter().fold(0, |number: u64, byte| {
        number
            .wrapping_mul(0x100_0000_01B3)
            .wrapping_add(u64::from(*byte))
    })
}

/// The labels of statements, whether one of them stands twice, and where the statements end.
#[derive(Drop)]
pub(crate) struct LabelTable<'a> {
    pub labels: Labels<'a>,
    pub repeats: bool,
    pub end: u64,
}

/// The labels that the statements of a source may name: its own, and those that other sources give.
#[derive(Clone, Copy)]
pub(crate) struct Scope<'s, 'g, 'a> {
    pub own: &'s LabelTable<'a>,
    pub tables: &'s [LabelTable<'a>],
    pub givers: &'g Givers<'a>,
}

/// An operand whose labels are replaced by their addresses.
#[derive(Drop)]
pub(crate) enum Known {
    Register(u8),
    Condition(u8),
    Value(i64),
    Place(i64, u8),
}

impl Default for Known {
    ghost use Rattle.romp_asm.specs.declared.value.Known.TheVariants.{Register};

    ghost is_default = { λ known. known ≡ Register 0 };

    fn default() -> Self {
        Known::Register(0)
    }
}

/// The labels of statements.
pub(crate) fn labels_of(
    alloc: Global,
    statements: &[Statement],
) -> Result<LabelTable<'_>, AllocError>
    requires { length statements.now ≤ 2 ^ 30 }
    ensures { IfOk result (HasLabelsOf statements.now) }
{
    let mut labels = BTreeMap::new(alloc);
    let mut repeats = false;
    let mut address: u64 = 0;
    for (index, statement) in statements.iter().enumerate() {
        let place = Place {
            statement: index,
            address: address as i64,
        };
        let again = note(&mut labels, &Part::of(statement), place)?;
        repeats |= again;
        address += u64::from(size_of(&statement.body));
    }
    Ok(LabelTable {
        labels,
        repeats,
        end: address,
    })
}

/// The tables of sources, which stand one after the other.
pub(crate) fn tables_of(
    alloc: Global,
    sources: &[Statements],
) -> Result<Vec<LabelTable<'_>>, AllocError>
    requires { sum_by (λ source. length source) sources.now ≤ 2 ^ 30 }
    ensures { IfOk result (λ tables. AreTables tables.items sources.now) }
{
    let mut tables = Vec::new(alloc);
    let mut address = 0;
    for statements in sources {
        let table = labels_kept(alloc, statements, address)?;
        address = table.end;
        tables.push(table)?;
    }
    Ok(tables)
}

/// The labels of statements that are kept, of which the first stands at an address.
fn labels_kept(
    alloc: Global,
    statements: &Statements,
    start: u64,
) -> Result<LabelTable<'_>, AllocError>
    requires { start + length statements.now * 2 ^ 32 ≤ 2 ^ 62 }
    ensures table { IfOk result (λ table. IsTable table start statements.now) }
    ensures small { IfOk result (λ table. total_size statements.now ≤ length statements.now * 2 ^ 32) }
{
    let mut labels = BTreeMap::new(alloc);
    let mut repeats = false;
    let mut address = start;
    for index in 0..statements.len() {
        let part = statements.at(index);
        let place = Place {
            statement: index,
            address: address as i64,
        };
        let again = note(&mut labels, &part, place)?;
        repeats |= again;
        address += u64::from(size_of(part.body));
    }
    Ok(LabelTable {
        labels,
        repeats,
        end: address,
    })
}

/// Notes the label of a statement, if it has one and no statement had it before. The answer is whether one had it.
fn note<'a>(labels: &mut Labels<'a>, part: &Part<'a>, place: Place) -> Result<bool, AllocError>
    ensures noted { OnOk result (NotesLabel (stated part.now) place labels.old labels.new) }
    ensures again { IfOk result (λ again. again ≡ false → IsLabelNew labels.old (stated part.now)) }
{
    let Some(label) = part.label else {
        return Ok(false);
    };
    let key = label_key(label.as_bytes());
    match labels.insert(key, place)? {
        None => Ok(false),
        Some(first) => {
            labels.insert(key, first)?;
            Ok(true)
        }
    }
}

/// The value of an expression.
pub(crate) fn value_of<'a>(scope: &Scope<'_, '_, 'a>, value: &'a Expr) -> Result<i64, u8>
    ensures { result ≡ value_of (addresses_in scope.now) value.now }
{
    match value {
        Expr::Number(number) => Ok(*number),
        Expr::Label(word, more) => match address_in(scope, word.as_bytes()) {
            Some(address) => sum_of(address, *more),
            None => Err(UNKNOWN_LABEL),
        },
    }
}

/// The address of a label: the source's own, or that of the source that gives it.
fn address_in<'a>(scope: &Scope<'_, '_, 'a>, word: &'a [u8]) -> Option<i64>
    ensures { result ≡ addresses_in scope.now word.now }
{
    match scope.own.labels.get(&label_key(word)) {
        Some(place) => Some(place.address),
        None => given_in(scope, word),
    }
}

/// The address of a label that a source gives to the others.
fn given_in<'a>(scope: &Scope<'_, '_, 'a>, word: &'a [u8]) -> Option<i64>
    ensures { result ≡ option_map (λ place. place.address) (given_in scope.now word.now) }
{
    let key = label_key(word);
    let source = scope.givers.get(&key)?;
    let table = scope.tables.get(*source)?;
    let place = table.labels.get(&key)?;
    Some(place.address)
}

/// An address and what is added to it.
fn sum_of(address: i64, more: i64) -> Result<i64, u8>
    ensures { result ≡ within_reach (address +ℤ more) }
{
    match address.checked_add(more) {
        Some(value) => Ok(value),
        None => Err(OUT_OF_REACH),
    }
}

/// An operand with its value.
fn known_of<'a>(scope: &Scope<'_, '_, 'a>, operand: &'a Operand) -> Result<Known, u8>
    ensures { result ≡ known_of (addresses_in scope.now) operand.now }
{
    match operand {
        Operand::Register(register) => Ok(Known::Register(*register)),
        Operand::Condition(condition) => Ok(Known::Condition(*condition)),
        Operand::Value(value) => match value_of(scope, value) {
            Ok(number) => Ok(Known::Value(number)),
            Err(kind) => Err(kind),
        },
        Operand::Place(displacement, register) => match value_of(scope, displacement) {
            Ok(number) => Ok(Known::Place(number, *register)),
            Err(kind) => Err(kind),
        },
    }
}

/// Operands with their values, or the least kind of those that have none.
pub(crate) fn knowns_of<'a>(
    scope: &Scope<'_, '_, 'a>,
    operands: &'a [Operand],
) -> Result<ArrayVec<Known, 4>, u8>
    requires { length operands.now ≤ 4 }
    ensures { AreKnowns scope.now operands.now result }
{
    let mut knowns = ArrayVec::new();
    let mut fault = None;
    for operand in operands {
        match known_of(scope, operand) {
            Ok(known) => knowns.push(known),
            Err(kind) => fault = Some(least(fault, kind)),
        }
    }
    match fault {
        None => Ok(knowns),
        Some(kind) => Err(kind),
    }
}

/// The lesser of the kinds of two faults, of which the first may be none.
fn least(fault: Option<u8>, kind: u8) -> u8
    ensures { result ≡ least_kind fault kind }
{
    match fault {
        Some(other) => other.min(kind),
        None => kind,
    }
}
