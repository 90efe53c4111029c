ghost use Rattle.std.specs.Prelude.{◌≡◌, ℕ, if◌then◌else◌, false, is_some, List, [], ◌∷◌, ◌++◌, length, Some, None, IfOk, OnOk};
ghost use Rattle.romp_asm.specs.Below.{AllByRecursion, bytes_eq, option_map, option_or, stated};
ghost use Rattle.romp_asm.specs.Labels.{found_in};
ghost use Rattle.asm_parse.specs.declared.statement.Statement.{Statement as Stated};
ghost use Rattle.romp_asm.specs.Linked.{exported};
ghost use Rattle.romp_asm.specs.Exported.{AreExports, HasLabels, export_told, Gives, Faults, export_fault, AddsExports};

use super::value::{Givers, LabelKey, label_key};
use asm_parse::{Body, Part, Statements};
use std::alloc::{AllocError, Global};
use std::collections::BTreeMap;

/// The source of an export lacks the label.
const NO_EXPORT: u8 = 15;
/// An earlier line exports the label.
const DOUBLE_EXPORT: u8 = 16;

/// The labels of a source.
type Labels<'a> = BTreeMap<LabelKey<'a>, ()>;

/// Why a line can't export a label.
#[derive(Clone, Copy)]
pub(crate) struct ExportFault {
    pub line: u32,
    pub kind: u8,
}

/// The labels that sources export, and the first fault of an export.
#[derive(Drop)]
pub(crate) struct Exports<'a> {
    pub givers: Givers<'a>,
    pub fault: Option<ExportFault>,
}

/// The exports of sources.
pub(crate) fn exports_of(alloc: Global, sources: &[Statements]) -> Result<Exports<'_>, AllocError>
    ensures { IfOk result (λ exports. AreExports exports sources.now) }
{
    let mut exports = Exports {
        givers: BTreeMap::new(alloc),
        fault: None,
    };
    for (source, statements) in sources.iter().enumerate() {
        if has_exports(statements) {
            let labels = labels_of(alloc, statements)?;
            add_exports(&mut exports, &labels, source, statements)?;
        }
    }
    Ok(exports)
}

/// The label that a statement exports, if it does.
fn exported_by<'a>(part: &Part<'a>) -> Option<&'a [u8]>
    ensures { option_map (λ label. label.now) result ≡ exported (stated part.now).body }
{
    match part.body {
        Body::Export(label) => Some(label.as_bytes()),
        _ => None,
    }
}

/// Whether a statement exports a label.
fn has_exports(statements: &Statements) -> bool
    ensures { result ≡ false → AllByRecursion (λ statement. exported statement.body ≡ None) statements.now }
{
    for index in 0..statements.len() {
        if exported_by(&statements.at(index)).is_some() {
            return true;
        }
    }
    false
}

/// The labels of statements.
fn labels_of(alloc: Global, statements: &Statements) -> Result<Labels<'_>, AllocError>
    ensures { IfOk result (λ labels. HasLabels labels statements.now) }
{
    let mut labels = BTreeMap::new(alloc);
    for index in 0..statements.len() {
        match statements.at(index).label {
            Some(label) => {
                labels.insert(label_key(label.as_bytes()), ())?;
            }
            None => {}
        }
    }
    Ok(labels)
}

/// Adds the exports of a source, which stands after others.
fn add_exports<'a>(
    exports: &mut Exports<'a>,
    labels: &Labels<'a>,
    source: usize,
    statements: &'a Statements,
) -> Result<(), AllocError>
    requires { HasLabels labels.now statements.now }
    ensures { OnOk result (AddsExports source statements.now exports.old exports.new) }
{
    for index in 0..statements.len() {
        let part = statements.at(index);
        match exported_by(&part) {
            Some(label) => exports.add(labels, source, part.line, label)?,
            None => {}
        }
    }
    Ok(())
}

impl<'a> Exports<'a> {
    /// Adds the export of a label by a line of a source.
    fn add(
        &mut self,
        labels: &Labels<'a>,
        source: usize,
        line: u32,
        label: &'a [u8],
    ) -> Result<(), AllocError>
        ensures givers { OnOk result (Gives source label.now self.old.givers self.new.givers) }
        ensures fault { OnOk result (Faults labels.now line label.now self.old self.new) }
    {
        let key = label_key(label);
        let again = self.givers.contains_key(&key);
        let fault = fault_of(line, labels.contains_key(&key), again);
        self.fault = self.fault.or(fault);
        if !again {
            self.givers.insert(key, source)?;
        }
        Ok(())
    }
}

/// Why a line can't export a label, by whether its source has the label, and whether an earlier line exports it.
fn fault_of(line: u32, known: bool, again: bool) -> Option<ExportFault>
    ensures { export_told result ≡ export_fault line known again }
{
    if !known {
        Some(ExportFault {
            line,
            kind: NO_EXPORT,
        })
    } else if again {
        Some(ExportFault {
            line,
            kind: DOUBLE_EXPORT,
        })
    } else {
        None
    }
}
