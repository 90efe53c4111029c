ghost use Rattle.std.specs.Prelude.{◌≤◌, ◌^◌, length, sum_by};
ghost use Rattle.romp_asm.specs.LinkAnswers.{IsLinkAnswer};
ghost use Rattle.romp_asm.specs.Linked.{linked};

use super::exports::exports_of;
use super::layout::assemble_sources;
use super::link_fault::LinkFault;
use asm_parse::{AsmFault, Statements};
use flat_machine::Program;
use std::alloc::Global;

/// The program that several sources make: they stand end to end, and each has labels of its own. A label that a source
/// lacks is that of the first source that exports it.
///
/// The rules are in docs/FORMATS.md, "Programs of several sources".
///
/// # Errors
///
/// [`LinkFault::Fault`] with the first line that has a fault of kinds 5 to 9, 15 or 16, and its least kind;
/// [`LinkFault::Memory`] where there is no memory.
pub fn link(alloc: Global, sources: &[Statements]) -> Result<Program, LinkFault>
    requires { sum_by (λ source. length source) sources.now ≤ 2 ^ 30 }
    ensures { IsLinkAnswer result (linked sources.now) }
{
    let exports = exports_of(alloc, sources)?;
    let made = assemble_sources(alloc, sources, &exports.givers);
    let Some(fault) = exports.fault else {
        return Ok(made?);
    };
    match made {
        Err(AsmFault::Memory) => Err(LinkFault::Memory),
        Err(AsmFault::Fault { line, kind }) if line <= fault.line => {
            Err(LinkFault::Fault { line, kind })
        }
        _ => Err(LinkFault::Fault {
            line: fault.line,
            kind: fault.kind,
        }),
    }
}
