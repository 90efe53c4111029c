//! Statements of assembler text as a program, and those of several sources as one (docs/FORMATS.md, "Assembler" and
//! "Programs of several sources").
#![tactic(auto)]

mod encoding;
mod exports;
mod field;
mod instruction;
mod layout;
mod link_fault;
mod link_law;
mod output;
mod romp_link;
mod size;
mod size_law;
mod value;

pub use layout::{assemble, assemble_sources, assemble_text};
pub use link_fault::LinkFault;
pub use link_law::a_source_without_exports_is_as_before;
pub use romp_link::link;
pub use size_law::size_is_by_mnemonic;
pub use value::{Givers, LabelKey, label_key};
