//! Pages of segments and where they are: the segment registers, what a page's entry lets do, the inverted table, the look-aside
//! buffer in front of it, and the lines that are known to be open (docs/MODEL.md).
#![tactic(auto)]

mod chain;
mod inverted_table;
mod key;
mod lockbit_rules;
mod open_lines;
mod page_entries;
mod segment_regs;
mod tlb_model;

pub use inverted_table::Table;
pub use key::Key;
pub use lockbit_rules::Authority;
pub use open_lines::OpenLines;
pub use segment_regs::{Check, SegmentRegister, SegmentRegs, Virtual, virtual_at};
pub use tlb_model::{Pair, Tlb};
