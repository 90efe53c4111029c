//! The store on a disk: its journal of records in a bank, the checkpoint that writes their lines home into the other bank, and
//! the restart that finds what was committed (docs/MODEL.md, docs/FORMATS.md).
#![tactic(auto)]

mod bank_reading;
mod checkpoint;
mod cost_law;
mod find;
mod home;
mod keep;
mod newest_law;
mod newest_lines;
mod open_fault;
mod opening;
mod places;
mod record_bytes;
mod redo_journal;
mod restart;
mod selector;
mod shown_law;

pub use checkpoint::Banks;
pub use cost_law::a_record_costs_its_lines;
pub use find::Record;
pub use keep::{Appended, Kept, write_once, write_sure};
pub use newest_law::what_no_record_has_is_nowhere;
pub use open_fault::{OpenFault, ReopenFault};
pub use redo_journal::Bank;
pub use restart::Durable;
pub use shown_law::what_is_shown_stands;
