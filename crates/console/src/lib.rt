//! The console: the one call that does all that the program does (docs/MODEL.md). It reads the words and hands on.
#![tactic(auto)]

mod command_words;
mod commands;
mod list;
mod wants;

pub use call_status::{Status, status_text};
pub use commands::console;
pub use drills::{Stop, drill_stop};
pub use job_calls::Ended;
pub use store_calls::try_store;
pub use wants::{DiskKind, disk_of, path_of, reads_source};
