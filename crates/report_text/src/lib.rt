//! The lines of a report, each put on the screen as a whole, and read back from a text (docs/FORMATS.md, "Report").
#![tactic(auto)]

mod commit_reading;
mod guess;
mod report_line;
mod reporter;
mod word_reading;

pub use commit_reading::{LinesFault, read_commits};
pub use report_line::{CommitLine, Line};
pub use reporter::Reporter;
pub use text_line::place_of;
pub use word_reading::{behind, first_number};
