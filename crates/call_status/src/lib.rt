//! What the program's calls share: how each ends, how that is told, and how the text of a job or of a bundle is read.
#![tactic(auto)]

mod reading;
mod source_text;
mod status;

pub use reading::job_from;
pub use source_text::{MOST_OF_BUNDLE, MOST_OF_JOB, MOST_OF_STORE, TextFault, read_text};
pub use status::{Status, status_text};
