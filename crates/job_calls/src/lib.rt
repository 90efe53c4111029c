//! A job that is run on a store: the words `try` and `run`, and the load of the word `big`.
#![tactic(auto)]

mod ended;
mod load_run;
mod run;

pub use ended::Ended;
pub use load_run::run_load;
pub use run::{run_source, try_job};
