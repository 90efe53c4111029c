//! The console on a file and a screen: what it did, in the words of what was asked of these two.
#![tactic(auto)]

mod on_file;
mod word_run;

pub use on_file::{console_on_file, console_on_nothing, console_on_screen};
pub use word_run::{RanOn, run_words};
