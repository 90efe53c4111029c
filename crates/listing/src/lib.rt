//! The listing of a program, put on the screen a line at a time (docs/FORMATS.md, "Listing").
#![tactic(auto)]

mod put_listing;

pub use put_listing::{put_program, put_rows};
