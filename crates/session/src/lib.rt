//! The supervisor: up to sixteen programs side by side over one store on a disk. It answers each event of a schedule as the desk
//! does (docs/MODEL.md, "The desk"), commits through the store's journal, and finds the committed bytes again after a crash.
#![tactic(auto)]

mod calls;
mod commits;
mod session;
mod shown_laws;
mod turn_end;

pub use session::Session;
pub use shown_laws::{
    cycles_were_met, shown_desks_are_consistent, shown_desks_are_isolated, shown_turns_end,
    somebody_goes_on,
};
