//! A store that is made, renewed, shown, or read whole, and a finished run that is checked: the words `new`, `new2`, `renew`,
//! `show`, `audit` and `trace`, and the store that `try` runs on.
#![tactic(auto)]

mod audit;
mod bundle_parts;
mod kept;
mod new;
mod renew;
mod show;
mod trace;
mod tried_store;
mod written;

pub use audit::audit_source;
pub use kept::{KeptFault, kept_store};
pub use new::make_store;
pub use renew::renew_store;
pub use show::{Range, show_range};
pub use trace::trace_source;
pub use tried_store::try_store;
