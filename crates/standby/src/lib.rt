//! A second store that follows the first record by record, through a text (docs/FORMATS.md, "Ship text"): the words `ship`
//! and `follow`.
#![tactic(auto)]

mod digit_reading;
mod follow_call;
mod following;
mod ship_call;
mod ship_filling;
mod ship_law;
mod ship_reading;
mod shipping;
mod text;

pub use follow_call::follow_source;
pub use following::{Followed, follow};
pub use ship_call::ship_store;
pub use ship_law::a_text_holds_one_content;
pub use ship_reading::read_ship;
pub use shipping::{Shipped, ship};
pub use text::{Ship, ShipFault, ShipRecord};
