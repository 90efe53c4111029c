// The records of a store behind a number, shipped.
ghost use Rattle.standby.specs.Below.{RoomEnds};
ghost use Rattle.standby.specs.ShipCalled.{IsOfShip, ShippedFrom};

use super::shipping::{Shipped, ship};
use call_status::Status;
use outside::Outside;
use std::alloc::Global;
use store::Durable;

/// Prints the records that the disk's store keeps after a number, as a ship text (docs/FORMATS.md, "Ship text").
pub fn ship_store<W: Outside>(alloc: Global, from: u64, outside: &mut W) -> Status
    ensures { RoomEnds W.Outside (ShippedFrom W.Outside from) IsOfShip outside.old outside.new result }
{
    let store = match Durable::open(alloc, outside) {
        Ok(store) => store,
        Err(fault) => return Status::from(fault),
    };
    match ship(&store, outside, from) {
        Shipped::Done => Status::Done,
        Shipped::NotKept => Status::NotKept(store.base(), store.number()),
        Shipped::DiskFault => Status::DiskFault,
        Shipped::PutFault => Status::PutFault,
    }
}
