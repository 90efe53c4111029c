// A ship text that a store follows.
ghost use Rattle.standby.specs.Below.{Elapses, given, OnlyOpens};
ghost use Rattle.standby.specs.Text.{IsShip, ship_content};
ghost use Rattle.standby.specs.FollowCalled.{EndsFollowing, FollowsFrom, GivesShip, IsUncommitted, OnStore};

use super::following::{Followed, follow};
use super::ship_reading::read_ship;
use super::text::{Ship, ShipFault};
use call_status::{MOST_OF_JOB, Status, read_text};
use outside::{Outside, Source};
use std::alloc::Global;
use store::Durable;

/// Why a text isn't followed: it is no ship text, it is of another store, or a record is too long.
const NO_TEXT: u8 = 1;

const OTHER_STORE: u8 = 2;

const TOO_LONG: u8 = 3;

/// Commits the records of the source's ship text to the disk's store, and prints a line for each (docs/FORMATS.md, "Ship text").
pub fn follow_source<S: Source, W: Outside>(
    alloc: Global,
    source: &mut S,
    outside: &mut W,
) -> Status
    ensures { FollowsFrom S.Source W.Outside source.old source.new outside.old outside.new result }
{
    match ship_from(alloc, source) {
        Ok(ship) => follow_text(alloc, &ship, outside),
        Err(status) => status,
    }
}

/// The ship text that a source has.
fn ship_from<S: Source>(alloc: Global, source: &mut S) -> Result<Ship, Status>
    ensures { GivesShip (given S.Source source.old source.new) result }
{
    let text = read_text(alloc, source, MOST_OF_JOB)?;
    match read_ship(alloc, &text) {
        Ok(ship) => Ok(ship),
        Err(ShipFault::Bad(line)) => Err(Status::Stream(u64::from(line), NO_TEXT)),
        Err(ShipFault::Memory) => Err(Status::NoMemory),
    }
}

/// Lets the disk's store follow a text.
fn follow_text<W: Outside>(alloc: Global, ship: &Ship, outside: &mut W) -> Status
    requires { IsShip ship.now }
    ensures on { OnStore W.Outside (ship_content ship.now) outside.old outside.new result }
    ensures time { Elapses W.moment W.left_since outside.old outside.new }
    ensures refused { IsUncommitted result → OnlyOpens W.Outside outside.old outside.new }
    ensures ends { EndsFollowing W.Outside outside.old outside.new result }
{
    let mut store = match Durable::open(alloc, outside) {
        Ok(store) => store,
        Err(fault) => return Status::from(fault),
    };
    match follow(&mut store, ship, outside) {
        Followed::Done => Status::Done,
        Followed::Geometry => Status::Stream(1, OTHER_STORE),
        Followed::NotKept => Status::NotKept(
            ship.start,
            ship.start.wrapping_add(ship.records.len() as u64),
        ),
        Followed::Long(number) => Status::Stream(number, TOO_LONG),
        Followed::DiskFault => Status::DiskFault,
        Followed::PutFault => Status::PutFault,
    }
}
