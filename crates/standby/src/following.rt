// The records of a ship text, committed to a store one after another.
ghost use Rattle.std.specs.Prelude.{◌≡◌, ◌↔◌, ◌+◌, ◌≤◌, ◌<◌, All, length, IsTrue, IfSome, IfNone, Err, OnErr};
ghost use Rattle.standby.specs.Below.{IsUsable, line_bytes, total};
ghost use Rattle.standby.specs.State.{IsLongAt, due};
ghost use Rattle.standby.specs.Followed.{FollowsShip, IsAlike, FollowsAll, IsFitting, IsBegun, KeepsEach, KeepsOne, put_result};
ghost use Rattle.standby.specs.TextPut.{PutsAtOnce};
ghost use Rattle.standby.specs.Text.{IsShip, ship_content, record_of};

use super::ship_filling::{fill_end, fill_kept};
use super::text::{Ship, ShipRecord};
use outside::{Failed, Outside};
use store::{Durable, Kept};
use store_format::lines_bytes;
use text_line::TextLine;

/// How the records of a text were followed.
#[derive(Clone, Copy)]
pub enum Followed {
    /// To the last.
    Done,
    /// Not at all: the text is of a store with lines of another size, or with more or fewer of them.
    Geometry,
    /// Not at all: the store's number isn't among the text's.
    NotKept,
    /// Not at all: the record with this number, the first such, has more lines than a record of the store may have.
    Long(u64),
    /// To one that the disk didn't keep.
    DiskFault,
    /// To one whose line wasn't put.
    PutFault,
}

/// Commits the records of a text after the store's number, each with a line that tells of it once it is durable, and tells
/// the number at the end (docs/FORMATS.md, "Ship text"). It takes no memory.
pub fn follow<W: Outside>(durable: &mut Durable, ship: &Ship, outside: &mut W) -> Followed
    requires ship { IsShip ship.now }
    requires store { IsUsable W.Outside (total durable.old.header) durable.old.bank outside.old }
    ensures { FollowsShip W.Outside ship.now durable.old durable.new outside.old outside.new result }
{
    if !is_alike(durable, ship) {
        return Followed::Geometry;
    }
    let passed = durable.number().wrapping_sub(ship.start);
    if passed > ship.records.len() as u64 {
        return Followed::NotKept;
    }
    let due = &ship.records[passed as usize..];
    match long_among(due, durable.header().most_lines()) {
        Some(place) => Followed::Long(durable.number().wrapping_add(place as u64 + 1)),
        None => match keep_all(durable, due, outside) {
            Ok(()) => Followed::Done,
            Err(why) => why,
        },
    }
}

/// Whether a text is of a store with as many lines, of the same size.
fn is_alike(durable: &Durable, ship: &Ship) -> bool
    ensures { IsTrue result ↔ IsAlike durable.now.header (ship_content ship.now) }
{
    let header = durable.header();
    usize::from(ship.line_bytes) == header.line_bytes()
        && ship.lines == header.directory().line_count()
}

/// The place of the first of these records with more than so many lines.
fn long_among(records: &[ShipRecord], most: u32) -> Option<usize>
    ensures none { IfNone result (All (λ kept. length kept.lines.items ≤ most) records.now) }
    ensures first { IfSome result (IsLongAt most records.now) }
    ensures within { IfSome result (λ place. place < length records.now) }
{
    for (place, record) in records.iter().enumerate() {
        if record.lines.len() > most as usize {
            return Some(place);
        }
    }
    None
}

/// Commits these records, and puts a line for each and the last.
fn keep_all<W: Outside>(
    durable: &mut Durable,
    records: &[ShipRecord],
    outside: &mut W,
) -> Result<(), Followed>
    requires fitting { All (IsFitting durable.old.header) records.now }
    requires store { IsUsable W.Outside (total durable.old.header) durable.old.bank outside.old }
    ensures { FollowsAll W.Outside records.now durable.old durable.new outside.old outside.new result }
{
    let mut text = TextLine::new();
    match keep_each(durable, records, &mut text, outside) {
        Ok(()) => {}
        Err(why) => return Err(why),
    }
    fill_end(&mut text, durable.number());
    put_line(text.as_slice(), outside)
}

/// Commits these records, and puts a line for each.
fn keep_each<W: Outside>(
    durable: &mut Durable,
    records: &[ShipRecord],
    text: &mut TextLine,
    outside: &mut W,
) -> Result<(), Followed>
    requires fitting { All (IsFitting durable.old.header) records.now }
    requires store { IsUsable W.Outside (total durable.old.header) durable.old.bank outside.old }
    ensures { KeepsEach W.Outside records.now durable.old durable.new outside.old outside.new result }
{
    for record in records {
        match keep(durable, record, text, outside) {
            Ok(()) => {}
            Err(why) => return Err(why),
        }
    }
    Ok(())
}

/// Commits a record, and then puts its line.
fn keep<W: Outside>(
    durable: &mut Durable,
    sent: &ShipRecord,
    text: &mut TextLine,
    outside: &mut W,
) -> Result<(), Followed>
    requires fitting { IsFitting durable.old.header sent.now }
    requires store { IsUsable W.Outside (total durable.old.header) durable.old.bank outside.old }
    ensures { KeepsOne W.Outside sent.now durable.old durable.new outside.old outside.new result }
{
    begin(durable, sent);
    match durable.commit(outside) {
        Kept::Done => {}
        Kept::Unwritten | Kept::Doubt => return Err(Followed::DiskFault),
    }
    fill_kept(text, durable.number());
    put_line(text.as_slice(), outside)
}

/// Begins a record with the lines of one of a text.
fn begin(durable: &mut Durable, sent: &ShipRecord)
    requires { IsFitting durable.old.header sent.now }
    ensures { IsBegun durable.old durable.new (record_of (line_bytes durable.old.header.directory.page) sent.now) }
{
    let bytes = durable.header().line_bytes();
    let page = durable.header().directory().page();
    durable.record_start();
    for (index, line) in sent.lines.iter().enumerate() {
        let at = lines_bytes(page, index as u32) as usize;
        durable.record_line(*line, &sent.bytes[at..at + bytes]);
    }
}

fn put_line<W: Outside>(line: &[u8], outside: &mut W) -> Result<(), Followed>
    ensures only { OnErr result (result ≡ Err Followed.PutFault) }
    ensures puts { PutsAtOnce W.Outside line.now outside.old outside.new (put_result result) }
{
    match outside.put(line) {
        Ok(()) => Ok(()),
        Err(Failed) => Err(Followed::PutFault),
    }
}
