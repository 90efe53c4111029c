// The records of a bank behind a number, put as a text.
ghost use Rattle.std.specs.Prelude.{◌≡◌, ◌+◌, ◌<◌, ◌⊎◌, Err, OnErr};
ghost use Rattle.standby.specs.Below.{IsUsable, line_count, record_bytes, total};
ghost use Rattle.standby.specs.TextPut.{PutsAtOnce};
ghost use Rattle.standby.specs.Shipped.{FindsPlace, MayShip, ShipsContent, ShipsLine, ShipsRecord, ShipsRecords, ShipsStore, shipped};
ghost use Rattle.standby.specs.State.{behind};
ghost use Rattle.standby.specs.Followed.{put_result};
ghost use Rattle.standby.specs.Text.{later};

use super::ship_filling::{fill_end, fill_head, fill_line, fill_record};
use outside::{Failed, Outside};
use store::{Durable, Record};
use text_line::TextLine;

/// How the records of a store were shipped.
#[derive(Clone, Copy)]
pub enum Shipped {
    /// To the last.
    Done,
    /// Not at all: the bank doesn't keep all records after the number.
    NotKept,
    /// To one that the disk didn't give.
    DiskFault,
    /// To a line that wasn't put.
    PutFault,
}

/// Puts the records that the chosen bank has after a number, as a ship text (docs/FORMATS.md, "Ship text"). It only asks
/// the disk, and takes no memory.
pub fn ship<W: Outside>(durable: &Durable, outside: &mut W, from: u64) -> Shipped
    requires store { IsUsable W.Outside (total durable.now.header) durable.now.bank outside.old }
    ensures { ShipsStore W.Outside durable.now from outside.old outside.new result }
{
    let passed = from.wrapping_sub(durable.base());
    if passed > u64::from(durable.records()) {
        return Shipped::NotKept;
    }
    let lines = durable.header().directory().line_count();
    match put_text(durable, passed as u32, from, lines, outside) {
        Ok(()) => Shipped::Done,
        Err(why) => why,
    }
}

/// Puts the text of the records after so many, the last of which has this number.
fn put_text<W: Outside>(
    durable: &Durable,
    passed: u32,
    from: u64,
    lines: u32,
    outside: &mut W,
) -> Result<(), Shipped>
    requires may { MayShip W.Outside durable.now passed outside.old }
    requires lines { lines ≡ line_count durable.now.header.directory }
    requires from { from ≡ later durable.now.bank.base passed }
    requires behind { passed ≡ behind durable.now.bank.base from }
    ensures { ShipsContent W.Outside durable.now from outside.old outside.new result }
{
    let place = match place_behind(durable, passed, outside) {
        Ok(place) => place,
        Err(why) => return Err(why),
    };
    let mut text = TextLine::new();
    fill_head(
        &mut text,
        durable.header().directory().line_bytes(),
        lines,
        from,
    );
    match put_line(text.as_slice(), outside) {
        Ok(()) => {}
        Err(why) => return Err(why),
    }
    match put_records(durable, passed, place, &mut text, outside) {
        Ok(()) => {}
        Err(why) => return Err(why),
    }
    fill_end(&mut text, durable.number());
    put_line(text.as_slice(), outside)
}

/// The place of the gate after so many records.
fn place_behind<W: Outside>(durable: &Durable, passed: u32, outside: &mut W) -> Result<u32, Shipped>
    requires { MayShip W.Outside durable.now passed outside.old }
    ensures { FindsPlace W.Outside durable.now passed outside.old outside.new result }
{
    let mut place = 0;
    for _index in 0..passed {
        match durable.record_at(outside, place) {
            Ok(record) => place = record.next,
            Err(Failed) => return Err(Shipped::DiskFault),
        }
    }
    Ok(place)
}

/// Puts the records after so many, the first of which has its gate at a place.
fn put_records<W: Outside>(
    durable: &Durable,
    passed: u32,
    place: u32,
    text: &mut TextLine,
    outside: &mut W,
) -> Result<(), Shipped>
    requires may { MayShip W.Outside durable.now passed outside.old }
    requires inside { place < durable.now.header.bank_bytes }
    ensures { ShipsRecords W.Outside durable.now passed place outside.old outside.new result }
{
    let mut place = place;
    for index in passed..durable.records() {
        let record = match durable.record_at(outside, place) {
            Ok(record) => record,
            Err(Failed) => return Err(Shipped::DiskFault),
        };
        let number = durable.base().wrapping_add(u64::from(index) + 1);
        match put_record(durable, number, &record, text, outside) {
            Ok(()) => place = record.next,
            Err(why) => return Err(why),
        }
    }
    Ok(())
}

/// Puts a record with this number.
fn put_record<W: Outside>(
    durable: &Durable,
    number: u64,
    entry: &Record,
    text: &mut TextLine,
    outside: &mut W,
) -> Result<(), Shipped>
    requires store { IsUsable W.Outside (total durable.now.header) durable.now.bank outside.old }
    requires fits { (entry.now.count ≡ 0) ⊎ (entry.now.place + record_bytes durable.now.header.directory.page entry.now.count < durable.now.header.bank_bytes) }
    ensures { ShipsRecord W.Outside durable.now number entry.now outside.old outside.new result }
{
    fill_record(text, number, u32::from(entry.count));
    match put_line(text.as_slice(), outside) {
        Ok(()) => {}
        Err(why) => return Err(why),
    }
    for index in 0..entry.count {
        match put_one(durable, entry, index, text, outside) {
            Ok(()) => {}
            Err(why) => return Err(why),
        }
    }
    Ok(())
}

/// Puts a line of a record.
fn put_one<W: Outside>(
    durable: &Durable,
    entry: &Record,
    index: u16,
    text: &mut TextLine,
    outside: &mut W,
) -> Result<(), Shipped>
    requires store { IsUsable W.Outside (total durable.now.header) durable.now.bank outside.old }
    requires fits { entry.now.place + record_bytes durable.now.header.directory.page entry.now.count < durable.now.header.bank_bytes }
    requires below { index < entry.now.count }
    ensures { ShipsLine W.Outside durable.now entry.now index outside.old outside.new result }
{
    let mut room = [0; 256];
    let bytes = &mut room[..durable.header().line_bytes()];
    let line = match durable.line_at(outside, entry, index, bytes) {
        Ok(line) => line,
        Err(Failed) => return Err(Shipped::DiskFault),
    };
    fill_line(text, line, bytes);
    put_line(text.as_slice(), outside)
}

fn put_line<W: Outside>(line: &[u8], outside: &mut W) -> Result<(), Shipped>
    ensures only { OnErr result (result ≡ Err Shipped.PutFault) }
    ensures puts { PutsAtOnce W.Outside line.now outside.old outside.new (put_result result) }
{
    match outside.put(line) {
        Ok(()) => Ok(()),
        Err(Failed) => Err(Shipped::PutFault),
    }
}
