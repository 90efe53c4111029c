// A record of a bank, found by its place in the area.
ghost use Rattle.std.specs.Prelude.{◌≡◌, ◌+◌, ◌<◌, ◌^◌, length, IfOk};
ghost use Rattle.store.specs.Below.{AsksFor, entry_bytes, FailsOnlyCounted, line_bytes, OnlyAsks, ReadsTold};
ghost use Rattle.store.specs.Held.{HoldsAtLeast};
ghost use Rattle.store.specs.Records.{IsCountedAt, IsFound, BeginsWithLine};

use byteorder::{BigEndian, ByteOrder};
use lines::PageSize;
use outside::{Failed, Outside};
use store_format::entries_bytes;

/// A record of a bank: where in the area its gate lies, how many lines it has, and where the gate after it lies.
#[derive(Clone, Copy)]
pub struct Record {
    pub place: u32,
    pub count: u16,
    pub next: u32,
}

/// Reads how many lines the record has whose gate lies at a place of an area. One that with a gate after it doesn't
/// fit the area is given with no lines, and nothing after it.
pub fn read_record<W: Outside>(
    outside: &mut W,
    page: PageSize,
    area: u64,
    bank_bytes: u32,
    place: u32,
) -> Result<Record, Failed>
    requires inside { place < bank_bytes }
    requires few { area + bank_bytes < 2 ^ 20 }
    requires room { HoldsAtLeast W.Outside (area + bank_bytes) outside.old }
    ensures asks { OnlyAsks W.Outside outside.old outside.new }
    ensures found { IfOk result (IsFound page bank_bytes place) }
    ensures read { ReadsTold W.Outside outside.old (IsCountedAt page area bank_bytes place) result }
    ensures cause { FailsOnlyCounted (W.disk_faults outside.old) (W.disk_faults outside.new) result }
{
    let none = Record {
        place,
        count: 0,
        next: 0,
    };
    if bank_bytes < place + 12 {
        return Ok(none);
    }
    let mut bytes = [0; 2];
    outside.read_at(area + u64::from(place) + 1, &mut bytes)?;
    let count = BigEndian::read_u16(&bytes);
    let next = place + 11 + entries_bytes(page, count);
    if next < bank_bytes {
        Ok(Record { place, count, next })
    } else {
        Ok(none)
    }
}

/// Reads a line of a record from where it lies: its number, and its bytes into the slice.
pub fn read_line<W: Outside>(
    outside: &mut W,
    page: PageSize,
    at: u64,
    into: &mut [u8],
) -> Result<u32, Failed>
    requires whole { length into.old ≡ line_bytes page }
    requires few { at < 2 ^ 63 }
    requires room { HoldsAtLeast W.Outside (at + entry_bytes page) outside.old }
    ensures { AsksFor W.Outside (BeginsWithLine page at into.new) outside.old outside.new result }
{
    let mut number = [0; 4];
    outside.read_at(at, &mut number)?;
    outside.read_at(at + 4, into)?;
    Ok(BigEndian::read_u32(&number))
}
