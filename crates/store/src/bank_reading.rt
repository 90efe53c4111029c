// Reading the records of a bank.
ghost use Rattle.std.specs.Prelude.{◌≡◌, ◌+◌, ◌*◌, ◌<◌, ◌^◌, length, IfOk};
ghost use Rattle.store.specs.Below.{entry_bytes, FailsOnlyCounted, OnlyAsks};
ghost use Rattle.store.specs.Kept.{StaysWithin};
ghost use Rattle.store.specs.Held.{HoldsAtLeast};
ghost use Rattle.store.specs.Read.{IsNext, IsClosedIn, ReadsBank, ReadsGate, ReadsLines};

use crate::keep::OPEN;
use crate::places::Places;
use byteorder::{BigEndian, ByteOrder};
use lines::PageSize;
use outside::{Failed, Outside};
use store_format::entries_bytes;

/// What stands at a gate: nothing, a fault, or a record with a next gate.
#[derive(Clone, Copy)]
pub enum GateFound {
    Closed,
    Wrong(u64),
    Sound(u64),
}

/// What a bank holds: its base, the place of its closed gate and the number of its records, or a fault.
#[derive(Clone, Copy)]
pub enum BankFound {
    Holds { base: u64, gate: u64, count: u32 },
    Faulty(u64),
}

/// Reads the bank at a place, and notes the places of its lines.
pub fn read_bank<W: Outside>(
    outside: &mut W,
    newest: &mut Places,
    page: PageSize,
    at: u64,
    bank_bytes: u32,
) -> Result<BankFound, Failed>
    requires room { HoldsAtLeast W.Outside (at + 8 + bank_bytes) outside.old }
    requires few { at + 8 + bank_bytes < 2 ^ 20 }
    requires some { 0 < bank_bytes }
    ensures asks { OnlyAsks W.Outside outside.old outside.new }
    ensures len { length newest.new ≡ length newest.old }
    ensures within { IfOk result (IsClosedIn (at + 8) (at + 8 + bank_bytes)) }
    ensures placed { StaysWithin page (at + 8 + bank_bytes) newest.old newest.new }
    ensures found { ReadsBank W.Outside page at bank_bytes newest.old newest.new outside.old result }
    ensures cause { FailsOnlyCounted (W.disk_faults outside.old) (W.disk_faults outside.new) result }
{
    let mut head = [0; 8];
    outside.read_at(at, &mut head)?;
    let base = BigEndian::read_u64(&head);
    let end = at + 8 + u64::from(bank_bytes);
    let mut gate = at + 8;
    for count in 0..bank_bytes {
        let due = base.wrapping_add(u64::from(count) + 1);
        match read_gate(outside, newest, page, end, due, gate)? {
            GateFound::Closed => return Ok(BankFound::Holds { base, gate, count }),
            GateFound::Wrong(offset) => return Ok(BankFound::Faulty(offset)),
            GateFound::Sound(next) => gate = next,
        }
    }
    Ok(BankFound::Faulty(gate))
}

/// Reads the gate at a place of an area with this end, of which a record has this number.
fn read_gate<W: Outside>(
    outside: &mut W,
    newest: &mut Places,
    page: PageSize,
    end: u64,
    due: u64,
    gate: u64,
) -> Result<GateFound, Failed>
    requires inside { gate < end }
    requires room { HoldsAtLeast W.Outside end outside.old }
    requires few { end < 2 ^ 20 }
    ensures asks { OnlyAsks W.Outside outside.old outside.new }
    ensures len { length newest.new ≡ length newest.old }
    ensures next { IfOk result (IsNext gate end) }
    ensures placed { StaysWithin page end newest.old newest.new }
    ensures found { ReadsGate W.Outside page end due gate newest.old newest.new outside.old result }
    ensures cause { FailsOnlyCounted (W.disk_faults outside.old) (W.disk_faults outside.new) result }
{
    let mut first = [0; 1];
    outside.read_at(gate, &mut first)?;
    if first[0] != OPEN {
        return Ok(GateFound::Closed);
    }
    if end < gate + 11 {
        return Ok(GateFound::Wrong(gate));
    }
    let mut head = [0; 10];
    outside.read_at(gate + 1, &mut head)?;
    let count = BigEndian::read_u16(&head);
    let next = gate + 11 + u64::from(entries_bytes(page, count));
    if end < next + 1 {
        return Ok(GateFound::Wrong(gate + 1));
    }
    if BigEndian::read_u64(&head[2..]) != due {
        return Ok(GateFound::Wrong(gate + 3));
    }
    match read_lines(outside, newest, page, gate + 11, count)? {
        Some(offset) => Ok(GateFound::Wrong(offset)),
        None => Ok(GateFound::Sound(next)),
    }
}

/// Notes the places of so many lines from a place on. The answer is where the first wrong one lies.
fn read_lines<W: Outside>(
    outside: &mut W,
    newest: &mut Places,
    page: PageSize,
    at: u64,
    count: u16,
) -> Result<Option<u64>, Failed>
    requires room { HoldsAtLeast W.Outside (at + entry_bytes page * count) outside.old }
    requires few { at < 2 ^ 20 }
    ensures asks { OnlyAsks W.Outside outside.old outside.new }
    ensures len { length newest.new ≡ length newest.old }
    ensures placed { StaysWithin page (at + entry_bytes page * count) newest.old newest.new }
    ensures found { ReadsLines W.Outside page count at newest.old newest.new outside.old result }
    ensures cause { FailsOnlyCounted (W.disk_faults outside.old) (W.disk_faults outside.new) result }
{
    let mut least = 0;
    for i in 0..count {
        let place = at + u64::from(entries_bytes(page, i));
        let mut number = [0; 4];
        outside.read_at(place, &mut number)?;
        let line = BigEndian::read_u32(&number);
        if u64::from(line) < least || newest.len() <= line as usize {
            return Ok(Some(place));
        }
        newest.write(line as usize, place + 4);
        least = u64::from(line) + 1;
    }
    Ok(None)
}
