// The bytes of a record.
ghost use Rattle.std.specs.Prelude.{◌≡◌, ◌+◌, ◌*◌, ◌++◌, ◌≤◌, ◌<◌, ◌^◌, length, take, drop, slice_index, None};
ghost use Rattle.store.specs.Below.{big_bytes, body_lines, entry_bytes, number_at, wrong_line};
ghost use Rattle.store.specs.Kept.{noted, StaysWithin};
ghost use Rattle.store.specs.Turned.{head_bytes};

use crate::places::Places;
use byteorder::{BigEndian, ByteOrder};
use lines::{OwnedList, PageSize};
use store_format::entries_bytes;

/// Fills in the count and the number of a record, and the closed gate after it.
pub fn fill(body: &mut OwnedList<u8>, page: PageSize, count: u16, due: u64)
    requires { 11 + entry_bytes page * count ≤ length body.old }
    ensures len { length body.new ≡ length body.old }
    ensures counted { number_at body.new 0 2 ≡ count }
    ensures numbered { number_at body.new 2 8 ≡ due }
    ensures lines { take (entry_bytes page * count) (drop 10 body.new) ≡ take (entry_bytes page * count) (drop 10 body.old) }
    ensures closed { slice_index body.new (10 + entry_bytes page * count) ≡ 0 }
{
    let head = head_of(count, due);
    body.write(0, &head);
    body.write(10 + entries_bytes(page, count) as usize, &[0]);
}

/// The count and the number of a record.
fn head_of(count: u16, due: u64) -> [u8; 10]
    ensures { result ≡ big_bytes 2 count ++ big_bytes 8 due }
{
    let mut head = [0; 10];
    BigEndian::write_u16(&mut head, count);
    BigEndian::write_u64(&mut head[2..], due);
    head
}

/// What a bank without records begins with.
pub fn head_of_bank(base: u64) -> [u8; 9]
    ensures { result ≡ head_bytes base }
{
    let mut head = [0; 9];
    BigEndian::write_u64(&mut head, base);
    head
}

/// The number of a line, as it lies in a record.
pub fn word(number: u32) -> [u8; 4]
    ensures { result ≡ big_bytes 4 number }
{
    let mut bytes = [0; 4];
    BigEndian::write_u32(&mut bytes, number);
    bytes
}

/// Notes the places of the lines of a record after a gate.
pub fn note(newest: &mut Places, body: &[u8], page: PageSize, gate: u64, count: u16)
    requires gate { gate < 2 ^ 20 }
    requires body { 10 + entry_bytes page * count ≤ length body.now }
    requires ordered { wrong_line (length newest.old) 0 (body_lines page count gate body.now) ≡ None }
    ensures value { newest.new ≡ noted newest.old (body_lines page count gate body.now) }
    ensures len { length newest.new ≡ length newest.old }
    ensures placed { StaysWithin page (gate + 11 + entry_bytes page * count) newest.old newest.new }
{
    for i in 0..count {
        let at = entries_bytes(page, i) as usize;
        let line = BigEndian::read_u32(&body[10 + at..]);
        newest.write(line as usize, gate + 15 + at as u64);
    }
}
