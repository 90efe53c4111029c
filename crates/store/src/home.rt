// The newest bytes of the lines that a bank holds, written home.
ghost use Rattle.std.specs.Prelude.{◌≡◌, ◌+◌, ◌<◌, length, Some};
ghost use Rattle.store_format.specs.declared.header.Which.TheVariants as which;
ghost use Rattle.store.specs.Held.{HoldsAtLeast};
ghost use Rattle.store.specs.Kept.{line_bytes_of};
ghost use Rattle.store.specs.Committed.{home_place, store_bytes, CopiesLine, CopiesNewest, WritesHome};

use super::keep::write_once;
use super::redo_journal::Bank;
use outside::{Failed, Outside};
use store_format::lines_bytes;

/// Writes the newest bytes of each line that the bank holds to the line's home, ascending. It takes one read and one
/// write for each of them, through a buffer of one line, and no call for any other line.
pub fn write_home<W: Outside>(bank: &Bank, buffer: &mut [u8], outside: &mut W) -> Result<(), Failed>
    requires whole { length buffer.old ≡ line_bytes_of bank.now }
    requires room { HoldsAtLeast W.Outside (store_bytes bank.now) outside.old }
    ensures { WritesHome W.Outside bank.now outside.old outside.new result }
{
    let mut line = bank.first_held(0);
    while line < bank.lines() {
        copy_newest(bank, buffer, outside, line)?;
        line = bank.first_held(line + 1);
    }
    Ok(())
}

/// Writes the newest bytes of a line to its home, where the bank holds the line.
fn copy_newest<W: Outside>(
    bank: &Bank,
    buffer: &mut [u8],
    outside: &mut W,
    line: u32,
) -> Result<(), Failed>
    requires whole { length buffer.old ≡ line_bytes_of bank.now }
    requires below { line < length bank.now.newest }
    requires room { HoldsAtLeast W.Outside (store_bytes bank.now) outside.old }
    ensures { CopiesNewest W.Outside bank.now line outside.old outside.new result }
{
    match bank.newest(line) {
        None => Ok(()),
        Some(place) => copy_line(buffer, outside, place, home_place(bank, line)),
    }
}

fn home_place(bank: &Bank, line: u32) -> u64
    ensures { result ≡ home_place bank.now line }
{
    272 + 2 * u64::from(bank.bank_bytes()) + lines_bytes(bank.page(), line)
}

/// Writes as many bytes as a buffer has from one place of the disk to another.
fn copy_line<W: Outside>(
    buffer: &mut [u8],
    outside: &mut W,
    from: u64,
    to: u64,
) -> Result<(), Failed>
    requires from { HoldsAtLeast W.Outside (from + length buffer.old) outside.old }
    requires to { HoldsAtLeast W.Outside (to + length buffer.old) outside.old }
    ensures { CopiesLine W.Outside (length buffer.old) (Some from) to outside.old outside.new result }
{
    outside.read_at(from, buffer)?;
    write_once(outside, to, buffer)
}
