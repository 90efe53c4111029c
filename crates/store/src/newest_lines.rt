// Pages of the committed store: home lines, with the newest lines of the bank over them.
ghost use Rattle.std.specs.Prelude.{◌≡◌, ◌+◌, ◌≤◌, ◌<◌, length, slice_index_or, None, IsSome, IfSome, OnOk};
ghost use Rattle.store.specs.Below.{bytes_at, FailsOnlyCounted, held_of, OnlyAsks, overlaid};
ghost use Rattle.store.specs.Held.{HoldsAtLeast};
ghost use Rattle.store.specs.Kept.{area_end, line_bytes_of, newest_over};

use super::checkpoint::Banks;
use outside::{Failed, Outside};

/// Reads the newest bytes of a line, where the bank holds it, over a part of a page.
pub fn read_newest<W: Outside>(
    banks: &Banks,
    outside: &mut W,
    line: u32,
    page: &mut [u8],
    at: usize,
) -> Result<(), Failed>
    requires room { HoldsAtLeast W.Outside (area_end banks.now) outside.old }
    requires below { line < length banks.now.newest }
    requires within { at + line_bytes_of banks.now ≤ length page.old }
    ensures asks { OnlyAsks W.Outside outside.old outside.new }
    ensures placed { IfSome (slice_index_or banks.now.newest line None) (λ place. place + line_bytes_of banks.now ≤ area_end banks.now) }
    ensures read { OnOk result (IsSome (W.held outside.old) → page.new ≡ newest_over (line_bytes_of banks.now) (held_of W.Outside outside.old) (slice_index_or banks.now.newest line None) page.old at) }
    ensures cause { FailsOnlyCounted (W.disk_faults outside.old) (W.disk_faults outside.new) result }
{
    match banks.newest(line) {
        None => Ok(()),
        Some(place) => read_line(outside, place, page, at, banks.line_bytes()),
    }
}

/// Reads the bytes of a line, so many, at a place of the disk over a part of a page.
fn read_line<W: Outside>(
    outside: &mut W,
    place: u64,
    page: &mut [u8],
    at: usize,
    count: usize,
) -> Result<(), Failed>
    requires room { HoldsAtLeast W.Outside (place + count) outside.old }
    requires within { at + count ≤ length page.old }
    ensures asks { OnlyAsks W.Outside outside.old outside.new }
    ensures read { OnOk result (IsSome (W.held outside.old) → page.new ≡ overlaid page.old at (bytes_at (held_of W.Outside outside.old) place count)) }
    ensures cause { FailsOnlyCounted (W.disk_faults outside.old) (W.disk_faults outside.new) result }
{
    let (_, rest) = page.split_at_mut(at);
    let (line, _) = rest.split_at_mut(count);
    outside.read_at(place, line)
}
