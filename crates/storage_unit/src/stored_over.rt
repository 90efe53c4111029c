// The rows that are known, and the bytes that were used, where private bytes are stored.
ghost use Rattle.std.specs.Prelude.{◌≡◌, ℕ, ◌+◌, ◌/◌, ◌%◌, ◌≤◌, ◌<◌, ◌^◌, if◌then◌else◌, length, slice_index, None};
ghost use Rattle.storage_unit.specs.Below.{known, KnowsNoLine};
ghost use Rattle.storage_unit.specs.ReadyRows.{after_store};
ghost use Rattle.storage_unit.specs.Cleared.{AreUsed};

use page_table::OpenLines;
use ready_rows::ReadyRows;

/// The bytes of the private frames, which are the first of all.
const PRIVATE_BYTES: usize = 16 * 16384;

/// So many bytes are stored from a spot on: where that one is private, no row that has one of them stays known.
#[inline(always)]
pub(super) fn drop_rows(rows: &mut ReadyRows, spot: usize, bytes: usize)
    requires within { spot < 2 ^ 18 → spot % 16384 + bytes ≤ 16384 }
    ensures { (at : ℕ) → known rows.new at ≡ after_store spot bytes at (known rows.old at) }
{
    if spot < PRIVATE_BYTES {
        rows.drop_at((spot % 16384) as u32, bytes as u32);
    }
}

/// No line is known any more, and no row, unless they stay.
pub(super) fn forget_unless(rows: &mut ReadyRows, lines: &mut OpenLines, stay: bool)
    ensures lines { KnowsNoLine lines.new }
    ensures rows { (at : ℕ) → known rows.new at ≡ (if stay then known rows.old at else None) }
{
    lines.forget();
    if !stay {
        rows.forget();
    }
}

/// So many bytes are stored from a spot on: where that one is private, those of its seat up to the last of them are used.
#[inline(always)]
pub(super) fn use_bytes(used: &mut [u32; 16], spot: usize, bytes: usize)
    requires within { spot < 2 ^ 18 → spot % 16384 + bytes ≤ 16384 }
    requires used { (seat : ℕ) → slice_index used.old seat ≤ 16384 }
    requires sixteen { length used.old ≡ 16 }
    ensures shared { 2 ^ 18 ≤ spot → used.new ≡ used.old }
    ensures private { spot < 2 ^ 18 → AreUsed used.old used.new (spot / 16384) (spot % 16384 + bytes) }
{
    if spot < PRIVATE_BYTES {
        let end = (spot % 16384 + bytes) as u32;
        let held = &mut used[spot / 16384];
        if *held < end {
            *held = (end + 511) / 512 * 512;
        }
    }
}
