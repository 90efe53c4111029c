ghost use Rattle.std.specs.Prelude.{◌≡◌, ◌<◌, ◌≤◌, ℕ, Bool, ◌/◌, ◌+◌, ◌%◌, ◌^◌, length, slice_index, true};
ghost use Rattle.page_table.specs.LinePlaces.{block_place};

/// The last time, at which no line is kept.
const LAST: u64 = 0x8000_0000_0000_0000;

/// Open lines, each at one of 64 places by its block of 128 addresses (`place_of`), with the spot of its first byte among the
/// bytes of all frames. It is known by a tag, which is its block's number and the time at which it was kept, and by another
/// one where it may be stored to. To forget all of them is another time.
#[derive(Drop)]
pub struct OpenLines {
    time: u64,
    loads: [u64; 64],
    stores: [u64; 64],
    spots: [u32; 64],
    ghost loads_sized: { length loads ≡ 64 },
    ghost stores_sized: { length stores ≡ 64 },
    ghost spots_sized: { length spots ≡ 64 },
    ghost begun: { 2 ^ 32 ≤ time },
    ghost ended: { time ≤ 2 ^ 63 },
    ghost whole: { time % 2 ^ 32 ≡ 0 },
    ghost loads_past: { (place : ℕ) → slice_index loads place < time + 2 ^ 32 },
    ghost stores_past: { (place : ℕ) → slice_index stores place < time + 2 ^ 32 },
    ghost loads_low: { (place : ℕ) → slice_index loads place < 2 ^ 63 },
    ghost stores_low: { (place : ℕ) → slice_index stores place < 2 ^ 63 },
}

impl OpenLines {
    ghost use Rattle.page_table.specs.KnownLines.{known, KnowsNoLine, with_known_line};

    /// No line is known.
    #[tactic(auto, unfolding(crate::specs::KnownLines::known))]
    pub fn new() -> OpenLines
        ensures { KnowsNoLine result }
    {
        OpenLines {
            time: 0x1_0000_0000,
            loads: [0; 64],
            stores: [0; 64],
            spots: [0; 64],
        }
    }

    /// The spot of the line that is known at a block, to be stored to where that is asked.
    #[tactic(auto, unfolding(crate::specs::KnownLines::known))]
    #[inline(always)]
    pub fn at(&self, block: u32, store: bool) -> Option<u32>
        ensures { result ≡ known self.now store block }
    {
        let place = place_of(block);
        let tag = if store {
            self.stores[place]
        } else {
            self.loads[place]
        };
        if tag == self.time + u64::from(block) {
            Some(self.spots[place])
        } else {
            None
        }
    }

    /// A line is known at an address from now on, to be stored to where that is told. The one that was at its place is forgotten.
    #[tactic(auto, unfolding(crate::specs::KnownLines::known))]
    #[inline]
    pub fn keep(&mut self, address: u32, spot: u32, write: bool)
        ensures { (store : Bool) (at : ℕ) → known self.new store at ≡ with_known_line (address / 128) spot write store at (known self.old store at) }
    {
        self.begin_again();
        let place = place_of(address / 128);
        let tag = self.time + u64::from(address / 128);
        self.spots[place] = spot;
        self.loads[place] = tag;
        self.stores[place] = if write { tag } else { 0 };
    }

    /// No line is known any more.
    #[tactic(auto, unfolding(crate::specs::KnownLines::known))]
    #[inline]
    pub fn forget(&mut self)
        ensures { KnowsNoLine self.new }
    {
        self.time = (self.time + 0x1_0000_0000).min(LAST);
    }

    /// The time isn't the last one, and what is known stays.
    #[tactic(auto, unfolding(crate::specs::KnownLines::known))]
    #[inline]
    fn begin_again(&mut self)
        ensures early { self.new.time < 2 ^ 63 }
        ensures known { (store : Bool) (at : ℕ) → known self.new store at ≡ known self.old store at }
    {
        if self.time == LAST {
            self.time = 0x1_0000_0000;
            self.loads = [0; 64];
            self.stores = [0; 64];
        }
    }
}

/// The place of the line at a block.
#[inline(always)]
fn place_of(block: u32) -> usize
    ensures value { result ≡ block_place block }
    ensures few { result < 64 }
{
    ((block % 64 + block / 0x20_0000) % 64) as usize
}
