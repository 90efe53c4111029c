ghost use Rattle.std.specs.Prelude.{◌<◌};

use flat_machine::Ready;

/// A row and its address; or, where no row is known, an address that is found at another place. It has sixteen bytes, so that
/// a place is found by a shift.
#[derive(Clone, Copy)]
pub struct Place {
    pub row: Ready,
    pub at: u64,
    ghost is_low: { at < 16384 },
}
