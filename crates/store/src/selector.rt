// The byte that chooses a bank.
ghost use Rattle.std.specs.Prelude.{◌≡◌, ◌∷◌, []};
ghost use Rattle.store.specs.Below.{AsksFor, chosen};
ghost use Rattle.store.specs.Held.{HoldsAtLeast, WritesSure};
ghost use Rattle.store.specs.Chosen.{other, selector_of};

use super::keep::write_sure;
use outside::{Failed, Outside};
use store_format::Which;

/// Where the selector lies.
const SELECTOR_AT: u64 = 128;

/// The other bank of a store.
pub fn other_of(which: Which) -> Which
    ensures { result ≡ other which }
{
    match which {
        Which::A => Which::B,
        Which::B => Which::A,
    }
}

/// Which bank the selector chooses.
pub fn read_selector<W: Outside>(outside: &mut W) -> Result<Which, Failed>
    requires room { HoldsAtLeast W.Outside 129 outside.old }
    ensures { AsksFor W.Outside (λ held which. chosen held ≡ which) outside.old outside.new result }
{
    let mut selector = [0; 1];
    outside.read_at(SELECTOR_AT, &mut selector)?;
    if selector[0] == 1 {
        Ok(Which::B)
    } else {
        Ok(Which::A)
    }
}

/// Chooses a bank, and makes it durable.
pub fn write_selector<W: Outside>(outside: &mut W, which: Which) -> Result<(), Failed>
    requires { HoldsAtLeast W.Outside 129 outside.old }
    ensures { WritesSure W.Outside 128 (selector_of which ∷ []) outside.old outside.new result }
{
    write_sure(outside, SELECTOR_AT, &[selector_of(which)])
}

fn selector_of(which: Which) -> u8
    ensures { result ≡ selector_of which }
{
    match which {
        Which::A => 0,
        Which::B => 1,
    }
}
