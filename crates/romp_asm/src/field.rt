ghost use Rattle.std.specs.Prelude.{◌≡◌, ℤ, pos, ◌+ℤ◌, ◌≤ℤ◌, ◌*◌, ◌%◌, ◌≤◌, ◌<◌, IfSome};
ghost use Rattle.romp_table.specs.Encode.{field_bits};
ghost use Rattle.romp_asm.specs.Value.{is_between};
ghost use Rattle.romp_asm.specs.Field.{at_most, even_at_most, half_of, is_even, number_field, relative, scales_in, short_field, signed_field};

/// A label or `.entry` that is repeated.
pub(crate) const DUPLICATE: u8 = 5;
/// No statement has the label.
pub(crate) const UNKNOWN_LABEL: u8 = 6;
/// A value is out of its range.
pub(crate) const OUT_OF_REACH: u8 = 7;
/// The image passes 16,384 bytes.
pub(crate) const IMAGE_TOO_LONG: u8 = 8;
/// A window's register or segment may not be used.
pub(crate) const WINDOW: u8 = 9;

/// Whether a number lies from `-below` to `above`.
pub(crate) fn is_between(below: u32, above: u32, value: i64) -> bool
    ensures { result ≡ is_between below above value }
{
    -i64::from(below) <= value && value <= i64::from(above)
}

/// A number from 0 to the greatest.
pub(crate) fn at_most(most: u32, value: i64) -> Option<u32>
    ensures value { result ≡ at_most most value }
    ensures small { IfSome result (λ number. number ≤ most) }
{
    if value < 0 || value > i64::from(most) {
        None
    } else {
        Some(value as u32)
    }
}

/// A number that isn't above the greatest.
pub(crate) fn number_field(most: u8, number: u8) -> Option<u8>
    ensures value { result ≡ number_field most number }
    ensures small { IfSome result (λ field. field ≤ most) }
{
    if number <= most { Some(number) } else { None }
}

/// The sixteen bits of a number from -32,768 to 32,767.
pub(crate) fn signed_field(value: i64) -> Option<u16>
    ensures { result ≡ signed_field value }
{
    if !is_between(32_768, 32_767, value) {
        None
    } else if value < 0 {
        Some((value + 0x1_0000) as u16)
    } else {
        Some(value as u16)
    }
}

/// Whether a number is even.
fn is_even(value: i64) -> bool
    ensures { result ≡ is_even value }
{
    value % 2 == 0
}

/// The half of an even number.
fn half_of(value: i64) -> i64
    ensures { result ≡ half_of value }
{
    value / 2
}

/// Half the distance from a branch to its target, if both are even and the distance lies from `-below` to `above`.
pub(crate) fn relative(below: u32, above: u32, at: u32, target: i64) -> Option<i64>
    ensures value { result ≡ relative below above at target }
    ensures low { IfSome result (λ half. pos 0 ≤ℤ (half +ℤ half +ℤ pos below)) }
    ensures high { IfSome result (λ half. (half +ℤ half) ≤ℤ pos above) }
{
    let distance = target.checked_sub(i64::from(at))?;
    if is_even(target) && is_even(distance) && is_between(below, above, distance) {
        Some(half_of(distance))
    } else {
        None
    }
}

/// An even address that isn't above the greatest.
pub(crate) fn even_at_most(most: u32, value: i64) -> Option<u32>
    ensures value { result ≡ even_at_most most value }
    ensures small { IfSome result (λ number. number ≤ most) }
    ensures even { IfSome result (λ number. number % 2 ≡ 0) }
{
    if is_even(value) {
        at_most(most, value)
    } else {
        None
    }
}

/// A short displacement: a multiple of the scale, from 0 to 15 times it.
pub(crate) fn short_field(scale: u8, value: i64) -> Option<u8>
    requires { 1 ≤ scale }
    ensures value { result ≡ short_field scale value }
    ensures small { IfSome result (λ field. field < 16) }
{
    let number = at_most(15 * u32::from(scale), value)?;
    if number % u32::from(scale) == 0 {
        Some((number / u32::from(scale)) as u8)
    } else {
        None
    }
}
