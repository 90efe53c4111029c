ghost use Rattle.std.specs.Prelude.{◌≡◌, ℕ, ◌<◌, ◌≤◌, ◌^◌, length};
ghost use Rattle.std.specs.Option.{SomeIff};
ghost use Rattle.std.specs.Str.Parse.{AllDigits, digits_value};
ghost use Rattle.asm_parse.specs.Number.{radix_number, literal_number};

/// The number that a run of letters and digits writes, if it is one of at most 32 bits.
///
/// It is decimal, or `0x` and hexadecimal digits of either case.
pub(crate) fn number_of(run: &[u8]) -> Option<u32>
    ensures { result ≡ literal_number run.now }
{
    match run.strip_prefix(b"0x") {
        Some(digits) => number_in(digits, 16),
        None => number_in(run, 10),
    }
}

/// The number that digits write, if there is one and it has at most 32 bits.
#[tactic(auto, using(crate::proofs::NumberLemmas::as_number))]
fn number_in(digits: &[u8], radix: u32) -> Option<u32>
    requires { (2 ≤ radix) × (radix ≤ 36) }
    ensures { result ≡ radix_number radix digits.now }
{
    if digits.is_empty() {
        return None;
    }
    value_of(digits, radix)
}

/// The number that digits write, if it has at most 32 bits.
fn value_of(digits: &[u8], radix: u32) -> Option<u32>
    requires { (2 ≤ radix) × (radix ≤ 36) }
    ensures { SomeIff result (AllDigits radix digits.now × (digits_value radix digits.now < 2 ^ 32))
        (digits_value radix digits.now) }
{
    let mut number: u32 = 0;
    for byte in digits {
        let digit = char::from(*byte).to_digit(radix)?;
        number = number.checked_mul(radix)?.checked_add(digit)?;
    }
    Some(number)
}
