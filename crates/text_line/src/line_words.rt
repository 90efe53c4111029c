// The words of a line, read.
ghost use Rattle.std.specs.Prelude.{◌≡◌, ◌<◌, ◌^◌, ◌==◌, ℕ, length, decimal, position, IfSome};

/// The place of the first byte of a text that is this one.
pub fn place_of(byte: u8, text: &[u8]) -> Option<usize>
    ensures value { result ≡ position (λ other. other == byte) text.now }
    ensures inside { IfSome result (λ at. at < length text.now) }
{
    text.iter().position(|other| *other == byte)
}

/// The number that a word is; anything where it is none.
pub fn number(word: &[u8]) -> u64
    ensures { (n : ℕ) → n < 2 ^ 64 → word.now ≡ decimal n → result ≡ n }
{
    match str::from_utf8(word) {
        Ok(text) => text.parse::<u64>().unwrap_or(0),
        Err(_) => 0,
    }
}
