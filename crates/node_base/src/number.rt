//! Decimal numbers.
ghost use Rattle.std.specs.Prelude.{◌≡◌, ◌<◌, ◌^◌, ℕ, Some, IfSome};
ghost use Rattle.node_base.specs.Numbers.{decimal, with_digit, SpellsNumber};

/// The number that the bytes spell: one decimal digit or more and nothing else, leading zeros or not, below 2^64.
#[tactic(auto, using(crate::proofs::NumbersRead::spelled_of_read, crate::proofs::NumbersRead::read_of_spelled))]
pub fn read_decimal(bytes: &[u8]) -> Option<u64>
    ensures read { result ≡ decimal bytes.now }
    // the bytes are zeros and the number as it is written, and each number that they spell so is read
    ensures spelled { IfSome result (λ n. SpellsNumber n bytes.now) }
    ensures taken { (n : ℕ) → n < 2 ^ 64 → SpellsNumber n bytes.now → result ≡ Some n }
{
    digits_value(bytes)
}

/// The number that decimal digits spell.
fn digits_value(bytes: &[u8]) -> Option<u64>
    ensures { result ≡ decimal bytes.now }
{
    if bytes.is_empty() {
        return None;
    }
    let mut number = 0u64;
    for byte in bytes {
        number = with_digit(number, *byte)?;
    }
    Some(number)
}

/// A number with one more digit behind it.
fn with_digit(number: u64, byte: u8) -> Option<u64>
    ensures number { result ≡ with_digit number byte }
    ensures small { IfSome result (λ n. n < 2 ^ 64) }
{
    if !byte.is_ascii_digit() {
        return None;
    }
    number.checked_mul(10)?.checked_add(u64::from(byte - b'0'))
}
