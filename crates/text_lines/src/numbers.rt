//! Numbers in words.

ghost use Rattle.std.specs.Prelude.{◌≡◌, ◌<◌, ◌≤◌, ◌^◌, IfSome, Some};
ghost use Rattle.text_lines.specs.Numbers.{number_upto, at_least, number_said, hex_value, both_digits, hex_byte};

/// A decimal number up to a limit, leading zeros allowed. No digits say 0.
pub fn number_upto(word: &[u8], limit: u64) -> Option<u64>
    requires { limit < 2 ^ 60 }
    ensures value { result ≡ number_upto limit word.now }
    ensures bound { IfSome result (λ n. n ≤ limit) }
{
    let mut value = 0;
    for b in word {
        if !b.is_ascii_digit() {
            return None;
        }
        value = 10 * value + (*b - b'0') as u64;
        if value > limit {
            return None;
        }
    }
    Some(value)
}

/// The decimal number that a word says, without a leading zero, where it is in a range.
#[tactic(auto, unfolding(crate::specs::Numbers::number_said))]
pub fn number(word: &[u8], least: u64, most: u64) -> Option<u64>
    requires { most < 2 ^ 60 }
    ensures value { result ≡ number_said least most word.now }
    ensures range { IfSome result (λ n. (least ≤ n) × (n ≤ most)) }
{
    match word {
        [] => None,
        [b'0', _, ..] => None,
        digits => at_least(least, number_upto(digits, most)),
    }
}

fn at_least(least: u64, n: Option<u64>) -> Option<u64>
    ensures value { result ≡ at_least least n }
    ensures low { IfSome result (λ n. least ≤ n) }
    ensures same { IfSome result (λ found. n ≡ Some found) }
{
    match n {
        Some(n) if n >= least => Some(n),
        _ => None,
    }
}

/// The value of a hexadecimal digit of either case.
pub fn hex_value(b: u8) -> Option<u8>
    ensures value { result ≡ hex_value b }
    ensures bound { IfSome result (λ n. n < 16) }
{
    match b {
        b'0'..=b'9' => Some(b - 48),
        b'A'..=b'F' => Some(b - 55),
        b'a'..=b'f' => Some(b - 87),
        _ => None,
    }
}

fn both_digits(high: Option<u8>, low: Option<u8>) -> Option<u8>
    requires high { IfSome high (λ n. n < 16) }
    requires low { IfSome low (λ n. n < 16) }
    ensures { result ≡ both_digits high low }
{
    match (high, low) {
        (Some(high), Some(low)) => Some(16 * high + low),
        _ => None,
    }
}

/// The byte of two hexadecimal digits.
#[tactic(auto, unfolding(crate::specs::Numbers::hex_byte))]
pub fn hex_byte(word: &[u8]) -> Option<u8>
    ensures { result ≡ hex_byte word.now }
{
    if word.len() != 2 {
        return None;
    }
    both_digits(hex_value(word[0]), hex_value(word[1]))
}
