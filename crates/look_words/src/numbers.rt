//! Linear addresses in words.

ghost use Rattle.std.specs.Prelude.{◌≡◌};
ghost use Rattle.look_words.specs.Numbers.{hex_said, after_prefix, address_said};

use text_lines::hex_value;

fn hex_number(digits: &[u8]) -> Option<u32>
    ensures { result ≡ hex_said 0 digits.now }
{
    let mut value: u32 = 0;
    for b in digits {
        match hex_value(*b) {
            Some(digit) if value < 0x1000_0000 => value = 16 * value + digit as u32,
            _ => return None,
        }
    }
    Some(value)
}

/// The word without a `0x` at its front.
fn after_prefix(word: &[u8]) -> &[u8]
    ensures { result.now ≡ after_prefix word.now }
{
    match word {
        [b'0', b'x', digits @ ..] => digits,
        _ => word,
    }
}

/// The linear address that a word says.
pub fn address(word: &[u8]) -> Option<u32>
    ensures { result ≡ address_said word.now }
{
    let digits = after_prefix(word);
    if digits.is_empty() {
        None
    } else {
        hex_number(digits)
    }
}
