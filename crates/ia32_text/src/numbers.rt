//! Numbers in hexadecimal.

ghost use Rattle.std.specs.Prelude.{◌≡◌, ◌+◌, ◌*◌, ◌++◌, ◌∷◌, [], ◌≤◌, ◌<◌, ◌/◌, ◌%◌, ◌^◌, length, pos};
ghost use Rattle.run_trace.specs.Text.{hex_digit, hex2, hex4, hex8};
ghost use Rattle.ia32_text.specs.Numbers as spec;
ghost use Rattle.ia32_text.specs.Arguments.{by_label};
ghost use Rattle.ia32_text.specs.Text.{constant_text, value_text};

use crate::line::{Line, add};
use ia32_types::TEXT_ADDRESS;
use run_trace::{hex_digit, hex2, hex4, hex8};

/// The digit of a number below 16.
pub fn one_digit(n: u8, line: &mut Line)
    requires low { n < 16 }
    requires room { length line.old.items ≤ 300 }
    ensures text { line.new.items ≡ line.old.items ++ (hex_digit n ∷ []) }
    ensures len { length line.new.items ≡ length line.old.items + 1 }
{
    line.push(hex_digit(n));
}

/// Both digits.
pub fn two_digits(n: u8, line: &mut Line)
    requires { length line.old.items ≤ 300 }
    ensures text { line.new.items ≡ line.old.items ++ hex2 n }
    ensures len { length line.new.items ≡ length line.old.items + 2 }
{
    add(&hex2(n), line);
}

/// Both digits of each byte, after a blank.
pub fn add_bytes(bytes: &[u8], line: &mut Line)
    requires { length line.old.items + 3 * length bytes.now ≤ 300 }
    ensures text { line.new.items ≡ line.old.items ++ spec.bytes_text bytes.now }
    ensures len { length line.new.items ≡ length line.old.items + 3 * length bytes.now }
{
    for byte in bytes {
        add(b" ", line);
        two_digits(*byte, line);
    }
}

/// All four digits.
pub fn four_digits(n: u16, line: &mut Line)
    requires { length line.old.items ≤ 295 }
    ensures text { line.new.items ≡ line.old.items ++ hex4 n }
    ensures len { length line.new.items ≡ length line.old.items + 4 }
{
    add(&hex4(n), line);
}

/// All eight digits.
pub fn eight_digits(n: u32, line: &mut Line)
    requires { length line.old.items ≤ 290 }
    ensures text { line.new.items ≡ line.old.items ++ hex8 n }
    ensures len { length line.new.items ≡ length line.old.items + 8 }
{
    add(&hex8(n), line);
}

fn short_byte(n: u8, line: &mut Line)
    requires { length line.old.items ≤ 295 }
    ensures text { line.new.items ≡ line.old.items ++ spec.short2 n }
    ensures len { length line.new.items ≤ length line.old.items + 2 }
{
    if n < 16 {
        one_digit(n, line);
    } else {
        two_digits(n, line);
    }
}

fn short_word(n: u16, line: &mut Line)
    requires { length line.old.items ≤ 290 }
    ensures text { line.new.items ≡ line.old.items ++ spec.short4 n }
    ensures len { length line.new.items ≤ length line.old.items + 4 }
{
    if n < 256 {
        short_byte(n as u8, line);
    } else {
        short_byte((n / 256) as u8, line);
        two_digits((n % 256) as u8, line);
    }
}

fn short_long(n: u32, line: &mut Line)
    requires { length line.old.items ≤ 285 }
    ensures text { line.new.items ≡ line.old.items ++ spec.short8 n }
    ensures len { length line.new.items ≤ length line.old.items + 8 }
{
    if n < 65536 {
        short_word(n as u16, line);
    } else {
        short_word((n / 65536) as u16, line);
        four_digits((n % 65536) as u16, line);
    }
}

/// The number, without leading zeros.
#[tactic(auto, unfolding(crate::specs::Numbers::number_text))]
pub fn plain(n: u32, line: &mut Line)
    requires { length line.old.items ≤ 280 }
    ensures text { line.new.items ≡ line.old.items ++ spec.number_text (pos n) }
    ensures len { length line.new.items ≤ length line.old.items + 10 }
{
    add(b"0x", line);
    short_long(n, line);
}

/// The signed number that 32 bits stand for, without leading zeros.
#[tactic(auto, unfolding(crate::specs::Numbers::number_text))]
pub fn signed(n: u32, line: &mut Line)
    requires { length line.old.items ≤ 270 }
    ensures text { line.new.items ≡ line.old.items ++ spec.number_text (spec.signed_long n) }
    ensures len { length line.new.items ≤ length line.old.items + 11 }
{
    if n < 0x8000_0000 {
        plain(n, line);
    } else {
        add(b"-", line);
        plain(u32::MAX - n + 1, line);
    }
}

/// The distance from the text's first byte as a constant after its label.
#[tactic(auto, unfolding(crate::specs::Numbers::number_text))]
fn distance(n: u32, line: &mut Line)
    requires { length line.old.items ≤ 270 }
    ensures text { line.new.items ≡ line.old.items ++ constant_text (spec.from_text n) }
    ensures len { length line.new.items ≤ length line.old.items + 11 }
{
    if n < TEXT_ADDRESS {
        add(b"-", line);
        plain(TEXT_ADDRESS - n, line);
    } else if n > TEXT_ADDRESS {
        add(b"+", line);
        plain(n - TEXT_ADDRESS, line);
    }
}

/// The number by the label of the text's first byte.
pub fn by_label(n: u32, line: &mut Line)
    requires { length line.old.items ≤ 260 }
    ensures text { line.new.items ≡ line.old.items ++ value_text (by_label n) }
    ensures len { length line.new.items ≤ length line.old.items + 20 }
{
    add(b"L", line);
    eight_digits(TEXT_ADDRESS, line);
    distance(n, line);
}
