//! Several numbers in words.

ghost use Rattle.std.specs.Prelude.{◌≡◌, ◌≤◌, ◌<◌, ◌^◌, length, map, string_bytes, option_map, IfSome};
ghost use Rattle.look_words.specs.Numbers.{rising_from, all_addresses, steps_said, addresses_said, is_count};
ghost use Rattle.look_words.specs.View.{AreSteps};

use crate::numbers::address;
use crate::words::{Addresses, Steps};
use arrayvec::ArrayVec;
use text_lines::number;

/// There are 1 to 64 words.
fn is_count(words: &[String]) -> bool
    ensures count { result ≡ is_count (map string_bytes words.now) }
{
    words.len() >= 1 && words.len() <= 64
}

fn rising(words: &[String]) -> Option<Steps>
    requires some { 0 < length words.now }
    requires few { length words.now ≤ 64 }
    ensures value { option_map (λ v. v.items) result ≡ rising_from 0 (map string_bytes words.now) }
    ensures limits { IfSome result (λ v. AreSteps v.items) }
{
    let mut steps: Steps = ArrayVec::new();
    let mut least = 0;
    for word in words {
        match number(word.as_bytes(), least, 1 << 40) {
            Some(n) => {
                steps.push(n);
                least = n + 1;
            }
            None => return None,
        }
    }
    Some(steps)
}

/// Numbers of steps, each larger than the one before it, 1 to 64 of them.
#[tactic(auto, unfolding(crate::specs::Numbers::steps_said))]
pub fn steps(words: &[String]) -> Option<Steps>
    ensures value { option_map (λ v. v.items) result ≡ steps_said (map string_bytes words.now) }
    ensures limits { IfSome result (λ v. AreSteps v.items) }
{
    if is_count(words) { rising(words) } else { None }
}

fn all_addresses(words: &[String]) -> Option<Addresses>
    requires { length words.now ≤ 64 }
    ensures value { option_map (λ v. v.items) result ≡ all_addresses (map string_bytes words.now) }
{
    let mut addresses: Addresses = ArrayVec::new();
    for word in words {
        match address(word.as_bytes()) {
            Some(address) => addresses.push(address),
            None => return None,
        }
    }
    Some(addresses)
}

/// Linear addresses, 1 to 64 of them.
#[tactic(auto, unfolding(crate::specs::Numbers::addresses_said))]
pub fn addresses(words: &[String]) -> Option<Addresses>
    ensures value { option_map (λ v. v.items) result ≡ addresses_said (map string_bytes words.now) }
{
    if is_count(words) {
        all_addresses(words)
    } else {
        None
    }
}
