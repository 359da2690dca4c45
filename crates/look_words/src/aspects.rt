//! What is printed of a machine, and which steps are printed, in words.

ghost use Rattle.std.specs.Prelude.{◌≡◌, ◌≤◌, ◌^◌, map, string_bytes, option_map, IfSome};
ghost use Rattle.look_words.specs.Numbers.{len_said};
ghost use Rattle.look_words.specs.Words.{walk_said, memory_said, aspect_said, on_said, some_said, only_said};
ghost use Rattle.look_words.specs.View.{aspect_view, only_view, IsAspect};

use crate::lists::addresses;
use crate::numbers::address;
use crate::words::{Aspect, Only};
use pv_words::is_word;
use text_lines::number;

fn len(word: &[u8], most: u64) -> Option<u64>
    requires { most ≤ 2 ^ 40 }
    ensures value { result ≡ len_said most word.now }
    ensures few { IfSome result (λ n. n ≤ most) }
{
    number(word, 1, most)
}

fn walk(words: &[String]) -> Option<Aspect>
    ensures form { option_map aspect_view result ≡ walk_said (map string_bytes words.now) }
    ensures limits { IfSome result IsAspect }
{
    match words {
        [word] => match address(word.as_bytes()) {
            Some(address) => Some(Aspect::Walk(address)),
            None => None,
        },
        _ => None,
    }
}

fn memory(words: &[String]) -> Option<Aspect>
    ensures form { option_map aspect_view result ≡ memory_said (map string_bytes words.now) }
    ensures limits { IfSome result IsAspect }
{
    match words {
        [word, count] => match (address(word.as_bytes()), len(count.as_bytes(), 1 << 24)) {
            (Some(address), Some(len)) => Some(Aspect::Memory {
                address,
                len: len as u32,
            }),
            _ => None,
        },
        _ => None,
    }
}

/// What is printed of a machine, by its word and the words after it.
#[tactic(auto, unfolding(crate::specs::Words::aspect_said))]
pub fn aspect(word: &str, words: &[String]) -> Option<Aspect>
    ensures form { option_map aspect_view result ≡ aspect_said word.now (map string_bytes words.now) }
    ensures limits { IfSome result IsAspect }
{
    if is_word(word, "walk") {
        walk(words)
    } else if is_word(word, "memory") {
        memory(words)
    } else {
        None
    }
}

fn on(words: &[String]) -> Option<Only>
    ensures { option_map only_view result ≡ on_said (map string_bytes words.now) }
{
    match words {
        [word, count] => match (address(word.as_bytes()), len(count.as_bytes(), 1 << 32)) {
            (Some(address), Some(len)) => Some(Only::On { address, len }),
            _ => None,
        },
        _ => None,
    }
}

fn some(word: &str, words: &[String]) -> Option<Only>
    ensures { option_map only_view result ≡ some_said word.now (map string_bytes words.now) }
{
    if is_word(word, "at") {
        match addresses(words) {
            Some(addresses) => Some(Only::At(addresses)),
            None => None,
        }
    } else if is_word(word, "on") {
        on(words)
    } else {
        None
    }
}

/// Which steps are printed.
#[tactic(auto, unfolding(crate::specs::Words::only_said))]
pub fn only(words: &[String]) -> Option<Only>
    ensures { option_map only_view result ≡ only_said (map string_bytes words.now) }
{
    match words {
        [] => Some(Only::Each),
        [word, words @ ..] => some(word.as_str(), words),
    }
}
