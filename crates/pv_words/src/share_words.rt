//! The form of several kernels on one host.

ghost use Rattle.std.specs.Prelude.{◌≡◌, map, string_bytes, option_map, IfSome};
ghost use Rattle.pv_words.specs.Words.{after_share, makes_pairs};
ghost use Rattle.pv_words.specs.View.{command_view, IsWithin};

use crate::words::{CommandWords, ShareWords, are_names, is_name};
use text_lines::number;

/// A schedule, the number of frames, and one to four images, each with its script.
#[tactic(auto, unfolding(crate::specs::Words::after_share))]
pub fn share_words(words: &[String]) -> Option<CommandWords<'_>>
    ensures form { option_map command_view result ≡ after_share (map string_bytes words.now) }
    ensures limits { IfSome result IsWithin }
{
    match words {
        [schedule, frames, kernels @ ..] => {
            if !is_name(schedule.as_str()) || !are_names(kernels) || !makes_pairs(kernels.len()) {
                return None;
            }
            match number(frames.as_bytes(), 2048, 16384) {
                None => None,
                Some(frames) => Some(CommandWords::Share(ShareWords {
                    schedule: schedule.as_str(),
                    frames: frames as u32,
                    kernels,
                })),
            }
        }
        _ => None,
    }
}

fn makes_pairs(count: usize) -> bool
    ensures { result ≡ makes_pairs count }
{
    count == 2 || count == 4 || count == 6 || count == 8
}
