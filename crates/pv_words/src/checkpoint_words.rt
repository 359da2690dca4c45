//! The forms of checkpoints.

ghost use Rattle.std.specs.Prelude.{◌≡◌, ◌≤◌, ◌^◌, map, string_bytes, option_map, IfSome};
ghost use Rattle.text_lines.specs.Numbers.{number_said};
ghost use Rattle.pv_words.specs.Words.{after_save, after_continue, mode_said, rest_form, save_form, save_from_form, continue_form};
ghost use Rattle.pv_words.specs.View.{command_view, run_view, rest_view, AreWithin, IsWithin};

use crate::mode::RunMode;
use crate::words::{CommandWords, RestWords, RunWords, is_name, is_word, run_words};
use text_lines::number;

/// The machine that a word names.
fn machine(word: &str) -> Option<RunMode>
    ensures { result ≡ mode_said word.now }
{
    if is_word(word, "--bare") {
        Some(RunMode::Bare)
    } else if is_word(word, "--wedge") {
        Some(RunMode::Wedge)
    } else {
        None
    }
}

/// What goes on from a checkpoint is given, where the words are names and a number in range.
fn rest_words<'a>(image: &'a str, script: &'a str, file: &'a str, n: &str) -> Option<RestWords<'a>>
    ensures form { option_map rest_view result ≡ rest_form image.now script.now file.now (number_said 0 (2 ^ 40) n.now) }
    ensures limits { IfSome result (λ w. w.n ≤ 2 ^ 40) }
{
    match number(n.as_bytes(), 0, 1 << 40) {
        Some(n) => {
            if is_name(image) && is_name(script) && is_name(file) {
                Some(RestWords {
                    image,
                    script,
                    file,
                    n,
                })
            } else {
                None
            }
        }
        None => None,
    }
}

/// A run that is saved, or one that goes on from a checkpoint and is saved again.
#[tactic(auto, unfolding(crate::specs::Words::after_save))]
pub fn save_words(words: &[String]) -> Option<CommandWords<'_>>
    ensures form { option_map command_view result ≡ after_save (map string_bytes words.now) }
    ensures limits { IfSome result IsWithin }
{
    match words {
        [mode, image, script, frames, n, file] => {
            let run = run_words(image.as_str(), script.as_str(), frames.as_str(), n.as_str());
            save_form(machine(mode.as_str()), run, file.as_str())
        }
        [mode, image, script, word, file, n, new] => {
            if is_word(word.as_str(), "from") {
                let rest = rest_words(image.as_str(), script.as_str(), file.as_str(), n.as_str());
                save_from_form(machine(mode.as_str()), rest, new.as_str())
            } else {
                None
            }
        }
        _ => None,
    }
}

fn save_form<'a>(
    mode: Option<RunMode>,
    run: Option<RunWords<'a>>,
    file: &'a str,
) -> Option<CommandWords<'a>>
    requires { IfSome run AreWithin }
    ensures form { option_map command_view result ≡ save_form mode file.now (option_map run_view run.entry) }
    ensures limits { IfSome result IsWithin }
{
    match (mode, run) {
        (Some(mode), Some(run)) => {
            if is_name(file) {
                Some(CommandWords::Save { mode, run, file })
            } else {
                None
            }
        }
        _ => None,
    }
}

fn save_from_form<'a>(
    mode: Option<RunMode>,
    rest: Option<RestWords<'a>>,
    new: &'a str,
) -> Option<CommandWords<'a>>
    requires { IfSome rest (λ w. w.n ≤ 2 ^ 40) }
    ensures form { option_map command_view result ≡ save_from_form mode new.now (option_map rest_view rest.entry) }
    ensures limits { IfSome result IsWithin }
{
    match (mode, rest) {
        (Some(mode), Some(rest)) => {
            if is_name(new) {
                Some(CommandWords::SaveFrom { mode, rest, new })
            } else {
                None
            }
        }
        _ => None,
    }
}

/// A run that goes on from a checkpoint.
#[tactic(auto, unfolding(crate::specs::Words::after_continue))]
pub fn continue_words(words: &[String]) -> Option<CommandWords<'_>>
    ensures form { option_map command_view result ≡ after_continue (map string_bytes words.now) }
    ensures limits { IfSome result IsWithin }
{
    match words {
        [mode, image, script, file, n] => {
            let rest = rest_words(image.as_str(), script.as_str(), file.as_str(), n.as_str());
            match (machine(mode.as_str()), rest) {
                (Some(mode), Some(rest)) => Some(CommandWords::Continue { mode, rest }),
                _ => None,
            }
        }
        _ => None,
    }
}
