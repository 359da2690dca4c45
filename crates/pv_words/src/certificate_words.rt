//! The forms of certificates.

ghost use Rattle.std.specs.Prelude.{◌≡◌, map, string_bytes, option_map, IfSome};
ghost use Rattle.pv_words.specs.Words.{after_prove, after_replay};
ghost use Rattle.pv_words.specs.View.{command_view, IsWithin};

use crate::words::{CommandWords, is_name, run_words};

/// A run, and where its certificate is stored.
#[tactic(auto, unfolding(crate::specs::Words::after_prove))]
pub fn prove_words(words: &[String]) -> Option<CommandWords<'_>>
    ensures form { option_map command_view result ≡ after_prove (map string_bytes words.now) }
    ensures limits { IfSome result IsWithin }
{
    match words {
        [image, script, frames, n, certificate] => {
            match run_words(image.as_str(), script.as_str(), frames.as_str(), n.as_str()) {
                None => None,
                Some(run) => {
                    if is_name(certificate.as_str()) {
                        Some(CommandWords::Prove {
                            run,
                            certificate: certificate.as_str(),
                        })
                    } else {
                        None
                    }
                }
            }
        }
        _ => None,
    }
}

/// A run, a certificate, and a text that is judged by it.
#[tactic(auto, unfolding(crate::specs::Words::after_replay))]
pub fn replay_words(words: &[String]) -> Option<CommandWords<'_>>
    ensures form { option_map command_view result ≡ after_replay (map string_bytes words.now) }
    ensures limits { IfSome result IsWithin }
{
    match words {
        [image, script, frames, n, certificate, text] => {
            match run_words(image.as_str(), script.as_str(), frames.as_str(), n.as_str()) {
                None => None,
                Some(run) => {
                    if is_name(certificate.as_str()) && is_name(text.as_str()) {
                        Some(CommandWords::Replay {
                            run,
                            certificate: certificate.as_str(),
                            text: text.as_str(),
                        })
                    } else {
                        None
                    }
                }
            }
        }
        _ => None,
    }
}
