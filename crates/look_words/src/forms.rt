//! The forms of the command line.

ghost use Rattle.std.specs.Prelude.{◌≡◌, [], ◌∷◌, ◌≤◌, ◌^◌, map, string_bytes, option_map, IfSome};
ghost use Rattle.look_words.specs.Words as spec;
ghost use Rattle.look_words.specs.Words.{form_of, run_said, step_said};
ghost use Rattle.look_words.specs.View.{look_view, run_view, aspect_view, only_view, IsRun, AreSteps, IsAspect, IsWithin};

use crate::aspects::{aspect, only};
use crate::lists::steps;
use crate::words::{Aspect, LookWords, LookedRun, Only, Steps};
use arrayvec::ArrayVec;
use pv_words::{is_name, is_word};
use text_lines::number;

/// The form that the words are, if they are one.
#[tactic(auto, unfolding(crate::specs::Words::form_of))]
pub fn form(words: &Vec<String>) -> Option<LookWords<'_>>
    ensures form { option_map look_view result ≡ form_of (map string_bytes words.now.items) }
    ensures limits { IfSome result IsWithin }
{
    match words.as_slice() {
        [word, words @ ..] => form_after(word.as_str(), words),
        [] => None,
    }
}

/// The form of this name, with the words after it.
#[tactic(auto, unfolding(crate::specs::Words::form_of))]
fn form_after<'a>(name: &str, words: &'a [String]) -> Option<LookWords<'a>>
    ensures form { option_map look_view result ≡ form_of (name.now ∷ map string_bytes words.now) }
    ensures limits { IfSome result IsWithin }
{
    if is_word(name, "list") {
        after_list(words)
    } else if is_word(name, "steps") {
        after_steps(words)
    } else if is_word(name, "state") {
        after_state(words)
    } else if is_word(name, "file") {
        after_file(words)
    } else {
        after_aspect(name, words)
    }
}

#[tactic(auto, unfolding(crate::specs::Words::after_list))]
fn after_list(words: &[String]) -> Option<LookWords<'_>>
    ensures form { option_map look_view result ≡ spec.after_list (map string_bytes words.now) }
    ensures limits { IfSome result IsWithin }
{
    match words {
        [image] => {
            if is_name(image.as_str()) {
                Some(LookWords::List(image.as_str()))
            } else {
                None
            }
        }
        _ => None,
    }
}

fn run<'a>(image: &'a str, script: &'a str, frames: &str) -> Option<LookedRun<'a>>
    ensures form { option_map run_view result ≡ run_said image.now script.now frames.now }
    ensures limits { IfSome result IsRun }
{
    if !is_name(image) || !is_name(script) {
        return None;
    }
    match number(frames.as_bytes(), 2048, 16384) {
        Some(frames) => Some(LookedRun {
            image,
            script,
            frames: frames as u32,
        }),
        None => None,
    }
}

fn step(word: &str) -> Option<u64>
    ensures value { result ≡ step_said word.now }
    ensures limit { IfSome result (λ n. n ≤ 2 ^ 40) }
{
    number(word.as_bytes(), 0, 1 << 40)
}

fn steps_of<'a>(
    run: Option<LookedRun<'a>>,
    from: Option<u64>,
    to: Option<u64>,
    only: Option<Only>,
) -> Option<LookWords<'a>>
    requires run { IfSome run IsRun }
    requires from { IfSome from (λ n. n ≤ 2 ^ 40) }
    requires to { IfSome to (λ n. n ≤ 2 ^ 40) }
    ensures form { option_map look_view result ≡ spec.steps_of (option_map run_view run.entry) from to (option_map only_view only) }
    ensures limits { IfSome result IsWithin }
{
    match (run, from, to, only) {
        (Some(run), Some(from), Some(to), Some(only)) => Some(LookWords::Steps {
            run,
            from,
            to,
            only,
        }),
        _ => None,
    }
}

#[tactic(auto, unfolding(crate::specs::Words::after_steps))]
fn after_steps(words: &[String]) -> Option<LookWords<'_>>
    ensures form { option_map look_view result ≡ spec.after_steps (map string_bytes words.now) }
    ensures limits { IfSome result IsWithin }
{
    match words {
        [image, script, frames, from, to, words @ ..] => {
            let run = run(image.as_str(), script.as_str(), frames.as_str());
            steps_of(run, step(from.as_str()), step(to.as_str()), only(words))
        }
        _ => None,
    }
}

fn state_of<'a>(run: Option<LookedRun<'a>>, steps: Option<Steps>) -> Option<LookWords<'a>>
    requires run { IfSome run IsRun }
    requires steps { IfSome steps (λ v. AreSteps v.items) }
    ensures form { option_map look_view result ≡ spec.state_of (option_map run_view run.entry) (option_map (λ v. v.items) steps) }
    ensures limits { IfSome result IsWithin }
{
    match (run, steps) {
        (Some(run), Some(steps)) => Some(LookWords::Before {
            run,
            steps,
            aspect: Aspect::Whole,
        }),
        _ => None,
    }
}

#[tactic(auto, unfolding(crate::specs::Words::after_state))]
fn after_state(words: &[String]) -> Option<LookWords<'_>>
    ensures form { option_map look_view result ≡ spec.after_state (map string_bytes words.now) }
    ensures limits { IfSome result IsWithin }
{
    match words {
        [image, script, frames, words @ ..] => {
            let run = run(image.as_str(), script.as_str(), frames.as_str());
            state_of(run, steps(words))
        }
        _ => None,
    }
}

fn one_step(n: u64) -> Steps
    requires { n ≤ 2 ^ 40 }
    ensures value { result.items ≡ n ∷ [] }
    ensures limits { AreSteps result.items }
{
    let mut steps: Steps = ArrayVec::new();
    steps.push(n);
    steps
}

fn before_of<'a>(
    run: Option<LookedRun<'a>>,
    n: Option<u64>,
    aspect: Option<Aspect>,
) -> Option<LookWords<'a>>
    requires run { IfSome run IsRun }
    requires n { IfSome n (λ n. n ≤ 2 ^ 40) }
    requires aspect { IfSome aspect IsAspect }
    ensures form { option_map look_view result ≡ spec.before_of (option_map run_view run.entry) n (option_map aspect_view aspect) }
    ensures limits { IfSome result IsWithin }
{
    match (run, n, aspect) {
        (Some(run), Some(n), Some(aspect)) => Some(LookWords::Before {
            run,
            steps: one_step(n),
            aspect,
        }),
        _ => None,
    }
}

#[tactic(auto, unfolding(crate::specs::Words::after_aspect))]
fn after_aspect<'a>(name: &str, words: &'a [String]) -> Option<LookWords<'a>>
    ensures form { option_map look_view result ≡ spec.after_aspect name.now (map string_bytes words.now) }
    ensures limits { IfSome result IsWithin }
{
    match words {
        [image, script, frames, n, words @ ..] => {
            let run = run(image.as_str(), script.as_str(), frames.as_str());
            before_of(run, step(n.as_str()), aspect(name, words))
        }
        _ => None,
    }
}

fn file_of<'a>(state: &'a str, aspect: Option<Aspect>) -> Option<LookWords<'a>>
    requires { IfSome aspect IsAspect }
    ensures form { option_map look_view result ≡ spec.file_of state.now (option_map aspect_view aspect) }
    ensures limits { IfSome result IsWithin }
{
    match aspect {
        Some(aspect) if is_name(state) => Some(LookWords::InFile { state, aspect }),
        _ => None,
    }
}

#[tactic(auto, unfolding(crate::specs::Words::after_file))]
fn after_file(words: &[String]) -> Option<LookWords<'_>>
    ensures form { option_map look_view result ≡ spec.after_file (map string_bytes words.now) }
    ensures limits { IfSome result IsWithin }
{
    match words {
        [state] => file_of(state.as_str(), Some(Aspect::Whole)),
        [state, word, words @ ..] => file_of(state.as_str(), aspect(word.as_str(), words)),
        [] => None,
    }
}
