//! Which steps' lines are printed.

ghost use Rattle.std.specs.Prelude.{◌≡◌, ◌==◌, true, false, Option};
ghost use Rattle.std.specs.List.{list_any};
ghost use Rattle.ia32_exec.specs.declared.access.Range.{Range};
ghost use Rattle.look_words.specs.View.{only_view};
ghost use Rattle.step_text.specs.declared.activity.Activity.{Activity};
ghost use Rattle.step_trace.specs.Wanted as spec;

use ia32_exec::Range;
use look_words::Only;
use step_text::Activity;

fn begins_instruction(does: Activity) -> bool
    ensures { result ≡ spec.begins_instruction does }
{
    match does {
        Activity::Takes(_) | Activity::Waits => false,
        Activity::CarriesOut(_, _) | Activity::Unsupported | Activity::Unfetched => true,
    }
}

fn is_among(eip: u32, addresses: &[u32]) -> bool
    ensures { result ≡ list_any (λ a. a == eip) addresses.now }
{
    addresses.iter().any(|a| *a == eip)
}

fn meets(address: u32, len: u64, written: Option<Range>) -> bool
    ensures { result ≡ spec.meets address len written }
{
    match written {
        None => false,
        Some(range) => {
            let below = u64::from(range.at) < u64::from(address).saturating_add(len);
            below && u64::from(address) < u64::from(range.at) + u64::from(range.len)
        }
    }
}

/// Whether the line of a step is asked for, by what the processor does, its EIP and the range that was written.
#[tactic(auto, unfolding(crate::specs::Wanted::wants))]
pub fn wants(only: &Only, does: Activity, eip: u32, written: Option<Range>) -> bool
    ensures { result ≡ spec.wants (only_view only.now) does eip written }
{
    match only {
        Only::Each => true,
        Only::At(addresses) => begins_instruction(does) && is_among(eip, addresses.as_slice()),
        Only::On { address, len } => meets(*address, *len, written),
    }
}

/// Whether EIP alone tells that the line of a step isn't asked for.
#[tactic(auto, unfolding(crate::specs::Wanted::wants))]
pub fn is_passed_by(only: &Only, eip: u32) -> bool
    ensures { result ≡ true → (does : Activity) (written : Option Range) → spec.wants (only_view only.now) does eip written ≡ false }
{
    match only {
        Only::Each | Only::On { .. } => false,
        Only::At(addresses) => !is_among(eip, addresses.as_slice()),
    }
}
