//! What an instruction does, and by which translations it writes.

ghost use Rattle.std.specs.Prelude.{◌≡◌, ◌≤◌, ◌<◌, IfSome};
ghost use Rattle.linear_view.specs.View.{view_of};
ghost use Rattle.linear_view.specs.Range as ranges;
ghost use Rattle.bare_machine.specs.Machine.{state_of, IsKept};
ghost use Rattle.step_trace.specs.Doing as spec;

use bare_machine::Bare;
use ia32_decode::Decoded;
use ia32_exec::{Range, ranges};
use ia32_types::Regs;
use linear_view::{Places, places_of};
use step_text::Activity;
use xlate_buffer::Cache;

/// What the processor does that begins what stands at EIP.
pub fn carried_out(found: Option<Decoded>) -> Activity
    ensures { result ≡ spec.carried_out found }
{
    match found {
        None => Activity::Unfetched,
        Some(Decoded::Insn(insn, len)) => Activity::CarriesOut(insn, len),
        Some(Decoded::Short | Decoded::Outside) => Activity::Unsupported,
    }
}

/// The range that an instruction writes.
#[tactic(auto, unfolding(crate::specs::Doing::range_of))]
pub fn range_of(does: Activity, regs: &Regs) -> Option<Range>
    ensures range { result ≡ spec.range_of does regs.now }
    ensures few { IfSome result (λ range. range.len ≤ 32) }
{
    match does {
        Activity::CarriesOut(insn, _) => ranges(&insn, regs).write,
        _ => None,
    }
}

/// The translations by which a write to the range goes, of an empty one where there is none.
pub fn places_before<C: Cache>(machine: &Bare<C>, range: Option<Range>) -> Places
    requires kept { IsKept machine.now.frames (state_of C.entries machine.now) }
    ensures places { IfSome range (λ range. result
        ≡ ranges.places_of (view_of machine.now.ram machine.now.frames machine.now.cpu (C.entries machine.now.kept.cache))
        machine.now.cpu range.at range.len) }
    ensures first { IfSome result.first (λ entry. entry.frame < machine.now.frames) }
    ensures second { IfSome result.second (λ entry. entry.frame < machine.now.frames) }
{
    match range {
        None => Places {
            first: None,
            second: None,
        },
        Some(range) => places_of(
            machine.ram(),
            machine.frames(),
            machine.cpu(),
            machine.cache(),
            range.at,
            range.len,
        ),
    }
}
