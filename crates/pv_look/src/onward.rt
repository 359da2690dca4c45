//! Goes on from step to step and looks at the machine there.

ghost use Rattle.std.specs.Prelude.{◌≡◌, ◌+◌, ◌-◌, ◌≤◌, ◌^◌, ℕ, true, slice_index};
ghost use Rattle.board.specs.ScriptForm.{is_script};
ghost use Rattle.image_check.specs.Image.{Image};
ghost use Rattle.bare_machine.specs.Machine.{state_of, IsKept};
ghost use Rattle.bare_machine.specs.Settings.{bare};
ghost use Rattle.look_words.specs.View.{aspect_view, IsAspect};
ghost use Rattle.pv_look.specs.Onward.{IfGoesOn, MomentAs, MomentsAs, watch_of};

use crate::moments::add_moment;
use bare_machine::Bare;
use board::Script;
use look_words::Aspect;
use pv_io::SureSink;
use run_trace::Pause;
use std::alloc::AllocError;
use xlate_buffer::Cache;

/// Goes on until `n` steps are done, none where they are already, and adds the state there; or ends before a step that stops.
/// After a stop the machine must not go on.
fn add_next<C: Cache>(
    machine: &mut Bare<C>,
    script: &Script,
    n: u64,
    aspect: Aspect,
    text: &mut Vec<u8>,
) -> Result<Pause, AllocError>
    requires script { is_script script.now.list ≡ true }
    requires kept { IsKept machine.old.frames (state_of C.entries machine.old) }
    requires begun { machine.old.step ≤ 2 ^ 40 }
    requires bound { n ≤ 2 ^ 40 }
    requires aspect { IsAspect aspect }
    ensures moment { (image : Image) → MomentAs
        (watch_of C.keeping (bare image script.now.list machine.old.frames) (aspect_view aspect)) n
        (state_of C.entries machine.old) (state_of C.entries machine.new) text.old.items text.new.items result }
    ensures kept { IfGoesOn result (IsKept machine.new.frames (state_of C.entries machine.new)) }
    ensures frames { IfGoesOn result (machine.new.frames ≡ machine.old.frames) }
    ensures count { IfGoesOn result (machine.new.step ≡ machine.old.step + (n - machine.old.step)) }
{
    let mut nowhere = SureSink::new();
    let more = n.saturating_sub(machine.step());
    match machine.slice(script, more, &mut nowhere) {
        Err(_) => unreachable!(),
        Ok(pause) => match pause {
            Pause::Stopped(stop) => Ok(Pause::Stopped(stop)),
            Pause::Reached => {
                add_moment(machine, aspect, text)?;
                Ok(Pause::Reached)
            }
        },
    }
}

/// Goes on to each of these counts of steps below a bound, or to the bound in place of the first that isn't, and adds the states
/// there; or ends before a step that stops. After a stop the machine must not go on.
pub fn add_moments<C: Cache>(
    machine: &mut Bare<C>,
    script: &Script,
    counts: &[u64],
    bound: u64,
    aspect: Aspect,
    text: &mut Vec<u8>,
) -> Result<Pause, AllocError>
    requires script { is_script script.now.list ≡ true }
    requires kept { IsKept machine.old.frames (state_of C.entries machine.old) }
    requires begun { machine.old.step ≤ 2 ^ 40 }
    requires counts { (i : ℕ) → slice_index counts.now i ≤ 2 ^ 40 }
    requires aspect { IsAspect aspect }
    ensures { (image : Image) → MomentsAs
        (watch_of C.keeping (bare image script.now.list machine.old.frames) (aspect_view aspect)) bound counts.now
        (state_of C.entries machine.old) (state_of C.entries machine.new) text.old.items text.new.items result }
{
    for n in counts {
        if bound <= *n {
            return add_next(machine, script, bound, aspect, text);
        }
        match add_next(machine, script, *n, aspect, text)? {
            Pause::Stopped(stop) => return Ok(Pause::Stopped(stop)),
            Pause::Reached => {}
        }
    }
    Ok(Pause::Reached)
}
