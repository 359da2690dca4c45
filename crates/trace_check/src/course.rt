//! The course of choices on the bare machine.

ghost use Rattle.std.specs.Prelude.{◌≡◌, ◌+◌, ◌-◌, ◌*◌, ◌≤◌, ◌<◌, ◌^◌, true, length, slice_get, IfOk, IfSome, OnOk, OnErr};
ghost use Rattle.board.specs.Scripts.{Events};
ghost use Rattle.board.specs.ScriptForm.{is_script};
ghost use Rattle.image_check.specs.Image.{Image};
ghost use Rattle.pv_io.specs.Causes.{Rose};
ghost use Rattle.machine_model.specs.Run.{with_set};
ghost use Rattle.trace_check.specs.declared.list.ChoiceKind.TheVariants.{Add};
ghost use Rattle.bare_machine.specs.Machine.{state_of, IsKept};
ghost use Rattle.bare_machine.specs.Settings.{bare};
ghost use Rattle.trace_check.specs.Form.{AreChoices, most_choices, IsPageOf};
ghost use Rattle.trace_check.specs.Courses.{addable, made, course};
ghost use Rattle.trace_check.specs.Follows.{IsMade, due, Splits, MadeAs, FollowsAs, next_step};

use crate::answer::CourseEnd;
use crate::list::{Choice, ChoiceKind};
use bare_machine::Bare;
use board::Script;
use paging::{Entry, Walk, walk};
use pv_io::{Failed, Sink};
use run_trace::{End, Pause};
use xlate_buffer::Cache;

/// The translation of a page that may be added.
fn addable<C: Cache>(machine: &Bare<C>, page: u32) -> Option<Entry>
    requires ram { 4096 * machine.now.frames ≤ length machine.now.ram }
    requires page { page < 2 ^ 20 }
    ensures found { (image : Image) (script : Events)
        → result ≡ addable (bare image script machine.now.frames) (state_of C.entries machine.now) page }
    ensures within { IfSome result (λ entry. (entry.page ≡ page) × (entry.frame < machine.now.frames)) }
{
    let ram = machine.ram();
    let cpu = machine.cpu();
    match walk(ram, machine.frames(), cpu.cr3, cpu.pse(), page) {
        Walk::Found {
            entry,
            dir_at,
            word_at,
        } => {
            let dir = ram.read32(dir_at);
            let word = ram.read32(word_at);
            if dir / 32 % 2 == 1 && word / 32 % 2 == 1 {
                Some(entry)
            } else {
                None
            }
        }
        _ => None,
    }
}

/// Adds a page's translation to the set, where it may be.
fn add<C: Cache>(machine: &mut Bare<C>, page: u32) -> bool
    requires kept { IsKept machine.old.frames (state_of C.entries machine.old) }
    requires exact { C.is_exact machine.old.kept.cache ≡ true }
    requires page { page < 2 ^ 20 }
    ensures made { (image : Image) (script : Events) → IsMade
        (made (bare image script machine.old.frames) (state_of C.entries machine.old) Add page (C.entries machine.old.kept.cache))
        (C.entries machine.new.kept.cache) result }
    ensures same { state_of C.entries machine.new ≡ with_set (state_of C.entries machine.old) (C.entries machine.new.kept.cache) }
    ensures frames { machine.new.frames ≡ machine.old.frames }
    ensures kept { IsKept machine.new.frames (state_of C.entries machine.new) }
    ensures exact { C.is_exact machine.new.kept.cache ≡ true }
{
    match addable(machine, page) {
        Some(entry) => {
            machine.cache_mut().keep(entry);
            true
        }
        None => false,
    }
}

/// Makes one choice. False where an added page isn't found.
fn make<C: Cache>(machine: &mut Bare<C>, choice: &Choice) -> bool
    requires kept { IsKept machine.old.frames (state_of C.entries machine.old) }
    requires exact { C.is_exact machine.old.kept.cache ≡ true }
    requires page { IsPageOf choice.now.kind choice.now.page }
    ensures made { (image : Image) (script : Events) → IsMade
        (made (bare image script machine.old.frames) (state_of C.entries machine.old)
        choice.now.kind choice.now.page (C.entries machine.old.kept.cache)) (C.entries machine.new.kept.cache) result }
    ensures same { state_of C.entries machine.new ≡ with_set (state_of C.entries machine.old) (C.entries machine.new.kept.cache) }
    ensures frames { machine.new.frames ≡ machine.old.frames }
    ensures kept { IsKept machine.new.frames (state_of C.entries machine.new) }
    ensures exact { C.is_exact machine.new.kept.cache ≡ true }
{
    match choice.kind {
        ChoiceKind::Drop => {
            machine.cache_mut().drop_page(choice.page);
            true
        }
        ChoiceKind::Empty => {
            machine.cache_mut().drop_all();
            true
        }
        ChoiceKind::Add => add(machine, choice.page),
    }
}

/// Makes the choices of the machine's step, the first of which stands at a place of the list. The place of those after
/// them, or that of the first that can't be made.
fn make_all<C: Cache>(machine: &mut Bare<C>, list: &[Choice], at: usize) -> Result<usize, u32>
    requires kept { IsKept machine.old.frames (state_of C.entries machine.old) }
    requires exact { C.is_exact machine.old.kept.cache ≡ true }
    requires few { length list.now ≤ most_choices }
    requires splits { Splits list.now at machine.old.step }
    ensures made { (image : Image) (script : Events) → MadeAs (bare image script machine.old.frames) list.now
        (state_of C.entries machine.old) (state_of C.entries machine.new) result }
    ensures splits { IfOk result (λ next. Splits list.now next (machine.old.step + 1)) }
    ensures step { machine.new.step ≡ machine.old.step }
    ensures frames { machine.new.frames ≡ machine.old.frames }
    ensures kept { IsKept machine.new.frames (state_of C.entries machine.new) }
    ensures exact { C.is_exact machine.new.kept.cache ≡ true }
{
    let mut next = at;
    loop {
        match due(list, next, machine.step()) {
            None => return Ok(next),
            Some(choice) => {
                if !make(machine, &choice) {
                    return Err(next as u32);
                }
                next += 1;
            }
        }
    }
}

/// The choice at a place of the list, where it is of this step.
fn due(list: &[Choice], at: usize, step: u64) -> Option<Choice>
    ensures { result ≡ due step (slice_get list.now at) }
{
    match list.get(at) {
        Some(choice) if choice.step == step => Some(*choice),
        _ => None,
    }
}

/// The next step, from a place of the list on, before which a choice is made, or the bound where it comes first.
fn next_step(list: &[Choice], at: usize, bound: u64) -> u64
    ensures { result ≡ next_step list.now at bound }
{
    match list.get(at) {
        Some(choice) => choice.step.min(bound),
        None => bound,
    }
}

/// Goes the course of the choices up to a count of steps, to a stop, or to a choice that can't be made. The machine stands
/// where the course begins. Where no put failed the sink's count of faults is as it was, and where one failed it rose.
pub fn follow<C: Cache, O: Sink>(
    machine: &mut Bare<C>,
    script: &Script,
    bound: u64,
    list: &[Choice],
    out: &mut O,
) -> Result<CourseEnd, Failed>
    requires script { is_script script.now.list ≡ true }
    requires kept { IsKept machine.old.frames (state_of C.entries machine.old) }
    requires exact { C.is_exact machine.old.kept.cache ≡ true }
    requires begin { machine.old.step ≡ 0 }
    requires bound { bound ≤ 2 ^ 40 }
    requires form { AreChoices list.now }
    ensures follows { (image : Image) → FollowsAs
        (course (bare image script.now.list machine.old.frames) list.now bound (state_of C.entries machine.old))
        machine.new.step (O.taken out.old) (O.taken out.new) result }
    ensures kept { OnOk result (O.faults out.new ≡ O.faults out.old) }
    ensures cause { OnErr result (Rose (O.faults out.old) (O.faults out.new)) }
{
    let mut at = 0;
    while machine.step() < bound {
        match make_all(machine, list, at) {
            Err(bad) => return Ok(CourseEnd::BadAt(bad)),
            Ok(next) => at = next,
        }
        let done = machine.step();
        let k = next_step(list, at, bound) - done;
        match machine.slice(script, k, out) {
            Err(failed) => return Err(failed),
            Ok(pause) => match pause {
                Pause::Stopped(stop) => return Ok(CourseEnd::Ended(End::Stopped(stop))),
                Pause::Reached => {}
            },
        }
    }
    Ok(CourseEnd::Ended(End::Bound))
}
