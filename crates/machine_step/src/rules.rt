//! What a monitor's rules ask of a step beside its translations.

ghost use Rattle.std.specs.Prelude.{◌≡◌, ◌&&◌, ◌||◌, not, Some, IfOk};
ghost use Rattle.paging.specs.Space.{Space};
ghost use Rattle.board.specs.declared.devices.Board.{Board};
ghost use Rattle.machine_model.specs.State.{Setting, State as Whole};
ghost use Rattle.machine_model.specs.Rules.{is_start, is_open, stands_well, may_leave};
ghost use Rattle.machine_model.specs.Step as steps;
ghost use Rattle.machine_step.specs.Roots.{EndsWith};
ghost use Rattle.machine_step.specs.Ruled.{IsRuled};
ghost use Rattle.machine_step.specs.Worked.{ComesTo, IsDropped, answer_of, completed_of, completed_by, done_by, whats};

use crate::worked::{Completed, Dropped, Seen, Worked};
use descriptors::Cpu;
use ia32_types::{Insn, Stop, TEXT_ADDRESS};
use image_check::Checked;

/// The image over which a monitor's rules hold; none on the bare machine.
#[derive(Clone, Copy)]
pub struct Rules<'a> {
    pub image: Option<&'a Checked>,
}

fn is_start(image: &Checked, eip: u32) -> bool
    ensures { result ≡ is_start image.now eip }
{
    if eip < TEXT_ADDRESS {
        return false;
    }
    image.is_start(eip - TEXT_ADDRESS)
}

/// Code at level 0 stands at a start of the text.
pub fn stands_well(rules: &Rules, cpu: &Cpu) -> bool
    ensures { (m : Setting) → IsRuled m rules.now → result ≡ stands_well m cpu.now }
{
    match rules.image {
        None => true,
        Some(image) => {
            let start = is_start(image, cpu.regs.eip);
            start || cpu.cpl != 0
        }
    }
}

fn is_open(cpu: &Cpu) -> bool
    ensures { result ≡ is_open cpu.now }
{
    cpu.regs.flags.bits / 512 % 2 == 1 && cpu.regs.flags.bits / 4096 % 4 == 0
}

fn may_lead(kernel: bool, user: bool, users_flags: bool) -> bool
    ensures { result ≡ (not (kernel && user) || users_flags) }
{
    !(kernel && user) || users_flags
}

/// From level 0 to level 3 an instruction leads with a user's flags alone.
fn may_leave(rules: &Rules, cpu: &Cpu, after: &Cpu) -> bool
    ensures { (m : Setting) → IsRuled m rules.now → result ≡ may_leave m.mode cpu.now after.now }
{
    match rules.image {
        None => true,
        Some(_) => {
            let kernel = cpu.cpl == 0;
            let user = after.cpl == 3;
            may_lead(kernel, user, is_open(after))
        }
    }
}

/// A handler is entered, which must be where code may begin.
pub fn entered(
    rules: &Rules,
    seen: Seen,
    completed: Option<Completed>,
    worked: &mut Worked,
) -> Result<(), Stop>
    ensures step { (m : Setting) (b : Whole) (board : Board) (s : Space) → IsRuled m rules.now → ComesTo
        (steps.entered m (whats seen) (completed_by completed) b worked.old.cpu board s) b (answer_of result worked.new) board s }
    ensures dropped { IfOk (answer_of result worked.new) (λ w. IsDropped w.dropped) }
    ensures ends { IfOk (answer_of result worked.new) (EndsWith completed worked.old.cpu) }
    ensures raised { worked.new.raised ≡ worked.old.raised }
{
    let well = stands_well(rules, &worked.cpu);
    if well {
        worked.seen = seen;
        worked.completed = completed;
        worked.dropped = Dropped::Nothing;
        Ok(())
    } else {
        Err(Stop::NotAStart)
    }
}

/// An instruction ended that asks nothing of the machine, and that this processor began.
pub fn ended(rules: &Rules, insn: &Insn, before: &Cpu, worked: &mut Worked) -> Result<(), Stop>
    ensures step { (m : Setting) (b : Whole) (s : Space) → IsRuled m rules.now → ComesTo
        (steps.ended m (completed_of (done_by insn.now before.now)) (record b { cpu = before.now }) worked.old.cpu s)
        b (answer_of result worked.new) b.board s }
    ensures dropped { IfOk (answer_of result worked.new) (λ w. IsDropped w.dropped) }
    ensures ends { IfOk (answer_of result worked.new) (EndsWith (Some (done_by insn.now before.now)) worked.old.cpu) }
    ensures raised { worked.new.raised ≡ worked.old.raised }
{
    let may = may_leave(rules, before, &worked.cpu);
    if may {
        worked.complete(insn, before, Seen::Nothing, Dropped::Nothing);
        Ok(())
    } else {
        Err(Stop::UserFlags)
    }
}
