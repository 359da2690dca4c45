//! Translating the ranges of an instruction.

ghost use Rattle.std.specs.Prelude.{◌≡◌, ◌+◌, ◌≤◌, OnOk, Option, false};
ghost use Rattle.paging.specs.Gives.{Gives};
ghost use Rattle.ia32_exec.specs.Short.{IsShort};
ghost use Rattle.step_exec.specs.Plain.{reached, is_null, is_denied, is_refused};
ghost use Rattle.step_exec.specs.Ready.{IsLast, IsReadMade};
ghost use Rattle.ia32_exec.specs.declared.access.Range.{Range as Bytes};

use descriptors::{Cpu, by_level};
use ia32_exec::{Range, Ranges};
use ia32_types::Seg;
use paging::{GuestMem, Touch};
use sys_exec::Refusal;

fn is_null(cpu: &Cpu, seg: Seg) -> bool
    ensures { result ≡ is_null cpu.now seg }
{
    cpu.segment(seg).null
}

// A null segment denies the range.
fn is_denied(cpu: &Cpu, range: Option<Range>) -> bool
    ensures { result ≡ is_denied cpu.now range }
{
    match range {
        None => false,
        Some(range) => is_null(cpu, range.seg),
    }
}

/// A null segment denies one of an instruction's ranges.
pub fn is_refused(cpu: &Cpu, ranges: &Ranges) -> bool
    ensures { result ≡ is_refused cpu.now ranges.now }
{
    is_denied(cpu, ranges.read) || is_denied(cpu, ranges.write)
}

/// Translates a range, if there is one.
#[tactic(auto, unfolding(descriptors::specs::Access::reaching))]
pub fn reach<M: GuestMem>(
    mem: &mut M,
    cpu: &Cpu,
    write: bool,
    range: Option<Range>,
) -> Result<(), Refusal>
    requires room { (M.space mem.old).pages ≤ 62 }
    requires short { IsShort range }
    ensures gives { Gives result (M.space mem.new) (reached cpu.now write range (M.space mem.old)) }
    ensures last { OnOk result (IsLast range write (M.space mem.new)) }
    ensures before { (other : Option Bytes) → IsLast other false (M.space mem.old)
        → OnOk result (IsReadMade other range (M.space mem.new)) }
    ensures pages { (M.space mem.new).pages ≤ (M.space mem.old).pages + 2 }
    ensures frame { M.frame mem.new ≡ M.frame mem.old }
{
    match range {
        None => Ok(()),
        Some(range) => {
            let access = by_level(cpu, write);
            match mem.touch(range.at, range.len, access) {
                Touch::Ready => Ok(()),
                Touch::Fault { code, at } => Err(Refusal::Fault { code, at }),
                Touch::Stop(stop) => Err(Refusal::Stop(stop)),
            }
        }
    }
}
