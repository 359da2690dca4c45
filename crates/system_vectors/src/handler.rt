//! The processor with which an interrupted program goes on.

ghost use Rattle.std.specs.Prelude.{◌≡◌};
ghost use Rattle.sys_exec.specs.Iret.{kept_segment};
ghost use Rattle.system_vectors.specs.Resumed.{resumed, ResumesAs};

use descriptors::{Cpu, Hidden};

/// A data segment at level 3: one that this level may not use has become null.
fn at_user_level(hidden: Hidden) -> Hidden
    ensures { result ≡ kept_segment 3 hidden }
{
    if hidden.dpl < 3 {
        return Hidden {
            sel: 0,
            null: true,
            dpl: 0,
        };
    }
    hidden
}

fn awake(cpu: &Cpu) -> Cpu
    ensures { result ≡ resumed cpu.now }
{
    let mut seg = cpu.seg;
    if cpu.cpl == 3 {
        seg[0] = at_user_level(cpu.seg[0]);
        seg[3] = at_user_level(cpu.seg[3]);
    }
    Cpu {
        seg,
        halted: false,
        ..*cpu
    }
}

/// The processor with which an interrupted program goes on, once the IRET of the handler is done that pops what the
/// delivery pushed: as it was, and no longer halted; at level 3 a DS or ES that this level may not use is null. An image
/// of the flags with TF, NT or another flag that isn't kept isn't popped. Intel SDM volume 2, IRET.
pub fn resumed(cpu: &Cpu) -> Cpu
    ensures { ResumesAs cpu.now result }
{
    awake(cpu)
}
