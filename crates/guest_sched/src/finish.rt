//! The end of all turns.

ghost use Rattle.std.specs.Prelude.{◌≡◌, ◌≤◌, length, map, OnOk, OnErr};
ghost use Rattle.pv_io.specs.Causes.{Rose};
ghost use Rattle.pv_io.specs.Sink.{Appends, AppendsFront};
ghost use Rattle.guest_sched.specs.Pieces.{bound_texts};
ghost use Rattle.guest_sched.specs.Stages.{ended_of};

use crate::shared::end_of;
use crate::tenants::Tenants;
use crate::turn::put_last;
use pv_io::{Failed, Sink};
use run_trace::Ended;

/// The last lines of the kernels that met no stop, and how each has ended.
pub(crate) fn finish<O: Sink>(
    tenants: &Tenants,
    ended: &mut Vec<Ended>,
    out: &mut O,
) -> Result<(), Failed>
    requires few { length tenants.now.list.items ≤ 4 }
    requires same { length ended.old.items ≡ length tenants.now.list.items }
    ensures ended { OnOk result (ended.new.items ≡ map ended_of tenants.now.list.items) }
    ensures ok { OnOk result (Appends (O.taken out.old) (O.taken out.new)
        (bound_texts 0 (map ended_of tenants.now.list.items))) }
    ensures failed { OnErr result (AppendsFront (O.taken out.old) (O.taken out.new)
        (bound_texts 0 (map ended_of tenants.now.list.items))) }
    ensures kept { OnOk result (O.faults out.new ≡ O.faults out.old) }
    ensures cause { OnErr result (Rose (O.faults out.old) (O.faults out.new)) }
{
    for number in 0..tenants.list.len() {
        let tenant = &tenants.list[number];
        let end = end_of(tenant);
        if tenant.stop.is_none() {
            put_last(number as u8, &end, out)?;
        }
        ended[number] = end;
    }
    Ok(())
}
