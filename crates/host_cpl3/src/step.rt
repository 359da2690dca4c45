//! One instruction.

ghost use Rattle.std.specs.Prelude.{◌≡◌, ◌+◌, ◌*◌, ◌<◌, ◌^◌, length, List, ℕ, true, Ok, Err, OnOk, IfErr};
ghost use Rattle.ia32_rows.specs.Spells.{Spells};
ghost use Rattle.ia32_types.specs.Shape.{IsShaped};
ghost use Rattle.ia32_exec.specs.UserEffect.{IsUserDone, user_effect};
ghost use Rattle.ia32_exec.specs.Effect.{ranges_of};
ghost use Rattle.ia32_exec.specs.Commit.{list_of};
ghost use Rattle.ia32_exec.specs.Outcomes.{AreStored};
ghost use Rattle.host_cpl3.specs.Store.{all_stored};
ghost use Rattle.host_cpl3.specs.Views.{selectors_of};
ghost use Rattle.host_cpl3.specs.Pages.{byte_at};
ghost use Rattle.host_cpl3.specs.KeptWalks.{AreKept};
ghost use Rattle.host_cpl3.specs.declared.exit.Exit.TheVariants as exits;
ghost use Rattle.host_cpl3.specs.Insensitive.{is_insensitive};
ghost use Rattle.host_cpl3.specs.HostStep.{is_jump, exit_of, ended, finished, worked, host_step};
ghost use Rattle.host_cpl3.specs.Permit.{permitted};
ghost use Rattle.host_cpl3.specs.Access.{AreMet};
ghost use Rattle.host_cpl3.specs.Reaches.{IsNone, IsReach, IsOf, Leads, IsWritten, Gives, completion, placed};

use crate::bytes::Bytes;
use crate::exit::{Ending, Exit};
use crate::fetch::{fetch_whole, fetching};
use crate::permit::permitted;
use crate::reach::Reach;
use crate::reaching::{reach, segment_met};
use crate::registers::accesses_nothing;
use crate::store::store_all;
use crate::view::{View, is_entry, selectors_of};
use crate::walks::Walks;
use guest_ram::Ram;
use ia32_decode::{Decoded, decode, front_len};
use ia32_exec::{Outcome, Stores, effect, ranges, user_effect};
use ia32_types::{Insn, Op, Regs, Stop};

#[inline(always)]
fn is_jump(op: Op) -> bool
    ensures { result ≡ is_jump op }
{
    matches!(op, Op::Jmp | Op::Jcc | Op::JumpTo)
}

#[inline(always)]
fn ended(view: &View, op: Op, regs: &Regs) -> Ending
    ensures { completion result regs.now ≡ ended view.now op regs.now }
{
    if is_jump(op) && is_entry(view, regs.eip) {
        Ending::Entered
    } else {
        Ending::Completed
    }
}

fn exit_of(stop: Stop) -> Exit
    ensures { result ≡ exit_of stop }
{
    match stop {
        Stop::FlagBits => Exit::FlagBits,
        _ => Exit::Outside,
    }
}

// An exception that an effect raises.
fn fault(vector: u8, code: u32) -> Exit
    ensures { result ≡ exits.Fault vector code 0 }
{
    Exit::Fault {
        vector,
        code,
        cr2: 0,
    }
}

// Neither a transfer through an operand, nor one that reads a segment register.
fn is_insensitive(op: Op) -> bool
    ensures { result ≡ is_insensitive op }
{
    !matches!(
        op,
        Op::Return | Op::JumpTo | Op::CallTo | Op::ReadSeg | Op::PushSeg
    )
}

fn outcome(
    view: &View,
    ram: &Ram,
    regs: &Regs,
    insn: &Insn,
    len: u8,
    read: Reach,
    write: Reach,
) -> Outcome
    requires done { IsUserDone insn.now.op }
    requires shape { IsShaped insn.now }
    requires read { IsReach ram.now view.now.root read }
    requires write { IsReach ram.now view.now.root write }
    requires read_of { IsOf (ranges_of insn.now regs.now).read read }
    requires write_of { IsOf (ranges_of insn.now regs.now).write write }
    ensures { result ≡ user_effect (selectors_of view.now) insn.now len regs.now (byte_at ram.now view.now.root) }
{
    let bytes = Bytes {
        ram,
        root: view.root,
        read,
        write,
    };
    user_effect(&selectors_of(view), insn, len, regs, &bytes)
}

// Writes, and forgets the walks whose tables it may have written.
#[inline(always)]
fn stored(walks: &mut Walks, ram: &mut Ram, root: u32, write: &Reach, stores: &Stores)
    requires stores { AreStored (IsWritten (length ram.old) write.now) stores.now }
    requires kept { AreKept walks.old ram.old root }
    ensures memory { ram.new ≡ all_stored (placed write.now) ram.old (list_of stores.now) }
    ensures len { length ram.new ≡ length ram.old }
    ensures kept { AreKept walks.new ram.new root }
{
    match stores {
        Stores::Nothing => {}
        _ => {
            store_all(ram, write, stores);
            walks.written(root, write.first, write.last);
        }
    }
}

// Both ranges of an instruction that isn't insensitive are reached.
#[inline(never)]
fn finish_transfer(
    walks: &mut Walks,
    view: &View,
    ram: &mut Ram,
    regs: &mut Regs,
    insn: &Insn,
    len: u8,
    read: Reach,
    write: Reach,
) -> Result<Ending, Exit>
    requires done { IsUserDone insn.now.op }
    requires shape { IsShaped insn.now }
    requires read { IsReach ram.old view.now.root read }
    requires write { IsReach ram.old view.now.root write }
    requires read_of { IsOf (ranges_of insn.now regs.old).read read }
    requires write_of { IsOf (ranges_of insn.now regs.old).write write }
    requires kept { AreKept walks.old ram.old view.now.root }
    ensures gives { Gives result regs.old regs.new ram.old ram.new (finished view.now insn.now.op ram.old
        (user_effect (selectors_of view.now) insn.now len regs.old (byte_at ram.old view.now.root))) }
    ensures len { length ram.new ≡ length ram.old }
    ensures kept { AreKept walks.new ram.new view.now.root }
{
    let came = outcome(view, ram, regs, insn, len, read, write);
    match &came {
        Outcome::Done(after, stores) => {
            *regs = *after;
            stored(walks, ram, view.root, &write, stores);
            Ok(ended(view, insn.op, regs))
        }
        Outcome::Raise(vector, code) => Err(fault(*vector, *code)),
        Outcome::Stop(stop) => Err(exit_of(*stop)),
    }
}

// Both ranges of an insensitive instruction are reached.
fn finish_plain(
    walks: &mut Walks,
    view: &View,
    ram: &mut Ram,
    regs: &mut Regs,
    insn: &Insn,
    len: u8,
    read: Reach,
    write: Reach,
) -> Result<Ending, Exit>
    requires done { IsUserDone insn.now.op }
    requires insensitive { is_insensitive insn.now.op ≡ true }
    requires shape { IsShaped insn.now }
    requires read { IsReach ram.old view.now.root read }
    requires write { IsReach ram.old view.now.root write }
    requires read_of { IsOf (ranges_of insn.now regs.old).read read }
    requires write_of { IsOf (ranges_of insn.now regs.old).write write }
    requires kept { AreKept walks.old ram.old view.now.root }
    ensures gives { Gives result regs.old regs.new ram.old ram.new (finished view.now insn.now.op ram.old
        (user_effect (selectors_of view.now) insn.now len regs.old (byte_at ram.old view.now.root))) }
    ensures len { length ram.new ≡ length ram.old }
    ensures kept { AreKept walks.new ram.new view.now.root }
{
    let bytes = Bytes {
        ram,
        root: view.root,
        read,
        write,
    };
    match effect(insn, len, regs, &bytes) {
        Outcome::Done(after, stores) => {
            *regs = after;
            stored(walks, ram, view.root, &write, &stores);
            Ok(ended(view, insn.op, regs))
        }
        Outcome::Raise(vector, code) => Err(fault(vector, code)),
        Outcome::Stop(stop) => Err(exit_of(stop)),
    }
}

// Both ranges are reached.
#[inline(always)]
fn finish(
    walks: &mut Walks,
    view: &View,
    ram: &mut Ram,
    regs: &mut Regs,
    insn: &Insn,
    len: u8,
    read: Reach,
    write: Reach,
) -> Result<Ending, Exit>
    requires done { IsUserDone insn.now.op }
    requires shape { IsShaped insn.now }
    requires read { IsReach ram.old view.now.root read }
    requires write { IsReach ram.old view.now.root write }
    requires read_of { IsOf (ranges_of insn.now regs.old).read read }
    requires write_of { IsOf (ranges_of insn.now regs.old).write write }
    requires kept { AreKept walks.old ram.old view.now.root }
    ensures gives { Gives result regs.old regs.new ram.old ram.new (finished view.now insn.now.op ram.old
        (user_effect (selectors_of view.now) insn.now len regs.old (byte_at ram.old view.now.root))) }
    ensures len { length ram.new ≡ length ram.old }
    ensures kept { AreKept walks.new ram.new view.now.root }
{
    if is_insensitive(insn.op) {
        finish_plain(walks, view, ram, regs, insn, len, read, write)
    } else {
        finish_transfer(walks, view, ram, regs, insn, len, read, write)
    }
}

// Reaches the ranges that an instruction may have in memory. What has none costs no call.
#[inline(never)]
#[tactic(auto, unfolding(crate::specs::HostStep::worked))]
fn reach_ranges(
    walks: &mut Walks,
    ram: &Ram,
    view: &View,
    regs: &Regs,
    insn: &Insn,
    read: &mut Reach,
    write: &mut Reach,
) -> Result<(), Exit>
    requires root { 4096 * view.now.root < length ram.now }
    requires kept { AreKept walks.old ram.now view.now.root }
    requires permitted { permitted insn.now ≡ Ok tt }
    requires none { IsNone ram.now view.now.root read.old × IsNone ram.now view.now.root write.old }
    ensures met { OnOk result (AreMet view.now ram.now regs.now insn.now) }
    ensures exits { IfErr result (λ exit. (len : ℕ) → worked view.now ram.now regs.now insn.now len ≡ Err exit) }
    ensures read { OnOk result (Leads ram.now view.now.root (ranges_of insn.now regs.now).read read.new) }
    ensures write { OnOk result (Leads ram.now view.now.root (ranges_of insn.now regs.now).write write.new) }
    ensures kept { AreKept walks.new ram.now view.now.root }
{
    let ranges = ranges(insn, regs);
    segment_met(view, &ranges.read)?;
    segment_met(view, &ranges.write)?;
    reach(walks, ram, view, false, &ranges.read, read)?;
    reach(walks, ram, view, true, &ranges.write, write)
}

// Reaches the ranges of an instruction. Of one that works in registers alone none is written to `read` and `write`.
#[inline(always)]
#[tactic(auto, unfolding(crate::specs::HostStep::worked))]
fn reach_all(
    walks: &mut Walks,
    ram: &Ram,
    view: &View,
    regs: &Regs,
    insn: &Insn,
    read: &mut Reach,
    write: &mut Reach,
) -> Result<(), Exit>
    requires root { 4096 * view.now.root < length ram.now }
    requires kept { AreKept walks.old ram.now view.now.root }
    requires permitted { permitted insn.now ≡ Ok tt }
    requires none { IsNone ram.now view.now.root read.old × IsNone ram.now view.now.root write.old }
    ensures met { OnOk result (AreMet view.now ram.now regs.now insn.now) }
    ensures exits { IfErr result (λ exit. (len : ℕ) → worked view.now ram.now regs.now insn.now len ≡ Err exit) }
    ensures read { OnOk result (Leads ram.now view.now.root (ranges_of insn.now regs.now).read read.new) }
    ensures write { OnOk result (Leads ram.now view.now.root (ranges_of insn.now regs.now).write write.new) }
    ensures kept { AreKept walks.new ram.now view.now.root }
{
    if accesses_nothing(insn) {
        return Ok(());
    }
    reach_ranges(walks, ram, view, regs, insn, read, write)
}

// An instruction that was spelled.
#[tactic(auto, unfolding(crate::specs::HostStep::worked))]
fn work(
    walks: &mut Walks,
    ram: &mut Ram,
    view: &View,
    regs: &mut Regs,
    insn: &Insn,
    len: u8,
) -> Result<Ending, Exit>
    requires root { 4096 * view.now.root < length ram.old }
    requires kept { AreKept walks.old ram.old view.now.root }
    requires spelled { (bytes : List ℕ) × Spells bytes insn.now }
    ensures gives { Gives result regs.old regs.new ram.old ram.new (worked view.now ram.old regs.old insn.now len) }
    ensures len { length ram.new ≡ length ram.old }
    ensures kept { AreKept walks.new ram.new view.now.root }
{
    permitted(insn)?;
    let mut read = Reach::none();
    let mut write = Reach::none();
    reach_all(walks, ram, view, regs, insn, &mut read, &mut write)?;
    finish(walks, view, ram, regs, insn, len, read, write)
}

/// Does the instruction at EIP, or exits before it. What lies in one page is decoded and done where it stands.
#[tactic(auto, unfolding(crate::specs::HostStep::host_step, crate::specs::Fetch::fetched))]
pub fn host_step(
    walks: &mut Walks,
    ram: &mut Ram,
    view: &View,
    regs: &mut Regs,
) -> Result<Ending, Exit>
    requires root { 4096 * view.now.root < length ram.old }
    requires kept { AreKept walks.old ram.old view.now.root }
    ensures gives { Gives result regs.old regs.new ram.old ram.new (host_step view.now ram.old regs.old) }
    ensures len { length ram.new ≡ length ram.old }
    ensures kept { AreKept walks.new ram.new view.now.root }
{
    let eip = regs.eip;
    if is_entry(view, eip) {
        return Err(Exit::Entry(eip));
    }
    let front = fetching(walks, ram, view.root, eip, front_len(eip))?;
    let mut begun = decode(front);
    fetch_whole(walks, ram, view.root, eip, front, &mut begun)?;
    match &begun {
        Decoded::Insn(insn, len) => work(walks, ram, view, regs, insn, *len),
        Decoded::Short => Err(Exit::Outside),
        Decoded::Outside => Err(Exit::Outside),
    }
}
