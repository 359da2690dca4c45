//! Instructions at level 3 through tables of a host.

ghost use Rattle.std.specs.Prelude.{◌≡◌, ◌≤◌, ◌<◌, ◌+◌, ◌*◌, ◌^◌, true, length, IsSome, IfSome};
ghost use Rattle.guest_ram.specs.Bytes.{with_word32};
ghost use Rattle.host_cpl3.specs.HostRun.{host_run};
ghost use Rattle.host_cpl3.specs.Hosts.{standing};

use crate::asked::{holds, is_so};
use guest_ram::Ram;
use host_cpl3::{Exit, Host, Machine, View};
use ia32_types::{Flags, Regs};
use std::alloc::Global;
use std::process::Abort;

const KERNEL: View = View {
    kernel: true,
    root: 1,
    cs: 0x1b,
    ss: 0x23,
    ds: 0x23,
    es: 0x23,
    ds_null: false,
    es_null: false,
};

// Tables in frames 1 to 3. Linear 0x10000000 is frame 4, for reads alone, with the code; 0x11000000 is frame 5, and
// 0x11001000 is frame 6, for reads alone.
fn lay_out(ram: &mut Ram, code: &[u8])
    requires room { length ram.old ≡ 32768 }
    requires code { length code.now ≤ 4096 }
    ensures { length ram.new ≡ 32768 }
{
    ram.write32(0x1000 + 4 * 64, 0x2007);
    ram.write32(0x1000 + 4 * 68, 0x3007);
    ram.write32(0x2000, 0x4005);
    ram.write32(0x3000, 0x5007);
    ram.write32(0x3004, 0x6005);
    ram.put(0x4000, code);
}

fn machine(rt: &impl Abort, alloc: Global, code: &[u8]) -> Machine
    requires { length code.now ≤ 4096 }
    ensures started { IsSome result.ram }
    ensures room { IfSome result.ram (λ ram. length ram ≡ 32768) }
    ensures retired { result.retired ≡ 0 }
{
    let mut machine = Machine::new();
    machine.start(alloc, 8).expect(rt, "memory");
    lay_out(machine.ram_mut(), code);
    machine
}

// Any host, through its bound.
fn poke<H: Host>(host: &mut H, at: u32, value: u32)
    requires started { H.is_started host.old ≡ true }
    requires room { at + 4 ≤ length (H.bytes host.old) }
    ensures bytes { H.bytes host.new ≡ with_word32 (H.bytes host.old) at value }
    ensures len { length (H.bytes host.new) ≡ length (H.bytes host.old) }
    ensures started { H.is_started host.new ≡ true }
    ensures retired { H.retired host.new ≡ H.retired host.old }
    ensures passed { H.passed host.new ≡ H.passed host.old }
{
    host.ram_mut().write32(at, value);
}

fn one_more<H: Host>(host: &mut H, view: &View, regs: &mut Regs) -> Exit
    requires started { H.is_started host.old ≡ true }
    requires root { 4096 * view.now.root < length (H.bytes host.old) }
    requires room { H.retired host.old < 2 ^ 63 }
    ensures { host_run view.now 1 (standing regs.old (H.bytes host.old) (H.retired host.old) (H.passed host.old))
        ≡ (result, standing regs.new (H.bytes host.new) (H.retired host.new) (H.passed host.new)) }
{
    host.resume(view, regs, 1)
}

fn regs(esp: u32) -> Regs {
    Regs {
        r: [0, 0, 0, 0, esp, 0, 0, 0],
        eip: 0x1000_0000,
        flags: Flags { bits: 0x202 },
    }
}

fn is_exit(exit: Exit, want: Exit) -> bool {
    exit == want
}

/// Whether a machine stays at its first instruction until the budget of 1000 is out, with one walk.
fn stays(machine: &mut Machine) -> bool
    requires started { IsSome machine.old.ram }
    requires room { IfSome machine.old.ram (λ ram. length ram ≡ 32768) }
    requires retired { machine.old.retired ≡ 0 }
{
    let mut regs = regs(0);
    let walks = machine.walks();
    let exit = machine.resume(&KERNEL, &mut regs, 1000);
    is_exit(exit, Exit::Budget)
        && machine.walks().wrapping_sub(walks) == 1
        && machine.retired() == 1000
        && regs.eip == 0x1000_0000
}

#[test]
fn stays_within_one_walk_and_ends_at_the_budget(rt: HostRuntime) {
    let mut machine = machine(&rt, rt.alloc(), b"\xEB\xFE");
    is_so(&rt, "a thousand jumps", stays(&mut machine));
}

/// What is seen after a run.
enum Shown {
    Register(usize, u32),
    Eip(u32),
    Retired(u64),
    Passed(u64),
    Word(u32, u32),
}

fn has_word(ram: &Ram, at: u32, v: u32) -> bool {
    ram.len() == 32768 && at <= 32764 && ram.read32(at) == v
}

fn is_shown(machine: &Machine, regs: &Regs, shown: &Shown) -> bool
    requires { IsSome machine.now.ram }
{
    match *shown {
        Shown::Register(k, v) => k < 8 && regs.r[k] == v,
        Shown::Eip(at) => regs.eip == at,
        Shown::Retired(n) => machine.retired() == n,
        Shown::Passed(n) => machine.passed() == n,
        Shown::Word(at, v) => has_word(machine.ram(), at, v),
    }
}

/// All of this is seen.
fn are_shown(rt: &impl Abort, machine: &Machine, regs: &Regs, all: &[Shown])
    requires { IsSome machine.now.ram }
{
    for (k, shown) in all.iter().enumerate() {
        holds(rt, k, is_shown(machine, regs, shown));
    }
}

/// A run on this machine ends with this exit.
fn exits(
    rt: &impl Abort,
    machine: &mut Machine,
    view: &View,
    regs: &mut Regs,
    budget: u64,
    exit: Exit,
)
    requires started { IsSome machine.old.ram }
    requires room { IfSome machine.old.ram (λ ram. length ram ≡ 32768) }
    requires retired { machine.old.retired ≡ 0 }
    requires root { view.now.root ≡ 1 }
    ensures { IsSome machine.new.ram }
{
    let left = machine.resume(view, regs, budget);
    is_so(rt, "the exit", is_exit(left, exit));
}

/// Runs the code on a new machine, to this exit.
fn runs(
    rt: &impl Abort,
    alloc: Global,
    code: &[u8],
    view: &View,
    esp: u32,
    budget: u64,
    exit: Exit,
    all: &[Shown],
)
    requires code { length code.now ≤ 4096 }
    requires root { view.now.root ≡ 1 }
{
    let mut machine = machine(rt, alloc, code);
    let mut regs = regs(esp);
    exits(rt, &mut machine, view, &mut regs, budget, exit);
    are_shown(rt, &machine, &regs, all);
}

const COMPLETED: [Shown; 4] = [
    Shown::Register(0, 0x1234_5678),
    Shown::Eip(0x1000_0011),
    Shown::Retired(4),
    Shown::Word(0x5000, 0x1234_5679),
];

#[test]
fn completes_what_came_before_an_exit(rt: HostRuntime) {
    let code = b"\x90\xB8\x78\x56\x34\x12\xA3\x00\x00\x00\x11\xFF\x05\x00\x00\x00\x11\xCD\x80";
    let exit = Exit::Soft(0x80);
    runs(&rt, rt.alloc(), code, &KERNEL, 0, 9, exit, &COMPLETED);
}

const LEFT: [Shown; 3] = [
    Shown::Eip(0x04F4_F4F9),
    Shown::Retired(1),
    Shown::Passed(0x1000_0000),
];

// A jump into the wedge window isn't counted, and the exit has the registers there.
#[test]
fn leaves_at_the_wedge_window(rt: HostRuntime) {
    let code = b"\x90\xE9\xF3\xF4\xF4\xF4";
    let exit = Exit::Entry(0x04F4_F4F9);
    runs(&rt, rt.alloc(), code, &KERNEL, 0, 5, exit, &LEFT);
}

macro_rules! fault {
    ($vector:literal, $code:literal, $cr2:literal) => {
        Exit::Fault { vector: $vector, code: $code, cr2: $cr2 }
    };
}

/// Code whose first instruction exits, whether the view is the kernel's, ESP, and the exit.
type Exiting = (&'static [u8], bool, u32, Exit);

const EXITS: [Exiting; 16] = [
    (b"\x0F\x31", true, 0, Exit::Outside),
    (b"\xCC", true, 0, Exit::Soft(3)),
    (b"\xCD\x21", false, 0, Exit::Soft(0x21)),
    (b"\x0F\x0B", true, 0, fault!(6, 0, 0)),
    (b"\xFA", false, 0, fault!(13, 0, 0)),
    (b"\x8E\xD8", false, 0, fault!(13, 0, 0)),
    (b"\xF7\xF1", true, 0, fault!(0, 0, 0)),
    (b"\x9D", false, 0x1100_0000, Exit::FlagBits),
    (b"\xA1\xFE\xFF\xFF\xFF", true, 0, Exit::Wrap),
    (b"\xA1\x00\x00\x00\x10", true, 0, fault!(13, 0, 0)),
    (b"\x50", true, 0x1000_1000, fault!(12, 0, 0)),
    (b"\xA1\xFE\x1F\x00\x11", true, 0, fault!(14, 4, 0x1100_2000)),
    (b"\xA3\x00\x10\x00\x11", true, 0, fault!(14, 7, 0x1100_1000)),
    (b"\xA3\x00\x00\x00\x20", true, 0, fault!(14, 6, 0x2000_0000)),
    (
        b"\xFF\x15\x00\x20\x00\x11",
        true,
        0x1100_0004,
        fault!(14, 4, 0x1100_2000),
    ),
    (b"\xC3", false, 0x1100_2000, fault!(14, 4, 0x1100_2000)),
];

/// Whether this machine makes that exit, with no instruction done.
fn is_left_so(machine: &mut Machine, kernel: bool, esp: u32, exit: Exit) -> bool
    requires started { IsSome machine.old.ram }
    requires room { IfSome machine.old.ram (λ ram. length ram ≡ 32768) }
    requires retired { machine.old.retired ≡ 0 }
{
    let view = View { kernel, ..KERNEL };
    let mut regs = regs(esp);
    let left = one_more(machine, &view, &mut regs);
    is_exit(left, exit) && regs.eip == 0x1000_0000 && machine.retired() == 0
}

/// Whether a new machine makes that exit, with no instruction done.
fn does_exit(rt: &impl Abort, alloc: Global, row: &Exiting) -> bool {
    let (code, kernel, esp, exit) = *row;
    if code.len() > 4096 {
        return false;
    }
    let mut machine = machine(rt, alloc, code);
    poke(&mut machine, 0x5000, 0x100);
    is_left_so(&mut machine, kernel, esp, exit)
}

#[test]
fn exits_where_an_instruction_cannot_be_done(rt: HostRuntime) {
    let alloc = rt.alloc();
    for (k, row) in EXITS.iter().enumerate() {
        holds(&rt, k, does_exit(&rt, alloc, row));
    }
}

const SELECTORS: [Shown; 2] = [Shown::Register(0, 0x23), Shown::Word(0x500C, 0x23)];

// Selectors are the view's, and a null segment denies an access.
#[test]
fn shows_the_selectors_of_the_view(rt: HostRuntime) {
    let code = b"\x8C\xD8\x16\xAA";
    let view = View {
        kernel: false,
        es_null: true,
        ..KERNEL
    };
    let exit = fault!(13, 0, 0);
    runs(
        &rt,
        rt.alloc(),
        code,
        &view,
        0x1100_0010,
        9,
        exit,
        &SELECTORS,
    );
}

/// The second page of data is the table itself, which may be written; numbers stand in the first and in frame 6.
fn open_table(ram: &mut Ram)
    requires { length ram.old ≡ 32768 }
    ensures { length ram.new ≡ 32768 }
{
    ram.write32(0x3004, 0x3007);
    ram.write32(0x5000, 5);
    ram.write32(0x6000, 6);
}

/// Whether a run up to INT3 has read both numbers.
fn reads_both(machine: &mut Machine) -> bool
    requires started { IsSome machine.old.ram }
    requires room { IfSome machine.old.ram (λ ram. length ram ≡ 32768) }
    requires retired { machine.old.retired ≡ 0 }
{
    let mut regs = regs(0);
    let exit = machine.resume(&KERNEL, &mut regs, 9);
    is_exit(exit, Exit::Soft(3)) && regs.r[0] == 5 && regs.r[1] == 6
}

// The third instruction reads through the PTE that the second one wrote.
#[test]
fn sees_a_table_that_it_writes(rt: HostRuntime) {
    let code =
        b"\xA1\x00\x00\x00\x11\xC7\x05\x00\x10\x00\x11\x05\x60\x00\x00\x8B\x0D\x00\x00\x00\x11\xCC";
    let mut machine = machine(&rt, rt.alloc(), code);
    open_table(machine.ram_mut());
    is_so(&rt, "both numbers are read", reads_both(&mut machine));
}
