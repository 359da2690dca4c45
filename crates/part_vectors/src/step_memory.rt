//! The guest's memory of a step of a patched run, over shadows that are lent to it.

ghost use Rattle.std.specs.Prelude.{◌≡◌, ◌≤◌, length, true};
ghost use Rattle.std.specs.FinMap.{empty};
ghost use Rattle.frame_pool.specs.Held.{Owns};
ghost use Rattle.frame_pool.specs.Pool.{base_of};
ghost use Rattle.paging.specs.declared.entry.Touch.TheVariants.{Ready};
ghost use Rattle.shadow_tables.specs.Entries.{entries_of};

use crate::asked::{given, is_so};
use crate::memory::ram_of;
use crate::pool::pool_of;
use descriptors::{Cpu, Hidden, Table, Task};
use frame_pool::Pool;
use guest_ram::Ram;
use ia32_types::{Flags, Regs, Size};
use paging::{Access, GuestMem, Touch};
use shadow_cache::Roots;
use shadow_tables::{Shadow, Shadows, Side};
use std::alloc::Global;
use std::process::Abort;
use wedge_mem::WedgeMem;

/// The guest's frames, of 32; the pool has the others.
const FRAMES: u32 = 16;

/// Where an instruction of the text lies, half of it in the text's second page, and where its operand does (profile: the text
/// is at 0x10000000, and level 0 has its data from 0x11000000 on).
const CODE: u32 = 0x1000_0FFE;

const SECOND_PAGE: u32 = 0x1000_1000;

const DATA: u32 = 0x1140_0010;

/// The operand's place in memory.
const PLACE: u32 = 0x6010;

/// Where a second operand lies, which is only read, and its place.
const SOURCE: u32 = 0x1140_0020;

const SOURCE_PLACE: u32 = 0x6020;

/// A processor at level 0 with paging on, write protection on, and its directory in frame 1.
fn processor() -> Cpu {
    let flat = Hidden {
        sel: 0x10,
        null: false,
        dpl: 0,
    };
    Cpu {
        regs: Regs {
            r: [0; 8],
            eip: CODE,
            flags: Flags { bits: 2 },
        },
        cpl: 0,
        seg: [flat; 4],
        cr0: 0x8001_0011,
        cr2: 0,
        cr3: 0x1000,
        cr4: 0,
        gdt: Table { base: 0, limit: 0 },
        idt: Table { base: 0, limit: 0 },
        task: Task {
            sel: 0,
            base: 0,
            limit: 0,
            loaded: false,
        },
        halted: false,
        held: false,
    }
}

/// The tables of text and data are in frames 2 and 3. The text's pages lie in frames 4 and 5, and that of data in frame 6, for
/// the user too; all may be written.
fn put_tables(ram: &mut Ram)
    requires { length ram.old ≡ 131072 }
    ensures { length ram.new ≡ 131072 }
{
    ram.write32(0x1100, 0x2007);
    ram.write32(0x2000, 0x4007);
    ram.write32(0x2004, 0x5007);
    ram.write32(0x1114, 0x3007);
    ram.write32(0x3000, 0x6007);
    ram.write32(PLACE, 0x1122_3344);
    ram.write32(SOURCE_PLACE, 0x5566);
}

fn is_ready(met: &Touch) -> bool
    ensures { result ≡ true → met.now ≡ Ready }
{
    match met {
        Touch::Ready => true,
        _ => false,
    }
}

/// The access is ready.
fn ready(rt: &impl Abort, met: &Touch)
    ensures { met.now ≡ Ready }
{
    given(rt, "ready", is_ready(met));
}

const READ: Access = Access {
    write: false,
    user: false,
};

const WRITE: Access = Access {
    write: true,
    user: false,
};

/// One operand is read and another read and written, in the other's page.
fn reach_operands<M: GuestMem>(rt: &impl Abort, memory: &mut M)
    requires { (M.space memory.old).pages ≤ 58 }
{
    ready(rt, &memory.touch(SOURCE, 4, READ));
    ready(rt, &memory.touch(DATA, 4, WRITE));
    let loaded = memory.load(DATA, Size::Long);
    is_so(rt, "the operand", loaded == 0x1122_3344);
    let loaded = memory.load_earlier(SOURCE, Size::Long);
    is_so(rt, "the one before", loaded == 0x5566);
    memory.save(DATA, Size::Word, 0x5566);
}

/// The step used so many entries.
fn used(rt: &impl Abort, entries: u32, told: Option<u32>) {
    is_so(rt, "entries", told == Some(entries));
}

/// The instruction is fetched from two pages, the second after the first, then its operands are reached. The next step only
/// reads, and the one after it does nothing.
fn step<S: Shadows>(rt: &impl Abort, ram: &mut Ram, pool: &mut Pool, shadows: &mut S)
    requires stands { ∥ S.stands shadows.old ram.old ∥₁ }
    requires owns { Owns pool.old ram.old (S.frames shadows.old ram.old) }
    requires below { 16 ≤ base_of pool.old }
    requires none { entries_of (S.slots shadows.old ram.old) ≡ empty }
{
    let mut memory = WedgeMem::new(ram, pool, shadows, &processor(), FRAMES, 0x4000, 2);
    ready(rt, &memory.fetch(CODE, 2, false));
    memory.own(CODE, 2);
    ready(rt, &memory.fetch(SECOND_PAGE, 2, false));
    memory.own(CODE, 4);
    reach_operands(rt, &mut memory);
    used(rt, 3, memory.finish(Side::Kernel));
    ready(rt, &memory.touch(SOURCE, 4, READ));
    used(rt, 1, memory.finish(Side::Kernel));
    used(rt, 0, memory.finish(Side::Kernel));
}

/// What the step left in memory: its write, and the flags that its walks set. Intel SDM volume 3, 32-bit paging: A is bit 5
/// and D bit 6.
fn check(rt: &impl Abort, ram: &Ram) {
    given(rt, "its length", ram.len() == 131072);
    is_so(rt, "what it wrote", ram.read32(PLACE) == 0x1122_5566);
    is_so(rt, "table of the text", ram.read32(0x1100) == 0x2027);
    is_so(rt, "page of the text", ram.read32(0x2000) == 0x4027);
    is_so(rt, "second page", ram.read32(0x2004) == 0x5027);
    is_so(rt, "table of the data", ram.read32(0x1114) == 0x3027);
    is_so(rt, "page of the data", ram.read32(0x3000) == 0x6067);
}

fn memory(rt: &impl Abort, alloc: Global) -> Ram
    ensures { length result ≡ 131072 }
{
    let mut ram = ram_of(rt, alloc, 32);
    put_tables(&mut ram);
    ram
}

#[test]
fn step_over_one_pair_of_views(rt: HostRuntime) {
    let mut ram = memory(&rt, rt.alloc());
    let mut pool = pool_of(&rt, &mut ram, FRAMES, 16);
    let mut shadow = Shadow::new(&mut ram, &mut pool);
    step(&rt, &mut ram, &mut pool, &mut shadow);
    check(&rt, &ram);
}

#[test]
fn step_over_pairs_for_several_values(rt: HostRuntime) {
    let mut ram = memory(&rt, rt.alloc());
    let mut pool = pool_of(&rt, &mut ram, FRAMES, 16);
    let mut roots = Roots::new(rt.alloc(), &mut ram, &mut pool, 0x1000).expect(&rt, "memory");
    step(&rt, &mut ram, &mut pool, &mut roots);
    check(&rt, &ram);
}
