//! RET, and JMP and CALL through a register or memory, at both levels.

use crate::world::{
    ABSENT, Case, NONE, OPERAND, READ_ONLY, USER_STACK, comes_out, cpu_at, null, past, refused,
    with, with_cr2, with_segment,
};
use ia32_types::Stop;
use sys_exec::SysEffect;

/// What stands at OPERAND, and what stands on the stack.
const TARGET: u32 = 0x8765_4321;

const TOP: u32 = 0x1357_9BDF;

/// The outcome of a branch.
#[derive(Clone, Copy)]
enum Comes {
    /// EIP and ESP then.
    Goes(u32, u32),
    /// EIP then, where an instruction of so many bytes was called from.
    Calls(u32, u32),
    /// A page fault: its code, and CR2 then.
    Faults(u32, u32),
    /// A general protection fault.
    Protects,
    /// A range passes the last address.
    Wraps,
}

/// The bytes of the instruction, lowest first, the level, ESP, EAX, and its outcome.
type Row = (u64, u8, u32, u32, Comes);

const RETURNS_AND_JUMPS: [Row; 25] = [
    // ret
    (0xC3, 0, 0x6FF0, 0, Comes::Goes(TOP, 0x6FF4)),
    (0xC3, 3, 0x8FF0, 0, Comes::Goes(TOP, 0x8FF4)),
    (0xC3, 0, 0xEFFC, 0, Comes::Goes(TOP, 0xF000)),
    (0xC3, 0, 0xEFFD, 0, Comes::Faults(0, ABSENT)),
    (0xC3, 3, 0x6FF0, 0, Comes::Faults(5, 0x6FF0)),
    (0xC3, 0, 0xFFFF_FFFC, 0, Comes::Faults(0, 0xFFFF_FFFC)),
    (0xC3, 0, 0xFFFF_FFFD, 0, Comes::Wraps),
    // ret $0, ret $8, ret $0xffff: what is dropped isn't read
    (0x0000C2, 3, 0x8FF0, 0, Comes::Goes(TOP, 0x8FF4)),
    (0x0008C2, 0, 0x6FF0, 0, Comes::Goes(TOP, 0x6FFC)),
    (0x0008C2, 3, 0x8FF0, 0, Comes::Goes(TOP, 0x8FFC)),
    (0x0008C2, 0, 0xEFFC, 0, Comes::Goes(TOP, 0xF008)),
    (0xFFFFC2, 3, 0x8FF0, 0, Comes::Goes(TOP, 0x0001_8FF3)),
    (0x0008C2, 3, ABSENT, 0, Comes::Faults(4, ABSENT)),
    // jmp *%eax, jmp *%esp
    (0xE0FF, 0, 0x6FF0, ABSENT, Comes::Goes(ABSENT, 0x6FF0)),
    (0xE0FF, 3, 0x8FF0, 0x6000, Comes::Goes(0x6000, 0x8FF0)),
    (0xE4FF, 3, 0x8FF0, 0, Comes::Goes(0x8FF0, 0x8FF0)),
    // jmp *(%eax), jmp *0xa000, jmp *(%esp)
    (0x20FF, 0, 0x6FF0, OPERAND, Comes::Goes(TARGET, 0x6FF0)),
    (0x20FF, 3, 0x8FF0, OPERAND, Comes::Goes(TARGET, 0x8FF0)),
    (0xA000_25FF, 0, 0x6FF0, 0, Comes::Goes(TARGET, 0x6FF0)),
    (0xA000_25FF, 3, ABSENT, 0, Comes::Goes(TARGET, ABSENT)),
    (0x24_24FF, 3, 0x8FF0, 0, Comes::Goes(TOP, 0x8FF0)),
    (0x20FF, 0, 0x6FF0, 0xEFFD, Comes::Faults(0, ABSENT)),
    (0x20FF, 3, 0x8FF0, 0x6FF0, Comes::Faults(5, 0x6FF0)),
    (0x20FF, 3, 0x8FF0, ABSENT, Comes::Faults(4, ABSENT)),
    (0x20FF, 0, 0x6FF0, 0xFFFF_FFFD, Comes::Wraps),
];

const CALLS: [Row; 24] = [
    // call *%eax, call *%esp: the register as it was before the push
    (0xD0FF, 0, 0x6FF0, ABSENT, Comes::Calls(ABSENT, 2)),
    (0xD0FF, 3, 0x8FF0, 0x6000, Comes::Calls(0x6000, 2)),
    (0xD4FF, 0, 0x6FF0, 0, Comes::Calls(0x6FF0, 2)),
    (0xD4FF, 3, 0x8FF0, 0, Comes::Calls(0x8FF0, 2)),
    (
        0xD0FF,
        0,
        READ_ONLY + 0x10,
        0,
        Comes::Faults(3, READ_ONLY + 0x0C),
    ),
    (
        0xD0FF,
        3,
        READ_ONLY + 0x10,
        0,
        Comes::Faults(7, READ_ONLY + 0x0C),
    ),
    (0xD0FF, 3, 0x7000, 0, Comes::Faults(7, 0x6FFC)),
    (0xD0FF, 0, 0xF002, 0, Comes::Faults(2, ABSENT)),
    (0xD0FF, 0, 0, 0, Comes::Faults(2, 0xFFFF_FFFC)),
    (0xD0FF, 3, 3, 0, Comes::Wraps),
    // call *(%eax), call *0xa000, call *(%esp)
    (0x10FF, 0, 0x6FF0, OPERAND, Comes::Calls(TARGET, 2)),
    (0x10FF, 3, 0x8FF0, OPERAND, Comes::Calls(TARGET, 2)),
    (0xA000_15FF, 0, 0x6FF0, 0, Comes::Calls(TARGET, 6)),
    (0x24_14FF, 3, 0x8FF0, 0, Comes::Calls(TOP, 3)),
    // call *-4(%esp), where the push overwrites the target
    (0xFC24_54FF, 0, OPERAND + 4, 0, Comes::Calls(TARGET, 4)),
    (0xFC24_54FF, 3, OPERAND + 4, 0, Comes::Calls(TARGET, 4)),
    // the range that is read comes before the one that is pushed
    (
        0x10FF,
        0,
        ABSENT + 0x10,
        ABSENT + 8,
        Comes::Faults(0, ABSENT + 8),
    ),
    (0x10FF, 3, 0x7000, 0x6FF0, Comes::Faults(5, 0x6FF0)),
    (0x10FF, 3, 3, 0x6FF0, Comes::Faults(5, 0x6FF0)),
    (0x10FF, 0, ABSENT + 0x10, 0xFFFF_FFFD, Comes::Wraps),
    (
        0x10FF,
        0,
        ABSENT + 0x10,
        OPERAND,
        Comes::Faults(2, ABSENT + 0x0C),
    ),
    (0x10FF, 3, 0x7000, OPERAND, Comes::Faults(7, 0x6FFC)),
    (
        0x10FF,
        3,
        READ_ONLY + 4,
        READ_ONLY,
        Comes::Faults(7, READ_ONLY),
    ),
    (0x10FF, 3, 3, OPERAND, Comes::Wraps),
];

fn effect_of(comes: Comes) -> SysEffect {
    match comes {
        Comes::Goes(..) | Comes::Calls(..) => SysEffect::Next,
        Comes::Faults(code, _) => SysEffect::Raise { vector: 14, code },
        Comes::Protects => SysEffect::Raise {
            vector: 13,
            code: 0,
        },
        Comes::Wraps => SysEffect::Stop(Stop::WrapAccess),
    }
}

fn branch(row: Row) -> Case {
    let (word, cpl, stack, operand, comes) = row;
    let cpu = with(with(cpu_at(cpl), 4, stack), 0, operand);
    let mut before = NONE;
    before[0] = (OPERAND, TARGET);
    before[1] = (stack, TOP);
    let mut case = refused(cpu, before, word.to_le_bytes(), effect_of(comes));
    match comes {
        Comes::Goes(target, top) => {
            case.then = with(cpu, 4, top);
            case.then.regs.eip = target;
        }
        Comes::Calls(target, len) => {
            let top = stack.wrapping_sub(4);
            case.then = with(cpu, 4, top);
            case.then.regs.eip = target;
            case.after[0] = (top, past(cpu, len).regs.eip);
        }
        Comes::Faults(_, at) => case.then = with_cr2(cpu, at),
        _ => {}
    }
    case
}

#[test]
fn returns_and_jumps_lead_to_their_targets(rt: HostRuntime) {
    let alloc = rt.alloc();
    for (k, row) in RETURNS_AND_JUMPS.iter().enumerate() {
        comes_out(&rt, alloc, k, &branch(*row));
    }
}

#[test]
fn calls_push_where_they_come_back(rt: HostRuntime) {
    let alloc = rt.alloc();
    for (k, row) in CALLS.iter().enumerate() {
        comes_out(&rt, alloc, k, &branch(*row));
    }
}

// DS is null: an operand that uses it is denied before a range is translated, and no other.
const THROUGH_NULL: [Row; 9] = [
    (0x20FF, 0, 0x6FF0, OPERAND, Comes::Protects),
    (0x20FF, 3, 0x8FF0, 0xFFFF_FFFD, Comes::Protects),
    (0x10FF, 0, 3, ABSENT, Comes::Protects),
    (0xA000_15FF, 3, 0x8FF0, 0, Comes::Protects),
    (0xC3, 3, 0x8FF0, 0, Comes::Goes(TOP, 0x8FF4)),
    (0xE0FF, 0, 0x6FF0, ABSENT, Comes::Goes(ABSENT, 0x6FF0)),
    (0x24_24FF, 0, 0x6FF0, 0, Comes::Goes(TOP, 0x6FF0)),
    (0xD0FF, 3, 0x8FF0, ABSENT, Comes::Calls(ABSENT, 2)),
    (0x24_14FF, 0, 0x6FF0, 0, Comes::Calls(TOP, 3)),
];

fn through_null(row: Row) -> Case {
    let mut case = branch(row);
    case.cpu = with_segment(case.cpu, 3, null(0));
    case.then = with_segment(case.then, 3, null(0));
    case
}

#[test]
fn operands_go_by_their_segments(rt: HostRuntime) {
    let alloc = rt.alloc();
    for (k, row) in THROUGH_NULL.iter().enumerate() {
        comes_out(&rt, alloc, k, &through_null(*row));
    }
}

/// The entries of the pages A and 8, which were neither accessed nor written.
const OPERAND_ENTRY: u32 = 0x2028;

const STACK_ENTRY: u32 = 0x2020;

/// EAX, ESP, the outcome of a call through EAX at level 0, and both entries then.
type Walk = (u32, u32, Comes, u32, u32);

// The operand's page is translated first, then the stack's, and then the target is read.
const WALKS: [Walk; 4] = [
    (OPERAND, USER_STACK, Comes::Calls(TARGET, 2), 0xA027, 0x8067),
    (ABSENT, USER_STACK, Comes::Faults(0, ABSENT), 0xA007, 0x8007),
    (
        OPERAND,
        ABSENT + 4,
        Comes::Faults(2, ABSENT),
        0xA027,
        0x8007,
    ),
    (
        STACK_ENTRY,
        USER_STACK,
        Comes::Calls(0x8067, 2),
        0xA007,
        0x8067,
    ),
];

// A user's access has bit 2 in the code of its fault.
fn walked(row: Walk, cpl: u8) -> Case {
    let (operand, stack, comes, read, written) = row;
    let comes = match comes {
        Comes::Faults(code, at) if cpl == 3 => Comes::Faults(code | 4, at),
        _ => comes,
    };
    let mut case = branch((0x10FF, cpl, stack, operand, comes));
    case.before[2] = (OPERAND_ENTRY, 0xA007);
    case.before[3] = (STACK_ENTRY, 0x8007);
    case.after[1] = (OPERAND_ENTRY, read);
    case.after[2] = (STACK_ENTRY, written);
    case
}

#[test]
fn both_ranges_are_translated_before_a_target_is_read(rt: HostRuntime) {
    let alloc = rt.alloc();
    for (k, row) in WALKS.iter().enumerate() {
        for cpl in [0u8, 3] {
            comes_out(&rt, alloc, k, &walked(*row, cpl));
        }
    }
}
