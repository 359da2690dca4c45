//! Which instructions are sites, and which are refused by name.

use ia32_types::{Insn, Op, Operand, Reg, SiteKind, Size, Stop, sensitive};

/// The kinds of sites, with their numbers, and the instructions that make them.
const SITES: [(u8, SiteKind, Op); 22] = [
    (1, SiteKind::Cli, Op::Cli),
    (2, SiteKind::Sti, Op::Sti),
    (4, SiteKind::Hlt, Op::Hlt),
    (5, SiteKind::PushFlags, Op::PushFlags),
    (6, SiteKind::PopFlags, Op::PopFlags),
    (7, SiteKind::Iret, Op::Iret),
    (8, SiteKind::ReadControl, Op::ReadControl),
    (9, SiteKind::WriteControl, Op::WriteControl),
    (10, SiteKind::LoadGdt, Op::LoadGdt),
    (11, SiteKind::LoadIdt, Op::LoadIdt),
    (12, SiteKind::LoadTask, Op::LoadTask),
    (13, SiteKind::DropPage, Op::DropPage),
    (14, SiteKind::ReadSeg, Op::ReadSeg),
    (15, SiteKind::LoadSeg, Op::LoadSeg),
    (16, SiteKind::PushSeg, Op::PushSeg),
    (17, SiteKind::PopSeg, Op::PopSeg),
    (18, SiteKind::FarJump, Op::FarJump),
    (19, SiteKind::PortIn, Op::PortIn),
    (20, SiteKind::PortOut, Op::PortOut),
    (21, SiteKind::Return, Op::Return),
    (22, SiteKind::JumpTo, Op::JumpTo),
    (23, SiteKind::CallTo, Op::CallTo),
];

/// The instructions that make none.
const PLAIN: [Op; 50] = [
    Op::Add,
    Op::Or,
    Op::Adc,
    Op::Sbb,
    Op::And,
    Op::Sub,
    Op::Xor,
    Op::Cmp,
    Op::Test,
    Op::Not,
    Op::Neg,
    Op::Mul,
    Op::Imul,
    Op::ImulBy,
    Op::Div,
    Op::Idiv,
    Op::Inc,
    Op::Dec,
    Op::Rol,
    Op::Ror,
    Op::Shl,
    Op::Shr,
    Op::Sar,
    Op::Mov,
    Op::Movzx,
    Op::Movsx,
    Op::Lea,
    Op::Xchg,
    Op::Push,
    Op::Pop,
    Op::Pusha,
    Op::Popa,
    Op::Cwde,
    Op::Cdq,
    Op::Leave,
    Op::Nop,
    Op::Jcc,
    Op::Setcc,
    Op::Jmp,
    Op::Call,
    Op::Int,
    Op::Int3,
    Op::Ud2,
    Op::Movs,
    Op::Stos,
    Op::Lods,
    Op::Clc,
    Op::Stc,
    Op::Cld,
    Op::Std,
];

fn named(op: Op) -> Insn {
    Insn {
        op,
        size: Size::Long,
        a: Operand::Absent,
        b: Operand::Absent,
        imm: 0,
        sel: 0,
        rep: false,
    }
}

fn is_made(op: Op, kind: SiteKind, number: u8) -> bool {
    sensitive(&named(op)) == Some(kind) && kind as u8 == number
}

#[test]
fn sites_have_kinds_and_numbers(rt: HostRuntime) {
    for row in &SITES {
        let (number, kind, op) = *row;
        assert!(rt; is_made(op, kind, number), "{number}");
    }
    assert!(rt; SiteKind::StiHlt as u8 == 3);
}

#[test]
fn other_instructions_make_no_site(rt: HostRuntime) {
    for (k, op) in PLAIN.iter().enumerate() {
        assert!(rt; sensitive(&named(*op)).is_none(), "row {k}");
    }
}

/// The registers by their numbers in SDM volume 2.
const REGISTERS: [(u8, Reg); 8] = [
    (0, Reg::Eax),
    (1, Reg::Ecx),
    (2, Reg::Edx),
    (3, Reg::Ebx),
    (4, Reg::Esp),
    (5, Reg::Ebp),
    (6, Reg::Esi),
    (7, Reg::Edi),
];

/// Stops by their numbers.
const STOPS: [(u8, Stop); 5] = [
    (1, Stop::Unsupported),
    (6, Stop::DeviceUse),
    (9, Stop::TextTouched),
    (12, Stop::NotAStart),
    (16, Stop::CodeIsTable),
];

#[test]
fn registers_have_the_documented_numbers(rt: HostRuntime) {
    for row in &REGISTERS {
        let (number, reg) = *row;
        assert!(rt; reg.number() == number, "{number}");
    }
}

#[test]
fn stops_have_the_documented_numbers(rt: HostRuntime) {
    for row in &STOPS {
        let (number, stop) = *row;
        assert!(rt; stop as u8 == number, "{number}");
    }
}
