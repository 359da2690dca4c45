//! The parts that an instruction has in a row, and whether the row's form can spell them.

ghost use Rattle.std.specs.Prelude.{◌≡◌, List};
ghost use Rattle.ia32_rows.specs.Fields.{has_place};
ghost use Rattle.ia32_rows.specs.Spelling.{insn_of};
ghost use Rattle.ia32_encode.specs.Text.{is_signed_byte, base_number, index_number, memory_len, disp_len_of};
ghost use Rattle.ia32_encode.specs.Parts.{number_in, rm_from, digit_of, reg_from, low_from, code_from, sel_from, parts_for, address_fits, rm_fits, is_absent, is_offset, addressing_fits, immediate_fits, form_fits};

use ia32_rows::{
    Addressing, Form, Immediate, Operands, Parts, Plus, RmForm, Row, Slash, fits_code, fits_slash,
};
use ia32_types::{Address, Insn, Operand, Reg, Size, sign_extended_32};

fn number(o: Operand) -> u8
    ensures { result ≡ number_in o }
{
    match o {
        Operand::Register(n) => n,
        Operand::Control(n) => n,
        Operand::Segment(s) => s.number(),
        Operand::Absent | Operand::Memory(_) => 0,
    }
}

/// Whether the number is a byte that was sign-extended.
pub fn fits_signed_byte(n: u32) -> bool
    ensures { result ≡ is_signed_byte n }
{
    sign_extended_32(Size::Byte, n % 256) == n
}

/// The number of the base register; 5 stands for none.
pub fn base_code(base: Option<Reg>) -> u8
    ensures { result ≡ base_number base }
{
    match base {
        None => 5,
        Some(r) => r.number(),
    }
}

/// The number of the index register; 4 stands for none.
pub fn index_code(index: Option<Reg>) -> u8
    ensures { result ≡ index_number index }
{
    match index {
        None => 4,
        Some(r) => r.number(),
    }
}

fn memory_disp_len(wide: bool, a: Address) -> u8
    ensures { result ≡ memory_len wide a }
{
    if wide || a.base.is_none() {
        4
    } else if a.disp == 0 && base_code(a.base) != 5 {
        0
    } else if fits_signed_byte(a.disp) {
        1
    } else {
        4
    }
}

fn disp_len(wide: bool, rm: Operand) -> u8
    ensures { result ≡ disp_len_of wide rm }
{
    match rm {
        Operand::Memory(a) => memory_disp_len(wide, a),
        _ => 0,
    }
}

fn rm_operand(operands: Operands, a: Operand, b: Operand) -> Operand
    ensures { result ≡ rm_from operands a b }
{
    match operands {
        Operands::Rm
        | Operands::RmReg
        | Operands::RmCount
        | Operands::RmAccumulator
        | Operands::RmControl
        | Operands::RmSegment
        | Operands::TwoRegisters => a,
        Operands::RegRm | Operands::AccumulatorRm | Operands::ControlRm | Operands::SegmentRm => b,
        _ => Operand::Absent,
    }
}

fn digit(addressing: Addressing) -> u8
    ensures { result ≡ digit_of addressing }
{
    match addressing {
        Addressing::Modrm(form) => match form.slash {
            Slash::Digit(d) => d,
            _ => 0,
        },
        _ => 0,
    }
}

fn reg_field(operands: Operands, digit: u8, a: Operand, b: Operand) -> u8
    ensures { result ≡ reg_from operands digit a b }
{
    match operands {
        Operands::RmReg | Operands::RmControl | Operands::RmSegment | Operands::TwoRegisters =>
            number(b),
        Operands::RegRm | Operands::ControlRm | Operands::SegmentRm => number(a),
        _ => digit,
    }
}

fn opcode_register(operands: Operands, a: Operand, b: Operand) -> u8
    ensures { result ≡ low_from operands a b }
{
    match operands {
        Operands::Opcode => number(a),
        Operands::AccumulatorOpcode => number(b),
        _ => 0,
    }
}

fn opcode_byte(plus: Plus, opcode: u8, low: u8, sel: u16) -> u8
    ensures { result ≡ code_from plus opcode low sel }
{
    match plus {
        Plus::Nothing => opcode,
        Plus::Register | Plus::OtherRegister => opcode / 8 * 8 + low % 8,
        Plus::Condition => opcode / 16 * 16 + (sel % 16) as u8,
    }
}

fn selector(plus: Plus, sel: u16) -> u16
    ensures { result ≡ sel_from plus sel }
{
    match plus {
        Plus::Condition => 0,
        _ => sel,
    }
}

/// The parts that the instruction has in the row.
#[tactic(auto, unfolding(crate::specs::Parts::parts_for))]
pub fn parts(row: &Row, wide: bool, insn: &Insn) -> Parts
    ensures { result ≡ parts_for row.now wide insn.now }
{
    let low = opcode_register(row.operands, insn.a, insn.b);
    let rm = rm_operand(row.operands, insn.a, insn.b);
    Parts {
        code: opcode_byte(row.form.plus, row.form.opcode, low, insn.sel),
        reg: reg_field(row.operands, digit(row.form.addressing), insn.a, insn.b),
        rm,
        disp_len: disp_len(wide, rm),
        imm: insn.imm,
        sel: selector(row.form.plus, insn.sel),
    }
}

fn fits_address(a: Address) -> bool
    ensures { result ≡ address_fits a }
{
    if a.index.is_none() {
        a.scale == 1
    } else {
        index_code(a.index) != 4 && (a.scale == 1 || a.scale == 2 || a.scale == 4 || a.scale == 8)
    }
}

fn fits_rm(place: RmForm, rm: Operand) -> bool
    ensures { result ≡ rm_fits place rm }
{
    match rm {
        Operand::Register(n) => n < 8 && place != RmForm::Memory,
        Operand::Memory(a) => fits_address(a) && place != RmForm::Register,
        _ => false,
    }
}

fn fits_addressing(addressing: Addressing, reg: u8, rm: Operand) -> bool
    ensures { result ≡ addressing_fits addressing reg rm }
{
    match addressing {
        Addressing::Nothing => reg == 0 && matches!(&rm, Operand::Absent),
        Addressing::Offset => match rm {
            Operand::Memory(a) => {
                reg == 0 && a.base.is_none() && a.index.is_none() && a.scale == 1
            }
            _ => false,
        },
        Addressing::Modrm(form) => {
            reg < 8 && fits_slash(form.slash, reg) && fits_rm(form.place, rm)
        }
    }
}

fn fits_immediate(immediate: Immediate, imm: u32, sel: u16) -> bool
    ensures { result ≡ immediate_fits immediate imm sel }
{
    match immediate {
        Immediate::Nothing => imm == 0 && sel == 0,
        Immediate::One => imm == 1 && sel == 0,
        Immediate::Byte => imm < 256 && sel == 0,
        Immediate::SignedByte => fits_signed_byte(imm) && sel == 0,
        Immediate::Word => imm < 65536 && sel == 0,
        Immediate::Long => sel == 0,
        Immediate::Far => true,
    }
}

/// Whether the form can spell the parts.
#[tactic(auto, unfolding(crate::specs::Parts::form_fits))]
pub fn fits(form: &Form, parts: &Parts) -> bool
    ensures { result ≡ form_fits form.now parts.now }
{
    fits_code(form, parts.code)
        && fits_addressing(form.addressing, parts.reg, parts.rm)
        && fits_immediate(form.immediate, parts.imm, parts.sel)
}
