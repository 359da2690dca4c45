//! An instruction's text.

ghost use Rattle.std.specs.Prelude.{◌≡◌, ◌+◌, ◌++◌, ◌≤◌, length, codes, Bool};
ghost use Rattle.std.specs.Option.{option_map};
ghost use Rattle.ia32_text.specs.Arguments.{mark_of, reg_name, displacement_of, displacement_with};
ghost use Rattle.ia32_text.specs.Arguments.{immediate_with, form_with, arguments_with};
ghost use Rattle.ia32_text.specs.Kinds.{ending_of};
ghost use Rattle.ia32_text.specs.Statement as statement;
ghost use Rattle.ia32_text.specs.Text as spec;

use crate::kinds::{Ending, ending_of};
use crate::line::{Line, add};
use crate::names::{condition_name, stem};
use crate::numbers::{by_label, eight_digits, plain, signed};
use crate::operands::{Operands, Written, operands_of};
use crate::registers::{control_name, long_name, register_name, segment_name};
use crate::style::{Style, Target};
use ia32_types::{Address, Insn, Reg, Size};

fn letter(size: Size) -> &'static [u8]
    ensures letter { result.now ≡ statement.letter size }
    ensures len { length result.now ≡ 1 }
{
    match size {
        Size::Byte => b"b",
        Size::Word => b"w",
        Size::Long => b"l",
    }
}

fn put_end(insn: &Insn, line: &mut Line)
    requires { length line.old.items ≤ 300 }
    ensures text { line.new.items ≡ line.old.items ++ statement.end_of (ending_of insn.now.op) insn.now }
    ensures len { length line.new.items ≤ length line.old.items + 2 }
{
    match ending_of(insn.op) {
        Ending::Nothing => {}
        Ending::Sized => add(letter(insn.size), line),
        Ending::Widened => {
            add(letter(insn.size), line);
            add(b"l", line);
        }
        Ending::Condition => add(condition_name(insn.sel), line),
    }
}

#[tactic(auto, unfolding(crate::specs::Statement::name_of))]
fn put_name(insn: &Insn, line: &mut Line)
    requires { length line.old.items ≤ 280 }
    ensures text { line.new.items ≡ line.old.items ++ statement.name_of insn.now }
    ensures len { length line.new.items ≤ length line.old.items + 10 }
{
    add(stem(insn.op), line);
    put_end(insn, line);
}

fn put_register(name: &[u8], line: &mut Line)
    requires room { length line.old.items ≤ 300 }
    requires short { length name.now ≤ 3 }
    ensures text { line.new.items ≡ line.old.items ++ spec.register_text name.now }
    ensures len { length line.new.items ≤ length line.old.items + 4 }
{
    add(b"%", line);
    add(name, line);
}

fn scale(scale: u8) -> &'static [u8]
    ensures text { result.now ≡ spec.scale_text scale }
    ensures len { length result.now ≡ 1 }
{
    match scale {
        1 => b"1",
        2 => b"2",
        4 => b"4",
        _ => b"8",
    }
}

fn put_base(base: Option<Reg>, line: &mut Line)
    requires { length line.old.items ≤ 300 }
    ensures text { line.new.items ≡ line.old.items ++ spec.base_text (option_map reg_name base) }
    ensures len { length line.new.items ≤ length line.old.items + 4 }
{
    if let Some(base) = base {
        put_register(long_name(base.number()), line);
    }
}

fn put_indexed(base: Option<Reg>, index: Reg, by: u8, line: &mut Line)
    requires { length line.old.items ≤ 280 }
    ensures text { line.new.items ≡ line.old.items ++
        (codes "(" ++ spec.base_text (option_map reg_name base) ++ codes "," ++ spec.register_text (reg_name index) ++ codes ","
        ++ spec.scale_text by ++ codes ")") }
    ensures len { length line.new.items ≤ length line.old.items + 13 }
{
    add(b"(", line);
    put_base(base, line);
    add(b",", line);
    put_register(long_name(index.number()), line);
    add(b",", line);
    add(scale(by), line);
    add(b")", line);
}

fn put_based(base: Reg, line: &mut Line)
    requires { length line.old.items ≤ 280 }
    ensures text { line.new.items ≡ line.old.items ++ (codes "(" ++ spec.register_text (reg_name base) ++ codes ")") }
    ensures len { length line.new.items ≤ length line.old.items + 6 }
{
    add(b"(", line);
    put_register(long_name(base.number()), line);
    add(b")", line);
}

fn put_place(address: &Address, line: &mut Line)
    requires { length line.old.items ≤ 280 }
    ensures text { line.new.items ≡ line.old.items ++
        spec.place_text (option_map reg_name address.now.base) (option_map reg_name address.now.index) address.now.scale }
    ensures len { length line.new.items ≤ length line.old.items + 13 }
{
    match (address.base, address.index) {
        (base, Some(index)) => put_indexed(base, index, address.scale, line),
        (Some(base), None) => put_based(base, line),
        (None, None) => {}
    }
}

fn put_signed(address: &Address, line: &mut Line)
    requires { length line.old.items ≤ 260 }
    ensures text { line.new.items ≡ line.old.items ++ spec.displacement_text (displacement_of address.now) }
    ensures len { length line.new.items ≤ length line.old.items + 11 }
{
    if address.base.is_none() && address.index.is_none() {
        plain(address.disp, line);
    } else if address.disp != 0 || address.base.is_none() {
        signed(address.disp, line);
    }
}

fn put_displacement(address: &Address, named: bool, line: &mut Line)
    requires { length line.old.items ≤ 250 }
    ensures text { line.new.items ≡ line.old.items ++ spec.displacement_text (displacement_with named address.now) }
    ensures len { length line.new.items ≤ length line.old.items + 20 }
{
    if named {
        by_label(address.disp, line);
    } else {
        put_signed(address, line);
    }
}

#[tactic(auto, unfolding(crate::specs::Text::form_text))]
fn put_memory(address: &Address, style: Style, line: &mut Line)
    requires { length line.old.items ≤ 240 }
    ensures text { line.new.items ≡ line.old.items ++ spec.form_text (form_with style (Written.Memory address.now)) }
    ensures len { length line.new.items ≤ length line.old.items + 33 }
{
    put_displacement(address, style.named.disp, line);
    put_place(address, line);
}

fn put_number(number: u32, named: bool, line: &mut Line)
    requires { length line.old.items ≤ 250 }
    ensures text { line.new.items ≡ line.old.items ++ spec.value_text (immediate_with named number) }
    ensures len { length line.new.items ≤ length line.old.items + 20 }
{
    if named {
        by_label(number, line);
    } else {
        plain(number, line);
    }
}

#[tactic(auto, unfolding(crate::specs::Text::form_text))]
fn put_immediate(number: u32, style: Style, line: &mut Line)
    requires { length line.old.items ≤ 240 }
    ensures text { line.new.items ≡ line.old.items ++ spec.form_text (form_with style (Written.Immediate number)) }
    ensures len { length line.new.items ≤ length line.old.items + 21 }
{
    add(b"$", line);
    put_number(number, style.named.imm, line);
}

fn mark(target: Target) -> &'static [u8]
    ensures mark { result.now ≡ mark_of target }
    ensures len { length result.now ≤ 2 }
{
    match target {
        Target::Label => b"L",
        Target::Address => b"0x",
    }
}

#[tactic(auto, unfolding(crate::specs::Text::form_text))]
fn put_target(address: u32, style: Style, line: &mut Line)
    requires { length line.old.items ≤ 240 }
    ensures text { line.new.items ≡ line.old.items ++ spec.form_text (form_with style (Written.Label address)) }
    ensures len { length line.new.items ≤ length line.old.items + 10 }
{
    add(mark(style.target), line);
    eight_digits(address, line);
}

#[tactic(auto, unfolding(crate::specs::Text::form_text))]
fn put_written(written: Written, style: Style, line: &mut Line)
    requires { length line.old.items ≤ 240 }
    ensures text { line.new.items ≡ line.old.items ++ spec.form_text (form_with style written) }
    ensures len { length line.new.items ≤ length line.old.items + 33 }
{
    match written {
        Written::Register(size, number) => put_register(register_name(size, number), line),
        Written::Segment(segment) => put_register(segment_name(segment), line),
        Written::Control(number) => put_register(control_name(number), line),
        Written::Memory(address) => put_memory(&address, style, line),
        Written::Immediate(number) => put_immediate(number, style, line),
        Written::Port => add(b"(%dx)", line),
        Written::Label(address) => put_target(address, style, line),
    }
}

/// An operand after what stands before it.
fn put_behind(front: &[u8], written: Written, style: Style, line: &mut Line)
    requires room { length line.old.items ≤ 230 }
    requires short { length front.now ≤ 2 }
    ensures text { line.new.items ≡ line.old.items ++ (front.now ++ spec.form_text (form_with style written)) }
    ensures len { length line.new.items ≤ length line.old.items + 35 }
{
    add(front, line);
    put_written(written, style, line);
}

fn put_operands(operands: Operands, style: Style, line: &mut Line)
    requires { length line.old.items ≤ 120 }
    ensures text { line.new.items ≡ line.old.items ++ spec.arguments_text (arguments_with style operands) }
    ensures len { length line.new.items ≤ length line.old.items + 105 }
{
    match operands {
        Operands::Nothing => {}
        Operands::One(only) => put_behind(b" ", only, style, line),
        Operands::Starred(only) => put_behind(b" *", only, style, line),
        Operands::Two(first, second) => {
            put_behind(b" ", first, style, line);
            put_behind(b",", second, style, line);
        }
        Operands::Three(first, second, third) => {
            put_behind(b" ", first, style, line);
            put_behind(b",", second, style, line);
            put_behind(b",", third, style, line);
        }
    }
}

fn put_repeat(rep: bool, line: &mut Line)
    requires { length line.old.items ≤ 300 }
    ensures text { line.new.items ≡ line.old.items ++ spec.rep_text rep }
    ensures len { length line.new.items ≤ length line.old.items + 4 }
{
    if rep {
        add(b"rep ", line);
    }
}

/// Puts the text of the instruction that stands at this address and has this length.
#[tactic(auto, unfolding(crate::specs::Text::instruction_text, crate::specs::Text::text_of, crate::specs::Statement::statement_with))]
pub fn put_text(insn: &Insn, at: u32, len: u8, style: Style, line: &mut Line)
    requires { length line.old.items ≤ 100 }
    ensures text { line.new.items ≡ line.old.items ++ spec.instruction_text style insn.now at len }
    ensures len { length line.new.items ≤ length line.old.items + 119 }
{
    put_repeat(insn.rep, line);
    put_name(insn, line);
    put_operands(operands_of(insn, at, len), style, line);
}
