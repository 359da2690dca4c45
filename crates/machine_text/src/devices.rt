//! The devices by their registers.

ghost use Rattle.std.specs.Prelude.{◌≡◌, ◌+◌, ◌++◌, ◌≤◌, length, take, drop, OnOk};
ghost use Rattle.machine_text.specs.Devices as spec;

use crate::numbers::{add_bytes, add_field};
use arrayvec::ArrayVec;
use board::Board;
use ia32_text::{Line, add, two_digits};
use std::alloc::AllocError;

fn add_chip_start(bytes: &[u8; 64], at: usize, line: &mut Line)
    requires at { at ≤ 7 }
    requires room { length line.old.items ≤ 100 }
    ensures text { line.new.items ≡ line.old.items ++ spec.chip_start bytes.now at }
    ensures len { length line.new.items ≤ length line.old.items + 40 }
{
    add_field(b"phase ", bytes[at], line);
    add_field(b" ready ", bytes[at + 1], line);
    add_field(b" irr ", bytes[at + 2], line);
    add_field(b" isr ", bytes[at + 3], line);
}

fn add_chip_end(bytes: &[u8; 64], at: usize, line: &mut Line)
    requires at { at ≤ 7 }
    requires room { length line.old.items ≤ 200 }
    ensures text { line.new.items ≡ line.old.items ++ spec.chip_end bytes.now at }
    ensures len { length line.new.items ≤ length line.old.items + 40 }
{
    add_field(b" imr ", bytes[at + 4], line);
    add_field(b" base ", bytes[at + 5], line);
    add_field(b" reads ", bytes[at + 6], line);
    add(b"\n", line);
}

fn add_chip(name: &[u8], bytes: &[u8; 64], at: usize, text: &mut Vec<u8>) -> Result<(), AllocError>
    requires at { at ≤ 7 }
    requires short { length name.now ≤ 20 }
    ensures { OnOk result (text.new.items ≡ text.old.items ++ spec.chip_text name.now bytes.now at) }
{
    let mut line: Line = ArrayVec::new();
    add(name, &mut line);
    add_chip_start(bytes, at, &mut line);
    add_chip_end(bytes, at, &mut line);
    text.extend_from_slice(line.as_slice())
}

fn add_four(bytes: &[u8; 64], at: usize, line: &mut Line)
    requires at { at ≤ 60 }
    requires room { length line.old.items ≤ 200 }
    ensures text { line.new.items ≡ line.old.items ++ spec.four_text bytes.now at }
    ensures len { length line.new.items ≤ length line.old.items + 8 }
{
    two_digits(bytes[at + 3], line);
    two_digits(bytes[at + 2], line);
    two_digits(bytes[at + 1], line);
    two_digits(bytes[at], line);
}

fn add_periods(bytes: &[u8; 64], line: &mut Line)
    requires room { length line.old.items ≤ 100 }
    ensures text { line.new.items ≡ line.old.items ++ spec.periods_text bytes.now }
    ensures len { length line.new.items ≤ length line.old.items + 30 }
{
    add(b" period ", line);
    add_four(bytes, 16, line);
    add(b" next ", line);
    add_four(bytes, 20, line);
}

fn add_left(bytes: &[u8; 64], line: &mut Line)
    requires room { length line.old.items ≤ 150 }
    ensures text { line.new.items ≡ line.old.items ++ spec.left_text bytes.now }
    ensures len { length line.new.items ≤ length line.old.items + 30 }
{
    add(b" left ", line);
    add_four(bytes, 28, line);
    add_four(bytes, 24, line);
    add(b"\n", line);
}

fn add_timer(bytes: &[u8; 64], text: &mut Vec<u8>) -> Result<(), AllocError>
    ensures { OnOk result (text.new.items ≡ text.old.items ++ spec.timer_text bytes.now) }
{
    let mut line: Line = ArrayVec::new();
    add_field(b"pit     phase ", bytes[14], &mut line);
    add_field(b" low ", bytes[15], &mut line);
    add_periods(bytes, &mut line);
    add_left(bytes, &mut line);
    text.extend_from_slice(line.as_slice())
}

fn rest_of(bytes: &[u8], at: usize) -> &[u8]
    requires { at ≤ length bytes.now }
    ensures bytes { result.now ≡ drop at bytes.now }
    ensures len { length result.now + at ≡ length bytes.now }
{
    &bytes[at..]
}

/// The first bytes, or all where there are fewer.
fn front(bytes: &[u8], count: usize) -> &[u8]
    ensures bytes { result.now ≡ take count bytes.now }
    ensures few { length result.now ≤ length bytes.now }
{
    if count < bytes.len() {
        &bytes[..count]
    } else {
        bytes
    }
}

/// The bytes that wait at the serial port.
fn waiting(bytes: &[u8]) -> &[u8]
    requires { length bytes.now ≡ 64 }
    ensures bytes { result.now ≡ spec.waiting bytes.now }
    ensures few { length result.now ≤ 25 }
{
    front(rest_of(bytes, 39), bytes[38] as usize)
}

fn add_serial_front(bytes: &[u8; 64], line: &mut Line)
    requires room { length line.old.items ≤ 50 }
    ensures text { line.new.items ≡ line.old.items ++ spec.serial_front bytes.now }
    ensures len { length line.new.items ≤ length line.old.items + 40 }
{
    add_field(b"uart    ier ", bytes[32], line);
    add_field(b" lcr ", bytes[33], line);
    add_field(b" mcr ", bytes[34], line);
}

fn add_serial_back(bytes: &[u8; 64], line: &mut Line)
    requires room { length line.old.items ≤ 50 }
    ensures text { line.new.items ≡ line.old.items ++ spec.serial_back bytes.now }
    ensures len { length line.new.items ≤ length line.old.items + 30 }
{
    add_field(b" scr ", bytes[35], line);
    add_field(b" dll ", bytes[36], line);
    add_field(b" dlm ", bytes[37], line);
}

fn add_waiting(bytes: &[u8; 64], line: &mut Line)
    requires room { length line.old.items ≤ 90 }
    ensures { line.new.items ≡ line.old.items ++ spec.waiting_text bytes.now }
{
    add(b" waiting", line);
    add_bytes(waiting(bytes), line);
    add(b"\n", line);
}

fn add_serial(bytes: &[u8; 64], text: &mut Vec<u8>) -> Result<(), AllocError>
    ensures { OnOk result (text.new.items ≡ text.old.items ++ spec.serial_text bytes.now) }
{
    let mut line: Line = ArrayVec::new();
    add_serial_front(bytes, &mut line);
    add_serial_back(bytes, &mut line);
    add_waiting(bytes, &mut line);
    text.extend_from_slice(line.as_slice())
}

fn add_board_bytes(bytes: &[u8; 64], text: &mut Vec<u8>) -> Result<(), AllocError>
    ensures { OnOk result (text.new.items ≡ text.old.items ++ spec.board_bytes_text bytes.now) }
{
    add_chip(b"pic1    ", bytes, 0, text)?;
    add_chip(b"pic2    ", bytes, 7, text)?;
    add_timer(bytes, text)?;
    add_serial(bytes, text)
}

/// Both 8259As, the 8254 and the 16550, a line each.
#[tactic(auto, unfolding(crate::specs::Devices::devices_text))]
pub fn add_devices(board: &Board, text: &mut Vec<u8>) -> Result<(), AllocError>
    ensures { OnOk result (text.new.items ≡ text.old.items ++ spec.devices_text board.now) }
{
    let bytes = board.save();
    add_board_bytes(&bytes, text)
}
