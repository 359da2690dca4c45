//! The 16550 by its data sheet and the profile.

use crate::asked::comes_so;
use ia32_types::Did;
use std::process::Abort;
use uart16550::Uart;

/// What is done to the port, and its result.
#[derive(Clone, Copy)]
enum Step {
    Receive(u8),
    Write(u16, u8, Did),
    Read(u16, u8),
    Line(bool),
}

/// Whether a step has the result that it states.
fn does(uart: &mut Uart, step: Step) -> bool {
    match step {
        Step::Receive(v) => {
            uart.receive(v);
            true
        }
        Step::Write(port, v, did) => uart.write(port, v) == did,
        Step::Read(port, v) => uart.read(port) == v,
        Step::Line(on) => uart.line() == on,
    }
}

fn follow(rt: &impl Abort, shown: &str, uart: &mut Uart, steps: &[Step]) {
    for (k, step) in steps.iter().enumerate() {
        comes_so(rt, shown, k, does(uart, *step));
    }
}

const NO_MORE: [Step; 3] = [
    Step::Read(0x3FD, 0x60),
    Step::Read(0x3FA, 1),
    Step::Read(0x3F8, 0),
];

/// Enables the receiver's interrupt, and writes that to the FIFO control register.
fn enable(rt: &impl Abort, uart: &mut Uart, buffers: u8) {
    let begin = [
        Step::Write(0x3F9, 1, Did::Done),
        Step::Write(0x3FA, buffers, Did::Done),
    ];
    follow(rt, "the beginning", uart, &begin);
}

fn receive_seventeen(uart: &mut Uart) {
    for v in 0x41..0x52 {
        uart.receive(v);
    }
}

/// A received byte is there, and is read.
fn read_received(rt: &impl Abort, uart: &mut Uart, v: u8) {
    let received = [
        Step::Read(0x3FD, 0x61),
        Step::Read(0x3FA, 4),
        Step::Read(0x3F8, v),
    ];
    follow(rt, "a byte", uart, &received);
}

/// Sixteen of seventeen bytes are received, whatever was written to the FIFO control register.
fn receive_sixteen(rt: &impl Abort, enabled: u8) {
    let mut uart = Uart::new();
    enable(rt, &mut uart, enabled);
    receive_seventeen(&mut uart);
    for v in 0x41..0x51 {
        read_received(rt, &mut uart, v);
    }
    follow(rt, "no more", &mut uart, &NO_MORE);
}

#[test]
fn receiver_keeps_sixteen_bytes_and_loses_the_seventeenth(rt: HostRuntime) {
    // as at the start; with the FIFOs, and with their trigger levels at 1 and 14 bytes; emptied at once
    for enabled in [0x00u8, 0x01, 0xC1, 0xC7] {
        receive_sixteen(&rt, enabled);
    }
}

const REGISTERS: [Step; 28] = [
    Step::Write(0x3F8, 0x48, Did::Sent(0x48)),
    Step::Write(0x3F9, 2, Did::Stop),
    Step::Write(0x3FC, 0x10, Did::Stop),
    // the divisor latch
    Step::Write(0x3FB, 0x83, Did::Done),
    Step::Write(0x3F8, 0x0C, Did::Done),
    Step::Write(0x3F9, 0x55, Did::Done),
    Step::Read(0x3F8, 0x0C),
    Step::Read(0x3F9, 0x55),
    Step::Write(0x3FB, 3, Did::Done),
    Step::Read(0x3F8, 0),
    Step::Read(0x3F9, 0),
    Step::Write(0x3F9, 1, Did::Done),
    Step::Read(0x3FA, 1),
    Step::Line(false),
    Step::Receive(0x41),
    Step::Read(0x3FA, 4),
    Step::Line(true),
    // bits 6 and 7 there are 0, and bit 1 alone empties the receiver
    Step::Write(0x3FA, 0xC5, Did::Done),
    Step::Read(0x3FA, 4),
    Step::Read(0x3FD, 0x61),
    Step::Write(0x3FA, 2, Did::Done),
    Step::Read(0x3FD, 0x60),
    Step::Line(false),
    Step::Write(0x3FC, 0xEF, Did::Done),
    Step::Write(0x3FF, 0x5A, Did::Done),
    Step::Read(0x3FC, 0x0F),
    Step::Read(0x3FE, 0xB0),
    Step::Read(0x3FF, 0x5A),
];

#[test]
fn registers_are_kept_shown_and_refused(rt: HostRuntime) {
    follow(&rt, "registers", &mut Uart::new(), &REGISTERS);
}
