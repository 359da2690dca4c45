//! The lines of a trace. Each goes to the sink in one call, and takes no memory.

ghost use Rattle.std.specs.Prelude.{◌≡◌, ◌+◌, ◌++◌, ◌∷◌, [], ◌≤◌, ◌<◌, length, OnOk, OnErr, decimal, codes};
ghost use Rattle.arrayvec.specs.ArrayVec.{array_vec_len};
ghost use Rattle.pv_io.specs.Causes.{Rose};
ghost use Rattle.pv_io.specs.Sink.{Appends, AppendsFront};
ghost use Rattle.run_trace.specs.Text.{hex2, hex4, hex8, what_text, item_line, stop_name, end_text, end_line};

use crate::digits::{hex2, hex4, hex8};
use crate::items::{End, Ended, Item, What};
use arrayvec::ArrayVec;
use ia32_types::Stop;
use itoa::Buffer;
use pv_io::{Failed, Sink};

const ROOM: usize = 128;

type Line = ArrayVec<u8, ROOM>;

/// Puts an item's line, with its newline, in one call of the sink. `Failed` comes only where the sink's
/// count rose; a front of the line was then taken. Where the line was put the count is as it was.
#[tactic(auto, unfolding(crate::specs::Text::item_line))]
pub fn put_item<O: Sink>(item: &Item, out: &mut O) -> Result<(), Failed>
    ensures ok { OnOk result (Appends (O.taken out.old) (O.taken out.new) (item_line item.now)) }
    ensures failed { OnErr result (AppendsFront (O.taken out.old) (O.taken out.new) (item_line item.now)) }
    ensures kept { OnOk result (O.faults out.new ≡ O.faults out.old) }
    ensures cause { OnErr result (Rose (O.faults out.old) (O.faults out.new)) }
{
    let mut line: Line = ArrayVec::new();
    number(item.step, &mut line);
    what(item.what, &mut line);
    add(b"\n", &mut line);
    out.put(line.as_slice())
}

/// Puts the last line, in the same way.
#[tactic(auto, unfolding(crate::specs::Text::end_line))]
pub fn put_end<O: Sink>(ended: &Ended, out: &mut O) -> Result<(), Failed>
    ensures ok { OnOk result (Appends (O.taken out.old) (O.taken out.new) (end_line ended.now.steps ended.now.end)) }
    ensures failed { OnErr result (AppendsFront (O.taken out.old) (O.taken out.new) (end_line ended.now.steps ended.now.end)) }
    ensures kept { OnOk result (O.faults out.new ≡ O.faults out.old) }
    ensures cause { OnErr result (Rose (O.faults out.old) (O.faults out.new)) }
{
    let mut line: Line = ArrayVec::new();
    add(b"end steps ", &mut line);
    number(ended.steps, &mut line);
    how(ended.end, &mut line);
    add(b"\n", &mut line);
    out.put(line.as_slice())
}

fn add(text: &[u8], line: &mut Line)
    requires { length line.old.items + length text.now ≤ 128 }
    ensures { line.new.items ≡ line.old.items ++ text.now }
{
    for byte in text {
        line.push(*byte);
    }
}

fn number(n: u64, line: &mut Line)
    requires { length line.old.items ≤ 64 }
    ensures text { line.new.items ≡ line.old.items ++ decimal n }
    ensures len { length line.new.items ≤ length line.old.items + 40 }
{
    let mut buffer = Buffer::new();
    add(buffer.format(n).as_bytes(), line);
}

fn byte(value: u8, line: &mut Line)
    requires { length line.old.items < 120 }
    ensures { line.new.items ≡ line.old.items ++ hex2 value }
{
    add(&hex2(value), line);
}

fn half(value: u16, line: &mut Line)
    requires { length line.old.items < 110 }
    ensures { line.new.items ≡ line.old.items ++ hex4 value }
{
    add(&hex4(value), line);
}

fn word(value: u32, line: &mut Line)
    requires { length line.old.items < 100 }
    ensures { line.new.items ≡ line.old.items ++ hex8 value }
{
    add(&hex8(value), line);
}

#[tactic(auto, unfolding(crate::specs::Text::what_text))]
fn what(what: What, line: &mut Line)
    requires { length line.old.items ≤ 80 }
    ensures text { line.new.items ≡ line.old.items ++ what_text what }
    ensures len { length line.new.items ≤ length line.old.items + 40 }
{
    match what {
        What::In8(port, value) => port_byte(b" in8 ", port, value, line),
        What::In32(port, value) => port_word(b" in32 ", port, value, line),
        What::Out8(port, value) => port_byte(b" out8 ", port, value, line),
        What::Out32(port, value) => port_word(b" out32 ", port, value, line),
        What::Sent(value) => named_byte(b" tx ", value, line),
        What::Irq(vector) => named_byte(b" irq ", vector, line),
    }
}

fn named_byte(name: &[u8], value: u8, line: &mut Line)
    requires { length line.old.items + length name.now ≤ 100 }
    ensures { line.new.items ≡ line.old.items ++ (name.now ++ hex2 value) }
{
    add(name, line);
    byte(value, line);
}

fn port_byte(name: &[u8], port: u16, value: u8, line: &mut Line)
    requires { length line.old.items + length name.now ≤ 100 }
    ensures { line.new.items ≡ line.old.items ++ (name.now ++ hex4 port ++ codes " " ++ hex2 value) }
{
    add(name, line);
    half(port, line);
    add(b" ", line);
    byte(value, line);
}

fn port_word(name: &[u8], port: u16, value: u32, line: &mut Line)
    requires { length line.old.items + length name.now ≤ 90 }
    ensures { line.new.items ≡ line.old.items ++ (name.now ++ hex4 port ++ codes " " ++ hex8 value) }
{
    add(name, line);
    half(port, line);
    add(b" ", line);
    word(value, line);
}

fn how(end: End, line: &mut Line)
    requires { length line.old.items ≤ 60 }
    ensures text { line.new.items ≡ line.old.items ++ end_text end }
    ensures len { length line.new.items ≤ length line.old.items + 46 }
{
    if let End::Stopped(stop) = end {
        add(b" stop ", line);
        add(name(stop), line);
    }
}

#[tactic(auto, unfolding(crate::specs::Text::stop_name))]
fn name(stop: Stop) -> &'static [u8]
    ensures name { result.now ≡ stop_name stop }
    ensures len { length result.now ≤ 40 }
{
    match stop {
        Stop::Unsupported => b"1 Unsupported",
        Stop::BeyondRam => b"2 BeyondRam",
        Stop::WrapAccess => b"3 WrapAccess",
        Stop::DeliveryFailed => b"4 DeliveryFailed",
        Stop::ControlBits => b"5 ControlBits",
        Stop::DeviceUse => b"6 DeviceUse",
        Stop::FlagBits => b"7 FlagBits",
        Stop::SegmentForm => b"8 SegmentForm",
        Stop::TextTouched => b"9 TextTouched",
        Stop::WedgeTouched => b"10 WedgeTouched",
        Stop::LowTouched => b"11 LowTouched",
        Stop::NotAStart => b"12 NotAStart",
        Stop::TextMapped => b"13 TextMapped",
        Stop::TableInText => b"14 TableInText",
        Stop::UserFlags => b"15 UserFlags",
        Stop::CodeIsTable => b"16 CodeIsTable",
    }
}
