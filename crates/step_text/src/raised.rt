//! The exception that a step raised, the handler that it entered, and the access at which it stops.

ghost use Rattle.std.specs.Prelude.{◌≡◌, ◌+◌, ◌++◌, ◌≤◌, ◌==◌, ◌%◌, length, codes};
ghost use Rattle.run_trace.specs.Text.{hex8};
ghost use Rattle.step_text.specs.Raised as spec;

use crate::activity::Activity;
use crate::row::{Row, extend};
use arrayvec::ArrayVec;
use descriptors::Cpu;
use ia32_text::{Line, add, eight_digits, four_digits, two_digits};

/// An exception: its vector, its error code, where it has one, and the linear address of a page fault.
#[derive(Clone, Copy)]
pub struct Raised {
    pub vector: u8,
    pub code: Option<u32>,
    pub at: Option<u32>,
}

#[tactic(auto, unfolding(crate::specs::Raised::vector_name))]
fn put_vector(vector: u8, line: &mut Line)
    requires { length line.old.items ≤ 100 }
    ensures text { line.new.items ≡ line.old.items ++ spec.vector_name vector }
    ensures len { length line.new.items ≤ length line.old.items + 2 }
{
    match vector {
        0 => add(b"DE", line),
        6 => add(b"UD", line),
        11 => add(b"NP", line),
        12 => add(b"SS", line),
        13 => add(b"GP", line),
        14 => add(b"PF", line),
        _ => two_digits(vector, line),
    }
}

#[tactic(auto, unfolding(crate::specs::Raised::code_text))]
fn put_code(code: Option<u32>, line: &mut Line)
    requires { length line.old.items ≤ 100 }
    ensures text { line.new.items ≡ line.old.items ++ spec.code_text code }
    ensures len { length line.new.items ≤ length line.old.items + 5 }
{
    if let Some(code) = code {
        add(b" ", line);
        four_digits((code % 65536) as u16, line);
    }
}

/// A number of 32 bits after a mark.
fn put_marked(mark: &[u8], number: u32, line: &mut Line)
    requires room { length line.old.items ≤ 100 }
    requires short { length mark.now ≤ 4 }
    ensures text { line.new.items ≡ line.old.items ++ (mark.now ++ hex8 number) }
    ensures len { length line.new.items ≤ length line.old.items + 12 }
{
    add(mark, line);
    eight_digits(number, line);
}

#[tactic(auto, unfolding(crate::specs::Raised::address_text))]
fn put_address(at: Option<u32>, line: &mut Line)
    requires { length line.old.items ≤ 100 }
    ensures text { line.new.items ≡ line.old.items ++ spec.address_text at }
    ensures len { length line.new.items ≤ length line.old.items + 12 }
{
    if let Some(at) = at {
        put_marked(b" at ", at, line);
    }
}

fn put_handler(after: &Cpu, line: &mut Line)
    requires { length line.old.items ≤ 100 }
    ensures text { line.new.items ≡ line.old.items ++ spec.handler_text after.now }
    ensures len { length line.new.items ≤ length line.old.items + 12 }
{
    put_marked(b" -> ", after.regs.eip, line);
}

fn put_exception(raised: Raised, line: &mut Line)
    requires { length line.old.items ≤ 10 }
    ensures text { line.new.items ≡ line.old.items ++ spec.exception_text raised }
    ensures len { length line.new.items ≤ length line.old.items + 22 }
{
    add(b"  #", line);
    put_vector(raised.vector, line);
    put_code(raised.code, line);
    put_address(raised.at, line);
}

/// Puts the exception that was raised, with the processor after the step.
#[tactic(auto, unfolding(crate::specs::Raised::raised_text))]
pub fn put_raised(raised: Option<Raised>, after: &Cpu, row: &mut Row)
    requires { length row.old.items ≤ 100 }
    ensures text { row.new.items ≡ row.old.items ++ spec.raised_text raised after.now }
    ensures len { length row.new.items ≤ length row.old.items + 34 }
{
    if let Some(raised) = raised {
        let mut line: Line = ArrayVec::new();
        put_exception(raised, &mut line);
        put_handler(after, &mut line);
        extend(line.as_slice(), row);
    }
}

/// Puts the exception that was raised, where its delivery stops.
#[tactic(auto, unfolding(crate::specs::Raised::undelivered_text))]
pub fn put_undelivered(raised: Option<Raised>, row: &mut Row)
    requires { length row.old.items ≤ 100 }
    ensures text { row.new.items ≡ row.old.items ++ spec.undelivered_text raised }
    ensures len { length row.new.items ≤ length row.old.items + 22 }
{
    if let Some(raised) = raised {
        let mut line: Line = ArrayVec::new();
        put_exception(raised, &mut line);
        extend(line.as_slice(), row);
    }
}

/// Puts the linear address of the access at which a step stops.
#[tactic(auto, unfolding(crate::specs::Raised::access_text))]
pub fn put_access(at: Option<u32>, row: &mut Row)
    requires { length row.old.items ≤ 100 }
    ensures text { row.new.items ≡ row.old.items ++ spec.access_text at }
    ensures len { length row.new.items ≤ length row.old.items + 17 }
{
    if let Some(at) = at {
        let mut line: Line = ArrayVec::new();
        add(b"  access ", &mut line);
        eight_digits(at, &mut line);
        extend(line.as_slice(), row);
    }
}

/// Puts the handler of an interrupt that was taken, with the processor after the step.
#[tactic(auto, unfolding(crate::specs::Raised::interrupt_text))]
pub fn put_interrupt(does: Activity, after: &Cpu, row: &mut Row)
    requires { length row.old.items ≤ 100 }
    ensures text { row.new.items ≡ row.old.items ++ spec.interrupt_text does after.now }
    ensures len { length row.new.items ≤ length row.old.items + 13 }
{
    match does {
        Activity::Takes(_) => {
            let mut line: Line = ArrayVec::new();
            add(b" ", &mut line);
            put_handler(after, &mut line);
            extend(line.as_slice(), row);
        }
        _ => {}
    }
}
