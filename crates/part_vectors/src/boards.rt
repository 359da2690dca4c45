//! The board: ports, scripts, interrupts, and its state as 64 bytes.

ghost use Rattle.std.specs.Prelude.{◌≡◌, true};
ghost use Rattle.board.specs.ScriptForm.{is_script};

use crate::asked::{comes_so, holds, is_so};
use board::{Board, Event, PortRead, Script, ScriptCause, ScriptFault, read_script};
use ia32_types::Did;
use std::alloc::Global;
use std::process::Abort;

fn sent(board: &mut Board, port: u16, v: u8) -> Did {
    board.port_out(port, false, v as u32)
}

/// Ports, and the bytes that start both controllers there.
static STARTS: [(u16, u8); 8] = [
    (0x20, 0x11),
    (0x21, 0x20),
    (0x21, 4),
    (0x21, 1),
    (0xA0, 0x11),
    (0xA1, 0x28),
    (0xA1, 2),
    (0xA1, 1),
];

/// A board with both controllers started: the vector bases are 0x20 and 0x28.
fn started() -> Board {
    let mut board = Board::new();
    for row in &STARTS {
        let (port, v) = *row;
        let _ = sent(&mut board, port, v);
    }
    board
}

/// Acknowledges what is pending.
fn taken(board: &mut Board) -> Option<u8> {
    board.pending()?;
    Some(board.acknowledge())
}

/// What is done to a board, and its result.
enum Step {
    Sent(u16, u8),
    Advance(u64),
    Pending(Option<u8>),
    Taken(Option<u8>),
}

/// Whether a step has the result that it states; a byte that is sent is taken.
fn does(board: &mut Board, step: &Step) -> bool {
    match *step {
        Step::Sent(port, v) => sent(board, port, v) == Did::Done,
        Step::Advance(k) => {
            board.advance(k);
            true
        }
        Step::Pending(vector) => board.pending() == vector,
        Step::Taken(vector) => taken(board) == vector,
    }
}

fn follow(rt: &impl Abort, shown: &str, board: &mut Board, steps: &[Step]) {
    for (k, step) in steps.iter().enumerate() {
        comes_so(rt, shown, k, does(board, step));
    }
}

static TIMER: [Step; 10] = [
    Step::Sent(0x43, 0x34),
    Step::Sent(0x40, 2),
    Step::Sent(0x40, 0),
    Step::Advance(15),
    Step::Pending(None),
    Step::Advance(1),
    Step::Pending(Some(0x20)),
    Step::Advance(0x1000_0000_0000_0000),
    Step::Taken(Some(0x20)),
    Step::Pending(None),
];

#[test]
fn timer_asks_after_eight_steps_a_count(rt: HostRuntime) {
    follow(&rt, "the timer", &mut started(), &TIMER);
}

/// A port, whether four bytes are read, and what is read.
type Read = (u16, bool, PortRead);

static READS: [Read; 13] = [
    (0x40, false, PortRead::Stop),
    (0x41, false, PortRead::Value(0xFF)),
    (0x43, false, PortRead::Value(0xFF)),
    (0x21, false, PortRead::Value(0xFF)),
    (0x80, true, PortRead::Value(0xFFFF_FFFF)),
    (0x1C, true, PortRead::Value(0xFFFF_FFFF)),
    (0x1D, true, PortRead::Stop),
    (0x22, true, PortRead::Value(0xFFFF_FFFF)),
    (0x3F4, true, PortRead::Value(0xFFFF_FFFF)),
    (0x3F5, true, PortRead::Stop),
    (0x3FF, true, PortRead::Stop),
    (0x400, true, PortRead::Value(0xFFFF_FFFF)),
    (0xFFFF, true, PortRead::Value(0xFFFF_FFFF)),
];

/// A port, the number of four bytes that is written there, and what is done.
type Write = (u16, u32, Did);

static WRITES: [Write; 2] = [(0x80, 0x1234_5678, Did::Done), (0x9D, 0, Did::Stop)];

/// Whether a board reads so.
fn is_read_so(board: &mut Board, row: &Read) -> bool {
    let (port, wide, want) = *row;
    board.port_in(port, wide) == want
}

/// Whether a board takes the write so.
fn is_written_so(board: &mut Board, row: &Write) -> bool {
    let (port, value, did) = *row;
    board.port_out(port, true, value) == did
}

/// Each port of the rows is read so.
fn all_are_read(rt: &impl Abort, board: &mut Board) {
    for (k, row) in READS.iter().enumerate() {
        comes_so(rt, "reads", k, is_read_so(board, row));
    }
}

/// Each port of the rows is written so.
fn all_are_written(rt: &impl Abort, board: &mut Board) {
    for (k, row) in WRITES.iter().enumerate() {
        comes_so(rt, "writes", k, is_written_so(board, row));
    }
}

#[test]
fn ports_are_served_ignored_or_refused(rt: HostRuntime) {
    let mut board = Board::new();
    all_are_read(&rt, &mut board);
    all_are_written(&rt, &mut board);
    let sends = sent(&mut board, 0x3F8, 0x48) == Did::Sent(0x48);
    is_so(&rt, "a byte is sent", sends);
}

static RECEIVED: [Step; 6] = [
    Step::Taken(Some(0x2C)),
    Step::Sent(0xA0, 0x64),
    Step::Sent(0x20, 0x62),
    Step::Pending(None),
    Step::Sent(0x3F9, 1),
    Step::Pending(Some(0x24)),
];

/// Whether the line's status is that.
fn has_status(board: &mut Board, status: u32) -> bool {
    board.port_in(0x3FD, false) == PortRead::Value(status)
}

/// Of five steps under a script, a byte is there from step 4 on.
fn begin_five(rt: &impl Abort, board: &mut Board, script: &Script)
    requires { is_script script.now.list ≡ true }
{
    for step in 0..5usize {
        board.begin(script, step as u64);
        let status = if step < 4 { 0x60 } else { 0x61 };
        comes_so(rt, "the line's status", step, has_status(board, status));
    }
}

fn script(rt: &impl Abort, alloc: Global, text: &[u8]) -> Script
    ensures { is_script result.list ≡ true }
{
    read_script(alloc, text).expect(rt, "a script")
}

/// A byte and a line of the slave come with step 4.
fn receive(rt: &impl Abort, alloc: Global, board: &mut Board) {
    let script = script(rt, alloc, b"4 rx 41\n4 line 12");
    begin_five(rt, board, &script);
}

#[test]
fn a_received_byte_asks_once_its_interrupt_is_enabled(rt: HostRuntime) {
    let mut board = started();
    receive(&rt, rt.alloc(), &mut board);
    follow(&rt, "a received byte", &mut board, &RECEIVED);
}

static EVENTS: [(u64, Event); 3] = [
    (0, Event::Rx(0x4F)),
    (7, Event::Line(5)),
    (7, Event::Rx(10)),
];

/// A script, and the line and the cause of its refusal.
type Refused = (&'static [u8], u64, ScriptCause);

static REFUSED: [Refused; 16] = [
    (b"7 line 2", 1, ScriptCause::BadNumber),
    (b"0 rx 4G", 1, ScriptCause::BadNumber),
    (b"x rx 41", 1, ScriptCause::BadNumber),
    (b"0 rx 4", 1, ScriptCause::BadNumber),
    (b"0 line 0", 1, ScriptCause::BadNumber),
    (b"0 line 16", 1, ScriptCause::BadNumber),
    (b"1099511627777 rx 41", 1, ScriptCause::BadNumber),
    (b"0 rx 41\n1  rx 41", 2, ScriptCause::NoForm),
    (b"0 rx", 1, ScriptCause::NoForm),
    (b"0 tx 41", 1, ScriptCause::NoForm),
    (b" rx 41", 1, ScriptCause::NoForm),
    (b"0 rx 41 ", 1, ScriptCause::NoForm),
    (b"5 rx 41\n3 rx 42", 2, ScriptCause::StepFalls),
    (b"5 rx 41\n3 rx 4G", 2, ScriptCause::BadNumber),
    (b"#\t", 1, ScriptCause::NotAscii),
    (b"0 rx 41\r\n1", 1, ScriptCause::NotAscii),
];

/// Whether the events are these.
fn are_same(found: &[(u64, Event)], want: &[(u64, Event)]) -> bool {
    found == want
}

/// Whether a script has those events, of which the second and the third come next after step 0, and none after step 7.
fn has_events(script: &Script) -> bool
    requires { is_script script.now.list ≡ true }
{
    let board = Board::new();
    are_same(&script.list, &EVENTS)
        && board.next_event(script, 0) == Some(7)
        && board.next_event(script, 7).is_none()
}

#[test]
fn scripts_are_read(rt: HostRuntime) {
    let text = b"# first\n0 rx 4F\n\n007 line 05\n7 rx 0a";
    let script = script(&rt, rt.alloc(), text);
    is_so(&rt, "its events", has_events(&script));
}

/// Whether a script is refused so.
fn is_refused(alloc: Global, text: &[u8], line: u64, cause: ScriptCause) -> bool {
    match read_script(alloc, text) {
        Ok(_) => false,
        Err(fault) => fault == ScriptFault::At { line, cause },
    }
}

#[test]
fn scripts_are_refused(rt: HostRuntime) {
    let alloc = rt.alloc();
    for (k, row) in REFUSED.iter().enumerate() {
        let (text, line, cause) = *row;
        holds(&rt, k, is_refused(alloc, text, line, cause));
    }
}

/// Puts the piece after the text.
fn add(rt: &impl Abort, text: &mut Vec<u8>, piece: &[u8]) {
    text.extend_from_slice(piece).expect(rt, "memory");
}

/// So many lines of a byte that comes at the last step, and a line after them.
fn long_script(rt: &impl Abort, alloc: Global, count: u32, last: &[u8]) -> Vec<u8> {
    let mut text = Vec::new(alloc);
    for _ in 0..count {
        add(rt, &mut text, b"1099511627776 rx 41\n");
    }
    add(rt, &mut text, last);
    text
}

/// Whether a script is read as so many events.
fn is_read(alloc: Global, text: &[u8], count: usize) -> bool {
    match read_script(alloc, text) {
        Ok(script) => script.list.len() == count,
        Err(_) => false,
    }
}

/// Whether 65536 events are read.
fn are_all_read(rt: &impl Abort, alloc: Global) -> bool {
    let text = long_script(rt, alloc, 65536, b"");
    is_read(alloc, &text, 65536)
}

/// Whether a script of one more is refused.
fn is_one_more_refused(rt: &impl Abort, alloc: Global) -> bool {
    let text = long_script(rt, alloc, 65536, b"1099511627776 line 3");
    is_refused(alloc, &text, 65537, ScriptCause::TooMany)
}

#[test]
fn a_script_has_room_for_65536_events(rt: HostRuntime) {
    is_so(&rt, "65536 are read", are_all_read(&rt, rt.alloc()));
    is_so(
        &rt,
        "one more is refused",
        is_one_more_refused(&rt, rt.alloc()),
    );
}

/// Ports of the serial line and of the timer, and bytes for them.
static WORK: [(u16, u8); 8] = [
    (0x3F9, 1),
    (0x3FB, 3),
    (0x3FC, 0x0B),
    (0x3FF, 0x5A),
    (0x43, 0x34),
    (0x40, 2),
    (0x40, 0),
    (0x40, 5),
];

/// A board in the midst of its work, which began with a script's events of step 0.
fn working(script: &Script) -> Board
    requires { is_script script.now.list ≡ true }
{
    let mut board = started();
    board.begin(script, 0);
    for row in &WORK {
        let (port, v) = *row;
        let _ = sent(&mut board, port, v);
    }
    board.advance(3);
    board
}

static WORKING: [u8; 64] = [
    4, 1, 0x10, 0, 0, 0x20, 0, // the master, with a request of line 4
    4, 1, 0, 0, 0, 0x28, 0, // the slave
    2, 5, 2, 0, 0, 0, 0, 0, 0, 0, 13, 0, 0, 0, 0, 0, 0, 0, // the timer
    1, 3, 0x0B, 0x5A, 0, 0, 2, 0x48, 0x69, // the serial port
    0, 0, 0, 0, 0, 0, 0, 0, 0, 0, 0, 0, 0, 0, 0, 0, 0, 0, 0, 0, 0, 0, 0,
];

static SAVED: [Step; 5] = [
    Step::Advance(12),
    Step::Taken(Some(0x24)),
    Step::Pending(None),
    Step::Advance(1),
    Step::Taken(Some(0x20)),
];

/// Whether a board is saved as that.
fn is_saved(board: &Board) -> bool {
    board.save() == WORKING
}

/// Whether a board in the midst of its work is.
fn is_working_saved(rt: &impl Abort, alloc: Global) -> bool {
    let script = script(rt, alloc, b"0 rx 48\n0 rx 69");
    is_saved(&working(&script))
}

/// A board that is restored goes on as the one that was saved.
fn go_on(rt: &impl Abort) {
    let mut board = Board::restore(&WORKING).expect(rt, "the form");
    is_so(rt, "a restored board is saved", is_saved(&board));
    follow(rt, "a restored board", &mut board, &SAVED);
}

/// Whether both masks of a new board are full, and it is restored.
fn is_new_restored() -> bool {
    let fresh = Board::new().save();
    fresh[4] == 0xFF && fresh[11] == 0xFF && Board::restore(&fresh).is_some()
}

#[test]
fn boards_are_saved_and_restored(rt: HostRuntime) {
    is_so(
        &rt,
        "a working board is saved",
        is_working_saved(&rt, rt.alloc()),
    );
    go_on(&rt);
    is_so(&rt, "a new board is restored", is_new_restored());
}

/// Whether a board has those bytes with another one at a place.
fn is_restored(at: usize, value: u8) -> bool {
    let mut bytes = WORKING;
    bytes[at % 64] = value;
    Board::restore(&bytes).is_some()
}

/// A byte of that form, another value for it, and whether a board may have that.
static VALUES: [(usize, u8, bool); 37] = [
    (0, 5, false),
    (0, 0, false),
    (1, 2, false),
    (1, 0, false),
    (2, 0x14, false),
    (5, 0x21, false),
    (6, 2, false),
    (9, 1, false),
    (14, 3, false),
    (14, 1, false),
    (16, 0, false),
    (16, 1, false),
    (18, 1, false),
    (20, 1, false),
    (24, 0, false),
    (24, 17, false),
    (31, 1, false),
    (32, 2, false),
    (34, 16, false),
    (38, 1, false),
    (38, 17, false),
    (41, 1, false),
    (55, 1, false),
    (63, 1, false),
    (0, 1, true),
    (2, 0xFB, true),
    (3, 0xFF, true),
    (4, 0xFF, true),
    (5, 0xF8, true),
    (6, 1, true),
    (7, 3, true),
    (15, 0xFF, true),
    (20, 2, true),
    (24, 16, true),
    (33, 0xFF, true),
    (34, 0, true),
    (40, 0, true),
];

#[test]
fn bytes_are_restored_where_a_board_may_have_them(rt: HostRuntime) {
    for (k, row) in VALUES.iter().enumerate() {
        let (at, value, may) = *row;
        holds(&rt, k, is_restored(at, value) == may);
    }
}
