//! Judgements of worked texts, and files of choices.

ghost use Rattle.std.specs.Prelude.{◌≡◌, ◌≤◌, ◌^◌, true};
ghost use Rattle.board.specs.ScriptForm.{is_script};

use crate::common::{add, are_same, field, holds, image_of, is_so, number, sink, took, unfolded};
use crate::slices::no_event;
use board::Script;
use host_cpl3::Machine;
use ia32_types::Stop;
use image_check::Checked;
use std::alloc::Global;
use std::process::Abort;
use trace_check::{
    Choice, ChoiceKind, Choices, KeptNotes, Verdict, read_choices, replay, run_noted, write_choices,
};
use worked_kernels::{JUDGED, READS_ITS_TEXT, SENDS_A_BYTE};

/// Puts a choice after those of a file: its step has 8 bytes, its page 4, and its kind the fifth of the last 8.
fn put_choice(rt: &impl Abort, file: &mut Vec<u8>, choice: &str) {
    let (step, rest) = number(rt, choice);
    let (page, rest) = number(rt, rest);
    let (kind, _) = number(rt, rest);
    let word = page.wrapping_add(kind.wrapping_mul(1 << 32));
    add(rt, file, &step.to_le_bytes());
    add(rt, file, &word.to_le_bytes());
}

/// The file of as many choices as its count says.
fn choices_file(rt: &impl Abort, alloc: Global, choices: &str) -> Vec<u8> {
    let mut file = Vec::new(alloc);
    add(rt, &mut file, b"PVT1");
    for (k, part) in choices.split(';').enumerate() {
        if k == 0 {
            let (count, _) = number(rt, part);
            add(rt, &mut file, &[(count % 256) as u8, 0, 0, 0]);
        } else {
            put_choice(rt, &mut file, part);
        }
    }
    file
}

/// The verdict on a text of at most so many steps, by the choices of a file.
fn verdict(
    rt: &impl Abort,
    alloc: Global,
    image: &Checked,
    n: u64,
    file: &[u8],
    text: &[u8],
) -> Verdict
    requires { n ≤ 2 ^ 40 }
{
    let script = no_event(rt, alloc);
    let choices = read_choices(alloc, file).expect(rt, "choices");
    replay(alloc, image, &script, 2048, n, &choices, text).expect(rt, "a verdict")
}

/// `s` sends a byte, and any other touches its text.
fn source_of(letter: &str) -> &'static str {
    if letter == "s" {
        SENDS_A_BYTE
    } else {
        READS_ITS_TEXT
    }
}

/// The bound of a line.
fn bound_of(rt: &impl Abort, bound: &str) -> u64
    ensures { result ≤ 2 ^ 40 }
{
    let (n, _) = number(rt, bound);
    assert!(rt; n <= 1 << 40);
    n as u64
}

/// The verdict on what a line says after it: the kernel's letter, the bound, the choices and the text.
fn verdict_on(rt: &impl Abort, alloc: Global, line: &str) -> Verdict {
    let (letter, rest) = field(rt, line);
    let (bound, rest) = field(rt, rest);
    let (choices, text) = field(rt, rest);
    let n = bound_of(rt, bound);
    let image = image_of(rt, alloc, source_of(letter));
    let file = choices_file(rt, alloc, choices);
    let text = unfolded(rt, alloc, text);
    verdict(rt, alloc, &image, n, &file, &text)
}

/// Whether a verdict is printed so.
fn is_printed(rt: &impl Abort, alloc: Global, verdict: Verdict, want: &str) -> bool {
    let found = format!(in alloc; "{verdict:?}").expect(rt, "memory");
    are_same(found.as_bytes(), want.as_bytes())
}

/// A line has the verdict, the kernel's letter, the bound, the choices and the text.
fn is_judged(rt: &impl Abort, alloc: Global, line: &str) {
    let (want, rest) = field(rt, line);
    let found = verdict_on(rt, alloc, rest);
    is_so(rt, line, is_printed(rt, alloc, found, want));
}

#[test]
fn judges_texts(rt: HostRuntime) {
    for line in JUDGED.lines() {
        if !line.starts_with("--") {
            is_judged(&rt, rt.alloc(), line);
        }
    }
}

/// The file of three choices.
const THREE: &[u8] = b"PVT1\x03\x00\x00\x00\
    \x03\x00\x00\x00\x00\x00\x00\x00\x00\x00\x01\x00\x00\x00\x00\x00\
    \x03\x01\x00\x00\x00\x00\x00\x00\x00\x00\x00\x00\x01\x00\x00\x00\
    \x03\x01\x00\x00\x00\x00\x00\x00\xFF\xFF\x0F\x00\x02\x00\x00\x00";

/// What is written of the three.
fn three_written(rt: &impl Abort, alloc: Global) -> Vec<u8> {
    let three = [
        Choice {
            step: 3,
            page: 0x10000,
            kind: ChoiceKind::Drop,
        },
        Choice {
            step: 259,
            page: 0,
            kind: ChoiceKind::Empty,
        },
        Choice {
            step: 259,
            page: 0xFFFFF,
            kind: ChoiceKind::Add,
        },
    ];
    let list = Vec::from_slice(alloc, &three).expect(rt, "memory");
    write_choices(alloc, &Choices { list }).expect(rt, "memory")
}

/// What is written of the three that a file says.
fn written_again(rt: &impl Abort, alloc: Global, file: &[u8]) -> Vec<u8> {
    let read = read_choices(alloc, file).expect(rt, "choices");
    holds(rt, 3, read.list.len() == 3);
    write_choices(alloc, &read).expect(rt, "memory")
}

#[test]
fn reads_back_what_was_written(rt: HostRuntime) {
    let bytes = three_written(&rt, rt.alloc());
    is_so(&rt, "written", are_same(&bytes, THREE));
    let again = written_again(&rt, rt.alloc(), &bytes);
    is_so(&rt, "read back", are_same(&again, &bytes));
}

/// The verdict on the text of a patched run of this kernel, as below.
fn replayed(
    rt: &impl Abort,
    alloc: Global,
    image: &Checked,
    script: &Script,
    text: &[u8],
) -> Verdict
    requires script { is_script script.now.list ≡ true }
{
    let mut notes = KeptNotes::new(alloc).expect(rt, "memory");
    let mut host = Machine::new();
    let mut out = sink(rt, alloc);
    let ran = run_noted(
        alloc, image, script, 2048, 8, &mut host, &mut out, &mut notes,
    );
    assert!(rt; ran.is_ok());
    took(rt, &out, text);
    let choices = notes.choices().expect(rt, "few notes");
    replay(alloc, image, script, 2048, 8, choices, text).expect(rt, "a verdict")
}

/// The verdict on the text of a patched run of eight steps, which is this, by the choices that its notes give.
fn noted(rt: &impl Abort, alloc: Global, source: &str, text: &[u8]) -> Verdict {
    let image = image_of(rt, alloc, source);
    replayed(rt, alloc, &image, &no_event(rt, alloc), text)
}

#[test]
fn replays_what_was_noted(rt: HostRuntime) {
    let sent = b"2 out8 03f8 48\n2 tx 48\nend steps 8\n";
    assert_eq!(rt; noted(&rt, rt.alloc(), SENDS_A_BYTE, sent), Verdict::Yes);
    let stopped = b"end steps 0 stop 9 TextTouched\n";
    assert_eq!(rt;
        noted(&rt, rt.alloc(), READS_ITS_TEXT, stopped),
        Verdict::YesBefore(Stop::TextTouched)
    );
}
