//! What `prove` stores and prints is judged yes by `replay`, and anything else is refused, or reported by its place.

use crate::commands::{
    answer, are_same, built, byte_in, cut, digits, file, holds, is_so, joined, number_in, place_in,
    split, store, text_of,
};
use crate::sessions::follow_over;
use pv_io::MemFiles;
use std::alloc::Global;
use std::process::Abort;
use worked_kernels::{
    CHANGES_IN_TWO_SPACES, CHANGES_WRITE_PROTECTION, GOES_OVER_600_TABLES, GOES_OVER_FORTY_TABLES,
    NEEDS_MORE_FRAMES, READS_ITS_TEXT, SENDS_A_BYTE, SHOWN_AFTER_600_TABLES,
    SHOWN_AFTER_THE_CHANGE, SHOWN_IN_TWO_SPACES, SPOILED_SECOND, SPOILED_SPACES, WITH_ONE_DROP,
    WITH_TWO_DROPS,
};

const HAS_A_LARGE_PAGE: &str = "\
_start: movl $16,%eax; movl %eax,%cr4; movl $0x400083,0xC0001114; movl $0x5a,0x11400010
movl 0xC0001114,%eax; outl %eax,$0x80; movl 0xC0400010,%eax; outl %eax,$0x80
";

/// What is said of a text of eight steps in which a byte is sent, by no entry. A line ends at each `/`, and at the text's end.
const TEXTS: &str = "\
yes|2 out8 03f8 48/2 tx 48/end steps 8
no line 1|2 out8 03f8 49/2 tx 48/end steps 8
no line 3|2 out8 03f8 48/2 tx 48
no line 4|2 out8 03f8 48/2 tx 48/end steps 8/end steps 8
no line 3|2 out8 03f8 48/2 tx 48/end steps 8 stop 6 DeviceUse
no line 3|2 out8 03f8 48/2 tx 48/end steps 9 stop 16 CodeIsTable
yes before stop 16|2 out8 03f8 48/2 tx 48/end steps 3 stop 16 CodeIsTable
no line 1|2 out8 03f8 48/2 tx 48/end steps 2 stop 16 CodeIsTable
";

/// What is said of that text by one entry: its step, its page and its kind. A page that isn't mapped can't be added, nor one
/// before it was walked; one that isn't reached has no effect.
const ENTRIES: &str = "\
no entry 0|0 262144 2
yes|8 262144 2
no entry 0|0 65536 2
yes|1 65536 2
yes|3 65536 0
yes|3 0 1
";

/// What is said by one entry of the text of the kernel with a large page, whose PDE is written in step 4 and walked in
/// step 5: it has no PTE, so its accessed flag is the only one.
const LARGE_ENTRIES: &str = "\
no entry 0|4 70656 2
no entry 0|5 70656 2
yes|6 70656 2
yes|8 70656 2
";

/// The place that is reported for a certificate with one entry where the byte there is 255.
const SPOILED: &str = "\
0 0
1 0
2 0
3 0
4 24
5 24
6 4
7 4
18 16
19 16
20 20
21 21
22 22
23 23
";

/// The bytes of an entry: its step, its page and its kind.
fn entry_of(rt: &impl Abort, alloc: Global, entry: &str) -> Vec<u8> {
    let (step, rest) = split(rt, entry);
    let (page, kind) = split(rt, rest);
    let step = number_in(rt, step).to_le_bytes();
    let page = number_in(rt, page).to_le_bytes();
    let kind = [byte_in(rt, kind), 0, 0, 0];
    joined(rt, alloc, &[&step, &page[..4], &kind])
}

/// The bytes of a certificate with this entry.
fn with_entry(rt: &impl Abort, alloc: Global, entry: &str) -> Vec<u8> {
    let entry = entry_of(rt, alloc, entry);
    joined(rt, alloc, &[b"PVT1\x01\x00\x00\x00", &entry])
}

/// The bytes of a certificate with these two entries.
fn with_two(rt: &impl Abort, alloc: Global, first: &str, second: &str) -> Vec<u8> {
    let first = entry_of(rt, alloc, first);
    let second = entry_of(rt, alloc, second);
    joined(rt, alloc, &[b"PVT1\x02\x00\x00\x00", &first, &second])
}

/// The lines of a text.
fn lines(rt: &impl Abort, alloc: Global, text: &str) -> Vec<u8> {
    let mut bytes = joined(rt, alloc, &[text.as_bytes(), b"\n"]);
    for byte in bytes.iter_mut() {
        if *byte == b'/' {
            *byte = b'\n';
        }
    }
    bytes
}

/// Whether `replay` of eight steps returns this status and prints this line.
fn replays(rt: &impl Abort, alloc: Global, files: &mut MemFiles, status: u8, told: &str) -> bool {
    let line = joined(rt, alloc, &[told.as_bytes(), b"\n"]);
    comes_to(rt, alloc, files, "replay I B 2048 8 C T", status, &line)
}

/// Whether a command returns this status and prints these lines.
fn comes_to(
    rt: &impl Abort,
    alloc: Global,
    files: &mut MemFiles,
    command: &str,
    status: u8,
    lines: &[u8],
) -> bool {
    let (number, out) = answer(rt, alloc, files, command, &[]);
    number == status && are_same(out.bytes(), lines)
}

/// The text T has these lines from here on.
fn store_text(rt: &impl Abort, alloc: Global, files: &mut MemFiles, text: &str) {
    store(rt, files, "T", &lines(rt, alloc, text));
}

/// The kernel that sends a byte, its text, and a certificate of no entry.
fn sent(rt: &impl Abort, alloc: Global) -> MemFiles {
    let mut files = built(rt, alloc, SENDS_A_BYTE.as_bytes());
    store(rt, &mut files, "C", b"PVT1\x00\x00\x00\x00");
    store_text(rt, alloc, &mut files, "2 out8 03f8 48/2 tx 48/end steps 8");
    files
}

#[test]
fn a_text_is_right_or_differs_at_a_line(rt: HostRuntime) {
    let mut files = sent(&rt, rt.alloc());
    for line in TEXTS.lines() {
        text_is_told(&rt, rt.alloc(), &mut files, line);
    }
}

/// What a line says is said of its text.
fn text_is_told(rt: &impl Abort, alloc: Global, files: &mut MemFiles, line: &str) {
    let (told, text) = cut(rt, line, '|');
    store_text(rt, alloc, files, text);
    is_so(rt, line, replays(rt, alloc, files, 0, told));
}

/// What is said of a text by each of these entries.
fn are_told(rt: &impl Abort, alloc: Global, files: &mut MemFiles, entries: &str) {
    for line in entries.lines() {
        entry_is_told(rt, alloc, files, line);
    }
}

/// What a line says is said of the text by its entry.
fn entry_is_told(rt: &impl Abort, alloc: Global, files: &mut MemFiles, line: &str) {
    let (told, entry) = cut(rt, line, '|');
    store(rt, files, "C", &with_entry(rt, alloc, entry));
    is_so(rt, line, replays(rt, alloc, files, 0, told));
}

#[test]
fn an_entry_is_made_or_is_told(rt: HostRuntime) {
    are_told(&rt, rt.alloc(), &mut sent(&rt, rt.alloc()), ENTRIES);
}

#[test]
fn a_large_page_is_added_once_it_was_walked(rt: HostRuntime) {
    let mut files = built(&rt, rt.alloc(), HAS_A_LARGE_PAGE.as_bytes());
    let text = "7 out32 0080 004000e3/end steps 8";
    store_text(&rt, rt.alloc(), &mut files, text);
    are_told(&rt, rt.alloc(), &mut files, LARGE_ENTRIES);
}

/// A certificate whose bytes are these is refused at this place.
fn is_refused(rt: &impl Abort, alloc: Global, files: &mut MemFiles, bytes: &[u8], place: usize) {
    store(rt, files, "C", bytes);
    let told = text_of(rt, alloc, &["refused 120 at ", &digits(rt, alloc, place)]);
    is_so(rt, &told, replays(rt, alloc, files, 3, &told));
}

/// A certificate with one entry.
fn with_one(rt: &impl Abort, alloc: Global) -> Vec<u8> {
    let bytes = with_entry(rt, alloc, "3 65536 0");
    holds(rt, 24, bytes.len() == 24);
    bytes
}

#[test]
fn a_cut_certificate_is_told_at_its_length(rt: HostRuntime) {
    let mut files = sent(&rt, rt.alloc());
    let bytes = with_one(&rt, rt.alloc());
    is_cut(&rt, rt.alloc(), &mut files, &bytes);
    let longer = joined(&rt, rt.alloc(), &[&bytes, b"\x00"]);
    is_refused(&rt, rt.alloc(), &mut files, &longer, 24);
}

/// A certificate with one entry is refused at each shorter length.
fn is_cut(rt: &impl Abort, alloc: Global, files: &mut MemFiles, bytes: &[u8]) {
    for len in 0..24 {
        let shorter = bytes.get(..len).expect(rt, "short");
        is_refused(rt, alloc, files, shorter, len);
    }
}

#[test]
fn a_spoiled_certificate_is_told_at_its_field(rt: HostRuntime) {
    let mut files = sent(&rt, rt.alloc());
    let bytes = with_one(&rt, rt.alloc());
    for line in SPOILED.lines() {
        is_spoiled(&rt, rt.alloc(), &mut files, &bytes, line);
    }
}

/// The certificate is refused as a line says.
fn is_spoiled(rt: &impl Abort, alloc: Global, files: &mut MemFiles, bytes: &[u8], line: &str) {
    let (at, place) = split(rt, line);
    let spoiled = spoiled_at(rt, alloc, bytes, place_in(rt, at));
    is_refused(rt, alloc, files, &spoiled, place_in(rt, place));
}

/// The bytes with 255 at a place.
fn spoiled_at(rt: &impl Abort, alloc: Global, bytes: &[u8], at: usize) -> Vec<u8> {
    let mut spoiled = joined(rt, alloc, &[bytes]);
    *spoiled.get_mut(at).expect(rt, "a place") = 0xFF;
    spoiled
}

/// What `prove` printed, without its last line, which reports the certificate.
fn trace_of(rt: &impl Abort, alloc: Global, printed: &[u8]) -> Vec<u8> {
    let (trace, last) = trace_and_last(rt, printed);
    is_so(rt, last, last.starts_with("certificate "));
    is_so(rt, last, last.ends_with(" entries"));
    joined(rt, alloc, &[trace.as_bytes(), b"\n"])
}

/// A printed text's last line, and what stands before it.
fn trace_and_last<'a>(rt: &impl Abort, printed: &'a [u8]) -> (&'a str, &'a str) {
    let printed = str::from_utf8(printed).expect(rt, "a text");
    printed.trim_end().rsplit_once('\n').expect(rt, "two lines")
}

/// `prove` returns a status, and its trace is T from here on.
fn proves(rt: &impl Abort, alloc: Global, files: &mut MemFiles, bound: &str, status: u8) {
    let command = text_of(rt, alloc, &["prove I B 2048 ", bound, " C"]);
    let trace = printed_trace(rt, alloc, files, &command, status);
    store(rt, files, "T", &trace);
}

/// The trace that the command prints that returns this status.
fn printed_trace(
    rt: &impl Abort,
    alloc: Global,
    files: &mut MemFiles,
    command: &str,
    status: u8,
) -> Vec<u8> {
    let (number, out) = answer(rt, alloc, files, command, &[]);
    is_so(rt, command, number == status);
    trace_of(rt, alloc, out.bytes())
}

/// `replay` judges the trace T so by the certificate C.
fn is_judged(rt: &impl Abort, alloc: Global, files: &mut MemFiles, bound: &str, told: &str) {
    let command = text_of(rt, alloc, &["replay I B 2048 ", bound, " C T"]);
    let told_so = comes_to(rt, alloc, files, &command, 0, told.as_bytes());
    is_so(rt, told, told_so);
}

/// What `prove` prints without its last line is judged so by what it stores.
fn is_proved(rt: &impl Abort, alloc: Global, source: &str, bound: &str, status: u8, told: &str) {
    let mut files = built(rt, alloc, source.as_bytes());
    proves(rt, alloc, &mut files, bound, status);
    is_judged(rt, alloc, &mut files, bound, told);
}

#[test]
fn what_is_proved_is_judged_yes(rt: HostRuntime) {
    let alloc = rt.alloc();
    is_proved(&rt, alloc, SENDS_A_BYTE, "8", 0, "yes\n");
    is_proved(&rt, alloc, READS_ITS_TEXT, "8", 4, "yes before stop 9\n");
    is_proved(&rt, alloc, GOES_OVER_FORTY_TABLES, "2000", 0, "yes\n");
    is_proved(&rt, alloc, HAS_A_LARGE_PAGE, "13", 0, "yes\n");
}

/// `prove` prints this text and then how many entries it stored, and C is this certificate. The text is T from here on.
fn stores(
    rt: &impl Abort,
    alloc: Global,
    files: &mut MemFiles,
    bound: &str,
    text: &str,
    last: &str,
    certificate: &[u8],
) {
    let command = text_of(rt, alloc, &["prove I B 2048 ", bound, " C"]);
    let lines = text_of(rt, alloc, &[text, last, "\n"]);
    let printed = comes_to(rt, alloc, files, &command, 0, lines.as_bytes());
    is_so(rt, &command, printed);
    is_so(
        rt,
        last,
        are_same(&file(rt, alloc, files, "C"), certificate),
    );
    store(rt, files, "T", text.as_bytes());
}

#[test]
fn a_change_of_write_protection_is_an_entry(rt: HostRuntime) {
    let alloc = rt.alloc();
    let mut files = built(&rt, alloc, CHANGES_WRITE_PROTECTION.as_bytes());
    let certificate = with_entry(&rt, alloc, "15 0 1");
    let text = SHOWN_AFTER_THE_CHANGE;
    let last = "certificate 1 entries";
    stores(&rt, alloc, &mut files, "20", text, last, &certificate);
    for line in WITH_ONE_DROP.lines() {
        drop_is_told(&rt, alloc, &mut files, line);
    }
    store(&rt, &mut files, "C", b"PVT1\x00\x00\x00\x00");
    is_judged(&rt, alloc, &mut files, "20", "no line 2\n");
}

/// What a line says is said of the text of 20 steps by its entry.
fn drop_is_told(rt: &impl Abort, alloc: Global, files: &mut MemFiles, line: &str) {
    let (told, entry) = cut(rt, line, '|');
    store(rt, files, "C", &with_entry(rt, alloc, entry));
    let told = text_of(rt, alloc, &[told, "\n"]);
    is_judged(rt, alloc, files, "20", &told);
}

#[test]
fn a_pool_that_runs_out_twice_gives_two_entries(rt: HostRuntime) {
    let alloc = rt.alloc();
    let mut files = built(&rt, alloc, GOES_OVER_600_TABLES.as_bytes());
    let certificate = with_two(&rt, alloc, "4411 0 1", "6423 0 1");
    let text = SHOWN_AFTER_600_TABLES;
    let last = "certificate 2 entries";
    stores(&rt, alloc, &mut files, "8000", text, last, &certificate);
    is_judged(&rt, alloc, &mut files, "8000", "yes\n");
    is_cut_after_one(&rt, alloc, &mut files, &certificate);
    for line in SPOILED_SECOND.lines() {
        is_spoiled(&rt, alloc, &mut files, &certificate, line);
    }
    let bad = with_two(&rt, alloc, "4411 0 1", "6423 262145 2");
    store(&rt, &mut files, "C", &bad);
    is_judged(&rt, alloc, &mut files, "8000", "no entry 1\n");
}

#[test]
fn a_change_in_each_of_two_spaces_is_an_entry(rt: HostRuntime) {
    let alloc = rt.alloc();
    let mut files = built(&rt, alloc, CHANGES_IN_TWO_SPACES.as_bytes());
    let certificate = with_two(&rt, alloc, "23 0 1", "41 0 1");
    let text = SHOWN_IN_TWO_SPACES;
    let last = "certificate 2 entries";
    stores(&rt, alloc, &mut files, "48", text, last, &certificate);
    is_cut_after_one(&rt, alloc, &mut files, &certificate);
    for line in SPOILED_SPACES.lines() {
        is_spoiled(&rt, alloc, &mut files, &certificate, line);
    }
    for line in WITH_TWO_DROPS.lines() {
        drops_are_told(&rt, alloc, &mut files, line);
    }
}

/// What a line says is said of the text of 48 steps by its two entries.
fn drops_are_told(rt: &impl Abort, alloc: Global, files: &mut MemFiles, line: &str) {
    let (told, entries) = cut(rt, line, '|');
    let (first, second) = cut(rt, entries, '|');
    store(rt, files, "C", &with_two(rt, alloc, first, second));
    let told = text_of(rt, alloc, &[told, "\n"]);
    is_judged(rt, alloc, files, "48", &told);
}

/// A certificate with two entries is refused at each length from the first one's end on.
fn is_cut_after_one(rt: &impl Abort, alloc: Global, files: &mut MemFiles, bytes: &[u8]) {
    for len in 24..40 {
        let shorter = bytes.get(..len).expect(rt, "short");
        is_refused(rt, alloc, files, shorter, len);
    }
}

#[test]
fn an_image_that_needs_more_frames_is_refused_last(rt: HostRuntime) {
    let mut files = sent(&rt, rt.alloc());
    follow_over(&rt, rt.alloc(), &mut files, NEEDS_MORE_FRAMES);
}
