//! What a fetch would read, found without doing its step: by what is kept, and by walks that set nothing. Where the
//! monitor's rules stop the fetch, nothing is found.

ghost use Rattle.std.specs.Prelude.{◌≡◌, ℕ, ◌+◌, ◌*◌, ◌/◌, ◌%◌, ◌≤◌, ◌<◌, ◌^◌, ◌==◌, ◌&&◌, ◌||◌, ◌++◌, length, true, not, Bool, List, [], Some, None, IfSome, bit_or, if◌then◌else◌};
ghost use Rattle.std.specs.FinMap.{get};
ghost use Rattle.guest_ram.specs.Among.{is_among};
ghost use Rattle.guest_ram.specs.Bytes.{byte, part};
ghost use Rattle.ia32_types.specs.declared.addresses.TheConstants.{LAST_PAGE};
ghost use Rattle.machine_model.specs.Run.{Set};
ghost use Rattle.machine_model.specs.State.{wedge_mode};
ghost use Rattle.paging.specs.Fresh.{fresh, has};
ghost use Rattle.paging.specs.Uses.{is_barred, is_text as holds_text, usable};
ghost use Rattle.native_steps.specs.Looking.{found_by, is_front, is_stopped, marked, marks_front, next_seen, seen};
ghost use Rattle.step_mem.specs.Changes.{AreWithin};
ghost use Rattle.wedge_step.specs.Clashing.{AreIn, looked, marks_of, map_seen, seen_of};
ghost use Rattle.wedge_step.specs.Looked.{bytes_of, ground_of, looked_at, set_at};

use crate::opened::{is_given, is_text};
use crate::sight::{GuestView, are_bytes, byte, walk};
use crate::single::text_frames;
use descriptors::{Cpu, by_level};
use ia32_decode::{Bytes, append, front_len};
use ia32_types::TEXT_FRAME;
use image_check::Checked;
use native_steps::uses_are_seen;
use paging::{Access, Entry, Walk, allows, grants};
use shadow_tables::Shadows;

/// The places of the two bytes in which a walk sets the accessed flag.
#[derive(Clone, Copy)]
pub struct Marks {
    pub dir: u32,
    pub word: u32,
}

/// Where a fetch finds its page, and what its walk would mark.
#[derive(Clone, Copy)]
pub struct Seen {
    pub frame: u32,
    pub marks: Option<Marks>,
}

/// Code may not be fetched from the frame, at this level.
fn is_barred(image: &Checked, user: bool, page: u32, frame: u32) -> bool
    ensures { result ≡ is_barred (wedge_mode image.now) true user page frame }
{
    let count = text_frames(image);
    if user {
        is_text(count, frame)
    } else {
        !is_given(count, page, frame)
    }
}

/// One of the two words of a walk lies in a frame that holds text.
fn reads_text(image: &Checked, dir_at: u32, word_at: u32) -> bool
    ensures { result ≡ (holds_text (wedge_mode image.now) (dir_at / 4096) || holds_text (wedge_mode image.now) (word_at / 4096)) }
{
    let count = text_frames(image);
    is_text(count, dir_at / 4096) || is_text(count, word_at / 4096)
}

/// The monitor's rules stop a fetch by such a walk.
fn is_stopped(
    image: &Checked,
    access: Access,
    page: u32,
    frame: u32,
    dir_at: u32,
    word_at: u32,
) -> bool
    ensures { result ≡ is_stopped (wedge_mode image.now) access page frame dir_at word_at }
{
    is_barred(image, access.user, page, frame) || reads_text(image, dir_at, word_at)
}

/// The entry that is kept for a page, if it lets the access pass.
#[inline(always)]
fn usable<S: Shadows>(
    shadows: &S,
    view: &GuestView<'_>,
    page: u32,
    access: Access,
    wp: bool,
) -> Option<Entry>
    requires stands { ∥ S.stands shadows.now view.now.ram.now ∥₁ }
    requires kept { AreWithin view.now.frames (set_at S.Shadows shadows.now view.now) }
    requires page { page < 2 ^ 20 }
    ensures usable { result ≡ usable (get (set_at S.Shadows shadows.now view.now) page) access wp }
    ensures frame { IfSome result (λ entry. entry.frame < view.now.frames) }
{
    match shadows.kept(view.ram, page) {
        None => None,
        Some(entry) => {
            if !allows(&entry, access, wp) {
                return None;
            }
            Some(entry)
        }
    }
}

/// Where an entry leads a fetch that may use it.
#[inline(always)]
fn by_entry(view: &GuestView<'_>, user: bool, page: u32, frame: u32) -> Option<Seen>
    requires frame { frame < view.now.frames }
    ensures seen { map_seen result ≡ (if is_barred (wedge_mode view.now.image.now) true user page frame then None
        else Some (record { frame = frame; marks = [] })) }
    ensures marks { IfSome result (λ s. AreIn view.now.frames (marks_of s.marks)) }
    ensures frame { IfSome result (λ s. s.frame < view.now.frames) }
{
    if is_barred(view.image, user, page, frame) {
        return None;
    }
    Some(Seen { frame, marks: None })
}

/// Where a walk leads a fetch.
#[inline(always)]
fn by_walk(
    view: &GuestView<'_>,
    cr3: u32,
    pse: bool,
    page: u32,
    access: Access,
    wp: bool,
) -> Option<Seen>
    requires page { page < 2 ^ 20 }
    ensures seen { map_seen result ≡ found_by (wedge_mode view.now.image.now) page access wp
        (fresh (bytes_of view.now) view.now.frames cr3 pse page) }
    ensures marks { IfSome result (λ s. AreIn view.now.frames (marks_of s.marks)) }
    ensures frame { IfSome result (λ s. s.frame < view.now.frames) }
{
    match walk(view, cr3, pse, page) {
        Walk::Absent => None,
        Walk::Beyond => None,
        Walk::Reserved => None,
        Walk::Found {
            entry,
            dir_at,
            word_at,
        } => {
            if !grants(&entry, access, wp) {
                return None;
            }
            if is_stopped(view.image, access, page, entry.frame, dir_at, word_at) {
                return None;
            }
            let marks = Marks {
                dir: dir_at,
                word: word_at,
            };
            Some(Seen {
                frame: entry.frame,
                marks: Some(marks),
            })
        }
    }
}

/// Where a fetch of the page leads.
#[inline(always)]
pub(crate) fn fetched<S: Shadows>(
    cpu: &Cpu,
    shadows: &S,
    view: &GuestView<'_>,
    page: u32,
) -> Option<Seen>
    requires stands { ∥ S.stands shadows.now view.now.ram.now ∥₁ }
    requires kept { AreWithin view.now.frames (set_at S.Shadows shadows.now view.now) }
    requires page { page < 2 ^ 20 }
    ensures seen { map_seen result ≡ seen (ground_of view.now) (looked_at S.Shadows cpu.now shadows.now view.now) page }
    ensures marks { IfSome result (λ s. AreIn view.now.frames (marks_of s.marks)) }
    ensures frame { IfSome result (λ s. s.frame < view.now.frames) }
{
    let access = by_level(cpu, false);
    let wp = cpu.wp();
    match usable(shadows, view, page, access, wp) {
        Some(entry) => by_entry(view, access.user, page, entry.frame),
        None => by_walk(view, cpu.cr3, cpu.pse(), page, access, wp),
    }
}

/// The place is one of these.
fn is_marked(marks: Option<Marks>, place: u32) -> bool
    ensures { result ≡ is_among place (marks_of marks) }
{
    match marks {
        None => false,
        Some(marks) => place == marks.dir || place == marks.word,
    }
}

/// The byte with the accessed flag, where it is marked.
fn flag(byte: u8, is: bool) -> u8
    ensures { result ≡ (if is then bit_or byte 32 else byte) }
{
    if is { byte | 32 } else { byte }
}

/// The byte at a place, once walks have set their flags.
fn byte_seen(view: &GuestView<'_>, earlier: Option<Marks>, marks: Option<Marks>, place: u32) -> u8
    requires earlier { AreIn view.now.frames (marks_of earlier) }
    requires marks { AreIn view.now.frames (marks_of marks) }
    requires within { place < 4096 * view.now.frames }
    ensures { result ≡ byte (marked (marked (bytes_of view.now) (marks_of earlier)) (marks_of marks)) place }
{
    uses_are_seen();
    are_bytes(view.ram, view.image, view.frames);
    let first = flag(byte(view, place), is_marked(earlier, place));
    flag(first, is_marked(marks, place))
}

/// The bytes of a range that all stand in the text, or all beside it.
fn plain<'a>(view: &GuestView<'a>, at: u32, len: u32) -> Option<&'a [u8]>
    requires within { at + len ≤ 4096 * view.now.frames }
    ensures bytes { IfSome result (λ bytes. bytes.now ≡ part (bytes_of view.now) at len) }
    ensures len { IfSome result (λ bytes. length bytes.now ≡ len) }
{
    let _len = view.ram.len();
    let text = view.image.text();
    let start = TEXT_FRAME * 4096;
    let end = start + text.len() as u32;
    if at + len <= start {
        return Some(view.ram.part(at, len));
    }
    if at >= end {
        return Some(view.ram.part(at, len));
    }
    if at < start || at + len > end {
        return None;
    }
    let from = (at - start) as usize;
    Some(&text[from..from + len as usize])
}

/// The bytes that a fetch reads of a page, where they stand so and its walks mark none.
fn unmarked<'a>(
    view: &GuestView<'a>,
    earlier: Option<Marks>,
    seen: Seen,
    at: u32,
    len: u32,
) -> Option<&'a [u8]>
    requires frame { seen.frame < view.now.frames }
    requires one { at % 4096 + len ≤ 4096 }
    ensures bytes { IfSome result (λ bytes. bytes.now
        ≡ part (marked (marked (bytes_of view.now) (marks_of earlier)) (marks_of seen.marks)) (4096 * seen.frame + at % 4096) len) }
    ensures len { IfSome result (λ bytes. length bytes.now ≡ len) }
{
    match earlier {
        Some(_) => None,
        None => match seen.marks {
            Some(_) => None,
            None => {
                let _len = view.ram.len();
                plain(view, 4096 * seen.frame + at % 4096, len)
            }
        },
    }
}

/// Bytes of a page as a fetch reads them, whose walks have set their flags by then.
#[inline(always)]
pub(crate) fn read(
    view: &GuestView<'_>,
    earlier: Option<Marks>,
    seen: Seen,
    at: u32,
    len: u32,
    into: &mut Bytes,
)
    requires earlier { AreIn view.now.frames (marks_of earlier) }
    requires marks { AreIn view.now.frames (marks_of seen.marks) }
    requires frame { seen.frame < view.now.frames }
    requires one { at % 4096 + len ≤ 4096 }
    requires few { len ≤ 11 }
    requires room { length into.old.items ≤ 11 }
    ensures { into.new.items ≡ into.old.items
        ++ part (marked (marked (bytes_of view.now) (marks_of earlier)) (marks_of seen.marks)) (4096 * seen.frame + at % 4096) len }
{
    match unmarked(view, earlier, seen, at, len) {
        Some(bytes) => append(bytes, into),
        None => read_marked(view, earlier, seen, at, len, into),
    }
}

/// Bytes of a page as a fetch reads them, whose walks have set their flags by then, one after another.
fn read_marked(
    view: &GuestView<'_>,
    earlier: Option<Marks>,
    seen: Seen,
    at: u32,
    len: u32,
    into: &mut Bytes,
)
    requires earlier { AreIn view.now.frames (marks_of earlier) }
    requires marks { AreIn view.now.frames (marks_of seen.marks) }
    requires frame { seen.frame < view.now.frames }
    requires one { at % 4096 + len ≤ 4096 }
    requires few { len ≤ 11 }
    requires room { length into.old.items ≤ 11 }
    ensures { into.new.items ≡ into.old.items
        ++ part (marked (marked (bytes_of view.now) (marks_of earlier)) (marks_of seen.marks)) (4096 * seen.frame + at % 4096) len }
{
    let _len = view.ram.len();
    let start = seen.frame * 4096 + at % 4096;
    for i in 0..len {
        into.push(byte_seen(view, earlier, seen.marks, start + i));
    }
}

/// The byte is one of those that the fetch reads in its first page, and its accessed flag is clear.
fn marks_byte(cpu: &Cpu, view: &GuestView<'_>, first: Seen, place: u32) -> bool
    requires marks { AreIn view.now.frames (marks_of first.marks) }
    requires frame { first.frame < view.now.frames }
    requires within { place < 4096 * view.now.frames }
    ensures { (set : Set) → result ≡ (is_front (looked cpu.now (bytes_of view.now) set) (seen_of first) place
        && not (has (byte (marked (bytes_of view.now) (marks_of first.marks)) place) 32)) }
{
    let _len = view.ram.len();
    let start = first.frame * 4096 + cpu.regs.eip % 4096;
    if place < start || place >= start + front_len(cpu.regs.eip) {
        return false;
    }
    byte_seen(view, first.marks, None, place) / 32 % 2 != 1
}

/// The walk of the second page would mark a byte that was read of the first.
fn marks_front(cpu: &Cpu, view: &GuestView<'_>, first: Seen, marks: Option<Marks>) -> bool
    requires marks { AreIn view.now.frames (marks_of first.marks) }
    requires frame { first.frame < view.now.frames }
    requires places { AreIn view.now.frames (marks_of marks) }
    ensures { (set : Set) → result ≡ marks_front (looked cpu.now (bytes_of view.now) set) (seen_of first) (marks_of marks) }
{
    match marks {
        None => false,
        Some(marks) => {
            marks_byte(cpu, view, first, marks.dir) || marks_byte(cpu, view, first, marks.word)
        }
    }
}

/// Where the fetch of the next instruction leads in its second page.
pub(crate) fn fetched_next<S: Shadows>(
    cpu: &Cpu,
    shadows: &S,
    view: &GuestView<'_>,
    first: Seen,
) -> Option<Seen>
    requires stands { ∥ S.stands shadows.now view.now.ram.now ∥₁ }
    requires kept { AreWithin view.now.frames (set_at S.Shadows shadows.now view.now) }
    requires marks { AreIn view.now.frames (marks_of first.marks) }
    requires frame { first.frame < view.now.frames }
    requires page { cpu.now.regs.eip / 4096 < LAST_PAGE }
    ensures seen { map_seen result ≡ next_seen (ground_of view.now) (looked_at S.Shadows cpu.now shadows.now view.now) (seen_of first) }
    ensures marks { IfSome result (λ s. AreIn view.now.frames (marks_of s.marks)) }
    ensures frame { IfSome result (λ s. s.frame < view.now.frames) }
{
    match fetched(cpu, shadows, view, cpu.regs.eip / 4096 + 1) {
        None => None,
        Some(second) => {
            if marks_front(cpu, view, first, second.marks) {
                return None;
            }
            Some(second)
        }
    }
}
