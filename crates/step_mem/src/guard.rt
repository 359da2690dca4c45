//! What a monitor keeps from the guest.

ghost use Rattle.std.specs.Prelude.{◌≡◌, ◌+◌, ◌-◌, ◌==◌, ◌&&◌, nat_le, nat_lt};
ghost use Rattle.paging.specs.Uses.{is_text, is_own, is_barred, window_stop};
ghost use Rattle.step_mem.specs.Guard.{mode_of};

use ia32_types::{DATA_ADDRESS, Stop, TEXT_ADDRESS, TEXT_PAGE, WINDOW_ADDRESS, WINDOW_END};
use paging::Access;

/// The physical bytes of this step's instruction, as far as they were read: those in its first page and those in its
/// second, each as a place and a length.
#[derive(Clone, Copy)]
pub struct Own {
    pub front: u32,
    pub front_len: u32,
    pub back: u32,
    pub back_len: u32,
}

/// The text that a monitor keeps from the guest: the frames that hold it, `count` of them from `first` on, and its
/// original bytes, which stand from the first byte of the first of them on.
#[derive(Clone, Copy)]
pub struct Text<'a> {
    pub first: u32,
    pub count: u32,
    pub bytes: &'a [u8],
}

/// Whose rules hold: a monitor's, where it keeps a text, and else the bare machine's; and the bytes of this step's
/// instruction.
#[derive(Clone, Copy)]
pub struct Guard<'a> {
    pub text: &'a Option<Text<'a>>,
    pub own: Own,
}

/// The frame holds text.
pub fn is_text(guard: &Guard, frame: u32) -> bool
    ensures { result ≡ is_text (mode_of guard.now) frame }
{
    match guard.text {
        None => false,
        Some(text) => lies_in(frame, text.first, text.count),
    }
}

/// The byte is one of the instruction's own.
pub fn is_own(guard: &Guard, at: u32) -> bool
    ensures { result ≡ is_own (mode_of guard.now) at }
{
    match guard.text {
        None => false,
        Some(_) => {
            lies_in(at, guard.own.front, guard.own.front_len)
                || lies_in(at, guard.own.back, guard.own.back_len)
        }
    }
}

/// The number is one of so many from `start` on.
#[inline(always)]
pub fn lies_in(at: u32, start: u32, len: u32) -> bool
    ensures { result ≡ nat_le start at && nat_lt at (start + len) }
{
    at >= start && at - start < len
}

/// The frame is the one that the loader gave this page of the text window, of so many from the frame `first` on.
#[inline(always)]
pub fn is_loaded(first: u32, count: u32, page: u32, frame: u32) -> bool
    ensures { result ≡ nat_le TEXT_PAGE page && nat_lt page (TEXT_PAGE + count) && frame == first + (page - TEXT_PAGE) }
{
    lies_in(page, TEXT_PAGE, count) && frame >= first && frame - first == page - TEXT_PAGE
}

/// What a page may not be translated to, by a fetch or for data.
pub fn is_barred(guard: &Guard, fetch: bool, user: bool, page: u32, frame: u32) -> bool
    ensures { result ≡ is_barred (mode_of guard.now) fetch user page frame }
{
    if fetch && !user {
        return match guard.text {
            None => false,
            Some(text) => !is_loaded(text.first, text.count, page, frame),
        };
    }
    is_text(guard, frame)
}

/// Why a supervisor access may not begin there.
pub fn window_stop(guard: &Guard, access: Access, at: u32) -> Option<Stop>
    ensures { result ≡ window_stop (mode_of guard.now) access at }
{
    if guard.text.is_none() || access.user || at >= DATA_ADDRESS {
        return None;
    }
    if at >= TEXT_ADDRESS {
        return Some(Stop::TextTouched);
    }
    if at >= WINDOW_ADDRESS && at < WINDOW_END {
        return Some(Stop::WedgeTouched);
    }
    Some(Stop::LowTouched)
}
