//! Where a step stops at an access.

ghost use Rattle.std.specs.Prelude.{◌≡◌};
ghost use Rattle.step_trace.specs.Stops as spec;

use ia32_exec::{Range, Ranges, ranges};
use ia32_types::Regs;
use machine_step::Raised;
use step_text::Activity;

fn page_start(page: u32) -> u32
    ensures { result ≡ spec.page_start page }
{
    page.wrapping_mul(4096)
}

fn within(page: u32, at: u32) -> u32
    ensures { result ≡ spec.within page at }
{
    if at / 4096 == page {
        at
    } else {
        page_start(page)
    }
}

fn start_in(page: u32, range: Option<Range>) -> Option<u32>
    ensures { result ≡ spec.start_in page range }
{
    match range {
        None => None,
        Some(range) => {
            if range.at / 4096 == page {
                Some(range.at)
            } else {
                None
            }
        }
    }
}

fn by_ranges(page: u32, ranges: Ranges) -> u32
    ensures { result ≡ spec.by_ranges page ranges }
{
    match start_in(page, ranges.read) {
        Some(at) => at,
        None => start_in(page, ranges.write).unwrap_or(page_start(page)),
    }
}

fn address_in(does: Activity, regs: &Regs, page: u32) -> u32
    ensures { result ≡ spec.address_in does regs.now page }
{
    match does {
        Activity::Unfetched => within(page, regs.eip),
        Activity::CarriesOut(insn, _) => by_ranges(page, ranges(&insn, regs)),
        Activity::Waits | Activity::Takes(_) | Activity::Unsupported => page_start(page),
    }
}

fn if_past_end(range: Option<Range>) -> Option<u32>
    ensures { result ≡ spec.if_past_end range }
{
    match range {
        None => None,
        Some(range) => {
            if u64::from(range.at) + u64::from(range.len) > 1 << 32 {
                Some(range.at)
            } else {
                None
            }
        }
    }
}

fn past_end(does: Activity, regs: &Regs) -> Option<u32>
    ensures { result ≡ spec.past_end does regs.now }
{
    match does {
        Activity::Unfetched => Some(regs.eip),
        Activity::CarriesOut(insn, _) => {
            let ranges = ranges(&insn, regs);
            match if_past_end(ranges.read) {
                Some(at) => Some(at),
                None => if_past_end(ranges.write),
            }
        }
        Activity::Waits | Activity::Takes(_) | Activity::Unsupported => None,
    }
}

fn is_fault_in(page: u32, at: Option<u32>) -> bool
    ensures { result ≡ spec.is_fault_in page at }
{
    match at {
        None => false,
        Some(at) => at / 4096 == page,
    }
}

fn in_delivery(raised: Raised, page: Option<u32>) -> Option<u32>
    ensures { result ≡ spec.in_delivery raised page }
{
    match page {
        None => None,
        Some(page) => {
            if is_fault_in(page, raised.at) {
                None
            } else {
                Some(page_start(page))
            }
        }
    }
}

fn in_work(does: Activity, regs: &Regs, page: Option<u32>) -> Option<u32>
    ensures { result ≡ spec.in_work does regs.now page }
{
    match page {
        None => past_end(does, regs),
        Some(page) => Some(address_in(does, regs, page)),
    }
}

/// The linear address of the access at which a step stops, by what the processor does, what it raised, and the page that was
/// denied, where one was.
#[tactic(auto, unfolding(crate::specs::Stops::address_of))]
pub fn address_of(
    does: Activity,
    regs: &Regs,
    raised: Option<Raised>,
    page: Option<u32>,
) -> Option<u32>
    ensures { result ≡ spec.address_of does regs.now raised page }
{
    match raised {
        None => in_work(does, regs, page),
        Some(raised) => in_delivery(raised, page),
    }
}
