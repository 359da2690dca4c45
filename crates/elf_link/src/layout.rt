//! Where the parts of the objects stand.

ghost use Rattle.std.specs.Prelude.{◌≡◌, ◌+◌, ◌≤◌, ◌<◌, ◌^◌, sum_by, IfOk};
ghost use Rattle.elf_link.specs.Layout.{init_size, bss_size, init_room, text_end, extent, init_end, memory_end, bases};
ghost use Rattle.elf_link.specs.Steps.{behind, IsWithin, totals};

use crate::base::Base;
use crate::totals::round_up;
use elf_form::Object;
use ia32_types::{DATA_ADDRESS, TEXT_ADDRESS};
use sites::INIT_LIMIT;
use std::alloc::{AllocError, Global};

/// The room of some parts, each at a multiple of 4,096, and where the last that isn't empty ends.
#[derive(Clone, Copy)]
struct Span {
    room: usize,
    end: usize,
}

/// A span with a part of n bytes after it.
fn behind(span: Span, n: usize) -> Span
    requires small { span.room + n < 2 ^ 63 }
    ensures { result ≡ behind span n }
{
    Span {
        room: span.room + round_up(4096, n),
        end: if n == 0 { span.end } else { span.room + n },
    }
}

fn init_span(objects: &Vec<Object>) -> Span
    requires { IsWithin (totals objects.now.items) }
    ensures room { result.room ≡ sum_by init_room objects.now.items }
    ensures end { result.end ≡ extent init_size objects.now.items }
    ensures small { (result.room ≤ INIT_LIMIT) × (result.end ≤ INIT_LIMIT) }
{
    let mut span = Span { room: 0, end: 0 };
    for object in objects {
        span = behind(span, object.init.len());
    }
    span
}

fn bss_span(objects: &Vec<Object>) -> Span
    requires { IsWithin (totals objects.now.items) }
    ensures end { result.end ≡ extent bss_size objects.now.items }
    ensures small { result.end ≤ INIT_LIMIT }
{
    let mut span = Span { room: 0, end: 0 };
    for object in objects {
        span = behind(span, object.bss as usize);
    }
    span
}

/// Where the last text ends.
pub fn text_end(objects: &Vec<Object>) -> usize
    requires { IsWithin (totals objects.now.items) }
    ensures { result ≡ text_end objects.now.items }
{
    let mut at: usize = 0;
    let mut end: usize = 0;
    for object in objects {
        end = at + object.text.len();
        at += round_up(16, object.text.len());
    }
    end
}

/// Where the data ends.
pub fn init_end(objects: &Vec<Object>) -> usize
    requires { IsWithin (totals objects.now.items) }
    ensures { result ≡ init_end objects.now.items }
{
    init_span(objects).end
}

/// Where the data and the zeroed bytes end.
pub fn memory_end(objects: &Vec<Object>) -> usize
    requires { IsWithin (totals objects.now.items) }
    ensures { result ≡ memory_end objects.now.items }
{
    let init = init_span(objects);
    let bss = bss_span(objects);
    if bss.end == 0 {
        init.end
    } else {
        init.room + bss.end
    }
}

/// The linear addresses of the parts of each object.
#[tactic(auto, unfolding(crate::specs::Layout::bases))]
pub fn bases(alloc: Global, objects: &Vec<Object>) -> Result<Vec<Base>, AllocError>
    requires { IsWithin (totals objects.now.items) }
    ensures { IfOk result (λ v. v.items ≡ bases objects.now.items) }
{
    let mut out = Vec::new(alloc);
    let mut text = TEXT_ADDRESS;
    let mut init = DATA_ADDRESS;
    let mut bss = DATA_ADDRESS + init_span(objects).room as u32;
    for object in objects {
        out.push(Base { text, init, bss })?;
        text += round_up(16, object.text.len()) as u32;
        init += round_up(4096, object.init.len()) as u32;
        bss += round_up(4096, object.bss as usize) as u32;
    }
    Ok(out)
}
