//! The cached translations as text.

ghost use Rattle.std.specs.Prelude.{◌≡◌, ◌++◌, OnOk};
ghost use Rattle.machine_text.specs.Cached as spec;

use crate::entries::add_entry;
use arrayvec::ArrayVec;
use ia32_text::{Line, add, eight_digits};
use paging::Entry;
use std::alloc::AllocError;
use xlate_buffer::Cache;

/// How many pages there are.
const PAGES: u32 = 0x10_0000;

fn add_line(page: u32, entry: Option<Entry>, text: &mut Vec<u8>) -> Result<(), AllocError>
    ensures { OnOk result (text.new.items ≡ text.old.items ++ spec.cached_line page entry) }
{
    match entry {
        None => Ok(()),
        Some(entry) => {
            let mut line: Line = ArrayVec::new();
            add(b"tlb     page ", &mut line);
            eight_digits(page, &mut line);
            add(b" ", &mut line);
            add_entry(&entry, &mut line);
            add(b"\n", &mut line);
            text.extend_from_slice(line.as_slice())
        }
    }
}

/// A line for each page of which a translation is cached.
pub fn add_cached<C: Cache>(cache: &C, text: &mut Vec<u8>) -> Result<(), AllocError>
    ensures { OnOk result (text.new.items ≡ text.old.items ++ spec.cached_text (C.entries cache.now)) }
{
    for page in 0..PAGES {
        add_line(page, cache.find(page), text)?;
    }
    Ok(())
}
