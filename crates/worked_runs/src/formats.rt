//! Annotations by their gaps, the long texts that are written with them, and annotations that aren't the text's.

use crate::commands::{built, file, holds, joined, no_files, repeated, store};
use crate::sessions::follow_over;
use pv_io::MemFiles;
use std::alloc::Global;
use std::process::Abort;
use worked_kernels::{BY_GAPS, CUT_SITES, LONG, ONE_SITE, SENDS_A_BYTE};

/// OUT at 7 and HLT at 12, each with four NOPs after it, by their gaps.
const GAPS: &[u8] = &[
    0x50, 0x56, 0x53, 0x32, 2, 0, 0, 0, 7, 0, 0, 0x14, 1, 0, 0, 0, 4, 1,
];

/// The OUT alone, by its place.
const ONE: &[u8] = &[
    0x50, 0x56, 0x53, 0x31, 1, 0, 0, 0, 7, 0, 0, 0, 0x14, 1, 5, 0,
];

/// That small image of 8,496 bytes with other annotations, which are no longer than its own. They begin at 0x2000, and the
/// fifth section header has their size at 8,436.
fn with_annotations(rt: &impl Abort, alloc: Global, image: &[u8], annotations: &[u8]) -> Vec<u8> {
    holds(rt, 0, image.len() == 8496 && annotations.len() <= 24);
    let mut file = joined(rt, alloc, &[image]);
    put_at(&mut file, 0x2000, annotations);
    let size = (annotations.len() % 256) as u8;
    put_at(&mut file, 8436, &[size, 0, 0, 0]);
    file
}

/// Puts these bytes at a place, as far as the file goes.
fn put_at(file: &mut [u8], at: usize, with: &[u8]) {
    for (k, byte) in with.iter().enumerate() {
        if let Some(place) = file.get_mut(at.wrapping_add(k)) {
            *place = *byte;
        }
    }
}

/// Annotations of that image, and what is printed for it then.
static ANNOTATED: [(&[u8], &str); 3] = [(GAPS, BY_GAPS), (ONE, ONE_SITE), (b"PV", CUT_SITES)];

#[test]
fn an_image_has_all_its_sites_by_places_or_gaps(rt: HostRuntime) {
    let mut files = built(&rt, rt.alloc(), SENDS_A_BYTE.as_bytes());
    let image = file(&rt, rt.alloc(), &mut files, "I");
    for (annotations, session) in ANNOTATED.iter() {
        let changed = with_annotations(&rt, rt.alloc(), &image, annotations);
        over_image(&rt, rt.alloc(), &mut files, &changed, session);
    }
}

/// A session over this image.
fn over_image(rt: &impl Abort, alloc: Global, files: &mut MemFiles, image: &[u8], session: &str) {
    store(rt, files, "I", image);
    follow_over(rt, alloc, files, session);
}

#[test]
fn a_long_text_has_gaps(rt: HostRuntime) {
    // 2,000 pages of text, each a NOP and what fills it
    let source = repeated(&rt, rt.alloc(), b"_start:\n", b"nop; .p2align 12\n", 2000);
    let mut files = no_files(&rt, rt.alloc());
    store(&rt, &mut files, "S", &source);
    follow_over(&rt, rt.alloc(), &mut files, LONG);
}
