//! Generated kernels, against texts that were made apart.

use crate::asked::holds;
use kernel_gen::kernel;
use sha2::{Digest, Sha256};
use std::alloc::Global;
use std::process::Abort;

const HEAD: &[u8] =
    b".bss\nbuf: .zero 65536\n.text\n_start:\ntop:\nmovl $1013904223,%eax\noutl %eax,$128\n";

#[test]
fn kernel_of_zero_begins_with_its_head(rt: HostRuntime) {
    let text = kernel(rt.alloc(), 0).expect(&rt, "memory");
    let text = text.as_slice();
    assert!(rt; text.starts_with(HEAD) && text.ends_with(b"\njmp top\n"));
}

/// The number of a kernel, its text's length, and the digest.
type Found = (u32, usize, &'static str);

// Lengths and SHA-256 digests of the texts that a program of another language made by the rules.
static FOUND_APART: [Found; 3] = [
    (
        0,
        22398,
        "b91e57a85dc26690b2579e22b7f762c0fed15472b9e95d768f527ad97e3da2fe",
    ),
    (
        7,
        22736,
        "c7ba45114a4e27f2af8f219c98125c52771b4bacba57575bac70ee0b53191134",
    ),
    (
        4294967295,
        22124,
        "229b851e59f2dc9124adf347ea69304a1e276436aff953bcddf9b783ad3651a2",
    ),
];

/// The digest of the bytes, in hexadecimal.
fn digest_of(rt: &impl Abort, alloc: Global, bytes: &[u8]) -> String {
    let mut text = String::new(alloc);
    for byte in Sha256::digest(bytes) {
        let digits = format!(in alloc; "{byte:02x}").expect(rt, "memory");
        text.push_str(&digits).expect(rt, "memory");
    }
    text
}

fn is_found(rt: &impl Abort, alloc: Global, row: &Found) -> bool {
    let (number, length, digest) = *row;
    let text = kernel(alloc, number).expect(rt, "memory");
    text.len() == length && digest_of(rt, alloc, &text).as_str() == digest
}

#[test]
fn kernels_are_those_that_were_found_apart(rt: HostRuntime) {
    let alloc = rt.alloc();
    for (k, row) in FOUND_APART.iter().enumerate() {
        holds(&rt, k, is_found(&rt, alloc, row));
    }
}
