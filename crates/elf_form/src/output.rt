//! What files are written of: numbers, the lowest byte first, and zero bytes.

ghost use Rattle.std.specs.Prelude.{◌≡◌, ◌≤◌, ◌<◌, ◌+◌, ◌^◌, ◌++◌, length, replicate, OnOk};
ghost use Rattle.elf_form.specs.Output.{halves, longs, pad};

use std::alloc::AllocError;

/// The identification: the class, the encoding and the version of what is written.
pub const IDENTITY: [u8; 16] = *b"\x7FELF\x01\x01\x01\0\0\0\0\0\0\0\0\0";

/// Adds each number, its lowest byte first.
macro_rules! put_each {
    ($out:expr, $numbers:expr) => {{
        for n in $numbers {
            $out.extend_from_slice(&n.to_le_bytes())?;
        }
        Ok(())
    }};
}

/// Adds numbers of two bytes.
pub fn put_halves(out: &mut Vec<u8>, numbers: &[u16]) -> Result<(), AllocError>
    ensures { OnOk result (out.new.items ≡ out.old.items ++ halves numbers.now) }
{
    put_each!(out, numbers)
}

/// Adds numbers of four bytes.
pub fn put_longs(out: &mut Vec<u8>, numbers: &[u32]) -> Result<(), AllocError>
    ensures { OnOk result (out.new.items ≡ out.old.items ++ longs numbers.now) }
{
    put_each!(out, numbers)
}

/// Adds zero bytes.
pub fn put_zeros(out: &mut Vec<u8>, count: usize) -> Result<(), AllocError>
    ensures { OnOk result (out.new.items ≡ out.old.items ++ replicate count 0) }
{
    for _ in 0..count {
        out.push(0)?;
    }
    Ok(())
}

/// Adds a part that begins at `from`, and zero bytes up to the next multiple of `k`.
pub fn put_padded(out: &mut Vec<u8>, k: usize, from: usize, part: &[u8]) -> Result<(), AllocError>
    requires size { 1 ≤ k }
    requires from { from < 2 ^ 32 }
    ensures { OnOk result (out.new.items ≡ out.old.items ++ (part.now ++ replicate (pad k (from + length part.now)) 0)) }
{
    out.extend_from_slice(part)?;
    put_zeros(out, pad(k, from + part.len()))
}

/// How many bytes lead from `n` to the next multiple of `k`.
pub fn pad(k: usize, n: usize) -> usize
    requires { 1 ≤ k }
    ensures pad { result ≡ pad k n }
    ensures less { result < k }
{
    (k - n % k) % k
}
