//! The lines printed about certificates.

ghost use Rattle.std.specs.Prelude.{◌≡◌, IfOk};
ghost use Rattle.pv_prove.specs.CertificateLines.{certificate_line, stop_number, verdict_line};

use ia32_types::Stop;
use pv_build::Line;
use std::alloc::{AllocError, Global};
use trace_check::Verdict;

/// How many entries a certificate has.
pub fn certificate_line(alloc: Global, entries: usize) -> Result<Line, AllocError>
    ensures { IfOk result (λ line. line ≡ certificate_line entries) }
{
    let line = format!(in alloc; "certificate {entries} entries\n")?;
    Ok(Line {
        bytes: line.into_bytes(),
    })
}

/// The number of a stop, from 1.
fn number_of_stop(stop: Stop) -> u32
    ensures { result ≡ stop_number stop }
{
    match stop {
        Stop::Unsupported => 1,
        Stop::BeyondRam => 2,
        Stop::WrapAccess => 3,
        Stop::DeliveryFailed => 4,
        Stop::ControlBits => 5,
        Stop::DeviceUse => 6,
        Stop::FlagBits => 7,
        Stop::SegmentForm => 8,
        Stop::TextTouched => 9,
        Stop::WedgeTouched => 10,
        Stop::LowTouched => 11,
        Stop::NotAStart => 12,
        Stop::TextMapped => 13,
        Stop::TableInText => 14,
        Stop::UserFlags => 15,
        Stop::CodeIsTable => 16,
    }
}

/// The text is right before a stop.
fn before_line(alloc: Global, stop: Stop) -> Result<Line, AllocError>
    ensures { IfOk result (λ line. line ≡ verdict_line (Verdict.YesBefore stop)) }
{
    let number = number_of_stop(stop);
    let line = format!(in alloc; "yes before stop {number}\n")?;
    Ok(Line {
        bytes: line.into_bytes(),
    })
}

/// An entry that can't be chosen, counted from 0.
fn entry_line(alloc: Global, entry: u32) -> Result<Line, AllocError>
    ensures { IfOk result (λ line. line ≡ verdict_line (Verdict.BadEntry entry)) }
{
    let line = format!(in alloc; "no entry {entry}\n")?;
    Ok(Line {
        bytes: line.into_bytes(),
    })
}

/// A line that differs or is missing, counted from 1.
fn other_line(alloc: Global, line: u64) -> Result<Line, AllocError>
    ensures { IfOk result (λ l. l ≡ verdict_line (Verdict.Differs line)) }
{
    let line = format!(in alloc; "no line {line}\n")?;
    Ok(Line {
        bytes: line.into_bytes(),
    })
}

/// What is said of a text.
pub fn verdict_line(alloc: Global, verdict: Verdict) -> Result<Line, AllocError>
    ensures { IfOk result (λ line. line ≡ verdict_line verdict) }
{
    match verdict {
        Verdict::Yes => {
            let bytes = Vec::from_slice(alloc, b"yes\n")?;
            Ok(Line { bytes })
        }
        Verdict::YesBefore(stop) => before_line(alloc, stop),
        Verdict::BadEntry(entry) => entry_line(alloc, entry),
        Verdict::Differs(line) => other_line(alloc, line),
    }
}
