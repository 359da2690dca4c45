//! Looks into images and runs: it makes the real files and the real output, and ends with the status.
#![tactic(auto)]

ghost use Rattle.std.specs.Prelude.{◌≡◌};
ghost use Rattle.std.specs.Process.{exit_status};
ghost use Rattle.pv_build.specs.Numbers.{status_number};

use pv_build::Status;
use pv_io::{DiskFiles, StdSink};
use pv_look::look;
use pv_start::{code_of, words_of};
use std::process::ExitCode;

/// The forms, a line each.
const USAGE: &str = "\
usage: look list IMG
       look steps IMG SCRIPT FRAMES FROM TO [at ADDR .. | on ADDR LEN]
       look state IMG SCRIPT FRAMES N ..
       look walk IMG SCRIPT FRAMES N ADDR
       look memory IMG SCRIPT FRAMES N ADDR LEN
       look file STATE [walk ADDR | memory ADDR LEN]";

/// Ends with the status. Where the words are no form, the forms are printed on standard error.
fn ended<R: Eprint>(rt: &R, status: Status) -> ExitCode
    ensures { exit_status result ≡ status_number status }
{
    if let Status::Words = status {
        let _ = eprintln!(rt; "{}", USAGE);
    }
    code_of(status)
}

fn main(rt: HostRuntime) -> ExitCode {
    let words = match words_of(&rt) {
        Ok(words) => words,
        Err(status) => return ended(&rt, status),
    };
    let Ok(system) = rt.clone() else {
        return ended(&rt, Status::Memory);
    };
    let mut files = DiskFiles::new(system);
    let mut out = StdSink::new(rt.stdout());
    let status = look(rt.alloc(), &words, &mut files, &mut out);
    ended(&rt, status)
}
