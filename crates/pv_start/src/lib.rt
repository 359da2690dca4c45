//! How a program begins and ends: the words of its command line, and a status as the process ends with it.
#![tactic(auto)]

ghost use Rattle.std.specs.Prelude.{◌≡◌, ◌≢◌, ◌⊎◌, drop, IfErr};
ghost use Rattle.std.specs.Process.{exit_status};
ghost use Rattle.pv_build.specs.Numbers.{status_number};

use pv_build::Status;
use std::env::{self, Env};
use std::io::ErrorKind;
use std::process::ExitCode;

/// The words after the program's own name. A word that is no UTF-8 makes no command line.
pub fn words_of<R: Env + AllocGlobal>(rt: &R) -> Result<Vec<String>, Status>
    ensures { IfErr result (λ status. (status ≡ Status.Words) ⊎ (status ≡ Status.Memory)) }
{
    match env::args(rt) {
        Err(fault) => Err(unread(fault.kind())),
        Ok(all) => match all.collect(rt.alloc()) {
            Err(_) => Err(Status::Memory),
            Ok(all) => Ok(after_first(all)),
        },
    }
}

/// Why there are no words: one of them is no UTF-8, or no memory was found for them.
fn unread(kind: ErrorKind) -> Status
    ensures either { (result ≡ Status.Words) ⊎ (result ≡ Status.Memory) }
    ensures words { kind ≡ ErrorKind.InvalidData → result ≡ Status.Words }
    ensures memory { kind ≢ ErrorKind.InvalidData → result ≡ Status.Memory }
{
    match kind {
        ErrorKind::InvalidData => Status::Words,
        _ => Status::Memory,
    }
}

/// The words after the first, each as it is.
fn after_first(all: Vec<String>) -> Vec<String>
    ensures { result.items ≡ drop 1 all.items }
{
    let mut words = all;
    if !words.is_empty() {
        words.remove(0);
    }
    words
}

/// A status as the process ends with it.
pub fn code_of(status: Status) -> ExitCode
    ensures { exit_status result ≡ status_number status }
{
    ExitCode::from(status.number())
}
