//! Files are read, and the outcome of a command's work is printed.

ghost use Rattle.std.specs.Prelude.{◌≡◌, Ok, IfOk, IfErr};
ghost use Rattle.pv_io.specs.Files.{Holds, IsHeld};
ghost use Rattle.pv_build.specs.Readings.{OnlyRead};
ghost use Rattle.pv_build.specs.Failures.{NoneFailedIn};
ghost use Rattle.pv_build.specs.Telling.{HaltsOverFiles, RefusesAs, Says, Ends, ToldAs};

use crate::halt::{Halt, Line};
use crate::lines::too_small_line;
use crate::status::Status;
use image_load::RunFault;
use pv_io::{Files, IoAnswer, Sink};
use run_trace::{End, Ended};
use std::alloc::{AllocError, Global};

/// The bytes of a file.
pub fn load<F: Files>(alloc: Global, name: &str, files: &mut F) -> Result<Vec<u8>, Halt>
    ensures loaded { IfOk result (λ file. Holds (F.held files.old) name.now file.items) }
    ensures halted { IfErr result (HaltsOverFiles F.Files (IsHeld (F.held files.old) name.now) files.old files.new (λ line. ⊥)) }
    ensures read { OnlyRead F.Files (IsHeld (F.held files.old) name.now) files.old files.new }
    ensures kept { NoneFailedIn F.Files files.old files.new result }
{
    let mut file = Vec::new(alloc);
    match files.load(alloc, name, &mut file) {
        Err(IoAnswer::Failed) => Err(Halt::ReadFault),
        Err(IoAnswer::Memory) => Err(Halt::Memory),
        Ok(()) => Ok(file),
    }
}

/// The refusal with a line, unless no memory was found for it.
pub fn refused(line: Result<Line, AllocError>) -> Halt
    ensures { RefusesAs (λ l. line ≡ Ok l) result }
{
    match line {
        Ok(line) => Halt::Refused(line),
        Err(_) => Halt::Memory,
    }
}

/// Puts a line, and answers the status that is meant with it unless the output fails.
pub fn print<S: Sink>(line: &Line, meant: Status, out: &mut S) -> Status
    ensures { Says line.now meant (S.taken out.old) (S.taken out.new) (S.faults out.old) (S.faults out.new) result }
{
    match out.put(&line.bytes) {
        Ok(()) => meant,
        Err(_) => Status::WriteFault,
    }
}

/// Ends work that has stored and printed nothing yet.
pub fn end<S: Sink>(halt: &Halt, out: &mut S) -> Status
    ensures { Ends halt.now (S.taken out.old) (S.taken out.new) (S.faults out.old) (S.faults out.new) result }
{
    match halt {
        Halt::Refused(line) => print(line, Status::Refused, out),
        Halt::ReadFault => Status::ReadFault,
        Halt::Memory => Status::Memory,
    }
}

/// The status of a run that has put its text. The line of a refusal is printed.
pub fn tell_run<S: Sink>(alloc: Global, ran: Result<Ended, RunFault>, out: &mut S) -> Status
    ensures { ToldAs ran (S.taken out.old) (S.taken out.new) (S.faults out.old) (S.faults out.new) result }
{
    match ran {
        Ok(ended) => match ended.end {
            End::Bound => Status::Done,
            End::Stopped(_) => Status::Stopped,
        },
        Err(RunFault::Write) => Status::WriteFault,
        Err(RunFault::TooSmall(small)) => match too_small_line(alloc, small) {
            Ok(line) => print(&line, Status::Refused, out),
            Err(_) => Status::Memory,
        },
        Err(RunFault::Memory) => Status::Memory,
    }
}
