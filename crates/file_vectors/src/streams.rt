//! Standard output over a writer that takes little, is interrupted and fails, and a file over such a reader.

use crate::agree::holds;
use pv_io::{IoAnswer, Sink, StdSink, read_all};
use std::alloc::Global;
use std::io::{self, Error, ErrorKind, Read, Write};
use std::process::Abort;

/// Takes one byte a write, up to its room, and is interrupted before each of some.
#[derive(Drop)]
struct Narrow<'a> {
    taken: &'a mut Vec<u8>,
    room: u8,
    interrupts: u8,
    end: Option<ErrorKind>,
}

impl Write for Narrow<'_> {
    fn write(&mut self, buf: &[u8]) -> io::Result<usize> {
        if self.interrupts > 0 {
            self.interrupts -= 1;
            return Err(Error::from(ErrorKind::Interrupted));
        }
        if self.room == 0 {
            return match self.end {
                None => Ok(0),
                Some(kind) => Err(Error::from(kind)),
            };
        }
        match buf {
            [] => Ok(0),
            [byte, ..] => {
                self.taken.push(*byte)?;
                self.room -= 1;
                Ok(1)
            }
        }
    }

    fn flush(&mut self) -> io::Result<()> {
        Ok(())
    }
}

/// How many bytes are taken and what comes then, whether the piece was written, and the count of faults.
type Piece = (u8, Option<ErrorKind>, bool, u64);

static PIECES: [Piece; 4] = [
    (4, None, true, 0),
    (2, None, false, 1),
    (2, Some(ErrorKind::BrokenPipe), false, 1),
    (0, None, false, 1),
];

/// Whether a piece of four bytes is written so, after an empty one.
fn is_written(alloc: Global, row: &Piece) -> bool {
    let (room, end, written, faults) = *row;
    let mut taken = Vec::new(alloc);
    let mut out = StdSink::new(Narrow {
        taken: &mut taken,
        room,
        interrupts: 2,
        end,
    });
    let empty = out.put(b"").is_ok();
    let whole = out.put(b"abcd").is_ok();
    let counted = out.faults;
    drop(out);
    empty
        && whole == written
        && counted == faults
        && taken.len() == room as usize
        && b"abcd".starts_with(taken.as_slice())
}

#[test]
fn a_piece_is_written_whole_or_is_a_fault(rt: HostRuntime) {
    for (k, row) in PIECES.iter().enumerate() {
        holds(&rt, k, is_written(rt.alloc(), row));
    }
}

/// Gives one byte a read, as many as are left, and is interrupted before each of some.
#[derive(Drop)]
struct Drops {
    left: u8,
    interrupts: u8,
    end: Option<ErrorKind>,
}

impl Read for Drops {
    fn read(&mut self, buf: &mut [u8]) -> io::Result<usize> {
        if self.interrupts > 0 {
            self.interrupts -= 1;
            return Err(Error::from(ErrorKind::Interrupted));
        }
        if self.left == 0 {
            return match self.end {
                None => Ok(0),
                Some(kind) => Err(Error::from(kind)),
            };
        }
        if buf.is_empty() {
            return Ok(0);
        }
        buf[0] = self.left;
        self.left -= 1;
        Ok(1)
    }
}

/// How many bytes there are and what comes then, the limit, and the bytes that are read; none where that fails.
type File = (u8, Option<ErrorKind>, u64, Option<&'static [u8]>);

static FILES: [File; 6] = [
    (3, None, 3, Some(&[3, 2, 1])),
    (3, None, 2, None),
    (0, None, 0, Some(&[])),
    (1, None, 0, None),
    (3, None, 8, Some(&[3, 2, 1])),
    // It fails in the midst.
    (3, Some(ErrorKind::Other), 8, None),
];

/// Whether a file is read so that is interrupted so often.
fn is_read(alloc: Global, row: &File, interrupts: u8) -> bool {
    let (left, end, limit, want) = *row;
    if limit > 8 {
        return false;
    }
    let file = Drops {
        left,
        interrupts,
        end,
    };
    match read_all(alloc, file, limit) {
        Ok(bytes) => want == Some(bytes.as_slice()),
        Err(IoAnswer::Failed) => want.is_none(),
        Err(IoAnswer::Memory) => false,
    }
}

fn are_read(rt: &impl Abort, alloc: Global, interrupts: u8) {
    for (k, row) in FILES.iter().enumerate() {
        holds(rt, k, is_read(alloc, row, interrupts));
    }
}

#[test]
fn a_file_is_read_up_to_its_limit_or_is_a_fault(rt: HostRuntime) {
    for interrupts in 0..3u8 {
        are_read(&rt, rt.alloc(), interrupts);
    }
}
