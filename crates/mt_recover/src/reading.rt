//! Reads files into memory.
ghost use Rattle.std.specs.Prelude.{◌≢◌, ◌≤◌, length, IfOk, IfErr};
ghost use Rattle.mt_record.specs.declared.read.TheConstants.{MOST_BYTES};
ghost use Rattle.mt_scan.specs.Sources.{Agrees};
ghost use Rattle.mt_recover.specs.Program.{AreOfSomeFile, status_of};

use crate::failure::{Failure, Refusal};
use mt_record::MOST_BYTES;
use mt_words::Fault;
use std::alloc::Global;
use std::fs::{File, OpenFile};
use std::io::{self, ErrorKind, Read};
use std::rt::Files;

/// Reads the file of this path as the log of this number. Err: it cannot be opened or read, has more than `MOST_BYTES`
/// bytes, or out of memory.
pub fn read_log<'a, R: Files + AllocGlobal>(
    rt: &R,
    log: usize,
    path: &'a str,
) -> Result<Vec<u8>, Refusal<'a>>
    ensures read { IfOk result (λ bytes. AreOfSomeFile R.File.remaining bytes.items) }
    ensures files { IfErr result (λ refusal. status_of refusal.failure ≢ 2) }
{
    let file = match File::open(rt, path) {
        Ok(file) => file,
        Err(error) => return Err(Refusal::of(Failure::Open(path), error)),
    };
    match read_file(rt.alloc(), file) {
        Ok(bytes) => Ok(bytes),
        Err(error) => Err(Refusal::of(Failure::Recovery(Fault::Source { log }), error)),
    }
}

/// Reads the bytes of a file, all of them. Looks at its size first, to refuse a file that is too large at once. Reads
/// at most one byte past `MOST_BYTES`, to refuse a file that grows.
///
/// Err: a read error, `FileTooLarge` for more than `MOST_BYTES` bytes, or out of memory.
fn read_file<F: Read + OpenFile + Drop>(alloc: Global, file: F) -> io::Result<Vec<u8>>
    ensures whole { IfOk result (λ bytes. Agrees (F.remaining file) bytes.items) }
    ensures few { IfOk result (λ bytes. length bytes.items ≤ MOST_BYTES) }
{
    let size = file.metadata()?.len();
    if size > MOST_BYTES {
        return Err(io::Error::from(ErrorKind::FileTooLarge));
    }
    // One byte more than the file has, so that reading finds its end without growing the buffer.
    let mut bytes = Vec::with_capacity(alloc, size as usize + 1)?;
    let count = file.take(MOST_BYTES + 1).read_to_end(&mut bytes)?;
    if count as u64 > MOST_BYTES {
        return Err(io::Error::from(ErrorKind::FileTooLarge));
    }
    Ok(bytes)
}
