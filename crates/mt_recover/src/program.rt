//! The program that prints the store of log files.
ghost use Rattle.std.specs.Prelude.{◌≡◌, ◌≢◌, ◌≤◌, ◌<◌, ◌↔◌, ◌⊎◌, [], length, map, All, IfOk, IfErr, IsErrAnd, OnOk, vec_len};
ghost use Rattle.std.specs.Io.KnownBytes.{Appends, Keeps};
ghost use Rattle.mt_recover.specs.declared.program.TheConstants.{MOST_FILES};
ghost use Rattle.mt_recover.specs.Recovery.{IsStoreOf};
ghost use Rattle.mt_text.specs.Pairs.{dump_text};
ghost use Rattle.mt_recover.specs.Program.{AreOfSomeFile, IsStoreOfFiles, IsPrinted, status_of};

use crate::failure::{Failure, Refusal};
use crate::reading::read_log;
use crate::recovery::{Recovered, recover_logs};
use crate::store::Store;
use mt_text::Lines;
use mt_words::{Fault, Memory};
use std::alloc::Global;
use std::io::{self, Write};
use std::rt::Files;

/// Prints all pairs in order, one line each, as `write_pair` of `mt_text` does. Err: write error. The contract does not
/// say how much was written then.
pub fn write_dump<W: Write>(store: &Store, out: &mut W) -> io::Result<()>
    ensures { OnOk result (Appends (W.contents out.old) (W.contents out.new) (dump_text store.now)) }
{
    store.visit(&Lines, out)
}

/// The most files that a program of this repository takes.
pub const MOST_FILES: usize = 512;

/// Prints the store of the log files of these names on `out`, or a line on `err` that says why it is not printed. Reads
/// all files before it recovers any.
///
/// Returns the exit status: 0 if the store was printed; 1 for a fault of the logs or out of memory; 2 if no name is
/// given; 3 if a file cannot be opened, for too many names and for a write error. Nothing is written to `out` if the
/// status is 1 or 2, nor for too many names.
pub fn dump_files<R: Files + AllocGlobal, O: Write, E: Write>(
    rt: &R,
    names: &[String],
    out: &mut O,
    err: &mut E,
) -> u8
    ensures printed { result ≡ 0 →
        IsPrinted R.File.remaining (length names.now) (O.contents out.old) (O.contents out.new) }
    ensures kept { (result ≡ 1) ⊎ (result ≡ 2) → Keeps (O.contents out.old) (O.contents out.new) }
    ensures no_files { result ≡ 2 ↔ (names.now ≡ []) }
    ensures too_many { MOST_FILES < length names.now → (result ≡ 3) × Keeps (O.contents out.old) (O.contents out.new) }
    ensures range { result ≤ 3 }
{
    match dump(rt, names, out) {
        Ok(()) => 0,
        Err(refusal) => refusal.tell("mtdump", err),
    }
}

/// Recovers the store of the files and prints it. Frees the bytes of the files before it prints.
fn dump<'a, R: Files + AllocGlobal, O: Write>(
    rt: &R,
    names: &'a [String],
    out: &mut O,
) -> Result<(), Refusal<'a>>
    ensures printed { OnOk result
        (IsPrinted R.File.remaining (length names.now) (O.contents out.old) (O.contents out.new)) }
    ensures kept { IfErr result (λ refusal. refusal.failure ≢ Failure.Output →
        Keeps (O.contents out.old) (O.contents out.new)) }
    ensures no_files { names.now ≡ [] → IsErrAnd result (λ refusal. refusal.failure ≡ Failure.NoFiles) }
    ensures files { IfErr result (λ refusal. status_of refusal.failure ≡ 2 → names.now ≡ []) }
    ensures too_many { MOST_FILES < length names.now → IsErrAnd result (λ refusal. refusal.failure ≡ Failure.TooManyFiles) }
{
    if names.is_empty() {
        return Err(Refusal::from(Failure::NoFiles));
    }
    if names.len() > MOST_FILES {
        return Err(Refusal::from(Failure::TooManyFiles));
    }
    let recovered = recover_files(rt, names)?;
    print(recovered.store(), out)
}

/// Recovers the store of the files.
fn recover_files<'a, R: Files + AllocGlobal>(
    rt: &R,
    names: &'a [String],
) -> Result<Recovered, Refusal<'a>>
    ensures store { IfOk result (λ recovered. IsStoreOfFiles R.File.remaining (length names.now) recovered.store) }
    ensures files { IfErr result (λ refusal. status_of refusal.failure ≢ 2) }
{
    let files = read_files(rt, names)?;
    Ok(recover_bytes(rt.alloc(), &files)?)
}

/// Recovers the store of the logs that have these bytes.
fn recover_bytes(alloc: Global, files: &[Vec<u8>]) -> Result<Recovered, Fault>
    ensures { IfOk result (λ recovered. IsStoreOf (map (λ file. file.items) files.now) [] recovered.store) }
{
    let logs = slices_of(alloc, files)?;
    recover_logs(alloc, &logs)
}

/// Prints the store and flushes the output, so that a late write error has a status too.
fn print<'a, O: Write>(store: &Store, out: &mut O) -> Result<(), Refusal<'a>>
    ensures printed { OnOk result
        (Appends (O.contents out.old) (O.contents out.new) (dump_text store.now)) }
    ensures output { IfErr result (λ refusal. refusal.failure ≡ Failure.Output) }
{
    write_dump(store, out)?;
    Ok(out.flush()?)
}

/// Reads all files. Reads each file before it opens the next.
fn read_files<'a, R: Files + AllocGlobal>(
    rt: &R,
    names: &'a [String],
) -> Result<Vec<Vec<u8>>, Refusal<'a>>
    ensures many { IfOk result (λ files. vec_len files ≡ length names.now) }
    ensures read { IfOk result (λ files. All (λ bytes. AreOfSomeFile R.File.remaining bytes.items) files.items) }
    ensures files { IfErr result (λ refusal. status_of refusal.failure ≢ 2) }
{
    let mut files = Vec::new(rt.alloc());
    for (log, name) in names.iter().enumerate() {
        files.push(read_log(rt, log, name.as_str())?)?;
    }
    Ok(files)
}

/// Returns the bytes of each file as a slice.
fn slices_of(alloc: Global, files: &[Vec<u8>]) -> Result<Vec<&[u8]>, Memory>
    ensures { IfOk result (λ slices. map (λ slice. slice.now) slices.items ≡ map (λ file. file.items) files.now) }
{
    let mut slices = Vec::with_capacity(alloc, files.len())?;
    for file in files {
        slices.push(file.as_slice())?;
    }
    Ok(slices)
}
