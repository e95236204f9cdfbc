//! The example of docs/EMBEDDING.md: recovery over files.
use crate::asserting::assert_bytes;
use crate::logs::{LOG_A, LOG_B, PART};
use mt_recover::{Cutting, Inputs, MOST_BYTES, NoGate, Pieces, Workers, recover, write_dump};
use mt_scan::{LONGEST_BUFFER, Rack, ReaderSource, Slot};
use std::env::{Env, temp_dir};
use std::fs::{self, File, Files};
use std::io::{self, ErrorKind, Write};
use std::process::Abort;
use std::thread::Threads;

/// Opens these files as sources, each with the buffer of a slot.
fn sources_of<'a, R: AllocGlobal + Files>(
    rt: &R,
    names: &[String],
    slots: &'a mut [Slot],
) -> io::Result<Vec<ReaderSource<'a, R::File>>> {
    let mut sources = Vec::new(rt.alloc());
    for (name, slot) in names.iter().zip(slots) {
        let file = File::open(rt, name.as_str())?;
        let source = ReaderSource::new(file, MOST_BYTES, slot).ok_or(ErrorKind::ResourceBusy)?;
        sources.push(source)?;
    }
    Ok(sources)
}

fn print_store<R, W: Write>(
    rt: &R,
    logs: &[String],
    parts: &[String],
    workers: Workers,
    pieces: Pieces,
    out: &mut W,
) -> io::Result<()>
where
    R: AllocGlobal + Files + Threads + Sync,
    R::File: Send,
{
    let count = logs.len().saturating_add(parts.len());
    let Ok(mut rack) = Rack::new(rt.alloc(), count, LONGEST_BUFFER) else {
        return Err(ErrorKind::OutOfMemory.into());
    };
    let (log_slots, part_slots) = rack.slots().split_at_mut(logs.len());
    let logs = sources_of(rt, logs, log_slots)?;
    let parts = sources_of(rt, parts, part_slots)?;
    let inputs = Inputs { logs, parts };
    match recover(
        rt,
        rt.alloc(),
        inputs,
        workers,
        Cutting::Sampled(pieces),
        &NoGate,
    ) {
        Ok(recovered) => write_dump(recovered.store(), out),
        Err(fault) => writeln!(out, "{fault}"),
    }
}

/// Makes a file of these bytes for a test of this process, and returns its path as a list of one.
fn made<R: Abort + AllocGlobal + Env + Files>(
    rt: &R,
    id: u32,
    name: &str,
    bytes: &[u8],
) -> Vec<String> {
    let folder = temp_dir(rt).expect(rt, "a folder");
    let folder = folder.as_path().to_string_lossy();
    let path = format!(in rt.alloc(); "{folder}/mt_tests-{id}-{name}").expect(rt, "memory");
    fs::write(rt, path.as_str(), bytes).expect(rt, "a file");
    vec![in rt.alloc(); path].expect(rt, "memory")
}

#[test]
fn recovers_from_files(rt: HostRuntime) {
    let id = std::process::id(rt.process());
    let mut logs = made(&rt, id, "a.mtl", LOG_A);
    let mut second = made(&rt, id, "b.mtl", LOG_B);
    logs.append(&mut second).expect(&rt, "memory");
    let parts = made(&rt, id, "c.mtc", PART);
    let mut out = Vec::new(rt.alloc());
    let workers = Workers::new(4).expect(&rt, "1 to 64 workers");
    let pieces = Pieces::new(16).expect(&rt, "1 to 4,096 pieces");
    print_store(&rt, &logs, &parts, workers, pieces, &mut out).expect(&rt, "the files");
    assert_bytes(&rt, "", &out, b"61: 0=6f 1=70\n62: 0=79\n");
    for path in logs.iter().chain(&parts) {
        fs::remove_file(&rt, path.as_str()).expect(&rt, "the file");
    }
}
