//! Answers the subcommands that take one file: `records` and `cut`.
ghost use Rattle.std.specs.Prelude.{◌≤◌, length};

use crate::answering::PRINTED_AT_ONCE;
use crate::cutting::cut;
use crate::ending::WIDEST;
use crate::halt::Halt;
use crate::host::Host;
use crate::intake::{Intake, LogIntake, open, unread};
use crate::listing::Names;
use crate::noting::note_cut;
use crate::request::{Cut, FileCommand, FileQuery};
use crate::saving::{begin_path, expect_path, finish_path, give_up_path, lock_path, look_at_path};
use crate::sealed::{Sealed, SealedPart, is_footer, unopened};
use crate::stats::print_stats;
use crate::stop::Stop;
use crate::watching::Look;
use mt_record::{
    Head, PartFault, PartFeed, PartHead, entry_at, header_at, is_sealed_part, part_header_at,
    record_at,
};
use mt_recover::Refusal;
use mt_text::{Listed, Selection, write_entries, write_head, write_part_head, write_records};
use mt_words::Fault;
use std::alloc::Global;
use std::io::{self, BufWriter, ErrorKind, Read, Write};

/// Answers a query on a file, and returns the exit status: 0 if all was printed, or what `Stop::status` says. What follows the
/// complete records or entries is told on `err`. A log is not cut to a terminal.
pub fn answer_file<R: Host, O: Write, E: Write>(
    rt: &R,
    file: &FileCommand<'_>,
    at_terminal: bool,
    out: &mut O,
    err: &mut E,
) -> u8
    ensures status { result ≤ 4 }
{
    let FileCommand {
        path,
        is_verbose,
        ref query,
    } = *file;
    let answered = match query {
        FileQuery::Cut(_, None) if at_terminal => Err(Halt::stuck(
            rt.alloc(),
            "print",
            "a log at a terminal",
            io::Error::new(ErrorKind::Unsupported, "its bytes are no text"),
            "name a file by -o, or print the records",
        )),
        FileQuery::Cut(how, target) => cut_into(rt, path, how, *target, is_verbose, out, err),
        FileQuery::Records(selection, at) => records(rt, path, selection, *at, out),
        FileQuery::Stats(is_json) => print_stats(rt, path, *is_json, out).map(|_| None),
    };
    match answered {
        Ok(stop) => tell_stop(stop, is_verbose.then_some(path), err),
        Err(halt) if halt.is_closed() && !query.changes_files() => 0,
        // The file is log 0.
        Err(halt) => match Names::of_log(rt.alloc(), path) {
            Ok(names) => halt.tell(is_verbose.then_some(&names), err),
            Err(_) => halt.tell(None, err),
        },
    }
}

/// Cuts a log into the file of the path `target`, whose folder it locks, or else prints it. If it leaves out more than a crash
/// leaves, what it tells is noted beside that file before it counts.
fn cut_into<'a, R: Host, O: Write, E: Write>(
    rt: &R,
    path: &'a str,
    how: &Cut,
    target: Option<&str>,
    is_verbose: bool,
    out: &mut O,
    err: &mut E,
) -> Result<Option<Stop>, Halt<'a>> {
    let Some(target) = target else {
        cut(rt, path, how, is_verbose, out, err)?;
        return Ok(None);
    };
    // The lock ends with the command.
    let _lock = lock_path(rt, target)?;
    let look = look_at_path(rt, target)?;
    let mut file = begin_path(rt, target, path)?;
    let mut told = Vec::new(rt.alloc());
    let made = cut(rt, path, how, is_verbose, &mut file, &mut told);
    // A write error does not change what is cut.
    let _ = err.write_all(&told);
    let done = match made {
        Ok(is_lossy) => prepare(rt, target, look, is_lossy, &told),
        Err(halt) => Err(halt),
    };
    match done {
        Ok(()) => {
            finish_path(rt, target, look, file)?;
            Ok(None)
        }
        Err(halt) => Err(give_up_path(rt, target, halt)),
    }
}

/// Refuses if the file of the path `target` is not as it was in this look. If a cut is lossy, notes what it told.
fn prepare<R: Host>(
    rt: &R,
    target: &str,
    look: Option<Look>,
    is_lossy: bool,
    told: &[u8],
) -> Result<(), Halt<'static>> {
    expect_path(rt, target, look)?;
    if is_lossy {
        note_cut(rt, target, told)?;
    }
    Ok(())
}

/// Tells where records or entries stop, and returns the exit status. If there is a name, tells what may have happened to the
/// file. A write error does not change the status.
fn tell_stop<E: Write>(stop: Option<Stop>, name: Option<&str>, err: &mut E) -> u8
    ensures status { result ≤ 4 }
{
    let Some(stop) = stop else {
        return 0;
    };
    stop.tell("", name, err);
    stop.status()
}

/// Prints the header of a log or a part, and its wanted records or entries from a byte on, or from the first one on,
/// each on a line. A log is printed as it is read. A part is held as a whole, since its end is printed first.
fn records<'a, R: Host, O: Write>(
    rt: &R,
    path: &'a str,
    selection: &Selection,
    at: Option<u64>,
    out: &mut O,
) -> Result<Option<Stop>, Halt<'a>> {
    let mut file = open(rt, path)?;
    let mut out = BufWriter::with_capacity(rt.alloc(), PRINTED_AT_ONCE, out)?;
    if file.is_sealed() {
        let log = Sealed::open(rt.alloc(), file.into_all().map_err(unread)?).map_err(unopened)?;
        return Ok(of_sealed(rt.alloc(), &log, at, selection, &mut out)?);
    }
    if is_sealed_part(&file.held) {
        let bytes = file.into_all().map_err(unread)?;
        let part = SealedPart::open(rt.alloc(), bytes).map_err(unopened)?;
        return Ok(of_sealed_part(rt.alloc(), &part, at, selection, &mut out)?);
    }
    let Some((head, rest)) = part_header_at(&file.held) else {
        return Ok(of_log(rt.alloc(), file, at, selection, &mut out)?);
    };
    let first = file.held.len().saturating_sub(rest.len());
    file.read(u64::MAX).map_err(unread)?;
    Ok(of_part(
        rt.alloc(),
        &head,
        &file.held,
        first,
        at,
        selection,
        &mut out,
    )?)
}

/// Prints the header of a log, if it has one, and its wanted records. Without a header they are read from a byte on, by
/// format 2. Returns where they stop before the bytes do.
fn of_log<F: Read + Drop, O: Write>(
    alloc: Global,
    file: Intake<F>,
    at: Option<u64>,
    selection: &Selection,
    out: &mut O,
) -> Result<Option<Stop>, Refusal<'static>> {
    let mut file = file;
    let (head, first) = match header_at(&file.held) {
        Some((head, rest)) => {
            write_head(&head, selection.notation, out)?;
            (head, file.held.len().saturating_sub(rest.len()))
        }
        None if at.is_some() => (UNKNOWN, 0),
        None => return Err(Refusal::from(Fault::Header { log: 0 })),
    };
    file.pass_to(at.map_or(first, |at| at as usize))
        .map_err(unread)?;
    let mut log = LogIntake::new(alloc, file, head)?;
    let mut listed = selection.begin(log.file.at);
    for _ in 0..u64::MAX {
        let printed = listed.at.saturating_sub(log.file.at);
        let bytes = log.file.held.get(printed..).unwrap_or(&[]);
        listed = write_records(alloc, head.format, bytes, listed, selection, out)?;
        log.pass();
        if listed.left == 0 || !log.more()? {
            break;
        }
    }
    out.flush()?;
    if listed.left == 0 {
        return Ok(None);
    }
    log.read_rest()?;
    if at.is_some() {
        Stop::at(alloc, &log)
    } else {
        Stop::of(alloc, &log)
    }
}

/// Prints the header of a log of format 4 as that of its text, and its wanted records, each with the byte of the file where it
/// begins. Returns where they stop before the bytes do.
fn of_sealed<O: Write>(
    alloc: Global,
    log: &Sealed,
    at: Option<u64>,
    selection: &Selection,
    out: &mut O,
) -> Result<Option<Stop>, Refusal<'static>> {
    let head = log.front.head;
    write_head(&head, selection.notation, out)?;
    let mut listed = selection.begin(log.start(at));
    for _ in 0..u64::MAX {
        let rest = log.first.text.get(listed.at..).unwrap_or(&[]);
        let Some((_, after)) = record_at(alloc, head.format, listed.latest, rest)? else {
            break;
        };
        if listed.left == 0 {
            break;
        }
        let record = rest
            .get(..rest.len().saturating_sub(after.len()))
            .unwrap_or(&[]);
        let placed = Listed {
            at: log.first.file_at(listed.at),
            ..listed
        };
        let next = write_records(alloc, head.format, record, placed, selection, out)?;
        listed = Listed {
            at: listed.at.saturating_add(record.len()),
            ..next
        };
    }
    out.flush()?;
    if listed.left == 0 {
        return Ok(None);
    }
    if at.is_none() {
        return Stop::of_sealed(alloc, log);
    }
    Stop::at_sealed(alloc, log, listed.at)
}

/// The header by which a log is read that has lost its own.
const UNKNOWN: Head = Head {
    format: WIDEST,
    from: 0,
    segment: None,
};

/// Prints the header of a part and its wanted entries, the first of which begins at byte `first`. Returns where they
/// stop before the footer does.
fn of_part<O: Write>(
    alloc: Global,
    head: &PartHead,
    bytes: &[u8],
    first: usize,
    at: Option<u64>,
    selection: &Selection,
    out: &mut O,
) -> Result<Option<Stop>, Refusal<'static>> {
    let end = end_of(alloc, bytes)?;
    write_part_head(head, end, selection.notation, out)?;
    let start = start_at(at, first, bytes);
    let begin = selection.begin(start);
    let listed = write_entries(alloc, head.format, &bytes[start..], begin, selection, out)?;
    out.flush()?;
    if listed.left == 0 {
        return Ok(None);
    }
    if at.is_some() && is_footer(bytes.get(listed.at..).unwrap_or(&[])) {
        return Ok(None);
    }
    Ok(stop_in_part(bytes, &listed, at, end))
}

/// Prints the header of a part of format 4 as that of its text, and its wanted entries, each with the byte of the file where it
/// begins. Returns where they stop before the footer does.
fn of_sealed_part<O: Write>(
    alloc: Global,
    part: &SealedPart,
    at: Option<u64>,
    selection: &Selection,
    out: &mut O,
) -> Result<Option<Stop>, Refusal<'static>> {
    let head = part.head;
    let end = end_of(alloc, &part.bytes)?;
    write_part_head(&head, end, selection.notation, out)?;
    let mut listed = selection.begin(part.start(at));
    for _ in 0..u64::MAX {
        let rest = part.body.text.get(listed.at..).unwrap_or(&[]);
        let Some((_, after)) = entry_at(alloc, head.format, rest)? else {
            break;
        };
        if listed.left == 0 {
            break;
        }
        let entry = rest
            .get(..rest.len().saturating_sub(after.len()))
            .unwrap_or(&[]);
        let placed = Listed {
            at: part.body.file_at(listed.at),
            ..listed
        };
        let next = write_entries(alloc, head.format, entry, placed, selection, out)?;
        listed = Listed {
            at: listed.at.saturating_add(entry.len()),
            ..next
        };
    }
    out.flush()?;
    if listed.left == 0 || at.is_some() && part.ends_at(listed.at) {
        return Ok(None);
    }
    let placed = Listed {
        at: part.body.file_at(listed.at),
        ..listed
    };
    Ok(stop_in_part(&part.bytes, &placed, at, end))
}

/// Returns where the entries of a part stop, which were read from this byte on, or from the first one on up to its end.
fn stop_in_part(bytes: &[u8], listed: &Listed, at: Option<u64>, end: Option<u64>) -> Option<Stop> {
    match (at, end) {
        (Some(_), _) => Stop::at_entry(bytes, listed.at),
        (None, Some(_)) => None,
        (None, None) => Stop::of_entries(listed, bytes),
    }
}

/// Returns where the checkpoint ends of which the bytes are a part. None: the bytes are no part.
fn end_of(alloc: Global, bytes: &[u8]) -> Result<Option<u64>, Refusal<'static>> {
    let mut feed = PartFeed::keeping(alloc);
    // The feed keeps a fault.
    let _ = feed.feed(bytes);
    match feed.finish() {
        Ok(part) => Ok(Some(part.end)),
        Err(PartFault::Memory) => Err(Refusal::from(Fault::Memory)),
        Err(_) => Ok(None),
    }
}

/// Returns the byte where reading begins: this one or, without it, the first one after the header.
fn start_at(at: Option<u64>, first: usize, bytes: &[u8]) -> usize
    ensures { result ≤ length bytes.now }
{
    match at {
        Some(at) => (at as usize).min(bytes.len()),
        None => first.min(bytes.len()),
    }
}
