//! Prints a failure: its line, and a second one with the file that it names, what the system says, and what to try.
ghost use Rattle.std.specs.Prelude.{◌≤◌, IfErr};

use crate::host::{Host, Run};
use crate::listing::Names;
use crate::sealed::NO_HEADER;
use mt_recover::{Failure, Refusal};
use mt_text::Shown;
use mt_words::Fault;
use std::io::{self, ErrorKind, Write};

/// What to try if parts are there, but no logs.
const NO_LOGS_BESIDE_PARTS: &str =
    "put the logs back; parts of a checkpoint are there: resume --no-logs begins a log above its \
     end, which loses what logs had from its begin on, unless they were deleted because it stands for them";

/// What to try if a part of format 4 has lost its header.
const PUT_BACK: &str = "put a good copy back: of a part of format 4 cut needs the header";

/// What the system says if a process has too many open files (`EMFILE`).
const TOO_MANY_OPEN: i32 = 24;

/// Prints the second line of a failure: the name of the file with the fault, if these names have it; the reason that the
/// system gave, if it gave one; and what to try. Err: write error.
pub fn explain<E: Write>(refusal: &Refusal<'_>, names: &Names, err: &mut E) -> io::Result<()> {
    let file = file_of(&refusal.failure, names);
    if let Some(name) = file {
        write!(err, "file: {}; ", Shown(name))?;
    }
    if let Some(reason) = &refusal.reason {
        write!(err, "reason: {reason}; ")?;
    }
    let advice = match (&refusal.failure, &refusal.reason) {
        (Failure::Recovery(Fault::NoLogs), _) if !names.parts.is_empty() => NO_LOGS_BESIDE_PARTS,
        (Failure::List(_), Some(reason)) if reason.kind() == ErrorKind::NotADirectory => {
            "name the folder that the file is in, or print the file by records"
        }
        (Failure::Open(_), Some(reason)) if reason.raw_os_error() == Some(TOO_MANY_OPEN) => {
            "allow the process more open files, as by ulimit -n"
        }
        (Failure::Recovery(Fault::Source { .. } | Fault::PartSource { .. }), Some(reason))
            if reason.kind() == ErrorKind::FileTooLarge => "allow more by --file-bytes",
        (Failure::Recovery(Fault::Source { .. } | Fault::PartSource { .. }), Some(reason))
            if reason.kind() == ErrorKind::IsADirectory =>
            "move the folder away, which has the name of a file",
        (Failure::Recovery(Fault::Header { .. }), Some(reason))
            if reason.kind() == ErrorKind::InvalidData && is_part(file) => PUT_BACK,
        (Failure::Recovery(Fault::Header { .. }), _) if is_part(file) => "print a part by records",
        (failure, _) => advice(failure),
    };
    writeln!(err, "try: {advice}")
}

/// Returns whether the name of a file is that of a part.
fn is_part(file: Option<&str>) -> bool {
    file.is_some_and(|name| name.ends_with(".mtc"))
}

impl<'a, R: Host> Run<'a, R> {
    /// Gives a failure of a file that has no reason the one that the file shows now, if it shows one.
    pub fn add_reason(&self, refusal: &mut Refusal<'_>) {
        if refusal.reason.is_some() {
            return;
        }
        if let Failure::Recovery(Fault::Header { .. }) = &refusal.failure {
            let file = file_of(&refusal.failure, self.names);
            if matches!(file.map(|name| self.is_sealed(name)), Some(Ok(Some(true)))) {
                refusal.reason = Some(io::Error::new(ErrorKind::InvalidData, NO_HEADER));
            }
            return;
        }
        let unread = match &refusal.failure {
            Failure::Recovery(Fault::Source { .. } | Fault::PartSource { .. }) => {
                file_of(&refusal.failure, self.names)
            }
            Failure::Open(name) => Some(*name),
            _ => None,
        };
        if let Some(name) = unread {
            refusal.reason = self.why_unread(name);
        }
    }
}

/// Returns the name of the file that has the fault.
fn file_of<'a>(failure: &Failure<'_>, names: &'a Names) -> Option<&'a str> {
    let Failure::Recovery(fault) = failure else {
        return None;
    };
    let name = match *fault {
        Fault::Header { log }
        | Fault::Record { log, .. }
        | Fault::Source { log }
        | Fault::Doubled { log }
        | Fault::Torn { log }
        | Fault::Gap { log } => names.logs.get(log),
        Fault::PartSource { part } => names.parts.get(part),
        Fault::NoLogs | Fault::Missing { .. } | Fault::Memory => None,
    };
    name.map(String::as_str)
}

/// Returns what to try after a failure.
fn advice(failure: &Failure<'_>) -> &'static str {
    match failure {
        Failure::Words => "write arguments in UTF-8",
        Failure::NoFiles => "name a log",
        Failure::Key =>
            "write two hexadecimal digits a byte, or text with --text; a key has at most 4,096 bytes",
        Failure::List(_) => "name a folder that can be read, whose names are UTF-8",
        Failure::TooManyFiles =>
            "keep fewer logs and parts in the folder, or allow more by --files",
        Failure::Open(_) => "put the file back, or allow to read it",
        Failure::Recovery(fault) => advice_on(fault),
        Failure::Output => "write to an output that has room and stays open",
    }
}

/// Returns what to try after a fault.
fn advice_on(fault: &Fault) -> &'static str {
    match fault {
        Fault::NoLogs => "name the folder that has the .mtl files, whose endings are in lower case",
        Fault::Header { .. } => {
            "put a good copy back; else see by check what is left, and save it by cut --header: if the file goes, its updates go with it, and nothing tells"
        }
        Fault::Record { .. } => {
            "put a good copy back; else see by check and records what follows, and save it into a new file by cut --skip"
        }
        Fault::Source { .. } | Fault::PartSource { .. } => "make it a file that can be read",
        Fault::Doubled { .. } =>
            "see both files by records, and keep the one that has more of this segment",
        Fault::Torn { .. } => {
            "put the whole segment back; else cut it: check and report --strict then tell of a hole"
        }
        Fault::Gap { .. } => {
            "put back what came before it: logs, segments or a checkpoint; check tells why one does not count"
        }
        Fault::Missing { .. } => "run the command again",
        Fault::Memory => "use a machine with more memory",
    }
}

/// Prints the failure on `err`, with a second line if there are names, and returns its exit status.
pub fn tell<E: Write>(refusal: &Refusal<'_>, names: Option<&Names>, err: &mut E) -> u8
    ensures { result ≤ 3 }
{
    let status = refusal.tell("mtrecover", err);
    if let Some(names) = names {
        // A write error does not change the status.
        let _ = explain(refusal, names, err);
    }
    status
}

/// Passes on an Ok. For an Err, tells the failure as `tell` does and returns its exit status as the Err.
pub fn or_tell<T: Drop, E: Write>(
    outcome: Result<T, Refusal<'_>>,
    names: Option<&Names>,
    err: &mut E,
) -> Result<T, u8>
    ensures { IfErr result (λ status. status ≤ 3) }
{
    match outcome {
        Ok(value) => Ok(value),
        Err(refusal) => Err(tell(&refusal, names, err)),
    }
}
