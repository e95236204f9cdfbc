//! Notes in a folder what its store lost, for when nothing else shows it any more.
use crate::caveat::{Caveat, plural};
use crate::halt::Halt;
use crate::host::{Host, Run};
use crate::loss::Loss;
use crate::saving::{Site, no_file, site_of};
use crate::told::Told;
use mt_recover::{Failure, Refusal};
use mt_text::Shown;
use mt_words::{Fault, Memory};
use std::alloc::Global;
use std::fmt::{self, Display, Formatter};
use std::fs;
use std::io::{self, ErrorKind, Write};
use std::path::{Path, PathBuf};

/// The name of the file in which losses are noted, a line each.
pub const NOTES: &str = "LOSS";

impl<'a, R: Host> Run<'a, R> {
    /// Returns what is noted. None: nothing. Err: the file cannot be read as text, or out of memory.
    fn noted(&self) -> io::Result<Option<String>> {
        let path = Path::new(self.folder.path).join(self.rt.alloc(), NOTES)?;
        read_notes(self.rt, &path)
    }

    /// Prints the notes of the folder, or that they cannot be read; that names are ignored; and that writers are lost, if the logs
    /// are of this many writers. Returns the caveat that is given or, if there is none and something was printed, `No`. A write
    /// error is passed over.
    pub fn tell_noted<E: Write>(
        &self,
        caveat: Option<Caveat>,
        writers: usize,
        err: &mut E,
    ) -> Result<Option<Caveat>, Refusal<'static>> {
        let mut is_caveat = self.tell_ignored(err);
        if let Some(line) = self.lost_writers(writers)? {
            let _ = writeln!(err, "mtrecover: {line}");
            is_caveat = true;
        }
        match self.noted() {
            Ok(None) => {}
            Ok(Some(noted)) => {
                for line in noted.lines() {
                    let _ = writeln!(err, "mtrecover: {NOTES}: {}", Noted(line));
                }
                is_caveat = true;
            }
            Err(error) if error.kind() == ErrorKind::OutOfMemory => {
                return Err(Refusal::from(Fault::Memory));
            }
            Err(error) => {
                let _ = writeln!(err, "mtrecover: {NOTES} cannot be read");
                if self.folder.is_verbose {
                    let _ = writeln!(
                        err,
                        "reason: {error}; try: see what it is, and move it away"
                    );
                }
                is_caveat = true;
            }
        }
        Ok(if is_caveat {
            caveat.or(Some(Caveat::No))
        } else {
            caveat
        })
    }

    /// Tells how many names are ignored that look like those of logs and parts, and the first of them. Returns whether there are
    /// some.
    fn tell_ignored<E: Write>(&self, err: &mut E) -> bool {
        let Some(first) = self.names.ignored.first() else {
            return false;
        };
        let count = self.names.ignored.len();
        let (s, first) = (plural(count as u128), Shown(first.as_str()));
        let _ = writeln!(
            err,
            "mtrecover: {count} name{s} ignored, as {first}: logs end in .mtl, parts in .mtc"
        );
        true
    }

    /// Prints what is noted, a line each or, as JSON, an object each, and then deletes the notes.
    pub fn forget<O: Write>(&self, is_json: bool, out: &mut O) -> Result<Option<Caveat>, Halt<'a>> {
        let out = &mut Told::new(self.rt.alloc(), is_json, out);
        let noted = match self.noted() {
            Ok(Some(noted)) => noted,
            Ok(None) => return Ok(None),
            Err(error) => return Err(Halt::from(Refusal::of(Failure::Open(NOTES), error))),
        };
        let site = Site {
            rt: self.rt,
            folder: self.folder.path,
            advice: "run it as a user who may write into the folder",
        };
        for line in noted.lines() {
            writeln!(out, "{}", Noted(line))?;
        }
        out.flush()?;
        site.delete(NOTES)?;
        site.sync()?;
        Ok(None)
    }
}

impl<R: Host> Site<'_, R> {
    /// Notes each line of a loss that is not noted yet, in one step. If each one is, the notes stay as they are. The file gets the
    /// owner, the group and the mode of the file `model`, if that is there.
    pub fn note(&self, loss: &Loss, model: &str) -> Result<(), Halt<'static>> {
        let path = self.path(NOTES)?;
        let read = self.tell("read", NOTES, read_notes(self.rt, &path))?;
        let mut text = read.unwrap_or(String::new(self.rt.alloc()));
        let before = text.len();
        for line in &loss.0 {
            if !text.lines().any(|noted| noted == line.as_str()) {
                text.push_str(line.as_str())?;
                text.push('\n')?;
            }
        }
        if text.len() == before {
            self.sync_file(NOTES)?;
        } else {
            self.write(NOTES, model, text.as_bytes())?;
        }
        self.sync()
    }
}

/// Reads the notes of this path. None: there are none. Err: they are no regular file, which is not opened because a pipe could
/// have no writer; they are no text or cannot be read; or out of memory.
fn read_notes<R: Host>(rt: &R, path: &PathBuf) -> io::Result<Option<String>> {
    match fs::metadata(rt, path) {
        Ok(file) if !file.is_file() => return Err(no_file()),
        // What the system does not tell here, it tells when the file is opened.
        _ => {}
    }
    match fs::read_to_string(rt, path) {
        Ok(text) => Ok(Some(text)),
        Err(error) if error.kind() == ErrorKind::NotFound => Ok(None),
        Err(error) => Err(error),
    }
}

/// A noted line, in which names were escaped when it was noted: a `\` is printed as it is, and other control characters as their
/// escapes.
#[derive(Clone, Copy)]
struct Noted<'a>(&'a str);

impl<'a> Display for Noted<'a> {
    fn fmt<W: fmt::Write>(&self, f: &mut Formatter<W>) -> fmt::Result {
        let mut is_first = true;
        for piece in self.0.split('\\') {
            if !is_first {
                write!(f, "\\")?;
            }
            write!(f, "{}", Shown(piece))?;
            is_first = false;
        }
        Ok(())
    }
}

/// Notes what a cut told that it leaves out of the file of this path, in the folder that this is in.
pub fn note_cut<R: Host>(rt: &R, path: &str, told: &[u8]) -> Result<(), Halt<'static>> {
    let name = Path::new(path).file_name().unwrap_or(path);
    let lines = lines_of(rt.alloc(), name, str::from_utf8(told).unwrap_or(""))?;
    if lines.is_empty() {
        return Ok(());
    }
    site_of(rt, path).note(&Loss(lines), name)
}

/// Returns what a cut told of the file of this name, without hints.
fn lines_of(alloc: Global, name: &str, told: &str) -> Result<Vec<String>, Memory> {
    let mut lines = Vec::new(alloc);
    for line in told.lines() {
        if let Some(what) = line.strip_prefix("mtrecover: ") {
            lines.push(format!(in alloc; "{}: {what}", Shown(name))?)?;
        }
    }
    Ok(lines)
}
