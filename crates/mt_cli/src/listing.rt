//! Lists the files of a folder.
use crate::host::Host;
use crate::request::Folder;
use crate::saving::UNFINISHED;
use mt_recover::{Failure, Refusal};
use std::alloc::{AllocError, Global};
use std::{fs, io};

/// Lists the logs and parts of the folder, which the endings of their names tell, each kind in byte order. Refuses more than
/// it may have.
pub fn list<'a, R: Host>(rt: &R, folder: &Folder<'a>) -> Result<Names, Refusal<'a>> {
    let path = folder.path;
    let mut names = match read_names(rt, path) {
        Ok(names) => names,
        Err(error) => return Err(Refusal::of(Failure::List(path), error)),
    };
    // Logs and parts count together.
    if names.logs.len().saturating_add(names.parts.len()) as u64 > folder.most_files {
        return Err(Refusal::from(Failure::TooManyFiles));
    }
    names.logs.sort_unstable();
    names.parts.sort_unstable();
    names.ignored.sort_unstable();
    Ok(names)
}

/// Reads the names of the logs and parts of the folder, in no particular order.
fn read_names<R: Host>(rt: &R, folder: &str) -> io::Result<Names> {
    let mut names = Names::new(rt.alloc());
    for entry in fs::read_dir(rt, folder)? {
        names.add(rt.alloc(), entry?.file_name())?;
    }
    Ok(names)
}

/// The names of the logs and parts of a folder, and of files that are taken for neither, each kind in byte order.
#[derive(Drop)]
pub struct Names {
    /// The names of the logs. They end in `.mtl`.
    pub logs: Vec<String>,
    /// The names of the parts. They end in `.mtc`.
    pub parts: Vec<String>,
    /// The names that are ignored, but look like those of logs and parts, as `a.MTL` and `a.mtl.gz`.
    pub ignored: Vec<String>,
}

impl Names {
    /// Creates an empty `Names`.
    pub fn new(alloc: Global) -> Names {
        Names {
            logs: Vec::new(alloc),
            parts: Vec::new(alloc),
            ignored: Vec::new(alloc),
        }
    }

    /// Returns the name of one log, which may have any ending. Err: out of memory.
    pub(crate) fn of_log(alloc: Global, name: &str) -> Result<Names, AllocError> {
        let mut names = Names::new(alloc);
        names.logs.push(String::from_str(alloc, name)?)?;
        Ok(names)
    }

    /// Adds the name of a log or a part, or one that looks like it. Passes over any other name. Err: out of memory.
    pub(crate) fn add(&mut self, alloc: Global, name: &str) -> Result<(), AllocError> {
        let kind = if name.ends_with(".mtl") {
            &mut self.logs
        } else if name.ends_with(".mtc") {
            &mut self.parts
        } else if looks_alike(name) {
            &mut self.ignored
        } else {
            return Ok(());
        };
        kind.push(String::from_str(alloc, name)?)?;
        Ok(())
    }
}

/// Returns whether `.mtl` or `.mtc` is in a name, in any case. A file that is being written has such a name, too, which does
/// not count.
fn looks_alike(name: &str) -> bool {
    if name.ends_with(UNFINISHED) {
        return false;
    }
    for ending in name.as_bytes().windows(4) {
        if ending.eq_ignore_ascii_case(b".mtl") || ending.eq_ignore_ascii_case(b".mtc") {
            return true;
        }
    }
    false
}
