//! What the program needs of the system, and a command on the files of a folder.
use crate::halt::Halt;
use crate::listing::Names;
use crate::progress::Meter;
use crate::request::Folder;
use mt_recover::{Failure, Refusal};
use std::env::Env;
use std::fs::{File, Files, TryLockError};
use std::io::{self, ErrorKind, Write};
use std::random::RandomSource;
use std::thread::Threads;
use std::time::Clock;

/// What the program needs of the system.
pub trait Host: AllocGlobal
    + Clock
    + Clone
    + Drop
    + Env
    + Files<File: Lock>
    + RandomSource
    + Threads
    + Sync {}

impl<
    R: AllocGlobal + Clock + Clone + Drop + Env + Files<File: Lock> + RandomSource + Threads + Sync,
> Host for R {}

/// A command on the files of a folder.
#[derive(Drop)]
pub struct Run<'a, R> {
    pub rt: &'a R,
    pub folder: &'a Folder<'a>,
    /// The files of the folder.
    pub names: &'a Names,
}

impl<'a, R: Host> Run<'a, R> {
    /// Returns a meter of the bytes of all files, each read `readings` times, and of this number of pieces.
    pub fn meter<'e, E: Write>(&self, readings: u64, pieces: u32, err: &'e mut E) -> Meter<'e, R, E>
    where
        'a: 'e,
    {
        let mut bytes: u64 = 0;
        for name in self.names.logs.iter().chain(&self.names.parts) {
            bytes = bytes.saturating_add(self.size_of(name.as_str()).unwrap_or(0));
        }
        Meter::new(
            self.rt,
            self.folder.telling,
            bytes.saturating_mul(readings),
            u64::from(pieces),
            err,
        )
    }
}

/// A file or folder that is open, and can be locked. Closing it ends the lock.
pub trait Lock: Send {
    /// Locks it, and does not wait. Shared locks go together. Err: another process has locked it, or the system does not.
    fn lock_at_once(&self, is_shared: bool) -> io::Result<()>;
}

impl Lock for File {
    fn lock_at_once(&self, is_shared: bool) -> io::Result<()> {
        let locked = if is_shared {
            self.try_lock_shared()
        } else {
            self.try_lock()
        };
        match locked {
            Ok(()) => Ok(()),
            Err(TryLockError::Error(error)) => Err(error),
            Err(TryLockError::WouldBlock) => Err(io::Error::new(
                ErrorKind::WouldBlock,
                "a server, or another command that changes files, uses it",
            )),
        }
    }
}

/// Locks the folder of this path until what is returned is dropped, shared or not. None: it is not to be locked.
pub fn lock_folder<'a, R: Host>(
    rt: &R,
    path: &'a str,
    shared: Option<bool>,
) -> Result<Option<R::File>, Halt<'a>> {
    let Some(is_shared) = shared else {
        return Ok(None);
    };
    let file = match File::open(rt, path) {
        Ok(file) => file,
        Err(error) => return Err(Halt::from(Refusal::of(Failure::List(path), error))),
    };
    Ok(Some(lock_opened(rt, path, file, is_shared)?))
}

/// Locks this folder, which is open and has this path, until what is returned is dropped, shared or not.
pub fn lock_opened<R: Host>(
    rt: &R,
    path: &str,
    folder: R::File,
    is_shared: bool,
) -> Result<R::File, Halt<'static>> {
    match folder.lock_at_once(is_shared) {
        Ok(()) => Ok(folder),
        Err(error) => {
            let advice = "stop the server first";
            Err(Halt::stuck(rt.alloc(), "lock", path, error, advice))
        }
    }
}
