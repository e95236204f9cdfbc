//! The failures of the programs, with their texts and exit statuses.
ghost use Rattle.std.specs.Prelude.{◌≡◌, ◌≤◌, ◌⊎◌};
ghost use Rattle.mt_words.specs.declared.fault.Fault.TheVariants as faults;
ghost use Rattle.mt_recover.specs.declared.failure.Failure.TheVariants.{Recovery, Output};
ghost use Rattle.mt_recover.specs.Program.{status_of, failure_of};

use mt_text::{PrintFault, Shown};
use mt_words::{Fault, Memory};
use std::alloc::{AllocError, AllocFailed};
use std::io::{self, ErrorKind, Write};
use thiserror::Error;

/// Why a program did not do what its arguments ask.
#[derive(Debug, Drop, Error)]
pub enum Failure<'a> {
    /// The arguments cannot be read, for example because one is not UTF-8.
    #[error("cannot read the words")]
    Words,
    /// No file was named.
    #[error("no files")]
    NoFiles,
    /// The key is not hexadecimal, or has more than `LONGEST_KEY` bytes.
    #[error("bad key")]
    Key,
    /// The folder of this name cannot be listed, or a name in it is not UTF-8.
    #[error("cannot list {}", Shown(.0))]
    List(&'a str),
    /// There are more than `MOST_FILES` files.
    #[error("too many files")]
    TooManyFiles,
    /// The file of this name cannot be opened.
    #[error("cannot open {}", Shown(.0))]
    Open(&'a str),
    /// There is no store.
    #[error("{0}")]
    Recovery(Fault),
    /// Write error on the output.
    #[error("output failed")]
    Output,
}

impl<'a> Failure<'a> {
    /// Returns the exit status.
    pub fn status(&self) -> u8
        ensures value { result ≡ status_of self.now }
        ensures range { result ≤ 3 }
    {
        match self {
            Failure::Recovery(_) => 1,
            Failure::Words | Failure::NoFiles | Failure::Key => 2,
            Failure::List(_) | Failure::TooManyFiles | Failure::Open(_) | Failure::Output => 3,
        }
    }
}

/// A failure, with the reason that the system gave for it.
#[derive(Debug, Drop)]
pub struct Refusal<'a> {
    /// The failure.
    pub failure: Failure<'a>,
    /// The reason, if the system gave one.
    pub reason: Option<io::Error>,
}

impl<'a> Refusal<'a> {
    /// Returns this failure with an I/O error as its reason, or the fault `Memory` if the error is out of memory.
    pub fn of(failure: Failure<'a>, error: io::Error) -> Refusal<'a>
        ensures { (result.failure ≡ failure.entry) ⊎ (result.failure ≡ Failure.Recovery Fault.Memory) }
    {
        let failure = if error.kind() == ErrorKind::OutOfMemory {
            Failure::Recovery(Fault::Memory)
        } else {
            failure
        };
        let reason = Some(error);
        Refusal { failure, reason }
    }

    /// Prints the line of the failure on `err`, with the name of the program, and returns the exit status. A write
    /// error does not change the status.
    pub fn tell<E: Write>(&self, program: &str, err: &mut E) -> u8
        ensures value { result ≡ status_of self.now.failure }
        ensures range { result ≤ 3 }
    {
        let _ = writeln!(err, "{program}: {}", self.failure);
        self.failure.status()
    }
}

impl<'a> From<Failure<'a>> for Refusal<'a> {
    ghost from_gives = { λ failure refusal. refusal.failure ≡ failure };

    fn from(failure: Failure<'a>) -> Refusal<'a> {
        let reason = None;
        Refusal { failure, reason }
    }
}

/// An I/O error that no failure names is a write error on the output, whatever its kind.
impl<'a> From<io::Error> for Refusal<'a> {
    ghost from_gives = { λ _ refusal. refusal.failure ≡ Output };

    fn from(error: io::Error) -> Refusal<'a> {
        Refusal {
            failure: Failure::Output,
            reason: Some(error),
        }
    }
}

impl<'a> From<PrintFault> for Refusal<'a> {
    ghost from_gives = { λ fault refusal. refusal.failure ≡ failure_of fault };

    fn from(fault: PrintFault) -> Refusal<'a> {
        match fault {
            PrintFault::Output(error) => Refusal::from(error),
            PrintFault::Memory => Refusal::from(Memory),
        }
    }
}

impl<'a> From<Fault> for Refusal<'a> {
    ghost from_gives = { λ fault refusal. refusal.failure ≡ Recovery fault };

    fn from(fault: Fault) -> Refusal<'a> {
        Refusal::from(Failure::Recovery(fault))
    }
}

impl<'a> From<Memory> for Refusal<'a> {
    ghost from_gives = { λ _ refusal. refusal.failure ≡ Recovery faults.Memory };

    fn from(_memory: Memory) -> Refusal<'a> {
        Refusal::from(Fault::Memory)
    }
}

impl<'a> From<AllocError> for Refusal<'a> {
    ghost from_gives = { λ _ refusal. refusal.failure ≡ Recovery faults.Memory };

    fn from(_refused: AllocError) -> Refusal<'a> {
        Refusal::from(Memory)
    }
}

impl<'a, T: Drop> From<AllocFailed<T>> for Refusal<'a> {
    ghost from_gives = { λ _ refusal. refusal.failure ≡ Recovery faults.Memory };

    fn from(_refused: AllocFailed<T>) -> Refusal<'a> {
        Refusal::from(Memory)
    }
}
