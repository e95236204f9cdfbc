//! Faults: the reasons why there is no store.
ghost use Rattle.std.specs.Prelude.{◌≡◌};
ghost use Rattle.mt_words.specs.Faults.{number_of};

use std::alloc::{AllocError, AllocFailed};
use thiserror::Error;

/// Out of memory: an allocation failed. The product reports every failed allocation under this name.
#[derive(Clone, Copy, Debug, PartialEq, Eq, Error)]
#[error("no memory")]
pub struct Memory;

impl From<AllocError> for Memory {
    fn from(_refused: AllocError) -> Memory {
        Memory
    }
}

impl<T: Drop> From<AllocFailed<T>> for Memory {
    fn from(_refused: AllocFailed<T>) -> Memory {
        Memory
    }
}

/// What is wrong with a record. The variants are in the order in which they are tested, and the first that holds is
/// reported.
#[derive(Clone, Copy, Debug, PartialEq, Eq, Error)]
pub enum What {
    /// The length is too small or too great for any record.
    #[error("length")]
    Length,
    /// The length after the body differs from the one before it.
    #[error("trailer")]
    Trailer,
    /// No kind of record has this byte.
    #[error("kind")]
    Kind,
    /// The fields of the record's kind do not end exactly where the body ends.
    #[error("frame")]
    Frame,
    /// The version is 0.
    #[error("version")]
    Version,
    /// The key is too long.
    #[error("key")]
    Key,
    /// There is no column, there are too many, a number is too high, or the numbers do not strictly rise.
    #[error("columns")]
    Columns,
    /// The timestamp is below that of the record before it.
    #[error("clock")]
    Clock,
    /// A file of format 4 has something damaged, whose checksum is wrong, and goes on after it.
    #[error("checksum")]
    Checksum,
}

/// The reason why there is no store. The variants stand in the order of their numbers, from 1 on (`number`); the order
/// of refusals is that of `recover_one`. Logs, parts, records and pieces count from 0.
#[derive(Clone, Copy, Debug, PartialEq, Eq, Error)]
pub enum Fault {
    /// No log was given.
    #[error("no logs")]
    NoLogs,
    /// The log does not begin with a header.
    #[error("log {log}: header")]
    Header { log: usize },
    /// After `nth` complete records, the log goes on with neither a record nor a torn tail.
    #[error("log {log}: record {nth}: {what}")]
    Record { log: usize, nth: u64, what: What },
    /// Reading the log from its source failed.
    #[error("log {log}: source failed")]
    Source { log: usize },
    /// Reading the checkpoint part from its source failed.
    #[error("part {part}: source failed")]
    PartSource { part: usize },
    /// Updates that recovery needs may be missing before or from the log.
    #[error("log {log}: gap")]
    Gap { log: usize },
    /// No worker returned the piece, a range of keys.
    #[error("piece {piece}: missing")]
    Missing { piece: u32 },
    /// Out of memory: an allocation failed.
    #[error("no memory")]
    Memory,
    /// The log is the same segment of the same worker's log as a log before it.
    #[error("log {log}: doubled")]
    Doubled { log: usize },
    /// The log has a torn tail, but a later segment of its worker's log is there.
    #[error("log {log}: torn")]
    Torn { log: usize },
}

impl Fault {
    /// Returns the number of the fault, by which programs in other languages know it.
    pub fn number(&self) -> u8
        ensures { result ≡ number_of self.now }
    {
        match self {
            Fault::NoLogs => 1,
            Fault::Header { .. } => 2,
            Fault::Record { .. } => 3,
            Fault::Source { .. } => 4,
            Fault::PartSource { .. } => 5,
            Fault::Gap { .. } => 6,
            Fault::Missing { .. } => 7,
            Fault::Memory => 8,
            Fault::Doubled { .. } => 9,
            Fault::Torn { .. } => 10,
        }
    }
}

impl From<Memory> for Fault {
    ghost use Rattle.std.specs.Prelude.{◌≡◌};
    ghost use Rattle.mt_words.specs.declared.fault.Fault.TheVariants as faults;

    ghost from_gives = { λ _ fault. fault ≡ faults.Memory };

    fn from(_memory: Memory) -> Fault {
        Fault::Memory
    }
}

impl<T: Drop> From<AllocFailed<T>> for Fault {
    ghost use Rattle.std.specs.Prelude.{◌≡◌};
    ghost use Rattle.mt_words.specs.declared.fault.Fault.TheVariants as faults;

    ghost from_gives = { λ _ fault. fault ≡ faults.Memory };

    fn from(_refused: AllocFailed<T>) -> Fault {
        Fault::Memory
    }
}
