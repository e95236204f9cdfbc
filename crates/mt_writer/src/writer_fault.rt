//! Why a log takes no record.
ghost use Rattle.std.specs.Prelude.{◌≡◌};
ghost use Rattle.mt_writer.specs.declared.writer_fault.WriterFault.TheVariants as faults;

use mt_words::Memory;
use thiserror::Error;

/// Why a log takes no record, or has no next segment.
#[derive(Clone, Copy, Debug, PartialEq, Eq, Error)]
pub enum WriterFault {
    /// A write or a sync failed.
    #[error("a write failed")]
    Failed,
    /// The log was ended, or the clock stands at the greatest timestamp.
    #[error("the log has ended")]
    Ended,
    /// The file has no room for another record, or the log no number for another segment.
    #[error("the log is full")]
    Full,
    /// The record does not fit into the small block of the records that are held. So these must be taken first.
    #[error("a write is due")]
    Untaken,
    /// The version is 0.
    #[error("version 0")]
    Version,
    /// The key is too long.
    #[error("the key is too long")]
    Key,
    /// There is no column, a number is too great or not above the one before it, or a value is too long.
    #[error("columns")]
    Columns,
    /// Out of memory.
    #[error("no memory")]
    Memory,
}

impl From<Memory> for WriterFault {
    ghost from_gives = { λ _ fault. fault ≡ faults.Memory };

    fn from(_memory: Memory) -> WriterFault {
        WriterFault::Memory
    }
}
