//! Why a part takes no entry, or does not end.
ghost use Rattle.std.specs.Prelude.{◌≡◌};
ghost use Rattle.mt_writer.specs.declared.part_fault.PartWriterFault.TheVariants as faults;

use mt_words::Memory;
use std::alloc::AllocError;
use thiserror::Error;

/// Why a part takes no entry, or does not end.
#[derive(Clone, Copy, Debug, PartialEq, Eq, Error)]
pub enum PartWriterFault {
    /// The part has ended.
    #[error("the part has ended")]
    Ended,
    /// No part of format 2 has the entry: its version is 0, its key is too long, it has no column, a column's number is
    /// too great or not above the one before it, or a value is too long.
    #[error("no entry")]
    Lawless,
    /// The part has 2^32 - 1 entries.
    #[error("the part is full")]
    Full,
    /// The key is not above the last one.
    #[error("the key is not above the last one")]
    Order,
    /// The end is below the begin.
    #[error("the end is below the begin")]
    End,
    /// Out of memory.
    #[error("no memory")]
    Memory,
}

impl From<Memory> for PartWriterFault {
    ghost from_gives = { λ _ fault. fault ≡ faults.Memory };

    fn from(_memory: Memory) -> PartWriterFault {
        PartWriterFault::Memory
    }
}

impl From<AllocError> for PartWriterFault {
    ghost from_gives = { λ _ fault. fault ≡ faults.Memory };

    fn from(_refused: AllocError) -> PartWriterFault {
        PartWriterFault::Memory
    }
}
