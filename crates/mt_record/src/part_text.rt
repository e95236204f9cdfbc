//! What a part of a checkpoint says, and why bytes are not a part.
ghost use Rattle.std.specs.Prelude.{◌≡◌};
ghost use Rattle.mt_record.specs.declared.part_text.PartFault.TheVariants as faults;

use mt_words::{Entry, Format, Memory};
use thiserror::Error;

/// The header of a part.
#[derive(Clone, Copy, Debug)]
pub struct PartHead {
    pub format: Format,
    /// The number of its checkpoint.
    pub number: u32,
    /// The timestamp from which logs are replayed over the checkpoint.
    pub begin: u64,
    /// The number of this part, counted from 0.
    pub part: u16,
    /// The number of parts in the checkpoint.
    pub parts: u16,
}

/// A part that was read. `E` is the collection that holds its entries.
#[derive(Debug, Drop)]
pub struct PartText<E = Vec<Entry>> {
    /// The number of its checkpoint.
    pub number: u32,
    /// The timestamp from which logs are replayed over the checkpoint.
    pub begin: u64,
    /// The number of this part, counted from 0.
    pub part: u16,
    /// The number of parts in the checkpoint.
    pub parts: u16,
    /// The entries, in order.
    pub entries: E,
    /// The timestamp at which the checkpoint was complete.
    pub end: u64,
}

/// Why bytes cannot be read as a part.
#[derive(Clone, Copy, Debug, PartialEq, Eq, Error)]
pub enum PartFault {
    /// The bytes do not begin with a header.
    #[error("header")]
    Header,
    /// The bytes begin like a part of checkpoint `number`, with `entries` complete entries, but are not a part.
    #[error("checkpoint {number} is broken after {entries} entries")]
    Broken { number: u32, entries: u64 },
    /// An allocation failed.
    #[error("no memory")]
    Memory,
}

impl From<Memory> for PartFault {
    ghost from_gives = { λ _ fault. fault ≡ faults.Memory };

    fn from(_refused: Memory) -> PartFault {
        PartFault::Memory
    }
}
