//! What a log says, why bytes are not a log, and functions for logs whose bytes are all in memory.
ghost use Rattle.std.specs.Prelude.{◌≡◌, List, IfOk, IfErr, MatchOption};
ghost use Rattle.mt_words.specs.Changes.{Logged};
ghost use Rattle.mt_words.specs.Limits.{limits_of};
ghost use Rattle.mt_record.specs.declared.read.FeedFault.TheVariants as faults;
ghost use Rattle.mt_record.specs.Logs.{log_bytes};
ghost use Rattle.mt_record.specs.LogTexts.{IsTextOf};
ghost use Rattle.mt_record.specs.Fronts.{IsNext, Stops};
ghost use Rattle.mt_record.specs.LogFronts.{IsFrontOf, IsTextFrontOf};
ghost use Rattle.mt_record.specs.Answered.{IsAnswered, IsTextAnswered, fault_at};

use crate::body::copy::copy_record;
use crate::feed::frame::next_record;
use crate::feed::head::is_sealed;
use crate::feed::log_feed::LogFeed;
use crate::front::LogFront;
use mt_words::{Fault, Format, Memory, Record, What};
use std::alloc::Global;
use thiserror::Error;

/// The most bytes of a file that recovery reads.
pub const MOST_BYTES: u64 = 1_073_741_824;

/// A log that was read.
#[derive(Debug, Drop)]
pub struct LogText<R = Vec<Record>> {
    /// The header, and the numbers of all complete records, with those that were taken before.
    pub front: LogFront,
    /// The complete records that were not taken before, in order.
    pub records: R,
}

/// Why bytes cannot be read as a log.
#[derive(Clone, Copy, Debug, PartialEq, Eq, Error)]
pub enum FeedFault {
    /// The bytes do not begin with a header.
    #[error("header")]
    Header,
    /// After the header and `nth` complete records comes neither a record nor a torn tail, or the file is damaged
    /// there (`What::Checksum`).
    #[error("record {nth}: {what}")]
    Record { nth: u64, what: What },
    /// An allocation failed.
    #[error("no memory")]
    Memory,
}

impl FeedFault {
    /// Returns this fault as a fault of recovery, for the log of this number.
    pub fn of_log(self, log: usize) -> Fault
        ensures { result ≡ fault_at log self }
    {
        match self {
            FeedFault::Header => Fault::Header { log },
            FeedFault::Record { nth, what } => Fault::Record { log, nth, what },
            FeedFault::Memory => Fault::Memory,
        }
    }
}

impl From<Memory> for FeedFault {
    ghost from_gives = { λ _ fault. fault ≡ faults.Memory };

    fn from(_refused: Memory) -> FeedFault {
        FeedFault::Memory
    }
}

/// Reads a log in one pass over all its bytes. Err: the one fault of the bytes, or `Memory` if an allocation failed.
pub fn read_log(alloc: Global, bytes: &[u8]) -> Result<LogText, FeedFault>
    ensures log { IfOk result (IsTextOf bytes.now) }
    ensures fault { IfErr result (IsAnswered bytes.now) }
{
    let mut feed = LogFeed::new(alloc);
    feed.feed(bytes)?;
    feed.finish()
}

/// The number of bytes of a log in memory that are read at once.
const READ_AT_ONCE: usize = 65_536;

/// Returns how far a text is a log, and the bytes of just the header and the complete records, which are a log. It
/// keeps no record.
/// Err: the text has no header, as a file of format 4 has none of its own, or `Memory` if an allocation failed.
pub fn cut_log(alloc: Global, bytes: &[u8]) -> Result<(LogFront, &[u8]), FeedFault>
    ensures log { IfOk result (λ cut. (records : List Logged) × IsTextFrontOf bytes.now records cut.0 × (cut.1.now ≡ log_bytes cut.0.head records)) }
    ensures fault { IfErr result (IsTextAnswered bytes.now) }
{
    if is_sealed(bytes) {
        return Err(FeedFault::Header);
    }
    let front = log_front(alloc, bytes)?;
    Ok((front, &bytes[..front.bytes as usize]))
}

/// Returns how far a file is a log. It keeps no record.
/// Err: the bytes have no header, or `Memory` if an allocation failed.
pub fn log_front(alloc: Global, bytes: &[u8]) -> Result<LogFront, FeedFault>
    ensures front { IfOk result (λ front. (records : List Logged) × IsFrontOf bytes.now records front) }
    ensures fault { IfErr result (IsAnswered bytes.now) }
{
    let mut feed = LogFeed::keeping(alloc);
    let mut read = 0;
    while read < bytes.len() {
        let end = read.saturating_add(READ_AT_ONCE).min(bytes.len());
        // The feed keeps a fault, and reads no further.
        let _ = feed.feed(&bytes[read..end]);
        let _ = feed.drop_kept();
        read = end;
    }
    let front = feed.front()?;
    Ok(front)
}

/// Returns the record at the front of bytes, and the bytes after it. `latest` is the timestamp of the record before it.
/// Returns None if no record of this format is at the front. Err: out of memory.
pub fn record_at(
    alloc: Global,
    format: Format,
    latest: u64,
    bytes: &[u8],
) -> Result<Option<(Record, &[u8])>, Memory>
    ensures { IfOk result (λ found. MatchOption found (Stops (limits_of format) latest bytes.now)
        (λ x. IsNext (limits_of format) latest bytes.now x.0 x.1.now)) }
{
    match next_record(format, latest, bytes) {
        Ok(Some((_, body, after))) => Ok(Some((copy_record(alloc, body)?, after))),
        // Nothing, or a torn tail.
        Ok(None) => Ok(None),
        // A fault.
        Err(_) => Ok(None),
    }
}
