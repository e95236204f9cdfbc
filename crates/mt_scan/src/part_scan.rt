//! Scans of checkpoint parts.
ghost use Rattle.std.specs.Prelude.{◌≡◌, ◌+◌, List, ℕ, IfOk, IfErr, IsTrue};
ghost use Rattle.mt_record.specs.PartFeeding.{IsPartFed};
ghost use Rattle.mt_scan.specs.Scans.{OfTold, failures_of};
ghost use Rattle.mt_scan.specs.PartScans.{IsKnown};
ghost use Rattle.mt_scan.specs.PartsShown.{known_by, IsPartScanFault};

use crate::feeding::feed_all;
use crate::source::Source;
use mt_record::{KeptEntries, PartFault, PartFeed, PartText};
use mt_words::Fault;
use std::alloc::Global;

/// The result of scanning a part of a checkpoint.
#[derive(Debug, Drop)]
pub enum PartScan {
    /// The part is complete.
    Whole(PartText<KeptEntries>),
    /// The part has a header, but is broken.
    Broken {
        /// The number of its checkpoint.
        number: u32,
        /// The number of complete entries before the fault.
        entries: u64,
    },
    /// The part has no header: it belongs to no checkpoint.
    Nameless,
}

/// Reads the part with this number from its source, up to the end or the first fault of its bytes. It reads no further
/// than that. A broken part is not an error: its checkpoint is invalid. Err: `PartSource` if the source failed, or
/// `Memory` if out of memory.
pub fn scan_part<S: Source>(alloc: Global, source: &mut S, part: usize) -> Result<PartScan, Fault>
    ensures scan { IfOk result (λ scan. OfTold (S.seen source.old).told (λ bytes. IsKnown bytes (known_by scan))) }
    ensures fault { IfErr result (IsPartScanFault part) }
    ensures failed { (S.seen source.new).failures ≡ (S.seen source.old).failures + failures_of result }
    ensures steady { IsTrue (S.seen source.old).steady → failures_of result ≡ 0 }
{
    let mut feed = PartFeed::keeping(alloc);
    let Ok(()) = feed_all(source, &mut feed) else {
        return Err(Fault::PartSource { part });
    };
    finish_part(feed)
}

/// Returns the scan of a part from all that was fed. A broken part is not an error. Err: `Memory`, out of memory.
pub fn finish_part(feed: PartFeed<KeptEntries>) -> Result<PartScan, Fault>
    ensures scan { (bytes : List ℕ) → IsPartFed feed bytes → IfOk result (λ scan. IsKnown bytes (known_by scan)) }
    ensures fault { (part : ℕ) → IfErr result (IsPartScanFault part) }
    ensures no_source { failures_of result ≡ 0 }
{
    match feed.finish() {
        Ok(text) => Ok(PartScan::Whole(text)),
        Err(PartFault::Broken { number, entries }) => Ok(PartScan::Broken { number, entries }),
        Err(PartFault::Header) => Ok(PartScan::Nameless),
        Err(PartFault::Memory) => Err(Fault::Memory),
    }
}
