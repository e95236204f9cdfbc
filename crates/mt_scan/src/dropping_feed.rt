//! The feed of a scan that drops late records.
ghost use Rattle.std.specs.Prelude.{◌≡◌, None, false, ◌≤◌, ◌<◌, ◌++◌, ◌^◌, [], List, ℕ, length, min, ◌+◌, ◌-◌, IfOk, IfSome, IfErr, IsErr};
ghost use Rattle.mt_record.specs.LogFeeding.{IsFedBehind};
ghost use Rattle.mt_scan.specs.Scans.{IsLogVerdict, failures_of};
ghost use Rattle.mt_scan.specs.Dropping.{HasAllBelow, KeepsOnlyBelow};
ghost use Rattle.mt_scan.specs.Steps.DroppingFeeds.{IsFedBelow, HasDropped, HasStopped};

use crate::log_scan::{LogScan, scan_of};
use mt_record::{Dropped, KeptRecords, LogFeed};
use mt_words::Fault;
use std::alloc::Global;

/// A feed that reads a log chunk by chunk and keeps only its records below a limit. The limit may fall from chunk to
/// chunk.
#[derive(Drop)]
pub struct DroppingFeed {
    feed: LogFeed<KeptRecords>,
    /// The records below the limit, once others were dropped. Until then it is None, and the feed has them.
    kept: Option<KeptRecords>,
    /// The number of updates that were dropped. It saturates at the greatest u64.
    dropped: u64,
    /// The number of marks that were dropped. It saturates at the greatest u64.
    marks: u64,
}

impl DroppingFeed {
    /// Creates a feed that has read no chunk.
    pub fn new(alloc: Global) -> DroppingFeed
        ensures { (limit : ℕ) → IsFedBelow result limit [] }
    {
        DroppingFeed {
            feed: LogFeed::keeping(alloc),
            kept: None,
            dropped: 0,
            marks: 0,
        }
    }

    /// Feeds the next chunk, and drops the records at or past the limit. Returns false after a fault, which more bytes
    /// do not change.
    pub fn feed_below(&mut self, piece: &[u8], limit: u64) -> bool
        ensures fed { (before : ℕ) (bytes : List ℕ) → limit ≤ before → IsFedBelow self.old before bytes →
            IsFedBelow self.new limit (bytes ++ piece.now) }
        ensures stops { result ≡ false → HasStopped self.new }
    {
        let goes_on = self.feed.feed(piece).is_ok();
        if goes_on {
            self.drop_late(limit);
        }
        goes_on
    }

    /// Does what `feed_below` does. `ahead` was fed the chunk behind a header.
    pub fn feed_ahead_below(
        &mut self,
        ahead: Option<LogFeed<KeptRecords>>,
        piece: &[u8],
        limit: u64,
    ) -> bool
        requires { IfSome ahead (λ ahead. IsFedBehind ahead piece.now) }
        ensures fed { (before : ℕ) (bytes : List ℕ) → limit ≤ before → IsFedBelow self.old before bytes →
            IsFedBelow self.new limit (bytes ++ piece.now) }
        ensures stops { result ≡ false → HasStopped self.new }
    {
        let Some(ahead) = ahead else {
            return self.feed_below(piece, limit);
        };
        let goes_on = self.feed.feed_ahead(ahead, piece).is_ok();
        if goes_on {
            self.drop_late(limit);
        }
        goes_on
    }

    /// Returns a feed that has read the header of this log alone. Returns None if this feed has not read the header.
    pub fn behind_header(&self, alloc: Global) -> Option<LogFeed<KeptRecords>>
        ensures { (limit : ℕ) (bytes : List ℕ) → IsFedBelow self.now limit bytes → IfSome result (λ begun. IsFedBehind begun []) }
    {
        self.feed.behind_header(alloc)
    }

    /// Drops the records at or past the limit. Timestamps do not fall, so these are the last ones.
    fn drop_late(&mut self, limit: u64)
        ensures { (bytes : List ℕ) → self.old.feed.fault ≡ None → HasDropped self.old limit bytes → IsFedBelow self.new limit bytes }
    {
        match &mut self.kept {
            Some(kept) => {
                let later = self.feed.drop_kept();
                let gone = kept.cut(limit);
                self.count(gone);
                self.count(later);
            }
            None => {
                if self.feed.latest() >= limit {
                    let mut kept = self.feed.take_kept();
                    let first = kept.cut(limit);
                    self.kept = Some(kept);
                    self.count(first);
                }
            }
        }
    }

    /// Adds records that were dropped to the counts.
    fn count(&mut self, more: Dropped)
        ensures { self.new ≡ record self.old { marks = min (self.old.marks + more.marks) (2 ^ 64 - 1); dropped = min (self.old.dropped + more.updates) (2 ^ 64 - 1) } }
    {
        self.marks = self.marks.saturating_add(more.marks);
        self.dropped = self.dropped.saturating_add(more.updates);
    }

    /// Returns the scan of the log with this number from all that was fed. Err: the fault of the bytes, or `Memory` if
    /// out of memory.
    pub fn finish(self, log: usize) -> Result<LogScan, Fault>
        ensures scan { (limit : ℕ) (bytes : List ℕ) → IsFedBelow self limit bytes → length bytes < 2 ^ 64 →
            IfOk result (λ scan. HasAllBelow limit log bytes scan × KeepsOnlyBelow limit scan) }
        ensures fault { (limit : ℕ) (bytes : List ℕ) → IsFedBelow self limit bytes → IfErr result (IsLogVerdict log bytes) }
        ensures stopped { HasStopped self → IsErr result }
        ensures no_source { failures_of result ≡ 0 }
    {
        let DroppingFeed {
            feed,
            kept,
            dropped,
            marks,
        } = self;
        match feed.finish() {
            Ok(text) => Ok(scan_of(log, text, kept, dropped, marks)),
            Err(fault) => Err(fault.of_log(log)),
        }
    }
}
