//! Checks of logs. A check reads a log as a scan does and counts its records, but keeps none, so it needs no more
//! memory than a chunk.
ghost use Rattle.std.specs.Prelude.{◌≡◌, ◌+◌, [], List, ℕ, IfOk, IfErr, IsTrue};
ghost use Rattle.mt_scan.specs.Scans.{IsLogVerdict, IsScanFault, IsSoundFront, OfTold, failures_of};
ghost use Rattle.mt_scan.specs.Checks.{IsCheckOf, IsOfARecord};
ghost use Rattle.mt_scan.specs.Steps.Checking.{HasCounted, Counts};

use crate::feeding::{Fed, feed_all};
use crate::source::Source;
use mt_record::{KeptRecords, LogFeed, LogFront, Rest};
use mt_words::Fault;
use std::alloc::Global;

/// What a check finds in a log that has a header.
#[derive(Clone, Copy, Debug)]
pub struct LogCheck {
    /// How far its bytes are a log, and what follows.
    pub front: LogFront,
    /// The number of marks among its complete records.
    pub marks: u64,
    /// The number of updates among them at or past the limit of the check.
    pub late: u64,
}

impl LogCheck {
    /// Returns the front of the log with this number. Err: the fault of the record after its complete records.
    pub fn sound_front(&self, log: usize) -> Result<LogFront, Fault>
        ensures front { (limit : ℕ) (bytes : List ℕ) → IsCheckOf limit bytes self.now → IfOk result (IsSoundFront bytes) }
        ensures fault { (limit : ℕ) (bytes : List ℕ) → IsCheckOf limit bytes self.now → IfErr result (IsScanFault log bytes) }
        ensures is { IfOk result (λ front. front ≡ self.now.front) }
        ensures record { IfErr result (IsOfARecord log) }
        ensures no_source { failures_of result ≡ 0 }
    {
        if let Rest::Faulty(what) = self.front.rest {
            let nth = self.front.count;
            return Err(Fault::Record { log, nth, what });
        }
        Ok(self.front)
    }
}

/// A feed that counts the records of a log, and keeps none.
#[derive(Drop)]
struct CheckingFeed {
    feed: LogFeed<KeptRecords>,
    limit: u64,
    marks: u64,
    late: u64,
}

impl CheckingFeed {
    /// Creates a feed that has read no chunk.
    fn new(alloc: Global, limit: u64) -> CheckingFeed
        ensures fed { Counts result result [] }
        ensures limit { result.limit ≡ limit }
    {
        CheckingFeed {
            feed: LogFeed::keeping(alloc),
            limit,
            marks: 0,
            late: 0,
        }
    }

    /// Returns the check of all that was fed. Err: the bytes have no header, or out of memory.
    fn finish(self, log: usize) -> Result<LogCheck, Fault>
        ensures check { (bytes : List ℕ) → HasCounted self bytes → IfOk result (IsCheckOf self.limit bytes) }
        ensures fault { (bytes : List ℕ) → HasCounted self bytes → IfErr result (IsLogVerdict log bytes) }
        ensures no_source { failures_of result ≡ 0 }
    {
        match self.feed.front() {
            Ok(front) => Ok(LogCheck {
                front,
                marks: self.marks,
                late: self.late,
            }),
            Err(fault) => Err(fault.of_log(log)),
        }
    }
}

impl Fed for CheckingFeed {
    ghost was_fed = { Counts };

    fn feed_next(&mut self, piece: &[u8]) -> bool {
        let goes_on = self.feed.feed(piece).is_ok();
        let (late, before) = self.feed.drop_at(self.limit);
        self.late = self.late.saturating_add(late.updates);
        self.marks = self
            .marks
            .saturating_add(late.marks)
            .saturating_add(before.marks);
        goes_on
    }
}

/// Checks the log with this number from its source, up to the end or the first fault. It reads no further than that, and
/// keeps no record. `limit` is the timestamp from which updates count as late. A fault after the header is no error.
/// Err: the log has no header, its source failed, or out of memory.
pub fn check_log<S: Source>(
    alloc: Global,
    source: &mut S,
    log: usize,
    limit: u64,
) -> Result<LogCheck, Fault>
    ensures check { IfOk result (λ check. OfTold (S.seen source.old).told (λ bytes. IsCheckOf limit bytes check)) }
    ensures fault { IfErr result (λ fault. OfTold (S.seen source.old).told (λ bytes. IsScanFault log bytes fault)) }
    ensures failed { (S.seen source.new).failures ≡ (S.seen source.old).failures + failures_of result }
    ensures steady { IsTrue (S.seen source.old).steady → failures_of result ≡ 0 }
{
    let mut feed = CheckingFeed::new(alloc, limit);
    match feed_all(source, &mut feed) {
        Ok(()) => feed.finish(log),
        Err(_) => Err(Fault::Source { log }),
    }
}
