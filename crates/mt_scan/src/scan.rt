//! Scans of logs.
ghost use Rattle.std.specs.Prelude.{◌≡◌, ◌+◌, [], List, ℕ, IfOk, IfErr, IsTrue};
ghost use Rattle.mt_record.specs.LogFeeding.{IsLogFed};
ghost use Rattle.mt_scan.specs.Scans.{IsScanOf, IsScanFault, IsLogVerdict, OfTold, failures_of};

use crate::feeding::feed_all;
use crate::log_scan::LogScan;
use crate::source::Source;
use mt_record::{KeptRecords, LogFeed};
use mt_words::Fault;
use std::alloc::Global;

/// Reads the log with this number from its source, up to the end or the first fault, and keeps its updates. It reads no
/// further than that. Err: the fault of the log's bytes, `Source` if the source failed, or `Memory` if out of memory.
pub fn scan_log<S: Source>(alloc: Global, source: &mut S, log: usize) -> Result<LogScan, Fault>
    ensures scan { IfOk result (λ scan. OfTold (S.seen source.old).told (λ bytes. IsScanOf log bytes scan)) }
    ensures fault { IfErr result (λ fault. OfTold (S.seen source.old).told (λ bytes. IsScanFault log bytes fault)) }
    ensures failed { (S.seen source.new).failures ≡ (S.seen source.old).failures + failures_of result }
    ensures steady { IsTrue (S.seen source.old).steady → failures_of result ≡ 0 }
{
    let mut feed = LogFeed::keeping(alloc);
    match feed_all(source, &mut feed) {
        Ok(()) => finish_log(feed, log),
        Err(_) => Err(Fault::Source { log }),
    }
}

/// Reads the log with this number from bytes in memory, and keeps its updates. Err: the fault of the bytes, or `Memory`
/// if out of memory.
pub fn scan_bytes(alloc: Global, bytes: &[u8], log: usize) -> Result<LogScan, Fault>
    ensures scan { IfOk result (IsScanOf log bytes.now) }
    ensures fault { IfErr result (IsLogVerdict log bytes.now) }
{
    let mut feed = LogFeed::keeping(alloc);
    let _ = feed.feed(bytes);
    finish_log(feed, log)
}

/// Returns the scan of the log with this number from all that was fed. Err: the fault of the bytes, or `Memory` if out
/// of memory.
pub fn finish_log(feed: LogFeed<KeptRecords>, log: usize) -> Result<LogScan, Fault>
    ensures scan { (bytes : List ℕ) → IsLogFed feed bytes [] → IfOk result (IsScanOf log bytes) }
    ensures fault { (bytes : List ℕ) → IsLogFed feed bytes [] → IfErr result (IsLogVerdict log bytes) }
    ensures no_source { failures_of result ≡ 0 }
{
    match feed.finish() {
        Ok(text) => Ok(LogScan::of(log, text)),
        Err(fault) => Err(fault.of_log(log)),
    }
}
