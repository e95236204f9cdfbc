//! The results of scanning logs.
ghost use Rattle.std.specs.Prelude.{◌≡◌, List, ℕ};
ghost use Rattle.mt_record.specs.LogTexts.{IsKeptTextOf};
ghost use Rattle.mt_scan.specs.Scans.{IsScanOf};
ghost use Rattle.mt_scan.specs.Steps.DroppingFeeds.{scan_from};

use mt_record::{KeptRecords, LogFront, LogText, Updates};

/// The result of scanning a log.
#[derive(Debug, Drop)]
pub struct LogScan {
    /// How far its bytes are a log. The number of complete records is exact.
    pub front: LogFront,
    /// The number of marks among the complete records, dropped ones included.
    pub marks: u64,
    /// The updates that the scan kept, with the records that they are borrowed from.
    pub updates: Updates,
    /// The number of updates that were dropped: counted, but not kept.
    pub dropped: u64,
}

impl LogScan {
    /// Creates the scan of the log with this number, from all that was read of it. Allocates nothing.
    pub fn of(log: usize, mut text: LogText<KeptRecords>) -> LogScan
        ensures { (bytes : List ℕ) → IsKeptTextOf bytes text → IsScanOf log bytes result }
    {
        // The front's count saturates at the greatest u64. Fewer records than that are in memory, so their number
        // is exact.
        text.front.count = text.records.len() as u64;
        scan_of(log, text, None, 0, 0)
    }
}

/// Creates the scan of the log with this number and this text. Once something was dropped, `kept` has the records that
/// were kept, since they were taken out of the text.
pub(crate) fn scan_of(
    log: usize,
    text: LogText<KeptRecords>,
    kept: Option<KeptRecords>,
    dropped: u64,
    marks: u64,
) -> LogScan
    ensures { result ≡ scan_from log text kept dropped marks }
{
    let records = kept.unwrap_or(text.records);
    LogScan {
        front: text.front,
        marks: records.marks().saturating_add(marks),
        updates: Updates::of(log, records),
        dropped,
    }
}
