//! The report of what recovery found in logs and parts, and of what became of it.
ghost use Rattle.std.specs.Prelude.{◌≡◌, List, ℕ, length, map, sum_by, IfOk};
ghost use Rattle.std.specs.Fn.{FnReturnsAt};
ghost use Rattle.std.specs.Option.{option_map};
ghost use Rattle.mt_scan.specs.Choosing.{checkpoint_in};
ghost use Rattle.mt_recover.specs.Report.{IsFoundIn};
ghost use Rattle.mt_recover.specs.Steps.Preparing.{IsFoundOf};
ghost use Rattle.mt_recover.specs.Recovery.{entry_updates};

use crate::found::{Found, Start};
use crate::holes::hole_count;
use crate::versions::{greatest_of, version_of_checkpoint, version_of_logs, version_of_logs_below};
use mt_scan::{Checkpoint, Choice, LogScan, writer_count};
use mt_words::Memory;
use std::alloc::Global;

/// The report of what recovery found in logs and parts, and of what became of it. The updates of logs are their puts,
/// removes and erases. Each complete record of a log is a mark, or an update that is early, late or survives.
#[derive(Debug, Drop)]
pub struct Report {
    /// The number of log files.
    pub logs: usize,
    /// The number of writers' logs: each worker's segments are one log, and each other file is a log by itself.
    pub writers: usize,
    /// The number of complete records in all logs, marks included.
    pub records: u128,
    /// The number of marks among them.
    pub marks: u128,
    /// The number of log files that end in a torn tail.
    pub torn: usize,
    /// The number of log files with a hole before them: updates that may be missing after the segment directly before it.
    pub holes: usize,
    /// For each log file, in their order, where its complete records end: the number of bytes of the header and of these
    /// records, counted up to 2^64 - 1. Of a file of format 4 these are the bytes of the log that stands in its blocks.
    pub ends: Vec<u64>,
    /// The greatest timestamp in the logs: of the times of their headers and of their complete records.
    pub last: u64,
    /// The greatest version of all complete records of the logs, early and late ones included, and of the entries of the
    /// chosen checkpoint, or 0 if there is none.
    pub version: u64,
    /// The greatest version of the updates of the logs below the cutoff, early ones included, and of the entries of the
    /// chosen checkpoint, or 0 if there is none. No survivor has a greater one.
    pub version_below_cutoff: u64,
    /// The timestamp below which updates survive.
    pub cutoff: u64,
    /// The number of the chosen checkpoint, if there is one.
    pub checkpoint: Option<u32>,
    /// The timestamp from which updates survive: where the checkpoint begins, or 0 without one.
    pub begin: u64,
    /// The numbers of the invalid checkpoints, rising.
    pub skipped: Vec<u32>,
    /// The positions of the nameless parts, rising.
    pub nameless: Vec<usize>,
    /// The number of entries in the chosen checkpoint.
    pub entries: u128,
    /// The number of updates and entries that survive.
    pub survivors: u128,
    /// The number of updates below `begin`.
    pub early: u128,
    /// The number of updates at or after the cutoff.
    pub late: u128,
    /// The number of keys in the store.
    pub keys: u128,
    /// The number of layers of its tree: one, plus one for each 8 bytes, or 16, 24 and so on, that begin two or more
    /// longer keys. The count stops at 2^64 - 1.
    pub layers: u64,
}

impl Report {
    /// Reports what was found, with no survivors, early or late updates, keys and layers yet. Also returns the scans and
    /// the chosen checkpoint. Err: out of memory.
    pub(crate) fn of(
        alloc: Global,
        found: Found,
    ) -> Result<(Report, Vec<LogScan>, Option<Checkpoint>), Memory>
        ensures scans { IfOk result (λ counted. counted.1.items ≡ found.scans.items) }
        ensures chosen { IfOk result (λ counted. counted.2 ≡ found.start.choice.chosen) }
        ensures report { (logs parts : List (List ℕ)) (is : IsFoundOf logs parts found) →
            IfOk result (λ counted. IsFoundIn is.start.basis.facts counted.0) }
    {
        let Found {
            scans,
            fronts,
            start,
        } = found;
        let Start { window, choice } = start;
        let Choice {
            chosen,
            skipped,
            nameless,
        } = choice;
        let entered = version_of_checkpoint(&chosen);
        let report = Report {
            logs: scans.len(),
            writers: writer_count(&fronts),
            records: total(&scans, |scan| scan.front.count),
            marks: total(&scans, |scan| scan.marks),
            torn: scans.iter().filter(|scan| scan.front.torn()).count(),
            ends: ends_of(alloc, &scans)?,
            last: greatest_of(&scans, |scan| scan.front.last()),
            version: version_of_logs(&scans).max(entered),
            version_below_cutoff: version_of_logs_below(&scans, window.cutoff).max(entered),
            cutoff: window.cutoff,
            checkpoint: chosen.as_ref().map(|checkpoint| checkpoint.number),
            begin: window.begin,
            holes: hole_count(&fronts, window),
            skipped,
            nameless,
            entries: entry_count(&chosen),
            survivors: 0,
            early: 0,
            late: 0,
            keys: 0,
            layers: 0,
        };
        Ok((report, scans, chosen))
    }
}

/// Returns the sum of a number of each item. The sum is exact, because a slice has fewer than 2^64 items.
pub(crate) fn total<T, F: Fn(&T) -> u64>(items: &[T], number: F) -> u128
    requires { F.IsAlwaysCallable number }
    ensures { (of : T → ℕ) → ((x : T) (n : ℕ) → FnReturnsAt F.Fn number x n → n ≡ of x) →
        result ≡ sum_by of items.now }
{
    let mut sum = 0;
    for item in items {
        sum += u128::from(number(item));
    }
    sum
}

/// Returns where the complete records of each scanned log end. Err: out of memory.
fn ends_of(alloc: Global, scans: &[LogScan]) -> Result<Vec<u64>, Memory>
    ensures { IfOk result (λ ends. ends.items ≡ map (λ scan. scan.front.bytes) scans.now) }
{
    Ok(scans.iter().map(|scan| scan.front.bytes).collect(alloc)?)
}

/// Counts the entries of the checkpoint: 0 without one.
fn entry_count(chosen: &Option<Checkpoint>) -> u128
    ensures { result ≡ length (entry_updates (option_map checkpoint_in chosen.now)) }
{
    match chosen {
        Some(checkpoint) => total(&checkpoint.parts, |part| part.entries.len() as u64),
        None => 0,
    }
}
