//! The greatest versions in logs and in a checkpoint.
ghost use Rattle.std.specs.Prelude.{◌≡◌, ◌<◌, List, ℕ, false, length, map, filter, slice_index_or};
ghost use Rattle.std.specs.Fn.{FnReturnsAt};
ghost use Rattle.std.specs.Option.{option_map};
ghost use Rattle.mt_words.specs.Changes.{Logged};
ghost use Rattle.mt_words.specs.OneLog.{kept_updates};
ghost use Rattle.mt_words.specs.Updates.{update_of};
ghost use Rattle.mt_record.specs.Logs.{LogReading};
ghost use Rattle.mt_record.specs.LogTexts.{greatest};
ghost use Rattle.mt_scan.specs.Choosing.{checkpoint_in};
ghost use Rattle.mt_scan.specs.PartsShown.{shown_by_all};
ghost use Rattle.mt_scan.specs.Steps.Checkpoints.{entries_of};
ghost use Rattle.mt_scan.specs.Scans.{HaveNumbersOf};
ghost use Rattle.mt_recover.specs.Recovery.{AreReadings, entry_updates};
ghost use Rattle.mt_recover.specs.Report.{versions, is_below, logged_updates};
ghost use Rattle.mt_recover.specs.Steps.LogScans.{ShowAll, last_is_late, version_in};
ghost use Rattle.mt_recover.specs.Steps.Preparing.{entry_versions};

use mt_record::{KeptEntries, PartText, Updates};
use mt_scan::{Checkpoint, LogScan};

/// Returns the greatest version of the complete records of the scanned logs, or 0 if there is none.
pub(crate) fn version_of_logs(scans: &[LogScan]) -> u64
    ensures { (logs : List LogReading) → HaveNumbersOf scans.now logs →
        result ≡ greatest (versions (logged_updates logs)) }
{
    greatest_of(scans, |scan| scan.front.version)
}

/// Returns the greatest version of the updates of the scanned logs below the cutoff, or 0 if there is none. The scans kept
/// these updates.
pub(crate) fn version_of_logs_below(scans: &[LogScan], cutoff: u64) -> u64
    ensures { (bytes : List (List ℕ)) (logs : List LogReading) → AreReadings bytes logs → ShowAll cutoff 0 scans.now logs →
        result ≡ greatest (versions (filter (is_below cutoff) (logged_updates logs))) }
{
    greatest_of(
        scans,
        |scan: &LogScan| -> u64
            ensures { result ≡ version_in cutoff scan.now }
        { version_below(scan, cutoff) },
    )
}

/// Returns the greatest version of the log's updates below the cutoff, or 0 if there is none. Timestamps never fall, so all
/// updates are below the cutoff if the last one is. Only if it is not, each record is looked at.
fn version_below(scan: &LogScan, cutoff: u64) -> u64
    ensures { result ≡ version_in cutoff scan.now }
{
    if scan.dropped == 0 && !last_is_late(&scan.updates, cutoff) {
        return scan.front.version;
    }
    let mut version = 0;
    for number in 0..scan.updates.record_count() {
        version = version_at(&scan.updates, number, cutoff).max(version);
    }
    version
}

/// Returns whether the last of these updates is not below the cutoff. Marks may follow it.
fn last_is_late(updates: &Updates, cutoff: u64) -> bool
    ensures { result ≡ last_is_late cutoff false (kept_updates updates.now) }
{
    let mut left = updates.record_count();
    while left > 0 {
        left -= 1;
        if let Some(update) = updates.update(left) {
            return cutoff <= update.timestamp();
        }
    }
    false
}

/// Returns the version of the update of the record of this number, or 0 if there is none below the cutoff.
fn version_at(updates: &Updates, number: usize, cutoff: u64) -> u64
    requires { number < length updates.now.records }
    ensures { (d : Logged) → result ≡ greatest (versions (filter (is_below cutoff) (update_of updates.now.log number (slice_index_or updates.now.records number d)))) }
{
    match updates.update(number) {
        Some(update) if update.timestamp() < cutoff => update.stamp().version,
        _ => 0,
    }
}

/// Returns the greatest version of the entries of the checkpoint, or 0 if there is none.
pub(crate) fn version_of_checkpoint(chosen: &Option<Checkpoint>) -> u64
    ensures { result ≡ greatest (versions (entry_updates (option_map checkpoint_in chosen.now))) }
{
    match chosen {
        Some(checkpoint) => version_of_parts(&checkpoint.parts),
        None => 0,
    }
}

/// Returns the greatest version of the entries of these parts, or 0 if there is none.
fn version_of_parts(parts: &[PartText<KeptEntries>]) -> u64
    ensures { result ≡ greatest (entry_versions (entries_of (shown_by_all parts.now))) }
{
    greatest_of(
        parts,
        |part: &PartText<KeptEntries>| -> u64
            ensures { result ≡ greatest (entry_versions part.now.entries) }
        { version_of_entries(&part.entries) },
    )
}

/// Returns the greatest version of these entries, or 0 if there is none.
fn version_of_entries(entries: &KeptEntries) -> u64
    ensures { result ≡ greatest (entry_versions entries.now) }
{
    let mut version = 0;
    for number in 0..entries.len() {
        version = entries.update(number).stamp().version.max(version);
    }
    version
}

/// Returns the greatest of a number of each item, or 0 if there is no item.
pub(crate) fn greatest_of<T, F: Fn(&T) -> u64>(items: &[T], number: F) -> u64
    requires { F.IsAlwaysCallable number }
    ensures { (of : T → ℕ) → ((x : T) (n : ℕ) → FnReturnsAt F.Fn number x n → n ≡ of x) →
        result ≡ greatest (map of items.now) }
{
    let mut most = 0;
    for item in items {
        most = number(item).max(most);
    }
    most
}
