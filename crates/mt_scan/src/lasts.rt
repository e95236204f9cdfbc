//! The cutoff of logs, some of which come in several files.
ghost use Rattle.std.specs.Prelude.{◌≡◌, [], List, IfSome, IfNone};
ghost use Rattle.mt_record.specs.Logs.{LogReading};
ghost use Rattle.mt_scan.specs.Scans.{ShowFronts};
ghost use Rattle.mt_scan.specs.Cutoff.{IsCutoff, is_segment_of};
ghost use Rattle.mt_scan.specs.Steps.Lasts.{last_of, last_of_segments};

use mt_record::{LogFront, Segment};

/// Returns the cutoff of the logs of these fronts: the least of their last timestamps. The last timestamp of a worker's
/// log is the greatest of those of its segments. Returns None if there is no log. Allocates nothing. With n segments it
/// looks n^2 times at a segment.
pub fn cutoff(fronts: &[LogFront]) -> Option<u64>
    ensures found { (logs : List LogReading) → ShowFronts fronts.now logs → IfSome result (IsCutoff logs) }
    ensures none { IfNone result (fronts.now ≡ []) }
{
    fronts
        .iter()
        .map(
            |front: &LogFront| -> u64
                ensures { result ≡ last_of fronts.entry.now front.now }
            { last_of_log(front, fronts) },
        )
        .min()
}

/// Returns the last timestamp of the log that this file belongs to.
#[tactic(auto, unfolding(crate::specs::Steps::Lasts::last_of))]
fn last_of_log(front: &LogFront, fronts: &[LogFront]) -> u64
    ensures { result ≡ last_of fronts.now front.now }
{
    match front.head.segment {
        None => front.last(),
        Some(segment) => last_of_worker(fronts, segment.worker),
    }
}

/// Returns the greatest last timestamp of this worker's segments, or 0 if there is none.
fn last_of_worker(fronts: &[LogFront], worker: u32) -> u64
    ensures { result ≡ last_of_segments worker fronts.now }
{
    let mut last = 0;
    for front in fronts {
        if is_of(front.head.segment, worker) {
            last = front.last().max(last);
        }
    }
    last
}

/// Returns whether this is a segment of this worker's log.
fn is_of(segment: Option<Segment>, worker: u32) -> bool
    ensures { result ≡ is_segment_of worker segment }
{
    segment.is_some_and(|segment| segment.worker == worker)
}
