//! Holes: updates that may be missing between two segments of a worker's log. Nothing here allocates. The functions look at
//! all files for each segment.
ghost use Rattle.std.specs.Prelude.{◌≡◌, List, length, filter};
ghost use Rattle.mt_record.specs.Logs.{LogReading};
ghost use Rattle.mt_scan.specs.Scans.{ShowsFront, ShowFronts};
ghost use Rattle.mt_recover.specs.Holes.{has_hole, hole_before as hole_before_in};
ghost use Rattle.mt_recover.specs.Steps.Holes.{front_hole, short_end as short_end_in, ends_short as ends_short_in};

use mt_record::LogFront;
use mt_replay::Window;
use mt_scan::is_just_before;

/// Returns where the hole before a file begins, if there is one: the last timestamp of the segment directly before it.
/// Updates from there up to the file's `from` may be missing, and would survive. `fronts` are those of all files.
pub fn hole_before(fronts: &[LogFront], window: Window, file: &LogFront) -> Option<u64>
    ensures fronts { result ≡ front_hole window fronts.now file.now }
    ensures logs { (logs : List LogReading) (log : LogReading) → ShowFronts fronts.now logs → ShowsFront file.now log →
        result ≡ hole_before_in window logs log }
{
    let Window { begin, cutoff } = window;
    if file.from() <= begin {
        return None;
    }
    short_end(fronts, cutoff, file)
}

/// Returns the last timestamp of the segment directly before a file, if that ends short.
fn short_end(fronts: &[LogFront], cutoff: u64, file: &LogFront) -> Option<u64>
    ensures { result ≡ short_end_in cutoff file.now fronts.now }
{
    match fronts.iter().find(|other| ends_short(cutoff, other, file)) {
        Some(other) => Some(other.last()),
        None => None,
    }
}

/// Counts the files with a hole before them.
pub(crate) fn hole_count(fronts: &[LogFront], window: Window) -> usize
    ensures { (logs : List LogReading) → ShowFronts fronts.now logs → result ≡ length (filter (has_hole window logs) logs) }
{
    fronts
        .iter()
        .filter(|file| hole_before(fronts, window, file).is_some())
        .count()
}

/// Returns whether the first file is the segment directly before the second one, and ends below the second one's `from` and
/// below the cutoff.
fn ends_short(cutoff: u64, other: &LogFront, file: &LogFront) -> bool
    ensures { result ≡ ends_short_in cutoff file.now other.now }
{
    is_just_before(other.head.segment, file.head.segment) && other.last() < file.from().min(cutoff)
}
