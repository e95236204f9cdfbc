//! What can be wrong with the segments of workers' logs, and the number of writers' logs. Nothing here allocates. The
//! functions look at all files for each segment: with n segments among m files some n * m times at a file.
ghost use Rattle.std.specs.Prelude.{◌≡◌, ◌↔◌, List, length, filter, not, IsTrue};
ghost use Rattle.std.specs.List.{list_any};
ghost use Rattle.mt_record.specs.Logs.{LogReading};
ghost use Rattle.mt_scan.specs.Scans.{ShowFronts};
ghost use Rattle.mt_scan.specs.Segments.{IsEarlier, IsJustBefore, IsSame, IsDoubled, IsTornAmid, IsGap, is_first_file, is_earlier as is_earlier_in, is_just_before as is_just_before_in};
ghost use Rattle.mt_scan.specs.Firsts.{IsFirstOrNone};
ghost use Rattle.mt_scan.specs.Steps.Segments.{HasFront, IsFrontTornAmid, HasFrontGap};

use mt_record::{LogFront, Segment};

/// Returns the first log that is the same segment of a worker's log as one before it, or None if there is none.
pub fn first_doubled(fronts: &[LogFront]) -> Option<usize>
    ensures { (logs : List LogReading) → ShowFronts fronts.now logs → IsFirstOrNone (IsDoubled logs) result }
{
    for (i, front) in fronts.iter().enumerate() {
        if has_same(&fronts[..i], front.head.segment) {
            return Some(i);
        }
    }
    None
}

/// Returns the first log that is torn although a later segment of its worker's log is there, or None if there is none.
pub fn first_torn(fronts: &[LogFront]) -> Option<usize>
    ensures { (logs : List LogReading) → ShowFronts fronts.now logs → IsFirstOrNone (IsTornAmid logs) result }
{
    fronts.iter().position(|front| front.torn() && has_later(fronts, front.head.segment))
}

/// Returns the first log before which updates at or after `begin` may be missing, or None if there is none.
pub fn first_gap(fronts: &[LogFront], begin: u64) -> Option<usize>
    ensures { (logs : List LogReading) → ShowFronts fronts.now logs → IsFirstOrNone (IsGap begin logs) result }
{
    fronts
        .iter()
        .position(|front| has_gap(fronts, begin, front))
}

/// Returns the number of writers' logs, if no segment is there twice: all segments of a worker are one log, and each
/// other file is a log by itself.
pub fn writer_count(fronts: &[LogFront]) -> usize
    ensures { (logs : List LogReading) → ShowFronts fronts.now logs → result ≡ length (filter (is_first_file logs) logs) }
{
    fronts
        .iter()
        .filter(|front| !has_earlier(fronts, front.head.segment))
        .count()
}

/// Returns whether updates at or after `begin` may be missing before the file of this front.
fn has_gap(fronts: &[LogFront], begin: u64, front: &LogFront) -> bool
    ensures { IsTrue result ↔ HasFrontGap begin fronts.now front.now }
{
    if has_earlier(fronts, front.head.segment) {
        !has_one_before(fronts, front.head.segment)
    } else {
        begin < front.from()
    }
}

/// Returns whether an earlier segment of the same log is there.
fn has_earlier(fronts: &[LogFront], segment: Option<Segment>) -> bool
    ensures test { result ≡ list_any (λ other. is_earlier_in other.head.segment segment) fronts.now }
    ensures is { IsTrue result ↔ HasFront fronts.now (λ other. IsEarlier other segment) }
{
    fronts
        .iter()
        .any(|other| is_earlier(other.head.segment, segment))
}

/// Returns whether a later segment of the same log is there.
fn has_later(fronts: &[LogFront], segment: Option<Segment>) -> bool
    ensures { IsTrue result ↔ HasFront fronts.now (IsEarlier segment) }
{
    fronts
        .iter()
        .any(|other| is_earlier(segment, other.head.segment))
}

/// Returns whether the segment directly before this one is there.
fn has_one_before(fronts: &[LogFront], segment: Option<Segment>) -> bool
    ensures { IsTrue result ↔ HasFront fronts.now (λ other. IsJustBefore other segment) }
{
    fronts
        .iter()
        .any(|other| is_just_before(other.head.segment, segment))
}

/// Returns whether the same segment is there.
fn has_same(fronts: &[LogFront], segment: Option<Segment>) -> bool
    ensures { IsTrue result ↔ HasFront fronts.now (IsSame segment) }
{
    fronts
        .iter()
        .any(|other| is_same(segment, other.head.segment))
}

/// Returns whether both are segments of one worker's log, and the first has the lower number.
pub fn is_earlier(a: Option<Segment>, b: Option<Segment>) -> bool
    ensures test { result ≡ is_earlier_in a b }
    ensures is { IsTrue result ↔ IsEarlier a b }
{
    match (a, b) {
        (Some(a), Some(b)) => a.worker == b.worker && a.number < b.number,
        _ => false,
    }
}

/// Returns whether both are segments of one worker's log, and the first comes directly before the second.
pub fn is_just_before(a: Option<Segment>, b: Option<Segment>) -> bool
    ensures test { result ≡ is_just_before_in a b }
    ensures is { IsTrue result ↔ IsJustBefore a b }
{
    match (a, b) {
        (Some(a), Some(b)) => a.worker == b.worker && a.number.checked_add(1) == Some(b.number),
        _ => false,
    }
}

/// Returns whether both are the same segment.
pub fn is_same(a: Option<Segment>, b: Option<Segment>) -> bool
    ensures { IsTrue result ↔ IsSame a b }
{
    match (a, b) {
        (Some(a), Some(b)) => a == b,
        _ => false,
    }
}
