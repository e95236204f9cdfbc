//! Headers that a log may have had before it was damaged.
use crate::checked::{Checked, CheckedLog, unused_worker};
use crate::ending::WIDEST;
use mt_record::{Head, LogFront, Segment};
use std::alloc::{AllocError, Global};

/// The most headers that are tried.
const MOST_HEADS: usize = 16;

/// Returns headers that a log may have had, as the other logs show it, at most `MOST_HEADS`. With a header, it is one that
/// leaves no gap, or that of another worker whose segment before it ends where it begins. Without one, it is the missing
/// segment that its file's name says, or one directly before or after another one, or the first of another worker; in a
/// folder without segments it is none.
/// Err: out of memory.
pub fn heads_for(
    alloc: Global,
    checked: &Checked<'_>,
    log: &CheckedLog<'_>,
) -> Result<Vec<Head>, AllocError> {
    let mut heads = Vec::new(alloc);
    let fronts = checked.fronts(alloc)?;
    if let Some(front) = log.front() {
        heads.push(without_gap(&fronts, front.head))?;
        for other in &fronts {
            if let Some(segment) = continued(other, front) {
                heads.push(Head {
                    segment: Some(segment),
                    ..front.head
                })?;
            }
        }
    } else {
        if let Some(segment) = segment_named(log.file.name) {
            if let Some(segment) = missing(&fronts, segment.worker, Some(segment.number)) {
                let from = last_before(&fronts, segment).unwrap_or(0);
                heads.push(head_of(from, Some(segment)))?;
            }
        }
        let mut has_segments = false;
        for front in &fronts {
            if let Some(segment) = front.head.segment {
                add_beside(&fronts, segment, front.last(), &mut heads)?;
                has_segments = true;
            }
        }
        let worker = unused_worker(alloc, &checked.logs)?;
        let first = Segment { worker, number: 0 };
        add(
            head_of(
                0,
                (has_segments || log.is_sealed == Some(true)).then_some(first),
            ),
            &mut heads,
        )?;
    }
    heads.truncate(MOST_HEADS);
    Ok(heads)
}

/// Returns the header that leaves no gap before a log: its own with the number after the earlier segments of its worker, or
/// without one from 0 on.
fn without_gap(fronts: &[LogFront], head: Head) -> Head {
    let Some(Segment { worker, number }) = head.segment else {
        return Head { from: 0, ..head };
    };
    let mut next: u32 = 0;
    for front in fronts {
        if let Some(other) = front.head.segment {
            if other.worker == worker && other.number < number {
                next = other.number.saturating_add(1).max(next);
            }
        }
    }
    if next == 0 {
        return Head { from: 0, ..head };
    }
    let segment = Segment {
        worker,
        number: next,
    };
    Head {
        segment: Some(segment),
        ..head
    }
}

/// Returns the place of a segment in the log of the worker of another file, if that is of another worker and the segment
/// directly before it there, and ends where it begins.
pub fn continued(other: &LogFront, file: &LogFront) -> Option<Segment> {
    let (before, segment) = (other.head.segment?, file.head.segment?);
    let is_next = before.worker != segment.worker
        && before.number.checked_add(1) == Some(segment.number)
        && other.last() == file.from();
    is_next.then_some(Segment {
        worker: before.worker,
        number: segment.number,
    })
}

/// Adds the headers of the missing segments directly behind this one, which ends at `last`, and directly before it, unless an
/// earlier one is there, behind which it is missing.
fn add_beside(
    fronts: &[LogFront],
    segment: Segment,
    last: u64,
    heads: &mut Vec<Head>,
) -> Result<(), AllocError> {
    let Segment { worker, number } = segment;
    let [next, before, earlier] = [
        number.checked_add(1),
        number.checked_sub(1),
        number.checked_sub(2),
    ];
    if let Some(next) = missing(fronts, worker, next) {
        add(head_of(last, Some(next)), heads)?;
    }
    if let Some(before) = missing(fronts, worker, before) {
        if earlier.is_none() || missing(fronts, worker, earlier).is_some() {
            add(head_of(0, Some(before)), heads)?;
        }
    }
    Ok(())
}

/// Adds a header, unless it is there. Err: out of memory.
fn add(head: Head, heads: &mut Vec<Head>) -> Result<(), AllocError> {
    if !heads.contains(&head) {
        heads.push(head)?;
    }
    Ok(())
}

/// Returns the segment that the name of a file says, as keepers and hosts name it: `WORKER-SEGMENT.mtl`. None: it says none.
pub fn segment_named(name: &str) -> Option<Segment> {
    let (worker, number) = name.strip_suffix(".mtl")?.split_once('-')?;
    Some(Segment {
        worker: worker.parse::<u32>().ok()?,
        number: number.parse::<u32>().ok()?,
    })
}

/// Returns where the segment directly before this one ends. None: it is not there.
pub fn last_before(fronts: &[LogFront], segment: Segment) -> Option<u64> {
    let before = segment.number.checked_sub(1)?;
    for front in fronts {
        if let Some(other) = front.head.segment {
            if other.worker == segment.worker && other.number == before {
                return Some(front.last());
            }
        }
    }
    None
}

/// Returns the segment of this number of a worker, if none of these logs is it.
fn missing(fronts: &[LogFront], worker: u32, number: Option<u32>) -> Option<Segment> {
    let segment = Segment {
        worker,
        number: number?,
    };
    for front in fronts {
        if front.head.segment == Some(segment) {
            return None;
        }
    }
    Some(segment)
}

/// Returns the header of a segment, or else of a log of format 2.
fn head_of(from: u64, segment: Option<Segment>) -> Head {
    Head {
        format: WIDEST,
        from,
        segment,
    }
}
