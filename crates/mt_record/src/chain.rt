//! Chooses as many timestamps as possible, in order, that never fall: a longest chain.
//!
//! A rank is the number of timestamps of a chain before its last one. Of each rank the chain is remembered that ends at the
//! least timestamp, by its last place; and of each place, the place before it in a longest chain that ends there.
//!
//!     times     5 6 9 7 8 3          marked: 5 6 7 8
//!     ends      5 6 7 8 after the fifth, 3 6 7 8 after the sixth
ghost use Rattle.std.specs.Prelude.{◌≡◌, ◌≤◌, ◌<◌, ℕ, suc, [], ◌∷◌, ◌++◌, length, IfOk, OnOk, slice_index, slice_set};
ghost use Rattle.std.specs.List.Sorted.{IsPartitionPoint};
ghost use Rattle.mt_record.specs.Salvage.{KeepMost};
ghost use Rattle.mt_record.specs.Steps.Climbs.{Climbed, HasClimbed, IsSorted};

use mt_words::Memory;
use std::alloc::Global;

/// Returns a mark for each of these timestamps: whether it is kept, so that those that are kept never fall, and are as many
/// as possible. The time is n log n.
/// Err: out of memory.
///
/// ```
/// let marks = keep_most(alloc, &[5, 6, 9, 7, 8, 3])?;   // all but 9 and 3
/// ```
pub fn keep_most(alloc: Global, times: &[u64]) -> Result<Vec<bool>, Memory>
    ensures { IfOk result (λ marks. KeepMost times.now marks.items) }
{
    let ladder = climb(alloc, times)?;
    walk(alloc, times, &ladder.places, &ladder.before)
}

/// What is remembered of the chains of timestamps.
#[derive(Debug, Drop)]
struct Ladder {
    /// Of each rank, the least timestamp that a chain ends at.
    ends: Vec<u64>,
    /// The places of these timestamps.
    places: Vec<usize>,
    /// Of each place, the one before it in a longest chain that ends there.
    before: Vec<usize>,
}

/// Returns what is to be remembered of the chains of these timestamps. Err: out of memory.
fn climb(alloc: Global, times: &[u64]) -> Result<Ladder, Memory>
    ensures { IfOk result (λ ladder. Climbed times.now (length times.now) ladder.ends.items ladder.places.items ladder.before.items) }
{
    let mut ends = Vec::new(alloc);
    let mut places = Vec::new(alloc);
    let mut before = Vec::with_capacity(alloc, times.len())?;
    for place in 0..times.len() {
        let time = times[place];
        let rank = rank_of(&ends, time);
        let last = last_of(&places, rank, place);
        put(&mut ends, rank, time)?;
        put(&mut places, rank, place)?;
        before.push(last)?;
    }
    Ok(Ladder {
        ends,
        places,
        before,
    })
}

/// Returns the number of these timestamps that are not above this one.
fn rank_of(ends: &[u64], time: u64) -> usize
    requires { IsSorted ends.now }
    ensures within { result ≤ length ends.now }
    ensures point { IsPartitionPoint (λ end. end ≤ time) (λ end. time < end) ends.now result }
{
    ends.partition_point(|end: &u64| *end <= time)
}

/// Returns the place of the rank before this one, or `place` if it is the first.
fn last_of(places: &[usize], rank: usize, place: usize) -> usize
    requires { rank ≤ length places.now }
    ensures { (before : ℕ) → rank ≡ suc before → result ≡ slice_index places.now before }
{
    if rank > 0 { places[rank - 1] } else { place }
}

/// Sets the value at this index, or appends it. Err: out of memory.
fn put<T: Copy>(list: &mut Vec<T>, index: usize, value: T) -> Result<(), Memory>
    requires { index ≤ length list.old.items }
    ensures set { OnOk result (index < length list.old.items → list.new.items ≡ slice_set list.old.items index value) }
    ensures appended { OnOk result (index ≡ length list.old.items → list.new.items ≡ list.old.items ++ value ∷ []) }
{
    if index < list.len() {
        list[index] = value;
    } else {
        list.push(value)?;
    }
    Ok(())
}

/// Returns a mark for each timestamp: whether it is in the chain with the greatest rank. Err: out of memory.
fn walk(
    alloc: Global,
    times: &[u64],
    places: &[usize],
    before: &[usize],
) -> Result<Vec<bool>, Memory>
    requires { HasClimbed times.now places.now before.now }
    ensures { IfOk result (λ marks. KeepMost times.now marks.items) }
{
    let mut marks = vec![in alloc; false; times.len()]?;
    if places.is_empty() {
        return Ok(marks);
    }
    let mut left = places.len() - 1;
    let mut place = places[left];
    marks[place] = true;
    'walk: while left > 0 {
        place = before[place];
        marks[place] = true;
        left -= 1;
    }
    Ok(marks)
}
