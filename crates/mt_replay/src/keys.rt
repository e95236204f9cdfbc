//! The distinct keys of updates: all of them, or a sample.
ghost use Rattle.std.specs.Prelude.{◌≡◌, ◌<◌, ◌≤◌, ◌++◌, map, filter, All, IfOk, OnOk};
ghost use Rattle.mt_words.specs.Limits.{widest};
ghost use Rattle.mt_words.specs.Words.{IsKey, AreRising};
ghost use Rattle.mt_words.specs.Walks.{joined};
ghost use Rattle.mt_replay.specs.declared.cuts.TheConstants.{MOST_PIECES};
ghost use Rattle.mt_replay.specs.Cuts.{keys_in};
ghost use Rattle.mt_replay.specs.Batches.{batched};
ghost use Rattle.mt_replay.specs.Survivors.{in_window};
ghost use Rattle.mt_replay.specs.Even.{AreDistinctKeys};

use crate::batch::Batch;
use crate::{SortedUpdates, Window};
use mt_words::Memory;
use rayon::prelude::*;
use std::alloc::Global;
use std::thread::Threads;

/// The approximate number of sampled keys for each piece. It is large enough that no piece gets much more than its
/// share.
const KEYS_OF_PIECE: usize = 16;

/// The greatest distance between sampled keys, so that each full share of a log has one.
const MOST_DISTANCE: usize = 512;

/// Returns each key that these entries have, or the updates of these batches that are in the window, once, in order.
/// Err: out of memory.
pub(crate) fn surviving_keys<'a>(
    rt: &(impl Threads + Sync),
    alloc: Global,
    batches: &'a [Batch],
    window: Window,
    entries: &'a [SortedUpdates],
) -> Result<Vec<&'a [u8]>, Memory>
    ensures distinct { IfOk result (λ keys. AreDistinctKeys
        (keys_in (filter (in_window window) (batched batches.now) ++ joined entries.now)) (map (λ key. key.now) keys.items)) }
    ensures lawful { IfOk result (λ keys. All (IsKey widest) (map (λ key. key.now) keys.items)) }
{
    let mut keys = Vec::new(alloc);
    for batch in batches {
        add_survivors(alloc, &mut keys, batch, window)?;
    }
    add_entries(&mut keys, entries, 1)?;
    par_keep_each_once(rt, alloc, &mut keys)?;
    Ok(keys)
}

/// Returns keys at equal distances in the batches and in the entries, each once, in order: some for each of `pieces`
/// pieces. These are so few that one thread sorts them. Err: out of memory.
pub(crate) fn sampled_keys<'a>(
    alloc: Global,
    batches: &'a [Batch],
    entries: &'a [SortedUpdates],
    pieces: u32,
) -> Result<Vec<&'a [u8]>, Memory>
    requires { (0 < pieces) × (pieces ≤ MOST_PIECES) }
    ensures rising { IfOk result (λ keys. AreRising (map (λ key. key.now) keys.items)) }
    ensures lawful { IfOk result (λ keys. All (IsKey widest) (map (λ key. key.now) keys.items)) }
{
    let distance = distance_for(batches, entries, KEYS_OF_PIECE * pieces as usize);
    let mut keys = Vec::new(alloc);
    for batch in batches {
        batch.add_keys(&mut keys, distance)?;
    }
    add_entries(&mut keys, entries, distance)?;
    keep_each_once(&mut keys);
    Ok(keys)
}

/// Sorts the keys, and keeps each once.
fn keep_each_once(keys: &mut Vec<&[u8]>)
    ensures { AreDistinctKeys (map (λ key. key.now) keys.old.items) (map (λ key. key.now) keys.new.items) }
{
    keys.sort_unstable();
    keys.dedup();
}

/// Does the same on several threads. The sort merges the runs of keys that are sorted already. Err: out of memory.
fn par_keep_each_once(
    rt: &(impl Threads + Sync),
    alloc: Global,
    keys: &mut Vec<&[u8]>,
) -> Result<(), Memory>
    ensures { OnOk result (AreDistinctKeys (map (λ key. key.now) keys.old.items) (map (λ key. key.now) keys.new.items)) }
{
    par_sort(rt, alloc, keys)?;
    keys.dedup();
    Ok(())
}

/// Returns the distance between sampled keys, in updates, at which about `most` keys are taken, or more of very many.
/// It is the same for all, so a long list gives more keys than a short one.
fn distance_for(batches: &[Batch], entries: &[SortedUpdates], most: usize) -> usize
    requires { 0 < most }
    ensures { 0 < result }
{
    let mut count = 0usize;
    for batch in batches {
        count = count.saturating_add(batch.records());
    }
    for updates in entries {
        count = count.saturating_add(updates.len());
    }
    count.div_ceil(most).min(MOST_DISTANCE).max(1)
}

/// Appends the keys of the updates of a batch that are in the window. Err: out of memory.
fn add_survivors<'a>(
    alloc: Global,
    keys: &mut Vec<&'a [u8]>,
    batch: &'a Batch,
    window: Window,
) -> Result<(), Memory>
    requires { All (IsKey widest) (map (λ key. key.now) keys.old.items) }
    ensures lawful { OnOk result (All (IsKey widest) (map (λ key. key.now) keys.new.items)) }
    ensures all { OnOk result (map (λ key. key.now) keys.new.items ≡
        map (λ key. key.now) keys.old.items ++ keys_in (filter (in_window window) batch.now.updates)) }
{
    let survivors = batch.survivors(alloc, window)?;
    for update in &survivors {
        keys.push(update.key())?;
    }
    Ok(())
}

/// Appends one key for each `distance` updates of each list. At distance 1 these are the keys of all updates.
/// Err: out of memory.
fn add_entries<'a>(
    keys: &mut Vec<&'a [u8]>,
    entries: &'a [SortedUpdates],
    distance: usize,
) -> Result<(), Memory>
    requires some { 0 < distance }
    requires lawful { All (IsKey widest) (map (λ key. key.now) keys.old.items) }
    ensures lawful { OnOk result (All (IsKey widest) (map (λ key. key.now) keys.new.items)) }
    ensures all { OnOk result (distance ≡ 1 →
        map (λ key. key.now) keys.new.items ≡ map (λ key. key.now) keys.old.items ++ keys_in (joined entries.now)) }
{
    for updates in entries {
        add_some(keys, updates, distance)?;
    }
    Ok(())
}

/// Appends one key for each `distance` of the updates, from the middle of those. Err: out of memory.
fn add_some<'a>(
    keys: &mut Vec<&'a [u8]>,
    updates: &'a SortedUpdates,
    distance: usize,
) -> Result<(), Memory>
    requires some { 0 < distance }
    requires lawful { All (IsKey widest) (map (λ key. key.now) keys.old.items) }
    ensures lawful { OnOk result (All (IsKey widest) (map (λ key. key.now) keys.new.items)) }
    ensures all { OnOk result (distance ≡ 1 →
        map (λ key. key.now) keys.new.items ≡ map (λ key. key.now) keys.old.items ++ keys_in updates.now) }
{
    for number in 0..updates.len() / distance {
        keys.push(updates.get(number * distance + distance / 2).key())?;
    }
    Ok(())
}
