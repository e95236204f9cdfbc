//! Shares out the updates that scans kept into batches.
ghost use Rattle.std.specs.Prelude.{◌≡◌, ◌<◌, ◌≤◌, ◌+◌, ◌*◌, ◌++◌, ℕ, length, IfOk, OnOk};
ghost use Rattle.std.specs.List.{flat_map};
ghost use Rattle.mt_record.specs.Shares.{updates_of_share};
ghost use Rattle.mt_replay.specs.Batches.{batched};
ghost use Rattle.mt_recover.specs.Steps.LogScans.{kept};
ghost use Rattle.mt_recover.specs.Steps.Batches.{AreFilled, records_in};

use crate::report::total;
use mt_record::Share;
use mt_replay::Batch;
use mt_scan::LogScan;
use mt_words::Memory;
use std::alloc::Global;

/// Fewer records than these are not worth a thread.
const LEAST_RECORDS: u128 = 8_192;

/// Shares out what the scans kept, in order, into at most one batch for each of this number of workers. Err: out of
/// memory.
pub(crate) fn batches_of(
    alloc: Global,
    scans: Vec<LogScan>,
    workers: u32,
) -> Result<Vec<Batch>, Memory>
    requires { 0 < workers }
    ensures updates { IfOk result (λ batches. batched batches.items ≡ kept scans.items) }
    ensures few { IfOk result (λ batches. length batches.items ≤ workers) }
{
    let shares = shares_of(alloc, scans)?;
    let size = size_for(&shares, workers);
    let mut batches = Vec::new(alloc);
    for share in shares {
        add_share(alloc, &mut batches, share, size)?;
    }
    Ok(batches)
}

/// Returns the number of records that close a batch.
fn size_for(shares: &[Share], workers: u32) -> u128
    requires { 0 < workers }
    ensures { records_in shares.now ≤ result * workers }
{
    total(shares, |share| share.len() as u64)
        .div_ceil(u128::from(workers))
        .max(LEAST_RECORDS)
}

/// Takes what the scans kept apart into shares, in order. Err: out of memory.
fn shares_of(alloc: Global, scans: Vec<LogScan>) -> Result<Vec<Share>, Memory>
    ensures { IfOk result (λ shares. flat_map updates_of_share shares.items ≡ kept scans.items) }
{
    let mut shares = Vec::new(alloc);
    for scan in scans {
        let LogScan { updates, .. } = scan;
        shares.append(&mut updates.into_shares(alloc)?)?;
    }
    Ok(shares)
}

/// Adds a share that has records to the last batch if that has fewer than `size`, and otherwise to a new one. Err: out of
/// memory.
fn add_share(
    alloc: Global,
    batches: &mut Vec<Batch>,
    share: Share,
    size: u128,
) -> Result<(), Memory>
    ensures updates { OnOk result (batched batches.new.items ≡ batched batches.old.items ++ updates_of_share share) }
    ensures few { (records : ℕ) → AreFilled size records batches.old.items → OnOk result (AreFilled size (records + length share.records) batches.new.items) }
{
    if share.len() == 0 {
        return Ok(());
    }
    let mut batch = take_open(alloc, batches, size)?;
    batch.push(share)?;
    batches.push(batch)?;
    Ok(())
}

/// Takes the last batch out of the list if it has fewer than `size` records. Otherwise returns a new one.
/// Err: out of memory.
fn take_open(alloc: Global, batches: &mut Vec<Batch>, size: u128) -> Result<Batch, Memory>
    ensures updates { IfOk result (λ batch. batched batches.old.items ≡ batched batches.new.items ++ batch.updates) }
    ensures few { (records : ℕ) → AreFilled size records batches.old.items → IfOk result (λ batch. size * length batches.new.items + batch.records ≤ records) }
{
    let Some(last) = batches.pop() else {
        return Ok(Batch::new(alloc));
    };
    if (last.records() as u128) < size {
        return Ok(last);
    }
    batches.push(last)?;
    Ok(Batch::new(alloc))
}
