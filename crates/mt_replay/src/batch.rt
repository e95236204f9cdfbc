//! Batches: log records that one worker deals.
ghost use Rattle.std.specs.Prelude.{◌≡◌, ◌<◌, ◌+◌, ◌++◌, [], IfOk, OnOk, length, map, filter, All};
ghost use Rattle.std.specs.List.{flat_map, list_any};
ghost use Rattle.mt_words.specs.Limits.{widest};
ghost use Rattle.mt_words.specs.OneLog.{as_list};
ghost use Rattle.mt_words.specs.Words.{IsKey};
ghost use Rattle.mt_record.specs.Shares.{updates_of_share};
ghost use Rattle.mt_replay.specs.Survivors.{in_window, is_early};

use crate::Window;
use mt_record::{Lent, Share};
use mt_words::Memory;
use std::alloc::Global;
use std::marker::Model;

/// Log records that are dealt together.
#[derive(Drop)]
pub struct Batch {
    shares: Vec<Share>,
    records: usize,
}

impl Model for Batch {
    ghost use Rattle.std.specs.Prelude.{◌≤◌, ◌<◌, ◌^◌, length};
    ghost use Rattle.std.specs.List.{flat_map};
    ghost use Rattle.mt_record.specs.Shares.{updates_of_share};
    ghost use Rattle.mt_replay.specs.Batches.{BatchView};

    ghost Value = { BatchView };

    ghost view = { λ b. record { updates = flat_map updates_of_share b.shares.items; records = b.records } };

    ghost invariant = { λ b. (length (flat_map updates_of_share b.shares.items) ≤ b.records) × (b.records < 2 ^ 64) };
}

impl Batch {
    /// Creates a batch without records.
    pub fn new(alloc: Global) -> Batch
        ensures { result ≡ record { updates = []; records = 0 } }
    {
        Batch {
            shares: Vec::new(alloc),
            records: 0,
        }
    }

    /// Returns the number of records.
    pub fn records(&self) -> usize
        ensures { result ≡ self.now.records }
    {
        self.records
    }

    /// Appends the records of a share. Err: out of memory. No memory has more records than a `usize` counts.
    pub fn push(&mut self, share: Share) -> Result<(), Memory>
        ensures updates { OnOk result (self.new.updates ≡ self.old.updates ++ updates_of_share share) }
        ensures records { OnOk result (self.new.records ≡ self.old.records + length share.records) }
    {
        let Some(records) = self.records.checked_add(share.len()) else {
            return Err(Memory);
        };
        self.shares.push(share)?;
        self.records = records;
        Ok(())
    }

    /// Counts the updates whose timestamp is below `begin`.
    pub fn early_count(&self, begin: u64) -> usize
        ensures { result ≡ length (filter (is_early begin) self.now.updates) }
    {
        // No timestamp is below 0. So without a checkpoint no record is read.
        if begin == 0 {
            return 0;
        }
        let mut count = 0;
        for share in &self.shares {
            count += early_in(share, begin);
        }
        count
    }

    /// Appends the key of one record for each `distance` of each share, unless it is a mark. Err: out of memory.
    pub(crate) fn add_keys<'a>(
        &'a self,
        keys: &mut Vec<&'a [u8]>,
        distance: usize,
    ) -> Result<(), Memory>
        requires some { 0 < distance }
        requires lawful { All (IsKey widest) (map (λ key. key.now) keys.old.items) }
        ensures { OnOk result (All (IsKey widest) (map (λ key. key.now) keys.new.items)) }
    {
        for share in &self.shares {
            add_keys_of(share, keys, distance)?;
        }
        Ok(())
    }

    /// Returns the shares.
    pub(crate) fn into_shares(self) -> Vec<Share>
        ensures { flat_map updates_of_share result.items ≡ self.updates }
    {
        let Batch { shares, records: _ } = self;
        shares
    }

    /// Lists the updates in the window. Err: out of memory.
    pub(crate) fn survivors(&self, alloc: Global, window: Window) -> Result<Vec<Lent<'_>>, Memory>
        ensures { IfOk result (λ survivors. survivors.items ≡ filter (in_window window) self.now.updates) }
    {
        let mut survivors = Vec::with_capacity(alloc, self.records)?;
        for share in &self.shares {
            list_survivors(share, window, &mut survivors)?;
        }
        Ok(survivors)
    }
}

/// Counts the updates of a share whose timestamp is below `begin`.
fn early_in(share: &Share, begin: u64) -> usize
    ensures { result ≡ length (filter (is_early begin) (updates_of_share share.now)) }
{
    let mut count = 0;
    for number in 0..share.len() {
        if comes_early(share.update(number), begin) {
            count += 1;
        }
    }
    count
}

/// Returns whether there is an update and its timestamp is below `begin`.
fn comes_early(update: Option<Lent<'_>>, begin: u64) -> bool
    ensures { result ≡ list_any (is_early begin) (as_list update.entry) }
{
    update.is_some_and(|update| update.timestamp() < begin)
}

/// Appends the key of one record for each `distance` of a share, from the middle of those, unless it is a mark.
/// Err: out of memory.
fn add_keys_of<'a>(
    share: &'a Share,
    keys: &mut Vec<&'a [u8]>,
    distance: usize,
) -> Result<(), Memory>
    requires some { 0 < distance }
    requires lawful { All (IsKey widest) (map (λ key. key.now) keys.old.items) }
    ensures { OnOk result (All (IsKey widest) (map (λ key. key.now) keys.new.items)) }
{
    for number in 0..share.len() / distance {
        if let Some(update) = share.update(number * distance + distance / 2) {
            keys.push(update.key())?;
        }
    }
    Ok(())
}

/// Appends the updates of a share that are in the window. Err: out of memory.
fn list_survivors<'a>(
    share: &'a Share,
    window: Window,
    survivors: &mut Vec<Lent<'a>>,
) -> Result<(), Memory>
    ensures { OnOk result (survivors.new.items ≡ survivors.old.items ++ filter (in_window window) (updates_of_share share.now)) }
{
    for number in 0..share.len() {
        add_survivor(survivors, share.update(number), window)?;
    }
    Ok(())
}

/// Appends an update, if there is one and it is in the window.
fn add_survivor<'a>(
    survivors: &mut Vec<Lent<'a>>,
    update: Option<Lent<'a>>,
    window: Window,
) -> Result<(), Memory>
    ensures { OnOk result (survivors.new.items ≡ survivors.old.items ++ filter (in_window window) (as_list update.entry)) }
{
    let Some(update) = update else {
        return Ok(());
    };
    if !window.contains(update.timestamp()) {
        return Ok(());
    }
    survivors.push(update)?;
    Ok(())
}
