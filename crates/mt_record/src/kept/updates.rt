//! The updates of a log, borrowed from its records.
ghost use Rattle.std.specs.Prelude.{◌≡◌, ◌<◌, length, slice_index_or, IfOk};
ghost use Rattle.std.specs.List.{flat_map};
ghost use Rattle.mt_words.specs.declared.update.Origin.TheVariants as origins;
ghost use Rattle.mt_words.specs.Changes.{Logged};
ghost use Rattle.mt_words.specs.Updates.{update_of};
ghost use Rattle.mt_words.specs.OneLog.{kept_updates, as_list};
ghost use Rattle.mt_record.specs.Shares.{updates_of_share};

use crate::body::lent::Lent;
use crate::body::spelled;
use crate::kept::log::KeptRecords;
use crate::kept::share::Share;
use mt_words::{Memory, Origin};
use std::alloc::Global;
use std::marker::Model;

/// The updates of a log, kept as its records.
#[derive(Debug, Drop)]
pub struct Updates {
    log: usize,
    pub(crate) records: KeptRecords,
}

impl Model for Updates {
    ghost use Rattle.mt_words.specs.OneLog.{OneLog};

    ghost Value = { OneLog };

    ghost view = { λ u. record { log = u.log; records = u.records } };
}

impl Updates {
    /// Returns the updates that these records make, in the log of this number.
    pub fn of(log: usize, records: KeptRecords) -> Updates
        ensures { result ≡ record { log = log; records = records } }
    {
        Updates { log, records }
    }

    /// Returns the number of records, marks included.
    pub fn record_count(&self) -> usize
        ensures { result ≡ length self.now.records }
    {
        self.records.len()
    }

    /// Returns the number of updates.
    pub fn len(&self) -> usize
        ensures { result ≡ length (kept_updates self.now) }
    {
        self.records.len() - self.records.marks() as usize
    }

    /// Returns the update of the record of this number. Returns None if the record is a mark.
    pub fn update(&self, number: usize) -> Option<Lent<'_>>
        requires { number < length self.now.records }
        ensures { (d : Logged) →
            as_list result ≡ update_of self.now.log number (slice_index_or self.now.records number d) }
    {
        let body = self.records.body(number);
        if spelled::is_mark(body) {
            return None;
        }
        Some(Lent::of(self.origin(number), body))
    }

    /// Divides the records into shares, in order. Err: out of memory.
    pub fn into_shares(self, alloc: Global) -> Result<Vec<Share>, Memory>
        ensures { IfOk result (λ shares. flat_map updates_of_share shares.items ≡ kept_updates self) }
    {
        let Updates { log, records } = self;
        let blocks = records.into_bodies().into_blocks()?;
        let mut shares = Vec::with_capacity(alloc, blocks.len())?;
        let mut from = 0;
        for block in blocks {
            let count = block.len();
            shares.push(Share::of(log, from, block))?;
            from += count;
        }
        Ok(shares)
    }

    /// Returns where the update of the record of this number comes from.
    pub(crate) fn origin(&self, number: usize) -> Origin
        ensures { result ≡ origins.Log self.now.log number }
    {
        Origin::Log {
            record: number as u64,
            log: self.log,
        }
    }
}
