//! Logs and checkpoint parts that are being fed.
ghost use Rattle.std.specs.Prelude.{◌++◌, ◌∷◌, [], List, ℕ};
ghost use Rattle.mt_record.specs.LogFeeding.{IsLogFed, ShowsFault};
ghost use Rattle.mt_record.specs.PartFeeding.{IsPartFed, ShowsPartFault};
ghost use Rattle.mt_c.specs.Statuses.{IsJudged, IsOneOf};
ghost use Rattle.mt_c.specs.declared.status.TheConstants.{DONE, MEMORY, FAULT};

use crate::status::{DONE, FAULT, MEMORY};
use mt_record::{FeedFault, KeptEntries, KeptRecords, LogFeed, PartFault, PartFeed};
use std::alloc::Global;
use std::marker::Model;

/// A log that is being fed.
#[derive(Drop)]
pub struct FedLog {
    pub feed: LogFeed<KeptRecords>,
}

impl Model for FedLog {
    ghost use Rattle.std.specs.Prelude.{ℕ, List, []};
    ghost use Rattle.mt_record.specs.LogFeeding.{FedLog as FedView, IsLogFed};

    ghost Value = { FedView };

    ghost view = { λ f. f.feed };

    ghost invariant = { λ f. (bytes : List ℕ) × IsLogFed f.feed bytes [] };
}

impl FedLog {
    /// Creates a log of no bytes so far.
    pub fn new(alloc: Global) -> FedLog
        ensures { IsLogFed result [] [] }
    {
        FedLog {
            feed: LogFeed::keeping(alloc),
        }
    }

    /// Feeds the next chunk. `FAULT`: the bytes so far are no log, whatever bytes follow.
    pub fn feed(&mut self, chunk: &[u8]) -> u32
        ensures fed { (bytes : List ℕ) → IsLogFed self.old bytes [] → IsLogFed self.new (bytes ++ chunk.now) [] }
        ensures judged { (bytes : List ℕ) → IsLogFed self.old bytes [] → IsJudged (ShowsFault (bytes ++ chunk.now)) result }
        ensures certain { IsOneOf (DONE ∷ MEMORY ∷ FAULT ∷ []) result }
    {
        match self.feed.feed(chunk) {
            Ok(()) => DONE,
            Err(FeedFault::Memory) => MEMORY,
            Err(FeedFault::Header) => FAULT,
            Err(FeedFault::Record { .. }) => FAULT,
        }
    }
}

/// A checkpoint part that is being fed.
#[derive(Drop)]
pub struct FedPart {
    pub feed: PartFeed<KeptEntries>,
}

impl Model for FedPart {
    ghost use Rattle.std.specs.Prelude.{ℕ, List};
    ghost use Rattle.mt_record.specs.PartFeeding.{FedPart as FedView, IsPartFed};

    ghost Value = { FedView };

    ghost view = { λ f. f.feed };

    ghost invariant = { λ f. (bytes : List ℕ) × IsPartFed f.feed bytes };
}

impl FedPart {
    /// Creates a part of no bytes so far.
    pub fn new(alloc: Global) -> FedPart
        ensures { IsPartFed result [] }
    {
        FedPart {
            feed: PartFeed::keeping(alloc),
        }
    }

    /// Feeds the next chunk. `FAULT`: the bytes so far are no part, whatever bytes follow.
    pub fn feed(&mut self, chunk: &[u8]) -> u32
        ensures fed { (bytes : List ℕ) → IsPartFed self.old bytes → IsPartFed self.new (bytes ++ chunk.now) }
        ensures judged { (bytes : List ℕ) → IsPartFed self.old bytes → IsJudged (ShowsPartFault (bytes ++ chunk.now)) result }
        ensures certain { IsOneOf (DONE ∷ MEMORY ∷ FAULT ∷ []) result }
    {
        match self.feed.feed(chunk) {
            Ok(()) => DONE,
            Err(PartFault::Memory) => MEMORY,
            Err(PartFault::Header) => FAULT,
            Err(PartFault::Broken { .. }) => FAULT,
        }
    }
}
