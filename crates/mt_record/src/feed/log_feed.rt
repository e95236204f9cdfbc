//! Reads a log that comes in chunks.
ghost use Rattle.std.specs.Prelude.{◌≡◌, ◌≢◌, ◌++◌, [], List, ℕ, Some, None, IsSome, IfSome, IfOk, IfErr, OnOk};
ghost use Rattle.mt_words.specs.Changes.{Logged};
ghost use Rattle.mt_record.specs.declared.read.FeedFault.{FeedFault as FaultValue};
ghost use Rattle.mt_words.specs.declared.fault.What.{What as WhatValue};
ghost use Rattle.mt_record.specs.declared.front.Rest.TheVariants.{Faulty};
ghost use Rattle.mt_record.specs.Cutting.{IsCountOf, HasCut};
ghost use Rattle.mt_record.specs.LogTexts.{IsTextIn};
ghost use Rattle.mt_record.specs.Answered.{IsAnswered};
ghost use Rattle.mt_record.specs.LogFronts.{IsFrontOf};
ghost use Rattle.mt_record.specs.LogFeeding.{latest_read, IsLogFed, IsFedBehind, ShowsNoFault, IsShown};

use crate::feed::file_feed::FileFeed;
use crate::front::{LogFront, Rest};
use crate::kept::Records;
use crate::kept::log::{Dropped, KeptRecords};
use crate::read::{FeedFault, LogText};
use mt_words::Record;
use std::alloc::Global;
use std::marker::Model;
use std::mem;

/// A reader of a log that comes in chunks of any size. It collects the records in an `R`. It holds back only the
/// beginning of the header or of one record, and in a file of format 4 that of one block. A record that lies completely
/// in one chunk is copied straight from that chunk. The work is linear in the number of bytes, however they are cut.
#[derive(Drop)]
pub struct LogFeed<R: Records = Vec<Record>> {
    file: FileFeed<R>,
}

impl<R: Records> Model for LogFeed<R> {
    ghost use Rattle.mt_record.specs.LogFeeding.{fed_log, FedLog};

    ghost Value = { FedLog };

    ghost view = { λ f. fed_log R.listed f.file };
}

impl LogFeed {
    /// Creates a feed that has read no chunk.
    pub fn new(alloc: Global) -> LogFeed
        ensures fed { IsLogFed result [] [] }
        ensures sound { result.fault ≡ None }
    {
        LogFeed::filling(alloc, Vec::new(alloc))
    }

    /// Takes the complete records that were read and not yet taken, in order. After a fault these are the records
    /// before it. After `Memory` they may be only the first of the complete records. It does not allocate.
    pub fn take(&mut self) -> Vec<Record>
        ensures fed { (bytes : List ℕ) (taken : List Logged) → IsLogFed self.old bytes taken →
            IsLogFed self.new bytes (taken ++ result.items) }
        ensures records { result.items ≡ self.old.so_far.ready }
        ensures rest { self.new ≡ record self.old { so_far = record self.old.so_far { ready = [] } } }
    {
        let ready = &mut self.file.blocks.items.inner.items.ready;
        let alloc = *ready.allocator();
        mem::replace(ready, Vec::new(alloc))
    }
}

impl LogFeed<KeptRecords> {
    /// Creates a feed that has read no chunk. It keeps the bodies of records.
    pub fn keeping(alloc: Global) -> LogFeed<KeptRecords>
        ensures fed { IsLogFed result [] [] }
        ensures sound { result.fault ≡ None }
    {
        LogFeed::filling(alloc, KeptRecords::new(alloc))
    }

    /// Returns a feed that has read the header of this log alone. Returns None if this feed has not read the header.
    pub fn behind_header(&self, alloc: Global) -> Option<LogFeed<KeptRecords>>
        ensures { (bytes : List ℕ) (taken : List Logged) → IsLogFed self.now bytes taken →
            IfSome result (λ begun. IsFedBehind begun []) }
    {
        Some(LogFeed {
            file: self.file.behind_header(alloc)?,
        })
    }

    /// Reads the next chunk, as `feed` does. `ahead` was fed the chunk behind a header, perhaps by another thread; what it
    /// read is not read again if it goes on from here. Err: the same as for `feed`.
    pub fn feed_ahead(&mut self, ahead: LogFeed<KeptRecords>, piece: &[u8]) -> Result<(), FeedFault>
        requires { IsFedBehind ahead piece.now }
        ensures fed { (bytes : List ℕ) (taken : List Logged) → IsLogFed self.old bytes taken →
            IsLogFed self.new (bytes ++ piece.now) taken }
        ensures ok { (bytes : List ℕ) (taken : List Logged) → IsLogFed self.old bytes taken →
            OnOk result (ShowsNoFault (bytes ++ piece.now)) }
        ensures fault { (bytes : List ℕ) (taken : List Logged) → IsLogFed self.old bytes taken →
            IfErr result (IsShown (bytes ++ piece.now)) }
        ensures sound { OnOk result (self.new.fault ≡ None) }
        ensures kept { IfErr result (λ fault. self.new.fault ≡ Some fault) }
        ensures again { (fault : FaultValue) → self.old.fault ≡ Some fault → result ≡ Err fault }
        ensures stays { IsSome self.old.fault → self.new ≡ self.old }
    {
        self.file.read_ahead(ahead.file, piece)
    }

    /// Returns the timestamp of the last complete record that was read, or 0 before the first.
    pub fn latest(&self) -> u64
        ensures { result ≡ latest_read self.now.so_far.front }
    {
        match self.file.blocks.items.inner.items.front {
            None => 0,
            Some(front) => front.latest,
        }
    }

    /// Takes the complete records that were read and not yet taken, in order, as `take` does.
    pub fn take_kept(&mut self) -> KeptRecords
        ensures fed { (bytes : List ℕ) (taken : List Logged) → IsLogFed self.old bytes taken →
            IsLogFed self.new bytes (taken ++ result) }
        ensures records { result ≡ self.old.so_far.ready }
        ensures rest { self.new ≡ record self.old { so_far = record self.old.so_far { ready = [] } } }
    {
        let ready = &mut self.file.blocks.items.inner.items.ready;
        let none = ready.none();
        mem::replace(ready, none)
    }

    /// Drops the records that `take_kept` would take. Returns how many updates and marks they were.
    pub fn drop_kept(&mut self) -> Dropped
        ensures fed { (bytes : List ℕ) (taken : List Logged) → IsLogFed self.old bytes taken →
            IsLogFed self.new bytes (taken ++ self.old.so_far.ready) }
        ensures gone { IsCountOf self.old.so_far.ready result }
        ensures rest { self.new ≡ record self.old { so_far = record self.old.so_far { ready = [] } } }
    {
        self.file.blocks.items.inner.items.ready.clear()
    }

    /// Drops the records that `take_kept` would take. Returns first how many updates and marks at or past `limit` they
    /// were, and then how many of the others.
    pub fn drop_at(&mut self, limit: u64) -> (Dropped, Dropped)
        ensures fed { (bytes : List ℕ) (taken : List Logged) → IsLogFed self.old bytes taken →
            IsLogFed self.new bytes (taken ++ self.old.so_far.ready) }
        ensures gone { (before : List Logged) × HasCut limit self.old.so_far.ready before result.0 × IsCountOf before result.1 }
        ensures rest { self.new ≡ record self.old { so_far = record self.old.so_far { ready = [] } } }
    {
        let ready = &mut self.file.blocks.items.inner.items.ready;
        let late = ready.cut(limit);
        (late, ready.clear())
    }
}

impl<R: Records> LogFeed<R> {
    /// Creates a feed that has read no chunk. It collects records in `records`, which must be empty.
    fn filling(alloc: Global, records: R) -> LogFeed<R>
        requires { R.listed records ≡ [] }
        ensures fed { IsLogFed result [] [] }
        ensures sound { result.fault ≡ None }
    {
        LogFeed {
            file: FileFeed::new(alloc, records),
        }
    }

    /// Reads the next chunk.
    /// Err: the fault that the bytes so far show, or `Memory` if an allocation failed. The first call after which the
    /// bytes show the fault returns it. Each later call, and `finish`, returns it again.
    pub fn feed(&mut self, piece: &[u8]) -> Result<(), FeedFault>
        ensures fed { (bytes : List ℕ) (taken : List Logged) → IsLogFed self.old bytes taken →
            IsLogFed self.new (bytes ++ piece.now) taken }
        ensures ok { (bytes : List ℕ) (taken : List Logged) → IsLogFed self.old bytes taken →
            OnOk result (ShowsNoFault (bytes ++ piece.now)) }
        ensures fault { (bytes : List ℕ) (taken : List Logged) → IsLogFed self.old bytes taken →
            IfErr result (IsShown (bytes ++ piece.now)) }
        ensures sound { OnOk result (self.new.fault ≡ None) }
        ensures kept { IfErr result (λ fault. self.new.fault ≡ Some fault) }
        ensures again { (fault : FaultValue) → self.old.fault ≡ Some fault → result ≡ Err fault }
        ensures stays { IsSome self.old.fault → self.new ≡ self.old }
    {
        self.file.read(piece)
    }

    /// Returns what the bytes say as a log, with the records not yet taken.
    /// Err: the one fault of the bytes, or `Memory` if an allocation failed.
    pub fn finish(self) -> Result<LogText<R>, FeedFault>
        ensures log { (bytes : List ℕ) (taken : List Logged) → IsLogFed self bytes taken →
            IfOk result (IsTextIn R.listed taken bytes) }
        ensures fault { (bytes : List ℕ) (taken : List Logged) → IsLogFed self bytes taken →
            IfErr result (IsAnswered bytes) }
        ensures ready { IfOk result (λ text. R.listed text.records ≡ self.so_far.ready) }
        ensures again { (fault : FaultValue) → self.fault ≡ Some fault → result ≡ Err fault }
    {
        if let Some(fault) = self.file.fault() {
            return Err(fault);
        }
        Ok(LogText {
            front: self.front()?,
            records: self.file.blocks.items.inner.items.ready,
        })
    }

    /// Returns how far the bytes are a log, which may have a fault after its records.
    /// Err: the bytes have no header, or `Memory` if an allocation failed.
    pub fn front(&self) -> Result<LogFront, FeedFault>
        ensures front { (bytes : List ℕ) (taken : List Logged) → IsLogFed self.now bytes taken →
            IfOk result (IsFrontOf bytes (taken ++ self.now.so_far.ready)) }
        ensures fault { (bytes : List ℕ) (taken : List Logged) → IsLogFed self.now bytes taken →
            IfErr result (IsAnswered bytes) }
        ensures sound { (what : WhatValue) → self.now.fault ≡ None → IfOk result (λ front. front.rest ≢ Faulty what) }
    {
        let rest = match self.file.fault() {
            Some(FeedFault::Record { nth: _, what }) => Rest::Faulty(what),
            Some(fault) => return Err(fault),
            None if self.file.is_all_read() => Rest::Nothing,
            None => Rest::Torn,
        };
        let front = self
            .file
            .blocks
            .items
            .inner
            .items
            .front
            .ok_or(FeedFault::Header)?;
        Ok(LogFront { rest, ..front })
    }
}
