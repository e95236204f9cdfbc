//! Writes a file of a log, as bytes to be appended and synced.
ghost use Rattle.std.specs.Prelude.{◌≡◌, ◌↔◌, ◌⊎◌, ◌+◌, ◌<◌, ◌≤◌, ◌++◌, [], ℕ, ◌-◌, true, false, length, map, List, Err, max, IsTrue, IsSome, IfSome, IfNone, OnSome, IfOk, IfErr, OnOk, OnErr, flat_map};
ghost use Rattle.mt_words.specs.Changes.{Logged, IsLogged, IsLawfulChange, changed};
ghost use Rattle.mt_words.specs.Limits.{widest};
ghost use Rattle.mt_words.specs.Built.{mark_of, put_of, remove_of, erase_of};
ghost use Rattle.mt_words.specs.declared.update.Kind.TheVariants as kinds;
ghost use Rattle.mt_block.specs.Blocks.{IsBody};
ghost use Rattle.mt_record.specs.Given.{column_of, kind_of, change_of};
ghost use Rattle.mt_record.specs.Logs.{log_bytes};
ghost use Rattle.mt_record.specs.Spelling.{spelling};
ghost use Rattle.mt_record.specs.Runs.{IsSmall};
ghost use Rattle.mt_record.specs.LogFronts.{IsFrontOf};
ghost use Rattle.mt_record.specs.Resuming.{greatest_timestamp};
ghost use Rattle.mt_writer.specs.Framing.{framed, HasMark};
ghost use Rattle.mt_writer.specs.Journals.{Journal, Keeps, file_of, holding, taking, syncing, read_back, MayGoOn, IsReached, IsSealed, IsFileOf, SameFile};
ghost use Rattle.mt_writer.specs.Refusing.{HasEnded, HasRoom, IsClosed, IsRefused, IsUnlawful, MayNotSeal};
ghost use Rattle.mt_writer.specs.declared.writer_fault.WriterFault.TheVariants as faults;

use crate::held::Held;
use crate::writer_fault::WriterFault;
use mt_block::FRAME_BYTES;
use mt_record::{Given, GivenChange, GivenKind, LogFront, MOST_BYTES, Rest, Segment};
use mt_words::{Format, LONGEST_KEY, Record};
use std::alloc::Global;
use std::marker::Model;

/// The most bytes of a record: a put with the longest key and all columns, each with the longest value.
pub const LONGEST_RECORD: u64 = 4_198_556;

/// Writes a file of a log for the one worker that owns it.
#[derive(Drop)]
pub struct LogWriter {
    /// The records that are not taken.
    pub(crate) held: Held,
    /// The timestamp of the last record.
    pub(crate) last: u64,
    /// The timestamp of the last record that was taken.
    pub(crate) taken: u64,
    /// The timestamp of the last record that is synced.
    pub(crate) reach: u64,
    /// The number of bytes of the text, with those held.
    pub(crate) size: u64,
    /// The number of bytes that were taken.
    pub(crate) taken_size: u64,
    /// The number of bytes that are synced.
    pub(crate) synced_size: u64,
    /// How many more bytes the file has than its text, as far as it was taken.
    pub(crate) frames: u64,
    /// The segment that the file is, if it is one.
    pub(crate) segment: Option<Segment>,
    /// Whether a write or a sync failed.
    pub(crate) failed: bool,
}

impl Model for LogWriter {
    ghost use Rattle.std.specs.Prelude.{◌+◌, ◌≤◌, length};
    ghost use Rattle.mt_block.specs.declared.block.TheConstants.{MOST_BODY};
    ghost use Rattle.mt_writer.specs.Framing.{frame_bytes};
    ghost use Rattle.mt_writer.specs.Journals.{Writer};
    ghost use Rattle.mt_record.specs.declared.read.TheConstants.{MOST_BYTES};
    ghost use Rattle.mt_record.specs.Runs.{IsSmall};

    ghost Value = { Writer };

    ghost view = { λ w. record {
      mark = w.held.mark;
      buffer = w.held.records;
      last = w.last;
      taken = w.taken;
      reach = w.reach;
      size = w.size;
      taken_size = w.taken_size;
      synced_size = w.synced_size;
      frames = w.frames;
      segment = w.segment;
      failed = w.failed;
    } };

    ghost invariant = { λ w. (w.size + w.frames + frame_bytes w.held.mark w.held.records ≤ MOST_BYTES) × ((length w.held.records ≤ MOST_BODY) × IsSmall w.held.records) };
}

impl LogWriter {
    /// Goes on with a file that has this front, and of which all bytes are synced. `mark` is the file's, if it has blocks:
    /// then each write appends one block, and else records alone. `size` is the number of the file's bytes. Returns None if
    /// the log has no record at or past its `from`, does not end with a record, is of format 1, or has more than
    /// `MOST_BYTES`.
    pub fn resumed(
        alloc: Global,
        front: LogFront,
        mark: Option<u32>,
        size: u64,
    ) -> Option<LogWriter>
        ensures accepted { IsSome result ↔ MayGoOn front size }
        ensures value { (bytes : List ℕ) (records : List Logged) → IsFrontOf bytes records front → HasMark mark bytes → size ≡ length bytes →
            IfSome result (λ writer. Keeps writer (read_back front.head records) × IsFileOf writer (read_back front.head records) bytes) }
        ensures mark { IfSome result (λ writer. writer.mark ≡ mark) }
        ensures failed { IfSome result (λ writer. writer.failed ≡ false) }
    {
        if !may_go_on(front, size) {
            return None;
        }
        Some(LogWriter {
            held: Held::new(mark, Vec::new(alloc)),
            last: front.latest,
            taken: front.latest,
            reach: front.latest,
            size: front.bytes,
            taken_size: front.bytes,
            synced_size: front.bytes,
            frames: size - front.bytes,
            segment: front.head.segment,
            failed: false,
        })
    }

    /// Appends a put of these columns, and returns its timestamp: `now`, or that of the last record if it is greater.
    /// Err: nothing is appended.
    pub fn put(
        &mut self,
        now: u64,
        version: u64,
        key: &[u8],
        columns: &[Given<'_>],
    ) -> Result<u64, WriterFault>
        ensures ok { (j : Journal) → Keeps self.old j → IfOk result (λ time. Keeps self.new (holding j (put_of time version key.now (map column_of columns.now)))) }
        ensures time { IfOk result (λ time. time ≡ max self.old.last now) }
        ensures same { OnOk result (self.new.failed ≡ self.old.failed) }
        ensures file { SameFile self.old self.new }
        ensures err { OnErr result (self.new ≡ self.old) }
        ensures failed { self.old.failed ≡ true → result ≡ Err faults.Failed }
        ensures fault { IfErr result (λ fault. IsRefused self.old (HasEnded self.old now) (put_of (max self.old.last now) version key.now (map column_of columns.now)) fault ⊎ IsUnlawful (record { version = version; key = key.now; kind = kinds.Put (map column_of columns.now) }) fault) }
    {
        let kind = GivenKind::Put(columns);
        self.change(now, GivenChange { version, key, kind })
    }

    /// Appends a remove of the key, and returns its timestamp, as `put` does.
    pub fn remove(&mut self, now: u64, version: u64, key: &[u8]) -> Result<u64, WriterFault>
        ensures ok { (j : Journal) → Keeps self.old j → IfOk result (λ time. Keeps self.new (holding j (remove_of time version key.now))) }
        ensures time { IfOk result (λ time. time ≡ max self.old.last now) }
        ensures same { OnOk result (self.new.failed ≡ self.old.failed) }
        ensures file { SameFile self.old self.new }
        ensures err { OnErr result (self.new ≡ self.old) }
        ensures failed { self.old.failed ≡ true → result ≡ Err faults.Failed }
        ensures fault { IfErr result (λ fault. IsRefused self.old (HasEnded self.old now) (remove_of (max self.old.last now) version key.now) fault ⊎ IsUnlawful (record { version = version; key = key.now; kind = kinds.Remove }) fault) }
    {
        let kind = GivenKind::Remove;
        self.change(now, GivenChange { version, key, kind })
    }

    /// Appends an erase of the columns with these numbers, and returns its timestamp, as `put` does.
    pub fn erase(
        &mut self,
        now: u64,
        version: u64,
        key: &[u8],
        numbers: &[u8],
    ) -> Result<u64, WriterFault>
        ensures ok { (j : Journal) → Keeps self.old j → IfOk result (λ time. Keeps self.new (holding j (erase_of time version key.now numbers.now))) }
        ensures time { IfOk result (λ time. time ≡ max self.old.last now) }
        ensures same { OnOk result (self.new.failed ≡ self.old.failed) }
        ensures file { SameFile self.old self.new }
        ensures err { OnErr result (self.new ≡ self.old) }
        ensures failed { self.old.failed ≡ true → result ≡ Err faults.Failed }
        ensures fault { IfErr result (λ fault. IsRefused self.old (HasEnded self.old now) (erase_of (max self.old.last now) version key.now numbers.now) fault ⊎ IsUnlawful (record { version = version; key = key.now; kind = kinds.Erase numbers.now }) fault) }
    {
        let kind = GivenKind::Erase(numbers);
        self.change(now, GivenChange { version, key, kind })
    }

    /// Appends a mark, and returns its timestamp, as `put` does.
    pub fn mark(&mut self, now: u64) -> Result<u64, WriterFault>
        ensures ok { (j : Journal) → Keeps self.old j → IfOk result (λ time. Keeps self.new (holding j (mark_of time))) }
        ensures time { IfOk result (λ time. time ≡ max self.old.last now) }
        ensures same { OnOk result (self.new.failed ≡ self.old.failed) }
        ensures file { SameFile self.old self.new }
        ensures err { OnErr result (self.new ≡ self.old) }
        ensures failed { self.old.failed ≡ true → result ≡ Err faults.Failed }
        ensures fault { IfErr result (IsRefused self.old (HasEnded self.old now) (mark_of (max self.old.last now))) }
    {
        let time = self.time(now)?;
        self.append_mark(time)?;
        Ok(time)
    }

    /// Appends the mark that ends the log. From then on the log takes no record. Err: nothing is appended.
    pub fn end(&mut self) -> Result<(), WriterFault>
        ensures ok { (j : Journal) → Keeps self.old j → OnOk result (Keeps self.new (holding j (mark_of greatest_timestamp))) }
        ensures same { OnOk result (self.new.failed ≡ self.old.failed) }
        ensures file { SameFile self.old self.new }
        ensures err { OnErr result (self.new ≡ self.old) }
        ensures failed { self.old.failed ≡ true → result ≡ Err faults.Failed }
        ensures fault { IfErr result (IsRefused self.old ⊥ (mark_of greatest_timestamp)) }
    {
        // This load shows the proof that no timestamp is greater.
        let _last = self.last;
        self.append_mark(u64::MAX)
    }

    /// Takes the bytes to be appended to the file, as one write: one small block, if the file has blocks. The writer goes on
    /// with `spare`, emptied. None: the write before it is not noted as synced, or one failed. So a crash leaves at most one
    /// write torn.
    pub fn take(&mut self, spare: Vec<u8>) -> Option<Vec<u8>>
        ensures accepted { (j : Journal) → Keeps self.old j → IsSome result ↔ ((self.old.failed ≡ false) × (j.taken ≡ [])) }
        ensures writer { (j : Journal) → Keeps self.old j → OnSome result (Keeps self.new (taking j)) }
        ensures bytes { (j : Journal) → Keeps self.old j → IfSome result (λ bytes. bytes.items ≡ framed self.old.mark (flat_map spelling j.held)) }
        ensures body { (j : Journal) → Keeps self.old j → OnSome result (IfSome self.old.mark (λ mark. IsBody (flat_map spelling j.held))) }
        ensures small { (j : Journal) → Keeps self.old j → OnSome result (IsSmall (flat_map spelling j.held)) }
        ensures file { (j : Journal) (file : List ℕ) → Keeps self.old j → IsFileOf self.old j file → IfSome result (λ bytes. IsFileOf self.new (taking j) (file ++ bytes.items)) }
        ensures same { self.new.failed ≡ self.old.failed }
        ensures none { IfNone result (self.new ≡ self.old) }
    {
        if self.failed || self.taken_size != self.synced_size {
            return None;
        }
        let records = self.held.len();
        let bytes = self.held.take(spare);
        self.frames += (bytes.len() - records) as u64;
        self.taken = self.last;
        self.taken_size = self.size;
        Some(bytes)
    }

    /// Notes that the file has all bytes that were taken, and was synced since. After a failure this does nothing.
    pub fn synced(&mut self)
        ensures synced { (j : Journal) → Keeps self.old j → self.old.failed ≡ false → Keeps self.new (syncing j) }
        ensures same { self.new.failed ≡ self.old.failed }
        ensures file { SameFile self.old self.new }
        ensures failed { self.old.failed ≡ true → self.new ≡ self.old }
    {
        if self.failed {
            // No later sync tells what became of the bytes of a failed one.
            return;
        }
        self.reach = self.taken;
        self.synced_size = self.taken_size;
    }

    /// Notes that a write or a sync failed. From then on the writer is as it is: it takes no record, hands out no bytes,
    /// and its reach stays.
    pub fn failed(&mut self)
        ensures value { self.new ≡ record self.old { failed = true } }
        ensures kept { (j : Journal) → Keeps self.old j → Keeps self.new j }
    {
        self.failed = true;
    }

    /// Seals this segment, so that the next one may begin, and returns which segment it is. Err: the writer as it was, if
    /// its file is no segment or is not synced whole, or if a write or a sync failed.
    pub fn seal(self) -> Result<Segment, LogWriter>
        ensures ok { (j : Journal) → Keeps self j → IfOk result (λ segment. IsSealed self.last segment.worker segment.number j) }
        ensures failed { OnOk result (self.failed ≡ false) }
        ensures err { IfErr result (λ same. same ≡ self) }
        ensures refused { OnErr result (MayNotSeal self) }
    {
        if self.failed || self.synced_size != self.size {
            return Err(self);
        }
        let Some(segment) = self.segment else {
            return Err(self);
        };
        Ok(segment)
    }

    /// Returns the timestamp of the last record.
    pub fn last(&self) -> u64
        ensures { result ≡ self.now.last }
    {
        self.last
    }

    /// Returns how far the log is synced: above each timestamp below the reach it has a synced record.
    pub fn reach(&self) -> u64
        ensures value { result ≡ self.now.reach }
        ensures reached { (j : Journal) → Keeps self.now j → IsReached result (file_of j) }
    {
        self.reach
    }

    /// Appends this change, and returns its timestamp, as `put` does.
    pub fn change(&mut self, now: u64, given: GivenChange<'_>) -> Result<u64, WriterFault>
        requires { IsLogged (kind_of given.kind) }
        ensures ok { (j : Journal) → Keeps self.old j → IfOk result (λ time. Keeps self.new (holding j (changed time (change_of given.entry)))) }
        ensures time { IfOk result (λ time. time ≡ max self.old.last now) }
        ensures same { OnOk result (self.new.failed ≡ self.old.failed) }
        ensures file { SameFile self.old self.new }
        ensures err { OnErr result (self.new ≡ self.old) }
        ensures failed { self.old.failed ≡ true → result ≡ Err faults.Failed }
        ensures fault { IfErr result (λ fault. IsRefused self.old (HasEnded self.old now) (changed (max self.old.last now) (change_of given.entry)) fault ⊎ IsUnlawful (change_of given.entry) fault) }
    {
        let time = self.time(now)?;
        allow(given)?;
        let before = self.held.len();
        self.held.append_change(time, given)?;
        if !self.held.stays_small(before) {
            return Err(WriterFault::Untaken);
        }
        self.size += (self.held.len() - before) as u64;
        self.last = time;
        Ok(time)
    }

    /// Appends a mark at this timestamp, which is not below the last one. Err: nothing is appended.
    fn append_mark(&mut self, time: u64) -> Result<(), WriterFault>
        requires { self.old.last ≤ time }
        ensures ok { (j : Journal) → Keeps self.old j → OnOk result (Keeps self.new (holding j (mark_of time))) }
        ensures same { OnOk result (self.new.failed ≡ self.old.failed) }
        ensures file { SameFile self.old self.new }
        ensures err { OnErr result (self.new ≡ self.old) }
        ensures failed { self.old.failed ≡ true → result ≡ Err faults.Failed }
        ensures fault { IfErr result (IsRefused self.old ⊥ (mark_of time)) }
    {
        self.admit()?;
        let before = self.held.len();
        self.held.append(&Record::mark(time))?;
        if !self.held.stays_small(before) {
            return Err(WriterFault::Untaken);
        }
        self.size += (self.held.len() - before) as u64;
        self.last = time;
        Ok(())
    }

    /// Returns the timestamp of a record that is appended now. Err: no record may be appended.
    fn time(&self, now: u64) -> Result<u64, WriterFault>
        ensures ok { IfOk result (λ time. (time ≡ max self.now.last now) × (time < greatest_timestamp)) }
        ensures room { OnOk result (HasRoom self.now) }
        ensures failed { self.now.failed ≡ true → result ≡ Err faults.Failed }
        ensures fault { IfErr result (IsClosed self.now (HasEnded self.now now)) }
    {
        self.admit()?;
        let time = self.last.max(now);
        if time == u64::MAX {
            // Recovery takes a mark at this timestamp for the end of the log.
            return Err(WriterFault::Ended);
        }
        Ok(time)
    }

    /// Returns whether any record may be appended. Err: `Failed` or `Full`.
    fn admit(&self) -> Result<(), WriterFault>
        ensures room { OnOk result (HasRoom self.now) }
        ensures failed { self.now.failed ≡ true → result ≡ Err faults.Failed }
        ensures fault { IfErr result (IsClosed self.now ⊥) }
    {
        if self.failed {
            return Err(WriterFault::Failed);
        }
        if self.size + self.frames > MOST_BYTES - FRAME_BYTES as u64 - LONGEST_RECORD {
            // Recovery refuses a file of more than MOST_BYTES.
            return Err(WriterFault::Full);
        }
        Ok(())
    }
}

/// Checks that a log of format 2 may have this change. Err: `Version`, `Key` or `Columns`.
fn allow(given: GivenChange<'_>) -> Result<(), WriterFault>
    ensures ok { OnOk result (IsLawfulChange widest (change_of given.entry)) }
    ensures fault { IfErr result (IsUnlawful (change_of given.entry)) }
{
    if given.version == 0 {
        return Err(WriterFault::Version);
    }
    if given.key.len() > LONGEST_KEY {
        return Err(WriterFault::Key);
    }
    if !given.kind.fits(Format::Two) {
        return Err(WriterFault::Columns);
    }
    Ok(())
}

/// Returns whether a writer may go on with a file of this size that has this front.
fn may_go_on(front: LogFront, size: u64) -> bool
    ensures { IsTrue result ↔ MayGoOn front size }
{
    let is_whole = front.rest == Rest::Nothing && front.head.format == Format::Two;
    let reaches_from = front.count != 0 && front.head.from <= front.latest;
    is_whole && reaches_from && front.bytes <= size && size <= MOST_BYTES
}
