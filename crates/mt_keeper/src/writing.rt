//! Appends records to logs, hands out their bytes, and notes what is synced.
ghost use Rattle.std.specs.Prelude.{◌≡◌, ◌⊎◌, ◌<◌, ◌+◌, ◌++◌, ℕ, true, Some, Err, map, IfOk, IfErr, OnOk, OnErr, slice_get, List, flat_map};
ghost use Rattle.mt_words.specs.Changes.{IsLogged, changed};
ghost use Rattle.mt_words.specs.Built.{mark_of, put_of, remove_of, erase_of};
ghost use Rattle.mt_words.specs.declared.update.Kind.TheVariants as kinds;
ghost use Rattle.mt_record.specs.Given.{column_of, kind_of};
ghost use Rattle.mt_record.specs.Spelling.{spelling};
ghost use Rattle.mt_record.specs.Runs.{IsSmall};
ghost use Rattle.mt_record.specs.Resuming.{greatest_timestamp};
ghost use Rattle.mt_writer.specs.Framing.{framed};
ghost use Rattle.mt_writer.specs.Journals.{Journal, Writer, taking};
ghost use Rattle.mt_writer.specs.declared.writer_fault.WriterFault.TheVariants.{Failed};
ghost use Rattle.mt_laws.specs.Writing.{writing, Server};
ghost use Rattle.mt_keeper.specs.Keeping.{Holds, numbered};
ghost use Rattle.mt_keeper.specs.Calling.{Steps, appended, with_taken, with_synced};
ghost use Rattle.mt_keeper.specs.Filing.{HasFile};
ghost use Rattle.mt_keeper.specs.declared.keeper.Stage.TheVariants.{Writing};
ghost use Rattle.mt_keeper.specs.Refusals.{IsAt, HasFailed, HasNoStamp, IsNotWritten, TakesNot, NoMark, NoChange, IsInFlight};
ghost use Rattle.mt_keeper.specs.declared.keeper_fault.KeeperFault.TheVariants as faults;

use crate::keeper::{Keeper, Stage};
use crate::keeper_fault::KeeperFault;
use mt_record::{Given, GivenChange, GivenKind};
use mt_writer::WriterFault;

impl Keeper {
    /// Appends a put of these columns to the log, and returns its stamp, which is its timestamp and its version.
    /// Err: nothing is appended.
    pub fn put(&mut self, log: usize, key: &[u8], columns: &[Given<'_>]) -> Result<u64, KeeperFault>
        ensures step { (s : Server) → Holds self.old s → IfOk result (λ stamp. Steps s (appended s log (put_of stamp stamp key.now (map column_of columns.now))) self.new) }
        ensures stamp { IfOk result (λ stamp. stamp ≡ self.old.clock + 1) }
        ensures err { OnErr result (self.new ≡ self.old) }
        ensures failed { self.old.failed ≡ true → result ≡ Err (faults.Writer Failed) }
        ensures fault { let stamp = self.old.clock + 1 in IfErr result (TakesNot self.old log (NoChange stamp (record { version = stamp; key = key.now; kind = kinds.Put (map column_of columns.now) }))) }
    {
        self.change(log, key, GivenKind::Put(columns))
    }

    /// Appends a remove of the key, and returns its stamp, as `put` does.
    pub fn remove(&mut self, log: usize, key: &[u8]) -> Result<u64, KeeperFault>
        ensures step { (s : Server) → Holds self.old s → IfOk result (λ stamp. Steps s (appended s log (remove_of stamp stamp key.now)) self.new) }
        ensures stamp { IfOk result (λ stamp. stamp ≡ self.old.clock + 1) }
        ensures err { OnErr result (self.new ≡ self.old) }
        ensures failed { self.old.failed ≡ true → result ≡ Err (faults.Writer Failed) }
        ensures fault { let stamp = self.old.clock + 1 in IfErr result (TakesNot self.old log (NoChange stamp (record { version = stamp; key = key.now; kind = kinds.Remove }))) }
    {
        self.change(log, key, GivenKind::Remove)
    }

    /// Appends an erase of the columns with these numbers, and returns its stamp, as `put` does.
    pub fn erase(&mut self, log: usize, key: &[u8], numbers: &[u8]) -> Result<u64, KeeperFault>
        ensures step { (s : Server) → Holds self.old s → IfOk result (λ stamp. Steps s (appended s log (erase_of stamp stamp key.now numbers.now)) self.new) }
        ensures stamp { IfOk result (λ stamp. stamp ≡ self.old.clock + 1) }
        ensures err { OnErr result (self.new ≡ self.old) }
        ensures failed { self.old.failed ≡ true → result ≡ Err (faults.Writer Failed) }
        ensures fault { let stamp = self.old.clock + 1 in IfErr result (TakesNot self.old log (NoChange stamp (record { version = stamp; key = key.now; kind = kinds.Erase numbers.now }))) }
    {
        self.change(log, key, GivenKind::Erase(numbers))
    }

    /// Appends a mark at the next stamp to the log. So all updates until now may be acknowledged, once it is synced and the
    /// other logs have such a mark. Err: nothing is appended.
    pub fn mark(&mut self, log: usize) -> Result<(), KeeperFault>
        ensures step { (s : Server) → Holds self.old s → OnOk result (Steps s (appended s log (mark_of (self.old.clock + 1))) self.new) }
        ensures err { OnErr result (self.new ≡ self.old) }
        ensures failed { self.old.failed ≡ true → result ≡ Err (faults.Writer Failed) }
        ensures fault { IfErr result (TakesNot self.old log (NoMark (self.old.clock + 1))) }
    {
        let stamp = self.stamp()?;
        let Some(log) = self.logs.get_mut(log) else {
            return Err(KeeperFault::Log);
        };
        let Stage::Writing(writer) = &mut log.stage else {
            return Err(KeeperFault::Log);
        };
        writer.mark(stamp)?;
        Ok(())
    }

    /// Takes the bytes to be appended to the log's file, as one write: a small block. Its writer goes on with `spare`,
    /// emptied. Err: no bytes are taken. `Early`: `synced` was not called for the write before it.
    pub fn take(&mut self, log: usize, spare: Vec<u8>) -> Result<Vec<u8>, KeeperFault>
        ensures step { (s : Server) → Holds self.old s → OnOk result (Steps s (with_taken s log) self.new) }
        ensures bytes { (s : Server) (j : Journal) (w : Writer) → Holds self.old s → slice_get (numbered s) log ≡ Some (writing j) → IsAt self.old log (Writing w) →
            IfOk result (λ bytes. bytes.items ≡ framed w.mark (flat_map spelling j.held)) }
        ensures file { (s : Server) (j : Journal) (file : List ℕ) → Holds self.old s → slice_get (numbered s) log ≡ Some (writing j) → HasFile self.old log j file →
            IfOk result (λ bytes. HasFile self.new log (taking j) (file ++ bytes.items)) }
        ensures small { (s : Server) (j : Journal) → Holds self.old s → slice_get (numbered s) log ≡ Some (writing j) → OnOk result (IsSmall (flat_map spelling j.held)) }
        ensures err { OnErr result (self.new ≡ self.old) }
        ensures failed { self.old.failed ≡ true → result ≡ Err (faults.Writer Failed) }
        ensures fault { (s : Server) → Holds self.old s → IfErr result (λ fault. HasFailed self.old fault ⊎ (IsNotWritten self.old log fault ⊎ IsInFlight s log fault)) }
    {
        if self.failed {
            return Err(WriterFault::Failed.into());
        }
        let Some(log) = self.logs.get_mut(log) else {
            return Err(KeeperFault::Log);
        };
        let Stage::Writing(writer) = &mut log.stage else {
            return Err(KeeperFault::Log);
        };
        let Some(bytes) = writer.take(spare) else {
            return Err(KeeperFault::Early);
        };
        Ok(bytes)
    }

    /// Notes that the log's file has all bytes that were taken, and was synced since.
    pub fn synced(&mut self, log: usize) -> Result<(), KeeperFault>
        ensures step { (s : Server) → Holds self.old s → OnOk result (Steps s (with_synced s log) self.new) }
        ensures err { OnErr result (self.new ≡ self.old) }
        ensures failed { self.old.failed ≡ true → result ≡ Err (faults.Writer Failed) }
        ensures fault { IfErr result (λ fault. HasFailed self.old fault ⊎ IsNotWritten self.old log fault) }
    {
        if self.failed {
            return Err(WriterFault::Failed.into());
        }
        let Some(log) = self.logs.get_mut(log) else {
            return Err(KeeperFault::Log);
        };
        let Stage::Writing(writer) = &mut log.stage else {
            return Err(KeeperFault::Log);
        };
        writer.synced();
        Ok(())
    }

    /// Appends a change of this key to the log, and returns its stamp, as `put` does.
    fn change(&mut self, log: usize, key: &[u8], kind: GivenKind<'_>) -> Result<u64, KeeperFault>
        requires { IsLogged (kind_of kind) }
        ensures step { (s : Server) → Holds self.old s → IfOk result (λ stamp.
            Steps s (appended s log (changed stamp (record { version = stamp; key = key.now; kind = kind_of kind.entry }))) self.new) }
        ensures stamp { IfOk result (λ stamp. stamp ≡ self.old.clock + 1) }
        ensures err { OnErr result (self.new ≡ self.old) }
        ensures failed { self.old.failed ≡ true → result ≡ Err (faults.Writer Failed) }
        ensures fault { let stamp = self.old.clock + 1 in IfErr result (TakesNot self.old log (NoChange stamp (record { version = stamp; key = key.now; kind = kind_of kind.entry }))) }
    {
        let version = self.stamp()?;
        let Some(log) = self.logs.get_mut(log) else {
            return Err(KeeperFault::Log);
        };
        let Stage::Writing(writer) = &mut log.stage else {
            return Err(KeeperFault::Log);
        };
        writer.change(version, GivenChange { version, key, kind })?;
        self.clock = version;
        Ok(version)
    }

    /// Returns the next stamp. Err: a write or a sync failed, or no stamp is left.
    pub(crate) fn stamp(&self) -> Result<u64, KeeperFault>
        ensures ok { IfOk result (λ stamp. (stamp ≡ self.now.clock + 1) × (stamp < greatest_timestamp)) }
        ensures failed { self.now.failed ≡ true → result ≡ Err (faults.Writer Failed) }
        ensures fault { IfErr result (λ fault. HasFailed self.now fault ⊎ HasNoStamp self.now fault) }
    {
        if self.failed {
            return Err(WriterFault::Failed.into());
        }
        if self.clock >= u64::MAX - 1 {
            return Err(WriterFault::Ended.into());
        }
        Ok(self.clock + 1)
    }
}
