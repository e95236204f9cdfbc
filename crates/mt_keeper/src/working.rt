//! What threads do with the logs that they were lent.
ghost use Rattle.std.specs.Prelude.{◌≡◌, ◌⊎◌, ◌<◌, ◌+◌, ◌++◌, ℕ, [], ◌∷◌, List, Some, Err, true, map, IfOk, IfErr, OnOk, OnErr};
ghost use Rattle.mt_words.specs.Changes.{IsLogged};
ghost use Rattle.mt_words.specs.declared.update.Kind.TheVariants as kinds;
ghost use Rattle.mt_record.specs.Given.{column_of, kind_of};
ghost use Rattle.mt_writer.specs.declared.writer_fault.WriterFault.TheVariants.{Failed};
ghost use Rattle.std.specs.Prelude.{length, replicate, flat_map};
ghost use Rattle.mt_record.specs.Spelling.{spelling};
ghost use Rattle.mt_record.specs.Runs.{IsSmall};
ghost use Rattle.mt_writer.specs.Framing.{framed};
ghost use Rattle.mt_writer.specs.Journals.{Journal, Keeps, IsFileOf, taking};
ghost use Rattle.mt_keeper.specs.Crews.{Deed, wrote, spent, marked, took, synced, looked, asked, HasDone};
ghost use Rattle.mt_keeper.specs.Refusals.{LentTakesNot, LentMarksNot, LentHasFailed, IsLentInFlight, IsNoLog};
ghost use Rattle.mt_keeper.specs.declared.keeper_fault.KeeperFault.TheVariants as faults;

use crate::crew::Crew;
use crate::keeper_fault::KeeperFault;
use crate::lent_log::LentLog;
use mt_record::{Given, GivenChange, GivenKind};
use mt_writer::WriterFault;

/// The index of the shared word that is the clock.
const CLOCK: usize = 0;

impl Crew {
    /// Appends a put of these columns to the log, and returns its stamp, which is its timestamp and its version.
    /// Err: nothing is appended; a stamp may be spent.
    pub fn put(
        &self,
        log: &mut LentLog,
        key: &[u8],
        columns: &[Given<'_>],
    ) -> Result<u64, KeeperFault>
        requires { log.old.table ≡ self.now.table }
        ensures ok { (deeds : List Deed) → HasDone self.now.before log.old deeds → IfOk result (λ stamp. HasDone self.now.before log.new (deeds ++ wrote (record { version = stamp; key = key.now; kind = kinds.Put (map column_of columns.now) }) ∷ [])) }
        ensures err { (deeds : List Deed) → HasDone self.now.before log.old deeds → OnErr result (HasDone self.now.before log.new deeds ⊎ HasDone self.now.before log.new (deeds ++ spent ∷ [])) }
        ensures same { log.new.table ≡ log.old.table }
        ensures failed { log.old.failed ≡ true → (result ≡ Err (faults.Writer Failed)) × (log.new ≡ log.old) }
        ensures fault { IfErr result (LentTakesNot (λ stamp. record { version = stamp; key = key.now; kind = kinds.Put (map column_of columns.now) }) log.old log.new) }
    {
        self.change(log, key, GivenKind::Put(columns))
    }

    /// Appends a remove of the key, and returns its stamp, as `put` does.
    pub fn remove(&self, log: &mut LentLog, key: &[u8]) -> Result<u64, KeeperFault>
        requires { log.old.table ≡ self.now.table }
        ensures ok { (deeds : List Deed) → HasDone self.now.before log.old deeds → IfOk result (λ stamp. HasDone self.now.before log.new (deeds ++ wrote (record { version = stamp; key = key.now; kind = kinds.Remove }) ∷ [])) }
        ensures err { (deeds : List Deed) → HasDone self.now.before log.old deeds → OnErr result (HasDone self.now.before log.new deeds ⊎ HasDone self.now.before log.new (deeds ++ spent ∷ [])) }
        ensures same { log.new.table ≡ log.old.table }
        ensures failed { log.old.failed ≡ true → (result ≡ Err (faults.Writer Failed)) × (log.new ≡ log.old) }
        ensures fault { IfErr result (LentTakesNot (λ stamp. record { version = stamp; key = key.now; kind = kinds.Remove }) log.old log.new) }
    {
        self.change(log, key, GivenKind::Remove)
    }

    /// Appends an erase of the columns with these numbers, and returns its stamp, as `put` does.
    pub fn erase(&self, log: &mut LentLog, key: &[u8], numbers: &[u8]) -> Result<u64, KeeperFault>
        requires { log.old.table ≡ self.now.table }
        ensures ok { (deeds : List Deed) → HasDone self.now.before log.old deeds → IfOk result (λ stamp. HasDone self.now.before log.new (deeds ++ wrote (record { version = stamp; key = key.now; kind = kinds.Erase numbers.now }) ∷ [])) }
        ensures err { (deeds : List Deed) → HasDone self.now.before log.old deeds → OnErr result (HasDone self.now.before log.new deeds ⊎ HasDone self.now.before log.new (deeds ++ spent ∷ [])) }
        ensures same { log.new.table ≡ log.old.table }
        ensures failed { log.old.failed ≡ true → (result ≡ Err (faults.Writer Failed)) × (log.new ≡ log.old) }
        ensures fault { IfErr result (LentTakesNot (λ stamp. record { version = stamp; key = key.now; kind = kinds.Erase numbers.now }) log.old log.new) }
    {
        self.change(log, key, GivenKind::Erase(numbers))
    }

    /// Appends a mark at the next stamp to the log, as the keeper's `mark` does. Err: nothing is appended.
    pub fn mark(&self, log: &mut LentLog) -> Result<(), KeeperFault>
        requires { log.old.table ≡ self.now.table }
        ensures ok { (deeds : List Deed) → HasDone self.now.before log.old deeds → OnOk result ((time : ℕ) × HasDone self.now.before log.new (deeds ++ marked time ∷ [])) }
        ensures err { (deeds : List Deed) → HasDone self.now.before log.old deeds → OnErr result (HasDone self.now.before log.new deeds ⊎ HasDone self.now.before log.new (deeds ++ looked ∷ [])) }
        ensures same { log.new.table ≡ log.old.table }
        ensures failed { log.old.failed ≡ true → (result ≡ Err (faults.Writer Failed)) × (log.new ≡ log.old) }
        ensures fault { IfErr result (LentMarksNot log.old log.new) }
    {
        if log.failed {
            return Err(WriterFault::Failed.into());
        }
        let clock = self.words.load(&mut log.hand, CLOCK);
        let Some(stamp) = clock.checked_add(1) else {
            return Err(WriterFault::Ended.into());
        };
        log.writer.mark(stamp)?;
        Ok(())
    }

    /// Takes the bytes to be appended to the log's file, as one write: a small block. Its writer goes on with `spare`,
    /// emptied. Err: no bytes are taken. `Early`: `synced` was not called for the write before it.
    pub fn take(&self, log: &mut LentLog, spare: Vec<u8>) -> Result<Vec<u8>, KeeperFault>
        requires { log.old.table ≡ self.now.table }
        ensures ok { (deeds : List Deed) → HasDone self.now.before log.old deeds → OnOk result (HasDone self.now.before log.new (deeds ++ took ∷ [])) }
        ensures bytes { (j : Journal) → Keeps log.old.writer j → IfOk result (λ bytes. bytes.items ≡ framed log.old.writer.mark (flat_map spelling j.held)) }
        ensures file { (j : Journal) (file : List ℕ) → Keeps log.old.writer j → IsFileOf log.old.writer j file → IfOk result (λ bytes. IsFileOf log.new.writer (taking j) (file ++ bytes.items)) }
        ensures small { (j : Journal) → Keeps log.old.writer j → OnOk result (IsSmall (flat_map spelling j.held)) }
        ensures err { OnErr result (log.new ≡ log.old) }
        ensures same { log.new.table ≡ log.old.table }
        ensures failed { log.old.failed ≡ true → (result ≡ Err (faults.Writer Failed)) × (log.new ≡ log.old) }
        ensures fault { IfErr result (λ fault. LentHasFailed log.old fault ⊎ IsLentInFlight log.old fault) }
    {
        if log.failed {
            return Err(WriterFault::Failed.into());
        }
        let Some(bytes) = log.writer.take(spare) else {
            return Err(KeeperFault::Early);
        };
        // This load gives the call its place in the order of all calls.
        self.words.load(&mut log.hand, CLOCK);
        Ok(bytes)
    }

    /// Notes that the log's file has all bytes that were taken, and was synced since.
    pub fn synced(&self, log: &mut LentLog) -> Result<(), KeeperFault>
        requires { log.old.table ≡ self.now.table }
        ensures ok { (deeds : List Deed) → HasDone self.now.before log.old deeds → OnOk result (HasDone self.now.before log.new (deeds ++ synced ∷ [])) }
        ensures err { OnErr result (log.new ≡ log.old) }
        ensures same { log.new.table ≡ log.old.table }
        ensures failed { log.old.failed ≡ true → (result ≡ Err (faults.Writer Failed)) × (log.new ≡ log.old) }
        ensures fault { IfErr result (λ fault. LentHasFailed log.old fault ⊎ IsNoLog (length self.now.before.logs) log.old fault) }
    {
        if log.failed {
            return Err(WriterFault::Failed.into());
        }
        if log.number >= self.logs {
            return Err(KeeperFault::Log);
        }
        log.writer.synced();
        self.words
            .swap(&mut log.hand, log.number + 1, log.writer.reach());
        Ok(())
    }

    /// Returns the timestamp below which all updates may be acknowledged.
    pub fn acknowledged_below(&self, log: &mut LentLog) -> u64
        requires { log.old.table ≡ self.now.table }
        ensures asked { (deeds : List Deed) → HasDone self.now.before log.old deeds →
            HasDone self.now.before log.new ((deeds ++ replicate (length self.now.before.logs) looked) ++ asked result ∷ []) }
        ensures same { log.new ≡ record log.old { acts = log.new.acts } }
    {
        let mut least = u64::MAX;
        for number in 0..self.logs {
            least = least.min(self.words.load(&mut log.hand, number + 1));
        }
        let clock = self.words.load(&mut log.hand, CLOCK);
        least.min(clock.saturating_add(1))
    }

    /// Appends a change of this key to the log, and returns its stamp, as `put` does.
    fn change(&self, log: &mut LentLog, key: &[u8], kind: GivenKind<'_>) -> Result<u64, KeeperFault>
        requires crew { log.old.table ≡ self.now.table }
        requires logged { IsLogged (kind_of kind) }
        ensures ok { (deeds : List Deed) → HasDone self.now.before log.old deeds → IfOk result (λ stamp. HasDone self.now.before log.new (deeds ++ wrote (record { version = stamp; key = key.now; kind = kind_of kind.entry }) ∷ [])) }
        ensures err { (deeds : List Deed) → HasDone self.now.before log.old deeds → OnErr result (HasDone self.now.before log.new deeds ⊎ HasDone self.now.before log.new (deeds ++ spent ∷ [])) }
        ensures same { log.new.table ≡ log.old.table }
        ensures failed { log.old.failed ≡ true → (result ≡ Err (faults.Writer Failed)) × (log.new ≡ log.old) }
        ensures fault { IfErr result (LentTakesNot (λ stamp. record { version = stamp; key = key.now; kind = kind_of kind.entry }) log.old log.new) }
    {
        if log.failed {
            return Err(WriterFault::Failed.into());
        }
        if log.left == 0 {
            return Err(WriterFault::Ended.into());
        }
        log.left -= 1;
        let Some(version) = self.words.add(&mut log.hand, CLOCK, 1).checked_add(1) else {
            return Err(WriterFault::Ended.into());
        };
        log.writer
            .change(version, GivenChange { version, key, kind })?;
        Ok(version)
    }
}
