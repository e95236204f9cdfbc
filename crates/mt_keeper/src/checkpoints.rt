//! Makes checkpoints, one at a time.
ghost use Rattle.std.specs.Prelude.{◌≡◌, ◌⊎◌, ◌+◌, ℕ, true, Some, None, Err, ◌↔◌, IsTrue, IfOk, IfErr, OnOk, OnErr, Contains};
ghost use Rattle.mt_scan.specs.Choice.{CheckpointReading};
ghost use Rattle.mt_writer.specs.declared.writer_fault.WriterFault.TheVariants.{Failed};
ghost use Rattle.mt_laws.specs.Writing.{Server, Stands, IsRead, updates_of};
ghost use Rattle.mt_keeper.specs.Keeping.{Holds, IsReading, HasRead, ArePast};
ghost use Rattle.mt_keeper.specs.Calling.{Steps, counted_up, with_checkpoint, standing_on};
ghost use Rattle.mt_keeper.specs.Refusals.{HasFailed, HasNoStamp, IsMaking, HasNoNumber, ReadsNone, MayNotStand};
ghost use Rattle.mt_keeper.specs.declared.keeper_fault.KeeperFault.TheVariants as faults;

use crate::keeper::{Keeper, Making};
use crate::keeper_fault::KeeperFault;
use mt_writer::WriterFault;

impl Keeper {
    /// Begins a checkpoint. Returns its number, which is above those before, and its begin, which is a stamp. Each key is
    /// then read in one step, with all updates from before the begin. `Early`: a checkpoint is being made.
    pub fn begin_checkpoint(&mut self) -> Result<(u32, u64), KeeperFault>
        ensures step { (s : Server) → Stands s → Holds self.old s → OnOk result (Steps s (counted_up s) self.new) }
        ensures value { IfOk result (λ begun. (begun.0 ≡ self.old.next) × (begun.1 ≡ self.old.clock + 1)) }
        ensures ok { let begin = self.old.clock + 1 in OnOk result (self.new ≡ record self.old { clock = begin; making = Some (record { begin = begin; end = None }); next = self.old.next + 1 }) }
        ensures err { OnErr result (self.new ≡ self.old) }
        ensures failed { self.old.failed ≡ true → result ≡ Err (faults.Writer Failed) }
        ensures fault { IfErr result (λ fault. HasFailed self.old fault ⊎ (HasNoStamp self.old fault ⊎ (IsMaking self.old fault ⊎ HasNoNumber self.old fault))) }
    {
        let begin = self.stamp()?;
        if self.making.is_some() {
            return Err(KeeperFault::Early);
        }
        let number = self.next;
        let Some(next) = number.checked_add(1) else {
            return Err(WriterFault::Full.into());
        };
        self.clock = begin;
        self.making = Some(Making { begin, end: None });
        self.next = next;
        Ok((number, begin))
    }

    /// Notes that all keys are read, and returns the checkpoint's end. From now on its parts may be renamed. `Early`: no
    /// checkpoint is being read.
    pub fn end_checkpoint(&mut self) -> Result<u64, KeeperFault>
        ensures step { (s : Server) (new : CheckpointReading) → Holds self.old s → IsReading self.old.making new.begin → new.end ≡ self.old.clock → IsRead (updates_of s.slots) new →
            OnOk result (Steps s (with_checkpoint s new) self.new) }
        ensures value { IfOk result (λ end. end ≡ self.old.clock) }
        ensures ok { (begin : ℕ) → IsReading self.old.making begin → OnOk result (self.new ≡ record self.old { making = Some (record { begin = begin; end = Some self.old.clock }) }) }
        ensures err { OnErr result (self.new ≡ self.old) }
        ensures failed { self.old.failed ≡ true → result ≡ Err (faults.Writer Failed) }
        ensures fault { IfErr result (λ fault. HasFailed self.old fault ⊎ ReadsNone self.old fault) }
    {
        if self.failed {
            return Err(WriterFault::Failed.into());
        }
        let Some(making) = self.making else {
            return Err(KeeperFault::Early);
        };
        if making.end.is_some() {
            return Err(KeeperFault::Early);
        }
        let end = self.clock;
        self.making = Some(Making {
            end: Some(end),
            ..making
        });
        Ok(end)
    }

    /// Gives up the checkpoint that is being made, if any.
    pub fn abandon_checkpoint(&mut self) -> Result<(), KeeperFault>
        ensures ok { OnOk result (self.new ≡ record self.old { making = None }) }
        ensures kept { (s : Server) → Holds self.old s → Holds self.new s }
        ensures err { OnErr result (self.new ≡ self.old) }
        ensures failed { self.old.failed ≡ true → result ≡ Err (faults.Writer Failed) }
        ensures fault { IfErr result (HasFailed self.old) }
    {
        if self.failed {
            return Err(WriterFault::Failed.into());
        }
        self.making = None;
        Ok(())
    }

    /// Notes that all parts of the checkpoint that was read have their names and are synced, and the folder too. From now on
    /// the server stands on it: what is older may be deleted. `Early`: no checkpoint was read, or some log is not synced past
    /// its end.
    pub fn stand(&mut self) -> Result<(), KeeperFault>
        ensures step { (s : Server) (new : CheckpointReading) → Stands s → Holds self.old s → HasRead self.old.making new.begin new.end → Contains s.checkpoints.written new →
            OnOk result (Steps s (standing_on s new) self.new) }
        ensures ok { (begin end : ℕ) → HasRead self.old.making begin end → OnOk result (self.new ≡ record self.old { base = begin; making = None }) }
        ensures err { OnErr result (self.new ≡ self.old) }
        ensures failed { self.old.failed ≡ true → result ≡ Err (faults.Writer Failed) }
        ensures fault { IfErr result (λ fault. HasFailed self.old fault ⊎ MayNotStand self.old fault) }
    {
        if self.failed {
            return Err(WriterFault::Failed.into());
        }
        let Some(making) = self.making else {
            return Err(KeeperFault::Early);
        };
        let Some(end) = making.end else {
            return Err(KeeperFault::Early);
        };
        if !self.are_past(end) {
            return Err(KeeperFault::Early);
        }
        self.base = making.begin;
        self.making = None;
        Ok(())
    }

    /// Returns whether each log is synced past this timestamp.
    fn are_past(&self, time: u64) -> bool
        ensures { IsTrue result ↔ ArePast time self.now.logs }
    {
        self.logs.iter().all(|log| match log.stage.reach() {
            Some(reach) => time < reach,
            None => true,
        })
    }
}
