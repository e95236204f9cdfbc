//! Deletes segments that recovery does not need.
ghost use Rattle.std.specs.Prelude.{◌≡◌, ◌⊎◌, ◌↔◌, ◌<◌, ℕ, length, IsTrue, true, false, None, Err, IfSome, IfNone, IfErr, OnOk, OnErr};
ghost use Rattle.mt_writer.specs.declared.writer_fault.WriterFault.TheVariants.{Failed};
ghost use Rattle.mt_laws.specs.Writing.{Server};
ghost use Rattle.mt_keeper.specs.Keeping.{Holds, LetsGo, MayGo};
ghost use Rattle.mt_keeper.specs.Calling.{Steps, with_going, with_gone};
ghost use Rattle.mt_keeper.specs.Refusals.{HasFailed, IsNotGoing};
ghost use Rattle.mt_keeper.specs.declared.keeper_fault.KeeperFault.TheVariants as faults;

use crate::keeper::{Keeper, Log, Stage};
use crate::keeper_fault::KeeperFault;
use mt_record::Segment;
use mt_writer::WriterFault;

impl Keeper {
    /// Returns the number of a segment whose file is to be deleted, if there is one: the lowest of its worker, with no update
    /// from the begin of the checkpoint on that the server stands on. Then the folder is synced, and `deleted` is called.
    pub fn next_to_delete(&mut self) -> Option<usize>
        ensures step { (s : Server) → Holds self.old s → IfSome result (λ log. Steps s (with_going s log) self.new) }
        ensures none { IfNone result (self.new ≡ self.old) }
        ensures failed { self.old.failed ≡ true → result ≡ None }
        ensures all { IfNone result ((number : ℕ) → MayGo self.old number → self.old.failed ≡ false → ⊥) }
    {
        if self.failed {
            return None;
        }
        match self.first_to_go() {
            None => None,
            Some(log) => {
                self.logs[log].stage = Stage::Going;
                Some(log)
            }
        }
    }

    /// Returns the first file that may be deleted.
    fn first_to_go(&self) -> Option<usize>
        ensures some { IfSome result (MayGo self.now) }
        ensures within { IfSome result (λ log. log < length self.now.logs) }
        ensures none { IfNone result ((number : ℕ) → MayGo self.now number → ⊥) }
    {
        for log in 0..self.logs.len() {
            if self.may_go(log) {
                return Some(log);
            }
        }
        None
    }

    /// Returns whether the file may be deleted.
    fn may_go(&self, log: usize) -> bool
        ensures { IsTrue result ↔ MayGo self.now log }
    {
        let Some(log) = self.logs.get(log) else {
            return false;
        };
        let Some(segment) = log.segment else {
            return false;
        };
        let Stage::Followed(last) = log.stage else {
            return false;
        };
        last < self.base
            && self
                .logs
                .iter()
                .all(|other| other.lets_go(self.base, segment))
    }

    /// Notes that the file is deleted, and that the folder is synced.
    pub fn deleted(&mut self, log: usize) -> Result<(), KeeperFault>
        ensures step { (s : Server) → Holds self.old s → OnOk result (Steps s (with_gone s log) self.new) }
        ensures err { OnErr result (self.new ≡ self.old) }
        ensures failed { self.old.failed ≡ true → result ≡ Err (faults.Writer Failed) }
        ensures fault { IfErr result (λ fault. HasFailed self.old fault ⊎ IsNotGoing self.old log fault) }
    {
        if self.failed {
            return Err(WriterFault::Failed.into());
        }
        let Some(log) = self.logs.get_mut(log) else {
            return Err(KeeperFault::Log);
        };
        let Stage::Going = log.stage else {
            return Err(KeeperFault::Log);
        };
        *log = Log {
            segment: None,
            from: 0,
            stage: Stage::Gone,
        };
        Ok(())
    }
}

impl Log {
    /// Returns whether this segment lets the old one go.
    fn lets_go(&self, begin: u64, old: Segment) -> bool
        ensures { IsTrue result ↔ LetsGo begin old self.now }
    {
        let Some(segment) = self.segment else {
            return true;
        };
        if segment.worker != old.worker || segment.number == old.number {
            return true;
        }
        if segment.number < old.number {
            return false;
        }
        if let Stage::Coming(_) = self.stage {
            // A crash may lose it, and then the old one would be the last.
            return false;
        }
        segment.number - 1 != old.number || self.from <= begin
    }
}
