//! Begins the logs of new workers.
ghost use Rattle.std.specs.Prelude.{◌≡◌, ◌⊎◌, ◌+◌, ◌∷◌, ◌++◌, [], true, Some, Err, length, IfOk, IfErr, OnOk, OnErr};
ghost use Rattle.mt_record.specs.declared.feed.head.Head.{Head as HeadValue};
ghost use Rattle.mt_writer.specs.Journals.{NewFile, Begins, begun};
ghost use Rattle.mt_writer.specs.declared.writer_fault.WriterFault.TheVariants.{Failed};
ghost use Rattle.mt_laws.specs.Writing.{Server};
ghost use Rattle.mt_keeper.specs.Keeping.{Holds, numbered};
ghost use Rattle.mt_keeper.specs.Calling.{Steps, with_new_log, with_created};
ghost use Rattle.mt_keeper.specs.Filing.{workers_created, BeginsFile, HasFile};
ghost use Rattle.mt_keeper.specs.declared.keeper.Stage.TheVariants.{Coming};
ghost use Rattle.mt_keeper.specs.Refusals.{IsAt, HasFailed, IsNotComing, BeginsNone};
ghost use Rattle.mt_keeper.specs.declared.keeper_fault.KeeperFault.TheVariants as faults;

use crate::keeper::{Keeper, Log, Stage};
use crate::keeper_fault::KeeperFault;
use crate::segments::workers_created;
use mt_block::Header;
use mt_record::Segment;
use mt_words::Memory;
use mt_writer::{NewLog, WriterFault};
use std::alloc::Global;
use std::mem;

impl Keeper {
    /// Begins the log of a new worker, with a mark at the next stamp, and returns its number. Its file is to be created
    /// (`bytes`). Its header counts this worker and each worker of which a file was created. So if a crash leaves this file, it
    /// leaves files of as many workers as the header says. From now on acknowledgements wait for this log. Err: no log is
    /// begun.
    pub fn begin_log(&mut self, alloc: Global) -> Result<usize, KeeperFault>
        ensures step { (s : Server) → Holds self.old s → IfOk result (λ log. (log ≡ length (numbered s)) × Steps s (with_new_log s self.old.workers) self.new) }
        ensures file { IfOk result (BeginsFile self.old self.new (workers_created self.old.logs + 1)) }
        ensures err { OnErr result (self.new ≡ self.old) }
        ensures failed { self.old.failed ≡ true → result ≡ Err (faults.Writer Failed) }
        ensures fault { IfErr result (BeginsNone self.old) }
    {
        let mark = self.stamp()?;
        let worker = self.workers;
        let Some(workers) = worker.checked_add(1) else {
            return Err(WriterFault::Full.into());
        };
        let header = Header {
            salt: self.salt,
            worker,
            segment: 0,
            workers: workers_created(&self.logs).saturating_add(1),
            from: 0,
        };
        let new = NewLog::begin(alloc, header, mark)?;
        let log = self.logs.len();
        self.add(Segment { worker, number: 0 }, new)?;
        self.workers = workers;
        self.salt = self.salt.wrapping_add(1);
        Ok(log)
    }

    /// Notes that the file has its name, and that the folder is synced. From now on it may be written.
    pub fn created(&mut self, log: usize) -> Result<(), KeeperFault>
        ensures step { (s : Server) → Holds self.old s → OnOk result (Steps s (with_created s log) self.new) }
        ensures file { (new : NewFile) (head : HeadValue) → IsAt self.old log (Coming new) → Begins new head → OnOk result (HasFile self.new log (begun head new.mark) new.bytes) }
        ensures err { OnErr result (self.new ≡ self.old) }
        ensures failed { self.old.failed ≡ true → result ≡ Err (faults.Writer Failed) }
        ensures fault { IfErr result (λ fault. HasFailed self.old fault ⊎ IsNotComing self.old log fault) }
    {
        if self.failed {
            return Err(WriterFault::Failed.into());
        }
        let Some(log) = self.logs.get_mut(log) else {
            return Err(KeeperFault::Log);
        };
        let stage = mem::replace(&mut log.stage, Stage::Gone);
        let Stage::Coming(new) = stage else {
            log.stage = stage;
            return Err(KeeperFault::Log);
        };
        log.stage = Stage::Writing(new.created());
        Ok(())
    }

    /// Adds the first file of a log, which is to be created. Err: out of memory; nothing is added.
    pub(crate) fn add(&mut self, segment: Segment, new: NewLog) -> Result<(), Memory>
        ensures ok { OnOk result (self.new ≡ record self.old { logs = self.old.logs ++ record { segment = Some segment; from = 0; stage = Coming new } ∷ [] }) }
        ensures err { OnErr result (self.new ≡ self.old) }
    {
        self.logs.push(Log {
            segment: Some(segment),
            from: 0,
            stage: Stage::Coming(new),
        })?;
        Ok(())
    }
}
