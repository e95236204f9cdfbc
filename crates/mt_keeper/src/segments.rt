//! Follows a segment of a log by the next one.
ghost use Rattle.std.specs.Prelude.{◌≡◌, ◌⊎◌, ◌+◌, ◌-◌, ◌<◌, ◌^◌, min, true, Some, None, Err, length, slice_get, IfOk, IfErr, OnErr};
ghost use Rattle.mt_record.specs.Encoding.{segment_head};
ghost use Rattle.mt_writer.specs.Journals.{Journal, NewFile, Keeps, Begins, IsSealed};
ghost use Rattle.mt_writer.specs.Refusing.{MayNotSeal};
ghost use Rattle.mt_writer.specs.declared.writer_fault.WriterFault.TheVariants as writer_faults;
ghost use Rattle.mt_laws.specs.Writing.{Server, Stands};
ghost use Rattle.mt_keeper.specs.declared.keeper.Log.{Log as Entry};
ghost use Rattle.mt_keeper.specs.Keeping.{Holds, numbered, IsFollowedBy};
ghost use Rattle.mt_keeper.specs.Calling.{StepsToNext};
ghost use Rattle.mt_keeper.specs.Filing.{has_created, workers_created, BeginsFile};
ghost use Rattle.mt_keeper.specs.Refusals.{HasFailed, HasNoNext, IsNotWhole, IsUnsealable};
ghost use Rattle.mt_keeper.specs.declared.keeper.Stage.TheVariants.{Coming};
ghost use Rattle.mt_keeper.specs.declared.keeper_fault.KeeperFault.TheVariants as faults;

use crate::keeper::{Keeper, Log, Stage};
use crate::keeper_fault::KeeperFault;
use mt_block::Header;
use mt_record::Segment;
use mt_writer::{LogWriter, NewLog, WriterFault};
use std::alloc::Global;
use std::mem;

impl Keeper {
    /// Returns the segment that the file is, for its name. None: it is no segment, or it is deleted, or there is no such log.
    pub fn segment(&self, log: usize) -> Option<Segment>
        ensures value { (entry : Entry) → slice_get self.now.logs log ≡ Some entry → result ≡ entry.segment }
        ensures none { slice_get self.now.logs log ≡ None → result ≡ None }
    {
        let Some(log) = self.logs.get(log) else {
            return None;
        };
        log.segment
    }

    /// Seals the log, which is the newest segment of a worker, and begins the next one, whose number it returns. The next
    /// one's file is to be created (`bytes`). No record may be appended until then. Err: the log is as it was. `Early`: not
    /// all of its records are synced.
    pub fn begin_segment(&mut self, alloc: Global, log: usize) -> Result<usize, KeeperFault>
        ensures step { (s : Server) → Stands s → Holds self.old s → IfOk result (λ next. (next ≡ length (numbered s)) × StepsToNext s log self.new) }
        ensures file { IfOk result (BeginsFile self.old self.new (workers_created self.old.logs)) }
        ensures err { OnErr result (self.new ≡ self.old) }
        ensures failed { self.old.failed ≡ true → result ≡ Err (faults.Writer writer_faults.Failed) }
        ensures fault { (s : Server) → Holds self.old s → IfErr result (λ fault.
            HasFailed self.old fault ⊎ (HasNoNext (slice_get self.old.logs log) fault ⊎ IsNotWhole s log fault)) }
    {
        if self.failed {
            return Err(WriterFault::Failed.into());
        }
        if self.logs.reserve(1).is_err() {
            return Err(WriterFault::Memory.into());
        }
        let number = self.logs.len();
        let salt = self.salt;
        let workers = workers_created(&self.logs);
        let Some(log) = self.logs.get_mut(log) else {
            return Err(KeeperFault::Log);
        };
        match log.follow(alloc, salt, workers) {
            Ok(next) => {
                self.logs.push_reserved(next);
                self.salt = salt.wrapping_add(1);
                Ok(number)
            }
            Err(fault) => Err(fault),
        }
    }
}

impl Log {
    /// Returns whether this is the newest file of a worker of which a file was created: it is written, or it is to follow a
    /// segment that was.
    fn has_created(&self) -> bool
        ensures { result ≡ has_created self.now }
    {
        match (&self.stage, self.segment) {
            (Stage::Writing(_), _) => true,
            (Stage::Coming(_), Some(segment)) => segment.number > 0,
            _ => false,
        }
    }

    /// Seals the file, and begins the next segment, with this salt, whose header says this number of workers. Err: the log is as
    /// it was.
    fn follow(&mut self, alloc: Global, salt: u64, workers: u32) -> Result<Log, KeeperFault>
        ensures ok { IfOk result (IsFollowedBy self.old self.new) }
        ensures header { IfOk result (λ next. (new : NewFile) × (next.stage ≡ Coming new) × (new.header.salt ≡ salt) × (new.header.workers ≡ workers)) }
        ensures err { OnErr result (self.new ≡ self.old) }
        ensures fault { IfErr result (λ fault. HasNoNext (Some self.old) fault ⊎ IsUnsealable self.old fault) }
    {
        let Some(segment) = self.segment else {
            return Err(KeeperFault::Log);
        };
        let stage = mem::replace(&mut self.stage, Stage::Gone);
        let Stage::Writing(writer) = stage else {
            self.stage = stage;
            return Err(KeeperFault::Log);
        };
        let header = Header {
            salt,
            worker: segment.worker,
            segment: segment.number,
            workers,
            from: writer.last(),
        };
        match next_of(alloc, writer, header) {
            Ok(new) => {
                let from = new.mark();
                self.stage = Stage::Followed(from);
                let number = segment.number + 1;
                Ok(Log {
                    segment: Some(Segment { number, ..segment }),
                    from,
                    stage: Stage::Coming(new),
                })
            }
            Err((fault, writer)) => {
                self.stage = Stage::Writing(writer);
                Err(fault)
            }
        }
    }
}

/// Counts the workers of which a file was created, up to 2^32 - 1. Each has one newest file.
pub(crate) fn workers_created(logs: &[Log]) -> u32
    ensures { result ≡ min (workers_created logs.now) (2 ^ 32 - 1) }
{
    let count = logs.iter().filter(|log| log.has_created()).count();
    count.min(u32::MAX as usize) as u32
}

/// Seals the file of this header's segment, and begins the next one. Err: the writer as it was.
fn next_of(
    alloc: Global,
    writer: LogWriter,
    header: Header,
) -> Result<NewLog, (KeeperFault, LogWriter)>
    requires { header.from ≡ writer.last }
    ensures begins { IfOk result (λ new. Begins new (segment_head new.mark header.worker (header.segment + 1)) × (header.segment + 1 < 2 ^ 32)) }
    ensures last { IfOk result (λ new. new.mark ≡ writer.last) }
    ensures header { IfOk result (λ new. (new.header.salt ≡ header.salt) × (new.header.workers ≡ header.workers)) }
    ensures whole { (j : Journal) → Keeps writer j → j.head.segment ≡ Some (record { worker = header.worker; number = header.segment }) →
        IfOk result (λ new. IsSealed new.mark header.worker header.segment j) }
    ensures err { IfErr result (λ err. err.1 ≡ writer) }
    ensures fault { IfErr result (λ err. (err.0 ≡ faults.Writer writer_faults.Full) × (header.segment + 1 ≡ 2 ^ 32)
        ⊎ ((err.0 ≡ faults.Writer writer_faults.Memory) ⊎ (err.0 ≡ faults.Early) × MayNotSeal writer)) }
{
    let Some(segment) = header.segment.checked_add(1) else {
        return Err((WriterFault::Full.into(), writer));
    };
    let last = writer.last();
    match NewLog::begin(alloc, Header { segment, ..header }, last) {
        Err(_) => Err((WriterFault::Memory.into(), writer)),
        Ok(new) => match writer.seal() {
            Err(writer) => Err((KeeperFault::Early, writer)),
            Ok(_) => Ok(new),
        },
    }
}
