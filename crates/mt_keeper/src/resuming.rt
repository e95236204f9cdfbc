//! Goes on with the logs that a crash left.
ghost use Rattle.std.specs.Prelude.{◌≡◌, ◌≢◌, ◌⊎◌, ◌+◌, ◌^◌, ◌↔◌, ℕ, List, length, map, IsTrue, IsSomeAnd, IfOk, IfErr, OnErr};
ghost use Rattle.std.specs.List.{list_any};
ghost use Rattle.mt_scan.specs.Segments.{is_earlier as is_earlier_in};
ghost use Rattle.mt_writer.specs.Framing.{HasMark};
ghost use Rattle.mt_writer.specs.declared.writer_fault.WriterFault.TheVariants.{Full, Memory as MemoryFault};
ghost use Rattle.mt_laws.specs.Writing.{Server, Called};
ghost use Rattle.mt_keeper.specs.Keeping.{latest_in};
ghost use Rattle.mt_keeper.specs.Restarting.{without_logs, IsBack, IsNoLog, HasSame, IsAdded, AreAdded, AddsNone, workers_with, segments_of, among, going_with, AreFilesAfter, Restarts};
ghost use Rattle.mt_keeper.specs.declared.resuming.Found.{Found as FoundValue};
ghost use Rattle.mt_keeper.specs.declared.keeper_fault.KeeperFault.TheVariants as faults;

use crate::keeper::{Keeper, Log, Stage};
use crate::keeper_fault::KeeperFault;
use mt_block::header_at;
use mt_record::{FeedFault, Segment, log_front};
use mt_scan::{is_earlier, is_same};
use mt_writer::{LogWriter, WriterFault};
use std::alloc::Global;
use std::marker::Model;

/// What recovery found, as its report has it.
#[derive(Clone, Copy)]
pub struct Found {
    /// The number of log files.
    pub logs: usize,
    /// The cutoff: the next stamp is at least that, or 1 if that is 0.
    pub cutoff: u64,
    /// The greatest version of all complete records, late ones included, and of the entries of the chosen checkpoint: the next
    /// stamp is above it.
    pub version: u64,
    /// Where the chosen checkpoint begins, or 0.
    pub begin: u64,
}

/// The logs that a crash left, with which a server goes on. Each was resumed (`resume_log` of `mt_record`), and its file
/// replaced.
#[derive(Drop)]
pub struct Restart {
    found: Found,
    /// All logs are written, whether or not a later segment of theirs is there. The clock is one below the cutoff, or 0.
    keeper: Keeper,
}

impl Model for Restart {
    ghost use Rattle.mt_keeper.specs.Restarting.{Resuming};

    ghost Value = { Resuming };

    ghost view = { λ r. record { found = r.found; keeper = r.keeper } };
}

impl Restart {
    /// Begins without a log. `number` is the greatest number of a part in the folder, or 0. `salt` is a random number.
    pub fn new(alloc: Global, found: Found, number: u32, salt: u64) -> Restart
        ensures { result ≡ without_logs found number salt }
    {
        Restart {
            found,
            keeper: Keeper {
                clock: found.cutoff.saturating_sub(1),
                logs: Vec::new(alloc),
                workers: 0,
                base: found.begin,
                making: None,
                next: number.saturating_add(1),
                salt,
                failed: false,
            },
        }
    }

    /// Adds the log of these bytes, and returns its number. Err: no log is added. `Log`: a writer may not go on with the
    /// log (`LogWriter::resumed`), or it ends past the cutoff, or was ended, or is a segment that was added. `Full`: no
    /// number is left for another worker.
    pub fn add(&mut self, alloc: Global, bytes: &[u8]) -> Result<usize, KeeperFault>
        ensures number { IfOk result (λ number. number ≡ length self.old.keeper.logs) }
        ensures added { IfOk result (λ number. IsAdded self.old bytes.now self.new) }
        ensures err { OnErr result (self.new ≡ self.old) }
        ensures fault { IfErr result (AddsNone self.old.keeper bytes.now) }
    {
        let log = read_back(alloc, bytes, self.keeper.clock)?;
        if has_same(&self.keeper.logs, log.segment) {
            return Err(KeeperFault::Log);
        }
        let workers = next_worker(self.keeper.workers, log.segment)?;
        if self.keeper.logs.reserve(1).is_err() {
            return Err(WriterFault::Memory.into());
        }
        let number = self.keeper.logs.len();
        self.keeper.logs.push_reserved(log);
        self.keeper.workers = workers;
        Ok(number)
    }

    /// Returns the keeper of these logs. The newest segment of each worker may be written, and so may each log that is no
    /// segment. The next stamp is at least the cutoff, and above the greatest version that recovery found. Err: not as many
    /// logs were added as recovery had; nothing changed.
    pub fn done(self) -> Result<Keeper, Restart>
        ensures value { IfOk result (λ keeper. keeper ≡ going_with self) }
        ensures all { IfOk result (λ keeper. length self.keeper.logs ≡ self.found.logs) }
        ensures early { IfErr result (λ restart. (restart ≡ self) × (length self.keeper.logs ≢ self.found.logs)) }
        ensures restarts { (s : Server) (found : FoundValue) (number salt : ℕ) (files : List (List ℕ)) → Called s → (of : AreFilesAfter s found.cutoff found.begin files) →
            AreAdded (without_logs found number salt) files self → IfOk result (Restarts s found.cutoff found.begin files of) }
    {
        if self.keeper.logs.len() != self.found.logs {
            return Err(self);
        }
        let Restart { found, mut keeper } = self;
        keeper.clock = keeper.clock.max(found.version);
        settle(&mut keeper.logs);
        Ok(keeper)
    }
}

impl Stage {
    /// Returns the last timestamp of the file.
    fn last(&self) -> u64
        ensures { result ≡ latest_in self.now }
    {
        match self {
            Stage::Coming(new) => new.mark(),
            Stage::Writing(writer) => writer.last(),
            Stage::Followed(last) => *last,
            Stage::Going | Stage::Gone => 0,
        }
    }
}

/// Notes that the logs that a later segment follows are written no more.
fn settle(logs: &mut [Log])
    ensures { logs.new ≡ map (among (segments_of logs.old)) logs.old }
{
    for i in 0..logs.len() {
        if has_later(logs, logs[i].segment) {
            let last = logs[i].stage.last();
            logs[i].stage = Stage::Followed(last);
        }
    }
}

/// Returns the log of these bytes, which may be written. Err: out of memory, or the bytes are no log that goes on.
fn read_back(alloc: Global, bytes: &[u8], clock: u64) -> Result<Log, KeeperFault>
    ensures ok { IfOk result (IsBack clock bytes.now) }
    ensures fault { IfErr result (λ fault. (fault ≡ faults.Log) × IsNoLog clock bytes.now ⊎ (fault ≡ faults.Writer MemoryFault)) }
{
    let front = match log_front(alloc, bytes) {
        Ok(front) => front,
        Err(FeedFault::Memory) => return Err(WriterFault::Memory.into()),
        Err(_) => return Err(KeeperFault::Log),
    };
    let size = bytes.len() as u64;
    let Some(writer) = LogWriter::resumed(alloc, front, mark_at(bytes), size) else {
        return Err(KeeperFault::Log);
    };
    if front.latest == u64::MAX || front.latest.saturating_sub(1) > clock {
        return Err(KeeperFault::Log);
    }
    Ok(Log {
        segment: front.head.segment,
        from: front.head.from,
        stage: Stage::Writing(writer),
    })
}

/// Returns the mark of the file, if it has blocks.
fn mark_at(bytes: &[u8]) -> Option<u32>
    ensures { HasMark result bytes.now }
{
    let (header, _) = header_at(bytes)?;
    Some(header.mark())
}

/// Returns the number of the next worker, with this segment. Err: no number is left.
fn next_worker(workers: u32, segment: Option<Segment>) -> Result<u32, KeeperFault>
    ensures ok { IfOk result (λ next. next ≡ workers_with workers segment) }
    ensures fault { IfErr result (λ fault. (fault ≡ faults.Writer Full) × IsSomeAnd segment (λ segment. segment.worker + 1 ≡ 2 ^ 32)) }
{
    let Some(segment) = segment else {
        return Ok(workers);
    };
    let Some(next) = segment.worker.checked_add(1) else {
        return Err(WriterFault::Full.into());
    };
    Ok(workers.max(next))
}

/// Returns whether one of the logs is this segment.
fn has_same(logs: &[Log], segment: Option<Segment>) -> bool
    ensures { IsTrue result ↔ HasSame segment logs.now }
{
    logs.iter().any(|other| is_same(other.segment, segment))
}

/// Returns whether a later segment of the same log is there.
fn has_later(logs: &[Log], segment: Option<Segment>) -> bool
    ensures { result ≡ list_any (λ other. is_earlier_in segment other.segment) logs.now }
{
    logs.iter().any(|other| is_earlier(segment, other.segment))
}
