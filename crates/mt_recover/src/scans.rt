//! Scans all logs and checkpoint parts. The scans of logs share a board with the least last timestamp so far. Each
//! drops the updates at or past that timestamp: they are too late to survive.
ghost use Rattle.std.specs.Prelude.{◌≡◌, ◌<◌, ◌≤◌, ◌++◌, [], ◌∷◌, map, length, max, All, IfOk, OnOk, option_to_list};
ghost use denote.Param.Send.{IsSend, IsSync};
ghost use Rattle.std.specs.Vec.Iter.{into_iter_items};
ghost use Rattle.mt_board.specs.Board.{nothing_noted};
ghost use Rattle.mt_recover.specs.Steps.Outcomes.{AreOutcomes, in_memory, read_parts};
ghost use Rattle.mt_recover.specs.Steps.Scanning.{AreGathered, HasScanned, IsFresh, log_jobs, part_jobs, log_in, part_in, logs_in, part_scans_in, AreDealt};

use crate::by_workers::{all_done, close, deal, gather, in_turn, on_threads, unzip};
use crate::{Inputs, Workers};
use mt_board::{Board, Pass};
use mt_scan::{LogScan, PartScan, Source, scan_by_workers, scan_bytes, scan_part, scan_shared};
use mt_words::{Fault, Memory};
use std::alloc::Global;
use std::collections::VecDeque;
use std::thread::Threads;
use std::vec::IntoIter;

/// The answers of the scans of logs and parts, each list in the order of their numbers.
#[derive(Drop)]
pub(crate) struct Outcomes {
    /// The scan of each log, or its fault.
    pub logs: Vec<Result<LogScan, Fault>>,
    /// The scan of each part, or its fault.
    pub parts: Vec<Result<PartScan, Fault>>,
}

impl Outcomes {
    /// Appends the answer of one more scan.
    fn add(&mut self, answer: Scanned) -> Result<(), Memory>
        ensures logs { OnOk result (self.new.logs.items ≡ self.old.logs.items ++ option_to_list (log_in answer)) }
        ensures parts { OnOk result (self.new.parts.items ≡ self.old.parts.items ++ option_to_list (part_in answer)) }
    {
        match answer {
            Scanned::Log(outcome) => self.logs.push(outcome)?,
            Scanned::Part(outcome) => self.parts.push(outcome)?,
        }
        Ok(())
    }
}

/// A source to scan, with the number of its log or part.
#[derive(Drop)]
enum ScanJob<S> {
    Log(usize, S),
    Part(usize, S),
}

/// The answer of the scan of a source.
#[derive(Drop)]
enum Scanned {
    Log(Result<LogScan, Fault>),
    Part(Result<PartScan, Fault>),
}

/// The sources that a worker scans, and its pass to the board of all scans.
type Share<S> = (VecDeque<ScanJob<S>>, Pass);

/// The answers of a worker's scans, and its pass.
type Scans = (IntoIter<Scanned>, Pass);

/// Scans the logs and then the parts, one after the other. Drops each source after its scan. Reads nothing if there is
/// no log. Drops the updates of a log at or past the least last timestamp of the logs scanned before it.
pub(crate) fn scan_one<S: Source>(alloc: Global, inputs: Inputs<S>) -> Result<Outcomes, Memory>
    ensures { IfOk result (AreOutcomes (map S.seen inputs.logs.items) (map S.seen inputs.parts.items)) }
{
    let jobs = jobs_of(alloc, inputs)?;
    let (board, shares) = share_out(alloc, jobs, 1)?;
    let scans = in_turn(
        alloc,
        shares,
        &|share: Share<S>| { scan_jobs(alloc, &board, share) },
    )?;
    gather_scans(alloc, board, all_done(alloc, scans)?)
}

/// Does the same as `scan_one`, but on several threads. If there are two workers or more a source, several threads scan
/// each log. Drops the updates of a log at or past the least last timestamp of the logs that any thread has scanned by
/// then.
pub(crate) fn scan_all<R: Threads + Sync, S: Source + Send>(
    rt: &R,
    alloc: Global,
    inputs: Inputs<S>,
    workers: Workers,
) -> Result<Outcomes, Memory>
    ensures { IfOk result (AreOutcomes (map S.seen inputs.logs.items) (map S.seen inputs.parts.items)) }
{
    let jobs = jobs_of(alloc, inputs)?;
    let (board, shares) = share_out(alloc, jobs, workers.count())?;
    let threads = workers.count() as usize / shares.len();
    let scans = on_threads(
        rt,
        shares,
        workers,
        &|share: Share<S>| -> Result<Scans, Memory>
            requires { IsSync R.row × IsSend S.row × IsFresh board share.1 }
            ensures { IfOk result (λ scans. HasScanned S.seen share.0.items (into_iter_items scans.0) share.1 scans.1) }
        { scan_on_threads(rt, alloc, threads, &board, share) },
    )?;
    gather_scans(alloc, board, all_done(alloc, scans)?)
}

/// Scans logs in memory, one after the other. There are no parts.
pub(crate) fn scan_memory(alloc: Global, logs: &[&[u8]]) -> Result<Outcomes, Memory>
    ensures { IfOk result (AreOutcomes (map in_memory (map (λ log. log.now) logs.now)) []) }
{
    let mut outcomes = Vec::with_capacity(alloc, logs.len())?;
    for (log, bytes) in logs.iter().enumerate() {
        outcomes.push(scan_bytes(alloc, bytes, log))?;
    }
    Ok(Outcomes {
        logs: outcomes,
        parts: Vec::new(alloc),
    })
}

/// Returns the jobs of all logs, and then of all parts; none if there is no log.
fn jobs_of<S: Drop>(alloc: Global, inputs: Inputs<S>) -> Result<Vec<ScanJob<S>>, Memory>
    ensures { IfOk result (λ jobs. jobs.items
        ≡ log_jobs 0 inputs.logs.items ++ part_jobs 0 (read_parts inputs.logs.items inputs.parts.items)) }
{
    let Inputs { logs, parts } = inputs;
    if logs.is_empty() {
        return Ok(Vec::new(alloc));
    }
    let logs = logs
        .into_iter()
        .enumerate()
        .map(|(number, source)| ScanJob::Log(number, source));
    let parts = parts
        .into_iter()
        .enumerate()
        .map(|(number, source)| ScanJob::Part(number, source));
    Ok(logs.chain(parts).collect(alloc)?)
}

/// Deals the jobs into shares, at most one for each worker, and gives each share a pass to a new board.
fn share_out<S: Drop>(
    alloc: Global,
    jobs: Vec<ScanJob<S>>,
    workers: u32,
) -> Result<(Board, Vec<Share<S>>), Memory>
    ensures dealt { IfOk result (λ shared. AreDealt jobs.items (map (λ share. share.0.items) shared.1.items)) }
    ensures fresh { IfOk result (λ shared. All (λ share. IsFresh shared.0 share.1) shared.1.items) }
    ensures some { IfOk result (λ shared. 0 < length shared.1.items) }
    ensures few { IfOk result (λ shared. length shared.1.items ≤ max 1 workers) }
    ensures many { IfOk result (λ shared. shared.0.passes ≡ length shared.1.items) }
{
    let dealt = deal(alloc, jobs, workers)?;
    let Ok((board, passes)) = Board::open(alloc, 0, dealt.len() as u32) else {
        return Err(Memory);
    };
    let shares = dealt.into_iter().zip(passes).collect(alloc)?;
    Ok((board, shares))
}

/// Scans the sources of a share, one after the other.
fn scan_jobs<S: Source>(alloc: Global, board: &Board, share: Share<S>) -> Result<Scans, Memory>
    requires { IsFresh board.now share.1 }
    ensures { IfOk result (λ scans. HasScanned S.seen share.0.items (into_iter_items scans.0) share.1 scans.1) }
{
    let (jobs, mut pass) = share;
    let mut answers = Vec::with_capacity(alloc, jobs.len())?;
    for job in Vec::from(jobs) {
        answers.push(scan(alloc, job, board, &mut pass))?;
    }
    Ok((answers.into_iter(), pass))
}

/// Scans the source of a job.
fn scan<S: Source>(alloc: Global, job: ScanJob<S>, board: &Board, pass: &mut Pass) -> Scanned
    requires board { pass.old.board ≡ board.now }
    requires noted { pass.old.noted ≤ nothing_noted }
    ensures { HasScanned S.seen (job ∷ []) (result ∷ []) pass.old pass.new }
{
    match job {
        ScanJob::Log(number, mut source) => {
            Scanned::Log(scan_shared(alloc, &mut source, number, board, pass))
        }
        ScanJob::Part(number, mut source) => Scanned::Part(scan_part(alloc, &mut source, number)),
    }
}

/// Does what `scan_jobs` does, on this many threads.
fn scan_on_threads<R: Threads + Sync, S: Source + Send>(
    rt: &R,
    alloc: Global,
    threads: usize,
    board: &Board,
    share: Share<S>,
) -> Result<Scans, Memory>
    requires { IsFresh board.now share.1 }
    ensures { IfOk result (λ scans. HasScanned S.seen share.0.items (into_iter_items scans.0) share.1 scans.1) }
{
    let (jobs, mut pass) = share;
    let mut answers = Vec::with_capacity(alloc, jobs.len())?;
    for job in Vec::from(jobs) {
        answers.push(scan_by_threads(rt, alloc, threads, job, board, &mut pass))?;
    }
    Ok((answers.into_iter(), pass))
}

/// Does what `scan` does, but several threads, if there are, scan a log.
fn scan_by_threads<R: Threads + Sync, S: Source + Send>(
    rt: &R,
    alloc: Global,
    threads: usize,
    job: ScanJob<S>,
    board: &Board,
    pass: &mut Pass,
) -> Scanned
    requires board { pass.old.board ≡ board.now }
    requires noted { pass.old.noted ≤ nothing_noted }
    ensures { HasScanned S.seen (job ∷ []) (result ∷ []) pass.old pass.new }
{
    if threads < 2 {
        return scan(alloc, job, board, pass);
    }
    match job {
        ScanJob::Log(number, source) => Scanned::Log(scan_by_workers(
            rt, alloc, source, number, threads, board, pass,
        )),
        part => scan(alloc, part, board, pass),
    }
}

/// Gathers the answers of all workers, and closes the board.
fn gather_scans(alloc: Global, board: Board, scans: Vec<Scans>) -> Result<Outcomes, Memory>
    requires some { 0 < length scans.items }
    requires boards { All (λ scans. scans.1.board ≡ board) scans.items }
    ensures { IfOk result (AreGathered board (map (λ scans. into_iter_items scans.0) scans.items) (map (λ scans. scans.1) scans.items)) }
{
    let (answers, passes) = unzip(alloc, scans)?;
    close(board, passes);
    outcomes_of(alloc, gather(alloc, answers)?)
}

/// Separates the answers of logs from those of parts.
fn outcomes_of(alloc: Global, scanned: Vec<Scanned>) -> Result<Outcomes, Memory>
    ensures { IfOk result (λ outcomes. (outcomes.logs.items ≡ logs_in scanned.items) × (outcomes.parts.items ≡ part_scans_in scanned.items)) }
{
    let mut outcomes = Outcomes {
        logs: Vec::new(alloc),
        parts: Vec::new(alloc),
    };
    for answer in scanned {
        outcomes.add(answer)?;
    }
    Ok(outcomes)
}
