//! Checks logs and checkpoint parts: what is in each of them, and where recovery would begin. No store is made.
ghost use Rattle.std.specs.Prelude.{ℕ, List, map, IfOk, IfErr};
ghost use Rattle.std.specs.List.{AllZip};
ghost use Rattle.mt_scan.specs.Sources.{Seen};
ghost use Rattle.mt_recover.specs.Check.{AllFrom, IsFrontSeen, IsLogChecked, IsPartOutcome};
ghost use Rattle.mt_recover.specs.Inputs.{IsAnsweredBy};
ghost use Rattle.mt_recover.specs.Steps.Outcomes.{IsFrontOutcome};

use crate::by_workers::{all_done, by_workers, in_turn, numbered};
use crate::workers::Workers;
use mt_record::LogFront;
use mt_scan::{LogCheck, PartScan, Source, check_log, scan_part};
use mt_words::{Fault, Memory};
use std::alloc::Global;
use std::thread::Threads;

/// Checks each log from its source, as `check_log` does. `limit` is the timestamp from which updates count as late.
/// Needs a chunk of memory a worker. Err: out of memory.
pub fn check_logs<R: Threads + Sync, S: Source + Send>(
    rt: &R,
    alloc: Global,
    logs: Vec<S>,
    workers: Workers,
    limit: u64,
) -> Result<Vec<Result<LogCheck, Fault>>, Memory>
    ensures { IfOk result (λ checks. AllFrom (IsLogChecked limit) 0 (map S.seen logs.items) checks.items) }
{
    by_workers(
        rt,
        alloc,
        numbered(alloc, logs)?,
        workers,
        &|(log, source): (usize, S)| -> Result<LogCheck, Fault>
            ensures { IsLogChecked limit log (S.seen source) result }
        {
            let mut source = source;
            check_log(alloc, &mut source, log, limit)
        },
    )
}

/// Scans each part from its source, as `scan_part` does. Err: out of memory.
pub fn check_parts<R: Threads + Sync, S: Source + Send>(
    rt: &R,
    alloc: Global,
    parts: Vec<S>,
    workers: Workers,
) -> Result<Vec<Result<PartScan, Fault>>, Memory>
    ensures { IfOk result (λ scans. AllFrom IsPartOutcome 0 (map S.seen parts.items) scans.items) }
{
    by_workers(
        rt,
        alloc,
        numbered(alloc, parts)?,
        workers,
        &|(part, source): (usize, S)| -> Result<PartScan, Fault>
            ensures { IsPartOutcome part (S.seen source) result }
        {
            let mut source = source;
            scan_part(alloc, &mut source, part)
        },
    )
}

/// Returns the fronts of the checked logs. Err: the fault of the least log that has one, or out of memory.
pub fn fronts_of(
    alloc: Global,
    checks: Vec<Result<LogCheck, Fault>>,
) -> Result<Vec<LogFront>, Fault>
    ensures fronts { IfOk result (λ fronts. (limit : ℕ) (logs : List Seen) → AllFrom (IsLogChecked limit) 0 logs checks.items → AllZip IsFrontSeen logs fronts.items) }
    ensures fault { (limit : ℕ) (logs parts : List Seen) → AllFrom (IsLogChecked limit) 0 logs checks.items → IfErr result (IsAnsweredBy (λ seen. seen) logs parts) }
{
    let fronts = in_turn(
        alloc,
        numbered(alloc, checks)?,
        &|(log, check): (usize, Result<LogCheck, Fault>)| -> Result<LogFront, Fault>
            ensures { (limit : ℕ) (seen : Seen) → IsLogChecked limit log seen check → IsFrontOutcome log seen result }
        { front_of(log, check) },
    )?;
    all_done(alloc, fronts)
}

/// Returns the front of the checked log with this number.
fn front_of(log: usize, check: Result<LogCheck, Fault>) -> Result<LogFront, Fault>
    ensures { (limit : ℕ) (seen : Seen) → IsLogChecked limit log seen check → IsFrontOutcome log seen result }
{
    match check {
        Ok(check) => check.sound_front(log),
        Err(fault) => Err(fault),
    }
}
