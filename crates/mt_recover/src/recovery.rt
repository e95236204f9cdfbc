//! Recovery from sources, on one thread or by workers, and from logs in memory.
ghost use Rattle.std.specs.Prelude.{◌≡◌, [], List, ℕ, map, IfOk, IfErr, OnOk};
ghost use Rattle.mt_scan.specs.Sources.{Seen};
ghost use Rattle.mt_recover.specs.Inputs.{IsRecoveryFrom};
ghost use Rattle.mt_recover.specs.Steps.Outcomes.{AreOutcomes, AreAllOk};
ghost use Rattle.mt_recover.specs.Steps.Preparing.{IsFound, IsFoundOf};
ghost use Rattle.mt_recover.specs.Report.{IsRecoveredOf, Outcome};
ghost use Rattle.mt_recover.specs.Verdict.{IsVerdictOrMemory};

use crate::by_workers::{all_done, in_turn};
use crate::dividing::{DivideTask, DividedTask, Dividing};
use crate::found::{Found, find};
use crate::prepared::Prepared;
use crate::replaying::{ReplayTask, ReplayedTask};
use crate::report::Report;
use crate::scans::{Outcomes, scan_memory, scan_one};
use crate::store::Store;
use crate::workers::{Cutting, Gate, Workers};
use mt_replay::{MOST_PIECES, Pieces};
use mt_scan::Source;
use mt_words::{Fault, Memory};
use std::alloc::Global;
use std::marker::Model;
use std::thread::Threads;

/// The sources of the logs and of the checkpoint parts. The number of a log is its position in its list, and so for
/// parts. To use sources of several kinds together, put them into an enum that is a `Source`.
#[derive(Debug, Drop)]
pub struct Inputs<S> {
    /// The sources of the log files: one for each log, and for a log in segments one for each segment.
    pub logs: Vec<S>,
    /// The sources of the checkpoint parts, in any order.
    pub parts: Vec<S>,
}

/// A recovered store and its report.
#[derive(Drop)]
pub struct Recovered {
    store: Store,
    report: Report,
}

impl Model for Recovered {
    ghost Value = { Outcome };

    ghost view = { λ r. record { store = r.store; report = r.report } };
}

impl Recovered {
    /// Puts together a store and its report.
    pub(crate) fn of(store: Store, report: Report) -> Recovered
        ensures { result ≡ record { store = store; report = report } }
    {
        Recovered { store, report }
    }

    /// Returns the store.
    pub fn store(&self) -> &Store
        ensures { result.now ≡ self.now.store }
    {
        &self.store
    }

    /// Returns the report.
    pub fn report(&self) -> &Report
        ensures { result.now ≡ self.now.report }
    {
        &self.report
    }

    /// Returns the store alone.
    pub fn into_store(self) -> Store
        ensures { result ≡ self.store }
    {
        self.into_parts().0
    }

    /// Returns the store and the report.
    pub fn into_parts(self) -> (Store, Report)
        ensures store { result.0 ≡ self.store }
        ensures report { result.1 ≡ self.report }
    {
        let Recovered { store, report } = self;
        (store, report)
    }
}

/// Recovers the store of the logs and checkpoint parts that the sources have, and its report, on one thread. If there
/// is a valid checkpoint that ends below the cutoff, replays the logs over the last such checkpoint, from where it
/// begins. A broken part is not a fault. Scans each log once, in the order of the list, and then each part. Reads
/// nothing if there is no log. No source outlives the call.
///
/// An Err is the first of these that holds:
/// - `NoLogs`, if there is no log;
/// - the fault of the first log that has one: a fault of its bytes, or `Source` if its source failed;
/// - `Doubled` of the first log that is the same segment as a log before it;
/// - `Torn` of the first log that is torn although a later segment of its worker's log is there;
/// - `PartSource` of the first part whose source failed;
/// - `Gap` of the first log with a gap.
///
/// Or it is `Memory`, if an allocation fails. `Source` and `PartSource` never blame a steady source. If a source does
/// not report its bytes, the contract says only that it had some bytes.
pub fn recover_one<S: Source>(alloc: Global, inputs: Inputs<S>) -> Result<Recovered, Fault>
    ensures { IsRecoveryFrom S.seen inputs.logs.items inputs.parts.items result }
{
    let outcomes = scan_one(alloc, inputs)?;
    recover_scanned(alloc, outcomes)
}

/// Recovers the same store and report as `recover_one`, with these workers and the keys cut into pieces. Neither the
/// workers nor the cuts change the result. A worker takes the next piece that is left, replays it, and frees its updates.
/// The workers run by fork and join, each in a thread of its own if one can be made.
///
/// Err: the same as for `recover_one`, whichever worker ends first. All logs and parts are scanned before a fault is
/// named.
pub fn recover<R: Threads + Sync, S: Source + Send, G: Gate>(
    rt: &R,
    alloc: Global,
    inputs: Inputs<S>,
    workers: Workers,
    cutting: Cutting,
    gate: &G,
) -> Result<Recovered, Fault>
    ensures { IsRecoveryFrom S.seen inputs.logs.items inputs.parts.items result }
{
    let prepared = Prepared::from_sources(rt, alloc, inputs, workers, cutting)?;
    Ok(prepared.replay_by_workers(rt, alloc, workers, gate)?)
}

/// Recovers the store of the logs that have these bytes, without a checkpoint, and its report, on one thread. The
/// number of a log is its position in the list. Err: the one fault of the logs, or `Memory` if an allocation fails.
pub fn recover_logs(alloc: Global, logs: &[&[u8]]) -> Result<Recovered, Fault>
    ensures recovered { IfOk result (IsRecoveredOf (map (λ log. log.now) logs.now) []) }
    ensures fault { IfErr result (IsVerdictOrMemory (map (λ log. log.now) logs.now) []) }
{
    let outcomes = scan_memory(alloc, logs)?;
    recover_scanned(alloc, outcomes)
}

/// Recovers from these answers of the scans, on one thread.
pub(crate) fn recover_scanned(alloc: Global, outcomes: Outcomes) -> Result<Recovered, Fault>
    requires { (logs parts : List Seen) × AreOutcomes logs parts outcomes }
    ensures recovery { (logs parts : List Seen) → AreOutcomes logs parts outcomes → IsRecoveryFrom (λ seen. seen) logs parts result }
    ensures whole { OnOk result (AreAllOk outcomes) }
{
    let found = find(alloc, outcomes)?;
    Ok(recover_found(alloc, found)?)
}

/// Recovers the store and the report from what was found, on one thread, which does all tasks in turn.
fn recover_found(alloc: Global, found: Found) -> Result<Recovered, Memory>
    requires { IsFound found }
    ensures { (logs parts : List (List ℕ)) → IsFoundOf logs parts found → IfOk result (IsRecoveredOf logs parts) }
{
    let one = Workers::new(1).unwrap();
    let most = Pieces::new(MOST_PIECES).unwrap();
    let (dividing, tasks) = Dividing::of(alloc, found, one, most)?;
    let divided = in_turn(
        alloc,
        tasks,
        &|task: DivideTask| -> Result<DividedTask, Memory>
            ensures { IfOk result (λ done. done ≡ task) }
        { task.work(alloc) },
    )?;
    let (replaying, tasks) = dividing.replay(alloc, all_done(alloc, divided)?, one)?;
    let replayed = in_turn(
        alloc,
        tasks,
        &|task: ReplayTask| -> Result<ReplayedTask, Memory>
            ensures { IfOk result (λ done. done ≡ task) }
        { task.work(alloc) },
    )?;
    let done = all_done(alloc, replayed)?;
    replaying.finish(alloc, done)
}
