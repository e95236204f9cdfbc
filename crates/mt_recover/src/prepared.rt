//! The survivors and the counts that are prepared before replay.
ghost use Rattle.std.specs.Prelude.{◌≡◌, ◌<◌, ◌+◌, ◌^◌, List, ℕ, length, IfOk, IfErr};
ghost use Rattle.std.specs.Option.{option_map};
ghost use Rattle.mt_words.specs.Walks.{IsMap, joined};
ghost use Rattle.mt_scan.specs.Choosing.{checkpoint_in};
ghost use Rattle.mt_recover.specs.Recovery.{entry_updates};
ghost use Rattle.mt_replay.specs.Cuts.{AreCuts};
ghost use Rattle.mt_replay.specs.Pieces.{IsPiece};
ghost use Rattle.mt_replay.specs.Walk.{IsWalk};
ghost use Rattle.mt_tree.specs.Borders.{layer_walk};
ghost use Rattle.mt_recover.specs.Inputs.{IsAnsweredBy, OfSources};
ghost use Rattle.mt_recover.specs.Job.{AreCutBy};
ghost use Rattle.mt_recover.specs.Prepared.{IsMadeOf, IsPreparedOf, PreparedView};
ghost use Rattle.mt_recover.specs.Steps.Preparing.{IsDivisionOf, IsFound, IsFoundOf};

use crate::Workers;
use crate::by_workers::{all_done, on_threads};
use crate::dividing::{Division, divide};
use crate::found::{Found, find};
use crate::recovery::{Inputs, Recovered};
use crate::replaying::{ReplayTask, ReplayedTask, Replaying};
use crate::report::Report;
use crate::scans::scan_all;
use crate::store::Store;
use crate::workers::{Cutting, Gate};
use mt_replay::{Divided, SortedUpdates};
use mt_scan::{Checkpoint, Source};
use mt_tree::Draft;
use mt_words::{Fault, Memory};
use std::alloc::Global;
use std::marker::Model;
use std::thread::Threads;

/// The surviving updates, divided into pieces, and the report so far.
#[derive(Drop)]
pub(crate) struct Prepared {
    pub divided: Divided,
    /// The report, without the keys and layers of the store.
    pub report: Report,
}

impl Model for Prepared {
    ghost use Rattle.mt_recover.specs.Prepared.{PreparedView};
    ghost use Rattle.mt_recover.specs.Steps.Preparing.{IsSound};

    ghost Value = { PreparedView };

    ghost view = { λ p. record { updates = p.divided.updates; cuts = p.divided.cuts; report = p.report } };

    ghost invariant = { λ p. IsSound (record { updates = p.divided.updates; cuts = p.divided.cuts; report = p.report }) };
}

impl Prepared {
    /// Scans the sources, and prepares what was found, with these workers. Err: the same as for `recover`.
    pub fn from_sources<R: Threads + Sync, S: Source + Send>(
        rt: &R,
        alloc: Global,
        inputs: Inputs<S>,
        workers: Workers,
        cutting: Cutting,
    ) -> Result<Prepared, Fault>
        ensures prepared { IfOk result (λ prepared. OfSources S.seen inputs.logs.items inputs.parts.items (λ logs parts. IsPreparedOf logs parts prepared)) }
        ensures cuts { IfOk result (λ prepared. AreCutBy cutting prepared.updates prepared.cuts) }
        ensures fault { IfErr result (IsAnsweredBy S.seen inputs.logs.items inputs.parts.items) }
    {
        let outcomes = scan_all(rt, alloc, inputs, workers)?;
        let found = find(alloc, outcomes)?;
        Ok(Prepared::by_workers(rt, alloc, found, workers, cutting)?)
    }

    /// Prepares what was found, with these workers. Err: out of memory.
    pub fn by_workers<R: Threads + Sync>(
        rt: &R,
        alloc: Global,
        found: Found,
        workers: Workers,
        cutting: Cutting,
    ) -> Result<Prepared, Memory>
        requires { IsFound found }
        ensures prepared { (logs parts : List (List ℕ)) → IsFoundOf logs parts found → IfOk result (IsPreparedOf logs parts) }
        ensures cuts { IfOk result (λ prepared. AreCutBy cutting prepared.updates prepared.cuts) }
    {
        let window = found.start.window;
        let (report, scans, chosen) = Report::of(alloc, found)?;
        let entries = entries_of(alloc, chosen)?;
        let division = divide(rt, alloc, scans, window, entries, workers, cutting)?;
        Ok(Prepared::of(report, division))
    }

    /// Completes the report of what was divided.
    pub fn of(report: Report, division: Division) -> Prepared
        requires { (logs : List (List ℕ)) × (parts : List (List ℕ)) × IsDivisionOf logs parts report division }
        ensures prepared { (logs parts : List (List ℕ)) → IsDivisionOf logs parts report division → IsPreparedOf logs parts result }
        ensures divided { (result.updates ≡ division.0.updates) × (result.cuts ≡ division.0.cuts) }
    {
        let (divided, early) = division;
        let survivors = divided.len();
        let late = report.records - report.marks - early - (survivors - report.entries);
        let report = Report {
            survivors,
            early,
            late,
            ..report
        };
        Prepared { divided, report }
    }

    /// Returns the number of pieces.
    pub fn pieces(&self) -> u32
        ensures value { result ≡ length self.now.cuts + 1 }
        ensures lawful { AreCuts self.now.cuts }
    {
        self.divided.pieces()
    }

    /// Replays a piece into a draft of its own. Err: out of memory.
    pub fn replay(&self, alloc: Global, piece: u32) -> Result<Draft, Memory>
        requires { piece < length self.now.cuts + 1 }
        ensures { IfOk result (λ draft. IsPiece self.now.updates self.now.cuts piece (layer_walk draft)) }
    {
        self.divided.replay_into(alloc, piece, Draft::new(alloc))
    }

    /// Makes the store from its draft, and the report. The draft must have the walk of the survivors.
    /// Err: out of memory.
    pub fn finish(self, draft: Draft) -> Result<Recovered, Memory>
        requires { IsWalk self.updates (layer_walk draft) }
        ensures { IfOk result (IsMadeOf self) }
    {
        let Prepared { divided, report } = self;
        drop(divided);
        complete(report, draft)
    }

    /// Replays all pieces with these workers, and makes the store and the report. A worker takes the next piece that is left,
    /// enters it at the gate, replays it and frees its updates. Err: out of memory.
    pub fn replay_by_workers<R: Threads + Sync, G: Gate>(
        self,
        rt: &R,
        alloc: Global,
        workers: Workers,
        gate: &G,
    ) -> Result<Recovered, Memory>
        ensures { IfOk result (IsMadeOf self) }
    {
        let (replaying, tasks) = Replaying::of(alloc, self, workers)?;
        let done = on_threads(
            rt,
            tasks,
            workers,
            &|task: ReplayTask| -> Result<ReplayedTask, Memory>
                ensures { IfOk result (λ done. done ≡ task) }
            { task.work_at(alloc, gate) },
        )?;
        replaying.finish(alloc, all_done(alloc, done)?)
    }
}

/// Makes the store from its draft, and completes the report. Err: out of memory.
pub(crate) fn complete(report: Report, draft: Draft) -> Result<Recovered, Memory>
    requires { IsMap (layer_walk draft) }
    ensures { (prepared : PreparedView) → prepared.report ≡ report → IsWalk prepared.updates (layer_walk draft) →
        report.survivors ≡ length prepared.updates → report.survivors < 2 ^ 128 → IfOk result (IsMadeOf prepared) }
{
    let keys = draft.len();
    let tree = draft.finish()?;
    let layers = tree.layers();
    let report = Report {
        keys,
        layers,
        ..report
    };
    Ok(Recovered::of(Store::of(tree), report))
}

/// Returns the entries of each part of the checkpoint, or nothing without a checkpoint. Err: out of memory.
pub(crate) fn entries_of(
    alloc: Global,
    chosen: Option<Checkpoint>,
) -> Result<Vec<SortedUpdates>, Memory>
    ensures { IfOk result (λ lists. joined lists.items ≡ entry_updates (option_map checkpoint_in chosen)) }
{
    let Some(checkpoint) = chosen else {
        return Ok(Vec::new(alloc));
    };
    let mut lists = Vec::with_capacity(alloc, checkpoint.parts.len())?;
    for part in checkpoint.parts {
        lists.push(SortedUpdates::of_rising(part.entries))?;
    }
    Ok(lists)
}
