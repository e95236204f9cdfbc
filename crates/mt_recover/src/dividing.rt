//! Divides what was found by its keys into the pieces that are replayed, task by task.
ghost use Rattle.std.specs.Prelude.{◌≡◌, ◌≤◌, ◌<◌, ◌++◌, List, ℕ, length, map, filter, IfOk};
ghost use Rattle.std.specs.List.{AllZip};
ghost use Rattle.mt_words.specs.Walks.{joined};
ghost use Rattle.mt_replay.specs.declared.window.Window.{Window as WindowValue};
ghost use Rattle.mt_replay.specs.Batches.{BatchView, batched};
ghost use Rattle.mt_replay.specs.Survivors.{in_window};
ghost use Rattle.mt_recover.specs.Job.{AreCutBy};
ghost use Rattle.mt_recover.specs.Prepared.{IsPreparedOf};
ghost use Rattle.mt_recover.specs.Steps.LogScans.{kept};
ghost use Rattle.mt_recover.specs.Steps.Preparing.{IsDividedOf, IsFound, IsFoundOf, IsLeftOf};
ghost use Rattle.mt_recover.specs.Tasks.{IsDividingOf, divide_task, divide_tasks, replay_tasks};

use crate::Workers;
use crate::batches::batches_of;
use crate::by_workers::{all_done, by_workers, unzip};
use crate::found::Found;
use crate::prepared::{Prepared, entries_of};
use crate::replaying::{ReplayTask, Replaying};
use crate::report::{Report, total};
use crate::workers::Cutting;
use mt_replay::{Batch, Cuts, Dealt, Divided, Pieces, SortedUpdates, Window, ranges_of};
use mt_scan::LogScan;
use mt_words::Memory;
use std::alloc::Global;
use std::marker::Model;
use std::snapshot::Snapshot;
use std::thread::Threads;

/// The number of updates of a piece is about this, so that they and their bodies stay in the caches of a processor.
const UPDATES_OF_PIECE: usize = 8_192;

/// The number of pieces that each worker gets at least, so that all workers have about the same to do.
const PIECES_OF_WORKER: usize = 4;

/// A task of a recovery: to deal the updates of a batch to the pieces of their keys. Any thread may do it.
#[derive(Drop)]
pub struct DivideTask {
    batch: Batch,
    window: Window,
    cuts: Cuts,
}

impl Model for DivideTask {
    ghost use Rattle.mt_recover.specs.Tasks.{DivideView};

    ghost Value = { DivideView };

    ghost view = { λ t. record { batch = t.batch; window = t.window; cuts = t.cuts } };
}

impl DivideTask {
    /// Does the task, and frees the batch. Err: out of memory.
    pub fn work(self, alloc: Global) -> Result<DividedTask, Memory>
        ensures { IfOk result (λ done. done ≡ self) }
    {
        let of = Snapshot::of(&self);
        let DivideTask {
            batch,
            window,
            cuts,
        } = self;
        let early = batch.early_count(window.begin);
        let dealt = Dealt::of_batch(alloc, batch, window, &cuts)?;
        let left = (early, dealt);
        Ok(DividedTask { left, of })
    }
}

/// What is left of a batch: the number of its updates below the window, and its updates in the window, dealt to pieces.
type Left = (usize, Dealt);

/// A task to divide that is done.
#[derive(Drop)]
pub struct DividedTask {
    left: Left,
    /// The task that was done. This field takes no bytes.
    of: Snapshot<DivideTask>,
}

impl Model for DividedTask {
    ghost use Rattle.mt_recover.specs.Steps.Preparing.{IsLeftOf};
    ghost use Rattle.mt_recover.specs.Tasks.{DivideView};

    ghost Value = { DivideView };

    ghost view = { λ d. d.of.value };

    ghost invariant = { λ d. IsLeftOf d.of.value d.left };
}

/// A recovery that waits until its tasks have divided what was found.
#[derive(Drop)]
pub struct Dividing {
    report: Report,
    window: Window,
    cuts: Cuts,
    entries: Vec<SortedUpdates>,
    /// What the tasks divide. This field takes no bytes.
    batches: Snapshot<Vec<Batch>>,
}

impl Model for Dividing {
    ghost use Rattle.mt_words.specs.Walks.{joined};
    ghost use Rattle.mt_recover.specs.Steps.Preparing.{IsDividing};
    ghost use Rattle.mt_recover.specs.Tasks.{DividingView};

    ghost Value = { DividingView };

    ghost view = { λ d. record { report = d.report; window = d.window; cuts = d.cuts; entries = joined d.entries.items; batches = d.batches.value.items } };

    ghost invariant = { λ d. IsDividing (record { report = d.report; window = d.window; cuts = d.cuts; entries = joined d.entries.items; batches = d.batches.value.items }) };
}

impl Dividing {
    /// Makes the tasks that divide what was found: at most one for each worker. They cut its keys into at most `most`
    /// pieces. Err: out of memory.
    pub(crate) fn of(
        alloc: Global,
        found: Found,
        workers: Workers,
        most: Pieces,
    ) -> Result<(Dividing, Vec<DivideTask>), Memory>
        requires { IsFound found }
        ensures dividing { (logs parts : List (List ℕ)) → IsFoundOf logs parts found → IfOk result (λ made. IsDividingOf logs parts made.0) }
        ensures tasks { IfOk result (λ made. made.1.items ≡ divide_tasks made.0) }
        ensures few { IfOk result (λ made. length made.1.items ≤ workers) }
        ensures pieces { IfOk result (λ made. length made.0.cuts < most) }
    {
        let window = found.start.window;
        let (report, scans, chosen) = Report::of(alloc, found)?;
        let entries = entries_of(alloc, chosen)?;
        let batches = batches_of(alloc, scans, workers.count())?;
        let cuts = sampled_cuts(alloc, &batches, &entries, workers, most)?;
        let all = Snapshot::of(&batches);
        let tasks = tasks_of(alloc, batches, window, &cuts)?;
        let dividing = Dividing {
            report,
            window,
            cuts,
            entries,
            batches: all,
        };
        Ok((dividing, tasks))
    }

    /// Queues the pieces for tasks that replay them: one for each worker, but no more than there are pieces. Takes all
    /// tasks that divide, done, in their order. Err: out of memory.
    pub fn replay(
        self,
        alloc: Global,
        done: Vec<DividedTask>,
        workers: Workers,
    ) -> Result<(Replaying, Vec<ReplayTask>), Memory>
        requires { done.items ≡ divide_tasks self }
        ensures prepared { (logs parts : List (List ℕ)) → IsDividingOf logs parts self → IfOk result (λ made. IsPreparedOf logs parts made.0.prepared) }
        ensures tasks { IfOk result (λ made. made.1.items ≡ replay_tasks made.0) }
    {
        let Dividing {
            report,
            cuts,
            entries,
            ..
        } = self;
        let division = put_together(alloc, done, cuts, entries)?;
        Replaying::of(alloc, Prepared::of(report, division), workers)
    }
}

/// What is divided: the updates in the window and the entries, and the number of updates below the window.
pub(crate) type Division = (Divided, u128);

/// Divides the updates that the scans kept, and the entries, with these workers. Err: out of memory.
pub(crate) fn divide<R: Threads + Sync>(
    rt: &R,
    alloc: Global,
    scans: Vec<LogScan>,
    window: Window,
    entries: Vec<SortedUpdates>,
    workers: Workers,
    cutting: Cutting,
) -> Result<Division, Memory>
    ensures divided { IfOk result (λ division. IsDividedOf window (kept scans.items) (joined entries.items) division) }
    ensures cuts { IfOk result (λ division. AreCutBy cutting division.0.updates division.0.cuts) }
{
    let batches = batches_of(alloc, scans, workers.count())?;
    let cuts = cuts_of(rt, alloc, &batches, window, &entries, workers, cutting)?;
    let done = by_workers(
        rt,
        alloc,
        tasks_of(alloc, batches, window, &cuts)?,
        workers,
        &|task: DivideTask| -> Result<DividedTask, Memory>
            ensures { IfOk result (λ done. done ≡ task) }
        { task.work(alloc) },
    )?;
    put_together(alloc, all_done(alloc, done)?, cuts, entries)
}

/// Makes a task for each batch. Err: out of memory.
fn tasks_of(
    alloc: Global,
    batches: Vec<Batch>,
    window: Window,
    cuts: &Cuts,
) -> Result<Vec<DivideTask>, Memory>
    ensures { IfOk result (λ tasks. tasks.items ≡ map (divide_task window cuts.now) batches.items) }
{
    let mut tasks = Vec::with_capacity(alloc, batches.len())?;
    for batch in batches {
        let cuts = cuts.try_copy()?;
        tasks.push(DivideTask {
            batch,
            window,
            cuts,
        })?;
    }
    Ok(tasks)
}

/// Puts together what the tasks divided, and the entries. Err: out of memory.
fn put_together(
    alloc: Global,
    done: Vec<DividedTask>,
    cuts: Cuts,
    entries: Vec<SortedUpdates>,
) -> Result<Division, Memory>
    requires { (window : WindowValue) × (batches : List BatchView) × (done.items ≡ map (divide_task window cuts) batches) }
    ensures divided { (window : WindowValue) (batches : List BatchView) → done.items ≡ map (divide_task window cuts) batches →
        IfOk result (IsDividedOf window (batched batches) (joined entries.items)) }
    ensures cuts { IfOk result (λ division. division.0.cuts ≡ cuts) }
{
    let (early, dealt) = unzip(alloc, left_by(alloc, done)?)?;
    let ranges = ranges_of(alloc, dealt, cuts.pieces())?;
    let early = total(&early, |count| *count as u64);
    Ok((Divided::of(cuts, ranges, entries), early))
}

/// Returns what the tasks left of their batches. Err: out of memory.
fn left_by(alloc: Global, done: Vec<DividedTask>) -> Result<Vec<Left>, Memory>
    ensures { IfOk result (λ left. AllZip IsLeftOf done.items left.items) }
{
    let mut all = Vec::with_capacity(alloc, done.len())?;
    for task in done {
        let DividedTask { left, of: _ } = task;
        all.push(left)?;
    }
    Ok(all)
}

/// Returns the cuts of the keys of these batches and entries. Err: out of memory.
fn cuts_of<R: Threads + Sync>(
    rt: &R,
    alloc: Global,
    batches: &[Batch],
    window: Window,
    entries: &[SortedUpdates],
    workers: Workers,
    cutting: Cutting,
) -> Result<Cuts, Memory>
    ensures { IfOk result (AreCutBy cutting (filter (in_window window) (batched batches.now) ++ joined entries.now)) }
{
    match cutting {
        Cutting::Even(pieces) => Cuts::even_of_batches(rt, alloc, batches, window, entries, pieces),
        Cutting::Sampled(most) => sampled_cuts(alloc, batches, entries, workers, most),
        Cutting::At(cuts) => Ok(cuts),
    }
}

/// Returns cuts into at most `most` pieces, found in a sample of the keys. Err: out of memory.
fn sampled_cuts(
    alloc: Global,
    batches: &[Batch],
    entries: &[SortedUpdates],
    workers: Workers,
    most: Pieces,
) -> Result<Cuts, Memory>
    ensures { IfOk result (λ cuts. length cuts < most) }
{
    let pieces = pieces_for(batches, entries, workers, most);
    Cuts::sampled(alloc, batches, entries, pieces)
}

/// Returns the number of pieces for these batches and entries: no more than `most`.
fn pieces_for(
    batches: &[Batch],
    entries: &[SortedUpdates],
    workers: Workers,
    most: Pieces,
) -> Pieces
    ensures { result ≤ most }
{
    let mut count = 0usize;
    for batch in batches {
        count = count.saturating_add(batch.records());
    }
    for updates in entries {
        count = count.saturating_add(updates.len());
    }
    let least = PIECES_OF_WORKER * workers.count() as usize;
    let wanted = (count / UPDATES_OF_PIECE)
        .max(least)
        .min(most.count() as usize);
    Pieces::new(wanted as u32).unwrap_or(most)
}
