//! Replays pieces, and makes the store of all.
ghost use Rattle.std.specs.Prelude.{◌≡◌, ◌≤◌, List, ℕ, length, map, All, IfOk};
ghost use Rattle.std.specs.Arc.{arc_value};
ghost use Rattle.std.specs.List.{AllZip};
ghost use Rattle.mt_board.specs.Queue.{fresh_consumer};
ghost use Rattle.mt_recover.specs.Prepared.{IsMadeOf, IsPreparedOf};
ghost use Rattle.mt_recover.specs.Report.{IsRecoveredOf};
ghost use Rattle.mt_recover.specs.Steps.Replaying.{AreRanges, AreReplaysOf, task_of};
ghost use Rattle.mt_recover.specs.Tasks.{replay_tasks};

use crate::assembling::join_all;
use crate::by_workers::{Turn, answers_of};
use crate::prepared::{Prepared, complete};
use crate::recovery::Recovered;
use crate::report::Report;
use crate::workers::{Gate, NoGate, Workers};
use mt_board::{Consumer, Queue};
use mt_replay::{Cuts, Range, SortedUpdates, pieces_make_the_walk, replay_range};
use mt_tree::Draft;
use mt_words::Memory;
use std::alloc::Global;
use std::marker::Model;
use std::snapshot::Snapshot;
use std::sync::Arc;

/// What all tasks share: the pieces, each with the updates of logs that lie in it, the cuts that make them, and the entries
/// of the checkpoint.
#[derive(Drop)]
pub(crate) struct Base {
    pub pieces: Queue<Range>,
    pub cuts: Cuts,
    pub entries: Vec<SortedUpdates>,
}

/// A task of a recovery: to replay pieces, one after the other, until none is left. The tasks of a recovery take their
/// pieces from one queue, so a fast thread replays more of them than a slow one. Any thread may do a task.
#[derive(Drop)]
pub struct ReplayTask {
    consumer: Consumer<Range>,
    base: Arc<Base>,
}

impl Model for ReplayTask {
    ghost use Rattle.std.specs.Arc.{arc_value};
    ghost use Rattle.std.specs.Prelude.{◌≡◌};
    ghost use Rattle.mt_board.specs.Queue.{fresh_consumer};
    ghost use Rattle.mt_recover.specs.Steps.Replaying.{AreRanges, task_of};
    ghost use Rattle.mt_recover.specs.Tasks.{ReplayView};

    ghost Value = { ReplayView };

    ghost view = { λ t. task_of (arc_value t.base) };

    ghost invariant = { λ t. (t.consumer ≡ fresh_consumer (arc_value t.base).pieces t.consumer.number) × AreRanges (arc_value t.base).cuts (arc_value t.base).pieces.jobs };
}

impl ReplayTask {
    /// Does the task, and frees the updates of each piece once it is replayed. Err: out of memory.
    pub fn work(self, alloc: Global) -> Result<ReplayedTask, Memory>
        ensures { IfOk result (λ done. done ≡ self) }
    {
        self.work_at(alloc, &NoGate)
    }

    /// Does the same as `work`, but enters each piece at the gate first.
    pub(crate) fn work_at<G: Gate>(self, alloc: Global, gate: &G) -> Result<ReplayedTask, Memory>
        ensures { IfOk result (λ done. done ≡ self) }
    {
        let of = Snapshot::of(&self);
        let ReplayTask { consumer, base } = self;
        let turn = replay_pieces(alloc, &base, consumer, gate)?;
        Ok(ReplayedTask { turn, of })
    }
}

/// A task to replay that is done.
#[derive(Drop)]
pub struct ReplayedTask {
    turn: Turn<Range, Draft>,
    /// The task that was done. This field takes no bytes.
    of: Snapshot<ReplayTask>,
}

impl Model for ReplayedTask {
    ghost use Rattle.mt_recover.specs.Steps.Replaying.{AreReplaysOf};
    ghost use Rattle.mt_recover.specs.Tasks.{ReplayView};

    ghost Value = { ReplayView };

    ghost view = { λ d. d.of.value };

    ghost invariant = { λ d. AreReplaysOf d.of.value d.turn.0.items d.turn.1 };
}

/// A recovery that waits until its tasks have replayed what was prepared.
#[derive(Drop)]
pub struct Replaying {
    report: Report,
    base: Arc<Base>,
    /// What was prepared. This field takes no bytes.
    prepared: Snapshot<Prepared>,
}

impl Model for Replaying {
    ghost use Rattle.std.specs.Arc.{arc_value};
    ghost use Rattle.std.specs.Prelude.{◌≡◌};
    ghost use Rattle.mt_words.specs.Walks.{joined};
    ghost use Rattle.mt_recover.specs.Steps.Preparing.{IsSound};
    ghost use Rattle.mt_recover.specs.Steps.Replaying.{AreQueued};
    ghost use Rattle.mt_recover.specs.Tasks.{ReplayingView};

    ghost Value = { ReplayingView };

    ghost view = { λ r. record { prepared = r.prepared.value; pieces = (arc_value r.base).pieces; entries = joined (arc_value r.base).entries.items } };

    ghost invariant = { λ r. (r.prepared.value.report ≡ r.report) × IsSound r.prepared.value
        × AreQueued (record { prepared = r.prepared.value; pieces = (arc_value r.base).pieces; entries = joined (arc_value r.base).entries.items }) };
}

impl Replaying {
    /// Queues the pieces for tasks that replay them: one for each worker, but no more than there are pieces. Err: out of
    /// memory.
    pub(crate) fn of(
        alloc: Global,
        prepared: Prepared,
        workers: Workers,
    ) -> Result<(Replaying, Vec<ReplayTask>), Memory>
        ensures prepared { IfOk result (λ made. made.0.prepared ≡ prepared) }
        ensures tasks { IfOk result (λ made. made.1.items ≡ replay_tasks made.0) }
        ensures few { IfOk result (λ made. length made.1.items ≤ workers) }
    {
        let of = Snapshot::of(&prepared);
        let Prepared { divided, report } = prepared;
        let (cuts, ranges, entries) = divided.into_parts();
        let most = workers.count().min(cuts.pieces());
        let (pieces, consumers) = Queue::open(alloc, ranges, most)?;
        let base = Base {
            pieces,
            cuts,
            entries,
        };
        let base = Arc::new(alloc, base)?;
        let tasks = tasks_of(alloc, consumers, &base)?;
        let replaying = Replaying {
            report,
            base,
            prepared: of,
        };
        Ok((replaying, tasks))
    }

    /// Makes the store and its report from what the tasks replayed. Takes all its tasks, done, in their order.
    /// Err: out of memory.
    pub fn finish(self, alloc: Global, done: Vec<ReplayedTask>) -> Result<Recovered, Memory>
        requires { done.items ≡ replay_tasks self }
        ensures store { IfOk result (IsMadeOf self.prepared) }
        ensures recovered { (logs parts : List (List ℕ)) → IsPreparedOf logs parts self.prepared → IfOk result (IsRecoveredOf logs parts) }
    {
        let Replaying { report, base, .. } = self;
        let drafts = answers_of(alloc, &base.pieces, turns_of(alloc, done)?)?;
        pieces_make_the_walk();
        complete(report, join_all(alloc, drafts)?)
    }
}

/// Makes a task for each consumer of the pieces. Err: out of memory.
fn tasks_of(
    alloc: Global,
    consumers: Vec<Consumer<Range>>,
    base: &Arc<Base>,
) -> Result<Vec<ReplayTask>, Memory>
    requires fresh { All (λ consumer. consumer ≡ fresh_consumer (arc_value base.now).pieces consumer.number) consumers.items }
    requires ranges { AreRanges (arc_value base.now).cuts (arc_value base.now).pieces.jobs }
    ensures { IfOk result (λ tasks. tasks.items ≡ map (λ _. task_of (arc_value base.now)) consumers.items) }
{
    let mut tasks = Vec::with_capacity(alloc, consumers.len())?;
    for consumer in consumers {
        let base = Arc::try_clone(base)?;
        tasks.push(ReplayTask { consumer, base })?;
    }
    Ok(tasks)
}

/// Replays pieces into drafts until none is left. Enters each at the gate first, and frees its updates then.
/// Err: out of memory.
fn replay_pieces<G: Gate>(
    alloc: Global,
    base: &Base,
    consumer: Consumer<Range>,
    gate: &G,
) -> Result<Turn<Range, Draft>, Memory>
    requires fresh { consumer ≡ fresh_consumer base.now.pieces consumer.number }
    requires ranges { AreRanges base.now.cuts base.now.pieces.jobs }
    ensures { IfOk result (λ turn. AreReplaysOf (task_of base.now) turn.0.items turn.1) }
{
    let worker = consumer.number();
    let mut consumer = consumer;
    let mut drafts = Vec::new(alloc);
    while let Some((number, range)) = base.pieces.take(&mut consumer) {
        let piece = number as u32;
        gate.enter(worker, piece);
        let draft = replay_range(
            alloc,
            &range,
            &base.entries,
            &base.cuts,
            piece,
            Draft::new(alloc),
        )?;
        drafts.push((number, draft))?;
    }
    Ok((drafts, consumer))
}

/// Returns what each task did. Err: out of memory.
fn turns_of(alloc: Global, done: Vec<ReplayedTask>) -> Result<Vec<Turn<Range, Draft>>, Memory>
    ensures { IfOk result (λ turns. AllZip (λ task turn. AreReplaysOf task turn.0.items turn.1) done.items turns.items) }
{
    let mut turns = Vec::with_capacity(alloc, done.len())?;
    for task in done {
        let ReplayedTask { turn, of: _ } = task;
        turns.push(turn)?;
    }
    Ok(turns)
}
