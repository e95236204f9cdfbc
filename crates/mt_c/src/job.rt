//! A recovery whose tasks threads of C do, step by step.
ghost use Rattle.std.specs.Prelude.{◌≡◌, ◌↔◌, [], List, ℕ, None, map, replicate, IfOk, IsTrue, MatchOption};
ghost use Rattle.std.specs.List.{filter_map};
ghost use Rattle.mt_recover.specs.Report.{IsRecoveredOf};
ghost use Rattle.mt_recover.specs.Tasks.{divide_tasks};
ghost use Rattle.mt_c.specs.Jobs.{AreAllBack, Awaits, CanFinish, CanReplay, Hires, IsDoneIn, IsFresh, IsOfJob, IsStepOf, joined, tasks_of};
ghost use Rattle.mt_c.specs.Steps.{divided, replayed};
ghost use Rattle.mt_c.specs.declared.job.Step.TheVariants as steps;
ghost use Rattle.mt_c.specs.declared.task.Task.TheVariants as kinds;

use crate::task::{Task, Worker};
use mt_recover::{
    DivideTask, DividedTask, Dividing, Recovered, ReplayTask, ReplayedTask, Replaying, Workers,
};
use mt_words::Memory;
use std::alloc::Global;
use std::collections::VecDeque;
use std::marker::Model;

/// A step of a recovery.
#[derive(Drop)]
pub enum Step {
    /// Its tasks divide what was found.
    Dividing(Dividing),
    /// Its tasks replay the pieces.
    Replaying(Replaying),
}

/// A recovery in one of its steps.
#[derive(Drop)]
pub struct Job {
    step: Step,
    workers: Workers,
    /// The tasks that are not handed out.
    todo: VecDeque<Task>,
    /// By the number of each task, the task once it is back.
    back: Vec<Option<Task>>,
}

impl Model for Job {
    ghost use Rattle.mt_c.specs.Jobs.{JobView};
    ghost use Rattle.mt_c.specs.Steps.{IsJob};

    ghost Value = { JobView };

    ghost view = { λ j. record { step = j.step; todo = j.todo.items; back = j.back.items } };

    ghost invariant = { λ j. IsJob (record { step = j.step; todo = j.todo.items; back = j.back.items }) };
}

impl Job {
    /// Begins the step that divides. Err: out of memory.
    pub fn divide(
        alloc: Global,
        dividing: Dividing,
        tasks: Vec<DivideTask>,
        workers: Workers,
    ) -> Result<Job, Memory>
        requires { tasks.items ≡ divide_tasks dividing }
        ensures step { IfOk result (λ job. job.step ≡ steps.Dividing dividing) }
        ensures fresh { IfOk result IsFresh }
    {
        let todo = tasks
            .into_iter()
            .map(|task| Task::Divide(task))
            .collect(alloc)?;
        Job::of(alloc, Step::Dividing(dividing), todo, workers)
    }

    /// Begins a step. Err: out of memory.
    fn of(alloc: Global, step: Step, todo: VecDeque<Task>, workers: Workers) -> Result<Job, Memory>
        requires { todo.items ≡ tasks_of step }
        ensures step { IfOk result (λ job. job.step ≡ step) }
        ensures fresh { IfOk result IsFresh }
    {
        let back = no_tasks(alloc, todo.len())?;
        Ok(Job {
            step,
            workers,
            todo,
            back,
        })
    }

    /// Hands out the next task. None: all are handed out.
    pub fn hire(&mut self) -> Option<Worker>
        ensures { MatchOption result ((self.old.todo ≡ []) × (self.new ≡ self.old)) (Hires self.old self.new) }
    {
        let number = self.back.len() - self.todo.len();
        let task = self.todo.pop_front()?;
        Some(Worker { number, task })
    }

    /// Returns whether this worker, with its task done, is waited for.
    pub fn awaits(&self, worker: &Worker) -> bool
        ensures { IsTrue result ↔ Awaits self.now worker.now }
    {
        let handed = self.back.len() - self.todo.len();
        if !self.has_step_of(&worker.task) {
            return false;
        }
        if worker.number >= handed {
            return false;
        }
        self.back[worker.number].is_none()
    }

    /// Returns whether the task is done, and may be one of this step.
    fn has_step_of(&self, task: &Task) -> bool
        ensures { IsTrue result ↔ IsDoneIn self.now.step task.now }
    {
        matches!(
            (&self.step, task),
            (Step::Dividing(_), Task::Divided(_)) | (Step::Replaying(_), Task::Replayed(_))
        )
    }

    /// Takes back a task that is done.
    pub fn join(&mut self, worker: Worker)
        requires awaits { Awaits self.old worker }
        requires own { IsOfJob self.old worker }
        ensures { self.new ≡ joined self.old worker }
    {
        let Worker { number, task } = worker;
        self.back[number] = Some(task);
    }

    /// Returns whether all tasks are back.
    fn has_all(&self) -> bool
        ensures { IsTrue result ↔ AreAllBack self.now }
    {
        self.back.iter().all(|task| task.is_some())
    }

    /// Returns whether all tasks that divide are back.
    pub fn can_replay(&self) -> bool
        ensures { IsTrue result ↔ CanReplay self.now }
    {
        matches!(self.step, Step::Dividing(_)) && self.has_all()
    }

    /// Begins the step that replays. Err: out of memory.
    pub fn replay(self, alloc: Global) -> Result<Job, Memory>
        requires { CanReplay self }
        ensures step { (logs parts : List (List ℕ)) → IsStepOf logs parts self.step → IfOk result (λ job. IsStepOf logs parts job.step) }
        ensures fresh { IfOk result IsFresh }
    {
        let Job {
            step,
            workers,
            back,
            todo: _,
        } = self;
        let Step::Dividing(dividing) = step else {
            unreachable!()
        };
        let done = back.into_iter().filter_map(divided_of).collect(alloc)?;
        let (replaying, tasks) = dividing.replay(alloc, done, workers)?;
        let todo = tasks
            .into_iter()
            .map(|task| Task::Replay(task))
            .collect(alloc)?;
        Job::of(alloc, Step::Replaying(replaying), todo, workers)
    }

    /// Returns whether all tasks that replay are back.
    pub fn can_finish(&self) -> bool
        ensures { IsTrue result ↔ CanFinish self.now }
    {
        matches!(self.step, Step::Replaying(_)) && self.has_all()
    }

    /// Makes the store and its report. Err: out of memory.
    pub fn finish(self, alloc: Global) -> Result<Recovered, Memory>
        requires { CanFinish self }
        ensures { (logs parts : List (List ℕ)) → IsStepOf logs parts self.step → IfOk result (IsRecoveredOf logs parts) }
    {
        let Job { step, back, .. } = self;
        let Step::Replaying(replaying) = step else {
            unreachable!()
        };
        let done = back.into_iter().filter_map(replayed_of).collect(alloc)?;
        replaying.finish(alloc, done)
    }
}

/// Returns `count` places, each without a task. Err: out of memory.
fn no_tasks(alloc: Global, count: usize) -> Result<Vec<Option<Task>>, Memory>
    ensures { IfOk result (λ places. places.items ≡ replicate count None) }
{
    let mut places = Vec::with_capacity(alloc, count)?;
    for _ in 0..count {
        places.push(None)?;
    }
    Ok(places)
}

/// Returns the task if it has divided.
fn divided_of(place: Option<Task>) -> Option<DividedTask>
    ensures { result ≡ divided place }
{
    match place? {
        Task::Divided(task) => Some(task),
        _ => None,
    }
}

/// Returns the task if it has replayed.
fn replayed_of(place: Option<Task>) -> Option<ReplayedTask>
    ensures { result ≡ replayed place }
{
    match place? {
        Task::Replayed(task) => Some(task),
        _ => None,
    }
}
