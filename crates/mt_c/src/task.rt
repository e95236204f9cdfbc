//! Tasks of a recovery, which threads of C do.
ghost use Rattle.std.specs.Prelude.{◌≡◌, IfOk};
ghost use Rattle.mt_c.specs.Jobs.{done_of};

use mt_recover::{DivideTask, DividedTask, ReplayTask, ReplayedTask};
use mt_words::Memory;
use std::alloc::Global;

/// A task, to be done or done.
#[derive(Drop)]
pub enum Task {
    /// To divide updates by their keys.
    Divide(DivideTask),
    /// The same, done.
    Divided(DividedTask),
    /// To replay pieces.
    Replay(ReplayTask),
    /// The same, done.
    Replayed(ReplayedTask),
}

impl Task {
    /// Does the task, unless it is done. Err: out of memory.
    pub fn work(self, alloc: Global) -> Result<Task, Memory>
        ensures { IfOk result (λ done. done ≡ done_of self) }
    {
        match self {
            Task::Divide(task) => Ok(Task::Divided(task.work(alloc)?)),
            Task::Replay(task) => Ok(Task::Replayed(task.work(alloc)?)),
            done => Ok(done),
        }
    }
}

/// A task that was handed out, and its number among the tasks of its step.
#[derive(Drop)]
pub struct Worker {
    pub number: usize,
    pub task: Task,
}
