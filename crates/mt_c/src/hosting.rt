//! Recovery by threads of C: a job hands out tasks, any thread does a task, and the job takes it back.
ghost use Rattle.std.specs.Prelude.{◌≡◌, ◌≢◌, ◌<◌, ◌≤◌, ◌∷◌, [], List, None, Some, IfSome, IsNone};
ghost use Rattle.mt_recover.specs.Fed.{Input};
ghost use Rattle.mt_recover.specs.declared.workers.TheConstants.{MOST_WORKERS};
ghost use Rattle.mt_c.specs.Holding.{HoldsAwaited, HoldsInputs, HoldsJob, HoldsJobOf, HoldsSomeInputs, HoldsStoreOf, HoldsWorker, Holds, IsAnyJob, IsAnyWorker, IsHired};
ghost use Rattle.mt_c.specs.Jobs.{CanFinish, CanReplay, IsFresh, IsOfJob, JobView, done_of, joined};
ghost use Rattle.mt_c.specs.Statuses.{IsOneOf, IsRefusedUnless};
ghost use Rattle.mt_c.specs.Told.{IsTold};
ghost use Rattle.mt_c.specs.declared.status.TheConstants.{DONE, MEMORY, WRONG, ABSENT, FAULT};
ghost use Rattle.mt_c.specs.declared.task.Worker.{Worker as WorkerValue};
ghost use Rattle.mt_c.specs.declared.held.Held.TheVariants as held;

use crate::fault::CFault;
use crate::held::Held;
use crate::job::Job;
use crate::place::Place;
use crate::recovering::{begin_store, take_inputs, tell};
use crate::status::{ABSENT, DONE, MEMORY, WRONG};
use crate::task::Worker;
use mt_recover::{MOST_PIECES, Pieces, Workers};
use std::alloc::Global;

/// Begins recovery from the logs and parts in `inputs`, and puts the job of this number of threads there in their place.
/// `FAULT`: `fault` says why there is no store. Without a job the place is empty, except that `WRONG` leaves it as
/// before: it does not hold logs and parts, or the number of threads is 0 or above `MOST_WORKERS`.
#[unsafe(no_mangle)]
pub extern "C" fn mtr_prepare(
    alloc: Global,
    inputs: &mut Place,
    threads: u32,
    fault: &mut CFault,
) -> u32
    ensures done { (logs parts : List Input) → HoldsInputs logs parts inputs.old.handle.value → result ≡ DONE → HoldsJobOf logs parts inputs.new.handle.value }
    ensures fresh { result ≡ DONE → HoldsJob IsFresh inputs.new.handle.value }
    ensures fault { (logs parts : List Input) → HoldsInputs logs parts inputs.old.handle.value → result ≡ FAULT → IsTold logs parts fault.new }
    ensures untold { result ≢ FAULT → fault.new ≡ fault.old }
    ensures empty { IsOneOf (MEMORY ∷ FAULT ∷ []) result → inputs.new.handle.value ≡ None }
    ensures kept { result ≡ WRONG → inputs.new.handle.value ≡ inputs.old.handle.value }
    ensures certain { IsOneOf (DONE ∷ MEMORY ∷ WRONG ∷ FAULT ∷ []) result }
    ensures refused { IsRefusedUnless (HoldsSomeInputs inputs.old.handle.value × (0 < threads) × (threads ≤ MOST_WORKERS)) result }
{
    let Some(workers) = Workers::new(threads) else {
        return WRONG;
    };
    let Some(added) = take_inputs(alloc, inputs) else {
        return WRONG;
    };
    let Ok(fed) = added.finish(alloc) else {
        return MEMORY;
    };
    let most = Pieces::new(MOST_PIECES).unwrap();
    match fed.divide(alloc, workers, most) {
        Ok((dividing, tasks)) => match Job::divide(alloc, dividing, tasks, workers) {
            Ok(job) => inputs.begin(alloc, Held::Job(job)),
            Err(_) => MEMORY,
        },
        Err(found) => tell(found, fault),
    }
}

/// Hands out the next task of the job, into the empty place `worker`. `ABSENT`: all are handed out. `WRONG`: `job` does
/// not hold a job, or `worker` is not empty.
#[unsafe(no_mangle)]
pub extern "C" fn mtr_hire(alloc: Global, job: &mut Place, worker: &mut Place) -> u32
    ensures done { (before : JobView) → HoldsJob (λ j. j ≡ before) job.old.handle.value → result ≡ DONE → IsHired before job.new.handle.value worker.new.handle.value }
    ensures absent { result ≡ ABSENT → HoldsJob (λ j. j.todo ≡ []) job.old.handle.value }
    ensures kept { result ≢ DONE → (job.new.handle.value ≡ job.old.handle.value) × (worker.new.handle.value ≡ worker.old.handle.value) }
    ensures certain { IsOneOf (DONE ∷ MEMORY ∷ WRONG ∷ ABSENT ∷ []) result }
    ensures refused { IsRefusedUnless (Holds IsAnyJob job.old.handle.value × (worker.old.handle.value ≡ None)) result }
{
    let Some(held) = job.held_mut() else {
        return WRONG;
    };
    let Held::Job(hiring) = held else {
        return WRONG;
    };
    if !worker.is_empty() {
        return WRONG;
    }
    let Ok(mut hired) = Box::new(alloc, Held::Hits(Vec::new(alloc))) else {
        return MEMORY;
    };
    let Some(task) = hiring.hire() else {
        return ABSENT;
    };
    *hired = Held::Worker(task);
    worker.put(hired);
    DONE
}

/// Does the task in the place, unless it is done. Any thread may. `MEMORY`: the task is lost, and the place is empty.
/// `WRONG`: the place does not hold a task.
#[unsafe(no_mangle)]
pub extern "C" fn mtr_work(alloc: Global, worker: &mut Place) -> u32
    ensures done { (before : WorkerValue) → HoldsWorker (λ w. w ≡ before) worker.old.handle.value → result ≡ DONE →
        HoldsWorker (λ w. w ≡ record before { task = done_of before.task }) worker.new.handle.value }
    ensures memory { result ≡ MEMORY → worker.new.handle.value ≡ None }
    ensures kept { result ≡ WRONG → worker.new.handle.value ≡ worker.old.handle.value }
    ensures certain { IsOneOf (DONE ∷ MEMORY ∷ WRONG ∷ []) result }
    ensures refused { IsRefusedUnless (Holds IsAnyWorker worker.old.handle.value) result }
{
    let Some(Held::Worker(hired)) = worker.take_if(alloc, |held| matches!(held, Held::Worker(_)))
    else {
        return WRONG;
    };
    let Worker { number, task } = hired;
    let Ok(task) = task.work(alloc) else {
        return MEMORY;
    };
    worker.begin(alloc, Held::Worker(Worker { number, task }))
}

/// Takes a task that is done back into its job, and empties the place `worker`. Tasks may come back in any order. `WRONG`:
/// `job` does not hold a job, or `worker` not a task that is done and that the job waits for.
#[unsafe(no_mangle)]
pub extern "C" fn mtr_join(alloc: Global, job: &mut Place, worker: &mut Place) -> u32
    requires { (j : JobView) (w : WorkerValue) → HoldsJob (λ held. held ≡ j) job.old.handle.value → HoldsWorker (λ held. held ≡ w) worker.old.handle.value → IsOfJob j w }
    ensures done { (j : JobView) (w : WorkerValue) → HoldsJob (λ held. held ≡ j) job.old.handle.value → HoldsWorker (λ held. held ≡ w) worker.old.handle.value → result ≡ DONE →
        HoldsJob (λ held. held ≡ joined j w) job.new.handle.value }
    ensures empty { result ≡ DONE → worker.new.handle.value ≡ None }
    ensures kept { result ≢ DONE → (job.new.handle.value ≡ job.old.handle.value) × (worker.new.handle.value ≡ worker.old.handle.value) }
    ensures certain { IsOneOf (DONE ∷ WRONG ∷ []) result }
    ensures refused { IsRefusedUnless (HoldsAwaited job.old.handle.value worker.old.handle.value) result }
{
    let Some(held) = job.held_mut() else {
        return WRONG;
    };
    let Held::Job(joining) = held else {
        return WRONG;
    };
    let Some(Held::Worker(hired)) = worker.take_if(
        alloc,
        |held| matches!(held, Held::Worker(done) if joining.awaits(done)),
    ) else {
        return WRONG;
    };
    joining.join(hired);
    DONE
}

/// Begins the second step of the job, once all tasks of the first are back. `MEMORY`: the place is empty. `WRONG`: it does
/// not hold such a job.
#[unsafe(no_mangle)]
pub extern "C" fn mtr_replay(alloc: Global, job: &mut Place) -> u32
    ensures same { (logs parts : List Input) → HoldsJobOf logs parts job.old.handle.value → result ≡ DONE → HoldsJobOf logs parts job.new.handle.value }
    ensures fresh { result ≡ DONE → HoldsJob IsFresh job.new.handle.value }
    ensures memory { result ≡ MEMORY → job.new.handle.value ≡ None }
    ensures kept { result ≡ WRONG → job.new.handle.value ≡ job.old.handle.value }
    ensures certain { IsOneOf (DONE ∷ MEMORY ∷ WRONG ∷ []) result }
    ensures refused { IsRefusedUnless (HoldsJob CanReplay job.old.handle.value) result }
{
    let Some(Held::Job(waiting)) = job.held() else {
        return WRONG;
    };
    if !waiting.can_replay() {
        return WRONG;
    }
    let Some(ready) = take_job(alloc, job) else {
        return WRONG;
    };
    match ready.replay(alloc) {
        Ok(next) => job.begin(alloc, Held::Job(next)),
        Err(_) => MEMORY,
    }
}

/// Puts the store in the place of its job, once all tasks of the second step are back. `MEMORY`: the place is empty.
/// `WRONG`: it does not hold such a job.
#[unsafe(no_mangle)]
pub extern "C" fn mtr_assemble(alloc: Global, job: &mut Place) -> u32
    ensures done { (logs parts : List Input) → HoldsJobOf logs parts job.old.handle.value → result ≡ DONE → HoldsStoreOf logs parts job.new.handle.value }
    ensures memory { result ≡ MEMORY → job.new.handle.value ≡ None }
    ensures kept { result ≡ WRONG → job.new.handle.value ≡ job.old.handle.value }
    ensures certain { IsOneOf (DONE ∷ MEMORY ∷ WRONG ∷ []) result }
    ensures refused { IsRefusedUnless (HoldsJob CanFinish job.old.handle.value) result }
{
    let Some(Held::Job(waiting)) = job.held() else {
        return WRONG;
    };
    if !waiting.can_finish() {
        return WRONG;
    }
    let Some(ready) = take_job(alloc, job) else {
        return WRONG;
    };
    let Ok(recovered) = ready.finish(alloc) else {
        return MEMORY;
    };
    begin_store(alloc, job, recovered)
}

/// Takes the job out of the place, and leaves it empty. None: the place holds no job, and is as before.
fn take_job(alloc: Global, place: &mut Place) -> Option<Job>
    ensures taken { IfSome result (λ job. place.old.handle.value ≡ Some (held.Job job)) }
    ensures empty { IfSome result (λ job. place.new.handle.value ≡ None) }
    ensures kept { IsNone result → place.new.handle.value ≡ place.old.handle.value }
    ensures refused { IsNone result → Holds IsAnyJob place.old.handle.value → ⊥ }
{
    match place.take_if(alloc, |held| matches!(held, Held::Job(_))) {
        Some(Held::Job(job)) => Some(job),
        _ => None,
    }
}
