//! Shares out work among threads.
ghost use Rattle.std.specs.Prelude.{◌≡◌, ◌⊎◌, ◌<◌, ◌≤◌, ℕ, [], List, map, length, max, All, IfOk, IfErr, IsPermutation};
ghost use Rattle.std.specs.List.{AllZip, enumerate_from, flat_map};
ghost use Rattle.std.specs.Vec.Iter.{into_iter_items};
ghost use Rattle.mt_words.specs.declared.fault.Memory.{Memory as MemoryValue};
ghost use Rattle.mt_board.specs.Board.{least_noted, times_drawn, SawNoneBelow, SomeIsDone};
ghost use Rattle.mt_board.specs.Queue.{fresh_consumer};
ghost use Rattle.mt_recover.specs.Steps.Scanning.{AreAnswers, AreDealt, AreNumbered, IsFirstErr, IsTurnOf};

use crate::Workers;
use mt_board::{Board, Consumer, Pass, Queue};
use mt_words::Memory;
use std::alloc::Global;
use std::collections::VecDeque;
use std::thread;
use std::thread::Threads;
use std::vec::IntoIter;

/// Does each job, on at most `workers` threads, each of which takes the next job that is left. Returns the answers in the
/// order of the jobs.
pub(crate) fn by_workers<R: Threads + Sync, J: Send + Drop, X: Send + Drop, F: Fn(J) -> X + Sync>(
    rt: &R,
    alloc: Global,
    jobs: Vec<J>,
    workers: Workers,
    work: &F,
) -> Result<Vec<X>, Memory>
    requires { All (λ job. F.pre work.now job) jobs.items }
    ensures { IfOk result (λ answers. AllZip (λ job answer. F.post work.now job answer) jobs.items answers.items) }
{
    let most = (workers.count() as usize).min(jobs.len()).max(1) as u32;
    let (queue, consumers) = Queue::open(alloc, jobs, most)?;
    let turns = on_threads(
        rt,
        consumers,
        workers,
        &|consumer: Consumer<J>| -> Result<Turn<J, X>, Memory>
            requires { (consumer ≡ fresh_consumer queue consumer.number) × All (λ job. F.pre work.now job) queue.jobs }
            ensures { IfOk result (λ turn. IsTurnOf queue turn.0.items turn.1 × AreAnswers (λ _ job answer. F.post work.entry.now job answer) queue.jobs turn.0.items) }
        { work_off(alloc, &queue, consumer, work) },
    )?;
    answers_of(alloc, &queue, all_done(alloc, turns)?)
}

/// What a consumer of a queue did: an answer for each job that it took, with the number of the job, and the consumer.
pub(crate) type Turn<J, X> = (Vec<(usize, X)>, Consumer<J>);

/// Takes jobs from the queue until none is left, and does each.
fn work_off<J: Drop, X: Drop, F: Fn(J) -> X>(
    alloc: Global,
    queue: &Queue<J>,
    consumer: Consumer<J>,
    work: &F,
) -> Result<Turn<J, X>, Memory>
    requires fresh { consumer ≡ fresh_consumer queue.now consumer.number }
    requires each { All (λ job. F.pre work.now job) queue.now.jobs }
    ensures turn { IfOk result (λ turn. IsTurnOf queue.now turn.0.items turn.1) }
    ensures answers { IfOk result (λ turn. AreAnswers (λ _ job answer. F.post work.now job answer) queue.now.jobs turn.0.items) }
{
    let mut consumer = consumer;
    let mut answers = Vec::new(alloc);
    while let Some((number, job)) = queue.take(&mut consumer) {
        answers.push((number, work(job)))?;
    }
    Ok((answers, consumer))
}

/// Takes all consumers of the queue back, and returns the answers in the order of the jobs.
pub(crate) fn answers_of<J: Drop, X: Drop>(
    alloc: Global,
    queue: &Queue<J>,
    turns: Vec<Turn<J, X>>,
) -> Result<Vec<X>, Memory>
    requires turns { All (λ turn. IsTurnOf queue.now turn.0.items turn.1) turns.items }
    requires all { length turns.items ≡ queue.now.consumers }
    requires some { 0 < queue.now.consumers }
    ensures { IfOk result (λ answers. (length answers.items ≡ length queue.now.jobs) × IsPermutation (flat_map (λ turn. turn.0.items) turns.items) (enumerate_from 0 answers.items)) }
{
    let (answers, consumers) = unzip(alloc, turns)?;
    queue.close(consumers);
    in_order(alloc, concat(alloc, answers)?)
}

/// Returns the answers in the order of their numbers, which are those below some count, each once.
fn in_order<X: Drop>(alloc: Global, answers: Vec<(usize, X)>) -> Result<Vec<X>, Memory>
    requires { (count : ℕ) × AreNumbered count answers.items }
    ensures same { IfOk result (λ sorted. IsPermutation answers.items (enumerate_from 0 sorted.items)) }
    ensures long { (count : ℕ) → AreNumbered count answers.items → IfOk result (λ sorted. length sorted.items ≡ count) }
{
    let mut answers = answers;
    answers.sort_unstable_by_key(|answer| answer.0);
    let (_, sorted) = unzip(alloc, answers)?;
    Ok(sorted)
}

/// Does each job on a thread of its own. Returns the answers in the order of the jobs.
pub(crate) fn on_threads<R: Threads + Sync, J: Send + Drop, X: Send + Drop, F: Fn(J) -> X + Sync>(
    rt: &R,
    jobs: Vec<J>,
    workers: Workers,
    work: &F,
) -> Result<Vec<X>, Memory>
    requires few { length jobs.items ≤ workers }
    requires each { All (λ job. F.pre work.now job) jobs.items }
    ensures { IfOk result (λ answers. AllZip (λ job answer. F.post work.now job answer) jobs.items answers.items) }
{
    Ok(thread::map_vec(rt, jobs, work)?)
}

/// Does each job, one after the other. Returns the answers in the order of the jobs.
pub(crate) fn in_turn<J: Drop, X: Drop, F: Fn(J) -> X>(
    alloc: Global,
    jobs: Vec<J>,
    work: &F,
) -> Result<Vec<X>, Memory>
    requires { All (λ job. F.pre work.now job) jobs.items }
    ensures { IfOk result (λ answers. AllZip (λ job answer. F.post work.now job answer) jobs.items answers.items) }
{
    let mut answers = Vec::with_capacity(alloc, jobs.len())?;
    for job in jobs {
        answers.push(work(job))?;
    }
    Ok(answers)
}

/// Returns the values of all answers. Err: the first error among the answers, or `Memory`.
pub(crate) fn all_done<X: Drop, E: Drop + From<Memory>>(
    alloc: Global,
    answers: Vec<Result<X, E>>,
) -> Result<Vec<X>, E>
    ensures done { IfOk result (λ done. answers.items ≡ map Ok done.items) }
    ensures fault { IfErr result (λ fault. IsFirstErr answers.items fault ⊎ ((memory : MemoryValue) × E.from_gives memory fault)) }
{
    let mut done = Vec::new(alloc);
    for answer in answers {
        done.push(answer?).map_err(|refused| Memory::from(refused))?;
    }
    Ok(done)
}

/// Numbers these, from 0.
pub(crate) fn numbered<T: Drop>(alloc: Global, items: Vec<T>) -> Result<Vec<(usize, T)>, Memory>
    ensures { IfOk result (λ numbered. numbered.items ≡ enumerate_from 0 items.items) }
{
    Ok(items.into_iter().enumerate().collect(alloc)?)
}

/// Puts the lists together, one after the other.
pub(crate) fn concat<X: Drop>(alloc: Global, lists: Vec<Vec<X>>) -> Result<Vec<X>, Memory>
    ensures { IfOk result (λ all. all.items ≡ flat_map (λ list. list.items) lists.items) }
{
    let mut all = Vec::new(alloc);
    for mut list in lists {
        all.append(&mut list)?;
    }
    Ok(all)
}

/// Splits pairs into their firsts and their seconds. Err: out of memory.
pub(crate) fn unzip<A: Drop, B: Drop>(
    alloc: Global,
    pairs: Vec<(A, B)>,
) -> Result<(Vec<A>, Vec<B>), Memory>
    ensures firsts { IfOk result (λ lists. lists.0.items ≡ map (λ pair. pair.0) pairs.items) }
    ensures seconds { IfOk result (λ lists. lists.1.items ≡ map (λ pair. pair.1) pairs.items) }
{
    Ok(pairs.into_iter().unzip(alloc)?)
}

/// Deals the jobs to shares in turn. There is one share for each worker, but there are no more shares than jobs, so
/// that no thread is made for nothing; there is at least one. The last job is dealt first, and the share that gets a
/// job moves to the front.
pub(crate) fn deal<J: Drop>(
    alloc: Global,
    jobs: Vec<J>,
    workers: u32,
) -> Result<Vec<VecDeque<J>>, Memory>
    ensures some { IfOk result (λ shares. 0 < length shares.items) }
    ensures few { IfOk result (λ shares. length shares.items ≤ max 1 workers) }
    ensures dealt { IfOk result (λ shares. AreDealt jobs.items (map (λ share. share.items) shares.items)) }
{
    let count = (workers as usize).min(jobs.len()).max(1);
    let mut shares = Vec::new(alloc);
    shares.resize_with(count, || VecDeque::new(alloc))?;
    let mut jobs = jobs;
    while let Some(job) = jobs.pop() {
        shares.rotate_right(1);
        shares[0].push_front(job)?;
    }
    Ok(shares)
}

/// Gathers the answers of all shares in the order of the jobs.
pub(crate) fn gather<X: Drop>(alloc: Global, parts: Vec<IntoIter<X>>) -> Result<Vec<X>, Memory>
    requires { 0 < length parts.items }
    ensures { IfOk result (λ gathered. (answers : List X) → AreDealt answers (map into_iter_items parts.items) → gathered.items ≡ answers) }
{
    let mut parts = parts;
    let mut answers = Vec::new(alloc);
    while let Some(answer) = parts[0].next() {
        answers.push(answer)?;
        parts.rotate_left(1);
    }
    Ok(answers)
}

/// Closes a board whose passes are back. No pass saw a number below the least that was noted. If a pass found that no
/// number was left, each number was drawn.
pub(crate) fn close(board: Board, passes: Vec<Pass>)
    requires { All (λ pass. pass.board ≡ board) passes.items }
    ensures saw { board.passes ≤ length passes.items → SawNoneBelow (least_noted passes.items) passes.items }
    ensures drawn { board.passes ≤ length passes.items → SomeIsDone passes.items →
        (number : ℕ) → number < board.total → 0 < times_drawn number passes.items }
{
    let _closed = board.close(passes);
}
