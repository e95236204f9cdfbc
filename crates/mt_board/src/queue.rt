//! A queue of jobs that threads take, each once.
ghost use Rattle.std.specs.Prelude.{◌≡◌, ◌<◌, ◌++◌, [], ◌∷◌, true, length, slice_get, All, IfOk, IfSome, IsTrue, MatchOption, None, Some};
ghost use Rattle.mt_board.specs.Queue.{AreBack, TookEach, fresh_consumer, fresh_consumers};

use crate::consumer::Consumer;
use crate::known::{Known, Opening, QueueRule, Rest, ShareJobs, Take, Tell};
use atomic_table::Table;
use std::alloc::{AllocError, Global};
use std::marker::Model;
use std::snapshot::Snapshot;

/// The index of the table's word that has the number of the next job.
const NEXT: usize = 0;

/// Jobs in their order, each of which one thread takes.
#[derive(Drop)]
pub struct Queue<J: Drop> {
    table: Table<Option<J>, Known<J>, Opening<J>, QueueRule, Global>,
    /// The number of jobs.
    count: usize,
}

impl<J: Drop> Model for Queue<J> {
    ghost use Rattle.mt_board.specs.Queue.{QueueView};

    ghost Value = { QueueView J };

    ghost use Rattle.std.specs.Prelude.{◌≡◌, length};

    ghost view = { λ q. record { table = q.table.shared.table_id; jobs = q.table.shared.key.jobs.value.items; consumers = q.table.shared.key.consumers } };

    ghost invariant = { λ q. (q.count ≡ length q.table.shared.key.jobs.value.items) × (q.table.shared.table_id.words ≡ 1) };
}

impl<J: Drop> Queue<J> {
    /// Creates a queue of these jobs, and returns it with its consumers, in order of their numbers. Err: out of memory.
    pub fn open(
        alloc: Global,
        jobs: Vec<J>,
        consumers: u32,
    ) -> Result<(Queue<J>, Vec<Consumer<J>>), AllocError>
        ensures jobs { IfOk result (λ opened. opened.0.jobs ≡ jobs.items) }
        ensures many { IfOk result (λ opened. opened.0.consumers ≡ consumers) }
        ensures consumers { IfOk result (λ opened. opened.1.items ≡ fresh_consumers opened.0 consumers) }
        ensures fresh { IfOk result (λ opened. All (λ consumer. consumer ≡ fresh_consumer opened.0 consumer.number) opened.1.items) }
    {
        let opening = Opening {
            jobs: Snapshot::of(&jobs),
            consumers,
        };
        let count = jobs.len();
        let slots = jobs.into_iter().map(|job| Some(job)).collect(alloc)?;
        let Ok((table, mut seat)) = Table::new(alloc, &[0], slots, &opening) else {
            return Err(AllocError);
        };
        let mut dealt = Vec::with_capacity(alloc, consumers as usize)?;
        for number in 0..consumers {
            let seat = table.shared.split_seat::<ShareJobs>(&mut seat);
            dealt.push_reserved(Consumer {
                seat,
                number,
                done: false,
            });
        }
        Ok((Queue { table, count }, dealt))
    }

    /// Returns the number of all jobs, also of those that were taken.
    pub fn len(&self) -> usize
        ensures { result ≡ length self.now.jobs }
    {
        self.count
    }

    /// Takes the next job in one atomic step, and returns it with its number. No other consumer takes it, and the numbers
    /// that one consumer takes rise.
    ///
    /// Returns None only once each job is taken: `close` asks for one such consumer, and tells so. After that, the consumer
    /// takes no further step.
    pub fn take(&self, consumer: &mut Consumer<J>) -> Option<(usize, J)>
        requires { consumer.old.queue ≡ self.now }
        ensures job { IfSome result (λ taken. slice_get self.now.jobs taken.0 ≡ Some taken.1) }
        ensures rises { IfSome result (λ taken. All (λ earlier. earlier < taken.0) consumer.old.taken) }
        ensures consumer { MatchOption result (consumer.new ≡ record consumer.old { done = true }) (λ taken. consumer.new ≡ record consumer.old { taken = consumer.old.taken ++ taken.0 ∷ [] }) }
        ensures stays { IsTrue consumer.old.done → result ≡ None }
    {
        if consumer.done {
            return None;
        }
        let next = self
            .table
            .shared
            .fetch_add::<Take>(&mut consumer.seat, NEXT, 1);
        if next >= self.count as u64 {
            consumer.done = true;
            return None;
        }
        let number = next as usize;
        let job = self
            .table
            .shared
            .exchange(&mut consumer.seat, number, None)?;
        Some((number, job))
    }

    /// Takes all consumers back, once one of them found that no job is left: together they took each job once.
    pub fn close(&self, mut consumers: Vec<Consumer<J>>)
        requires { AreBack self.now consumers.items }
        ensures { TookEach self.now consumers.items }
    {
        let Some(last) = consumers.pop() else {
            unreachable!()
        };
        let Consumer { mut seat, .. } = last;
        while let Some(consumer) = consumers.pop() {
            let Consumer {
                seat: mut other,
                ..
            } = consumer;
            self.table.shared.load::<Rest>(&mut other, NEXT);
            self.table.shared.join_seat::<ShareJobs>(&mut seat, other);
        }
        self.table.shared.load::<Tell>(&mut seat, NEXT);
    }
}
