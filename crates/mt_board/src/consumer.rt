//! Consumers: the right to take jobs from a queue.
ghost use Rattle.std.specs.Prelude.{◌≡◌};

use crate::known::Known;
use atomic_table::Seat;
use std::marker::Model;

/// The right to take jobs from one queue. A consumer is never copied, so contracts know all that it did: the numbers of the
/// jobs that it took.
#[derive(Drop)]
pub struct Consumer<J: Drop> {
    /// The seat at the queue's table. Each step of the consumer goes through it.
    pub(crate) seat: Seat<Option<J>, Known<J>>,
    /// Its number among the consumers of its queue.
    pub(crate) number: u32,
    /// Whether it found that no job is left.
    pub(crate) done: bool,
}

impl<J: Drop> Model for Consumer<J> {
    ghost use Rattle.mt_board.specs.Queue.{ConsumerView};

    ghost Value = { ConsumerView J };

    ghost use Rattle.mt_board.specs.Steps.QueueRule.{consumer_view, IsConsumer};

    ghost view = { λ c. consumer_view c.seat.table_id c.number c.done c.seat.me.0 };

    ghost invariant = { λ c. IsConsumer c.done c.seat.me };
}

impl<J: Drop> Consumer<J> {
    /// Returns its number among the consumers of its queue, counted from 0.
    pub fn number(&self) -> u32
        ensures { result ≡ self.now.number }
    {
        self.number
    }
}
