//! The view of a seat at a queue's table, the rule that every step keeps, and what a step guarantees its caller. Word 0 of
//! the table is the number of the next job, as the next number of a board. Slot i has job i until it is taken.
use crate::view::SeatView;
use atomic_table::{Join, Play, Split, TableRule};
use std::collections::LinkedList;
use std::snapshot::Snapshot;

/// What a queue was made of. It is the key of the table.
#[derive(Drop)]
pub struct Opening<J> {
    /// The jobs. This field takes no bytes.
    pub jobs: Snapshot<Vec<J>>,
    /// How many consumers the queue has.
    pub consumers: u32,
}

/// What a seat knows: the jobs, and of their numbers what a seat at a board knows. It exists in proofs alone: no value of
/// it is ever made.
pub struct Known<J> {
    pub jobs: LinkedList<J>,
    pub numbers: SeatView,
}

/// The rule of the table, which holds between any two steps.
pub struct QueueRule;

impl<J> TableRule<Option<J>, Known<J>, Opening<J>> for QueueRule {
    ghost use Rattle.mt_board.specs.Steps.QueueRule.{IsQueue, first_known};

    ghost holds = { λ all. IsQueue all.jobs.value.items all.consumers };

    ghost first = { λ all. first_known all.jobs.value.items all.consumers };
}

/// The step that takes the next job.
pub(crate) struct Take;

impl<J> Play<Option<J>, Known<J>> for Take {
    ghost use Rattle.mt_board.specs.Steps.QueueRule.{Takes};

    ghost then = { Takes };
}

/// The step that tells a seat of all consumers what they took.
pub(crate) struct Tell;

impl<J> Play<Option<J>, Known<J>> for Tell {
    ghost use Rattle.mt_board.specs.Steps.QueueRule.{Tells};

    ghost then = { Tells };
}

/// The step that puts back the slot that a seat holds.
pub(crate) struct Rest;

impl<J> Play<Option<J>, Known<J>> for Rest {
    ghost use Rattle.mt_board.specs.Steps.QueueRule.{Rests};

    ghost then = { Rests };
}

/// Splits off a seat for one consumer, and joins two seats.
pub(crate) struct ShareJobs;

impl<J> Split<Known<J>> for ShareJobs {
    ghost use Rattle.mt_board.specs.Steps.QueueRule.{without_one_consumer, one_consumer};

    ghost left = { without_one_consumer };

    ghost right = { one_consumer };
}

impl<J> Join<Known<J>> for ShareJobs {
    ghost use Rattle.mt_board.specs.Steps.QueueRule.{both_known, nothing_known};

    ghost both = { both_known };

    ghost spent = { nothing_known };
}
