//! What a seat at the words' table knows, the rule that every step keeps, and what each step guarantees its caller. A seat is
//! the token with which a hand takes steps on the table.
use atomic_table::{Join, Play, Split, TableRule};
use std::collections::LinkedList;
use std::snapshot::Snapshot;

/// A step on one word. It exists in proofs alone, as what it is a part of: no value of it is ever made.
pub struct Act {
    /// The word that it was on.
    pub word: u64,
    /// What it found there.
    pub found: u64,
    /// What it left there.
    pub left: u64,
}

/// The acts of one hand.
pub struct Own {
    /// The number of the hand.
    pub by: u64,
    /// Its acts, in order.
    pub acts: LinkedList<Act>,
}

/// What a seat knows.
pub struct Known {
    /// The hands that it represents, with their acts.
    pub owns: LinkedList<Own>,
    /// The number of the next hand that is split off.
    pub next: u64,
    /// The number of hands that are left to be split off.
    pub parts: u64,
}

/// What words were opened with. It is the key of the table.
#[derive(Drop)]
pub struct Opening {
    /// The words. This field takes no bytes.
    pub words: Snapshot<Vec<u64>>,
    /// The number of hands.
    pub hands: usize,
}

/// The rule of the table, which holds between any two steps.
pub struct Rule;

impl TableRule<(), Known, Opening> for Rule {
    ghost use Rattle.mt_shared.specs.Steps.Rule.{IsKept, first_known};

    ghost holds = { λ all. IsKept all.words.value.items all.hands };

    ghost first = { λ all. first_known all.hands };
}

/// The step that adds to a word.
pub(crate) struct Add;

impl Play<(), Known> for Add {
    ghost use Rattle.mt_shared.specs.Steps.Rule.{Adds};

    ghost then = { Adds };
}

/// The step that reads a word.
pub(crate) struct Load;

impl Play<(), Known> for Load {
    ghost use Rattle.mt_shared.specs.Steps.Rule.{Loads};

    ghost then = { Loads };
}

/// The step that puts another value in a word.
pub(crate) struct Swap;

impl Play<(), Known> for Swap {
    ghost use Rattle.mt_shared.specs.Steps.Rule.{Swaps};

    ghost then = { Swaps };
}

/// Splits off the seat of the next hand, and joins two seats.
pub(crate) struct Share;

impl Split<Known> for Share {
    ghost use Rattle.mt_shared.specs.Steps.Rule.{without_next, next_hand};

    ghost left = { without_next };

    ghost right = { next_hand };
}

impl Join<Known> for Share {
    ghost use Rattle.mt_shared.specs.Steps.Rule.{both_known, nothing_known};

    ghost both = { both_known };

    ghost spent = { nothing_known };
}
