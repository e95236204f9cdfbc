//! Hands: the right to take steps on shared words.
ghost use Rattle.std.specs.Prelude.{◌≡◌};

use crate::known::Known;
use atomic_table::Seat;
use std::marker::Model;

/// The right to take steps on some words. A hand is never copied, so contracts know all that it did.
#[derive(Drop)]
pub struct Hand {
    /// Its number among the hands of its words.
    pub(crate) number: usize,
    /// The seat at the words' table. Each step of the hand goes through it.
    pub(crate) seat: Seat<(), Known>,
}

impl Model for Hand {
    ghost use Rattle.std.specs.Prelude.{◌≡◌, [], if◌then◌else◌};
    ghost use Rattle.mt_shared.specs.Words.{HandView};
    ghost use Rattle.mt_shared.specs.Steps.Rule.{acts_in, lone};

    ghost Value = { HandView };

    ghost view = { λ h. record { table = h.seat.table_id; number = h.number; acts = acts_in h.seat.me.0.owns } };

    ghost invariant = { λ h. h.seat.me ≡ (lone h.number (acts_in h.seat.me.0.owns), []) };
}

impl Hand {
    /// Returns the number of the hand among those of its words, counted from 0.
    pub fn number(&self) -> usize
        ensures { result ≡ self.now.number }
    {
        self.number
    }
}
