//! Passes: the right to draw from a board.
ghost use Rattle.std.specs.Prelude.{◌≡◌};

use crate::view::SeatView;
use atomic_table::Seat;
use std::marker::Model;

/// The right to draw from one board, and to note and see its least number. A pass is never copied, so contracts know
/// all that it did: the numbers it drew, the least number it noted, and the numbers it saw.
#[derive(Drop)]
pub struct Pass {
    /// The number of the pass among those of its board.
    pub(crate) number: u32,
    /// Whether a claim found that no number is left.
    pub(crate) done: bool,
    /// The seat at the board's table. Each step of the pass goes through it.
    pub(crate) seat: Seat<(), SeatView>,
}

impl Model for Pass {
    ghost use Rattle.mt_board.specs.Board.{PassView};

    ghost Value = { PassView };

    ghost use Rattle.std.specs.Prelude.{◌≡◌, [], if◌then◌else◌};
    ghost use Rattle.mt_board.specs.Steps.Rule.{pass_view};

    ghost view = { λ p. pass_view p.seat.table_id p.number p.done p.seat.me.0 };

    ghost invariant = { λ p. (p.seat.me.1 ≡ []) × (p.seat.me.0.parts ≡ 1) × (p.seat.me.0.done ≡ (if p.done then 1 else 0)) };
}

impl Pass {
    /// Returns the number of the pass among those of its board, counted from 0.
    pub fn number(&self) -> u32
        ensures { result ≡ self.now.number }
    {
        self.number
    }
}
