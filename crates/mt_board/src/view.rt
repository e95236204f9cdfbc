//! The view of a seat at the board's table, the rule that every step keeps, and what each step guarantees its caller. A
//! seat is the token with which a pass takes steps on the table. Word 0 of the table is the next number. Word 1 is the
//! least number noted.
use atomic_table::{Join, Play, Split, TableRule};
use std::collections::LinkedList;

/// The counts of a board. They are the key of the table.
#[derive(Clone, Copy)]
pub struct Counts {
    /// How many numbers the board gives out.
    pub total: u32,
    /// How many passes the board has.
    pub passes: u32,
}

/// What a seat knows. It exists in proofs alone: no value of it is ever made.
pub struct SeatView {
    /// The counts of the board. A seat has them because a step does not see the key of the table.
    pub counts: Counts,
    /// The number of passes that the seat represents. The first seat begins with all of them. The seat of a pass
    /// represents that pass alone.
    pub parts: u64,
    /// The numbers drawn, in order.
    pub draws: LinkedList<u64>,
    /// The number of its passes that found that no number is left.
    pub done: u64,
    /// The least number noted, or `u64::MAX` if none was.
    pub noted: u64,
    /// The numbers that the looks found, in order.
    pub looks: LinkedList<u64>,
}

/// The rule of the table's two words, which holds between any two steps.
pub struct BoardRule;

impl TableRule<(), SeatView, Counts> for BoardRule {
    ghost use Rattle.mt_board.specs.Steps.Rule.{IsBoard, first_view};

    ghost holds = { IsBoard };

    ghost first = { first_view };
}

/// The step that adds one to the next number.
pub(crate) struct Draw;

impl Play<(), SeatView> for Draw {
    ghost use Rattle.mt_board.specs.Steps.Rule.{Draws};

    ghost then = { Draws };
}

/// The step that lowers the least number to its operand.
pub(crate) struct Note;

impl Play<(), SeatView> for Note {
    ghost use Rattle.mt_board.specs.Steps.Rule.{Notes};

    ghost then = { Notes };
}

/// The step that reads the least number.
pub(crate) struct Look;

impl Play<(), SeatView> for Look {
    ghost use Rattle.mt_board.specs.Steps.Rule.{Looks};

    ghost then = { Looks };
}

/// Splits off a seat for one pass, and joins two seats.
pub(crate) struct Share;

impl Split<SeatView> for Share {
    ghost use Rattle.mt_board.specs.Steps.Rule.{without_one, one_part};

    ghost left = { without_one };

    ghost right = { one_part };
}

impl Join<SeatView> for Share {
    ghost use Rattle.mt_board.specs.Steps.Rule.{both_views, spent_view};

    ghost both = { both_views };

    ghost spent = { spent_view };
}
