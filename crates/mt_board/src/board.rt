//! The board: numbers to draw, and the least number noted.
ghost use Rattle.std.specs.Prelude.{true, ◌≡◌, ◌+◌, ◌-◌, ◌<◌, ◌≤◌, ◌↔◌, [], ◌∷◌, ◌++◌, length, min, All, IfSome, IfOk, IfErr, OnOk, IsErr, IsTrue, MatchResult, MatchOption, Some, None};
ghost use Rattle.mt_board.specs.Board.{IsBoardFault, fresh_passes, SomeIsDone, DrewEachBelow, DrewFromBelow, least_noted, SawNoneBelow, AreCounts};

use crate::pass::Pass;
use crate::view::{BoardRule, Counts, Draw, Look, Note, SeatView, Share};
use atomic_table::Table;
use std::alloc::{AllocError, Global};
use std::marker::Model;

/// The most numbers that a board gives out.
pub const MOST_NUMBERS: u32 = 4096;

/// The most passes of a board.
pub const MOST_PASSES: u32 = 64;

/// The index of the table's word that has the next number.
const NEXT: usize = 0;

/// The index of the table's word that has the least number noted.
const LEAST: usize = 1;

/// The numbers below a total, each given out once, and the least number noted.
#[derive(Drop)]
pub struct Board {
    table: Table<(), SeatView, Counts, BoardRule, Global>,
    counts: Counts,
}

impl Model for Board {
    ghost use Rattle.mt_board.specs.Board.{BoardId};

    ghost Value = { BoardId };

    ghost use Rattle.std.specs.Prelude.{◌≡◌, ◌≤◌};

    ghost view = { λ b. record { table = b.table.shared.table_id; total = b.counts.total; passes = b.counts.passes } };

    ghost invariant = { λ b. (b.table.shared.key ≡ b.counts) × (b.table.shared.table_id.words ≡ 2) × (b.table.shared.table_id.slots ≡ 0) × (1 ≤ b.counts.passes) };
}

/// The reason why a board was not opened.
#[derive(Clone, Copy, Debug, PartialEq, Eq, Drop)]
pub enum BoardFault {
    /// More than `MOST_NUMBERS` numbers.
    Total = 1,
    /// No passes, or more than `MOST_PASSES`.
    Passes = 2,
    /// Out of memory.
    Memory = 3,
}

impl From<AllocError> for BoardFault {
    ghost use Rattle.std.specs.Prelude.{◌≡◌};
    ghost use Rattle.mt_board.specs.declared.board.BoardFault.TheVariants.{Memory};

    ghost from_gives = { λ _ fault. fault ≡ Memory };

    fn from(_error: AllocError) -> BoardFault {
        BoardFault::Memory
    }
}

/// The result of closing a board.
#[derive(Clone, Copy, Debug, PartialEq, Eq)]
pub struct Closed {
    /// The least number that any pass noted, or `u64::MAX` if none did.
    pub least: u64,
}

impl Board {
    /// Opens a board with the numbers below `total`, and returns it with its passes, in order of their numbers.
    ///
    /// Err: `Total` if `total` is above `MOST_NUMBERS`; else `Passes` unless `passes` is 1 to `MOST_PASSES`; else
    /// `Memory` if out of memory.
    pub fn open(alloc: Global, total: u32, passes: u32) -> Result<(Board, Vec<Pass>), BoardFault>
        ensures lawful { MatchResult result (λ _. AreCounts total passes) (IsBoardFault total passes) }
        ensures board { IfOk result (λ opened. (opened.0.total ≡ total) × (opened.0.passes ≡ passes)) }
        ensures passes { IfOk result (λ opened. opened.1.items ≡ fresh_passes opened.0 passes) }
    {
        if total > MOST_NUMBERS {
            return Err(BoardFault::Total);
        }
        if passes == 0 || passes > MOST_PASSES {
            return Err(BoardFault::Passes);
        }
        let counts = Counts { total, passes };
        let mut dealt = Vec::with_capacity(alloc, passes as usize)?;
        let (table, mut seat) = Table::of_words(alloc, &[0, u64::MAX], &counts)?;
        for number in 0..passes {
            let seat = table.shared.split_seat::<Share>(&mut seat);
            let pass = Pass {
                number,
                done: false,
                seat,
            };
            dealt.push_reserved(pass);
        }
        Ok((Board { table, counts }, dealt))
    }

    /// Draws the next number, in one atomic step. No other claim draws it, and the numbers that one pass draws rise.
    ///
    /// Returns None once no number is left. After that, the pass takes no further step.
    pub fn claim(&self, pass: &mut Pass) -> Option<u32>
        requires { pass.old.board ≡ self.now }
        ensures below { IfSome result (λ number. number < self.now.total) }
        ensures rises { IfSome result (λ number. All (λ drawn. drawn < number) pass.old.draws) }
        ensures pass { MatchOption result (pass.new ≡ record pass.old { done = true }) (λ number. pass.new ≡ record pass.old { draws = pass.old.draws ++ number ∷ [] }) }
        ensures stays { IsTrue pass.old.done → result ≡ None }
    {
        if pass.done {
            return None;
        }
        let next = self.table.shared.fetch_add::<Draw>(&mut pass.seat, NEXT, 1);
        if next < u64::from(self.counts.total) {
            Some(next as u32)
        } else {
            pass.done = true;
            None
        }
    }

    /// Notes a number: lowers the board's least number to it if it is smaller, in one atomic step.
    pub fn note(&self, pass: &mut Pass, number: u64)
        requires { pass.old.board ≡ self.now }
        ensures { pass.new ≡ record pass.old { noted = min pass.old.noted number } }
    {
        self.table
            .shared
            .fetch_min::<Note>(&mut pass.seat, LEAST, number);
    }

    /// Looks at the board's least number, in one atomic step, and returns it.
    ///
    /// It is at most what this pass noted and what its earlier looks found, and at least what `close` returns. How much
    /// it has of what other passes noted, no contract says.
    pub fn least(&self, pass: &mut Pass) -> u64
        requires { pass.old.board ≡ self.now }
        ensures pass { pass.new ≡ record pass.old { looks = pass.old.looks ++ result ∷ [] } }
        ensures noted { result ≤ pass.old.noted }
        ensures seen { All (λ look. result ≤ look) pass.old.looks }
    {
        self.table.shared.load::<Look>(&mut pass.seat, LEAST)
    }

    /// Closes the board, which needs all its passes. Err: a pass is missing; then the board and the passes are
    /// returned.
    pub fn close(self, mut passes: Vec<Pass>) -> Result<Closed, (Board, Vec<Pass>)>
        requires { All (λ pass. pass.board ≡ self) passes.items }
        ensures missing { IsErr result ↔ (length passes.items < self.passes) }
        ensures back { IfErr result (λ back. (back.0 ≡ self) × (back.1 ≡ passes)) }

        // What the passes did together.
        ensures whole { OnOk result (length passes.items ≡ self.passes) }
        ensures once { OnOk result (DrewFromBelow self.total passes.items) }
        ensures all { OnOk result (SomeIsDone passes.items → DrewEachBelow self.total passes.items) }
        ensures least { IfOk result (λ closed. closed.least ≡ least_noted passes.items) }
        ensures seen { IfOk result (λ closed. SawNoneBelow closed.least passes.items) }
    {
        if passes.len() < self.counts.passes as usize {
            return Err((self, passes));
        }
        // A board has at least one pass, so there is a last one.
        let Some(last) = passes.pop() else {
            return Err((self, passes));
        };
        let Board { table, counts: _ } = self;
        let Pass { mut seat, .. } = last;
        while let Some(pass) = passes.pop() {
            let Pass { seat: other, .. } = pass;
            table.shared.join_seat::<Share>(&mut seat, other);
        }
        let closed = table.close_with(seat);
        let least = closed.word(LEAST);
        closed.free();
        Ok(Closed { least })
    }
}
