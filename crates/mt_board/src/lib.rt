//! A board from which threads draw work, and on which they share the least number that any of them noted.
//!
//! A `Board` gives out the numbers below a total, each once, in rising order. The holder of a `Pass` of the board may
//! `claim` the next number, `note` a number of its own, and look at the board's `least` number. Each of these is
//! one atomic step through a `&Board`: no call waits for another thread. `Board::close` takes all passes back, and its
//! contract says what they did together, however the threads' steps were interleaved. `Closed` has the least number
//! noted.
//!
//! ```
//! let (board, mut passes) = Board::open(alloc, 3, 1)?;
//! for pass in &mut passes {
//!     while let Some(number) = board.claim(pass) {
//!         board.note(pass, work_on(number));
//!     }
//! }
//! if let Ok(closed) = board.close(passes) {
//!     // Each of 0, 1 and 2 was worked on once.
//!     report(closed.least);
//! }
//! ```
//!
//! A `Queue` owns jobs: the holder of one of its `Consumer`s may `take` the next one that is left.
//!
//! Begin with `board.rt` and `specs/Board.antt`, which state what a board does. `view.rt` and `specs/Steps/Rule.antt` have
//! the rule that each step keeps.
#![tactic(auto)]

mod board;
mod consumer;
mod known;
mod pass;
mod queue;
#[cfg(test)]
mod tests;
mod view;

pub use board::{Board, BoardFault, Closed, MOST_NUMBERS, MOST_PASSES};
pub use consumer::Consumer;
pub use pass::Pass;
pub use queue::Queue;
