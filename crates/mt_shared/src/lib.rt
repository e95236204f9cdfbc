//! Words that threads share, whose steps have one order.
//!
//! `Words` has some words of 64 bits. The holder of a `Hand` may add to a word, load it, or swap it, each in one atomic step
//! through a `&Words`: no call waits for another thread. `Words::close` takes all hands back, and its contract says that the
//! steps of all of them have one order, in which each finds what plain words have there.
//!
//! ```
//! let (words, mut hands) = Words::open(alloc, &[0, 7], 2)?;
//! for hand in &mut hands {
//!     let stamp = words.add(hand, 0, 1);
//!     words.swap(hand, 1, stamp);
//! }
//! if let Ok(first) = words.close(hands) {
//!     // The word 0 is 2.
//!     report(first);
//! }
//! ```
//!
//! Begin with `words.rt` and `specs/Words.antt`, which state what words do. `known.rt` and `specs/Steps/Rule.antt` have the
//! rule that each step keeps.
#![tactic(auto)]

mod hand;
mod known;
#[cfg(test)]
mod tests;
mod words;

pub use hand::Hand;
pub use known::Act;
pub use words::Words;
