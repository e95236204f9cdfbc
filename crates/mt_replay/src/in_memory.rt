//! For callers that have updates in memory: no program of the repository takes this way, and nothing else in the crate
//! needs it.

mod cell;
mod group;
mod pieces;
mod spelling;

use crate::SortedUpdates;
pub use cell::{Cell, one_cell};
pub use pieces::{clashes, replay_piece};

/// The name of `SortedUpdates` for callers that have updates in memory.
pub type LogCells = SortedUpdates;
