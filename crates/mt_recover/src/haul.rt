//! The replayed pieces that a worker drew.
ghost use Rattle.std.specs.Prelude.{◌≡◌, ◌==◌, length};
ghost use Rattle.std.specs.List.{list_any};

use crate::job::Job;
use mt_tree::Draft;
use std::snapshot::Snapshot;

/// A replayed piece of a job.
#[derive(Drop)]
pub(crate) struct Piece {
    pub number: u32,
    pub draft: Draft,
}

/// The replayed pieces of a job that were drawn in one call of `work`.
#[derive(Drop)]
pub struct Haul {
    /// The job of the pieces. This field takes no bytes.
    pub(crate) of: Snapshot<Job>,
    /// The pieces, in the order in which they were drawn.
    pub(crate) pieces: Vec<Piece>,
}

impl Haul {
    /// Returns the number of pieces that it holds.
    pub fn len(&self) -> usize
        ensures { result ≡ length self.now.pieces.items }
    {
        self.pieces.len()
    }

    /// Returns whether it holds the piece of this number.
    pub fn holds(&self, piece: u32) -> bool
        ensures { result ≡ list_any (λ held. held.number == piece) self.now.pieces.items }
    {
        self.pieces.iter().any(|held| held.number == piece)
    }
}
