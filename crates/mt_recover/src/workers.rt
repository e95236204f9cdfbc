//! The number of threads, the way in which keys are cut for them, and the gate where they can be held.
ghost use Rattle.std.specs.Prelude.{◌≡◌, ◌≤◌, ◌<◌, ◌↔◌, IsSome, IfSome, ℕ};
ghost use Rattle.mt_recover.specs.declared.workers.TheConstants.{MOST_WORKERS};

use mt_replay::{Cuts, Pieces};
use std::marker::Model;

/// The most workers.
pub const MOST_WORKERS: u32 = 64;

/// The number of threads that may work: 1 to `MOST_WORKERS`.
#[derive(Clone, Copy, Debug)]
pub struct Workers {
    count: u32,
}

impl Model for Workers {
    ghost Value = { ℕ };

    ghost view = { λ w. w.count };

    ghost inverse = { λ n. record { count = n } };

    ghost invariant = { λ w. (0 < w.count) × (w.count ≤ MOST_WORKERS) };
}

impl Workers {
    /// Returns `count` workers. None if `count` is 0 or more than `MOST_WORKERS`.
    pub fn new(count: u32) -> Option<Workers>
        ensures accepted { IsSome result ↔ (0 < count) × (count ≤ MOST_WORKERS) }
        ensures value { IfSome result (λ workers. workers ≡ count) }
    {
        if count == 0 || count > MOST_WORKERS {
            return None;
        }
        Some(Workers { count })
    }

    /// Returns the number of workers.
    pub fn count(self) -> u32
        ensures value { result ≡ self }
        ensures some { 0 < result }
    {
        self.count
    }
}

/// The way in which the keys are cut into pieces.
#[derive(Debug, Drop)]
pub enum Cutting {
    /// Into pieces with about the same number of keys.
    Even(Pieces),
    /// Into at most this many pieces, with roughly the same number of updates. This cuts much faster than `Even`.
    Sampled(Pieces),
    /// At these keys.
    At(Cuts),
}

/// A gate where a worker can be held or observed. The worker that replays a piece calls it once for that piece, before
/// the replay.
pub trait Gate: Sync {
    /// Lets the worker enter the piece. Workers and pieces are numbered from 0.
    fn enter(&self, worker: u32, piece: u32);
}

/// The gate that lets every worker through.
#[derive(Clone, Copy, Debug)]
pub struct NoGate;

impl Gate for NoGate {
    fn enter(&self, _worker: u32, _piece: u32) {}
}
