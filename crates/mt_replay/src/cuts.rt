//! Cuts that divide the keys into pieces.
ghost use Rattle.std.specs.Prelude.{◌≡◌, ◌≤◌, ◌<◌, ◌+◌, ◌↔◌, ◌++◌, [], length, map, filter, max, All, IfOk, IfErr, IsSome, IfSome};
ghost use Rattle.mt_words.specs.Limits.{widest};
ghost use Rattle.mt_words.specs.Words.{IsKey, AreRising};
ghost use Rattle.mt_words.specs.Walks.{joined};
ghost use Rattle.mt_replay.specs.declared.cuts.TheConstants.{MOST_PIECES};
ghost use Rattle.mt_replay.specs.Batches.{batched};
ghost use Rattle.mt_replay.specs.Cuts.{AreCuts, IsCutFault};
ghost use Rattle.mt_replay.specs.Even.{IsEven, AreEvenCuts, BeginPieces};
ghost use Rattle.mt_replay.specs.Survivors.{in_window};

use crate::keys::{sampled_keys, surviving_keys};
use crate::{Batch, SortedUpdates, Window};
use mt_words::{Key, Memory};
use std::alloc::Global;
use std::marker::Model;
use std::thread::Threads;

/// The greatest number of pieces.
pub const MOST_PIECES: u32 = 4096;

/// The greatest number of cuts.
pub const MOST_CUTS: usize = MOST_PIECES as usize - 1;

/// Why keys are not cuts. The variants are numbered 1 and 2, in this order.
#[derive(Clone, Copy, Debug, PartialEq, Eq)]
pub enum CutFault {
    /// The key at place `at` is not above the one before it.
    NotRising { at: usize },
    /// There are more than `MOST_CUTS` keys.
    TooMany,
}

/// At most `MOST_CUTS` keys that strictly rise. Each begins a piece. The first piece has the keys below them all.
#[derive(Debug, Drop)]
pub struct Cuts {
    keys: Vec<Key>,
}

impl Model for Cuts {
    ghost use Rattle.std.specs.Prelude.{List, ℕ};
    ghost use Rattle.mt_replay.specs.Cuts.{AreCuts};

    ghost Value = { List (List ℕ) };

    ghost view = { λ c. c.keys.items };

    ghost invariant = { λ c. AreCuts c.keys.items };
}

/// A requested number of pieces: 1 to `MOST_PIECES`.
#[derive(Clone, Copy, Debug)]
pub struct Pieces {
    count: u32,
}

impl Model for Pieces {
    ghost use Rattle.std.specs.Prelude.{ℕ, ◌<◌, ◌≤◌};
    ghost use Rattle.mt_replay.specs.declared.cuts.TheConstants.{MOST_PIECES};

    ghost Value = { ℕ };

    ghost view = { λ p. p.count };

    ghost inverse = { λ n. record { count = n } };

    ghost invariant = { λ p. (0 < p.count) × (p.count ≤ MOST_PIECES) };
}

impl Pieces {
    /// Returns this number of pieces. Returns None if it is 0 or more than `MOST_PIECES`.
    pub fn new(count: u32) -> Option<Pieces>
        ensures accepted { IsSome result ↔ (0 < count) × (count ≤ MOST_PIECES) }
        ensures value { IfSome result (λ pieces. pieces ≡ count) }
    {
        if count == 0 || count > MOST_PIECES {
            return None;
        }
        Some(Pieces { count })
    }

    /// Returns the number of pieces.
    pub fn count(self) -> u32
        ensures { result ≡ self }
    {
        self.count
    }
}

impl Cuts {
    /// Creates cuts at these keys. Err: the keys do not strictly rise, or there are more than `MOST_CUTS`.
    pub fn new(keys: Vec<Key>) -> Result<Cuts, CutFault>
        ensures cuts { IfOk result (λ cuts. (cuts ≡ keys.items) × AreCuts cuts) }
        ensures fault { IfErr result (IsCutFault keys.items) }
    {
        for at in 1..keys.len() {
            if keys[at - 1] >= keys[at] {
                return Err(CutFault::NotRising { at });
            }
        }
        if keys.len() > MOST_CUTS {
            return Err(CutFault::TooMany);
        }
        Ok(Cuts { keys })
    }

    /// Creates an empty list of cuts: all keys are one piece.
    pub fn none(alloc: Global) -> Cuts
        ensures { result ≡ [] }
    {
        Cuts {
            keys: Vec::new(alloc),
        }
    }

    /// Copies the cuts. Err: out of memory.
    pub fn try_copy(&self) -> Result<Cuts, Memory>
        ensures { IfOk result (λ copy. copy ≡ self.now) }
    {
        let keys = copies_of(*self.keys.allocator(), &self.keys)?;
        Ok(Cuts { keys })
    }

    /// Returns the number of pieces that the cuts make.
    pub fn pieces(&self) -> u32
        ensures value { result ≡ length self.now + 1 }
        ensures lawful { AreCuts self.now }
    {
        self.keys.len() as u32 + 1
    }

    /// Returns the keys.
    pub(crate) fn keys(&self) -> &[Key]
        ensures value { result.now ≡ self.now }
        ensures lawful { AreCuts self.now }
    {
        &self.keys
    }

    /// Returns cuts that divide the keys of the updates into pieces with about the same number of keys each. It sorts
    /// the keys of all updates, even for one piece.
    /// Err: out of memory.
    pub fn even(
        rt: &(impl Threads + Sync),
        alloc: Global,
        lists: &[SortedUpdates],
        pieces: Pieces,
    ) -> Result<Cuts, Memory>
        ensures { IfOk result (IsEven (joined lists.now) pieces) }
    {
        // Without a batch any window will do.
        let window = Window {
            begin: 0,
            cutoff: 0,
        };
        Cuts::even_of_batches(rt, alloc, &[], window, lists, pieces)
    }

    /// Returns the even cuts of the keys of these entries and of the updates of these batches that are in the window.
    /// Err: out of memory.
    pub fn even_of_batches(
        rt: &(impl Threads + Sync),
        alloc: Global,
        batches: &[Batch],
        window: Window,
        entries: &[SortedUpdates],
        pieces: Pieces,
    ) -> Result<Cuts, Memory>
        ensures { IfOk result (IsEven (filter (in_window window) (batched batches.now) ++ joined entries.now) pieces) }
    {
        let keys = surviving_keys(rt, alloc, batches, window, entries)?;
        Cuts::even_of(alloc, &keys, pieces)
    }

    /// Returns cuts into at most `pieces` pieces with roughly the same number of updates each, found in a sample of the
    /// keys of these batches and entries. They are found much sooner than even cuts, which need all keys.
    /// Err: out of memory.
    pub fn sampled(
        alloc: Global,
        batches: &[Batch],
        entries: &[SortedUpdates],
        pieces: Pieces,
    ) -> Result<Cuts, Memory>
        ensures { IfOk result (λ cuts. length cuts < pieces) }
    {
        let keys = sampled_keys(alloc, batches, entries, pieces.count)?;
        Cuts::even_of(alloc, &keys, pieces)
    }

    /// Returns cuts of rising keys into pieces with about the same number of keys each. Err: out of memory.
    fn even_of(alloc: Global, keys: &[&[u8]], pieces: Pieces) -> Result<Cuts, Memory>
        requires rising { AreRising (map (λ key. key.now) keys.now) }
        requires lawful { All (IsKey widest) (map (λ key. key.now) keys.now) }
        ensures { IfOk result (AreEvenCuts (map (λ key. key.now) keys.now) pieces) }
    {
        let asked = (pieces.count as usize).min(keys.len().max(1));
        let keys = even_keys(alloc, keys, asked)?;
        Ok(Cuts { keys })
    }
}

/// Copies the keys. Err: out of memory.
fn copies_of(alloc: Global, keys: &[Key]) -> Result<Vec<Key>, Memory>
    ensures { IfOk result (λ copies. copies.items ≡ keys.now) }
{
    let mut copies = Vec::with_capacity(alloc, keys.len())?;
    for key in keys {
        copies.push(key.try_copy()?)?;
    }
    Ok(copies)
}

/// Returns the keys at which the pieces after the first begin, for `pieces` even pieces. Err: out of memory.
fn even_keys(alloc: Global, keys: &[&[u8]], pieces: usize) -> Result<Vec<Key>, Memory>
    requires lawful { All (IsKey widest) (map (λ key. key.now) keys.now) }
    requires some { 0 < pieces }
    requires within { pieces ≤ max (length keys.now) 1 }
    ensures count { IfOk result (λ cuts. length cuts.items + 1 ≡ pieces) }
    ensures begin { IfOk result (λ cuts. BeginPieces (map (λ key. key.now) keys.now) pieces cuts.items) }
{
    let mut cuts = Vec::new(alloc);
    for cut in 1..pieces {
        let place = cut as u128 * keys.len() as u128 / pieces as u128;
        cuts.push(Key::copy_of(alloc, keys[place as usize])?)?;
    }
    Ok(cuts)
}
