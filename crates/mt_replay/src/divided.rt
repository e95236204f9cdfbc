//! The surviving updates, divided by their keys into the pieces that are replayed.
ghost use Rattle.std.specs.Prelude.{◌≡◌, ◌<◌, ◌+◌, ◌++◌, List, [], length, IfOk, IsPermutation};
ghost use Rattle.mt_words.specs.declared.update.Update.{Update as UpdateValue};
ghost use Rattle.mt_words.specs.Walks.{joined};
ghost use Rattle.mt_replay.specs.Cells.{AreApart};
ghost use Rattle.mt_replay.specs.Clashes.{AreClashes};
ghost use Rattle.mt_replay.specs.Cuts.{AreCuts, InKeyOrder, updates_in};
ghost use Rattle.mt_replay.specs.Divided.{AreRangesOf};
ghost use Rattle.mt_replay.specs.Pieces.{IsPiece, IsMapIn};
ghost use Rattle.mt_replay.specs.Ranges.{dealt_by};

use crate::auditor::clashes_of;
use crate::clash::Clash;
use crate::dealing::Range;
use crate::parts::{longest_in, shared_in};
use crate::replay::replay_sorted;
use crate::sorting::sorted_texts;
use crate::{Cuts, SortedUpdates};
use mt_record::Text;
use mt_words::{Memory, PairSink};
use std::alloc::Global;
use std::marker::Model;

/// The surviving updates, divided by their keys into pieces: those of the logs, dealt to the pieces but not sorted, and
/// the entries of a checkpoint. A piece is sorted when it is replayed.
#[derive(Drop)]
pub struct Divided {
    cuts: Cuts,
    ranges: Vec<Range>,
    entries: Vec<SortedUpdates>,
}

impl Model for Divided {
    ghost use Rattle.std.specs.Prelude.{◌++◌};
    ghost use Rattle.mt_words.specs.Walks.{joined};
    ghost use Rattle.mt_replay.specs.Cuts.{AreCuts};
    ghost use Rattle.mt_replay.specs.Divided.{DividedView, AreRangesOf};

    ghost Value = { DividedView };

    ghost view = { λ d. record { updates = joined d.ranges.items ++ joined d.entries.items; cuts = d.cuts } };

    ghost invariant = { λ d. AreCuts d.cuts × AreRangesOf d.cuts d.ranges.items };
}

impl Divided {
    /// Divides updates of logs, which were dealt to the pieces that the cuts make, and entries of a checkpoint.
    pub fn of(cuts: Cuts, ranges: Vec<Range>, entries: Vec<SortedUpdates>) -> Divided
        requires { AreRangesOf cuts ranges.items }
        ensures updates { result.updates ≡ joined ranges.items ++ joined entries.items }
        ensures cuts { result.cuts ≡ cuts }
    {
        // This call lets the proof see that the cuts rise.
        let _ = cuts.pieces();
        Divided {
            cuts,
            ranges,
            entries,
        }
    }

    /// Returns the number of updates.
    pub fn len(&self) -> u128
        ensures { result ≡ length self.now.updates }
    {
        let mut logged = 0;
        for range in &self.ranges {
            logged += range.len() as u128;
        }
        let mut kept = 0;
        for entries in &self.entries {
            kept += entries.len() as u128;
        }
        logged + kept
    }

    /// Returns the number of pieces.
    pub fn pieces(&self) -> u32
        ensures value { result ≡ length self.now.cuts + 1 }
        ensures lawful { AreCuts self.now.cuts }
    {
        self.cuts.pieces()
    }

    /// Takes them apart: the cuts, the updates of logs for each piece, and the entries.
    pub fn into_parts(self) -> (Cuts, Vec<Range>, Vec<SortedUpdates>)
        ensures cuts { result.0 ≡ self.cuts }
        ensures updates { joined result.1.items ++ joined result.2.items ≡ self.updates }
        ensures ranges { result.1.items ≡ dealt_by self.cuts (joined result.1.items) }
        ensures lawful { AreCuts self.cuts }
    {
        let Divided {
            cuts,
            ranges,
            entries,
        } = self;
        (cuts, ranges, entries)
    }

    /// Replays the updates whose keys lie in this piece, and adds this piece of their walk to a sink, pair by pair. The
    /// sink must be empty.
    /// Err: out of memory.
    pub fn replay_into<S: PairSink>(&self, alloc: Global, piece: u32, sink: S) -> Result<S, Memory>
        requires piece { piece < length self.now.cuts + 1 }
        requires empty { S.pairs sink ≡ [] }
        ensures map { IfOk result (λ filled. IsMapIn self.now.cuts piece (S.pairs filled)) }
        ensures walk { IfOk result (λ filled. AreApart self.now.updates →
            IsPiece self.now.updates self.now.cuts piece (S.pairs filled)) }
    {
        let sorted = self.texts(alloc, piece)?;
        replay_sorted(alloc, &sorted, sink)
    }

    /// Returns the clashes of the updates whose keys lie in this piece, in order: by key, then by version. Entries of the
    /// checkpoint do not count.
    /// Err: out of memory.
    pub fn clashes_in(&self, alloc: Global, piece: u32) -> Result<Vec<Clash>, Memory>
        requires { piece < length self.now.cuts + 1 }
        ensures { IfOk result (λ clashes. AreClashes (updates_in self.now.cuts piece self.now.updates) clashes.items) }
    {
        let sorted = self.texts(alloc, piece)?;
        clashes_of(alloc, &sorted)
    }

    /// Returns the texts of the updates whose keys lie in this piece, in the order of their keys. Err: out of memory.
    fn texts(&self, alloc: Global, piece: u32) -> Result<Vec<Text<'_>>, Memory>
        requires { piece < length self.now.cuts + 1 }
        ensures same { IfOk result (λ sorted. IsPermutation (updates_in self.now.cuts piece self.now.updates) sorted.items) }
        ensures in_order { IfOk result (λ sorted. InKeyOrder sorted.items) }
    {
        let range = &self.ranges[piece as usize];
        texts_in(alloc, range, &self.entries, &self.cuts, piece)
    }
}

/// Replays the updates whose keys lie in this piece, and adds this piece of their walk to a sink, pair by pair. The updates
/// are those of logs that lie in the piece, and entries of a checkpoint that may lie anywhere. The sink must be empty.
/// Err: out of memory.
pub fn replay_range<S: PairSink>(
    alloc: Global,
    range: &Range,
    entries: &[SortedUpdates],
    cuts: &Cuts,
    piece: u32,
    sink: S,
) -> Result<S, Memory>
    requires range { (logged : List UpdateValue) × (range.now ≡ updates_in cuts.now piece logged) }
    requires empty { S.pairs sink ≡ [] }
    ensures map { IfOk result (λ filled. IsMapIn cuts.now piece (S.pairs filled)) }
    ensures walk { IfOk result (λ filled. (logged : List UpdateValue) → range.now ≡ updates_in cuts.now piece logged →
        AreApart (logged ++ joined entries.now) → IsPiece (logged ++ joined entries.now) cuts.now piece (S.pairs filled)) }
{
    let sorted = texts_in(alloc, range, entries, cuts, piece)?;
    replay_sorted(alloc, &sorted, sink)
}

/// Returns the texts of a range, whose updates lie in this piece, and of those entries that lie in it, in the order of
/// their keys. The entries of the list that has most of them are merged. All others are sorted like updates of logs.
/// Err: out of memory.
fn texts_in<'a>(
    alloc: Global,
    range: &'a Range,
    entries: &'a [SortedUpdates],
    cuts: &Cuts,
    piece: u32,
) -> Result<Vec<Text<'a>>, Memory>
    requires { (logged : List UpdateValue) × (range.now ≡ updates_in cuts.now piece logged) }
    ensures same { IfOk result (λ sorted. IsPermutation (range.now ++ updates_in cuts.now piece (joined entries.now)) sorted.items) }
    ensures in_order { IfOk result (λ sorted. InKeyOrder sorted.items) }
{
    let depth = shared_in(cuts, piece);
    let mut texts = range.texts(alloc)?;
    let part = longest_in(&mut texts, entries, cuts, piece)?;
    sorted_texts(alloc, texts, depth, &part)
}
