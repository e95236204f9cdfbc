//! The pieces of a walk as lists, and the clashes of updates in memory.
ghost use Rattle.std.specs.Prelude.{◌<◌, ◌+◌, length, filter, IfOk};
ghost use Rattle.std.specs.List.{flat_map};
ghost use Rattle.mt_words.specs.Walks.{joined};
ghost use Rattle.mt_replay.specs.Cells.{AreApart};
ghost use Rattle.mt_replay.specs.Clashes.{AreClashes};
ghost use Rattle.mt_replay.specs.Pieces.{IsPiece, IsMapIn};
ghost use Rattle.mt_replay.specs.InMemory.{is_logged_in};

use super::spelling::spell;
use crate::auditor::clashes_of;
use crate::sorting::sorted_texts;
use crate::{Clash, Cuts, Range, SortedUpdates, Window, replay_range};
use mt_words::{Key, Memory, PackedColumns, Update};
use std::alloc::Global;

/// Replays the updates whose keys lie in this piece, and returns this piece of their walk as a list.
/// Err: out of memory.
pub fn replay_piece(
    alloc: Global,
    lists: &[SortedUpdates],
    cuts: &Cuts,
    piece: u32,
) -> Result<Vec<(Key, PackedColumns)>, Memory>
    requires { piece < length cuts.now + 1 }
    ensures map { IfOk result (λ pairs. IsMapIn cuts.now piece pairs.items) }
    ensures walk { IfOk result (λ pairs. AreApart (joined lists.now) →
        IsPiece (joined lists.now) cuts.now piece pairs.items) }
{
    replay_range(
        alloc,
        &Range::new(alloc),
        lists,
        cuts,
        piece,
        Vec::new(alloc),
    )
}

/// Returns the clashes of the log updates in the window, in order: by key, then by version. Each list has updates of
/// one log; the log and the number of the record are those of the update's stamp. Entries of checkpoints do not count.
/// Err: out of memory.
#[tactic(auto, using(crate::proofs::NumberLemmas::alike_none))]
pub fn clashes(alloc: Global, logs: &[Vec<Update>], window: Window) -> Result<Vec<Clash>, Memory>
    ensures { IfOk result (λ clashes.
        AreClashes (filter (is_logged_in window) (flat_map (λ updates. updates.items) logs.now)) clashes.items) }
{
    let mut range = Range::new(alloc);
    for updates in logs {
        range.push(spell(alloc, updates, window, false)?)?;
    }
    let texts = range.texts(alloc)?;
    let sorted = sorted_texts(alloc, texts, 0, &None)?;
    clashes_of(alloc, &sorted)
}
