//! Updates in memory, or the entries of a checkpoint part, sorted by key.
ghost use Rattle.std.specs.Prelude.{◌≡◌, ◌≤◌, ◌<◌, true, false, IfOk, IsPermutation, List, length, map, slice_index_or};
ghost use Rattle.std.specs.List.Sorted.{IsPartitionPoint};
ghost use Rattle.mt_words.specs.declared.update.Update.{Update as UpdateValue};
ghost use Rattle.mt_words.specs.Words.{AreRising};
ghost use Rattle.mt_replay.specs.Survivors.{wholes};
ghost use Rattle.mt_replay.specs.Cuts.{is_below, InKeyOrder};

use crate::sorting::sorted_texts;
use mt_record::{Bodies, KeptEntries, Lent, Stream, Text, comes_before};
use mt_words::Memory;
use std::alloc::Global;
use std::marker::Model;

/// Where the updates lie.
#[derive(Drop)]
enum Held {
    /// In bodies that were sorted.
    Sorted(Bodies),
    /// In entries, as they were read.
    Read(KeptEntries),
}

/// Updates, or the entries of a checkpoint part, sorted by key. Their bodies lie in the same order, so that replay reads
/// memory in order.
#[derive(Drop)]
pub struct SortedUpdates {
    held: Held,
}

impl Model for SortedUpdates {
    ghost use Rattle.std.specs.Prelude.{List};
    ghost use Rattle.mt_words.specs.declared.update.Update.{Update};
    ghost use Rattle.mt_replay.specs.Cuts.{InKeyOrder};
    ghost use Rattle.mt_replay.specs.Steps.SortedUpdates.{held_in};

    ghost Value = { List Update };

    ghost view = { λ c. held_in c.held };

    ghost invariant = { λ c. InKeyOrder (held_in c.held) };
}

impl SortedUpdates {
    /// Returns the entries of a checkpoint part. All of them survive, and they stay where they are. Their keys must
    /// strictly rise. No call tests that: only the parts of a valid checkpoint promise it.
    #[tactic(auto, using(crate::proofs::Rising::entries_in_order))]
    pub fn of_rising(entries: KeptEntries) -> SortedUpdates
        requires { AreRising (map (λ entry. entry.key) entries) }
        ensures { result ≡ wholes entries }
    {
        SortedUpdates {
            held: Held::Read(entries),
        }
    }

    /// Returns the number of updates.
    pub fn len(&self) -> usize
        ensures value { result ≡ length self.now }
        ensures in_order { InKeyOrder self.now }
    {
        match &self.held {
            Held::Sorted(bodies) => bodies.len(),
            Held::Read(entries) => entries.len(),
        }
    }

    /// Returns the update at this place.
    pub fn get(&self, at: usize) -> Lent<'_>
        requires { at < length self.now }
        ensures { (d : UpdateValue) → result ≡ slice_index_or self.now at d }
    {
        self.text(at).lent()
    }

    /// Returns the text of the update at this place.
    pub(crate) fn text(&self, at: usize) -> Text<'_>
        requires { at < length self.now }
        ensures { (d : UpdateValue) → result ≡ slice_index_or self.now at d }
    {
        match &self.held {
            Held::Sorted(bodies) => bodies.text(at),
            Held::Read(entries) => Text::of_entry(entries.update(at)),
        }
    }

    /// Returns the number of updates whose keys are below this one.
    pub fn place_of(&self, key: &[u8]) -> usize
        ensures within { result ≤ length self.now }
        ensures point { IsPartitionPoint (λ update. is_below update.key key.now ≡ true)
            (λ update. is_below update.key key.now ≡ false) self.now result }
    {
        let mut low = 0;
        let mut high = self.len();
        while low < high {
            let middle = low + (high - low) / 2;
            let update = self.get(middle);
            if comes_before(update.key(), key) {
                low = middle + 1;
            } else {
                high = middle;
            }
        }
        low
    }
}

/// Copies these updates in the order of their keys. Err: out of memory.
#[tactic(auto, using(crate::proofs::NumberLemmas::alike_none))]
pub(crate) fn in_order(alloc: Global, updates: &Stream) -> Result<SortedUpdates, Memory>
    ensures { IfOk result (λ sorted. IsPermutation updates.now sorted) }
{
    let mut texts = Vec::with_capacity(alloc, updates.len())?;
    updates.add_to(&mut texts)?;
    let sorted = sorted_texts(alloc, texts, 0, &None)?;
    gather(alloc, &sorted)
}

/// Copies these texts, in order. Err: out of memory.
fn gather(alloc: Global, texts: &[Text<'_>]) -> Result<SortedUpdates, Memory>
    requires { InKeyOrder texts.now }
    ensures { IfOk result (λ sorted. sorted ≡ texts.now) }
{
    let mut bodies = Bodies::new(alloc);
    for text in texts {
        bodies.push(text)?;
    }
    let held = Held::Sorted(bodies);
    Ok(SortedUpdates { held })
}
