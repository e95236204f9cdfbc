//! Deals updates to the pieces of their keys, before anything is sorted.
ghost use Rattle.std.specs.Prelude.{◌≡◌, ◌≤◌, ◌<◌, ◌+◌, ◌++◌, [], List, ℕ, true, IfOk, OnOk, length, map, filter};
ghost use Rattle.mt_words.specs.declared.update.Update.{Update as UpdateValue};
ghost use Rattle.mt_words.specs.Slices.{slice_in};
ghost use Rattle.mt_words.specs.Words.{AreRising};
ghost use Rattle.mt_words.specs.Walks.{joined};
ghost use Rattle.mt_words.specs.OneLog.{as_list};
ghost use Rattle.mt_record.specs.Shares.{updates_of_share};
ghost use Rattle.mt_replay.specs.Cuts.{AreCuts, in_piece};
ghost use Rattle.mt_replay.specs.Ranges.{dealt_by};
ghost use Rattle.mt_replay.specs.Steps.Dealing.{extended};
ghost use Rattle.mt_replay.specs.Survivors.{in_window};

use crate::batch::Batch;
use crate::{Cuts, Window};
use mt_record::{Lent, Share, Stream, Text, is_below_by};
use mt_words::{Key, Memory, slice_of};
use std::alloc::Global;
use std::marker::Model;

/// The number of bytes for which room is made in a list for each update.
const TEXT: usize = 64;

/// The updates of some records, dealt to the pieces of their keys: a list for each piece.
#[derive(Drop)]
pub struct Dealt {
    lists: Vec<Stream>,
}

impl Model for Dealt {
    ghost use Rattle.std.specs.Prelude.{List};
    ghost use Rattle.mt_words.specs.declared.update.Update.{Update};

    ghost Value = { List (List Update) };

    ghost view = { λ d. d.lists.items };
}

impl Dealt {
    /// Deals the updates of a batch that are in the window, and drops each share once it is dealt. Err: out of memory.
    pub fn of_batch(
        alloc: Global,
        batch: Batch,
        window: Window,
        cuts: &Cuts,
    ) -> Result<Dealt, Memory>
        ensures { IfOk result (λ dealt. dealt ≡ dealt_by cuts.now (filter (in_window window) batch.updates)) }
    {
        let heads = heads_of(alloc, cuts.keys())?;
        let mut lists = no_updates(alloc, cuts, batch.records())?;
        for share in batch.into_shares() {
            deal_share(&share, window, cuts.keys(), &heads, &mut lists)?;
        }
        Ok(Dealt { lists })
    }
}

/// The updates whose keys lie in one piece, in any order.
#[derive(Drop)]
pub struct Range {
    lists: Vec<Stream>,
    updates: usize,
}

impl Model for Range {
    ghost use Rattle.std.specs.Prelude.{List, ◌≡◌, length};
    ghost use Rattle.mt_words.specs.declared.update.Update.{Update};
    ghost use Rattle.mt_words.specs.Walks.{joined};

    ghost Value = { List Update };

    ghost view = { λ r. joined r.lists.items };

    ghost invariant = { λ r. r.updates ≡ length (joined r.lists.items) };
}

impl Range {
    /// Creates a range without updates.
    pub(crate) fn new(alloc: Global) -> Range
        ensures { result ≡ [] }
    {
        Range {
            lists: Vec::new(alloc),
            updates: 0,
        }
    }

    /// Returns the number of updates.
    pub fn len(&self) -> usize
        ensures { result ≡ length self.now }
    {
        self.updates
    }

    /// Returns the texts of the updates. Err: out of memory.
    pub(crate) fn texts(&self, alloc: Global) -> Result<Vec<Text<'_>>, Memory>
        ensures { IfOk result (λ texts. texts.items ≡ self.now) }
    {
        let mut texts = Vec::with_capacity(alloc, self.updates)?;
        for list in &self.lists {
            list.add_to(&mut texts)?;
        }
        Ok(texts)
    }

    /// Appends a list of updates. Err: out of memory. No memory has more updates than a `usize` counts.
    pub(crate) fn push(&mut self, list: Stream) -> Result<(), Memory>
        ensures { OnOk result (self.new ≡ self.old ++ list) }
    {
        let Some(updates) = self.updates.checked_add(list.len()) else {
            return Err(Memory);
        };
        self.lists.push(list)?;
        self.updates = updates;
        Ok(())
    }
}

/// Returns the updates of each piece: what all the dealt lists have for it. No body is copied. Err: out of memory.
pub fn ranges_of(alloc: Global, shares: Vec<Dealt>, pieces: u32) -> Result<Vec<Range>, Memory>
    ensures { IfOk result (λ ranges. (cuts : List (List ℕ)) (updates : List (List UpdateValue)) → pieces ≡ length cuts + 1 →
        shares.items ≡ map (dealt_by cuts) updates → ranges.items ≡ dealt_by cuts (joined updates)) }
{
    let mut ranges = Vec::new(alloc);
    for _ in 0..pieces {
        ranges.push(Range::new(alloc))?;
    }
    for share in shares {
        extend(&mut ranges, share)?;
    }
    Ok(ranges)
}

/// Appends to each range the list that was dealt to its piece. Err: out of memory.
fn extend(ranges: &mut [Range], dealt: Dealt) -> Result<(), Memory>
    ensures { OnOk result (ranges.new ≡ extended ranges.old dealt) }
{
    let Dealt { lists } = dealt;
    let mut piece = 0;
    for list in lists {
        if piece == ranges.len() {
            return Ok(());
        }
        ranges[piece].push(list)?;
        piece += 1;
    }
    Ok(())
}

/// Returns an empty list for each piece. Each has room for an even share of so many updates. Err: out of memory.
fn no_updates(alloc: Global, cuts: &Cuts, updates: usize) -> Result<Vec<Stream>, Memory>
    ensures { IfOk result (λ lists. lists.items ≡ dealt_by cuts.now []) }
{
    let pieces = cuts.pieces();
    let share = updates / pieces as usize;
    let mut lists = Vec::new(alloc);
    for _ in 0..pieces {
        lists.push(Stream::with_capacity(alloc, share.saturating_mul(TEXT))?)?;
    }
    Ok(lists)
}

/// Returns the slice of each cut. Err: out of memory.
fn heads_of(alloc: Global, cuts: &[Key]) -> Result<Vec<u64>, Memory>
    ensures { IfOk result (λ heads. heads.items ≡ map slice_in cuts.now) }
{
    let mut heads = Vec::with_capacity(alloc, cuts.len())?;
    for cut in cuts {
        heads.push(slice_of(cut.as_bytes()))?;
    }
    Ok(heads)
}

/// Deals the updates of a share that are in the window to the lists of their pieces. `heads` has the slice of each cut.
/// Err: out of memory.
fn deal_share(
    share: &Share,
    window: Window,
    cuts: &[Key],
    heads: &[u64],
    lists: &mut [Stream],
) -> Result<(), Memory>
    requires lawful { AreCuts cuts.now }
    requires heads { heads.now ≡ map slice_in cuts.now }
    requires dealt { (dealt : List UpdateValue) × (lists.old ≡ dealt_by cuts.now dealt) }
    ensures { OnOk result ((dealt : List UpdateValue) → lists.old ≡ dealt_by cuts.now dealt →
        lists.new ≡ dealt_by cuts.now (dealt ++ filter (in_window window) (updates_of_share share.now))) }
{
    for number in 0..share.len() {
        deal(share.update(number), window, cuts, heads, lists)?;
    }
    Ok(())
}

/// Appends an update to the list of its piece, if there is one and it is in the window. `heads` has the slice of each
/// cut. Err: out of memory.
fn deal(
    update: Option<Lent<'_>>,
    window: Window,
    cuts: &[Key],
    heads: &[u64],
    lists: &mut [Stream],
) -> Result<(), Memory>
    requires lawful { AreCuts cuts.now }
    requires heads { heads.now ≡ map slice_in cuts.now }
    requires dealt { (dealt : List UpdateValue) × (lists.old ≡ dealt_by cuts.now dealt) }
    ensures { OnOk result ((dealt : List UpdateValue) → lists.old ≡ dealt_by cuts.now dealt →
        lists.new ≡ dealt_by cuts.now (dealt ++ filter (in_window window) (as_list update.entry))) }
{
    let Some(update) = update else {
        return Ok(());
    };
    if !window.contains(update.timestamp()) {
        return Ok(());
    }
    let piece = piece_of(cuts, heads, update.key());
    lists[piece].push(update.origin(), update.body())?;
    Ok(())
}

/// Returns the number of the piece of this key. `heads` has the slice of each cut.
pub(crate) fn piece_of(cuts: &[Key], heads: &[u64], key: &[u8]) -> usize
    requires rising { AreRising cuts.now }
    requires heads { heads.now ≡ map slice_in cuts.now }
    ensures within { result ≤ length cuts.now }
    ensures piece { in_piece cuts.now result key.now ≡ true }
{
    let head = slice_of(key);
    let mut low = 0;
    let mut high = cuts.len();
    while low < high {
        let middle = low + (high - low) / 2;
        if is_below_by(key, head, cuts[middle].as_bytes(), heads[middle]) {
            high = middle;
        } else {
            low = middle + 1;
        }
    }
    low
}
