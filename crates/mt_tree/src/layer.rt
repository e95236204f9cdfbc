//! A layer under construction: a list of borders, each a list of places.
//!
//!     layer     open border | closed border | .. | open border
//!     border    1 to 15 places, in rising order
//!     place     slice, 8 bytes of a key | a key of up to 8 bytes, or one longer key, or a link to the layer of all longer ones
//!
//! Pairs come in key order, so a push changes the last border alone, and a join only the two that meet. A closed border is
//! finished: its links lead to nodes.
ghost use Rattle.std.specs.Prelude.{◌≡◌, ◌≤◌, ◌+◌, ◌<◌, ◌++◌, ◌∷◌, ◌↔◌, [], length, take, drop};
ghost use Rattle.std.specs.Prelude.{MatchBool, IfOk, OnOk, OnErr, IsTrue};
ghost use Rattle.mt_tree.specs.Layer.{walk, pairs_at, put_before, length_at};
ghost use Rattle.mt_tree.specs.Steps.Ranks.{IsRanked};
ghost use Rattle.mt_tree.specs.Layer.{IsPlace, HasNoEmptyKey, AllKeysBelow};
ghost use Rattle.mt_tree.specs.Steps.Seams.{Meet, first_slice_of, SameEnds, last_slice_of};
ghost use Rattle.mt_tree.specs.Steps.Places.{view_of, views};
ghost use Rattle.mt_tree.specs.Steps.DraftViews.{border_views, IsStored, IsLawfulLink, HaveLawfulLinks, IsOpen, IsOpened, PutBehind, PutOpen, CanFollow, LastMeets, HaveFollowed, HavePushed};
ghost use Rattle.mt_tree.specs.Nodes.{IsBorder, SlicesBelow, SlicesFrom};
ghost use Rattle.mt_tree.specs.Borders.{AreBorders, borders_walk, empty_draft, layer_walk};
ghost use Rattle.mt_tree.specs.declared.layer.Border.TheVariants.{Open};
ghost use Rattle.mt_tree.specs.declared.node.TheConstants.{MOST_PLACES};
ghost use Rattle.mt_words.specs.Slices.{slice_bytes};

use crate::finish::{Finished, close};
use crate::node::{MOST_PLACES, Node};
use crate::place::{Content, Linked, Place, Suffix};
use mt_words::{Memory, PackedColumns, slice_of};
use std::alloc::Global;
use std::marker::Model;

/// A layer under construction: its borders, in order.
#[cycle(layer)]
#[derive(Drop)]
pub(crate) struct Layer {
    pub(crate) borders: Vec<Border>,
}

/// One to `MOST_PLACES` places: all places of each of its slices.
#[cycle(layer)]
#[derive(Drop)]
pub(crate) enum Border {
    /// A push or a join may still change it, or it stood at the seam of a join. The first and the last border of a
    /// layer are open.
    Open(Vec<Place<Layer>>),
    /// A sealed border: all that lies below its places is finished.
    Closed(Finished<Vec<Place<Node>>>),
}

impl Model for Layer {
    ghost use Rattle.mt_tree.specs.Steps.Pairs.{weight};
    ghost use Rattle.mt_tree.specs.Borders.{DraftView, layer_walk};

    ghost Value = { DraftView };

    ghost use Rattle.mt_tree.specs.Steps.DraftViews.{draft_of, IsStored};

    ghost view = { λ a. draft_of a.borders.items };

    ghost invariant = { λ a. IsStored a.borders.items };

    ghost size = { λ v. weight (layer_walk v) };

    ghost use Rattle.std.proofs.Common.{arith};
    ghost use Rattle.mt_tree.specs.Steps.Falls.{borders_fall};

    ghost size_decreases = { λ a h. omega (arith, borders_fall a.borders.items h.own.2) };
}

impl Linked for Layer {
    ghost walk = { layer_walk };
}

impl Border {
    /// Returns the places of an open border.
    pub(crate) fn places(&self) -> &[Place<Layer>]
        requires { IsOpen self.now }
        ensures { IsOpened self.now result.now }
    {
        match self {
            Border::Open(places) => places,
            Border::Closed(_) => unreachable!(),
        }
    }

    /// Takes the places out of an open border.
    fn into_places(self) -> Vec<Place<Layer>>
        requires { IsOpen self }
        ensures { self ≡ Open result }
    {
        match self {
            Border::Open(places) => places,
            Border::Closed(_) => unreachable!(),
        }
    }
}

/// Creates the place of a lone key. Err: out of memory.
#[inline(always)]
fn place_for(alloc: Global, key: &[u8], columns: PackedColumns) -> Result<Place<Layer>, Memory>
    ensures lawful { IfOk result (λ p. IsPlace (view_of layer_walk p)) }
    ensures links { IfOk result (λ p. IsLawfulLink p.content) }
    ensures pairs { IfOk result (λ p. pairs_at (view_of layer_walk p) ≡ (key.now, columns) ∷ []) }
{
    let slice = slice_of(key);
    let len = key.len();
    if len <= 8 {
        return Ok(Place {
            slice,
            content: Content::Short(len as u8, columns),
        });
    }
    let suffix = Suffix::from_slice(alloc, &key[8..])?;
    Ok(Place {
        slice,
        content: Content::Suffix(suffix, columns),
    })
}

/// Appends a place of its own for a pair. Err: out of memory.
fn push_own(
    alloc: Global,
    places: &mut Vec<Place<Layer>>,
    key: &[u8],
    columns: PackedColumns,
) -> Result<(), Memory>
    requires can { CanFollow (key.now, columns) places.old.items }
    requires apart { ¬ (LastMeets key.now places.old.items) }
    ensures { OnOk result (HaveFollowed (key.now, columns) places.old.items places.new.items) }
{
    places.push(place_for(alloc, key, columns)?)?;
    Ok(())
}

/// Appends a pair whose key meets the one that the last place holds: a layer below gets both. Err: out of memory.
#[cycle(push)]
fn push_below(
    alloc: Global,
    places: &mut Vec<Place<Layer>>,
    key: &[u8],
    columns: PackedColumns,
) -> Result<(), Memory>
    requires can { CanFollow (key.now, columns) places.old.items }
    requires met { LastMeets key.now places.old.items }
    ensures { OnOk result (HaveFollowed (key.now, columns) places.old.items places.new.items) }
{
    let slice = slice_of(key);
    let Some(last) = places.pop() else {
        unreachable!()
    };
    let mut lower = Layer::below(alloc, last)?;
    lower.push(alloc, &key[8..], columns)?;
    places.push(Place {
        slice,
        content: Content::Link(lower),
    })?;
    Ok(())
}

/// Appends a pair to the places of a border. If the last place is also the pair's, the pair goes below it. Otherwise
/// it gets a place of its own. The rare ways have functions of their own, since each layer that a push goes through pays
/// for the locals of this one. Err: out of memory.
#[cycle(push)]
fn follow(
    alloc: Global,
    places: &mut Vec<Place<Layer>>,
    key: &[u8],
    columns: PackedColumns,
) -> Result<(), Memory>
    requires { CanFollow (key.now, columns) places.old.items }
    ensures { OnOk result (HaveFollowed (key.now, columns) places.old.items places.new.items) }
{
    let slice = slice_of(key);
    let at = places.len() - 1;
    if !places[at].meets_key(slice, key.len()) {
        return push_own(alloc, places, key, columns);
    }
    if let Content::Link(lower) = &mut places[at].content {
        return lower.push(alloc, &key[8..], columns);
    }
    push_below(alloc, places, key, columns)
}

/// Returns the number of places whose slice is below this one.
fn count_below(places: &[Place<Layer>], slice: u64) -> usize
    requires { IsRanked (views layer_walk places.now) }
    ensures few { result ≤ length places.now }
    ensures below { SlicesBelow slice (views layer_walk (take result places.now)) }
    ensures from { SlicesFrom slice (views layer_walk (drop result places.now)) }
{
    for (at, place) in places.iter().enumerate() {
        if place.slice >= slice {
            return at;
        }
    }
    places.len()
}

/// Splits off the places from this slice on and returns them. Err: out of memory.
fn split_before(places: &mut Vec<Place<Layer>>, slice: u64) -> Result<Vec<Place<Layer>>, Memory>
    requires { IsRanked (views layer_walk places.old.items) }
    ensures same { IfOk result (λ rest. places.new.items ++ rest.items ≡ places.old.items) }
    ensures below { OnOk result (SlicesBelow slice (views layer_walk places.new.items)) }
    ensures from { IfOk result (λ rest. SlicesFrom slice (views layer_walk rest.items)) }
{
    let start = count_below(places, slice);
    Ok(places.split_off(start)?)
}

/// Appends these places as one open border, if there are any. Err: out of memory.
#[inline(always)]
fn push_border(borders: &mut Vec<Border>, places: Vec<Place<Layer>>) -> Result<(), Memory>
    requires lawful { IsRanked (views layer_walk places.items) }
    requires few { length places.items ≤ MOST_PLACES }
    ensures { OnOk result (PutOpen places.items borders.old.items borders.new.items) }
{
    if places.is_empty() {
        return Ok(());
    }
    borders.push(Border::Open(places))?;
    Ok(())
}

/// Appends these places as a border that others will follow. It is sealed, unless it is the layer's first: only the
/// first and the last border can still change. Err: out of memory.
fn push_closed(
    alloc: Global,
    borders: &mut Vec<Border>,
    places: Vec<Place<Layer>>,
) -> Result<(), Memory>
    requires lawful { IsRanked (views layer_walk places.items) }
    requires some { IsBorder (views layer_walk places.items) }
    ensures { OnOk result (PutBehind places.items borders.old.items borders.new.items) }
{
    let border = if borders.is_empty() {
        Border::Open(places)
    } else {
        Border::Closed(close(alloc, places)?)
    };
    borders.push(border)?;
    Ok(())
}

/// Appends places that are one too many for a border. They are cut before the last slice, which has at most ten of
/// them. No further push changes the places before the cut. Err: out of memory.
fn push_cut(
    alloc: Global,
    borders: &mut Vec<Border>,
    places: Vec<Place<Layer>>,
) -> Result<(), Memory>
    requires lawful { IsRanked (views layer_walk places.items) }
    requires long { length places.items ≡ MOST_PLACES + 1 }
    ensures { OnOk result (PutOpen places.items borders.old.items borders.new.items) }
{
    let mut places = places;
    let slice = places[places.len() - 1].slice;
    let mut last = split_before(&mut places, slice)?;
    push_closed(alloc, borders, places)?;
    last.reserve(MOST_PLACES)?;
    push_border(borders, last)
}

/// Appends a pair to the last border, and cuts it if it is then too long. Err: out of memory.
#[cycle(push)]
fn push_last(
    alloc: Global,
    borders: &mut Vec<Border>,
    key: &[u8],
    columns: PackedColumns,
) -> Result<(), Memory>
    requires lawful { IsStored borders.old.items }
    requires some { 1 ≤ length borders.old.items }
    requires below { AllKeysBelow (borders_walk (border_views borders.old.items)) ((key.now, columns) ∷ []) }
    ensures { OnOk result (HavePushed (key.now, columns) borders.old.items borders.new.items) }
{
    let at = borders.len() - 1;
    let Border::Open(places) = &mut borders[at] else {
        unreachable!()
    };
    follow(alloc, places, key, columns)?;
    if places.len() <= MOST_PLACES {
        return Ok(());
    }
    let Some(last) = borders.pop() else {
        unreachable!()
    };
    push_cut(alloc, borders, last.into_places())
}

/// Merges two neighbouring lists of places at their seam. If the last place of the first list and the first place of
/// the second hold longer keys of one slice, one link at the end of the first list replaces both. Otherwise both lists
/// stay as they are. Err: out of memory.
#[cycle(join)]
fn meet(
    alloc: Global,
    left: Vec<Place<Layer>>,
    right: Vec<Place<Layer>>,
) -> Result<(Vec<Place<Layer>>, Vec<Place<Layer>>), Memory>
    requires left_lawful { IsRanked (views layer_walk left.items) }
    requires right_lawful { IsRanked (views layer_walk right.items) }
    requires some { (1 ≤ length left.items) × (1 ≤ length right.items) }
    requires links { HaveLawfulLinks left.items × HaveLawfulLinks right.items }
    requires below { AllKeysBelow (walk (views layer_walk left.items)) (walk (views layer_walk right.items)) }
    ensures pairs { IfOk result (λ r.
        walk (views layer_walk r.0.items ++ views layer_walk r.1.items)
        ≡ walk (views layer_walk left.items) ++ walk (views layer_walk right.items)) }
    ensures lawful { IfOk result (λ r. IsRanked (views layer_walk r.0.items ++ views layer_walk r.1.items)) }
    ensures links { IfOk result (λ r. HaveLawfulLinks (r.0.items ++ r.1.items)) }
    ensures same { IfOk result (λ r. length r.0.items ≡ length left.items) }
    ensures fewer { IfOk result (λ r. length r.1.items ≤ length right.items) }
    ensures slices { IfOk result (λ r.
        SameEnds (views layer_walk left.items) (views layer_walk right.items) (views layer_walk r.0.items ++ views layer_walk r.1.items)) }
{
    let mut places = left;
    let mut rest = right;
    let Some(last) = places.pop() else {
        return Ok((places, rest));
    };
    if last.meets(&rest[0]) {
        let first = rest.remove(0);
        let slice = last.slice;
        let upper = Layer::below(alloc, last)?;
        let lower = Layer::below(alloc, first)?;
        let joined = Layer::join(alloc, upper, lower)?;
        places.push(Place {
            slice,
            content: Content::Link(joined),
        })?;
    } else {
        places.push(last)?;
    }
    Ok((places, rest))
}

/// Appends places whose seam lies within a slice: the slice ends the places before the seam and begins those after
/// it. Its places, at most ten, get a border of their own. Err: out of memory.
fn push_around(
    borders: &mut Vec<Border>,
    places: Vec<Place<Layer>>,
    seam: usize,
) -> Result<(), Memory>
    requires lawful { IsRanked (views layer_walk places.items) }
    requires before { IsBorder (views layer_walk (take seam places.items)) }
    requires from { IsBorder (views layer_walk (drop seam places.items)) }
    requires met { last_slice_of (views layer_walk (take seam places.items))
        ≡ first_slice_of (views layer_walk (drop seam places.items)) }
    ensures { OnOk result (PutOpen places.items borders.old.items borders.new.items) }
{
    let mut places = places;
    let slice = places[seam].slice;
    let mut run = split_before(&mut places, slice)?;
    // No slice lies above the greatest one. If this is it, `above` takes all its places, and `run` is left with none.
    let above = split_before(&mut run, slice.saturating_add(1))?;
    push_border(borders, places)?;
    push_border(borders, run)?;
    push_border(borders, above)
}

/// Appends two neighbouring lists of places to the borders. Most often each list becomes a border, or both together
/// become one. Err: out of memory.
fn push_both(
    borders: &mut Vec<Border>,
    left: Vec<Place<Layer>>,
    right: Vec<Place<Layer>>,
) -> Result<(), Memory>
    requires lawful { IsRanked (views layer_walk left.items ++ views layer_walk right.items) }
    requires some { IsBorder (views layer_walk left.items) }
    requires few { length right.items ≤ MOST_PLACES }
    ensures { OnOk result (PutOpen (left.items ++ right.items) borders.old.items borders.new.items) }
{
    let mut places = left;
    let mut right = right;
    let seam = places.len();
    if seam + right.len() <= MOST_PLACES {
        places.append(&mut right)?;
        return push_border(borders, places);
    }
    if places[seam - 1].slice == right[0].slice {
        places.append(&mut right)?;
        return push_around(borders, places, seam);
    }
    push_border(borders, places)?;
    push_border(borders, right)
}

impl Layer {
    /// Creates an empty layer.
    pub(crate) fn new(alloc: Global) -> Layer
        ensures { result ≡ empty_draft }
    {
        Layer {
            borders: Vec::new(alloc),
        }
    }

    /// Returns the allocator of the layer.
    pub(crate) fn allocator(&self) -> Global {
        *self.borders.allocator()
    }

    /// Returns whether the layer has no border.
    pub(crate) fn is_empty(&self) -> bool
        ensures { MatchBool result (self.now ≡ empty_draft) (1 ≤ length self.now.borders) }
    {
        self.borders.is_empty()
    }

    /// Creates the layer of one key, to which another is soon added. Err: out of memory.
    fn single(alloc: Global, key: &[u8], columns: PackedColumns) -> Result<Layer, Memory>
        ensures pairs { IfOk result (λ l. layer_walk l ≡ (key.now, columns) ∷ []) }
        ensures lawful { IfOk result AreBorders }
    {
        let place = place_for(alloc, key, columns)?;
        let mut places = Vec::with_capacity(alloc, 2)?;
        places.push(place)?;
        let mut borders = Vec::with_capacity(alloc, 1)?;
        borders.push(Border::Open(places))?;
        Ok(Layer { borders })
    }

    /// Returns what lies below a place: the layer of its longer keys. Err: out of memory.
    fn below(alloc: Global, place: Place<Layer>) -> Result<Layer, Memory>
        requires lawful { IsPlace (view_of layer_walk place) }
        requires long { length_at (view_of layer_walk place) ≡ 9 }
        ensures pairs { IfOk result (λ l.
            put_before (slice_bytes place.slice) (layer_walk l) ≡ pairs_at (view_of layer_walk place)) }
        ensures some { IfOk result (λ l. 0 < length (layer_walk l)) }
        ensures no_empty_key { IfOk result (λ l. HasNoEmptyKey (layer_walk l)) }
    {
        match place.content {
            Content::Short(_, _) => Ok(Layer::new(alloc)),
            Content::Suffix(suffix, columns) => Layer::single(alloc, &suffix, columns),
            Content::Link(layer) => Ok(layer),
        }
    }

    /// Joins two layers. All keys of the first must be below all keys of the second. Only the two borders at the seam
    /// change. Err: out of memory.
    #[cycle(join)]
    pub(crate) fn join(alloc: Global, left: Layer, right: Layer) -> Result<Layer, Memory>
        requires { AllKeysBelow (layer_walk left) (layer_walk right) }
        ensures pairs { IfOk result (λ l. layer_walk l ≡ layer_walk left ++ layer_walk right) }
        ensures lawful { IfOk result AreBorders }
    {
        let mut borders = left.borders;
        let mut rest = right.borders;
        let Some(last) = borders.pop() else {
            return Ok(Layer { borders: rest });
        };
        if rest.is_empty() {
            borders.push(last)?;
            return Ok(Layer { borders });
        }
        let first = rest.remove(0);
        let (last, first) = meet(alloc, last.into_places(), first.into_places())?;
        push_both(&mut borders, last, first)?;
        borders.append(&mut rest)?;
        Ok(Layer { borders })
    }

    /// Appends a pair. Its key must be above all keys of the layer. Only the last border changes. Err: out of memory;
    /// the layer is then empty.
    #[cycle(push)]
    pub(crate) fn push(
        &mut self,
        alloc: Global,
        key: &[u8],
        columns: PackedColumns,
    ) -> Result<(), Memory>
        requires { AllKeysBelow (layer_walk self.old) ((key.now, columns) ∷ []) }
        ensures pairs { OnOk result (layer_walk self.new ≡ layer_walk self.old ++ (key.now, columns) ∷ []) }
        ensures lawful { OnOk result (AreBorders self.new) }
        ensures refused { OnErr result (self.new ≡ empty_draft) }
    {
        if self.is_empty() {
            *self = Layer::single(alloc, key, columns)?;
            return Ok(());
        }
        let pushed = push_last(alloc, &mut self.borders, key, columns);
        if pushed.is_err() {
            self.borders = Vec::new(alloc);
        }
        pushed
    }
}
