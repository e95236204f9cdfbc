//! Whether all keys of one layer lie below all keys of another.
ghost use Rattle.std.specs.Prelude.{◌≡◌, ◌↔◌, [], ◌∷◌, IsTrue, MatchOption};
ghost use Rattle.mt_tree.specs.Layer.{AllKeysBelow, IsPlace};
ghost use Rattle.mt_tree.specs.Borders.{layer_walk};
ghost use Rattle.mt_tree.specs.Steps.Places.{view_of};
ghost use Rattle.mt_tree.specs.Steps.Edges.{PlaceEdge, LastEdge, FirstEdge, side_walk};

use crate::layer::Layer;
use crate::place::{Content, Place};
use mt_words::{PackedColumns, slice_of};

/// One side of a comparison: one pair, or the pairs of a layer.
#[derive(Clone, Copy)]
pub(crate) enum Side<'a> {
    Lone(&'a [u8], &'a PackedColumns),
    Whole(&'a Layer),
}

/// The first or the last place of a side: its slice, its length, and, if the length is 9, the pairs below it. Length 9
/// means longer than 8.
#[derive(Clone, Copy)]
pub(crate) struct Edge<'a> {
    slice: u64,
    length: usize,
    below: Side<'a>,
}

/// Returns the edge of a single pair, which is both its first and its last place.
fn edge_of_pair<'a>(key: &'a [u8], columns: &'a PackedColumns) -> Edge<'a>
    ensures last { LastEdge ((key.now, columns.now) ∷ []) result.slice result.length (side_walk result.below) }
    ensures first { FirstEdge ((key.now, columns.now) ∷ []) result.slice result.length (side_walk result.below) }
{
    Edge {
        slice: slice_of(key),
        length: key.len().min(9),
        below: Side::Lone(&key[key.len().min(8)..], columns),
    }
}

/// Returns a place as an edge.
fn edge_of_place<'a>(place: &'a Place<Layer>) -> Edge<'a>
    requires { IsPlace (view_of layer_walk place.now) }
    ensures { PlaceEdge (view_of layer_walk place.now) result.slice result.length (side_walk result.below) }
{
    let slice = place.slice;
    match &place.content {
        Content::Short(length, columns) => Edge {
            slice,
            length: *length as usize,
            below: Side::Lone(&[], columns),
        },
        Content::Suffix(suffix, columns) => Edge {
            slice,
            length: 9,
            below: Side::Lone(suffix, columns),
        },
        Content::Link(layer) => Edge {
            slice,
            length: 9,
            below: Side::Whole(layer),
        },
    }
}

/// Returns the last place of a side as an edge, or None if the side has no pair.
fn last_edge<'a>(side: Side<'a>) -> Option<Edge<'a>>
    ensures { MatchOption result
        (side_walk side.entry ≡ [])
        (λ edge. LastEdge (side_walk side.entry) edge.slice edge.length (side_walk edge.below)) }
{
    match side {
        Side::Lone(key, columns) => Some(edge_of_pair(key, columns)),
        Side::Whole(layer) => Some(edge_of_place(layer.borders.last()?.places().last()?)),
    }
}

/// Returns the first place of a side as an edge, or None if the side has no pair.
fn first_edge<'a>(side: Side<'a>) -> Option<Edge<'a>>
    ensures { MatchOption result
        (side_walk side.entry ≡ [])
        (λ edge. FirstEdge (side_walk side.entry) edge.slice edge.length (side_walk edge.below)) }
{
    match side {
        Side::Lone(key, columns) => Some(edge_of_pair(key, columns)),
        Side::Whole(layer) => Some(edge_of_place(layer.borders.first()?.places().first()?)),
    }
}

/// Returns whether all keys of the left side lie below all keys of the right side.
pub(crate) fn lies_below(left: Side, right: Side) -> bool
    ensures { IsTrue result ↔ AllKeysBelow (side_walk left.entry) (side_walk right.entry) }
{
    let Some(last) = last_edge(left) else {
        return true;
    };
    let Some(first) = first_edge(right) else {
        return true;
    };
    if last.slice != first.slice {
        return last.slice < first.slice;
    }
    if last.length != first.length {
        return last.length < first.length;
    }
    if last.length < 9 {
        return false;
    }
    lies_below(last.below, first.below)
}
