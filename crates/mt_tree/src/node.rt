//! The nodes of a finished tree.
ghost use Rattle.std.specs.Prelude.{◌≡◌, ◌≢◌, ℕ, ◌+◌, ◌*◌, ◌<◌, ◌≤◌, min};
ghost use Rattle.std.specs.Prelude.{length, slice_index, slice_index_or, IfSome, IfNone, All};
ghost use Rattle.std.specs.List.{AllByRecursion};
ghost use Rattle.std.specs.Option.{option_copied};
ghost use Rattle.mt_tree.specs.Layer.{PlaceView, IsPlace};
ghost use Rattle.mt_tree.specs.Steps.Ranks.{rank_at};
ghost use Rattle.mt_tree.specs.Steps.Pairs.{find_key};
ghost use Rattle.mt_tree.specs.Steps.Levels.{node_walk, first_of};
ghost use Rattle.mt_tree.specs.Steps.Places.{views};

use crate::place::{Content, Linked, Place};
use arrayvec::ArrayVec;
use mt_words::{PackedColumns, slice_of};
use std::marker::Model;

/// The most places of a border.
pub(crate) const MOST_PLACES: usize = 15;

/// The most children of an interior node.
pub(crate) const MOST_CHILDREN: usize = 16;

/// The most separators of an interior node: one between each two neighbouring children.
pub(crate) const MOST_SEPARATORS: usize = MOST_CHILDREN - 1;

/// A node of a finished tree.
#[cycle(node)]
#[derive(Drop)]
pub(crate) struct Node {
    pub(crate) kind: NodeKind,
}

/// A border or an interior node.
#[cycle(node)]
#[derive(Drop)]
pub(crate) enum NodeKind {
    /// Its places.
    Border(Vec<Place<Node>>),
    /// Separators and children. The separators are boxed, so that they do not make a border larger.
    Interior(Box<ArrayVec<u64, MOST_SEPARATORS>>, Vec<Node>),
}

impl Model for Node {
    ghost use Rattle.mt_tree.specs.Steps.Pairs.{weight};
    ghost use Rattle.mt_tree.specs.Nodes.{NodeView};
    ghost use Rattle.mt_tree.specs.Steps.Levels.{node_walk};

    ghost Value = { NodeView };

    ghost use Rattle.mt_tree.specs.Steps.NodeViews.{node_view, IsNodeKind};

    ghost view = { λ a. node_view a.kind };

    ghost invariant = { λ a. IsNodeKind a.kind };

    ghost size = { λ v. weight (node_walk v) };

    ghost use Rattle.std.proofs.Common.{arith};
    ghost use Rattle.mt_tree.specs.Steps.Falls.{kind_falls};

    ghost size_decreases = { λ a h. omega (arith, kind_falls a.kind h) };
}

impl Linked for Node {
    ghost walk = { node_walk };
}

impl Node {
    /// Returns the least slice of the node's places.
    pub(crate) fn first_slice(&self) -> u64
        ensures { result ≡ first_of self.now }
    {
        match &self.kind {
            NodeKind::Border(places) => places[0].slice,
            NodeKind::Interior(_, children) => children[0].first_slice(),
        }
    }
}

/// Returns the index of the place of a key of this slice and length, or None if there is none.
fn find_place(places: &[Place<Node>], slice: u64, len: usize) -> Option<usize>
    requires { AllByRecursion IsPlace (views node_walk places.now) }
    ensures found { IfSome result (λ at. at < length places.now) }
    ensures here { IfSome result (λ at. (d : PlaceView) →
        rank_at (slice_index_or (views node_walk places.now) at d) ≡ slice * 10 + min len 9) }
    ensures absent { IfNone result (All (λ p. rank_at p ≢ slice * 10 + min len 9) (views node_walk places.now)) }
{
    for (at, place) in places.iter().enumerate() {
        if place.is_place_of(slice, len) {
            return Some(at);
        }
    }
    None
}

impl Node {
    /// Returns the columns of a key, or None if it is absent.
    pub(crate) fn get(&self, key: &[u8]) -> Option<&PackedColumns>
        ensures { option_copied result ≡ find_key key.now (node_walk self.now) }
    {
        let slice = slice_of(key);
        match &self.kind {
            NodeKind::Interior(separators, children) => {
                let at = child_at(separators.as_slice(), slice);
                children[at].get(key)
            }
            NodeKind::Border(places) => {
                let at = find_place(places, slice, key.len())?;
                match &places[at].content {
                    Content::Short(_, columns) => Some(columns),
                    Content::Suffix(suffix, columns) => {
                        if suffix.as_slice() == &key[8..] {
                            Some(columns)
                        } else {
                            None
                        }
                    }
                    Content::Link(below) => below.get(&key[8..]),
                }
            }
        }
    }
}

/// Returns the index of the child that the slice belongs to.
pub(crate) fn child_at(separators: &[u64], slice: u64) -> usize
    ensures bound { result ≤ length separators.now }
    ensures before { (k : ℕ) → k < result → slice_index separators.now k ≤ slice }
    ensures after { result < length separators.now → slice < slice_index separators.now result }
{
    for (at, separator) in separators.iter().enumerate() {
        if slice < *separator {
            return at;
        }
    }
    separators.len()
}
