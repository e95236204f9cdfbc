//! A walk over a tree, pair by pair, from a start on.
ghost use Rattle.std.specs.Prelude.{◌≡◌, ◌≢◌, ◌+◌, ◌*◌, ◌≤◌, ◌++◌, ◌∷◌, [], List, length, drop, not, IsTrue, OnOk};
ghost use Rattle.std.specs.Ordering.{nat_cmp, is_lt};
ghost use Rattle.std.specs.Cmp.Lexicographic.{slice_cmp};
ghost use Rattle.mt_words.specs.Limits.{widest};
ghost use Rattle.mt_words.specs.Slices.{slice_in};
ghost use Rattle.mt_words.specs.Walks.{Pair};
ghost use Rattle.mt_words.specs.Words.{IsKey};
ghost use Rattle.mt_tree.specs.Steps.Pairs.{FitsAfter, key_rank};
ghost use Rattle.mt_tree.specs.Layer.{IsPlace, pairs_at, put_before};
ghost use Rattle.mt_tree.specs.Steps.Ranks.{rank_at};
ghost use Rattle.mt_tree.specs.Steps.Levels.{node_walk};
ghost use Rattle.mt_tree.specs.Steps.Places.{view_of};
ghost use Rattle.mt_tree.specs.Range.{from};

use crate::node::{Node, NodeKind, child_at};
use crate::place::{Content, Place};
use arrayvec::ArrayVec;
use mt_words::{LONGEST_KEY, PackedColumns, slice_bytes, slice_of};

/// The action on each pair of a walk. By `is_full` it ends the walk early.
pub trait Visitor<T> {
    /// The reason why the visitor did not take a pair.
    type Error;

    /// Between these two states of the target, these pairs were shown, in this order.
    ghost shown: { T → T → List Pair → Type 0 };

    /// Takes one pair of the walk. Err: the visitor did not take the pair.
    fn visit(&self, target: &mut T, key: &[u8], columns: &PackedColumns) -> Result<(), Self::Error>
        requires { IsKey widest key.now }
        ensures { OnOk result (shown target.old target.new ((key.now, columns.now) ∷ [])) };

    /// Returns whether the target takes no further pair: showing it pairs leaves it as it is. A walk then ends.
    fn is_full(&self, target: &T) -> bool
        ensures { IsTrue result → (pairs : List Pair) → shown target.now target.now pairs }
    {
        false
    }

    /// A target that did not change was shown no pair.
    ghost none: { (target : T) → shown target target [] };

    /// Pairs that are shown later come after the earlier ones.
    ghost more: { (a b c : T) (v w : List Pair) → shown a b v → shown b c w → shown a c (v ++ w) };
}

/// The first bytes of a key, down to the layer that the walk is in.
type Bytes = ArrayVec<u8, LONGEST_KEY>;

/// Appends bytes to the prefix.
fn extend(prefix: &mut Bytes, bytes: &[u8])
    requires { length prefix.old.items + length bytes.now ≤ widest.key }
    ensures { prefix.new.items ≡ prefix.old.items ++ bytes.now }
{
    prefix.try_extend_from_slice(bytes).unwrap();
}

/// Shows the visitor the pair whose key is the prefix and then this tail. Err: the visitor did not take it.
fn show<T, V: Visitor<T>>(
    prefix: &mut Bytes,
    tail: &[u8],
    columns: &PackedColumns,
    visitor: &V,
    target: &mut T,
) -> Result<(), V::Error>
    requires { length prefix.old.items + length tail.now ≤ widest.key }
    ensures prefix { OnOk result (prefix.new.items ≡ prefix.old.items) }
    ensures shown { OnOk result (V.shown target.old target.new
        (put_before prefix.old.items ((tail.now, columns.now) ∷ []))) }
{
    let before = prefix.len();
    extend(prefix, tail);
    visitor.visit(target, prefix.as_slice(), columns)?;
    prefix.truncate(before);
    Ok(())
}

/// Returns whether a key is at or after the start.
fn reaches(key: &[u8], start: &[u8]) -> bool
    ensures { result ≡ not (is_lt (slice_cmp nat_cmp key.now start.now)) }
{
    !key.cmp(start).is_lt()
}

impl Place<Node> {
    /// Returns the start for what lies below this place. If the start has its place here, its bytes after the slice
    /// decide. Otherwise all pairs of this place come after the start, and the result is empty.
    fn rest_of<'a>(&self, start: &'a [u8], slice: u64) -> &'a [u8]
        requires lawful { IsPlace (view_of node_walk self.now) }
        requires slice { slice ≡ slice_in start.now }
        ensures here { rank_at (view_of node_walk self.now) ≡ key_rank start.now → result.now ≡ drop 8 start.now }
        ensures past { rank_at (view_of node_walk self.now) ≢ key_rank start.now → result.now ≡ [] }
    {
        if self.is_place_of(slice, start.len()) {
            &start[start.len().min(8)..]
        } else {
            &start[..0]
        }
    }

    /// Shows the visitor this place's pairs that are at or after the start. Err: it did not take a pair.
    #[cycle(visit)]
    fn visit<T, V: Visitor<T>>(
        &self,
        start: &[u8],
        prefix: &mut Bytes,
        visitor: &V,
        target: &mut T,
    ) -> Result<(), V::Error>
        requires lawful { IsPlace (view_of node_walk self.now) }
        requires fits { FitsAfter (length prefix.old.items) (pairs_at (view_of node_walk self.now)) }
        ensures prefix { OnOk result (prefix.new.items ≡ prefix.old.items) }
        ensures shown { OnOk result (V.shown target.old target.new
            (put_before prefix.old.items (from start.now (pairs_at (view_of node_walk self.now))))) }
    {
        let slice = slice_of(start);
        if visitor.is_full(target) || self.lies_before(slice, start.len()) {
            return Ok(());
        }
        let rest = self.rest_of(start, slice);
        let bytes = slice_bytes(self.slice);
        let before = prefix.len();
        match &self.content {
            Content::Short(len, columns) => {
                show(prefix, &bytes[..*len as usize], columns, visitor, target)?;
            }
            Content::Suffix(suffix, columns) => {
                if reaches(suffix, rest) {
                    extend(prefix, &bytes);
                    show(prefix, suffix, columns, visitor, target)?;
                    prefix.truncate(before);
                }
            }
            Content::Link(below) => {
                extend(prefix, &bytes);
                below.visit(rest, prefix, visitor, target)?;
                prefix.truncate(before);
            }
        }
        Ok(())
    }
}

impl Node {
    /// Shows the visitor this node's pairs that are at or after the start. Err: it did not take a pair.
    #[cycle(visit)]
    pub(crate) fn visit<T, V: Visitor<T>>(
        &self,
        start: &[u8],
        prefix: &mut Bytes,
        visitor: &V,
        target: &mut T,
    ) -> Result<(), V::Error>
        requires { FitsAfter (length prefix.old.items) (node_walk self.now) }
        ensures prefix { OnOk result (prefix.new.items ≡ prefix.old.items) }
        ensures shown { OnOk result (V.shown target.old target.new
            (put_before prefix.old.items (from start.now (node_walk self.now)))) }
    {
        if visitor.is_full(target) {
            return Ok(());
        }
        match &self.kind {
            NodeKind::Interior(separators, children) => {
                let at = child_at(separators.as_slice(), slice_of(start));
                children[at].visit(start, prefix, visitor, target)?;
                for child in &children[at + 1..] {
                    child.visit(&start[..0], prefix, visitor, target)?;
                }
            }
            NodeKind::Border(places) => {
                for place in places {
                    place.visit(start, prefix, visitor, target)?;
                }
            }
        }
        Ok(())
    }
}
