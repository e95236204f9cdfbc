//! The places of a layer.
ghost use Rattle.std.specs.Prelude.{◌≡◌, ◌↔◌, ◌+◌, ◌*◌, ◌<◌, ◌≤◌, min, IsTrue};
ghost use Rattle.mt_tree.specs.Steps.Ranks.{rank_at};
ghost use Rattle.mt_tree.specs.Layer.{length_at, IsPlace};
ghost use Rattle.mt_tree.specs.Steps.Seams.{Meet};
ghost use Rattle.mt_tree.specs.Steps.Places.{view_of};

use mt_words::PackedColumns;
use smallvec::SmallVec;

/// The most bytes of a suffix that are stored in its place.
const SHORT_SUFFIX: usize = 16;

/// The bytes of a longer key after its first 8. Most keys have few of them, which need no allocation of their own.
pub(crate) type Suffix = SmallVec<u8, SHORT_SUFFIX>;

/// A place of a border: a slice, and what the place holds. A draft's places link to `Layer`s, those of a finished tree
/// to `Node`s.
#[derive(Drop)]
pub(crate) struct Place<L> {
    pub(crate) slice: u64,
    pub(crate) content: Content<L>,
}

/// What a place of a border holds.
#[derive(Drop)]
pub(crate) enum Content<L> {
    /// A key of at most 8 bytes in this layer: its length and its columns.
    Short(u8, PackedColumns),
    /// One longer key: its bytes after the slice, and its columns.
    Suffix(Suffix, PackedColumns),
    /// Two or more longer keys: what has their bytes after the slice.
    Link(L),
}

/// What a place links to: a layer under construction, or a node of a finished tree.
pub(crate) trait Linked {
    ghost use Rattle.std.specs.Prelude.{List};
    ghost use Rattle.mt_words.specs.Walks.{Pair};

    /// Its pairs, in key order.
    ghost walk: { Self → List Pair };
}

impl<L: Linked> Place<L> {
    /// Returns the length of the place's keys in this layer. 9 means longer than 8.
    fn length(&self) -> usize
        requires { IsPlace (view_of L.walk self.now) }
        ensures value { result ≡ length_at (view_of L.walk self.now) }
        ensures few { result ≤ 9 }
    {
        match &self.content {
            Content::Short(own, _) => *own as usize,
            Content::Suffix(_, _) => 9,
            Content::Link(_) => 9,
        }
    }

    /// Returns whether this place stands before the place of a key of this slice and length.
    pub(crate) fn lies_before(&self, slice: u64, len: usize) -> bool
        requires { IsPlace (view_of L.walk self.now) }
        ensures { IsTrue result ↔ (rank_at (view_of L.walk self.now) < slice * 10 + min len 9) }
    {
        let here = self.length();
        self.slice < slice || self.slice == slice && here < len.min(9)
    }

    /// Returns whether a key of this slice and length has its place here.
    pub(crate) fn is_place_of(&self, slice: u64, len: usize) -> bool
        requires { IsPlace (view_of L.walk self.now) }
        ensures { IsTrue result ↔ (rank_at (view_of L.walk self.now) ≡ slice * 10 + min len 9) }
    {
        self.slice == slice && self.length() == len.min(9)
    }

    /// Returns whether a key of this slice and length has its place here and is longer than 8 bytes.
    pub(crate) fn meets_key(&self, slice: u64, len: usize) -> bool
        requires { IsPlace (view_of L.walk self.now) }
        ensures { IsTrue result ↔ ((self.now.slice ≡ slice) × (length_at (view_of L.walk self.now) ≡ 9) × (8 < len)) }
    {
        self.slice == slice && self.length() == 9 && len > 8
    }

    /// Returns whether both places hold keys longer than 8 bytes of one slice.
    pub(crate) fn meets(&self, other: &Place<L>) -> bool
        requires lawful { IsPlace (view_of L.walk self.now) }
        requires other_lawful { IsPlace (view_of L.walk other.now) }
        ensures { IsTrue result ↔ Meet (view_of L.walk self.now) (view_of L.walk other.now) }
    {
        self.slice == other.slice && self.length() == 9 && other.length() == 9
    }
}
