//! Keys.
ghost use Rattle.std.specs.Prelude.{◌≡◌, ◌↔◌, IsSome, IfSome, IfOk, drop, nat_eq};
ghost use Rattle.std.specs.Ordering.{nat_cmp, as_partial_cmp};
ghost use Rattle.std.specs.Cmp.{partial_equiv_from_equiv};
ghost use Rattle.std.specs.Cmp.Lexicographic.{slice_cmp, pointwise, lists_ties, nat_list_cmp_total, nat_list_eq_equiv};
ghost use Rattle.std.proofs.Common.{rules};
ghost use Rattle.std.specs.Cmp.Rules.{comparing};
ghost use Rattle.mt_words.specs.Limits.{widest};
ghost use Rattle.mt_words.specs.Slices.{slice_in};
ghost use Rattle.mt_words.specs.Words.{IsKey};

use crate::fault::Memory;
use crate::limits::LONGEST_KEY;
use crate::slice::slice_at;
use std::alloc::Global;
use std::cmp::Ordering;
use std::marker::Model;

/// A key of the store: at most `LONGEST_KEY` bytes. Keys are ordered byte by byte, and a prefix comes before the keys
/// that continue it.
#[derive(Debug)]
pub struct Key {
    bytes: Vec<u8>,
}

/// Written out, not derived, for the same reason as the drop of `Columns`.
impl Drop for Key {
    fn drop(self) {
        let Key { bytes: _ } = self;
    }
}

impl Model for Key {
    ghost use Rattle.std.specs.Prelude.{List, ℕ};
    ghost use Rattle.mt_words.specs.Limits.{widest};
    ghost use Rattle.mt_words.specs.Words.{IsKey};

    ghost Value = { List ℕ };

    ghost view = { λ k. k.bytes.items };

    ghost invariant = { λ k. IsKey widest k.bytes.items };
}

impl Key {
    /// Creates a key of these bytes. Returns None if there are more than `LONGEST_KEY`.
    pub fn new(bytes: Vec<u8>) -> Option<Key>
        ensures accepted { IsSome result ↔ IsKey widest bytes.items }
        ensures value { IfSome result (λ key. key ≡ bytes.items) }
    {
        if bytes.len() > LONGEST_KEY {
            return None;
        }
        Some(Key { bytes })
    }

    /// Creates a key of a copy of these bytes. Err: out of memory.
    pub fn copy_of(alloc: Global, bytes: &[u8]) -> Result<Key, Memory>
        requires { IsKey widest bytes.now }
        ensures { IfOk result (λ key. key ≡ bytes.now) }
    {
        Ok(Key {
            bytes: Vec::from_slice(alloc, bytes)?,
        })
    }

    /// Returns the bytes of the key.
    pub fn as_bytes(&self) -> &[u8]
        ensures value { result.now ≡ self.now }
        ensures lawful { IsKey widest self.now }
    {
        &self.bytes
    }

    /// Returns the slice of the key's bytes from offset `at` on.
    pub fn slice(&self, at: usize) -> u64
        ensures { result ≡ slice_in (drop at self.now) }
    {
        slice_at(&self.bytes, at)
    }

    /// Returns a copy of the key. Err: out of memory.
    pub fn try_copy(&self) -> Result<Key, Memory>
        ensures { IfOk result (λ key. key ≡ self.now) }
    {
        Key::copy_of(*self.bytes.allocator(), &self.bytes)
    }
}

impl PartialEq for Key {
    ghost eq = { pointwise nat_eq };

    ghost laws = { partial_equiv_from_equiv nat_list_eq_equiv };

    fn eq(&self, other: &Key) -> bool {
        self.bytes == other.bytes
    }
}

impl Eq for Key {
    ghost laws = { nat_list_eq_equiv };
}

impl PartialOrd for Key {
    ghost partial_cmp = { as_partial_cmp (slice_cmp nat_cmp) };

    ghost laws = { Prim.search (comparing, rules) };

    fn partial_cmp(&self, other: &Key) -> Option<Ordering> {
        Some(self.cmp(other))
    }
}

impl Ord for Key {
    ghost cmp = { slice_cmp nat_cmp };

    ghost total = { nat_list_cmp_total };

    ghost matches_partial_cmp = { Prim.search (comparing, rules) };

    ghost matches_eq = { λ x y. lists_ties nat_cmp (λ a b. Prim.search (comparing, rules)) x y };

    fn cmp(&self, other: &Key) -> Ordering {
        self.bytes.cmp(&other.bytes)
    }
}
