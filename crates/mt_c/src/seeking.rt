//! Finds keys that cut a tree into ranges of about equally many pairs.
ghost use Rattle.std.specs.Prelude.{◌≡◌, ◌≤◌, ◌<◌, ◌++◌, ◌∷◌, [], None, MatchOption};
ghost use Rattle.mt_words.specs.Limits.{widest};
ghost use Rattle.mt_words.specs.Words.{IsKey};
ghost use Rattle.mt_words.specs.Walks.{KeysRise};
ghost use Rattle.mt_tree.specs.Trees.{tree_walk};
ghost use Rattle.mt_c.specs.Cuts.{key_at, pairs_before, BeginsRange};
ghost use Rattle.mt_c.specs.Seeking.{HaveSought, none_sought, both_sought};

use arrayvec::ArrayVec;
use mt_tree::{Tree, Visitor};
use mt_words::{LONGEST_KEY, PackedColumns};
use std::convert::Infallible;

/// The bytes of a key.
type KeyBytes = ArrayVec<u8, LONGEST_KEY>;

/// The greatest length of a key that cuts a store.
const LONGEST_CUT: usize = LONGEST_KEY + 1;

/// A key that cuts a store.
pub type CutKey = ArrayVec<u8, LONGEST_CUT>;

/// A walk to the pair at some position.
#[derive(Drop)]
pub struct Seeking {
    /// The number of pairs that come before it.
    pub left: u128,
    /// Its key, once it was shown.
    pub key: Option<KeyBytes>,
}

/// Counts pairs down, and copies the key of the one that is looked for.
pub struct Seeker;

impl Visitor<Seeking> for Seeker {
    type Error = Infallible;

    ghost shown = { HaveSought };

    #[tactic(auto, using(crate::proofs::Seeks::stays, crate::proofs::Seeks::counts, crate::proofs::Seeks::finds))]
    fn visit(
        &self,
        seeking: &mut Seeking,
        key: &[u8],
        _columns: &PackedColumns,
    ) -> Result<(), Infallible> {
        if seeking.key.is_some() {
            return Ok(());
        }
        if seeking.left > 0 {
            seeking.left -= 1;
            return Ok(());
        }
        let mut bytes = KeyBytes::new();
        bytes.try_extend_from_slice(key).unwrap();
        seeking.key = Some(bytes);
        Ok(())
    }

    ghost none = { none_sought };

    ghost more = { both_sought };

    #[tactic(auto, using(crate::proofs::Seeks::stays))]
    fn is_full(&self, seeking: &Seeking) -> bool {
        seeking.key.is_some()
    }
}

/// Returns the key at which range `i` of `n` ranges of the tree begins.
#[tactic(auto, using(crate::proofs::Cuts::begins_first))]
pub fn cut_key(tree: &Tree, i: usize, n: usize) -> CutKey
    requires rise { KeysRise (tree_walk tree.now) }
    requires one { i < n }
    ensures { BeginsRange (tree_walk tree.now) i n result.items }
{
    if i == 0 {
        return CutKey::new();
    }
    let before = pairs_before(tree.len(), i, n);
    match key_at(tree, before.saturating_sub(1)) {
        Some(last) => cut_after(last.as_slice()),
        None => cut_after(&[]),
    }
}

/// Returns the least key above this one.
fn cut_after(key: &[u8]) -> CutKey
    requires { IsKey widest key.now }
    ensures { result.items ≡ key.now ++ 0 ∷ [] }
{
    let mut cut = CutKey::new();
    cut.try_extend_from_slice(key).unwrap();
    cut.push(0);
    cut
}

/// Returns how many of `count` pairs come before range `i` of `n` ranges.
#[tactic(auto, using(crate::proofs::Seeks::product_within, crate::proofs::Seeks::before_within, crate::proofs::Seeks::before_some))]
fn pairs_before(count: u128, i: usize, n: usize) -> u128
    requires { i < n }
    ensures value { result ≡ pairs_before count i n }
    ensures within { result ≤ count }
    ensures some { 0 < i → 0 < count → 0 < result }
{
    let (i, n) = (i as u128, n as u128);
    i * (count / n) + i.min(count % n)
}

/// Returns the key of the pair at this position, or None if there are not so many pairs.
fn key_at(tree: &Tree, position: u128) -> Option<KeyBytes>
    ensures { MatchOption result
        (key_at (tree_walk tree.now) position ≡ None)
        (λ key. key_at (tree_walk tree.now) position ≡ Some key.items) }
{
    let mut seeking = Seeking {
        left: position,
        key: None,
    };
    match tree.visit(&Seeker, &mut seeking) {
        Ok(()) => seeking.key,
        Err(never) => match never {},
    }
}
