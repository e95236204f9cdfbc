//! The tree of a store.
ghost use Rattle.std.specs.Prelude.{◌≡◌};
ghost use Rattle.mt_words.specs.Walks.{KeysRise};
ghost use Rattle.mt_tree.specs.Trees.{tree_walk};

use mt_recover::Store;
use mt_tree::Tree;

/// Lends the tree of the store.
#[tactic(auto, using(crate::proofs::Cuts::rise_along))]
pub fn tree_of(store: &Store) -> &Tree
    ensures pairs { tree_walk result.now ≡ store.now }
    ensures rise { KeysRise (tree_walk result.now) }
{
    store.tree()
}
