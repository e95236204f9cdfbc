//! The recovered store.
ghost use Rattle.std.specs.Prelude.{◌≡◌, List, ℕ, MatchOption, Contains, IfOk, OnOk};
ghost use Rattle.mt_words.specs.Walks.{IsMap, Pair};
ghost use Rattle.mt_tree.specs.Range.{from, hits};
ghost use Rattle.mt_tree.specs.Trees.{tree_walk, IsCount};

use mt_tree::{Hit, Tree, Visitor, Wanted};
use mt_words::{Memory, PackedColumns};
use std::marker::Model;

/// A store: keys in order, each with its columns, in a layered tree. Contracts see it as the list of its pairs.
pub struct Store {
    tree: Tree,
}

/// Written out, not derived, for the same reason as the drop of `Columns`.
impl Drop for Store {
    fn drop(self) {
        let Store { tree: _ } = self;
    }
}

impl Model for Store {
    ghost Value = { List Pair };

    ghost view = { λ s. tree_walk s.tree };

    ghost invariant = { λ s. IsMap (tree_walk s.tree) };
}

impl Store {
    /// Creates the store of the pairs of this tree.
    pub(crate) fn of(tree: Tree) -> Store
        requires { IsMap (tree_walk tree) }
        ensures { result ≡ tree_walk tree }
    {
        Store { tree }
    }

    /// Returns the columns of this key, or None if it is absent. The key may have any length: no key of a store is
    /// longer than `LONGEST_KEY` bytes, so a longer one is absent.
    pub fn get(&self, key: &[u8]) -> Option<&PackedColumns>
        ensures { MatchOption result
            ((columns : List (ℕ × List ℕ)) → Contains self.now (key.now, columns) → ⊥)
            (λ found. Contains self.now (key.now, found.now)) }
    {
        self.tree.get(key)
    }

    /// Returns the first `n` pairs whose key is at or after `start`, in order. Each pair has those of its columns that
    /// are wanted, which may be none. The start may have any length. Err: out of memory.
    pub fn getrange(&self, start: &[u8], n: usize, wanted: Wanted) -> Result<Vec<Hit>, Memory>
        ensures { IfOk result (λ found. found.items ≡ hits wanted self.now start.now n) }
    {
        self.tree.getrange(start, n, wanted)
    }

    /// Returns the tree of the pairs.
    pub fn tree(&self) -> &Tree
        ensures pairs { tree_walk result.now ≡ self.now }
        ensures lawful { IsMap self.now }
    {
        &self.tree
    }

    /// Returns the number of pairs, capped at the greatest `u128`.
    pub fn len(&self) -> u128
        ensures { IsCount self.now result }
    {
        self.tree.len()
    }

    /// Shows all pairs to the visitor, in order. Allocates no memory. Shows no further pair after an Err of the
    /// visitor.
    pub fn visit<T, V: Visitor<T>>(&self, visitor: &V, target: &mut T) -> Result<(), V::Error>
        ensures { OnOk result (V.shown target.old target.new self.now) }
    {
        self.tree.visit(visitor, target)
    }

    /// Shows all pairs whose key is at or after `start` to the visitor, in order. The start may have any length.
    /// Allocates no memory. The walk ends once the visitor says that the target is full. Err: the visitor's first error;
    /// no further pair is shown.
    pub fn visit_from<T, V: Visitor<T>>(
        &self,
        start: &[u8],
        visitor: &V,
        target: &mut T,
    ) -> Result<(), V::Error>
        ensures shown { OnOk result (V.shown target.old target.new (from start.now self.now)) }
        ensures lawful { IsMap self.now }
    {
        self.tree.visit_from(start, visitor, target)
    }
}
