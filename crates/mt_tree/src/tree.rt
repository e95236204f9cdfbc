//! Drafts, and the trees that they are finished into.
ghost use Rattle.std.specs.Prelude.{ℕ, ◌≡◌, ◌↔◌, ◌++◌, ◌∷◌, [], ◌<◌, List, min, ◌^◌, ◌-◌};
ghost use Rattle.std.specs.Prelude.{Contains, MatchOption, IfOk, OnOk, OnErr, IsTrue};
ghost use Rattle.mt_tree.specs.Layer.{AllKeysBelow};
ghost use Rattle.mt_words.specs.Limits.{widest};
ghost use Rattle.mt_words.specs.Walks.{KeysRise};
ghost use Rattle.mt_words.specs.Words.{IsKey};
ghost use Rattle.mt_tree.specs.Borders.{AreBorders, empty_draft, layer_walk};
ghost use Rattle.mt_tree.specs.Trees.{tree_walk, tree_borders, tree_below, IsTree, HasLayers, IsCount};
ghost use Rattle.mt_tree.specs.Range.{from, hits};
ghost use Rattle.mt_tree.specs.Layers.{CountsLayers, IsLayers};

use crate::finish::{Finished, finish};
use crate::hit::Hit;
use crate::layer::Layer;
use crate::node::Node;
use crate::order::{Side, lies_below};
use crate::range::{Collecting, Collector};
use crate::visit::Visitor;
use crate::wanted::Wanted;
use arrayvec::ArrayVec;
use mt_words::{Key, Memory, PackedColumns, PairSink};
use std::alloc::Global;
use std::marker::Model;

/// A layered tree under construction. Its layers are lists of borders, which join at their seams.
#[derive(Drop)]
pub struct Draft {
    layer: Layer,
    /// The number of pairs, capped at the greatest `u128`.
    count: u128,
}

impl Model for Draft {
    ghost use Rattle.mt_tree.specs.Steps.Pairs.{FitsAfter};
    ghost use Rattle.mt_tree.specs.Borders.{DraftView, AreBorders, layer_walk};

    ghost Value = { DraftView };

    ghost view = { λ d. d.layer };

    ghost use Rattle.mt_tree.specs.Trees.{IsCount};

    ghost invariant = { λ d.
        AreBorders d.layer × FitsAfter 0 (layer_walk d.layer) × IsCount (layer_walk d.layer) d.count };
}

/// A finished layered tree: its nodes, with what they hold.
pub struct Tree {
    alloc: Global,
    root: Option<Node>,
    /// The number of pairs, capped at the greatest `u128`.
    count: u128,
    /// The number of trees, capped at the greatest `u64`. They were counted as they were finished.
    layers: u64,
}

/// Written out, not derived, for the same reason as the drop of `PackedColumns`.
impl Drop for Tree {
    fn drop(self) {
        let Tree {
            alloc: _,
            root: _,
            count: _,
            layers: _,
        } = self;
    }
}

impl Model for Tree {
    ghost use Rattle.std.specs.Prelude.{Option};
    ghost use Rattle.mt_tree.specs.Nodes.{NodeView};
    ghost use Rattle.mt_tree.specs.Trees.{tree_walk, IsTree, HasLayers, IsCount};
    ghost use Rattle.mt_tree.specs.Steps.Pairs.{FitsAfter};

    ghost Value = { Option NodeView };

    ghost view = { λ t. t.root };

    ghost invariant = { λ t.
        IsTree t.root × FitsAfter 0 (tree_walk t.root) × HasLayers t.root t.layers
        × IsCount (tree_walk t.root) t.count };
}

impl Draft {
    /// Creates an empty draft.
    #[tactic(auto, using(crate::specs::Nodes::unlinked))]
    pub fn new(alloc: Global) -> Draft
        ensures { result ≡ empty_draft }
    {
        Draft {
            layer: Layer::new(alloc),
            count: 0,
        }
    }

    /// Returns the number of pairs, capped at the greatest `u128`.
    pub fn len(&self) -> u128
        ensures { IsCount (layer_walk self.now) result }
    {
        self.count
    }

    /// Appends a pair. Its key must be above all keys of the draft. Err: out of memory; the draft is then empty.
    #[tactic(auto, using(crate::specs::Nodes::unlinked))]
    pub fn push(&mut self, key: &[u8], columns: PackedColumns) -> Result<(), Memory>
        requires lawful { IsKey widest key.now }
        requires rises { KeysRise (layer_walk self.old ++ (key.now, columns) ∷ []) }
        ensures pairs { OnOk result (layer_walk self.new ≡ layer_walk self.old ++ (key.now, columns) ∷ []) }
        ensures lawful { OnOk result (AreBorders self.new) }
        ensures refused { OnErr result (self.new ≡ empty_draft) }
    {
        let alloc = self.layer.allocator();
        if let Err(fault) = self.layer.push(alloc, key, columns) {
            self.count = 0;
            return Err(fault);
        }
        self.count = self.count.saturating_add(1);
        Ok(())
    }

    /// Bulk loads a draft from pairs whose keys strictly rise. Err: out of memory.
    pub fn build(alloc: Global, pairs: Vec<(Key, PackedColumns)>) -> Result<Draft, Memory>
        requires { KeysRise pairs.items }
        ensures pairs { IfOk result (λ d. layer_walk d ≡ pairs.items) }
        ensures lawful { IfOk result AreBorders }
    {
        let mut draft = Draft::new(alloc);
        for (key, columns) in pairs {
            draft.push(key.as_bytes(), columns)?;
        }
        Ok(draft)
    }

    /// Joins two drafts. All keys of the first must lie below all keys of the second. Err: out of memory.
    pub fn join(left: Draft, right: Draft) -> Result<Draft, Memory>
        requires { AllKeysBelow (layer_walk left) (layer_walk right) }
        ensures pairs { IfOk result (λ d. layer_walk d ≡ layer_walk left ++ layer_walk right) }
        ensures lawful { IfOk result AreBorders }
    {
        let alloc = left.layer.allocator();
        let count = left.count.saturating_add(right.count);
        let layer = Layer::join(alloc, left.layer, right.layer)?;
        Ok(Draft { layer, count })
    }

    /// Finishes the draft into a tree. Err: out of memory.
    pub fn finish(self) -> Result<Tree, Memory>
        ensures borders { IfOk result (λ t. tree_borders t ≡ self.borders) }
        ensures below { IfOk result (λ t. tree_below t ≡ self.below) }
        ensures lawful { IfOk result IsTree }
    {
        let Draft { layer, count } = self;
        let alloc = layer.allocator();
        if layer.is_empty() {
            return Ok(Tree {
                alloc,
                root: None,
                count,
                layers: 1,
            });
        }
        let Finished { made, below } = finish(alloc, layer)?;
        Ok(Tree {
            alloc,
            root: Some(made),
            count,
            layers: below.saturating_add(1),
        })
    }
}

impl PairSink for Draft {
    ghost pairs = { λ d. layer_walk d };

    fn push_pair(&mut self, key: &[u8], columns: PackedColumns) -> Result<(), Memory> {
        self.push(key, columns)
    }
}

/// Returns whether all keys of the first draft lie below all keys of the second.
pub fn above(left: &Draft, right: &Draft) -> bool
    ensures { IsTrue result ↔ AllKeysBelow (layer_walk left.now) (layer_walk right.now) }
{
    lies_below(Side::Whole(&left.layer), Side::Whole(&right.layer))
}

impl Tree {
    /// Returns the columns of this key, or None if it is absent. The key may have any length. No key of a tree is
    /// longer than `LONGEST_KEY` bytes, so a longer one is absent.
    pub fn get(&self, key: &[u8]) -> Option<&PackedColumns>
        ensures { MatchOption result
            ((columns : List (ℕ × List ℕ)) → Contains (tree_walk self.now) (key.now, columns) → ⊥)
            (λ found. Contains (tree_walk self.now) (key.now, found.now)) }
    {
        match &self.root {
            None => None,
            Some(root) => root.get(key),
        }
    }

    /// Returns the first `n` pairs whose keys are at or after the start, each with its wanted columns. Err: out of
    /// memory.
    pub fn getrange(&self, start: &[u8], n: usize, wanted: Wanted) -> Result<Vec<Hit>, Memory>
        ensures { IfOk result (λ found. found.items ≡ hits wanted (tree_walk self.now) start.now n) }
    {
        let mut target = Collecting {
            count: n,
            wanted,
            hits: Vec::new(self.alloc),
        };
        self.visit_from(start, &Collector, &mut target)?;
        Ok(target.hits)
    }

    /// Shows all pairs to the visitor in key order, without allocating. The walk ends once the target is full. Err: the
    /// visitor's first error; no further pair is shown.
    pub fn visit<T, V: Visitor<T>>(&self, visitor: &V, target: &mut T) -> Result<(), V::Error>
        ensures { OnOk result (V.shown target.old target.new (tree_walk self.now)) }
    {
        self.visit_from(&[], visitor, target)
    }

    /// Shows all pairs whose keys are at or after the start to the visitor in key order, without allocating. The start
    /// may have any length. The walk ends once the target is full. Err: the visitor's first error; no further pair is
    /// shown.
    pub fn visit_from<T, V: Visitor<T>>(
        &self,
        start: &[u8],
        visitor: &V,
        target: &mut T,
    ) -> Result<(), V::Error>
        ensures { OnOk result (V.shown target.old target.new (from start.now (tree_walk self.now))) }
    {
        match &self.root {
            None => Ok(()),
            Some(root) => root.visit(start, &mut ArrayVec::new(), visitor, target),
        }
    }

    /// Returns the number of pairs, capped at the greatest `u128`.
    pub fn len(&self) -> u128
        ensures { IsCount (tree_walk self.now) result }
    {
        self.count
    }

    /// Returns the number of trees, capped at the greatest `u64`.
    pub fn layers(&self) -> u64
        ensures counts { CountsLayers (tree_walk self.now) result }
        ensures exact { (n : ℕ) → IsLayers (tree_walk self.now) n → result ≡ min n (2 ^ 64 - 1) }
        ensures trees { HasLayers self.now result }
    {
        self.layers
    }
}
