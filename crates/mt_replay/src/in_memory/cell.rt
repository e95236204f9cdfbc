//! The result of the updates of one key.
ghost use Rattle.std.specs.Prelude.{◌≡◌, ◌↔◌, ◌++◌, [], ◌∷◌, List, ℕ, IfOk, All, Contains};
ghost use Rattle.mt_words.specs.declared.update.Update.{Update as UpdateValue};
ghost use Rattle.mt_words.specs.Limits.{widest};
ghost use Rattle.mt_words.specs.Words.{AreColumns};
ghost use Rattle.mt_replay.specs.Cells.{AreApart};
ghost use Rattle.mt_replay.specs.Groups.{Group as GroupValue, IsGroupOf, HasLawfulWrites, AreColumnsOf};

use crate::group::Group;
use mt_words::{Memory, PackedColumns, Update, Value};
use std::alloc::Global;
use std::marker::Model;

/// The result of the updates of one key, in any order: the greatest stamp at which the key was cleared, and for each
/// column the write with the greatest stamp. It has a place for each column, so applying an update or merging another
/// cell does not allocate. The bytes of the writes are moved.
#[derive(Drop)]
pub struct Cell {
    alloc: Global,
    group: Group<Value>,
}

impl Model for Cell {
    ghost use Rattle.mt_replay.specs.Groups.{Group as GroupValue};

    ghost Value = { GroupValue };

    ghost view = { λ c. c.group };
}

impl Cell {
    /// Creates the cell of no update. It does not allocate: `alloc` is kept for `columns`.
    pub fn empty(alloc: Global) -> Cell
        ensures { (key : List ℕ) → IsGroupOf [] key result }
    {
        Cell {
            alloc,
            group: Group::empty(),
        }
    }

    /// Applies an update of the key.
    pub fn apply(&mut self, update: Update)
        ensures cell { (updates : List UpdateValue) (key : List ℕ) → update.key ≡ key →
            IsGroupOf updates key self.old → IsGroupOf (updates ++ update ∷ []) key self.new }
        ensures lawful { HasLawfulWrites update }
    {
        self.group.apply(update);
    }

    /// Returns the cell of the updates of both. If two writes of a column have the same stamp, it keeps this cell's.
    pub fn merge(self, other: Cell) -> Cell
        ensures { (updates others : List UpdateValue) (key : List ℕ) → IsGroupOf updates key self →
            IsGroupOf others key other → IsGroupOf (updates ++ others) key result }
    {
        Cell {
            alloc: self.alloc,
            group: self.group.merge(other.group),
        }
    }

    /// Returns copies of the columns that the key has after the updates, in no more memory than they need.
    /// Err: out of memory.
    pub fn columns(&self) -> Result<PackedColumns, Memory>
        ensures lawful { IfOk result (AreColumns widest) }
        ensures exact { IfOk result (λ columns. (updates : List UpdateValue) (key : List ℕ) →
            IsGroupOf updates key self.now → AreApart updates → All HasLawfulWrites updates →
            AreColumnsOf updates key columns) }
    {
        self.group.columns(self.alloc)
    }
}

/// The same updates make the same cell, in any order and however they were merged, if no two updates of a key share a
/// stamp. This is a law: it has nothing to run.
pub fn one_cell()
    ensures { (updates others : List Update) (key : List ℕ) (group other : GroupValue) →
        AreApart updates → All HasLawfulWrites updates → ((u : Update) → Contains updates u ↔ Contains others u) →
        IsGroupOf updates key group → IsGroupOf others key other → group ≡ other }
{}
