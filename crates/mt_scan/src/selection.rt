//! The selection of the best checkpoint.
ghost use Rattle.std.specs.Prelude.{◌≡◌, ◌↔◌, ℕ, List, [], ◌∷◌, ◌++◌, Some, IsTrue, IfOk, OnOk};
ghost use Rattle.mt_scan.specs.PartScans.{KnownPart};
ghost use Rattle.mt_scan.specs.Steps.Groups.{AreGroupsOf};
ghost use Rattle.mt_scan.specs.Steps.Selections.{GroupsBelow, IsSelectionOf, IsNoWorse, IsSelectionFor};

use crate::checkpoint::Checkpoint;
use crate::group::PartGroup;
use mt_words::Memory;
use std::alloc::Global;
use std::collections::BTreeMap;

/// The selection among the checkpoints so far, which come in rising order of their numbers.
#[derive(Drop)]
pub struct Selection {
    /// Of the valid checkpoints that end below the cutoff, the one with the greatest end; of several, the one with the
    /// greatest number. None if there is none.
    pub best: Option<Checkpoint>,
    /// The numbers of the invalid checkpoints, in rising order.
    pub skipped: Vec<u32>,
}

impl Selection {
    /// Adds the next checkpoint, given as the group of its parts. Err: out of memory.
    fn add(&mut self, number: u32, group: PartGroup, cutoff: u64) -> Result<(), Memory>
        ensures { OnOk result ((all : List (ℕ × PartGroup)) → GroupsBelow all number → IsSelectionOf all cutoff self.old →
            IsSelectionOf (all ++ (number, group) ∷ []) cutoff self.new) }
    {
        match group.into_checkpoint(number) {
            Some(checkpoint) => self.offer(checkpoint, cutoff),
            None => self.skipped.push(number)?,
        }
        Ok(())
    }

    /// Keeps the valid checkpoint if it ends below the cutoff and is no worse than the best so far.
    fn offer(&mut self, checkpoint: Checkpoint, cutoff: u64)
        ensures taken { IsNoWorse cutoff self.old.best checkpoint → self.new.best ≡ Some checkpoint }
        ensures left { (IsNoWorse cutoff self.old.best checkpoint → ⊥) → self.new.best ≡ self.old.best }
        ensures skipped { self.new.skipped ≡ self.old.skipped }
    {
        if self.is_no_worse(&checkpoint, cutoff) {
            self.best = Some(checkpoint);
        }
    }

    /// Returns whether the valid checkpoint is to replace the best so far.
    fn is_no_worse(&self, checkpoint: &Checkpoint, cutoff: u64) -> bool
        ensures { IsTrue result ↔ IsNoWorse cutoff self.now.best checkpoint.now }
    {
        match &self.best {
            Some(best) => checkpoint.end < cutoff && best.end <= checkpoint.end,
            None => checkpoint.end < cutoff,
        }
    }
}

/// Selects the best of the checkpoints with these groups of parts, and the numbers of the invalid ones. Err: out of
/// memory.
pub fn select(
    alloc: Global,
    groups: BTreeMap<u32, PartGroup>,
    cutoff: u64,
) -> Result<Selection, Memory>
    ensures { IfOk result (λ selection. (parts : List KnownPart) → AreGroupsOf parts groups →
        IsSelectionFor parts cutoff selection) }
{
    let mut selection = Selection {
        best: None,
        skipped: Vec::new(alloc),
    };
    for (number, group) in groups {
        selection.add(number, group, cutoff)?;
    }
    Ok(selection)
}
