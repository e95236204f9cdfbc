//! Parts grouped by the numbers of their checkpoints.
ghost use Rattle.std.specs.Prelude.{List, ℕ, [], ◌∷◌, ◌++◌, map, IfOk, OnOk, MatchOption};
ghost use Rattle.mt_scan.specs.PartScans.{KnownPart, whole, broken};
ghost use Rattle.mt_scan.specs.PartsShown.{shown_by, known_by};
ghost use Rattle.mt_scan.specs.Steps.Groups.{IsPartGroupOf, AreGroupsOf, HasNone, IsCheckpointOf};

use crate::checkpoint::Checkpoint;
use crate::part_scan::PartScan;
use mt_record::{KeptEntries, PartText};
use mt_words::Memory;
use std::alloc::Global;
use std::collections::BTreeMap;

/// The parts of one checkpoint.
#[derive(Drop)]
pub enum PartGroup {
    /// All of them are complete. They are in any order.
    Whole(Vec<PartText<KeptEntries>>),
    /// At least one of them is broken.
    Broken,
}

impl PartGroup {
    /// Adds a complete part. Err: out of memory; then the part may be missing.
    fn add(&mut self, text: PartText<KeptEntries>) -> Result<(), Memory>
        ensures { OnOk result ((parts : List KnownPart) → IsPartGroupOf parts self.old →
            IsPartGroupOf (parts ++ whole (shown_by text) ∷ []) self.new) }
    {
        if let PartGroup::Whole(texts) = self {
            texts.push(text)?;
        }
        Ok(())
    }

    /// Creates the checkpoint with this number from these parts. Returns None if they make up no valid checkpoint.
    pub fn into_checkpoint(self, number: u32) -> Option<Checkpoint>
        ensures { MatchOption result (HasNone self) (IsCheckpointOf number self) }
    {
        match self {
            PartGroup::Whole(texts) => Checkpoint::of(number, texts),
            PartGroup::Broken => None,
        }
    }
}

/// Groups the parts by the numbers of their checkpoints. Parts without a header belong to none. Err: out of memory.
pub fn group_parts(alloc: Global, scans: Vec<PartScan>) -> Result<BTreeMap<u32, PartGroup>, Memory>
    ensures { IfOk result (AreGroupsOf (map known_by scans.items)) }
{
    let mut groups = BTreeMap::new(alloc);
    for scan in scans {
        add_scan(alloc, &mut groups, scan)?;
    }
    Ok(groups)
}

/// Adds the part of a scan to the group of its checkpoint, if it has one. Err: out of memory.
fn add_scan(
    alloc: Global,
    groups: &mut BTreeMap<u32, PartGroup>,
    scan: PartScan,
) -> Result<(), Memory>
    ensures { OnOk result ((parts : List KnownPart) → AreGroupsOf parts groups.old →
        AreGroupsOf (parts ++ known_by scan ∷ []) groups.new) }
{
    match scan {
        PartScan::Whole(text) => add_whole(alloc, groups, text),
        PartScan::Broken { number, entries: _ } => add_broken(groups, number),
        PartScan::Nameless => Ok(()),
    }
}

/// Adds a complete part to the group of its checkpoint. Err: out of memory.
fn add_whole(
    alloc: Global,
    groups: &mut BTreeMap<u32, PartGroup>,
    text: PartText<KeptEntries>,
) -> Result<(), Memory>
    ensures { OnOk result ((parts : List KnownPart) → AreGroupsOf parts groups.old →
        AreGroupsOf (parts ++ whole (shown_by text) ∷ []) groups.new) }
{
    let number = text.number;
    if let Some(group) = groups.get_mut(&number) {
        return group.add(text);
    }
    let mut texts = Vec::new(alloc);
    texts.push(text)?;
    groups.insert(number, PartGroup::Whole(texts))?;
    Ok(())
}

/// Marks the group of this checkpoint as broken. Err: out of memory.
fn add_broken(groups: &mut BTreeMap<u32, PartGroup>, number: u32) -> Result<(), Memory>
    ensures { OnOk result ((parts : List KnownPart) (entries : ℕ) → AreGroupsOf parts groups.old →
        AreGroupsOf (parts ++ broken number entries ∷ []) groups.new) }
{
    groups.insert(number, PartGroup::Broken)?;
    Ok(())
}
