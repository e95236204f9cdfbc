//! Where the parts of a checkpoint begin: a walk before anything is written.
ghost use Rattle.std.specs.Prelude.{◌≡◌, ◌-◌, ◌≤◌, ◌<◌, ◌+◌, ◌^◌, ◌⊎◌, ◌↔◌, length, false, IsTrue, IfOk, IfErr};
ghost use Rattle.mt_words.specs.Limits.{widest};
ghost use Rattle.mt_words.specs.Words.{IsKey};
ghost use Rattle.mt_words.specs.Walks.{KeysRise};
ghost use Rattle.mt_tree.specs.Trees.{tree_walk};
ghost use Rattle.mt_checkpoint.specs.Steps.Planning.{MakeUp, IsDivisionFault, HasPlanned, none_planned, both_planned};

use crate::checkpoint::MOST_PARTS;
use crate::encode::entry_length;
use crate::plan_fault::PlanFault;
use mt_record::{FOOTER_BYTES, PART_HEADER_BYTES};
use mt_tree::{Tree, Visitor};
use mt_words::{Key, Memory, PackedColumns};
use std::alloc::Global;
use std::mem;

/// The number of bytes around the entries in the text of a part.
const AROUND: usize = PART_HEADER_BYTES + FOOTER_BYTES;

/// The pairs of a part: the first ones at or after a key.
#[derive(Drop)]
pub struct Stretch {
    /// The key at or after which they begin.
    pub start: Key,
    /// Their number.
    pub count: u32,
}

/// Returns the parts of a tree. The text of each has at most `limit` bytes, or a single entry. Err: there are too many; out
/// of memory.
pub fn stretches_of(alloc: Global, tree: &Tree, limit: usize) -> Result<Vec<Stretch>, PlanFault>
    requires { KeysRise (tree_walk tree.now) }
    ensures parts { IfOk result (λ stretches. MakeUp limit (tree_walk tree.now) stretches.items) }
    ensures fault { IfErr result (IsDivisionFault limit (tree_walk tree.now)) }
{
    let last = Stretch {
        start: Key::copy_of(alloc, &[])?,
        count: 0,
    };
    let mut plan = Planning {
        alloc,
        limit,
        full: Vec::new(alloc),
        last,
        size: AROUND,
    };
    tree.visit(&Planner, &mut plan)?;
    if plan.is_over() {
        return Err(PlanFault::Parts);
    }
    let Planning { mut full, last, .. } = plan;
    full.push(last)?;
    Ok(full)
}

/// The parts of the pairs so far.
#[derive(Drop)]
struct Planning {
    alloc: Global,
    /// The most bytes of the text of a part that has more than one entry.
    limit: usize,
    /// The parts before the last.
    full: Vec<Stretch>,
    /// The last part.
    last: Stretch,
    /// The number of bytes of the text of the last part.
    size: usize,
}

impl Planning {
    /// Returns whether the last part takes a further entry, of this many bytes.
    fn takes(&self, length: usize) -> bool
        ensures room { IsTrue result → self.now.size + length ≤ self.now.limit }
        ensures some { IsTrue result → 0 < self.now.last.count }
        ensures few { IsTrue result → self.now.last.count < 2 ^ 32 - 1 }
        ensures full { result ≡ false → 0 < self.now.last.count → (self.now.limit < self.now.size + length) ⊎ (2 ^ 32 - 1 ≤ self.now.last.count) }
    {
        let has_room = self.size <= self.limit && length <= self.limit - self.size;
        has_room && 0 < self.last.count && self.last.count < u32::MAX
    }

    /// Returns whether more parts were begun than a checkpoint may have.
    fn is_over(&self) -> bool
        ensures { IsTrue result ↔ (MOST_PARTS ≤ length self.now.full.items) }
    {
        MOST_PARTS <= self.full.len()
    }
}

/// Adds each pair to the last part, or begins another part with it. Ends the walk once there are too many.
struct Planner;

impl Visitor<Planning> for Planner {
    type Error = Memory;

    ghost shown = { HasPlanned };

    fn visit(
        &self,
        plan: &mut Planning,
        key: &[u8],
        columns: &PackedColumns,
    ) -> Result<(), Memory> {
        if plan.is_over() {
            return Ok(());
        }
        let length = 8 + entry_length(key, columns);
        if plan.takes(length) {
            plan.last.count += 1;
            plan.size += length;
            return Ok(());
        }
        let start = Key::copy_of(plan.alloc, key)?;
        let full = mem::replace(&mut plan.last, Stretch { start, count: 1 });
        plan.size = AROUND + length;
        if full.count > 0 {
            plan.full.push(full)?;
        }
        Ok(())
    }

    fn is_full(&self, plan: &Planning) -> bool {
        plan.is_over()
    }

    ghost none = { none_planned };

    ghost more = { both_planned };
}
