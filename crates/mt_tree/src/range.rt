//! Queries of ranges of keys: the hits that a walk collects.
ghost use Rattle.std.specs.Prelude.{◌≤◌, ◌<◌, length, MatchBool};
ghost use Rattle.mt_tree.specs.Steps.Ranging.{HaveCollected, none_collected, both_collected};

use crate::hit::{Hit, copy_wanted};
use crate::visit::Visitor;
use crate::wanted::Wanted;
use mt_words::{Key, Memory, PackedColumns};

/// The hits of a range query so far.
#[derive(Drop)]
pub(crate) struct Collecting {
    /// The most hits.
    pub(crate) count: usize,
    pub(crate) wanted: Wanted,
    pub(crate) hits: Vec<Hit>,
}

impl Collecting {
    /// Returns whether there are as many hits as wanted.
    fn is_full(&self) -> bool
        ensures { MatchBool result
            (self.now.count ≤ length self.now.hits.items)
            (length self.now.hits.items < self.now.count) }
    {
        self.hits.len() >= self.count
    }
}

/// Takes each pair as a hit, as long as there is room. Err: out of memory.
pub(crate) struct Collector;

impl Visitor<Collecting> for Collector {
    type Error = Memory;

    ghost shown = { HaveCollected };

    fn visit(
        &self,
        target: &mut Collecting,
        key: &[u8],
        columns: &PackedColumns,
    ) -> Result<(), Memory> {
        if target.is_full() {
            return Ok(());
        }
        let alloc = *target.hits.allocator();
        let key = Key::copy_of(alloc, key)?;
        let columns = copy_wanted(alloc, columns, target.wanted)?;
        target.hits.push(Hit { key, columns })?;
        Ok(())
    }

    ghost none = { none_collected };

    ghost more = { both_collected };

    fn is_full(&self, target: &Collecting) -> bool {
        target.is_full()
    }
}
