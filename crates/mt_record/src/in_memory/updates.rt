//! The updates of a log, copied out of its records.
ghost use Rattle.std.specs.Prelude.{◌≡◌, ◌++◌, IfOk, OnOk};
ghost use Rattle.mt_words.specs.Updates.{update_by};
ghost use Rattle.mt_words.specs.OneLog.{kept_updates};

use crate::body::copy::copy_record;
use crate::kept::updates::Updates;
use mt_words::{Change, Memory, Origin, Record, Stamp, Update};
use std::alloc::Global;

impl Updates {
    /// Returns all updates, each with a copy of its key and its values. Err: out of memory.
    pub fn into_vec(self, alloc: Global) -> Result<Vec<Update>, Memory>
        ensures { IfOk result (λ updates. updates.items ≡ kept_updates self) }
    {
        let mut updates = Vec::with_capacity(alloc, self.len())?;
        for number in 0..self.record_count() {
            let logged = copy_record(alloc, self.records.body(number))?;
            push_update(&mut updates, self.origin(number), logged)?;
        }
        Ok(updates)
    }
}

/// Appends the update of a record, if the record is not a mark. Err: out of memory.
fn push_update(updates: &mut Vec<Update>, origin: Origin, logged: Record) -> Result<(), Memory>
    ensures { OnOk result (updates.new.items ≡
        updates.old.items ++ update_by origin logged.timestamp logged.change) }
{
    let timestamp = logged.timestamp();
    let Some(change) = logged.into_change() else {
        return Ok(());
    };
    let Change { version, key, kind } = change;
    let stamp = Stamp { version, origin };
    updates.push(Update {
        key,
        stamp,
        timestamp,
        kind,
    })?;
    Ok(())
}
