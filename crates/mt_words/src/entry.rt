//! Entries of a checkpoint.
ghost use Rattle.std.specs.Prelude.{◌≡◌, ◌<◌, ◌↔◌, length, IsSome, IfSome, IsTrue};
ghost use Rattle.mt_words.specs.declared.limits.Format.TheVariants.{One};
ghost use Rattle.mt_words.specs.Limits.{limits_of, widest};
ghost use Rattle.mt_words.specs.Changes.{IsEntry};
ghost use Rattle.mt_words.specs.Built.{entry_of};

use crate::{Change, Columns, Format, Key, Kind};
use std::marker::Model;

/// A lawful entry of a checkpoint: a key, its version (at least 1) and all its columns (at least one). It stands for
/// the complete key at that version: it clears the key, then sets these columns.
#[derive(Debug, Drop)]
pub struct Entry {
    change: Change,
}

impl Model for Entry {
    ghost use Rattle.mt_words.specs.declared.record.Change.{Change};
    ghost use Rattle.mt_words.specs.Limits.{widest};
    ghost use Rattle.mt_words.specs.Changes.{IsEntry};

    ghost Value = { Change };

    ghost view = { λ e. e.change };

    ghost invariant = { λ e. IsEntry widest e.change };
}

impl Entry {
    /// Creates the entry of this key with these columns. Returns None if the version is 0 or there is no column.
    /// Allocates nothing.
    pub fn new(version: u64, key: Key, columns: Columns) -> Option<Entry>
        ensures accepted { IsSome result ↔ ((0 < version) × (0 < length columns)) }
        ensures value { IfSome result (λ made. made ≡ entry_of version key columns) }
    {
        // This call shows the proof that the key is lawful.
        let _ = key.as_bytes();
        if version == 0 || columns.len() == 0 {
            return None;
        }
        let kind = Kind::Whole(columns);
        Some(Entry::of_change(Change { version, key, kind }))
    }

    /// Creates the entry that makes this change, which the caller knows to be lawful.
    pub fn of_change(change: Change) -> Entry
        requires { IsEntry widest change }
        ensures { result ≡ change }
    {
        Entry { change }
    }

    /// Returns whether format 1 allows the entry.
    pub fn fits_format_1(&self) -> bool
        ensures { IsTrue result ↔ IsEntry (limits_of One) self.now }
    {
        self.change.fits(Format::One)
    }

    /// Returns the change that the entry makes to its key.
    pub fn change(&self) -> &Change
        ensures value { result.now ≡ self.now }
        ensures lawful { IsEntry widest self.now }
    {
        &self.change
    }
}
