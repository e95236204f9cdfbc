//! Records of a log.
ghost use Rattle.std.specs.Prelude.{◌≡◌, ◌<◌, ◌↔◌, length, Some, None, IsSome, IfSome, IsTrue, MatchOption};
ghost use Rattle.mt_words.specs.declared.limits.Format.TheVariants.{One};
ghost use Rattle.mt_words.specs.Limits.{limits_of, widest};
ghost use Rattle.mt_words.specs.Changes.{AllowsKind, IsLogged, IsLawful, IsLawfulChange, IsLoggedChange, changed};
ghost use Rattle.mt_words.specs.Built.{mark_of, put_of, remove_of, erase_of};

use crate::{Columns, Format, Key, Kind, Numbers};
use std::marker::Model;

/// A change of one key.
#[derive(Debug, Drop)]
pub struct Change {
    /// The version of the key's value, at least 1.
    pub version: u64,
    /// The key that it changes.
    pub key: Key,
    /// What it does to the key.
    pub kind: Kind,
}

impl Change {
    /// Returns whether the format allows the change.
    pub fn fits(&self, format: Format) -> bool
        ensures { IsTrue result ↔ IsLawfulChange (limits_of format) self.now }
    {
        let fits_key = self.key.as_bytes().len() <= format.limits().key;
        self.version != 0 && fits_key && self.kind.fits(format)
    }
}

/// A lawful record of a log: a timestamp and, unless it is a mark, a change.
#[derive(Debug, Drop)]
pub struct Record {
    timestamp: u64,
    change: Option<Change>,
}

impl Model for Record {
    ghost use Rattle.mt_words.specs.Limits.{widest};
    ghost use Rattle.mt_words.specs.Changes.{Logged, IsLawful};

    ghost Value = { Logged };

    ghost view = { λ r. record { timestamp = r.timestamp; change = r.change } };

    ghost invariant = { λ r. IsLawful widest (record { timestamp = r.timestamp; change = r.change }) };
}

impl Record {
    /// Creates a mark: a record with a timestamp alone.
    pub fn mark(timestamp: u64) -> Record
        ensures { result ≡ mark_of timestamp }
    {
        Record {
            timestamp,
            change: None,
        }
    }

    /// Creates a put of these columns. Returns None if the version is 0 or there is no column.
    pub fn put(timestamp: u64, version: u64, key: Key, columns: Columns) -> Option<Record>
        ensures accepted { IsSome result ↔ ((0 < version) × (0 < length columns)) }
        ensures value { IfSome result (λ made. made ≡ put_of timestamp version key columns) }
    {
        if columns.len() == 0 {
            return None;
        }
        Record::of_kind(timestamp, version, key, Kind::Put(columns))
    }

    /// Creates a remove of the key. Returns None if the version is 0.
    pub fn remove(timestamp: u64, version: u64, key: Key) -> Option<Record>
        ensures accepted { IsSome result ↔ (0 < version) }
        ensures value { IfSome result (λ made. made ≡ remove_of timestamp version key) }
    {
        Record::of_kind(timestamp, version, key, Kind::Remove)
    }

    /// Creates an erase of these columns of the key. Returns None if the version is 0.
    pub fn erase(timestamp: u64, version: u64, key: Key, numbers: Numbers) -> Option<Record>
        ensures accepted { IsSome result ↔ (0 < version) }
        ensures value { IfSome result (λ made. made ≡ erase_of timestamp version key numbers) }
    {
        // This call shows the proof that the numbers are lawful.
        let _ = numbers.as_slice();
        Record::of_kind(timestamp, version, key, Kind::Erase(numbers))
    }

    /// Creates a record of this change, which the caller knows to be lawful.
    pub fn of_change(timestamp: u64, change: Change) -> Record
        requires { IsLoggedChange widest change }
        ensures { result ≡ changed timestamp change }
    {
        Record {
            timestamp,
            change: Some(change),
        }
    }

    /// Creates a record with a change of this kind. Returns None if the version is 0.
    fn of_kind(timestamp: u64, version: u64, key: Key, kind: Kind) -> Option<Record>
        requires lawful { AllowsKind widest kind }
        requires logged { IsLogged kind }
        ensures accepted { IsSome result ↔ (0 < version) }
        ensures value { IfSome result (λ made. made ≡
            changed timestamp (record { version = version; key = key; kind = kind })) }
    {
        // This call shows the proof that the key is lawful.
        let _ = key.as_bytes();
        if version == 0 {
            return None;
        }
        Some(Record::of_change(timestamp, Change { version, key, kind }))
    }

    /// Returns whether format 1 allows the record.
    pub fn fits_format_1(&self) -> bool
        ensures { IsTrue result ↔ IsLawful (limits_of One) self.now }
    {
        match &self.change {
            None => true,
            Some(change) => change.fits(Format::One),
        }
    }

    /// Returns the timestamp.
    pub fn timestamp(&self) -> u64
        ensures value { result ≡ self.now.timestamp }
        ensures lawful { IsLawful widest self.now }
    {
        self.timestamp
    }

    /// Returns the change, or None for a mark.
    pub fn change(&self) -> Option<&Change>
        ensures value { MatchOption result
            (self.now.change ≡ None)
            (λ change. self.now.change ≡ Some change.now) }
        ensures lawful { IsLawful widest self.now }
    {
        Option::as_ref(&self.change)
    }

    /// Consumes the record and returns its change, or None for a mark.
    pub fn into_change(self) -> Option<Change>
        ensures value { result ≡ self.change }
        ensures lawful { IsLawful widest self }
    {
        self.change
    }
}
