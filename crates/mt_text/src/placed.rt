//! A record or an entry, with its place.
ghost use Rattle.std.specs.Prelude.{◌≡◌};
ghost use Rattle.mt_text.specs.RecordText.{placed_at, of_record, of_entry, Placed};
ghost use Rattle.mt_text.specs.Listing.{has_key};
ghost use Rattle.std.specs.Option.{option_map};

use mt_words::{Change, Entry, Key, Record};
use std::marker::Model;

/// What a line prints: a record of a log, or an entry of a part, which has no timestamp; with its place.
#[derive(Drop)]
pub(crate) struct Placed<'a> {
    /// Its number.
    pub number: u64,
    /// The byte where it begins.
    pub at: usize,
    pub timestamp: Option<u64>,
    /// Its change. None: it is a mark.
    pub change: Option<&'a Change>,
}

impl<'a> Model for Placed<'a> {
    ghost Value = { Placed };

    ghost view = { λ p. placed_at p.number p.at (record { timestamp = p.timestamp; change = option_map (λ change. change.now) p.change }) };
}

impl<'a> Placed<'a> {
    /// Places a record.
    pub fn of_record(number: u64, at: usize, logged: &'a Record) -> Placed<'a>
        ensures { result ≡ placed_at number at (of_record logged.now) }
    {
        Placed {
            number,
            at,
            timestamp: Some(logged.timestamp()),
            change: logged.change(),
        }
    }

    /// Places an entry.
    pub fn of_entry(number: u64, at: usize, entry: &'a Entry) -> Placed<'a>
        ensures { result ≡ placed_at number at (of_entry entry.now) }
    {
        Placed {
            number,
            at,
            timestamp: None,
            change: Some(entry.change()),
        }
    }

    /// Returns whether it changes this key, if there is one.
    pub fn has_key(&self, key: &Option<Key>) -> bool
        ensures { result ≡ has_key key.now self.now.item.change }
    {
        match (key, self.change) {
            (None, _) => true,
            (Some(_), None) => false,
            (Some(key), Some(change)) => change.key.as_bytes() == key.as_bytes(),
        }
    }
}
