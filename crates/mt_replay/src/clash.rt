//! Clashes.
use mt_words::Key;
use std::marker::Model;

/// A record of a log. Logs and records count from 0. Places are ordered by log, then by record.
#[derive(Clone, Copy, Debug, PartialEq, Eq, PartialOrd, Ord)]
pub struct Place {
    /// The position of the log.
    pub log: usize,
    /// The number of the record.
    pub nth: u64,
}

/// A version of a key that two or more updates of logs have.
#[derive(Debug, Drop)]
pub struct Clash {
    /// The key.
    pub key: Key,
    /// The version.
    pub version: u64,
    /// The records that have it, in order.
    pub places: Vec<Place>,
}

impl Model for Clash {
    ghost use Rattle.mt_replay.specs.Clashes.{Clash as ClashValue};

    ghost Value = { ClashValue };

    ghost view = { λ c. record { key = c.key; version = c.version; places = c.places.items } };
}
