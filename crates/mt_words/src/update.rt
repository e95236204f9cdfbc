//! Updates and their order.
ghost use Rattle.std.specs.Prelude.{◌≡◌, ◌↔◌, IsTrue};
ghost use Rattle.mt_words.specs.Limits.{limits_of};
ghost use Rattle.mt_words.specs.Codes.{code_of};
ghost use Rattle.mt_words.specs.Changes.{AllowsKind};
ghost use Rattle.mt_words.specs.Stamps.{IsOlder};

use crate::{Code, Columns, Format, Key, Numbers};

/// What an update does to its key.
#[derive(Debug, Drop)]
pub enum Kind {
    /// Sets these columns, and leaves the others.
    Put(Columns),
    /// Clears all columns.
    Remove,
    /// Clears all columns, then sets these: the entry of a checkpoint.
    Whole(Columns),
    /// Erases these columns, and leaves the others.
    Erase(Numbers),
}

impl Kind {
    /// Returns the code of the kind.
    pub fn code(&self) -> Code
        ensures { result ≡ code_of self.now }
    {
        match self {
            Kind::Put(_) => Code::Put,
            Kind::Remove => Code::Remove,
            Kind::Whole(_) => Code::Whole,
            Kind::Erase(_) => Code::Erase,
        }
    }

    /// Returns whether the format allows the kind.
    pub fn fits(&self, format: Format) -> bool
        ensures { IsTrue result ↔ AllowsKind (limits_of format) self.now }
    {
        let limits = format.limits();
        match self {
            Kind::Put(columns) | Kind::Whole(columns) => columns.are_some_up_to(limits.column),
            Kind::Remove => true,
            Kind::Erase(numbers) => {
                limits.kind >= Code::Erase.byte() && numbers.are_up_to(limits.column)
            }
        }
    }
}

/// Where an update comes from. Among the updates of one version, log updates are ordered by the position of their log,
/// then by record. The entry of a checkpoint comes after all of them. Logs and records count from 0.
#[derive(Clone, Copy, Debug, PartialEq, Eq, PartialOrd, Ord)]
pub enum Origin {
    /// A record of a log.
    Log { log: usize, record: u64 },
    /// An entry of the chosen checkpoint.
    Checkpoint,
}

/// The position of an update among the updates of its key: by version, then by origin.
#[derive(Clone, Copy, Debug, PartialEq, Eq, PartialOrd, Ord)]
pub struct Stamp {
    /// The version of the key's value, at least 1.
    pub version: u64,
    /// Where the update comes from.
    pub origin: Origin,
}

impl Stamp {
    /// Returns whether this stamp comes before `other`.
    pub fn is_older(&self, other: &Stamp) -> bool
        ensures { IsTrue result ↔ IsOlder self.now other.now }
    {
        self < other
    }
}

/// An update of one key.
#[derive(Debug, Drop)]
pub struct Update {
    /// The key that it changes.
    pub key: Key,
    /// Its position among the updates of the key.
    pub stamp: Stamp,
    /// The timestamp of its record. For the entry of a checkpoint it is 0 and never read.
    pub timestamp: u64,
    /// What it does to the key.
    pub kind: Kind,
}
