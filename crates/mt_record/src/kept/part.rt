//! Entries of a checkpoint, kept as bodies.
ghost use Rattle.std.specs.Prelude.{◌≡◌, ◌↔◌, ◌<◌, ◌++◌, [], ◌∷◌, length, map, slice_index_or, IsTrue};
ghost use Rattle.mt_words.specs.declared.record.Change.{Change};
ghost use Rattle.mt_words.specs.declared.update.Origin.TheVariants as origins;
ghost use Rattle.mt_words.specs.Slices.{slice_in};
ghost use Rattle.mt_words.specs.Words.{AreRising};
ghost use Rattle.mt_words.specs.Updates.{update_at};

use crate::body::lent::Lent;
use crate::body::{fields_of, spelled};
use crate::kept::Entries;
use crate::kept::byte_strings::ByteStrings;
use crate::key_order::is_below_by;
use mt_words::{Code, Memory, Origin, slice_of};
use std::alloc::Global;
use std::marker::Model;

/// The bytes before the fields in the body of an entry: the code `Whole` and a timestamp of 0.
const BEFORE_FIELDS: &[u8] = &[Code::Whole as u8, 0, 0, 0, 0, 0, 0, 0, 0];

/// Entries of a checkpoint, kept as bodies. They are encoded like bodies of records, with the code `Whole`, so they can
/// be read as updates.
#[derive(Debug, Drop)]
pub struct KeptEntries {
    bodies: ByteStrings,
    /// Whether the keys strictly rise.
    rising: bool,
    /// The slice of the last key, if there is one.
    last: u64,
}

impl Model for KeptEntries {
    ghost use Rattle.std.specs.Prelude.{List, map};
    ghost use Rattle.mt_words.specs.declared.record.Change.{Change};
    ghost use Rattle.mt_record.specs.Decoding.{change_in};
    ghost use Rattle.mt_record.specs.Steps.Kept.{AreKeptEntries};

    ghost Value = { List Change };

    ghost view = { λ e. map change_in e.bodies };

    ghost invariant = { λ e. AreKeptEntries e.bodies e.rising e.last };
}

impl KeptEntries {
    /// Creates an empty list of entries.
    pub(crate) fn new(alloc: Global) -> KeptEntries
        ensures { result ≡ [] }
    {
        KeptEntries {
            bodies: ByteStrings::new(alloc),
            rising: true,
            last: 0,
        }
    }

    /// Returns the number of entries.
    pub fn len(&self) -> usize
        ensures { result ≡ length self.now }
    {
        self.bodies.len()
    }

    /// Returns the update of the entry of this number.
    pub fn update(&self, number: usize) -> Lent<'_>
        requires { number < length self.now }
        ensures { (d : Change) → result ≡ update_at origins.Checkpoint 0 (slice_index_or self.now number d) }
    {
        Lent::of(Origin::Checkpoint, self.bodies.get(number))
    }

    /// Returns the key of the entry of this number.
    pub fn key(&self, number: usize) -> &[u8]
        requires { number < length self.now }
        ensures { (d : Change) → result.now ≡ (slice_index_or self.now number d).key }
    {
        spelled::change(self.bodies.get(number)).key
    }

    /// Returns whether the keys strictly rise.
    pub fn is_rising(&self) -> bool
        ensures { IsTrue result ↔ AreRising (map (λ entry. entry.key) self.now) }
    {
        self.rising
    }

    /// Returns whether the keys strictly rise, with this one after them, whose slice is `head`.
    fn is_rising_to(&self, key: &[u8], head: u64) -> bool
        requires { head ≡ slice_in key.now }
        ensures { IsTrue result ↔ AreRising (map (λ entry. entry.key) self.now ++ key.now ∷ []) }
    {
        if !self.rising {
            return false;
        }
        // Most keys are above the last one by their slices alone.
        if self.last < head {
            return true;
        }
        let count = self.len();
        count == 0 || is_below_by(self.key(count - 1), self.last, key, head)
    }
}

impl Entries for KeptEntries {
    ghost listed = { λ entries. entries };

    fn put_entry(&mut self, fields: &[u8]) -> Result<(), Memory> {
        let key = fields_of(fields).key;
        let head = slice_of(key);
        let rising = self.is_rising_to(key, head);
        self.bodies.push_joined(BEFORE_FIELDS, fields)?;
        self.rising = rising;
        self.last = head;
        Ok(())
    }

    fn count(&self) -> usize {
        self.len()
    }
}
