//! The collections into which the records of a log and the entries of a part are read.
mod block;
pub mod bodies;
pub mod byte_strings;
mod ends;
pub mod log;
pub mod part;
pub mod share;
pub mod stream;
pub mod text;
pub mod updates;

ghost use Rattle.std.specs.Prelude.{◌≡◌, ◌++◌, [], ◌∷◌, List, length, OnOk, OnErr};
ghost use Rattle.mt_words.specs.declared.record.Change.{Change};
ghost use Rattle.mt_words.specs.Limits.{widest};
ghost use Rattle.mt_words.specs.Changes.{Logged};
ghost use Rattle.mt_record.specs.Steps.Bodies.{IsLawfulBody, IsBodyOf, AreFields, AreFieldsOf};

use crate::body::copy::{copy_entry, copy_record};
use mt_words::{Entry, Memory, Record};

/// A collection of records, in the order in which they were added.
pub trait Records: Drop {
    ghost listed: { Self → List Logged };

    /// Appends the record with this body. Err: out of memory; no record is appended.
    fn put_record(&mut self, body: &[u8]) -> Result<(), Memory>
        requires { IsLawfulBody body.now }
        ensures ok { (r : Logged) → IsBodyOf widest 0 body.now r → OnOk result (listed self.new ≡ listed self.old ++ r ∷ []) }
        ensures err { OnErr result (listed self.new ≡ listed self.old) };
}

impl Records for Vec<Record> {
    ghost listed = { λ records. records.items };

    fn put_record(&mut self, body: &[u8]) -> Result<(), Memory> {
        let record = copy_record(*self.allocator(), body)?;
        keep(self, record)
    }
}

/// A collection of entries of a checkpoint, in the order in which they were added.
pub trait Entries: Drop {
    ghost listed: { Self → List Change };

    /// Appends the entry with these fields. Err: out of memory; no entry is appended.
    fn put_entry(&mut self, fields: &[u8]) -> Result<(), Memory>
        requires { AreFields fields.now }
        ensures ok { (entry : Change) → AreFieldsOf widest fields.now entry → OnOk result (listed self.new ≡ listed self.old ++ entry ∷ []) }
        ensures err { OnErr result (listed self.new ≡ listed self.old) };

    /// Returns the number of entries.
    fn count(&self) -> usize
        ensures { result ≡ length (listed self.now) };
}

impl Entries for Vec<Entry> {
    ghost listed = { λ entries. entries.items };

    fn put_entry(&mut self, fields: &[u8]) -> Result<(), Memory> {
        let entry = copy_entry(*self.allocator(), fields)?;
        keep(self, entry)
    }

    fn count(&self) -> usize {
        self.len()
    }
}

/// Appends the item that was read. Err: out of memory; nothing is appended.
fn keep<T: Drop>(items: &mut Vec<T>, item: T) -> Result<(), Memory>
    ensures ok { OnOk result (items.new.items ≡ items.old.items ++ item ∷ []) }
    ensures err { OnErr result (items.new.items ≡ items.old.items) }
{
    Ok(items.push(item)?)
}
