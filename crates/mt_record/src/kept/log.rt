//! The records of a log, kept as bodies.
ghost use Rattle.std.specs.Prelude.{◌≡◌, ◌<◌, ◌++◌, ◌∷◌, [], length, map, filter, All, slice_index_or, OnOk, OnErr};
ghost use Rattle.mt_words.specs.Changes.{Logged, is_mark};
ghost use Rattle.mt_record.specs.Steps.Bodies.{IsLawfulBody};
ghost use Rattle.mt_record.specs.Decoding.{IsBody, decode};
ghost use Rattle.mt_record.specs.Cutting.{ends_late, first_time, HasCut, IsCountOf};
ghost use Rattle.mt_record.specs.Logs.{count_of};

use crate::body::spelled;
use crate::kept::Records;
use crate::kept::byte_strings::ByteStrings;
use mt_words::Memory;
use std::alloc::Global;
use std::marker::Model;

/// The records of a log, kept as their encoded bodies. Marks are among them, so a body's place is the number of its
/// record.
#[derive(Debug, Drop)]
pub struct KeptRecords {
    bodies: ByteStrings,
    /// The number of marks among them, counted up to 2^64 - 1.
    marks: u64,
}

impl Model for KeptRecords {
    ghost use Rattle.std.specs.Prelude.{List, map};
    ghost use Rattle.mt_words.specs.Changes.{Logged};
    ghost use Rattle.mt_record.specs.Decoding.{decode};
    ghost use Rattle.mt_record.specs.Steps.Kept.{AreKept};

    ghost Value = { List Logged };

    ghost view = { λ r. map decode r.bodies };

    ghost invariant = { λ r. AreKept r.bodies r.marks };
}

impl KeptRecords {
    /// Creates an empty list of records.
    pub fn new(alloc: Global) -> KeptRecords
        ensures { result ≡ [] }
    {
        KeptRecords {
            bodies: ByteStrings::new(alloc),
            marks: 0,
        }
    }

    /// Returns an empty list of records with the same allocator.
    pub(crate) fn none(&self) -> KeptRecords
        ensures { result ≡ [] }
    {
        KeptRecords {
            bodies: self.bodies.none(),
            marks: 0,
        }
    }

    /// Returns the bodies of the records.
    pub(crate) fn into_bodies(self) -> ByteStrings
        ensures says { map decode result ≡ self }
        ensures lawful { All IsLawfulBody result }
    {
        let KeptRecords { bodies, marks: _ } = self;
        bodies
    }

    /// Appends these records. Err: out of memory; nothing is appended.
    pub(crate) fn append(&mut self, more: KeptRecords) -> Result<(), Memory>
        ensures ok { OnOk result (self.new ≡ self.old ++ more) }
        ensures err { OnErr result (self.new ≡ self.old) }
    {
        let KeptRecords { bodies, marks } = more;
        self.bodies.append(bodies)?;
        self.marks = self.marks.saturating_add(marks);
        Ok(())
    }

    /// Returns the timestamp of the first record. Returns None if there is no record.
    pub(crate) fn first(&self) -> Option<u64>
        ensures { result ≡ first_time self.now }
    {
        if self.len() == 0 {
            return None;
        }
        Some(spelled::timestamp(self.body(0)))
    }

    /// Drops all records, and keeps the memory of the last block for others. Returns how many updates and marks were
    /// dropped.
    pub(crate) fn clear(&mut self) -> Dropped
        ensures none { self.new ≡ [] }
        ensures gone { IsCountOf self.old result }
    {
        let marks = self.marks;
        let updates = self.len() as u64 - marks;
        self.bodies.clear();
        self.marks = 0;
        Dropped { updates, marks }
    }

    /// Drops records from the end as long as their timestamps are at or past `limit`. Returns how many updates and
    /// marks were dropped.
    pub fn cut(&mut self, limit: u64) -> Dropped
        ensures { HasCut limit self.old self.new result }
    {
        let count = self.len();
        let mut marks = 0;
        while self.ends_late(limit) {
            marks += u64::from(self.drop_last());
        }
        let updates = (count - self.len()) as u64 - marks;
        Dropped { updates, marks }
    }

    /// Returns whether there is a last record and its timestamp is at or past `limit`.
    fn ends_late(&self, limit: u64) -> bool
        ensures { result ≡ ends_late limit self.now }
    {
        let count = self.bodies.len();
        count > 0 && spelled::timestamp(self.body(count - 1)) >= limit
    }

    /// Drops the last record. Returns whether it was a mark.
    fn drop_last(&mut self) -> bool
        requires { 0 < length self.old }
        ensures { (last : Logged) × (self.old ≡ self.new ++ last ∷ []) × (result ≡ is_mark last) }
    {
        let number = self.bodies.len() - 1;
        let mark = spelled::is_mark(self.body(number));
        self.bodies.drop_last();
        if mark {
            self.marks = self.marks.saturating_sub(1);
        }
        mark
    }

    /// Returns the number of records, marks included.
    pub fn len(&self) -> usize
        ensures { result ≡ length self.now }
    {
        self.bodies.len()
    }

    /// Returns the number of marks among them, counted up to 2^64 - 1.
    pub fn marks(&self) -> u64
        ensures { result ≡ count_of (filter is_mark self.now) }
    {
        self.marks
    }

    /// Returns the body of the record of this number.
    pub(crate) fn body(&self, number: usize) -> &[u8]
        requires { number < length self.now }
        ensures lawful { IsLawfulBody result.now }
        ensures body { IsBody result.now }
        ensures says { (d : Logged) → decode result.now ≡ slice_index_or self.now number d }
    {
        self.bodies.get(number)
    }
}

/// The numbers of updates and marks that were dropped.
#[derive(Clone, Copy, Debug)]
pub struct Dropped {
    pub updates: u64,
    pub marks: u64,
}

impl Records for KeptRecords {
    ghost listed = { λ records. records };

    #[inline(always)]
    fn put_record(&mut self, body: &[u8]) -> Result<(), Memory> {
        self.bodies.push(body)?;
        if spelled::is_mark(body) {
            self.marks = self.marks.saturating_add(1);
        }
        Ok(())
    }
}
