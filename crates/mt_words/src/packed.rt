//! The columns of a stored key, as one block of bytes: as a log has them behind the key of a put.
//!
//!     block    count, 1 byte | column | column | ..
//!     column   number, 1 byte | length, 2 bytes | value
ghost use Rattle.std.specs.Prelude.{◌≡◌, ◌<◌, ◌≤◌, ◌^◌, ◌↔◌, [], ◌∷◌, ◌++◌, List, ℕ, length, OnOk, OnErr, IfOk, IfSome, IfNone, IsTrue, MatchOption, Contains};
ghost use Rattle.mt_words.specs.declared.limits.TheConstants.{LONGEST_VALUE};
ghost use Rattle.mt_words.specs.Limits.{widest};
ghost use Rattle.mt_words.specs.Words.{AreColumns, IsColumn};
ghost use Rattle.mt_words.specs.Columns.{CanFollow};
ghost use Rattle.mt_words.specs.Packed.{packed, columns_counted, columns_from, column_bytes, ArePacked, AreLentColumns, FitsColumn};

use crate::columns::Columns;
use crate::fault::Memory;
use smallvec::SmallVec;
use std::alloc::Global;
use std::marker::Model;

/// The greatest length of a block that is stored inline, in bytes. That many take no more room there than a list does.
const SHORT_BLOCK: usize = 16;

/// The columns of a stored key, in strictly rising order of their numbers. They lie in one block of bytes: their count,
/// and then each column as a log encodes it. A block of at most `SHORT_BLOCK` bytes takes no memory of its own.
#[derive(Debug)]
pub struct PackedColumns {
    bytes: SmallVec<u8, SHORT_BLOCK>,
}

/// Written out, not derived: a proof of a drop of columns in another crate cites this call, and need not prove again how
/// a block is dropped.
impl Drop for PackedColumns {
    fn drop(self) {
        let PackedColumns { bytes: _ } = self;
    }
}

impl Model for PackedColumns {
    ghost use Rattle.std.specs.Prelude.{List, ℕ};
    ghost use Rattle.mt_words.specs.Packed.{columns_counted, ArePacked};

    ghost Value = { List (ℕ × List ℕ) };

    ghost view = { λ c. columns_counted c.bytes.items };

    ghost invariant = { λ c. ArePacked c.bytes.items };
}

impl PackedColumns {
    /// Creates an empty list of columns.
    pub fn new(alloc: Global) -> PackedColumns
        ensures { result ≡ [] }
    {
        let mut bytes = SmallVec::new(alloc);
        bytes.push_reserved(0);
        PackedColumns { bytes }
    }

    /// Creates an empty list of columns with room for a block of `size` bytes: adding columns takes no memory until the
    /// block is longer. Err: out of memory.
    pub fn with_capacity(alloc: Global, size: usize) -> Result<PackedColumns, Memory>
        ensures { IfOk result (λ columns. columns ≡ []) }
    {
        let mut bytes = SmallVec::with_capacity(alloc, size)?;
        bytes.push(0)?;
        Ok(PackedColumns { bytes })
    }

    /// Returns a copy of these columns, packed. Err: out of memory.
    pub fn of(alloc: Global, columns: &Columns) -> Result<PackedColumns, Memory>
        ensures { IfOk result (λ copy. copy ≡ columns.now) }
    {
        let mut copy = PackedColumns::new(alloc);
        for column in columns.as_slice() {
            copy.add(column.number, &column.bytes)?;
        }
        Ok(copy)
    }

    /// Returns the columns that these bytes encode. Err: out of memory.
    pub fn of_bytes(alloc: Global, bytes: &[u8]) -> Result<PackedColumns, Memory>
        requires { ArePacked bytes.now }
        ensures { IfOk result (λ columns. columns ≡ columns_counted bytes.now) }
    {
        Ok(PackedColumns {
            bytes: SmallVec::from_slice(alloc, bytes)?,
        })
    }

    /// Appends a column with a copy of these bytes. Err: out of memory; then nothing has changed.
    #[inline(always)]
    pub fn add(&mut self, number: u8, bytes: &[u8]) -> Result<(), Memory>
        requires { CanFollow widest self.old (number, bytes.now) }
        ensures ok { OnOk result (self.new ≡ self.old ++ (number, bytes.now) ∷ []) }
        ensures err { OnErr result (self.new ≡ self.old) }
    {
        self.bytes.reserve(3 + bytes.len())?;
        let [high, low] = (bytes.len() as u16).to_be_bytes();
        self.bytes.push_reserved(number);
        self.bytes.push_reserved(high);
        self.bytes.push_reserved(low);
        self.bytes.extend_from_slice(bytes)?;
        self.bytes.as_mut_slice()[0] += 1;
        Ok(())
    }

    /// Returns the number of columns.
    pub fn len(&self) -> usize
        ensures value { result ≡ length self.now }
        ensures lawful { AreColumns widest self.now }
    {
        usize::from(self.bytes[0])
    }

    /// Returns whether there is no column.
    pub fn is_empty(&self) -> bool
        ensures { IsTrue result ↔ (self.now ≡ []) }
    {
        self.bytes[0] == 0
    }

    /// Returns the bytes of the column with this number, or None if there is no such column.
    pub fn get(&self, number: u8) -> Option<&[u8]>
        ensures { MatchOption result
            ((bytes : List ℕ) → Contains self.now (number, bytes) → ⊥)
            (λ bytes. Contains self.now (number, bytes.now)) }
    {
        let mut rest = self.lent();
        while let Some((here, bytes)) = rest.next() {
            if here == number {
                return Some(bytes);
            }
        }
        None
    }

    /// Returns the columns, borrowed one after another.
    #[inline(always)]
    pub fn lent(&self) -> LentColumns<'_>
        ensures value { result ≡ self.now }
        ensures lawful { AreColumns widest self.now }
    {
        LentColumns {
            left: self.bytes[0],
            bytes: &self.bytes[1..],
        }
    }

    /// Returns the block: the count of the columns, and then each column.
    pub fn as_bytes(&self) -> &[u8]
        ensures value { result.now ≡ packed self.now }
        ensures few { length result.now < 2 ^ 25 }
        ensures lawful { AreColumns widest self.now }
    {
        self.bytes.as_slice()
    }

    /// Returns a copy of the columns. Err: out of memory.
    pub fn try_copy(&self) -> Result<PackedColumns, Memory>
        ensures { IfOk result (λ columns. columns ≡ self.now) }
    {
        PackedColumns::of_bytes(*self.bytes.allocator(), self.bytes.as_slice())
    }
}

/// The columns of a block that are left to take.
#[derive(Drop)]
pub struct LentColumns<'a> {
    left: u8,
    bytes: &'a [u8],
}

impl<'a> Model for LentColumns<'a> {
    ghost use Rattle.std.specs.Prelude.{List, ℕ};
    ghost use Rattle.mt_words.specs.Packed.{columns_from, AreLentColumns};

    ghost Value = { List (ℕ × List ℕ) };

    ghost view = { λ c. columns_from c.left c.bytes.now };

    ghost invariant = { λ c. AreLentColumns c.left c.bytes.now };
}

impl<'a> LentColumns<'a> {
    /// Removes the next column and returns its number and its bytes. Returns None if no column is left.
    #[inline(always)]
    pub fn next(&mut self) -> Option<(u8, &'a [u8])>
        ensures some { IfSome result (λ column. self.old ≡ (column.0, column.1.now) ∷ self.new) }
        ensures lawful { IfSome result (λ column. IsColumn widest (column.0, column.1.now)) }
        ensures none { IfNone result ((self.old ≡ []) × (self.new ≡ [])) }
    {
        let (number, bytes, after) = column_at(self.bytes)?;
        self.left -= 1;
        self.bytes = after;
        Some((number, bytes))
    }
}

/// Reads a column: its number and its bytes. Returns None if the bytes end before the column does.
#[inline(always)]
pub fn column_at(bytes: &[u8]) -> Option<(u8, &[u8], &[u8])>
    ensures found { IfSome result (λ x.
        FitsColumn (x.0, x.1.now) × (bytes.now ≡ column_bytes (x.0, x.1.now) ++ x.2.now)) }
    ensures none { IfNone result ((column : ℕ × List ℕ) (more : List ℕ) →
        FitsColumn column → bytes.now ≡ column_bytes column ++ more → ⊥) }
{
    let [number, high, low, rest @ ..] = bytes else {
        return None;
    };
    let length = u16::from_be_bytes([*high, *low]);
    let (value, rest) = rest.split_at_checked(usize::from(length))?;
    Some((*number, value, rest))
}
