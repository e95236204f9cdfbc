//! The columns of a key.
ghost use Rattle.std.specs.Prelude.{◌≡◌, ◌≤◌, ◌<◌, ◌↔◌, [], ◌∷◌, ◌++◌, List, ℕ, length, IsOk, OnOk, IfErr, IfOk, OnErr, IfSome, IfNone, IsTrue, MatchOption, Contains};
ghost use Rattle.mt_words.specs.declared.limits.TheConstants.{GREATEST_COLUMN};
ghost use Rattle.mt_words.specs.declared.limits.Limits.{Limits};
ghost use Rattle.mt_words.specs.Limits.{widest};
ghost use Rattle.mt_words.specs.Words.{AreColumns, NumbersRise};
ghost use Rattle.mt_words.specs.Columns.{CanFollow, NumbersBelow};

use crate::fault::Memory;
use crate::limits::{GREATEST_COLUMN, LONGEST_VALUE, MOST_COLUMNS};
use arrayvec::ArrayVec;
use smallvec::SmallVec;
use std::alloc::Global;
use std::default::MadeWith;
use std::marker::Model;

/// The greatest length of a value that is stored inline in its column, in bytes. That many take no more room there than
/// a list does.
const SHORT_VALUE: usize = 16;

/// The bytes of a column. Most values are short and take no memory of their own.
pub type Value = SmallVec<u8, SHORT_VALUE>;

/// One column: its number and its bytes.
#[derive(Debug, Drop)]
pub struct Column {
    /// The column number, 0 to `GREATEST_COLUMN`.
    pub number: u8,
    /// The value, at most `LONGEST_VALUE` bytes.
    pub bytes: Value,
}

impl Model for Column {
    ghost use Rattle.std.specs.Prelude.{List, ℕ};

    ghost Value = { ℕ × List ℕ };

    ghost view = { λ c. (c.number, c.bytes.items) };
}

impl Column {
    /// Creates the column with this number and a copy of these bytes. Err: out of memory.
    pub fn copy_of(alloc: Global, number: u8, bytes: &[u8]) -> Result<Column, Memory>
        ensures { IfOk result (λ column. column ≡ (number, bytes.now)) }
    {
        let bytes = Value::from_slice(alloc, bytes)?;
        Ok(Column { number, bytes })
    }

    /// Returns a copy of the column. Err: out of memory.
    pub(crate) fn try_copy(&self) -> Result<Column, Memory>
        ensures { IfOk result (λ copy. copy ≡ self.now) }
    {
        Column::copy_of(*self.bytes.allocator(), self.number, &self.bytes)
    }
}

impl MadeWith<Global> for Column {
    fn made_with(alloc: Global) -> Column {
        Column {
            number: 0,
            bytes: Value::new(alloc),
        }
    }
}

/// The columns of one key, in strictly rising order of their numbers. They stand in an array, so adding a column takes no
/// memory. The columns of a stored key are `PackedColumns`, which take no more room than they need.
#[derive(Debug)]
pub struct Columns {
    columns: ArrayVec<Column, MOST_COLUMNS, Global>,
}

/// Written out, not derived: a proof of a drop of columns in another crate cites this call, and need not prove again,
/// element by element, how an array of columns is dropped.
impl Drop for Columns {
    fn drop(self) {
        let Columns { columns: _ } = self;
    }
}

impl Model for Columns {
    ghost use Rattle.std.specs.Prelude.{List, ℕ};
    ghost use Rattle.mt_words.specs.Limits.{widest};
    ghost use Rattle.mt_words.specs.Words.{AreColumns};

    ghost Value = { List (ℕ × List ℕ) };

    ghost view = { λ c. c.columns.items };

    ghost invariant = { λ c. AreColumns widest c.columns.items };
}

impl Columns {
    /// Creates an empty list of columns.
    pub fn new(alloc: Global) -> Columns
        ensures { result ≡ [] }
    {
        Columns {
            columns: ArrayVec::new_in(alloc),
        }
    }

    /// Returns the number of columns.
    pub fn len(&self) -> usize
        ensures value { result ≡ length self.now }
        ensures lawful { AreColumns widest self.now }
    {
        self.columns.len()
    }

    /// Returns whether there is no column.
    pub fn is_empty(&self) -> bool
        ensures { IsTrue result ↔ (self.now ≡ []) }
    {
        self.columns.is_empty()
    }

    /// Returns the bytes of the column with this number, or None if there is no such column.
    pub fn get(&self, number: u8) -> Option<&[u8]>
        ensures { MatchOption result
            ((bytes : List ℕ) → Contains self.now (number, bytes) → ⊥)
            (λ bytes. Contains self.now (number, bytes.now)) }
    {
        value_of(self.columns.as_slice(), number)
    }

    /// Returns the columns as a slice.
    pub fn as_slice(&self) -> &[Column]
        ensures value { result.now ≡ self.now }
        ensures lawful { AreColumns widest self.now }
    {
        self.columns.as_slice()
    }

    /// Returns whether there is a column and no column number is above `greatest`.
    pub fn are_some_up_to(&self, greatest: u8) -> bool
        ensures { (limits : Limits) → limits.column ≡ greatest →
            IsTrue result ↔ (AreColumns limits self.now × (0 < length self.now)) }
    {
        match self.columns.as_slice().last() {
            None => false,
            Some(last) => last.number <= greatest,
        }
    }

    /// Returns a copy of the columns. Err: out of memory.
    pub fn try_copy(&self) -> Result<Columns, Memory>
        ensures { IfOk result (λ columns. columns ≡ self.now) }
    {
        let mut columns = ArrayVec::new_in(*self.columns.allocator());
        for column in self.columns.as_slice() {
            columns.push(column.try_copy()?);
        }
        Ok(Columns { columns })
    }

    /// Appends a column. Err: the number is above `GREATEST_COLUMN`, or not above the last one, or there are more than
    /// `LONGEST_VALUE` bytes. Then the bytes are returned, and nothing has changed.
    pub fn push(&mut self, number: u8, bytes: Vec<u8>) -> Result<(), Vec<u8>>
        ensures accepted { IsOk result ↔ CanFollow widest self.old (number, bytes.items) }
        ensures ok { OnOk result (self.new ≡ self.old ++ (number, bytes.items) ∷ []) }
        ensures err { OnErr result (self.new ≡ self.old) }
        ensures handed_back { IfErr result (λ back. back ≡ bytes) }
    {
        if !may_follow(self.columns.as_slice(), number) || bytes.len() > LONGEST_VALUE {
            return Err(bytes);
        }
        let bytes = Value::from_vec(bytes);
        self.append(Column { number, bytes });
        Ok(())
    }

    /// Appends a column that may follow these.
    pub fn append(&mut self, column: Column)
        requires { CanFollow widest self.old column }
        ensures { self.new ≡ self.old ++ column ∷ [] }
    {
        self.columns.push(column);
    }

    /// Removes the last column and returns it. Returns None if there is none.
    pub fn pop(&mut self) -> Option<Column>
        ensures last { IfSome result (λ column. self.old ≡ self.new ++ column ∷ []) }
        ensures none { IfNone result ((self.old ≡ []) × (self.new ≡ [])) }
        ensures lawful { AreColumns widest self.old }
    {
        self.columns.pop()
    }
}

/// Returns the bytes of the column with this number, or None if there is no such column.
fn value_of(columns: &[Column], number: u8) -> Option<&[u8]>
    ensures { MatchOption result
        ((bytes : List ℕ) → Contains columns.now (number, bytes) → ⊥)
        (λ bytes. Contains columns.now (number, bytes.now)) }
{
    for column in columns {
        if column.number == number {
            return Some(&column.bytes);
        }
    }
    None
}

/// Returns whether a column with this number may be appended to these.
fn may_follow(columns: &[Column], number: u8) -> bool
    requires { NumbersRise 0 columns.now }
    ensures { IsTrue result ↔ ((number ≤ GREATEST_COLUMN) × NumbersBelow columns.now number) }
{
    match columns.last() {
        None => number <= GREATEST_COLUMN,
        Some(last) => number <= GREATEST_COLUMN && last.number < number,
    }
}
