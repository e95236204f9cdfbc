//! Changes as a server gives them: they are lent for the call, and are checked and encoded where they stand.
ghost use Rattle.std.specs.Prelude.{◌≡◌, ◌<◌, ◌≤◌, ◌^◌, ◌↔◌, ◌∷◌, ◌++◌, length, map, IsTrue, OnOk, OnErr, vec_capacity};
ghost use Rattle.byteorder.specs.Endian.{big_bytes};
ghost use Rattle.mt_words.specs.Limits.{limits_of, widest};
ghost use Rattle.mt_words.specs.Words.{AreColumns, AreNumbers};
ghost use Rattle.mt_words.specs.Codes.{code_of};
ghost use Rattle.mt_words.specs.Changes.{AllowsKind, IsLawfulChange, IsLoggedChange, IsEntry, changed};
ghost use Rattle.mt_words.specs.declared.update.Kind.TheVariants.{Put, Erase};
ghost use Rattle.mt_record.specs.Given.{column_of, kind_of, change_of};
ghost use Rattle.mt_record.specs.Parts.{entry_spelling};
ghost use Rattle.mt_record.specs.Spelling.{column_bytes, kind_bytes, change_bytes, spelling, FitsColumn};
ghost use Rattle.mt_record.specs.Steps.Adding.{HasRoom, Adds};

use crate::encode::put::{put_bytes, put_counted};
use crate::encode::put_numbers;
use mt_words::{Code, Format, LONGEST_VALUE, Memory};

/// A column: its number and its value, which is lent for the call.
#[repr(C)]
#[derive(Clone, Copy)]
pub struct Given<'a> {
    /// Its number.
    pub number: u8,
    /// Its value.
    pub bytes: &'a [u8],
}

/// What a change does to its key.
#[derive(Clone, Copy)]
pub enum GivenKind<'a> {
    /// Sets these columns, and leaves the others.
    Put(&'a [Given<'a>]),
    /// Clears all columns.
    Remove,
    /// Clears all columns, then sets these: the entry of a checkpoint.
    Whole(&'a [Given<'a>]),
    /// Erases these columns, and leaves the others.
    Erase(&'a [u8]),
}

/// A change of one key.
#[derive(Clone, Copy)]
pub struct GivenChange<'a> {
    /// The version of the key's value.
    pub version: u64,
    /// The key that it changes.
    pub key: &'a [u8],
    /// What it does to the key.
    pub kind: GivenKind<'a>,
}

/// Appends the record of this change at this timestamp. Err: out of memory; nothing is appended.
pub fn encode_given(timestamp: u64, given: GivenChange<'_>, out: &mut Vec<u8>) -> Result<(), Memory>
    requires { IsLoggedChange widest (change_of given) }
    ensures ok { OnOk result (out.new.items ≡ out.old.items ++ spelling (changed timestamp (change_of given.entry))) }
    ensures err { OnErr result (out.new.items ≡ out.old.items) }
    ensures room { vec_capacity out.old ≤ vec_capacity out.new }
{
    let length = (9 + given.length()) as u32;
    out.reserve(4 + length as usize + 4)?;
    let kind = given.kind.code().byte();
    put_bytes(
        &head_of(
            length,
            kind,
            timestamp,
            given.version,
            given.key.len() as u16,
        ),
        out,
    );
    put_bytes(given.key, out);
    given.kind.put(out);
    put_bytes(&length.to_be_bytes(), out);
    Ok(())
}

/// Returns the bytes of a record before its key.
#[inline(always)]
fn head_of(length: u32, kind: u8, timestamp: u64, version: u64, key: u16) -> [u8; 23]
    ensures { result ≡ big_bytes 4 length ++ (kind ∷ (big_bytes 8 timestamp ++ (big_bytes 8 version ++ big_bytes 2 key))) }
{
    let [a, b, c, d] = length.to_be_bytes();
    let [e, f, g, h, i, j, k, l] = timestamp.to_be_bytes();
    let [m, n, o, p, q, r, s, t] = version.to_be_bytes();
    let [u, v] = key.to_be_bytes();
    [
        a, b, c, d, kind, e, f, g, h, i, j, k, l, m, n, o, p, q, r, s, t, u, v,
    ]
}

/// Appends the entry of a part with this change. Err: out of memory; nothing is appended.
pub fn encode_given_entry(given: GivenChange<'_>, out: &mut Vec<u8>) -> Result<(), Memory>
    requires { IsEntry widest (change_of given) }
    ensures ok { OnOk result (out.new.items ≡ out.old.items ++ entry_spelling (change_of given.entry)) }
    ensures err { OnErr result (out.new.items ≡ out.old.items) }
{
    let length = given.length() as u32;
    out.reserve(4 + length as usize + 4)?;
    put_bytes(&length.to_be_bytes(), out);
    given.put(out);
    put_bytes(&length.to_be_bytes(), out);
    Ok(())
}

impl GivenChange<'_> {
    /// Returns whether the format allows the change.
    pub fn fits(self, format: Format) -> bool
        ensures { IsTrue result ↔ IsLawfulChange (limits_of format) (change_of self.entry) }
    {
        let fits_key = self.key.len() <= format.limits().key;
        self.version != 0 && fits_key && self.kind.fits(format)
    }

    /// Returns the number of bytes of the version, the key and what the kind carries.
    fn length(self) -> usize
        requires { IsLawfulChange widest (change_of self) }
        ensures value { result ≡ length (change_bytes (change_of self.entry)) }
        ensures few { result < 2 ^ 26 }
    {
        10 + self.key.len() + self.kind.length()
    }

    /// Appends the version, the key and what the kind carries.
    fn put(self, out: &mut Vec<u8>)
        requires lawful { IsLawfulChange widest (change_of self) }
        requires room { HasRoom (length (change_bytes (change_of self))) out.old }
        ensures { Adds (change_bytes (change_of self.entry)) out.old out.new }
    {
        put_bytes(&self.version.to_be_bytes(), out);
        put_counted(self.key, out);
        self.kind.put(out);
    }
}

impl GivenKind<'_> {
    /// Returns whether the format allows the kind.
    pub fn fits(self, format: Format) -> bool
        ensures { IsTrue result ↔ AllowsKind (limits_of format) (kind_of self.entry) }
    {
        match self {
            GivenKind::Put(columns) | GivenKind::Whole(columns) => are_columns(format, columns),
            GivenKind::Remove => true,
            GivenKind::Erase(numbers) => are_numbers(format, numbers),
        }
    }

    /// Returns the code of the kind.
    fn code(self) -> Code
        ensures { result ≡ code_of (kind_of self.entry) }
    {
        match self {
            GivenKind::Put(_) => Code::Put,
            GivenKind::Remove => Code::Remove,
            GivenKind::Whole(_) => Code::Whole,
            GivenKind::Erase(_) => Code::Erase,
        }
    }

    /// Returns the number of bytes of what the kind carries.
    fn length(self) -> usize
        requires { AllowsKind widest (kind_of self) }
        ensures value { result ≡ length (kind_bytes (kind_of self.entry)) }
        ensures few { result < 2 ^ 25 }
    {
        match self {
            GivenKind::Put(columns) | GivenKind::Whole(columns) => columns_length(columns),
            GivenKind::Remove => 0,
            GivenKind::Erase(numbers) => 1 + numbers.len(),
        }
    }

    /// Appends what the kind carries.
    fn put(self, out: &mut Vec<u8>)
        requires lawful { AllowsKind widest (kind_of self) }
        requires room { HasRoom (length (kind_bytes (kind_of self))) out.old }
        ensures { Adds (kind_bytes (kind_of self.entry)) out.old out.new }
    {
        match self {
            GivenKind::Put(columns) | GivenKind::Whole(columns) => put_columns(columns, out),
            GivenKind::Remove => {}
            GivenKind::Erase(numbers) => put_numbers(numbers, out),
        }
    }
}

/// Returns whether there is a column, and the format allows these.
fn are_columns(format: Format, columns: &[Given<'_>]) -> bool
    ensures { IsTrue result ↔ (AreColumns (limits_of format) (map column_of columns.now) × (0 < length (map column_of columns.now))) }
{
    let greatest = format.limits().column;
    let mut least = 0;
    for column in columns {
        if column.number < least || column.number > greatest || column.bytes.len() > LONGEST_VALUE {
            return false;
        }
        least = column.number + 1;
    }
    !columns.is_empty()
}

/// Returns whether there is a number, and the format allows an erase of the columns with these.
fn are_numbers(format: Format, numbers: &[u8]) -> bool
    ensures { IsTrue result ↔ AllowsKind (limits_of format) (Erase numbers.now) }
{
    let limits = format.limits();
    let mut least = 0;
    for number in numbers {
        if *number < least || *number > limits.column {
            return false;
        }
        least = *number + 1;
    }
    !numbers.is_empty() && limits.kind >= Code::Erase.byte()
}

/// Returns the number of bytes of the columns and of their count.
fn columns_length(columns: &[Given<'_>]) -> usize
    requires { AreColumns widest (map column_of columns.now) }
    ensures value { result ≡ length (kind_bytes (Put (map column_of columns.now))) }
    ensures few { result < 2 ^ 25 }
{
    let mut length = 1;
    for column in columns {
        length += 3 + column.bytes.len();
    }
    length
}

/// Appends the count of the columns, then the columns.
fn put_columns(columns: &[Given<'_>], out: &mut Vec<u8>)
    requires lawful { AreColumns widest (map column_of columns.now) }
    requires room { HasRoom (length (kind_bytes (Put (map column_of columns.now)))) out.old }
    ensures { Adds (kind_bytes (Put (map column_of columns.now))) out.old out.new }
{
    put_bytes(&[columns.len() as u8], out);
    for column in columns {
        put_column(*column, out);
    }
}

/// Appends a column: its number, then its bytes with their length.
fn put_column(column: Given<'_>, out: &mut Vec<u8>)
    requires fits { FitsColumn (column_of column) }
    requires room { HasRoom (length (column_bytes (column_of column))) out.old }
    ensures { Adds (column_bytes (column_of column.entry)) out.old out.new }
{
    let [high, low] = (column.bytes.len() as u16).to_be_bytes();
    put_bytes(&[column.number, high, low], out);
    put_bytes(column.bytes, out);
}
