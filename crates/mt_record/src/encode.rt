//! Encodes logs. Room for all bytes is reserved first, so a failed allocation writes nothing.
pub mod given;
pub mod parts;
pub mod put;

ghost use Rattle.std.specs.Prelude.{◌≡◌, ◌<◌, ◌^◌, ◌++◌, ◌≤◌, length, OnOk, OnErr, vec_capacity};
ghost use Rattle.mt_words.specs.Limits.{widest};
ghost use Rattle.mt_words.specs.declared.limits.Format.TheVariants.{One, Two};
ghost use Rattle.mt_words.specs.Words.{AreColumns, AreNumbers};
ghost use Rattle.mt_words.specs.Changes.{writes_of};
ghost use Rattle.mt_words.specs.Writes.{AreWrites};
ghost use Rattle.mt_words.specs.declared.update.Kind.TheVariants.{Put, Erase};
ghost use Rattle.mt_record.specs.Heads.{head_bytes};
ghost use Rattle.mt_record.specs.Encoding.{head_of, segment_head};
ghost use Rattle.mt_record.specs.Spelling.{column_bytes, kind_bytes, change_bytes, body, spelling, IsRecordLength};
ghost use Rattle.mt_record.specs.Steps.Adding.{HasRoom, Adds};

use crate::body::MARK;
use crate::encode::put::{put_bytes, put_column, put_counted, put_magic};
use crate::feed::head::{HEADER_BYTES, LOG, SEGMENT, SEGMENT_HEADER_BYTES};
use mt_words::{Change, Column, Format, Kind, Memory, Record};

/// Appends the header of a log of format 1. Updates below the timestamp `from` may be missing from the log.
/// Err: out of memory; nothing is appended.
pub fn encode_log_header(from: u64, out: &mut Vec<u8>) -> Result<(), Memory>
    ensures ok { OnOk result (out.new.items ≡ out.old.items ++ head_bytes (head_of One from)) }
    ensures err { OnErr result (out.new.items ≡ out.old.items) }
{
    append_header(Format::One, from, out)
}

/// Appends the header of a log of format 2. Updates below the timestamp `from` may be missing from the log.
/// Err: out of memory; nothing is appended.
pub fn encode_log_header_2(from: u64, out: &mut Vec<u8>) -> Result<(), Memory>
    ensures ok { OnOk result (out.new.items ≡ out.old.items ++ head_bytes (head_of Two from)) }
    ensures err { OnErr result (out.new.items ≡ out.old.items) }
{
    append_header(Format::Two, from, out)
}

/// Appends the header of a segment of a worker's log. Its records are those of format 2. Updates below the timestamp
/// `from` may be missing from the segment. Err: out of memory; nothing is appended.
pub fn encode_log_header_3(
    from: u64,
    worker: u32,
    segment: u32,
    out: &mut Vec<u8>,
) -> Result<(), Memory>
    ensures ok { OnOk result (out.new.items ≡ out.old.items ++ head_bytes (segment_head from worker segment)) }
    ensures err { OnErr result (out.new.items ≡ out.old.items) }
{
    out.reserve(SEGMENT_HEADER_BYTES)?;
    put_bytes(SEGMENT, out);
    put_bytes(&from.to_be_bytes(), out);
    put_bytes(&worker.to_be_bytes(), out);
    put_bytes(&segment.to_be_bytes(), out);
    Ok(())
}

/// Appends the header of a log of this format, which is no segment. Err: out of memory; nothing is appended.
pub fn append_header(format: Format, from: u64, out: &mut Vec<u8>) -> Result<(), Memory>
    ensures ok { OnOk result (out.new.items ≡ out.old.items ++ head_bytes (head_of format from)) }
    ensures err { OnErr result (out.new.items ≡ out.old.items) }
{
    out.reserve(HEADER_BYTES)?;
    put_magic(LOG, format, out);
    put_bytes(&from.to_be_bytes(), out);
    Ok(())
}

/// Appends the record. Err: out of memory; nothing is appended.
pub fn encode_record(record: &Record, out: &mut Vec<u8>) -> Result<(), Memory>
    ensures ok { OnOk result (out.new.items ≡ out.old.items ++ spelling «record».now) }
    ensures err { OnErr result (out.new.items ≡ out.old.items) }
    ensures room { vec_capacity out.old ≤ vec_capacity out.new }
{
    let length = body_length(record) as u32;
    out.reserve(4 + length as usize + 4)?;
    put_bytes(&length.to_be_bytes(), out);
    put_body(record, out);
    put_bytes(&length.to_be_bytes(), out);
    Ok(())
}

/// Returns the number of bytes in the record's body.
fn body_length(record: &Record) -> usize
    ensures value { result ≡ length (body «record».now) }
    ensures lawful { IsRecordLength widest result }
{
    match record.change() {
        None => 9,
        Some(change) => 9 + change_length(change),
    }
}

/// Returns the number of bytes of the version, the key and what the kind carries.
pub fn change_length(change: &Change) -> usize
    ensures { result ≡ length (change_bytes change.now) }
{
    10 + change.key.as_bytes().len() + kind_length(&change.kind)
}

/// Returns the number of bytes of what the kind carries.
pub fn kind_length(kind: &Kind) -> usize
    ensures value { result ≡ length (kind_bytes kind.now) }
    ensures few { result < 2 ^ 25 }
{
    match kind {
        Kind::Put(columns) | Kind::Whole(columns) => columns_length(columns.as_slice()),
        Kind::Remove => 0,
        Kind::Erase(numbers) => 1 + numbers.as_slice().len(),
    }
}

/// Returns the number of bytes of the columns and of their count.
fn columns_length(columns: &[Column]) -> usize
    requires { AreColumns widest columns.now }
    ensures value { result ≡ length (kind_bytes (Put columns.now)) }
    ensures few { result < 2 ^ 25 }
{
    let mut length = 1;
    for column in columns {
        length += column_length(column);
    }
    length
}

/// Returns the number of bytes of the encoded column.
fn column_length(column: &Column) -> usize
    ensures { result ≡ length (column_bytes column.now) }
{
    3 + column.bytes.as_slice().len()
}

/// Appends the body of the record.
fn put_body(record: &Record, out: &mut Vec<u8>)
    requires { HasRoom (length (body «record».now)) out.old }
    ensures { Adds (body «record».now) out.old out.new }
{
    match record.change() {
        None => {
            put_bytes(&[MARK], out);
            put_bytes(&record.timestamp().to_be_bytes(), out);
        }
        Some(change) => {
            put_bytes(&[change.kind.code().byte()], out);
            put_bytes(&record.timestamp().to_be_bytes(), out);
            put_change(change, out);
        }
    }
}

/// Appends the version, the key and what the kind carries.
pub fn put_change(change: &Change, out: &mut Vec<u8>)
    requires { HasRoom (length (change_bytes change.now)) out.old }
    ensures { Adds (change_bytes change.now) out.old out.new }
{
    put_bytes(&change.version.to_be_bytes(), out);
    put_counted(change.key.as_bytes(), out);
    put_kind(&change.kind, out);
}

/// Appends what the kind carries.
pub fn put_kind(kind: &Kind, out: &mut Vec<u8>)
    requires { HasRoom (length (kind_bytes kind.now)) out.old }
    ensures added { Adds (kind_bytes kind.now) out.old out.new }
    ensures lawful { AreWrites widest (writes_of kind.now) }
{
    match kind {
        Kind::Put(columns) | Kind::Whole(columns) => put_columns(columns.as_slice(), out),
        Kind::Remove => {}
        Kind::Erase(numbers) => put_numbers(numbers.as_slice(), out),
    }
}

/// Appends the count of the column numbers, then the numbers.
pub fn put_numbers(numbers: &[u8], out: &mut Vec<u8>)
    requires lawful { AreNumbers widest numbers.now }
    requires room { HasRoom (length (kind_bytes (Erase numbers.now))) out.old }
    ensures { Adds (kind_bytes (Erase numbers.now)) out.old out.new }
{
    put_bytes(&[numbers.len() as u8], out);
    put_bytes(numbers, out);
}

/// Appends the count of the columns, then the columns.
fn put_columns(columns: &[Column], out: &mut Vec<u8>)
    requires lawful { AreColumns widest columns.now }
    requires room { HasRoom (length (kind_bytes (Put columns.now))) out.old }
    ensures { Adds (kind_bytes (Put columns.now)) out.old out.new }
{
    put_bytes(&[columns.len() as u8], out);
    for column in columns {
        put_column(column, out);
    }
}
