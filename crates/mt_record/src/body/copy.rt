//! Decodes validated bodies into owned records and entries. Keys and values are copied straight to where they will stay.
ghost use Rattle.std.specs.Prelude.{◌≡◌, ◌<◌, length, IfOk};
ghost use Rattle.mt_words.specs.Limits.{widest};
ghost use Rattle.mt_words.specs.Codes.{payload_of};
ghost use Rattle.mt_words.specs.Words.{IsKey, AreColumns, AreNumbers};
ghost use Rattle.mt_words.specs.Changes.{AllowsKind};
ghost use Rattle.mt_words.specs.declared.code.Payload.TheVariants as payloads;
ghost use Rattle.mt_record.specs.Steps.Bodies.{IsLawfulBody, AreFields, AreFieldsOf};
ghost use Rattle.mt_record.specs.Decoding.{decode, kind_from, IsCarried, columns_counted, numbers_counted};

use crate::body::{ChangeFields, fields_of, spelled};
use mt_words::{
    Change, Code, Column, Columns, Entry, Key, Kind, Memory, Numbers, Record, column_at,
};
use std::alloc::Global;

/// Returns the record with this body, with copies of its key and its values. Err: out of memory.
pub fn copy_record(alloc: Global, body: &[u8]) -> Result<Record, Memory>
    requires { IsLawfulBody body.now }
    ensures { IfOk result (λ made. made ≡ decode body.now) }
{
    let timestamp = spelled::timestamp(body);
    if spelled::is_mark(body) {
        return Ok(Record::mark(timestamp));
    }
    let change = copy_change(alloc, spelled::code(body), &spelled::change(body))?;
    Ok(Record::of_change(timestamp, change))
}

/// Returns the entry with these fields, with copies of its key and its values. Err: out of memory.
pub fn copy_entry(alloc: Global, bytes: &[u8]) -> Result<Entry, Memory>
    requires { AreFields bytes.now }
    ensures { IfOk result (AreFieldsOf widest bytes.now) }
{
    let change = copy_change(alloc, Code::Whole, &fields_of(bytes))?;
    Ok(Entry::of_change(change))
}

/// Returns the change of this code with these fields. Err: out of memory.
fn copy_change(alloc: Global, code: Code, fields: &ChangeFields<'_>) -> Result<Change, Memory>
    requires key { IsKey widest fields.now.key.now }
    requires carried { IsCarried (payload_of code) fields.now.carried.now }
    requires lawful { AllowsKind widest (kind_from code fields.now.carried.now) }
    ensures { IfOk result (λ change. change ≡
        record { version = fields.now.version; key = fields.now.key.now; kind = kind_from code fields.now.carried.now }) }
{
    let key = Key::copy_of(alloc, fields.key)?;
    let kind = match code {
        Code::Put => Kind::Put(copy_columns(alloc, fields.carried)?),
        Code::Remove => Kind::Remove,
        Code::Whole => Kind::Whole(copy_columns(alloc, fields.carried)?),
        Code::Erase => Kind::Erase(copy_numbers(fields.carried)),
    };
    Ok(Change {
        version: fields.version,
        key,
        kind,
    })
}

/// Copies the column numbers that an erase carries.
fn copy_numbers(carried: &[u8]) -> Numbers
    requires carried { IsCarried payloads.Numbers carried.now }
    requires lawful { AreNumbers widest (numbers_counted carried.now) }
    requires some { 0 < length (numbers_counted carried.now) }
    ensures { result ≡ numbers_counted carried.now }
{
    Numbers::of_lawful(&carried[1..])
}

/// Copies the columns that a put or an entry carries. Err: out of memory.
fn copy_columns(alloc: Global, carried: &[u8]) -> Result<Columns, Memory>
    requires carried { IsCarried payloads.Columns carried.now }
    requires lawful { AreColumns widest (columns_counted carried.now) }
    ensures { IfOk result (λ columns. columns ≡ columns_counted carried.now) }
{
    let mut columns = Columns::new(alloc);
    let mut rest = &carried[1..];
    while let Some((number, value, after)) = column_at(rest) {
        columns.append(Column::copy_of(alloc, number, value)?);
        rest = after;
    }
    Ok(columns)
}
