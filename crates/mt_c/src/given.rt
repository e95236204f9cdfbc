//! Changes as a server gives them, encoded into buffers of the caller.
ghost use Rattle.std.specs.Prelude.{◌≡◌, ◌≢◌, ◌⊎◌, ◌≤◌, ◌<◌, ◌*◌, ◌+◌, ◌^◌, ℕ, map, length};
ghost use Rattle.std.specs.List.{flat_map, AllByRecursion};
ghost use Rattle.mt_words.specs.Limits.{widest};
ghost use Rattle.mt_words.specs.Words.{IsColumn};
ghost use Rattle.mt_words.specs.Codes.{code_of};
ghost use Rattle.mt_words.specs.Changes.{AllowsKind, IsLawfulChange, IsLoggedChange, IsEntry, changed};
ghost use Rattle.mt_record.specs.Given.{column_of, kind_of, change_of};
ghost use Rattle.mt_record.specs.Parts.{entry_spelling};
ghost use Rattle.mt_record.specs.Spelling.{column_bytes, kind_bytes, change_bytes, body, spelling};
ghost use Rattle.mt_c.specs.declared.status.TheConstants.{DONE, SHORT, WRONG};
ghost use Rattle.mt_c.specs.Buffers.{Writes};

use crate::flat::fill_counted;
use crate::status::{DONE, SHORT};
use mt_record::{Given, GivenChange, GivenKind};
use mt_words::Code;

/// Writes the record of the change at this timestamp to the beginning of `out` if it has room there, and its length to
/// `count`.
pub fn write_record(time: u64, given: GivenChange<'_>, out: &mut [u8], count: &mut usize) -> u32
    requires { IsLoggedChange widest (change_of given) }
    ensures written { Writes (spelling (changed time (change_of given.entry))) out.old out.new count.new result }
    ensures accepted { result ≢ WRONG }
    ensures certain { (result ≡ DONE) ⊎ (result ≡ SHORT) }
{
    let length = record_length(given);
    *count = length;
    if length > out.len() {
        return SHORT;
    }
    fill_record(time, given, &mut out[..length]);
    DONE
}

/// Writes the change as an entry of a part to the beginning of `out` if it has room there, and its length to `count`.
pub fn write_entry(given: GivenChange<'_>, out: &mut [u8], count: &mut usize) -> u32
    requires { IsEntry widest (change_of given) }
    ensures written { Writes (entry_spelling (change_of given.entry)) out.old out.new count.new result }
    ensures accepted { result ≢ WRONG }
    ensures certain { (result ≡ DONE) ⊎ (result ≡ SHORT) }
{
    let length = entry_length(given);
    *count = length;
    if length > out.len() {
        return SHORT;
    }
    fill_entry(given, &mut out[..length]);
    DONE
}

/// Returns the number of bytes of the change's record.
fn record_length(given: GivenChange<'_>) -> usize
    requires { IsLoggedChange widest (change_of given) }
    ensures { (time : ℕ) → result ≡ length (spelling (changed time (change_of given.entry))) }
{
    17 + change_length(given)
}

/// Fills `out` with the record of the change at this timestamp.
fn fill_record(time: u64, given: GivenChange<'_>, out: &mut [u8])
    requires lawful { IsLoggedChange widest (change_of given) }
    requires exact { length out.old ≡ length (spelling (changed time (change_of given))) }
    ensures { out.new ≡ spelling (changed time (change_of given.entry)) }
{
    let length = 9 + change_length(given);
    let frame = (length as u32).to_be_bytes();
    let (front, rest) = out.split_at_mut(4);
    front.copy_from_slice(&frame);
    let (middle, back) = rest.split_at_mut(length);
    fill_body(time, given, middle);
    back.copy_from_slice(&frame);
}

/// Fills `out` with the body of the record: its kind, its timestamp and the change.
fn fill_body(time: u64, given: GivenChange<'_>, out: &mut [u8])
    requires lawful { IsLoggedChange widest (change_of given) }
    requires exact { length out.old ≡ length (body (changed time (change_of given))) }
    ensures { out.new ≡ body (changed time (change_of given.entry)) }
{
    let (kind, rest) = out.split_at_mut(1);
    kind[0] = code_of(given.kind).byte();
    let (timestamp, change) = rest.split_at_mut(8);
    timestamp.copy_from_slice(&time.to_be_bytes());
    fill_change(given, change);
}

/// Returns the number of bytes of the change as an entry of a part.
fn entry_length(given: GivenChange<'_>) -> usize
    requires { IsEntry widest (change_of given) }
    ensures { result ≡ length (entry_spelling (change_of given.entry)) }
{
    8 + change_length(given)
}

/// Fills `out` with the change as an entry of a part.
fn fill_entry(given: GivenChange<'_>, out: &mut [u8])
    requires lawful { IsEntry widest (change_of given) }
    requires exact { length out.old ≡ length (entry_spelling (change_of given)) }
    ensures { out.new ≡ entry_spelling (change_of given.entry) }
{
    let length = change_length(given);
    let frame = (length as u32).to_be_bytes();
    let (front, rest) = out.split_at_mut(4);
    front.copy_from_slice(&frame);
    let (change, back) = rest.split_at_mut(length);
    fill_change(given, change);
    back.copy_from_slice(&frame);
}

/// Returns the number of bytes of the version, the key and what the kind carries.
fn change_length(given: GivenChange<'_>) -> usize
    requires { IsLawfulChange widest (change_of given) }
    ensures value { result ≡ length (change_bytes (change_of given.entry)) }
    ensures few { result < 2 ^ 26 }
{
    10 + given.key.len() + kind_length(given.kind)
}

/// Fills `out` with the version, the key and what the kind carries.
fn fill_change(given: GivenChange<'_>, out: &mut [u8])
    requires lawful { IsLawfulChange widest (change_of given) }
    requires exact { length out.old ≡ length (change_bytes (change_of given)) }
    ensures { out.new ≡ change_bytes (change_of given.entry) }
{
    let (version, rest) = out.split_at_mut(8);
    version.copy_from_slice(&given.version.to_be_bytes());
    let (counted, carried) = rest.split_at_mut(2 + given.key.len());
    fill_counted(given.key, counted);
    fill_kind(given.kind, carried);
}

/// Returns the code of the kind.
fn code_of(kind: GivenKind<'_>) -> Code
    ensures { result ≡ code_of (kind_of kind.entry) }
{
    match kind {
        GivenKind::Put(_) => Code::Put,
        GivenKind::Remove => Code::Remove,
        GivenKind::Whole(_) => Code::Whole,
        GivenKind::Erase(_) => Code::Erase,
    }
}

/// Returns the number of bytes of what the kind carries.
#[tactic(auto, using(crate::proofs::Givens::few_columns, crate::proofs::Givens::few_numbers))]
fn kind_length(kind: GivenKind<'_>) -> usize
    requires { AllowsKind widest (kind_of kind) }
    ensures value { result ≡ length (kind_bytes (kind_of kind.entry)) }
    ensures few { result < 2 ^ 25 }
{
    match kind {
        GivenKind::Put(columns) | GivenKind::Whole(columns) => 1 + columns_length(columns),
        GivenKind::Remove => 0,
        GivenKind::Erase(numbers) => 1 + numbers.len(),
    }
}

/// Fills `out` with what the kind carries.
#[tactic(auto, using(crate::proofs::Givens::few_columns, crate::proofs::Givens::few_numbers))]
fn fill_kind(kind: GivenKind<'_>, out: &mut [u8])
    requires lawful { AllowsKind widest (kind_of kind) }
    requires exact { length out.old ≡ length (kind_bytes (kind_of kind)) }
    ensures { out.new ≡ kind_bytes (kind_of kind.entry) }
{
    match kind {
        GivenKind::Put(columns) | GivenKind::Whole(columns) => {
            let (count, rest) = out.split_at_mut(1);
            count[0] = columns.len() as u8;
            fill_columns(columns, rest);
        }
        GivenKind::Remove => {}
        GivenKind::Erase(numbers) => {
            let (count, rest) = out.split_at_mut(1);
            count[0] = numbers.len() as u8;
            rest.copy_from_slice(numbers);
        }
    }
}

/// Returns the number of bytes of the columns.
fn columns_length(columns: &[Given<'_>]) -> usize
    requires lawful { AllByRecursion (IsColumn widest) (map column_of columns.now) }
    requires few { length columns.now ≤ 64 }
    ensures value { result ≡ length (flat_map column_bytes (map column_of columns.now)) }
    ensures few { result ≤ length columns.now * 65538 }
{
    match columns.split_first() {
        Some((first, rest)) => 3 + first.bytes.len() + columns_length(rest),
        None => 0,
    }
}

/// Fills `out` with the columns.
fn fill_columns(columns: &[Given<'_>], out: &mut [u8])
    requires lawful { AllByRecursion (IsColumn widest) (map column_of columns.now) }
    requires exact { length out.old ≡ length (flat_map column_bytes (map column_of columns.now)) }
    ensures { out.new ≡ flat_map column_bytes (map column_of columns.now) }
{
    if let Some((first, rest)) = columns.split_first() {
        let (front, back) = out.split_at_mut(3 + first.bytes.len());
        fill_column(*first, front);
        fill_columns(rest, back);
    }
}

/// Fills `out` with the column: its number, then its bytes with their length.
fn fill_column(column: Given<'_>, out: &mut [u8])
    requires lawful { IsColumn widest (column_of column) }
    requires exact { length out.old ≡ length (column_bytes (column_of column)) }
    ensures { out.new ≡ column_bytes (column_of column.entry) }
{
    let (number, rest) = out.split_at_mut(1);
    number[0] = column.number;
    fill_counted(column.bytes, rest);
}
