//! Validates bodies where they lie, without allocating. Only the column numbers of an erase are copied, into a fixed
//! array.
ghost use Rattle.std.specs.Prelude.{◌≡◌, ◌≤◌, ◌<◌, ◌↔◌, ℕ, length, IfOk, IfErr, OnOk, OnErr, IfSome, IfNone, IsTrue};
ghost use Rattle.mt_words.specs.Limits.{limits_of};
ghost use Rattle.mt_words.specs.Codes.{byte_of};
ghost use Rattle.mt_words.specs.Words.{AreNumbers};
ghost use Rattle.mt_words.specs.declared.record.Change.{Change as ChangeValue};
ghost use Rattle.mt_record.specs.LogFaults.{BodyFault};
ghost use Rattle.mt_record.specs.Steps.Bodies.{IsBodyAt, AreFieldsOf, AreNoFields, IsChangeOf, IsChangeFault, HasKind, IsJudgedKind, HasColumns, AreJudgedColumns};

use crate::body::fields::u64_at;
use crate::body::fields_at;
use mt_words::{Code, Format, Numbers, Payload, What, column_at};

/// Checks the body of a record and returns its timestamp. `latest` is the timestamp of the record before it.
/// Err: the first fault of the body.
#[inline(always)]
pub fn check_body(format: Format, latest: u64, bytes: &[u8]) -> Result<u64, What>
    ensures found { IfOk result (IsBodyAt (limits_of format) latest bytes.now) }
    ensures fault { IfErr result (λ what. BodyFault what (limits_of format) latest bytes.now) }
{
    let timestamp = check_record(format, bytes)?;
    if timestamp < latest {
        return Err(What::Clock);
    }
    Ok(timestamp)
}

/// Checks the body of a record, whatever record comes before it, and returns its timestamp.
#[inline(always)]
fn check_record(format: Format, bytes: &[u8]) -> Result<u64, What>
    ensures found { IfOk result (IsBodyAt (limits_of format) 0 bytes.now) }
    ensures fault { IfErr result (λ what. (low : ℕ) → BodyFault what (limits_of format) low bytes.now) }
{
    let [byte, fields @ ..] = bytes else {
        return Err(What::Kind);
    };
    if *byte == Code::Whole.byte() || *byte > format.limits().kind {
        return Err(What::Kind);
    }
    let Some((timestamp, rest)) = u64_at(fields) else {
        return Err(What::Frame);
    };
    match (Code::of_byte(*byte), rest) {
        (Some(code), _) => {
            check_change(format, code, rest)?;
            Ok(timestamp)
        }
        // A mark: the only kind of record without a code.
        (None, []) => Ok(timestamp),
        (None, _) => Err(What::Frame),
    }
}

/// Checks the fields of an entry. Err: the first fault of the fields.
pub fn check_entry(format: Format, bytes: &[u8]) -> Result<(), What>
    ensures found { OnOk result ((entry : ChangeValue) × AreFieldsOf (limits_of format) bytes.now entry) }
    ensures fault { OnErr result (AreNoFields (limits_of format) bytes.now) }
{
    check_change(format, Code::Whole, bytes)
}

/// Checks that the bytes are a change of this code. Faults are tested in the order of `What`.
#[inline(always)]
fn check_change(format: Format, code: Code, bytes: &[u8]) -> Result<(), What>
    requires { byte_of code ≤ (limits_of format).kind }
    ensures found { OnOk result ((change : ChangeValue) × IsChangeOf (limits_of format) (byte_of code) bytes.now change) }
    ensures fault { IfErr result (IsChangeFault (limits_of format) (byte_of code) bytes.now) }
{
    let Some(fields) = fields_at(bytes) else {
        return Err(What::Frame);
    };
    let Some(allowed) = judge_kind(format, code, fields.carried) else {
        return Err(What::Frame);
    };
    if fields.version == 0 {
        return Err(What::Version);
    }
    if fields.key.len() > format.limits().key {
        return Err(What::Key);
    }
    if !allowed {
        return Err(What::Columns);
    }
    Ok(())
}

/// Returns whether the format allows what a change of this code carries. Returns None if the bytes are not exactly what
/// such a change carries.
#[inline(always)]
fn judge_kind(format: Format, code: Code, bytes: &[u8]) -> Option<bool>
    requires { byte_of code ≤ (limits_of format).kind }
    ensures found { IfSome result (IsJudgedKind (limits_of format) (byte_of code) bytes.now) }
    ensures none { IfNone result (HasKind (byte_of code) bytes.now → ⊥) }
{
    match code.payload() {
        Payload::Nothing => bytes.is_empty().then_some(true),
        Payload::Columns => {
            let (count, columns) = bytes.split_first()?;
            judge_columns(format, *count, columns)
        }
        Payload::Numbers => {
            let (count, numbers) = bytes.split_first()?;
            if numbers.len() != usize::from(*count) {
                return None;
            }
            Some(are_allowed(format, numbers))
        }
    }
}

/// Returns whether the format allows these column numbers of an erase. There must be at least one.
fn are_allowed(format: Format, numbers: &[u8]) -> bool
    ensures { IsTrue result ↔ (AreNumbers (limits_of format) numbers.now × (0 < length numbers.now)) }
{
    match Numbers::new(numbers) {
        Some(numbers) => numbers.are_up_to(format.limits().column),
        None => false,
    }
}

/// Returns whether the format allows these columns. There must be at least one. Returns None if the bytes are not
/// exactly `count` columns.
#[inline(always)]
fn judge_columns(format: Format, count: u8, bytes: &[u8]) -> Option<bool>
    ensures found { IfSome result (AreJudgedColumns (limits_of format) count bytes.now) }
    ensures none { IfNone result (HasColumns count bytes.now → ⊥) }
{
    let greatest = u16::from(format.limits().column);
    let mut allowed = true;
    let mut least: u16 = 0;
    let mut rest = bytes;
    for _ in 0..count {
        let (number, _, after) = column_at(rest)?;
        let number = u16::from(number);
        allowed &= least <= number;
        allowed &= number <= greatest;
        least = number + 1;
        rest = after;
    }
    if !rest.is_empty() {
        return None;
    }
    Some(allowed && count > 0)
}
