//! Reads the record or entry at the front of bytes. It is framed: its length stands before and after its body.
//!
//!     frame    length, 4 bytes | body, as many bytes | length again, 4 bytes
//!     record   body = kind, 1 byte | timestamp, 8 bytes | change, but for a mark
//!     entry    body = change
//!     change   version, 8 bytes | length of the key, 2 bytes | key | columns, or their numbers
//!
//! The bytes may end anywhere in a frame: there the log is torn, or the next chunk goes on.
ghost use Rattle.std.specs.Prelude.{◌≡◌, ◌<◌, ◌^◌, ◌⊎◌, ◌+◌, ◌*◌, suc, [], length, IfOk, IfErr, OnErr, MatchOption};
ghost use Rattle.mt_words.specs.declared.limits.TheConstants.{LONGEST_VALUE};
ghost use Rattle.mt_words.specs.Limits.{limits_of};
ghost use Rattle.mt_record.specs.Spelling.{longest_change as longest_change_of};
ghost use Rattle.mt_record.specs.Logs.{IsTorn, IsUnfinished};
ghost use Rattle.mt_record.specs.LogFaults.{RestFault};
ghost use Rattle.mt_record.specs.PartTexts.{IsEntryLength};
ghost use Rattle.mt_record.specs.PartFeeding.{ShowsNoEntry};
ghost use Rattle.mt_record.specs.Steps.Bodies.{IsNextBody, IsNextEntry, IsWithin, IsFrame, IsFrameFault};
ghost use Rattle.mt_record.specs.Steps.Runs.{IsWanted};

use crate::body::check::{check_body, check_entry};
use crate::body::fields::u32_at;
use mt_words::{Format, LONGEST_VALUE, What};

/// The number of bytes in a body before its change: the kind byte and the timestamp.
const BEFORE_CHANGE: usize = 9;

/// The least length of a record's body: that of a mark.
const SHORTEST_RECORD: usize = BEFORE_CHANGE;

/// The least length of an entry: that of the empty key with one empty column.
const SHORTEST_ENTRY: usize = 14;

/// Returns the timestamp and the body of the record at the front, and the bytes after it. `latest` is the timestamp of
/// the record before it. Returns None if the bytes are empty or a torn tail.
/// Err: what is wrong with the record.
#[inline(always)]
pub fn next_record(
    format: Format,
    latest: u64,
    bytes: &[u8],
) -> Result<Option<(u64, &[u8], &[u8])>, What>
    ensures found { IfOk result (λ found. MatchOption found
        ((bytes.now ≡ []) ⊎ IsTorn (limits_of format) bytes.now)
        (λ x. IsNextBody (limits_of format) latest bytes.now x.0 x.1.now x.2.now)) }
    ensures fault { IfErr result (λ what. RestFault what (limits_of format) latest bytes.now) }
{
    let Some((body, after)) = next_frame(
        bytes,
        SHORTEST_RECORD,
        BEFORE_CHANGE + longest_change(format),
    )?
    else {
        return Ok(None);
    };
    let timestamp = check_body(format, latest, body)?;
    Ok(Some((timestamp, body, after)))
}

/// Returns the fields of the entry at the front, and the bytes after it. Returns None if the bytes are empty or cut
/// short.
/// Err: the bytes do not begin with an entry, however they go on.
pub fn next_entry(format: Format, bytes: &[u8]) -> Result<Option<(&[u8], &[u8])>, What>
    ensures found { IfOk result (λ found. MatchOption found
        ((bytes.now ≡ []) ⊎ IsUnfinished (IsEntryLength (limits_of format)) bytes.now)
        (λ x. IsNextEntry (limits_of format) bytes.now x.0.now x.1.now)) }
    ensures fault { OnErr result (ShowsNoEntry (limits_of format) bytes.now) }
{
    let Some((body, after)) = next_frame(bytes, SHORTEST_ENTRY, longest_change(format))? else {
        return Ok(None);
    };
    check_entry(format, body)?;
    Ok(Some((body, after)))
}

/// Returns how many bytes the unfinished frame in `held` asks for: 4, for the length that begins it, and once that
/// length is held, the number of bytes of the complete frame.
pub fn frame_wanted(held: &[u8]) -> usize
    ensures { IsWanted held.now result }
{
    match u32_at(held) {
        Some((length, _)) => (length as usize).saturating_add(8),
        None => 4,
    }
}

/// Returns the greatest length of a change, and so of an entry: that of a change with the longest key and with all
/// columns, each as long as possible.
fn longest_change(format: Format) -> usize
    ensures value { result ≡ longest_change_of (limits_of format) }
    ensures fits { result < 2 ^ 31 }
{
    let limits = format.limits();
    11 + limits.key + (limits.column as usize + 1) * (3 + LONGEST_VALUE)
}

/// Returns the body at the front, between two copies of its length, and the bytes after it. Returns None if the bytes
/// are empty or cut short.
/// Err: the length is out of range, or its two copies differ.
#[inline(always)]
fn next_frame(bytes: &[u8], shortest: usize, longest: usize) -> Result<Option<(&[u8], &[u8])>, What>
    requires { longest < 2 ^ 32 }
    ensures found { IfOk result (λ found. MatchOption found
        ((bytes.now ≡ []) ⊎ IsUnfinished (IsWithin shortest longest) bytes.now)
        (λ x. IsFrame (IsWithin shortest longest) bytes.now x.0.now x.1.now)) }
    ensures fault { IfErr result (IsFrameFault (IsWithin shortest longest) bytes.now) }
{
    let Some((length, rest)) = u32_at(bytes) else {
        return Ok(None);
    };
    let length = length as usize;
    // No body is so short or so long, so the length itself is damaged: no byte that follows can mend it.
    if length < shortest || length > longest {
        return Err(What::Length);
    }
    // A crash cut the body off, or the length is damaged: from these bytes nobody can tell.
    let Some((body, rest)) = rest.split_at_checked(length) else {
        return Ok(None);
    };
    let Some((trailer, rest)) = u32_at(rest) else {
        return Ok(None);
    };
    // A crash leaves a beginning of what was written, and changes no byte of it: this is damage.
    if trailer as usize != length {
        return Err(What::Trailer);
    }
    Ok(Some((body, rest)))
}
