//! Finds the records of a damaged log, or the entries of a broken part.
ghost use Rattle.std.specs.Prelude.{◌≡◌, ◌≤◌, ◌<◌, ◌↔◌, ◌^◌, ◌⊎◌, [], length, drop, IsTrue, IfOk, IfSome, IfNone, OnErr, MatchOption};
ghost use Rattle.mt_words.specs.Limits.{limits_of};
ghost use Rattle.mt_record.specs.Salvage.{IsEnd, GoOn, enough_after, StartsNowhere, IsFirst, AreFound, salvaged_part, IsFrontBelow};
ghost use Rattle.mt_record.specs.Fronts.{Stops};
ghost use Rattle.mt_record.specs.Steps.Salvages.{IsNextItem, IsFault, IsNextAt};

use crate::encode::parts::{encode_part_footer, encode_part_header};
use crate::feed::frame::{next_entry, next_record};
use crate::part_text::PartHead;
use mt_words::{Format, Memory, What};
use std::alloc::Global;

/// What a file holds after its header.
#[derive(Clone, Copy, Debug)]
pub enum Items {
    /// The records of a log.
    Records,
    /// The entries of a part.
    Entries,
}

/// So many complete records or entries in a row are those of the file, whatever follows them. Fewer must end it, or stand
/// directly behind others.
pub const ENOUGH_ITEMS: usize = 8;

/// A record or an entry that was found.
#[derive(Clone, Copy, Debug)]
pub struct Found<'a> {
    /// The bytes between the one before and this one.
    pub skipped: &'a [u8],
    /// Its encoding.
    pub bytes: &'a [u8],
    /// Its timestamp. An entry has none: 0.
    pub timestamp: u64,
}

/// Returns the complete records or entries of a damaged file of this format, whatever their timestamps are. The bytes are
/// those after its header, or all if it has none; those of a part end before its footer. What is complete within a value of a
/// damaged record is a record as well. Nothing is copied. The time is linear in the number of bytes.
/// Err: out of memory.
///
/// ```
/// let found = find_items(alloc, Items::Records, head.format, rest)?;
/// ```
pub fn find_items(
    alloc: Global,
    items: Items,
    format: Format,
    bytes: &[u8],
) -> Result<Vec<Found<'_>>, Memory>
    ensures { IfOk result (λ found. AreFound items (limits_of format) bytes.now found.items) }
{
    let mut all = Vec::new(alloc);
    let mut rest = bytes;
    'items: while let Some((found, after)) = next_found(items, format, rest) {
        all.push(found)?;
        rest = after;
    }
    Ok(all)
}

/// Encodes the part with this header of these entries, whose checkpoint ends at the timestamp `end`. Returns None if they are
/// 2^32 or more, which no part can have.
/// Err: out of memory.
pub fn encode_salvaged_part(
    alloc: Global,
    head: PartHead,
    end: u64,
    entries: &[Found<'_>],
) -> Result<Option<Vec<u8>>, Memory>
    ensures { IfOk result (λ made. MatchOption made (2 ^ 32 ≤ length entries.now)
        (λ bytes. bytes.items ≡ salvaged_part head entries.now end)) }
{
    let Some(count) = u32::try_from(entries.len()).ok() else {
        return Ok(None);
    };
    let mut bytes = Vec::new(alloc);
    encode_part_header(head, &mut bytes)?;
    for entry in entries {
        bytes.extend_from_slice(entry.bytes)?;
    }
    encode_part_footer(end, count, &mut bytes)?;
    Ok(Some(bytes))
}

/// Returns the records at the front whose timestamps are below this one. The timestamps of a log never fall, so none of
/// its later records is below it.
pub fn records_below(format: Format, timestamp: u64, bytes: &[u8]) -> &[u8]
    ensures { IsFrontBelow (limits_of format) timestamp bytes.now result.now }
{
    let mut last = 0;
    let mut rest = bytes;
    'records: while let Some((next, after)) = next_at(format, last, rest) {
        if next >= timestamp {
            break;
        }
        last = next;
        rest = after;
    }
    &bytes[..bytes.len() - rest.len()]
}

/// Returns the timestamp of the record at the front, and the bytes after it. `latest` is the timestamp of the record
/// before it. Returns None if no record is at the front.
fn next_at(format: Format, latest: u64, bytes: &[u8]) -> Option<(u64, &[u8])>
    ensures some { IfSome result (λ x. IsNextAt (limits_of format) latest bytes.now x.0 x.1.now) }
    ensures none { IfNone result (Stops (limits_of format) latest bytes.now) }
{
    match next_record(format, latest, bytes) {
        Ok(Some((timestamp, _, after))) => Some((timestamp, after)),
        // The end, or a torn tail.
        Ok(None) => None,
        // A fault.
        Err(_) => None,
    }
}

/// Returns the first item, and the bytes after it. Returns None if there is none.
fn next_found(items: Items, format: Format, bytes: &[u8]) -> Option<(Found<'_>, &[u8])>
    ensures some { IfSome result (λ x. IsFirst items (limits_of format) bytes.now x.0 x.1.now) }
    ensures none { IfNone result (StartsNowhere items (limits_of format) bytes.now (length bytes.now)) }
{
    let (skipped, rest) = bytes.split_at(place_in(items, format, bytes));
    match next_item(items, format, rest) {
        Ok(Some((timestamp, after))) => {
            let (bytes, after) = rest.split_at(rest.len() - after.len());
            let found = Found {
                skipped,
                bytes,
                timestamp,
            };
            Some((found, after))
        }
        // The end.
        Ok(None) => None,
        // A fault: not where items go on.
        Err(_) => None,
    }
}

/// Returns the first byte at which items go on, or the number of bytes if they go on nowhere.
fn place_in(items: Items, format: Format, bytes: &[u8]) -> usize
    ensures within { result ≤ length bytes.now }
    ensures nowhere { StartsNowhere items (limits_of format) bytes.now result }
    ensures starts { (drop result bytes.now ≡ []) ⊎ GoOn items (limits_of format) (enough_after result) (drop result bytes.now) }
{
    for at in 0..bytes.len() {
        if go_on(items, format, enough_behind(at), &bytes[at..]) {
            return at;
        }
    }
    bytes.len()
}

/// Returns how many items must stand in a row if so many bytes are skipped before them.
fn enough_behind(skipped: usize) -> usize
    ensures value { result ≡ enough_after skipped }
    ensures some { 0 < result }
{
    if skipped == 0 { 1 } else { ENOUGH_ITEMS }
}

/// Returns whether items go on at the front: `enough` of them or, if they end the bytes, at least one.
fn go_on(items: Items, format: Format, enough: usize, bytes: &[u8]) -> bool
    requires { 0 < enough }
    ensures { IsTrue result ↔ GoOn items (limits_of format) enough bytes.now }
{
    let mut rest = bytes;
    for nth in 0..enough {
        match next_item(items, format, rest) {
            Ok(Some((_, after))) => rest = after,
            // The end, or a torn tail.
            Ok(None) => return nth > 0,
            // A fault.
            Err(_) => return false,
        }
    }
    true
}

/// Returns the timestamp of the item at the front, and the bytes after it. Returns None if the bytes are empty or cut short.
/// Err: the bytes do not begin with an item, however they go on.
fn next_item(items: Items, format: Format, bytes: &[u8]) -> Result<Option<(u64, &[u8])>, What>
    ensures found { IfOk result (λ found. MatchOption found (IsEnd items (limits_of format) bytes.now)
        (λ x. IsNextItem items (limits_of format) bytes.now x.0 x.1.now)) }
    ensures fault { OnErr result (IsFault items (limits_of format) bytes.now) }
{
    match items {
        Items::Records => match next_record(format, 0, bytes)? {
            Some((timestamp, _, after)) => Ok(Some((timestamp, after))),
            None => Ok(None),
        },
        Items::Entries => match next_entry(format, bytes)? {
            Some((_, after)) => Ok(Some((0, after))),
            None => Ok(None),
        },
    }
}
