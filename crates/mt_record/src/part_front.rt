//! Parts whose bytes are all in memory: one entry after the other, and the footer.
ghost use Rattle.std.specs.Prelude.{◌≢◌, ◌++◌, List, ℕ, IfOk, IfSome, IfNone, MatchOption};
ghost use Rattle.mt_words.specs.Limits.{limits_of};
ghost use Rattle.mt_record.specs.Parts.{footer_bytes};
ghost use Rattle.mt_record.specs.PartFaults.{HasNoEntry};
ghost use Rattle.mt_record.specs.PartFronts.{IsNextEntryOf, IsFooterOf};

use crate::body::copy::copy_entry;
use crate::body::fields::{u32_at, u64_at};
use crate::feed::frame::next_entry;
use crate::feed::part_head::FOOTER_BYTES;
use mt_words::{Entry, Format, Memory};
use std::alloc::Global;

/// Returns the entry at the front of bytes, and the bytes after it. Returns None if no entry of this format is at the
/// front. Err: out of memory.
pub fn entry_at(
    alloc: Global,
    format: Format,
    bytes: &[u8],
) -> Result<Option<(Entry, &[u8])>, Memory>
    ensures { IfOk result (λ found. MatchOption found (HasNoEntry (limits_of format) bytes.now)
        (λ x. IsNextEntryOf (limits_of format) bytes.now x.0 x.1.now)) }
{
    match next_entry(format, bytes) {
        Ok(Some((fields, after))) => Ok(Some((copy_entry(alloc, fields)?, after))),
        // Nothing, or an entry or a footer that is cut short.
        Ok(None) => Ok(None),
        // No entry, whatever follows.
        Err(_) => Ok(None),
    }
}

/// Returns where its checkpoint ends and the number of entries, as the footer says that ends the bytes. Returns None if
/// no footer ends them.
pub fn footer_of(bytes: &[u8]) -> Option<(u64, u32)>
    ensures found { IfSome result (λ x. IsFooterOf bytes.now x.0 x.1) }
    ensures none { IfNone result ((front : List ℕ) (end count : ℕ) → bytes.now ≢ front ++ footer_bytes end count) }
{
    let start = bytes.len().checked_sub(FOOTER_BYTES)?;
    let (length, rest) = u32_at(&bytes[start..])?;
    if length != 0 {
        return None;
    }
    let (end, rest) = u64_at(rest)?;
    let (count, _) = u32_at(rest)?;
    Some((end, count))
}
