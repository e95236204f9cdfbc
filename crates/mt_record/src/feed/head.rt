//! Headers of logs.
#![tactic(auto, using(crate::proofs::Beginnings::log_cut))]

ghost use Rattle.std.specs.Prelude.{◌≡◌, ◌≢◌, ◌<◌, ◌++◌, List, ℕ, None, length, codes, IfSome, IfNone, MatchBool};
ghost use Rattle.mt_record.specs.Fronts.{FindsFront, GoesWithLog};
ghost use Rattle.mt_record.specs.declared.feed.head.Head.{Head as HeadValue};
ghost use Rattle.mt_record.specs.Heads.{IsHead, head_bytes, HasNoHeader};
ghost use Rattle.mt_record.specs.Opening.{IsSealed};

use crate::body::fields::{u32_at, u64_at};
use crate::feed::magic::{NoMagic, format_at, goes_with_magic};
use mt_words::Format;

/// The letters that a log begins with.
pub const LOG: &[u8] = b"MTL";

/// The magic that a segment of a worker's log begins with. Its records are those of format 2.
pub const SEGMENT: &[u8] = b"MTL3";

/// The magic that a file of format 4 begins with.
pub const BLOCKS: &[u8] = b"MTL4";

/// The number of bytes in the header of a log that is no segment.
pub const HEADER_BYTES: usize = 12;

/// The number of bytes in the header of a segment.
pub const SEGMENT_HEADER_BYTES: usize = 20;

/// A segment of a worker's log.
#[derive(Clone, Copy, Debug, PartialEq, Eq)]
pub struct Segment {
    pub worker: u32,
    /// The number of the segment in its worker's log.
    pub number: u32,
}

/// The header of a log.
#[derive(Clone, Copy, Debug, PartialEq, Eq)]
pub struct Head {
    /// The format of the records.
    pub format: Format,
    /// Updates below this timestamp may be missing.
    pub from: u64,
    /// The segment that the log is, or None if it is no segment.
    pub segment: Option<Segment>,
}

/// Returns whether the bytes begin with the magic of format 4.
pub fn is_sealed(bytes: &[u8]) -> bool
    ensures { MatchBool result (IsSealed bytes.now) (IsSealed bytes.now → ⊥) }
{
    bytes.starts_with(BLOCKS)
}

/// Returns the header at the front and the bytes after it. Returns None if the bytes do not begin with a header, as
/// those of a file of format 4.
pub fn header_at(bytes: &[u8]) -> Option<(Head, &[u8])>
    ensures found { IfSome result (λ x. IsHead x.0 × (bytes.now ≡ head_bytes x.0 ++ x.1.now)) }
    ensures none { IfNone result (HasNoHeader bytes.now) }
{
    match bytes.strip_prefix(SEGMENT) {
        Some(rest) => segment_head_at(rest),
        None => plain_head_at(bytes),
    }
}

/// Returns the header of a log that is no segment, and the bytes after it. Returns None if the bytes do not begin with
/// one.
fn plain_head_at(bytes: &[u8]) -> Option<(Head, &[u8])>
    ensures found { IfSome result (λ x. IsHead x.0 × (x.0.segment ≡ None) × (bytes.now ≡ head_bytes x.0 ++ x.1.now)) }
    ensures none { IfNone result ((head : HeadValue) (more : List ℕ) → IsHead head → head.segment ≡ None → bytes.now ≢ head_bytes head ++ more) }
{
    let (format, rest) = format_at(LOG, bytes)?;
    let (from, rest) = u64_at(rest)?;
    let head = Head {
        format,
        from,
        segment: None,
    };
    Some((head, rest))
}

/// Returns the header of a segment, whose magic stands before these bytes, and the bytes after it. Returns None if the
/// bytes end before the header does.
fn segment_head_at(bytes: &[u8]) -> Option<(Head, &[u8])>
    ensures found { IfSome result (λ x. IsHead x.0 × (codes "MTL3" ++ bytes.now ≡ head_bytes x.0 ++ x.1.now)) }
    ensures none { IfNone result (length bytes.now < 16) }
{
    let (from, rest) = u64_at(bytes)?;
    let (worker, rest) = u32_at(rest)?;
    let (number, rest) = u32_at(rest)?;
    let head = Head {
        format: Format::Two,
        from,
        segment: Some(Segment { worker, number }),
    };
    Some((head, rest))
}

/// Returns whether the bytes begin with the magic of a log, or are the beginning of one.
fn goes_with_log(bytes: &[u8]) -> bool
    ensures { MatchBool result (GoesWithLog bytes.now) (GoesWithLog bytes.now → ⊥) }
{
    goes_with_magic(LOG, bytes) || bytes.starts_with(SEGMENT)
}

/// Returns how many bytes the header that `held` begins has.
pub fn head_bytes_wanted(held: &[u8]) -> usize {
    if held.starts_with(SEGMENT) {
        SEGMENT_HEADER_BYTES
    } else {
        HEADER_BYTES
    }
}

/// Returns the header at the front and the bytes after it. Returns None if the bytes are only the beginning of a
/// header.
/// Err: the bytes neither begin with a header nor are the beginning of one.
pub fn next_header(bytes: &[u8]) -> Result<Option<(Head, &[u8])>, NoMagic>
    ensures { FindsFront IsHead head_bytes bytes.now result }
{
    match header_at(bytes) {
        None if !goes_with_log(bytes) => Err(NoMagic),
        found => Ok(found),
    }
}
