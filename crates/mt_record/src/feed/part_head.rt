//! Headers of parts, and the length of a footer.
#![tactic(auto, using(crate::proofs::PartBeginnings::part_cut))]

ghost use Rattle.std.specs.Prelude.{◌≡◌, ◌++◌, IfSome, IfNone, MatchBool};
ghost use Rattle.mt_record.specs.Fronts.{FindsFront};
ghost use Rattle.mt_record.specs.Parts.{IsPartHead, part_head_bytes, IsSealedPart};
ghost use Rattle.mt_record.specs.PartFaults.{HasNoPartHeader};

use crate::body::fields::{u16_at, u32_at, u64_at};
use crate::feed::magic::{NoMagic, format_at, goes_with_magic};
use crate::part_text::PartHead;

/// The letters that a part begins with.
pub const PART: &[u8] = b"MTC";

/// The magic that a part of format 4 begins with.
pub const PART_BLOCKS: &[u8] = b"MTC4";

/// The number of bytes in the header of a part.
pub const PART_HEADER_BYTES: usize = 20;

/// The number of bytes in the footer of a part.
pub const FOOTER_BYTES: usize = 16;

/// Returns whether the bytes begin with the magic of a part of format 4.
pub fn is_sealed_part(bytes: &[u8]) -> bool
    ensures { MatchBool result (IsSealedPart bytes.now) (IsSealedPart bytes.now → ⊥) }
{
    bytes.starts_with(PART_BLOCKS)
}

/// Returns the header at the front and the bytes after it. Returns None if the bytes do not begin with a header, as
/// those of a part of format 4.
pub fn part_header_at(bytes: &[u8]) -> Option<(PartHead, &[u8])>
    ensures found { IfSome result (λ x. IsPartHead x.0 × (bytes.now ≡ part_head_bytes x.0 ++ x.1.now)) }
    ensures none { IfNone result (HasNoPartHeader bytes.now) }
{
    let (format, rest) = format_at(PART, bytes)?;
    let (number, rest) = u32_at(rest)?;
    let (begin, rest) = u64_at(rest)?;
    let (part, rest) = u16_at(rest)?;
    let (parts, rest) = u16_at(rest)?;
    let head = PartHead {
        format,
        number,
        begin,
        part,
        parts,
    };
    Some((head, rest))
}

/// Returns the header at the front and the bytes after it. Returns None if the bytes are only the beginning of a
/// header.
/// Err: the bytes neither begin with a header nor are the beginning of one.
pub fn next_part_header(bytes: &[u8]) -> Result<Option<(PartHead, &[u8])>, NoMagic>
    ensures { FindsFront IsPartHead part_head_bytes bytes.now result }
{
    match part_header_at(bytes) {
        None if !goes_with_magic(PART, bytes) => Err(NoMagic),
        found => Ok(found),
    }
}
