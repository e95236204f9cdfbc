//! Headers of files of parts.
ghost use Rattle.std.specs.Prelude.{◌≡◌, ◌≢◌, ◌<◌, ◌^◌, ◌++◌, List, ℕ, length, IfOk, IfSome, IfNone};
ghost use Rattle.byteorder.specs.Endian.{big_bytes};
ghost use Rattle.mt_block.specs.declared.part_header.PartHeader.{PartHeader as HeaderValue};
ghost use Rattle.mt_block.specs.Parts.{IsPartHeader, part_header_bytes, part_mark};

use crate::block::{after, after_crc, u32_at};
use crate::header::u64_at;
use byteorder::{BigEndian, ByteOrder};
use mt_crc::{crc32c, crc32c_append};
use std::alloc::{AllocError, Global};

/// What a part of format 4 begins with.
const PART_MAGIC: &[u8] = b"MTC4";

/// What stands where older formats have the first length. No entry has this length.
const ONE: &[u8] = &[0, 0, 0, 1];

/// The header of a part of format 4.
#[derive(Clone, Copy, Debug, PartialEq, Eq)]
pub struct PartHeader {
    /// A number that no other file has.
    pub salt: u64,
    /// The number of its checkpoint.
    pub number: u32,
    /// The number of this part, counted from 0.
    pub part: u16,
    /// The number of parts in the checkpoint.
    pub parts: u16,
    /// The timestamp from which logs are replayed over the checkpoint.
    pub begin: u64,
}

impl PartHeader {
    /// Returns the mark of the file, with which each of its blocks begins.
    pub fn mark(&self) -> u32
        ensures { result ≡ part_mark self.now }
    {
        let crc = crc32c_append(crc32c(PART_MAGIC), &self.salt.to_be_bytes());
        let crc = crc32c_append(crc, &self.number.to_be_bytes());
        let crc = crc32c_append(crc, &self.part.to_be_bytes());
        let crc = crc32c_append(crc, &self.parts.to_be_bytes());
        crc32c_append(crc32c_append(crc, ONE), &self.begin.to_be_bytes())
    }

    /// Returns the bytes of the header. Err: out of memory.
    pub fn bytes(&self, alloc: Global) -> Result<Vec<u8>, AllocError>
        ensures { IfOk result (λ out. out.items ≡ part_header_bytes self.now) }
    {
        let mut out = Vec::new(alloc);
        out.extend_from_slice(PART_MAGIC)?;
        out.extend_from_slice(&self.salt.to_be_bytes())?;
        out.extend_from_slice(&self.number.to_be_bytes())?;
        out.extend_from_slice(&self.part.to_be_bytes())?;
        out.extend_from_slice(&self.parts.to_be_bytes())?;
        out.extend_from_slice(ONE)?;
        out.extend_from_slice(&self.begin.to_be_bytes())?;
        out.extend_from_slice(&self.mark().to_le_bytes())?;
        Ok(out)
    }
}

/// Returns the header at the front, and the bytes after it. Returns None if the bytes do not begin with a header.
pub fn part_header_at(bytes: &[u8]) -> Option<(PartHeader, &[u8])>
    ensures found { IfSome result (λ x. IsPartHeader x.0 × (bytes.now ≡ part_header_bytes x.0 ++ x.1.now)) }
    ensures none { IfNone result ((header : HeaderValue) (after : List ℕ) → IsPartHeader header → bytes.now ≢ part_header_bytes header ++ after) }
{
    let rest = after(PART_MAGIC, bytes)?;
    let (salt, rest) = u64_at(rest)?;
    let (number, rest) = u32_at(rest)?;
    let (part, rest) = u16_at(rest)?;
    let (parts, rest) = u16_at(rest)?;
    let rest = after(ONE, rest)?;
    let (begin, rest) = u64_at(rest)?;
    let header = PartHeader {
        salt,
        number,
        part,
        parts,
        begin,
    };
    let rest = after_crc(header.mark(), rest)?;
    Some((header, rest))
}

/// Reads a number of two bytes. Returns None if there are fewer.
fn u16_at(bytes: &[u8]) -> Option<(u16, &[u8])>
    ensures found { IfSome result (λ x. (x.0 < 2 ^ 16) × (bytes.now ≡ big_bytes 2 x.0 ++ x.1.now)) }
    ensures none { IfNone result (length bytes.now < 2) }
{
    let rest = bytes.get(2..)?;
    Some((BigEndian::read_u16(bytes), rest))
}
