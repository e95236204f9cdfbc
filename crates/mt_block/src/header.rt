//! Headers of files.
ghost use Rattle.std.specs.Prelude.{◌≡◌, ◌≢◌, ◌<◌, ◌^◌, ◌++◌, List, ℕ, length, IfOk, IfSome, IfNone};
ghost use Rattle.byteorder.specs.Endian.{big_bytes};
ghost use Rattle.mt_block.specs.declared.header.Header.{Header as HeaderValue};
ghost use Rattle.mt_block.specs.Blocks.{IsHeader, header_bytes, mark_of};

use crate::block::{after, after_crc, u32_at};
use byteorder::{BigEndian, ByteOrder};
use mt_crc::{crc32c, crc32c_append};
use std::alloc::{AllocError, Global};

/// What a file of format 4 begins with.
const MAGIC: &[u8] = b"MTL4";

/// Where older formats have the first length.
const ZEROS: &[u8] = &[0; 4];

/// The header of a file.
#[derive(Clone, Copy, Debug, PartialEq, Eq)]
pub struct Header {
    /// A number that no other file has.
    pub salt: u64,
    pub worker: u32,
    /// The number of the segment in its worker's log.
    pub segment: u32,
    /// The number of workers of its server.
    pub workers: u32,
    /// Updates below this timestamp may be missing.
    pub from: u64,
}

impl Header {
    /// Returns the mark of the file, with which each of its blocks begins.
    pub fn mark(&self) -> u32
        ensures { result ≡ mark_of self.now }
    {
        let crc = crc32c_append(crc32c(MAGIC), &self.salt.to_be_bytes());
        let crc = crc32c_append(crc32c_append(crc, ZEROS), &self.worker.to_be_bytes());
        let crc = crc32c_append(crc32c_append(crc, ZEROS), &self.segment.to_be_bytes());
        let crc = crc32c_append(crc, &self.workers.to_be_bytes());
        crc32c_append(crc, &self.from.to_be_bytes())
    }

    /// Returns the bytes of the header. Err: out of memory.
    pub fn bytes(&self, alloc: Global) -> Result<Vec<u8>, AllocError>
        ensures { IfOk result (λ out. out.items ≡ header_bytes self.now) }
    {
        let mut out = Vec::new(alloc);
        out.extend_from_slice(MAGIC)?;
        out.extend_from_slice(&self.salt.to_be_bytes())?;
        out.extend_from_slice(ZEROS)?;
        out.extend_from_slice(&self.worker.to_be_bytes())?;
        out.extend_from_slice(ZEROS)?;
        out.extend_from_slice(&self.segment.to_be_bytes())?;
        out.extend_from_slice(&self.workers.to_be_bytes())?;
        out.extend_from_slice(&self.from.to_be_bytes())?;
        out.extend_from_slice(&self.mark().to_le_bytes())?;
        Ok(out)
    }
}

/// Returns the header at the front, and the bytes after it. Returns None if the bytes do not begin with a header.
pub fn header_at(bytes: &[u8]) -> Option<(Header, &[u8])>
    ensures found { IfSome result (λ x. IsHeader x.0 × (bytes.now ≡ header_bytes x.0 ++ x.1.now)) }
    ensures none { IfNone result ((header : HeaderValue) (after : List ℕ) → IsHeader header → bytes.now ≢ header_bytes header ++ after) }
{
    let rest = after(MAGIC, bytes)?;
    let (salt, rest) = u64_at(rest)?;
    let rest = after(ZEROS, rest)?;
    let (worker, rest) = u32_at(rest)?;
    let rest = after(ZEROS, rest)?;
    let (segment, rest) = u32_at(rest)?;
    let (workers, rest) = u32_at(rest)?;
    let (from, rest) = u64_at(rest)?;
    let header = Header {
        salt,
        worker,
        segment,
        workers,
        from,
    };
    let rest = after_crc(header.mark(), rest)?;
    Some((header, rest))
}

/// Reads a number of eight bytes. Returns None if there are fewer.
pub fn u64_at(bytes: &[u8]) -> Option<(u64, &[u8])>
    ensures found { IfSome result (λ x. (x.0 < 2 ^ 64) × (bytes.now ≡ big_bytes 8 x.0 ++ x.1.now)) }
    ensures none { IfNone result (length bytes.now < 8) }
{
    let rest = bytes.get(8..)?;
    Some((BigEndian::read_u64(bytes), rest))
}
