//! Files of format 4 that have lost their header. Each of their blocks begins with the header's checksum, the mark. So the
//! blocks tell the mark, and a header whose checksum this is was the header.
//!
//! ```text
//! log    "MTL4" | salt, 8 bytes | 0, 4 | worker, 4 | 0, 4 | segment, 4 | workers, 4 | from, 8 | mark, 4
//! part   "MTC4" | salt, 8 bytes | number, 4 | part, 2 | parts, 2 | 1, 4 | begin, 8 | mark, 4
//! ```
use crate::heads::{last_before, segment_named};
use crate::sealed::PART_HEADER;
use mt_block::{Header, PartHeader, next_block, part_header_at};
use mt_record::{Head, LogFront, Segment};
use mt_words::{Format, Memory};
use std::alloc::{AllocError, Global};

/// The bytes of a log's header.
pub const HEADER: usize = 44;

/// The bits of the fields of a log's header, and of a part's, each of which is changed in turn.
const FIELD_BITS: usize = 320;

const PART_FIELD_BITS: usize = 256;

/// The most numbers of workers of other files that are tried.
const MOST_WORKERS: usize = 16;

/// Returns the mark of the blocks in these bytes: that of more than half of their bytes, if blocks have several, since a
/// value may hold blocks of another file. None: there is no whole block.
pub fn mark_in(bytes: &[u8]) -> Option<u32> {
    let mut mark = None;
    let mut lead: usize = 0;
    let mut rest = bytes;
    for _ in 0..bytes.len() {
        let Some((first, _)) = rest.split_first_chunk::<4>() else {
            break;
        };
        let found = u32::from_le_bytes(*first);
        let Ok(Some((_, after))) = next_block(found, rest) else {
            rest = rest.get(1..).unwrap_or(&[]);
            continue;
        };
        let size = rest.len().saturating_sub(after.len());
        rest = after;
        if mark == Some(found) {
            lead = lead.saturating_add(size);
        } else if size <= lead {
            lead = lead.saturating_sub(size);
        } else {
            mark = Some(found);
            lead = size.saturating_sub(lead);
        }
    }
    mark
}

/// Returns the header that a log of format 4 of this name has lost, as its bytes, the fronts of the logs and the numbers of
/// workers in their headers show it: that whose checksum is the mark. It is what stands there, with other values in some fields:
/// the worker and the segment that the name says, a `from` where the segment before ends, or one of these numbers of workers;
/// and with one more bit changed, at most. Without a whole block the mark is what stands in the header. None: no such header has
/// the mark. Err: out of memory.
pub fn header_of(
    alloc: Global,
    name: &str,
    bytes: &[u8],
    fronts: &[LogFront],
    workers: &[u32],
) -> Result<Option<Header>, AllocError> {
    let (Some(first), Some(own)) = (fields_in(bytes), own_mark(bytes)) else {
        return Ok(None);
    };
    let mark = mark_in(bytes).unwrap_or(own);
    let mut guesses = Vec::new(alloc);
    add_guesses(first, segment_named(name), fronts, workers, &mut guesses)?;
    for guess in &guesses {
        if guess.mark() == mark {
            return Ok(Some(*guess));
        }
    }
    for guess in &guesses {
        let bytes = guess.bytes(alloc)?;
        for bit in 0..FIELD_BITS {
            if let Some(header) = fields_but(alloc, &bytes, bit)? {
                if header.mark() == mark {
                    return Ok(Some(header));
                }
            }
        }
    }
    Ok(None)
}

/// Returns the header of the text of a log of format 4.
pub fn head_of(header: Header) -> Head {
    Head {
        format: Format::Two,
        from: header.from,
        segment: Some(Segment {
            worker: header.worker,
            number: header.segment,
        }),
    }
}

/// Returns the bytes of a part of format 4 with the header that it has lost, if it has lost just one bit of that; else the bytes
/// as they are. Err: out of memory.
pub fn with_part_header(alloc: Global, bytes: Vec<u8>) -> Result<Vec<u8>, Memory> {
    if part_header_at(&bytes).is_some() {
        return Ok(bytes);
    }
    let Some(header) = part_header_of(alloc, &bytes)? else {
        return Ok(bytes);
    };
    let mut made = header.bytes(alloc)?;
    made.extend_from_slice(bytes.get(PART_HEADER..).unwrap_or(&[]))?;
    Ok(made)
}

/// Returns the header that a part of format 4 has lost: that whose checksum is the mark of its blocks, and which is what stands
/// there, with one bit changed at most. None: there is no such header, or no whole block. Err: out of memory.
fn part_header_of(alloc: Global, bytes: &[u8]) -> Result<Option<PartHeader>, AllocError> {
    let (Some(front), Some(mark)) = (bytes.get(..PART_HEADER), mark_in(bytes)) else {
        return Ok(None);
    };
    // The last of these bits is one of the mark that stands there, and changes no field.
    for bit in 0..=PART_FIELD_BITS {
        let changed = with_bit(alloc, front, bit)?;
        if let Some(header) = part_fields_in(&changed) {
            if header.mark() == mark {
                return Ok(Some(header));
            }
        }
    }
    Ok(None)
}

/// Returns the fields of the header of a part that stands at the front, whatever its magic, its one and its mark are. None: it is
/// shorter.
fn part_fields_in(bytes: &[u8]) -> Option<PartHeader> {
    Some(PartHeader {
        salt: u64_in(bytes, 4)?,
        number: u32_in(bytes, 12)?,
        part: u16_in(bytes, 16)?,
        parts: u16_in(bytes, 18)?,
        begin: u64_in(bytes, 24)?,
    })
}

/// Adds each header that has the fields of this one, or what the file's name and other files say. Err: out of memory.
fn add_guesses(
    first: Header,
    named: Option<Segment>,
    fronts: &[LogFront],
    workers: &[u32],
    guesses: &mut Vec<Header>,
) -> Result<(), AllocError> {
    let own = Segment {
        worker: first.worker,
        number: first.segment,
    };
    for segment in &[own, named.unwrap_or(own)] {
        let placed = Header {
            worker: segment.worker,
            segment: segment.number,
            ..first
        };
        let before = last_before(fronts, *segment).unwrap_or(0);
        for from in &[first.from, before] {
            let from = *from;
            guesses.push(Header { from, ..placed })?;
            for workers in workers.iter().take(MOST_WORKERS) {
                guesses.push(Header {
                    from,
                    workers: *workers,
                    ..placed
                })?;
            }
        }
    }
    Ok(())
}

/// Returns the fields of the header that stands at the front, with this bit changed, whatever its magic, its zeros and its mark
/// are. None: it is shorter. Err: out of memory.
fn fields_but(alloc: Global, bytes: &[u8], bit: usize) -> Result<Option<Header>, AllocError> {
    let changed = with_bit(alloc, bytes, bit)?;
    Ok(fields_in(&changed))
}

/// Returns these bytes with this bit changed, if there is one. Err: out of memory.
fn with_bit(alloc: Global, bytes: &[u8], bit: usize) -> Result<Vec<u8>, AllocError> {
    let mut changed = Vec::from_slice(alloc, bytes)?;
    if let Some(byte) = changed.get_mut(bit / 8) {
        *byte ^= 1 << (bit % 8);
    }
    Ok(changed)
}

/// Returns the fields of the header that stands at the front, whatever its magic, its zeros and its mark are. None: it is
/// shorter.
fn fields_in(bytes: &[u8]) -> Option<Header> {
    Some(Header {
        salt: u64_in(bytes, 4)?,
        worker: u32_in(bytes, 16)?,
        segment: u32_in(bytes, 24)?,
        workers: u32_in(bytes, 28)?,
        from: u64_in(bytes, 32)?,
    })
}

/// Returns the mark that stands in the header. None: it is shorter.
fn own_mark(bytes: &[u8]) -> Option<u32> {
    let (mark, _) = bytes.get(HEADER - 4..)?.split_first_chunk::<4>()?;
    Some(u32::from_le_bytes(*mark))
}

/// Returns the number of two bytes that begins at this byte. None: there are fewer.
fn u16_in(bytes: &[u8], at: usize) -> Option<u16> {
    let (number, _) = bytes.get(at..)?.split_first_chunk::<2>()?;
    Some(u16::from_be_bytes(*number))
}

/// Returns the number of four bytes that begins at this byte. None: there are fewer.
fn u32_in(bytes: &[u8], at: usize) -> Option<u32> {
    let (number, _) = bytes.get(at..)?.split_first_chunk::<4>()?;
    Some(u32::from_be_bytes(*number))
}

/// Returns the number of eight bytes that begins at this byte. None: there are fewer.
fn u64_in(bytes: &[u8], at: usize) -> Option<u64> {
    let (number, _) = bytes.get(at..)?.split_first_chunk::<8>()?;
    Some(u64::from_be_bytes(*number))
}
