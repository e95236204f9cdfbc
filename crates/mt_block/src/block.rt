//! Reads blocks.
ghost use Rattle.std.specs.Prelude.{◌≡◌, ◌≢◌, ◌↔◌, ◌<◌, ◌≤◌, ◌+◌, ◌^◌, ◌⊎◌, ◌++◌, [], List, ℕ, length, drop, IsTrue, IfOk, IfErr, IfSome, IfNone, MatchOption, MatchBool};
ghost use Rattle.byteorder.specs.Endian.{big_bytes};
ghost use Rattle.mt_crc.specs.Crc.{crc_bytes};
ghost use Rattle.mt_block.specs.Blocks.{head_bytes, head_crc as head_crc_of, HasHead, HasNoHeadIn, HasNoHead, HasSomeHead, IsNext, IsCut, IsBroken};

use byteorder::{BigEndian, ByteOrder};
use mt_crc::{crc32c, crc32c_append};

/// The most bytes of a body.
pub const MOST_BODY: u32 = 8_388_608;

/// The most bytes of a body of a log that is written, unless one record alone has more. Damage within a block costs all of
/// its records, so blocks are small.
pub const SMALL_BODY: u32 = 32_768;

/// The number of bytes of a head.
const HEAD_BYTES: usize = 12;

/// The number of bytes of a block without its body.
pub const FRAME_BYTES: usize = 16;

/// Returns the body of the block at the front, and the bytes after the block. Returns None if the bytes are empty or the
/// beginning of a block.
/// Err: they are neither, and begin with no block. The log goes on if a head stands in the bytes returned, which are those after what is broken.
pub fn next_block(mark: u32, bytes: &[u8]) -> Result<Option<(&[u8], &[u8])>, &[u8]>
    ensures found { IfOk result (λ found. MatchOption found
        ((bytes.now ≡ []) ⊎ IsCut mark bytes.now)
        (λ x. IsNext mark bytes.now x.0.now x.1.now)) }
    ensures broken { IfErr result (λ behind. IsBroken mark bytes.now behind.now) }
{
    let Some((number, rest)) = head_at(mark, bytes) else {
        if bytes.len() < HEAD_BYTES {
            return Ok(None);
        }
        return Err(&bytes[1..]);
    };
    let Some((body, rest)) = split(rest, number as usize) else {
        return Ok(None);
    };
    let Some((_, behind)) = split(rest, 4) else {
        return Ok(None);
    };
    let crc = crc32c_append(head_crc(mark, number), body);
    match after_crc(crc, rest) {
        Some(after) => Ok(Some((body, after))),
        None => Err(behind),
    }
}

/// Returns how many bytes the unfinished block in `held` asks for: those of a head, and once that is held, those of the block.
pub fn block_wanted(mark: u32, held: &[u8]) -> usize
    ensures head { (head : HasHead mark held.now) → result ≡ head.number + 16 }
    ensures none { ¬ (HasHead mark held.now) → result ≡ 12 }
{
    match head_at(mark, held) {
        Some((number, _)) => number as usize + FRAME_BYTES,
        None => HEAD_BYTES,
    }
}

/// Returns the first place at which a head stands, or the number of bytes if none stands anywhere.
pub fn find_head(mark: u32, bytes: &[u8]) -> usize
    ensures within { result ≤ length bytes.now }
    ensures first { HasNoHeadIn mark bytes.now result }
    ensures found { (drop result bytes.now ≡ []) ⊎ HasHead mark (drop result bytes.now) }
{
    for at in 0..bytes.len() {
        if has_head(mark, &bytes[at..]) {
            return at;
        }
    }
    bytes.len()
}

/// Returns whether a head stands anywhere.
pub fn has_some_head(mark: u32, bytes: &[u8]) -> bool
    ensures { MatchBool result (HasSomeHead mark bytes.now) (HasNoHead mark bytes.now) }
{
    find_head(mark, bytes) < bytes.len()
}

/// Returns whether a head stands at the front.
fn has_head(mark: u32, bytes: &[u8]) -> bool
    ensures { IsTrue result ↔ HasHead mark bytes.now }
{
    head_at(mark, bytes).is_some()
}

/// Returns the length of the body of the head at the front, and the bytes after the head. Returns None if no head stands
/// there.
fn head_at(mark: u32, bytes: &[u8]) -> Option<(u32, &[u8])>
    ensures found { IfSome result (λ x. (x.0 ≤ MOST_BODY) × (bytes.now ≡ head_bytes mark x.0 ++ x.1.now)) }
    ensures none { IfNone result (HasHead mark bytes.now → ⊥) }
{
    let rest = after_crc(mark, bytes)?;
    let (number, rest) = u32_at(rest)?;
    let after = after_crc(head_crc(mark, number), rest)?;
    if number > MOST_BODY {
        return None;
    }
    Some((number, after))
}

/// Returns the checksum of a head.
pub fn head_crc(mark: u32, number: u32) -> u32
    ensures { result ≡ head_crc_of mark number }
{
    crc32c_append(crc32c(&mark.to_le_bytes()), &number.to_be_bytes())
}

/// Returns the bytes after this checksum. Returns None if they do not begin with it.
pub fn after_crc(crc: u32, bytes: &[u8]) -> Option<&[u8]>
    ensures found { IfSome result (λ rest. bytes.now ≡ crc_bytes crc ++ rest.now) }
    ensures none { IfNone result ((more : List ℕ) → bytes.now ≢ crc_bytes crc ++ more) }
{
    bytes.strip_prefix(&crc.to_le_bytes())
}

/// Returns the bytes after this front. Returns None if they do not begin with it.
pub fn after<'a>(front: &[u8], bytes: &'a [u8]) -> Option<&'a [u8]>
    ensures found { IfSome result (λ rest. bytes.now ≡ front.now ++ rest.now) }
    ensures none { IfNone result ((more : List ℕ) → bytes.now ≢ front.now ++ more) }
{
    bytes.strip_prefix(front)
}

/// Returns the first bytes, and those after them. Returns None if there are fewer.
pub fn split(bytes: &[u8], at: usize) -> Option<(&[u8], &[u8])>
    ensures found { IfSome result (λ x. (bytes.now ≡ x.0.now ++ x.1.now) × (length x.0.now ≡ at)) }
    ensures none { IfNone result (length bytes.now < at) }
{
    bytes.split_at_checked(at)
}

/// Reads a number of four bytes. Returns None if there are fewer.
pub fn u32_at(bytes: &[u8]) -> Option<(u32, &[u8])>
    ensures found { IfSome result (λ x. (x.0 < 2 ^ 32) × (bytes.now ≡ big_bytes 4 x.0 ++ x.1.now)) }
    ensures none { IfNone result (length bytes.now < 4) }
{
    let rest = bytes.get(4..)?;
    Some((BigEndian::read_u32(bytes), rest))
}
