//! Reads fields from the front of bytes. Each function also returns the bytes after the field. Nothing is copied.
ghost use Rattle.std.specs.Prelude.{◌≡◌, ◌<◌, ◌^◌, ◌++◌, List, ℕ, length, IfSome, IfNone};
ghost use Rattle.byteorder.specs.Endian.{big_bytes};
ghost use Rattle.mt_record.specs.Spelling.{with_length};

use byteorder::{BigEndian, ByteOrder};

/// Reads a number of two bytes. Returns None if there are fewer.
pub fn u16_at(bytes: &[u8]) -> Option<(u16, &[u8])>
    ensures found { IfSome result (λ x. (x.0 < 2 ^ 16) × (bytes.now ≡ big_bytes 2 x.0 ++ x.1.now)) }
    ensures none { IfNone result (length bytes.now < 2) }
{
    let rest = bytes.get(2..)?;
    Some((BigEndian::read_u16(bytes), rest))
}

/// Reads a number of four bytes. Returns None if there are fewer.
pub fn u32_at(bytes: &[u8]) -> Option<(u32, &[u8])>
    ensures found { IfSome result (λ x. (x.0 < 2 ^ 32) × (bytes.now ≡ big_bytes 4 x.0 ++ x.1.now)) }
    ensures none { IfNone result (length bytes.now < 4) }
{
    let rest = bytes.get(4..)?;
    Some((BigEndian::read_u32(bytes), rest))
}

/// Reads a number of eight bytes. Returns None if there are fewer.
pub fn u64_at(bytes: &[u8]) -> Option<(u64, &[u8])>
    ensures found { IfSome result (λ x. (x.0 < 2 ^ 64) × (bytes.now ≡ big_bytes 8 x.0 ++ x.1.now)) }
    ensures none { IfNone result (length bytes.now < 8) }
{
    let rest = bytes.get(8..)?;
    Some((BigEndian::read_u64(bytes), rest))
}

/// Reads a length of two bytes, and that many bytes after it. Returns None if there are fewer.
pub fn counted_at(bytes: &[u8]) -> Option<(&[u8], &[u8])>
    ensures found { IfSome result
        (λ x. (length x.0.now < 2 ^ 16) × (bytes.now ≡ with_length x.0.now ++ x.1.now)) }
    ensures none { IfNone result
        ((front more : List ℕ) → length front < 2 ^ 16 → bytes.now ≡ with_length front ++ more → ⊥) }
{
    let (length, rest) = u16_at(bytes)?;
    rest.split_at_checked(length as usize)
}
