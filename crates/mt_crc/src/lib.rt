//! CRC32C, the checksum of iSCSI, ext4 and RocksDB.
//!
//! Bytes are a polynomial over two elements, and their checksum is its remainder by Castagnoli's polynomial:
//!
//! ```text
//! byte 0          byte 1               last byte       checksum, the lowest byte first
//! bit 0 .. bit 7  bit 0 .. bit 7  ..  bit 0 .. bit 7  bit 0        ..           bit 31
//! highest power of x                                                                 1
//! ```
//!
//! The checksum's bits go on where those of the bytes end, so a burst of errors across the seam is still one burst.
//!
//! ```
//! let whole = crc32c(b"123456789");
//! // The same, in chunks.
//! let chunked = crc32c_append(crc32c(b"1234"), b"56789");
//! ```
//!
//! Begin with `specs/Crc.antt`, which says bit by bit what a checksum is, and with `laws.rt`, which says what it shows.
#![tactic(auto)]

mod laws;
mod tables;

ghost use Rattle.std.specs.Prelude.{◌≡◌, ◌+◌, ◌*◌, ◌<◌, ◌≤◌, ◌++◌, bit_xor};
ghost use Rattle.mt_crc.specs.Crc.{shifts, remainder, crc32c, crc32c_append};

use crate::tables::TABLES;
pub use laws::{
    a_burst_changes_the_checksum, an_odd_change_changes_the_checksum,
    chunks_have_the_same_checksum, no_change_makes_a_codeword,
};

/// Returns the checksum of the bytes.
pub fn crc32c(bytes: &[u8]) -> u32
    ensures { result ≡ crc32c bytes.now }
{
    crc32c_append(0, bytes)
}

/// Returns the checksum of bytes and then these bytes, from the checksum of the former. That of no bytes is 0.
pub fn crc32c_append(crc: u32, bytes: &[u8]) -> u32
    ensures { result ≡ crc32c_append crc bytes.now }
{
    remainder(crc ^ u32::MAX, bytes) ^ u32::MAX
}

/// Returns the remainder after these bytes, from the remainder before them.
fn remainder(before: u32, bytes: &[u8]) -> u32
    ensures { result ≡ remainder before bytes.now }
{
    let mut state = before;
    let mut rest = bytes;
    'pairs: while let Some((first, behind)) = rest.split_first_chunk::<8>() {
        let Some((second, more)) = behind.split_first_chunk::<8>() else {
            break 'pairs;
        };
        state = after_pair(state, first, second);
        rest = more;
    }
    after_each(state, rest)
}

/// Returns the remainder after these bytes, one by one.
fn after_each(before: u32, bytes: &[u8]) -> u32
    ensures { result ≡ remainder before bytes.now }
{
    let mut state = before;
    for byte in bytes {
        state = after_byte(state, *byte);
    }
    state
}

/// Returns the remainder after one byte.
#[inline(always)]
fn after_byte(state: u32, byte: u8) -> u32
    ensures { result ≡ shifts 8 (bit_xor state byte) }
{
    let sum = state ^ u32::from(byte);
    let [low, _, _, _] = sum.to_le_bytes();
    (sum >> 8) ^ looked_up(0, low)
}

/// Returns the remainder after two times eight bytes.
#[inline(always)]
fn after_pair(state: u32, first: &[u8; 8], second: &[u8; 8]) -> u32
    ensures { result ≡ remainder state (first.now ++ second.now) }
{
    let first = u64::from(state) ^ u64::from_le_bytes(*first);
    shifted_out(8, first) ^ shifted_out(0, u64::from_le_bytes(*second))
}

/// Returns the remainder of a number before `zeros` bytes that are 0: the exclusive or of those of its bytes.
#[inline(always)]
fn shifted_out(zeros: usize, word: u64) -> u32
    requires { zeros ≤ 8 }
    ensures { result ≡ shifts (8 * zeros + 64) word }
{
    let [a, b, c, d, e, f, g, h] = word.to_le_bytes();
    looked_up(zeros, h)
        ^ looked_up(zeros + 1, g)
        ^ looked_up(zeros + 2, f)
        ^ looked_up(zeros + 3, e)
        ^ looked_up(zeros + 4, d)
        ^ looked_up(zeros + 5, c)
        ^ looked_up(zeros + 6, b)
        ^ looked_up(zeros + 7, a)
}

/// Returns the remainder of the byte before `zeros` bytes that are 0.
#[inline(always)]
fn looked_up(zeros: usize, byte: u8) -> u32
    requires { zeros < 16 }
    ensures { result ≡ shifts (8 * zeros + 8) byte }
{
    TABLES[zeros][byte as usize]
}

#[cfg(test)]
mod tests {
    use super::{crc32c, crc32c_append};

    const RISING: &[u8] = b"\x00\x01\x02\x03\x04\x05\x06\x07\x08\x09\x0a\x0b\x0c\x0d\x0e\x0f\
        \x10\x11\x12\x13\x14\x15\x16\x17\x18\x19\x1a\x1b\x1c\x1d\x1e\x1f";

    const FALLING: &[u8] = b"\x1f\x1e\x1d\x1c\x1b\x1a\x19\x18\x17\x16\x15\x14\x13\x12\x11\x10\
        \x0f\x0e\x0d\x0c\x0b\x0a\x09\x08\x07\x06\x05\x04\x03\x02\x01\x00";
    // An iSCSI command that reads.
    const READ: &[u8] = b"\x01\xc0\x00\x00\x00\x00\x00\x00\x00\x00\x00\x00\x00\x00\x00\x00\
        \x14\x00\x00\x00\x00\x00\x04\x00\x00\x00\x00\x14\x00\x00\x00\x18\
        \x28\x00\x00\x00\x00\x00\x00\x00\x02\x00\x00\x00\x00\x00\x00\x00";

    // RFC 3720, B.4, and the check value of CRC-32C.
    #[test]
    fn known_checksums(rt: HostRuntime) {
        assert_eq!(&rt; crc32c(b"123456789"), 0xe306_9283);
        assert_eq!(&rt; crc32c(&[0; 32]), 0x8a91_36aa);
        assert_eq!(&rt; crc32c(&[0xff; 32]), 0x62a8_ab43);
        assert_eq!(&rt; crc32c(RISING), 0x46dd_794e);
        assert_eq!(&rt; crc32c(FALLING), 0x113f_db5c);
        assert_eq!(&rt; crc32c(READ), 0xd996_3a56);
        assert_eq!(&rt; crc32c_append(crc32c(b"1234"), b"56789"), 0xe306_9283);
    }
}
