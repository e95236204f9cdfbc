//! Slices of keys.
ghost use Rattle.std.specs.Prelude.{◌≡◌, drop, slice_index};
ghost use Rattle.mt_words.specs.Slices.{AreBytes, slice_in, slice_bytes};

use byteorder::{BigEndian, ByteOrder};

/// Returns the slice of a key: its first eight bytes as a big-endian number, with zeros for missing bytes. Keys with
/// different slices are in the order of their slices.
pub fn slice_of(key: &[u8]) -> u64
    ensures value { result ≡ slice_in key.now }
    ensures bytes { AreBytes key.now }
{
    if key.len() < 8 {
        return short_slice(key);
    }
    BigEndian::read_u64(key)
}

/// Returns the slice of the key's bytes from offset `at` on.
pub fn slice_at(key: &[u8], at: usize) -> u64
    ensures { result ≡ slice_in (drop at key.now) }
{
    if key.len() <= at {
        return 0;
    }
    slice_of(&key[at..])
}

/// Returns the eight bytes of a slice, the most significant first.
pub fn slice_bytes(slice: u64) -> [u8; 8]
    ensures { result ≡ slice_bytes slice }
{
    slice.to_be_bytes()
}

/// Returns the slice of a key that may have fewer than eight bytes.
fn short_slice(key: &[u8]) -> u64
    ensures { result ≡ slice_in key.now }
{
    u64::from_be_bytes([
        byte_at(key, 0),
        byte_at(key, 1),
        byte_at(key, 2),
        byte_at(key, 3),
        byte_at(key, 4),
        byte_at(key, 5),
        byte_at(key, 6),
        byte_at(key, 7),
    ])
}

/// Returns the byte at this offset, or zero if there is none.
fn byte_at(key: &[u8], at: usize) -> u8
    ensures { result ≡ slice_index key.now at }
{
    if at < key.len() { key[at] } else { 0 }
}
