//! Writes to buffers of the caller.
ghost use Rattle.std.specs.Prelude.{◌≡◌, ◌≢◌, ◌≤◌, ◌+◌, ◌^◌, ◌⊎◌, ◌++◌, length};
ghost use Rattle.mt_c.specs.declared.status.TheConstants.{DONE, MEMORY, SHORT, WRONG};
ghost use Rattle.mt_c.specs.Buffers.{Writes};

use crate::status::{DONE, MEMORY, SHORT};

/// Writes the bytes to the beginning of `out` if they have room there, and their number to `count`.
pub fn write_bytes(bytes: &[u8], out: &mut [u8], count: &mut usize) -> u32
    ensures written { Writes bytes.now out.old out.new count.new result }
    ensures accepted { result ≢ WRONG }
    ensures certain { (result ≡ DONE) ⊎ (result ≡ SHORT) }
{
    *count = bytes.len();
    if bytes.len() > out.len() {
        return SHORT;
    }
    out[..bytes.len()].copy_from_slice(bytes);
    DONE
}

/// Writes these three pieces, one after the other, as `write_bytes` does. `MEMORY`: no buffer has room for as many bytes.
pub fn write_joined(
    first: &[u8],
    second: &[u8],
    third: &[u8],
    out: &mut [u8],
    count: &mut usize,
) -> u32
    ensures written { result ≢ MEMORY → Writes (first.now ++ (second.now ++ third.now)) out.old out.new count.new result }
    ensures kept { result ≢ DONE → out.new ≡ out.old }
    ensures memory { result ≡ MEMORY → 2 ^ 64 ≤ length first.now + (length second.now + length third.now) }
    ensures certain { (result ≡ DONE) ⊎ ((result ≡ SHORT) ⊎ (result ≡ MEMORY)) }
{
    let Some(front) = first.len().checked_add(second.len()) else {
        return MEMORY;
    };
    let Some(whole) = front.checked_add(third.len()) else {
        return MEMORY;
    };
    *count = whole;
    if whole > out.len() {
        return SHORT;
    }
    let (start, rest) = out.split_at_mut(first.len());
    start.copy_from_slice(first);
    let (middle, rest) = rest.split_at_mut(second.len());
    middle.copy_from_slice(second);
    rest[..third.len()].copy_from_slice(third);
    DONE
}
