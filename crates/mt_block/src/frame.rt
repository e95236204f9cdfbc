//! Makes blocks.
ghost use Rattle.std.specs.Prelude.{◌≡◌, ◌≤◌, ◌++◌, length, OnOk, OnErr};
ghost use Rattle.mt_block.specs.Adding.{HasRoom, Adds};
ghost use Rattle.mt_block.specs.Blocks.{block, head_bytes, IsBody};

use crate::block::{FRAME_BYTES, MOST_BODY, head_crc};
use mt_crc::crc32c_append;
use std::alloc::AllocError;

/// What stands before and after the body of a block.
#[derive(Clone, Copy, Debug)]
pub struct Frame {
    pub head: [u8; 12],
    pub check: [u8; 4],
}

/// Returns the frame of a block with this body, in the file with this mark.
pub fn frame_of(mark: u32, body: &[u8]) -> Frame
    requires { length body.now ≤ MOST_BODY }
    ensures block { result.head ++ (body.now ++ result.check) ≡ block mark body.now }
    ensures body { IsBody body.now }
{
    let number = body.len() as u32;
    let check = crc32c_append(head_crc(mark, number), body).to_le_bytes();
    Frame {
        head: head_of(mark, number),
        check,
    }
}

/// Appends a block with this body. Err: out of memory; nothing is appended.
pub fn append_block(mark: u32, body: &[u8], out: &mut Vec<u8>) -> Result<(), AllocError>
    requires { length body.now ≤ MOST_BODY }
    ensures ok { OnOk result (out.new.items ≡ out.old.items ++ block mark body.now) }
    ensures err { OnErr result (out.new.items ≡ out.old.items) }
    ensures body { IsBody body.now }
{
    let frame = frame_of(mark, body);
    out.reserve(FRAME_BYTES + body.len())?;
    put(&frame.head, out);
    put(body, out);
    put(&frame.check, out);
    Ok(())
}

/// Returns the head of a block with a body of this many bytes.
fn head_of(mark: u32, number: u32) -> [u8; 12]
    ensures { result ≡ head_bytes mark number }
{
    let [a, b, c, d] = mark.to_le_bytes();
    let [e, f, g, h] = number.to_be_bytes();
    let [i, j, k, l] = head_crc(mark, number).to_le_bytes();
    [a, b, c, d, e, f, g, h, i, j, k, l]
}

/// Appends bytes, for which there is room.
fn put(bytes: &[u8], out: &mut Vec<u8>)
    requires { HasRoom (length bytes.now) out.old }
    ensures { Adds bytes.now out.old out.new }
{
    let Ok(()) = out.extend_from_slice(bytes) else {
        unreachable!();
    };
}
