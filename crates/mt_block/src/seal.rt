//! Seals bytes: makes blocks of them.
ghost use Rattle.std.specs.Prelude.{◌≡◌, ◌++◌, List, ℕ, OnOk};
ghost use Rattle.mt_block.specs.Sealing.{IsSealing};

use crate::block::{MOST_BODY, split};
use crate::frame::append_block;
use std::alloc::AllocError;

/// Appends blocks with these bytes, in the file with this mark: as many as there are with `MOST_BODY` bytes, and one with
/// what is left, if anything is. Err: out of memory; some of the blocks may be appended.
pub fn append_blocks(mark: u32, bytes: &[u8], out: &mut Vec<u8>) -> Result<(), AllocError>
    ensures { OnOk result ((sealed : List ℕ) × IsSealing mark bytes.now sealed × (out.new.items ≡ out.old.items ++ sealed)) }
{
    let mut rest = bytes;
    'full: while let Some((body, after)) = split(rest, MOST_BODY as usize) {
        append_block(mark, body, out)?;
        rest = after;
    }
    if rest.is_empty() {
        return Ok(());
    }
    append_block(mark, rest, out)
}
