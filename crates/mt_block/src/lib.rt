//! Blocks with checksums, in which a file of format 4 stands.
//!
//! ```text
//! file    header | block | block | .. | end
//! header  "MTL4" | salt, 8 bytes | 0, 4 | worker, 4 | 0, 4 | segment, 4 | workers, 4 | from, 8 | checksum, 4
//! block   head | body | checksum of both, 4
//! head    mark of the file, 4 | length of the body, 4 | checksum of these, 4
//! ```
//!
//! Numbers are big-endian, checksums little-endian. The mark is the header's checksum. A block is what one write appends.
//! A part of a checkpoint is a header and blocks, with no end:
//!
//! ```text
//! header  "MTC4" | salt, 8 bytes | number, 4 | part, 2 | parts, 2 | 1, 4 | begin, 8 | checksum, 4
//! ```
//!
//! A crash leaves anything at the end: the beginning of a block, zeros, bytes of other files. So the log ends where no whole
//! block stands, unless a head stands further on: then this is damage. A head of this file stands nowhere by chance.
//!
//! Begin with `block.rt`, `specs/Blocks.antt` and `laws.rt`.
#![tactic(auto)]

mod block;
mod frame;
mod header;
mod laws;
mod part_header;
mod seal;
#[cfg(test)]
mod tests;

pub use block::{
    FRAME_BYTES, MOST_BODY, SMALL_BODY, block_wanted, find_head, has_some_head, next_block,
};
pub use frame::{Frame, append_block, frame_of};
pub use header::{Header, header_at};
pub use laws::{
    a_changed_bit_is_seen, a_changed_part_is_seen, damage_makes_no_older_log, one_file, some_file,
    what_a_crash_leaves,
};
pub use part_header::{PartHeader, part_header_at};
pub use seal::append_blocks;
