//! Files of format 4: headers, and blocks.
ghost use Rattle.std.specs.Prelude.{◌≡◌, ◌≢◌, ◌≤◌, ◌∷◌, [], length};
ghost use Rattle.mt_block.specs.declared.block.TheConstants.{MOST_BODY};
ghost use Rattle.mt_block.specs.Blocks.{block, header_bytes, mark_of};
ghost use Rattle.mt_block.specs.Parts.{part_header_bytes, part_mark};
ghost use Rattle.mt_c.specs.declared.status.TheConstants.{DONE, MEMORY, WRONG, SHORT};
ghost use Rattle.mt_c.specs.Buffers.{Writes};
ghost use Rattle.mt_c.specs.Formats.{log_header_4, part_header_4};
ghost use Rattle.mt_c.specs.Statuses.{IsOneOf, IsRefusedUnless};

use crate::buffer::{write_bytes, write_joined};
use crate::status::{MEMORY, WRONG};
use mt_block::{Header, MOST_BODY, PartHeader, frame_of};
use std::alloc::Global;

/// Writes the header of a log of format 4, which is a segment of a worker's log, to the beginning of `out`, its length to
/// `count`, and the mark of its blocks to `mark`. `salt` is a number that no other file has, and `workers` the number of
/// workers of the server.
#[unsafe(no_mangle)]
pub extern "C" fn mtr_log_header_4(
    alloc: Global,
    salt: u64,
    worker: u32,
    segment: u32,
    workers: u32,
    from: u64,
    out: &mut [u8],
    count: &mut usize,
    mark: &mut u32,
) -> u32
    ensures written { Writes (header_bytes (log_header_4 salt worker segment workers from)) out.old out.new count.new result }
    ensures mark { result ≢ MEMORY → mark.new ≡ mark_of (log_header_4 salt worker segment workers from) }
    ensures certain { IsOneOf (DONE ∷ MEMORY ∷ SHORT ∷ []) result }
    ensures untold { result ≡ MEMORY → (count.new ≡ count.old) × (mark.new ≡ mark.old) }
{
    let header = Header {
        salt,
        worker,
        segment,
        workers,
        from,
    };
    match header.bytes(alloc) {
        Ok(bytes) => {
            *mark = header.mark();
            write_bytes(&bytes, out, count)
        }
        Err(_) => MEMORY,
    }
}

/// Writes the header of a part of format 4 to the beginning of `out`, its length to `count`, and the mark of its blocks to
/// `mark`. It is part `part` of the `parts` parts of checkpoint `number`, which begins at the timestamp `begin`.
#[unsafe(no_mangle)]
pub extern "C" fn mtr_part_header_4(
    alloc: Global,
    salt: u64,
    number: u32,
    begin: u64,
    part: u16,
    parts: u16,
    out: &mut [u8],
    count: &mut usize,
    mark: &mut u32,
) -> u32
    ensures written { Writes (part_header_bytes (part_header_4 salt number begin part parts)) out.old out.new count.new result }
    ensures mark { result ≢ MEMORY → mark.new ≡ part_mark (part_header_4 salt number begin part parts) }
    ensures certain { IsOneOf (DONE ∷ MEMORY ∷ SHORT ∷ []) result }
    ensures untold { result ≡ MEMORY → (count.new ≡ count.old) × (mark.new ≡ mark.old) }
{
    let header = PartHeader {
        salt,
        number,
        part,
        parts,
        begin,
    };
    match header.bytes(alloc) {
        Ok(bytes) => {
            *mark = header.mark();
            write_bytes(&bytes, out, count)
        }
        Err(_) => MEMORY,
    }
}

/// Writes a block with this body, for the file with this mark, to the beginning of `out`, and its length to `count`.
/// `WRONG`: the body is too long for a block.
#[unsafe(no_mangle)]
pub extern "C" fn mtr_seal(mark: u32, body: &[u8], out: &mut [u8], count: &mut usize) -> u32
    ensures written { Writes (block mark body.now) out.old out.new count.new result }
    ensures certain { IsOneOf (DONE ∷ WRONG ∷ SHORT ∷ []) result }
    ensures refused { IsRefusedUnless (length body.now ≤ MOST_BODY) result }
    ensures untold { result ≡ WRONG → count.new ≡ count.old }
{
    if body.len() > MOST_BODY as usize {
        return WRONG;
    }
    let frame = frame_of(mark, body);
    write_joined(&frame.head, body, &frame.check, out, count)
}
