//! Headers of logs.
ghost use Rattle.std.specs.Prelude.{◌≡◌, ◌≢◌, ◌∷◌, [], IsSome, IfSome};
ghost use Rattle.mt_record.specs.Heads.{head_bytes};
ghost use Rattle.mt_record.specs.Encoding.{head_of, segment_head};
ghost use Rattle.mt_c.specs.declared.status.TheConstants.{DONE, MEMORY, WRONG, SHORT};
ghost use Rattle.mt_c.specs.Buffers.{Writes};
ghost use Rattle.mt_c.specs.Formats.{format_of};
ghost use Rattle.mt_c.specs.Statuses.{IsOneOf, IsRefusedUnless};

use crate::buffer::write_bytes;
use crate::formats::format_of;
use crate::status::{MEMORY, WRONG};
use mt_record::{Head, Segment, encode_head};
use mt_words::Format;
use std::alloc::Global;

/// Writes the header of a log of this format, which is no segment, to the beginning of `out`, and its length to `count`.
/// Updates below the timestamp `from` may be missing from the log. `WRONG`: the format is neither 1 nor 2.
#[unsafe(no_mangle)]
pub extern "C" fn mtr_log_header(
    alloc: Global,
    format: u32,
    from: u64,
    out: &mut [u8],
    count: &mut usize,
) -> u32
    ensures written { IfSome (format_of format) (λ kind. Writes (head_bytes (head_of kind from)) out.old out.new count.new result) }
    ensures kept { result ≢ DONE → out.new ≡ out.old }
    ensures certain { IsOneOf (DONE ∷ MEMORY ∷ WRONG ∷ SHORT ∷ []) result }
    ensures refused { IsRefusedUnless (IsSome (format_of format)) result }
    ensures untold { result ≢ DONE → result ≢ SHORT → count.new ≡ count.old }
{
    let Some(format) = format_of(format) else {
        return WRONG;
    };
    let head = Head {
        format,
        from,
        segment: None,
    };
    write_header(alloc, head, out, count)
}

/// Writes the header of a segment of a worker's log, which is of format 3, likewise.
#[unsafe(no_mangle)]
pub extern "C" fn mtr_segment_header(
    alloc: Global,
    from: u64,
    worker: u32,
    segment: u32,
    out: &mut [u8],
    count: &mut usize,
) -> u32
    ensures written { Writes (head_bytes (segment_head from worker segment)) out.old out.new count.new result }
    ensures certain { IsOneOf (DONE ∷ MEMORY ∷ SHORT ∷ []) result }
{
    let segment = Segment {
        worker,
        number: segment,
    };
    let head = Head {
        format: Format::Two,
        from,
        segment: Some(segment),
    };
    write_header(alloc, head, out, count)
}

/// Writes the header to the beginning of `out`, and its length to `count`.
fn write_header(alloc: Global, head: Head, out: &mut [u8], count: &mut usize) -> u32
    ensures written { Writes (head_bytes head) out.old out.new count.new result }
    ensures certain { IsOneOf (DONE ∷ MEMORY ∷ SHORT ∷ []) result }
    ensures untold { result ≢ DONE → result ≢ SHORT → count.new ≡ count.old }
{
    match encode_head(alloc, head) {
        Ok(bytes) => write_bytes(&bytes, out, count),
        Err(_) => MEMORY,
    }
}
