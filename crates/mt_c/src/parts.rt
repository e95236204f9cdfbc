//! Parts of checkpoints: headers, entries and footers.
ghost use Rattle.std.specs.Prelude.{◌≡◌, ◌≢◌, ◌∷◌, [], map, IsSome, IfSome};
ghost use Rattle.mt_words.specs.Built.{entry_of};
ghost use Rattle.mt_record.specs.Given.{column_of};
ghost use Rattle.mt_record.specs.Parts.{part_head, part_head_bytes, entry_spelling, footer_bytes};
ghost use Rattle.mt_c.specs.declared.status.TheConstants.{DONE, MEMORY, WRONG, SHORT};
ghost use Rattle.mt_c.specs.Buffers.{Writes};
ghost use Rattle.mt_c.specs.Formats.{format_of, FitsPart};
ghost use Rattle.mt_c.specs.Statuses.{IsOneOf, IsRefusedUnless};

use crate::buffer::write_bytes;
use crate::formats::{entries_of, format_of};
use crate::given::write_entry;
use crate::status::{MEMORY, WRONG};
use mt_record::{Given, GivenChange, GivenKind, PartHead, encode_part_footer, encode_part_header};
use std::alloc::Global;

/// Writes the header of a part of this format to the beginning of `out`, and its length to `count`. It is part `part` of
/// the `parts` parts of checkpoint `number`, which begins at the timestamp `begin`. `WRONG`: the format is neither 1 nor 2.
#[unsafe(no_mangle)]
pub extern "C" fn mtr_part_header(
    alloc: Global,
    format: u32,
    number: u32,
    begin: u64,
    part: u16,
    parts: u16,
    out: &mut [u8],
    count: &mut usize,
) -> u32
    ensures written { IfSome (format_of format) (λ kind. Writes (part_head_bytes (part_head kind number begin part parts)) out.old out.new count.new result) }
    ensures kept { result ≢ DONE → out.new ≡ out.old }
    ensures certain { IsOneOf (DONE ∷ MEMORY ∷ WRONG ∷ SHORT ∷ []) result }
    ensures refused { IsRefusedUnless (IsSome (format_of format)) result }
    ensures untold { result ≢ DONE → result ≢ SHORT → count.new ≡ count.old }
{
    let Some(format) = format_of(format) else {
        return WRONG;
    };
    let head = PartHead {
        format,
        number,
        begin,
        part,
        parts,
    };
    let mut bytes = Vec::new(alloc);
    match encode_part_header(head, &mut bytes) {
        Ok(()) => write_bytes(&bytes, out, count),
        Err(_) => MEMORY,
    }
}

/// Writes the entry of a key with these columns to the beginning of `out`, and its length to `count`. `WRONG`: there is
/// no part of this format, or it may not have the entry.
#[unsafe(no_mangle)]
pub extern "C" fn mtr_entry(
    format: u32,
    version: u64,
    key: &[u8],
    columns: &[Given<'_>],
    out: &mut [u8],
    count: &mut usize,
) -> u32
    ensures written { Writes (entry_spelling (entry_of version key.now (map column_of columns.now))) out.old out.new count.new result }
    ensures certain { IsOneOf (DONE ∷ WRONG ∷ SHORT ∷ []) result }
    ensures refused { IsRefusedUnless (FitsPart format (entry_of version key.now (map column_of columns.now))) result }
    ensures untold { result ≢ DONE → result ≢ SHORT → count.new ≡ count.old }
{
    let Some(format) = entries_of(format) else {
        return WRONG;
    };
    let entry = GivenChange {
        version,
        key,
        kind: GivenKind::Whole(columns),
    };
    if !entry.fits(format) {
        return WRONG;
    }
    write_entry(entry, out, count)
}

/// Writes the footer of a part with `entries` entries to the beginning of `out`, and its length to `count`. The
/// checkpoint ends at the timestamp `end`.
#[unsafe(no_mangle)]
pub extern "C" fn mtr_part_footer(
    alloc: Global,
    end: u64,
    entries: u32,
    out: &mut [u8],
    count: &mut usize,
) -> u32
    ensures written { Writes (footer_bytes end entries) out.old out.new count.new result }
    ensures certain { IsOneOf (DONE ∷ MEMORY ∷ SHORT ∷ []) result }
{
    let mut bytes = Vec::new(alloc);
    match encode_part_footer(end, entries, &mut bytes) {
        Ok(()) => write_bytes(&bytes, out, count),
        Err(_) => MEMORY,
    }
}
