//! Encodes parts of checkpoints.
ghost use Rattle.std.specs.Prelude.{◌≡◌, ◌<◌, ◌^◌, ◌++◌, length, All, OnOk, OnErr};
ghost use Rattle.std.specs.List.{flat_map};
ghost use Rattle.std.specs.Io.{StartsWith};
ghost use Rattle.mt_words.specs.declared.limits.Format.TheVariants.{One, Two};
ghost use Rattle.mt_words.specs.Limits.{limits_of};
ghost use Rattle.mt_words.specs.Changes.{IsEntry};
ghost use Rattle.mt_record.specs.Spelling.{change_bytes};
ghost use Rattle.mt_record.specs.Parts.{part_head, part_head_bytes, part_bytes, entry_spelling, footer_bytes};
ghost use Rattle.mt_record.specs.PartTexts.{IsEntryLength};

use crate::encode::put::{put_bytes, put_magic};
use crate::encode::{change_length, put_change};
use crate::feed::part_head::{FOOTER_BYTES, PART, PART_HEADER_BYTES};
use crate::part_text::PartHead;
use mt_words::{Entry, Format, Memory};

/// Appends a part of format 1: part `part` of the `parts` parts of checkpoint `number`, with these entries. The
/// checkpoint begins at the timestamp `begin` and ends at the timestamp `end`. There must be fewer than 2^32 entries,
/// and format 1 must allow each. Whether the parts make a valid checkpoint is not checked.
/// Err: out of memory; nothing is appended.
pub fn encode_part(
    number: u32,
    begin: u64,
    part: u16,
    parts: u16,
    end: u64,
    entries: &[Entry],
    out: &mut Vec<u8>,
) -> Result<(), Memory>
    requires few { length entries.now < 2 ^ 32 }
    requires fit { All (IsEntry (limits_of One)) entries.now }
    ensures ok { OnOk result (out.new.items ≡
        out.old.items ++ part_bytes (part_head One number begin part parts) entries.now end) }
    ensures err { OnErr result (out.new.items ≡ out.old.items) }
{
    let head = PartHead {
        format: Format::One,
        number,
        begin,
        part,
        parts,
    };
    append_part(head, end, entries, out)
}

/// Appends a part of format 2, which allows any entry. Otherwise it does the same as `encode_part`.
/// Err: out of memory; nothing is appended.
pub fn encode_part_2(
    number: u32,
    begin: u64,
    part: u16,
    parts: u16,
    end: u64,
    entries: &[Entry],
    out: &mut Vec<u8>,
) -> Result<(), Memory>
    requires { length entries.now < 2 ^ 32 }
    ensures ok { OnOk result (out.new.items ≡
        out.old.items ++ part_bytes (part_head Two number begin part parts) entries.now end) }
    ensures err { OnErr result (out.new.items ≡ out.old.items) }
{
    let head = PartHead {
        format: Format::Two,
        number,
        begin,
        part,
        parts,
    };
    append_part(head, end, entries, out)
}

/// Appends the part with this header. Err: out of memory; nothing is appended.
fn append_part(head: PartHead, end: u64, entries: &[Entry], out: &mut Vec<u8>) -> Result<(), Memory>
    requires { length entries.now < 2 ^ 32 }
    ensures ok { OnOk result (out.new.items ≡ out.old.items ++ part_bytes head entries.now end) }
    ensures err { OnErr result (out.new.items ≡ out.old.items) }
{
    let start = out.len();
    encode_part_header(head, out)?;
    let outcome = append_rest(end, entries, out);
    if outcome.is_err() {
        out.truncate(start);
    }
    outcome
}

/// Appends the header of a part. Err: out of memory; nothing is appended.
pub fn encode_part_header(head: PartHead, out: &mut Vec<u8>) -> Result<(), Memory>
    ensures ok { OnOk result (out.new.items ≡ out.old.items ++ part_head_bytes head) }
    ensures err { OnErr result (out.new.items ≡ out.old.items) }
{
    out.reserve(PART_HEADER_BYTES)?;
    put_magic(PART, head.format, out);
    put_bytes(&head.number.to_be_bytes(), out);
    put_bytes(&head.begin.to_be_bytes(), out);
    put_bytes(&head.part.to_be_bytes(), out);
    put_bytes(&head.parts.to_be_bytes(), out);
    Ok(())
}

/// Appends what follows the header: the entries and the footer. Err: out of memory; some of it may be appended.
fn append_rest(end: u64, entries: &[Entry], out: &mut Vec<u8>) -> Result<(), Memory>
    requires { length entries.now < 2 ^ 32 }
    ensures ok { OnOk result (out.new.items ≡
        out.old.items ++ (flat_map entry_spelling entries.now ++ footer_bytes end (length entries.now))) }
    ensures front { StartsWith out.new.items out.old.items }
{
    for entry in entries {
        encode_entry(entry, out)?;
    }
    encode_part_footer(end, entries.len() as u32, out)
}

/// Appends the entry of a part, of either format. Err: out of memory; nothing is appended.
pub fn encode_entry(entry: &Entry, out: &mut Vec<u8>) -> Result<(), Memory>
    ensures ok { OnOk result (out.new.items ≡ out.old.items ++ entry_spelling entry.now) }
    ensures err { OnErr result (out.new.items ≡ out.old.items) }
{
    let length = entry_length(entry) as u32;
    out.reserve(4 + length as usize + 4)?;
    put_bytes(&length.to_be_bytes(), out);
    put_change(entry.change(), out);
    put_bytes(&length.to_be_bytes(), out);
    Ok(())
}

/// Returns the number of bytes of the entry's fields.
fn entry_length(entry: &Entry) -> usize
    ensures value { result ≡ length (change_bytes entry.now) }
    ensures lawful { IsEntryLength (limits_of Two) result }
{
    change_length(entry.change())
}

/// Appends the footer of a part with `count` entries, whose checkpoint ends at the timestamp `end`.
/// Err: out of memory; nothing is appended.
pub fn encode_part_footer(end: u64, count: u32, out: &mut Vec<u8>) -> Result<(), Memory>
    ensures ok { OnOk result (out.new.items ≡ out.old.items ++ footer_bytes end count) }
    ensures err { OnErr result (out.new.items ≡ out.old.items) }
{
    out.reserve(FOOTER_BYTES)?;
    put_bytes(&[0; 4], out);
    put_bytes(&end.to_be_bytes(), out);
    put_bytes(&count.to_be_bytes(), out);
    Ok(())
}
