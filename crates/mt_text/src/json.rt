//! The text of headers, records and entries as JSON, an object a line.
ghost use Rattle.std.specs.Prelude.{◌≡◌, ◌++◌, List, ℕ, Some, None, OnOk, codes, decimal};
ghost use Rattle.std.specs.List.{flat_map};
ghost use Rattle.std.specs.Io.KnownBytes.{Appends};
ghost use Rattle.mt_words.specs.Changes.{IsLoggedChange};
ghost use Rattle.mt_text.specs.RecordJson.{after_comma, change_json, column_json, columns_json, end_json, format_json, format_number, hex_json, json_line, kind_json, listed, log_json, member, part_json, place_json, item_json, span_json, time_json};

use crate::digits::{write_decimal, write_hex};
use crate::placed::Placed;
use crate::words::verb_of;
use mt_record::{Head, PartHead, Segment};
use mt_words::{Change, Column, Format, Kind};
use std::io::{self, Write};

/// Prints the line of a log's header. Err: write error.
pub(crate) fn write_log_json<W: Write>(head: &Head, out: &mut W) -> io::Result<()>
    ensures { OnOk result (Appends (W.contents out.old) (W.contents out.new) (log_json head.now)) }
{
    write_name(b"{", b"log", out)?;
    write_name(b"{", b"from", out)?;
    write_decimal(head.from, out)?;
    write_name(b",", b"format", out)?;
    write_format(head.format, head.segment, out)?;
    out.write_all(b"}}\n")
}

/// Prints the line of a part's header, and where its checkpoint ends if the part has a footer. Err: write error.
pub(crate) fn write_part_json<W: Write>(
    head: &PartHead,
    end: Option<u64>,
    out: &mut W,
) -> io::Result<()>
    ensures { OnOk result (Appends (W.contents out.old) (W.contents out.new) (part_json head.now end)) }
{
    write_name(b"{", b"part", out)?;
    write_place_of_part(head, out)?;
    write_span(head, end, out)?;
    write_name(b",", b"format", out)?;
    write_format(head.format, None, out)?;
    out.write_all(b"}}\n")
}

/// Prints of which checkpoint a part is, and which of its parts.
#[tactic(auto, unfolding(crate::specs::RecordJson::place_json))]
fn write_place_of_part<W: Write>(head: &PartHead, out: &mut W) -> io::Result<()>
    ensures { OnOk result (Appends (W.contents out.old) (W.contents out.new) (place_json head.now)) }
{
    write_name(b"{", b"checkpoint", out)?;
    write_decimal(u64::from(head.number), out)?;
    write_name(b",", b"place", out)?;
    write_decimal(u64::from(head.part), out)?;
    write_name(b",", b"parts", out)?;
    write_decimal(u64::from(head.parts), out)
}

/// Prints where the checkpoint of a part begins and ends.
#[tactic(auto, unfolding(crate::specs::RecordJson::span_json))]
fn write_span<W: Write>(head: &PartHead, end: Option<u64>, out: &mut W) -> io::Result<()>
    ensures { OnOk result (Appends (W.contents out.old) (W.contents out.new) (span_json head.now end)) }
{
    write_name(b",", b"begin", out)?;
    write_decimal(head.begin, out)?;
    write_name(b",", b"end", out)?;
    write_end(end, out)
}

/// Prints the line of a record or an entry. Err: write error.
pub(crate) fn write_json<W: Write>(placed: &Placed<'_>, out: &mut W) -> io::Result<()>
    ensures { OnOk result (Appends (W.contents out.old) (W.contents out.new) (json_line placed.now)) }
{
    write_name(b"{", b"number", out)?;
    write_decimal(placed.number, out)?;
    write_name(b",", b"byte", out)?;
    write_decimal(placed.at as u64, out)?;
    write_name(b",", b"kind", out)?;
    write_item(placed, out)?;
    out.write_all(b"}\n")
}

/// Prints what a record or an entry says.
fn write_item<W: Write>(placed: &Placed<'_>, out: &mut W) -> io::Result<()>
    ensures { OnOk result (Appends (W.contents out.old) (W.contents out.new) (item_json placed.now.item)) }
{
    match placed.change {
        Some(change) => write_change(change, placed.timestamp, out),
        None => {
            out.write_all(b"\"mark\"")?;
            write_time(placed.timestamp, out)
        }
    }
}

/// Prints what a change says, with its timestamp if it has one.
fn write_change<W: Write>(change: &Change, timestamp: Option<u64>, out: &mut W) -> io::Result<()>
    ensures { OnOk result (Appends (W.contents out.old) (W.contents out.new) (change_json timestamp change.now)) }
{
    write_kind(&change.kind, out)?;
    write_name(b",", b"key", out)?;
    write_string(change.key.as_bytes(), out)?;
    write_name(b",", b"version", out)?;
    write_decimal(change.version, out)?;
    write_time(timestamp, out)?;
    write_columns(&change.kind, out)
}

/// Prints what a change does, as a string.
#[tactic(auto, unfolding(crate::specs::RecordJson::kind_json))]
fn write_kind<W: Write>(kind: &Kind, out: &mut W) -> io::Result<()>
    ensures { OnOk result (Appends (W.contents out.old) (W.contents out.new) (kind_json kind.now)) }
{
    out.write_all(b"\"")?;
    out.write_all(verb_of(kind))?;
    out.write_all(b"\"")
}

/// Prints a timestamp, if there is one.
fn write_time<W: Write>(timestamp: Option<u64>, out: &mut W) -> io::Result<()>
    ensures { OnOk result (Appends (W.contents out.old) (W.contents out.new) (time_json timestamp)) }
{
    let Some(timestamp) = timestamp else {
        return Ok(());
    };
    write_name(b",", b"timestamp", out)?;
    write_decimal(timestamp, out)
}

/// Prints the columns that a change sets, or the numbers of those that it erases.
fn write_columns<W: Write>(kind: &Kind, out: &mut W) -> io::Result<()>
    ensures { OnOk result (Appends (W.contents out.old) (W.contents out.new) (columns_json kind.now)) }
{
    match kind {
        Kind::Put(columns) | Kind::Whole(columns) => write_sets(columns.as_slice(), out),
        Kind::Remove => Ok(()),
        Kind::Erase(numbers) => write_erased(numbers.as_slice(), out),
    }
}

/// Prints the columns that a change sets.
fn write_sets<W: Write>(columns: &[Column], out: &mut W) -> io::Result<()>
    ensures { OnOk result (Appends (W.contents out.old) (W.contents out.new) (member (codes ",") (codes "columns") ++ (codes "{" ++ (listed column_json columns.now ++ codes "}")))) }
{
    write_name(b",", b"columns", out)?;
    out.write_all(b"{")?;
    write_members(columns, out)?;
    out.write_all(b"}")
}

/// Prints the numbers of the columns that a change erases.
fn write_erased<W: Write>(numbers: &[u8], out: &mut W) -> io::Result<()>
    ensures { OnOk result (Appends (W.contents out.old) (W.contents out.new) (member (codes ",") (codes "columns") ++ (codes "[" ++ (listed decimal numbers.now ++ codes "]")))) }
{
    write_name(b",", b"columns", out)?;
    out.write_all(b"[")?;
    write_numbers(numbers, out)?;
    out.write_all(b"]")
}

/// Prints columns with commas between them.
fn write_members<W: Write>(columns: &[Column], out: &mut W) -> io::Result<()>
    ensures { OnOk result (Appends (W.contents out.old) (W.contents out.new) (listed column_json columns.now)) }
{
    let Some((first, rest)) = columns.split_first() else {
        return Ok(());
    };
    write_member(first, out)?;
    write_more_members(rest, out)
}

/// Prints columns with a comma before each.
fn write_more_members<W: Write>(columns: &[Column], out: &mut W) -> io::Result<()>
    ensures { OnOk result (Appends (W.contents out.old) (W.contents out.new) (flat_map (after_comma column_json) columns.now)) }
{
    for column in columns {
        out.write_all(b",")?;
        write_member(column, out)?;
    }
    Ok(())
}

/// Prints numbers with commas between them.
fn write_numbers<W: Write>(numbers: &[u8], out: &mut W) -> io::Result<()>
    ensures { OnOk result (Appends (W.contents out.old) (W.contents out.new) (listed decimal numbers.now)) }
{
    let Some((first, rest)) = numbers.split_first() else {
        return Ok(());
    };
    write_decimal(u64::from(*first), out)?;
    write_more_numbers(rest, out)
}

/// Prints numbers with a comma before each.
fn write_more_numbers<W: Write>(numbers: &[u8], out: &mut W) -> io::Result<()>
    ensures { OnOk result (Appends (W.contents out.old) (W.contents out.new) (flat_map (after_comma decimal) numbers.now)) }
{
    for number in numbers {
        out.write_all(b",")?;
        write_decimal(u64::from(*number), out)?;
    }
    Ok(())
}

/// Prints a column that a change sets.
fn write_member<W: Write>(column: &Column, out: &mut W) -> io::Result<()>
    ensures { OnOk result (Appends (W.contents out.old) (W.contents out.new) (column_json column.now)) }
{
    out.write_all(b"\"")?;
    write_decimal(u64::from(column.number), out)?;
    out.write_all(b"\":")?;
    write_string(&column.bytes, out)
}

/// Prints bytes as a string in lowercase hexadecimal.
fn write_string<W: Write>(bytes: &[u8], out: &mut W) -> io::Result<()>
    ensures { OnOk result (Appends (W.contents out.old) (W.contents out.new) (hex_json bytes.now)) }
{
    out.write_all(b"\"")?;
    write_hex(bytes, out)?;
    out.write_all(b"\"")
}

/// Prints the format of a header, and of a segment the worker and its number.
fn write_format<W: Write>(format: Format, segment: Option<Segment>, out: &mut W) -> io::Result<()>
    ensures { OnOk result (Appends (W.contents out.old) (W.contents out.new) (format_json format segment)) }
{
    write_decimal(u64::from(format_number(format, segment)), out)?;
    let Some(Segment { worker, number }) = segment else {
        return Ok(());
    };
    write_name(b",", b"worker", out)?;
    write_decimal(u64::from(worker), out)?;
    write_name(b",", b"segment", out)?;
    write_decimal(u64::from(number), out)
}

/// Returns the number of the format of a header, which is 3 of a segment.
pub(crate) fn format_number(format: Format, segment: Option<Segment>) -> u8
    ensures { result ≡ format_number format segment }
{
    match (segment, format) {
        (Some(_), _) => 3,
        (None, Format::One) => 1,
        (None, Format::Two) => 2,
    }
}

/// Prints where a checkpoint ends, or null if that is not known.
fn write_end<W: Write>(end: Option<u64>, out: &mut W) -> io::Result<()>
    ensures { OnOk result (Appends (W.contents out.old) (W.contents out.new) (end_json end)) }
{
    match end {
        Some(end) => write_decimal(end, out),
        None => out.write_all(b"null"),
    }
}

/// Prints the name of a member after a sign: `{` of the first one, a comma of a further one. Err: write error.
#[tactic(auto, unfolding(crate::specs::RecordJson::member))]
pub(crate) fn write_name<W: Write>(sign: &[u8], name: &[u8], out: &mut W) -> io::Result<()>
    ensures { OnOk result (Appends (W.contents out.old) (W.contents out.new) (member sign.now name.now)) }
{
    out.write_all(sign)?;
    out.write_all(b"\"")?;
    out.write_all(name)?;
    out.write_all(b"\":")
}
