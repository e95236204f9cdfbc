//! The text of headers, records and entries, in the words of case files.
ghost use Rattle.std.specs.Prelude.{◌≡◌, ◌++◌, Some, None, OnOk, codes};
ghost use Rattle.std.specs.List.{flat_map};
ghost use Rattle.std.specs.Io.KnownBytes.{Appends};
ghost use Rattle.mt_words.specs.Changes.{IsLoggedChange};
ghost use Rattle.mt_text.specs.RecordText.{log_words, part_words, named, place_words, end_words, format_words, words_line, item_words, change_words, time_words, column_words, number_word, hex_word, set_word, verb};

use crate::digits::{write_decimal, write_hex};
use crate::placed::Placed;
use mt_record::{Head, PartHead, Segment};
use mt_words::{Change, Column, Format, Kind};
use std::io::{self, Write};

/// Prints the line of a log's header. Err: write error.
pub(crate) fn write_log_words<W: Write>(head: &Head, out: &mut W) -> io::Result<()>
    ensures { OnOk result (Appends (W.contents out.old) (W.contents out.new) (log_words head.now)) }
{
    out.write_all(b"log from")?;
    write_number(head.from, out)?;
    write_format(head.format, head.segment, out)?;
    out.write_all(b"\n")
}

/// Prints how a header differs from that of format 1.
fn write_format<W: Write>(format: Format, segment: Option<Segment>, out: &mut W) -> io::Result<()>
    ensures { OnOk result (Appends (W.contents out.old) (W.contents out.new) (format_words format segment)) }
{
    match (segment, format) {
        (Some(Segment { worker, number }), _) => {
            out.write_all(b" worker")?;
            write_number(u64::from(worker), out)?;
            out.write_all(b" segment")?;
            write_number(u64::from(number), out)
        }
        (None, Format::One) => Ok(()),
        (None, Format::Two) => out.write_all(b" format 2"),
    }
}

/// Prints the line of a part's header, and where its checkpoint ends if the part has a footer. Err: write error.
pub(crate) fn write_part_words<W: Write>(
    head: &PartHead,
    end: Option<u64>,
    out: &mut W,
) -> io::Result<()>
    ensures { OnOk result (Appends (W.contents out.old) (W.contents out.new) (part_words head.now end)) }
{
    write_place_of_part(head, out)?;
    write_named(b"from", head.begin, out)?;
    write_end(end, out)?;
    write_format(head.format, None, out)?;
    out.write_all(b"\n")
}

/// Prints which part it is, and of which checkpoint.
#[tactic(auto, unfolding(crate::specs::RecordText::place_words))]
fn write_place_of_part<W: Write>(head: &PartHead, out: &mut W) -> io::Result<()>
    ensures { OnOk result (Appends (W.contents out.old) (W.contents out.new) (place_words head.now)) }
{
    out.write_all(b"part")?;
    write_number(u64::from(head.part), out)?;
    write_named(b"of", u64::from(head.parts), out)?;
    out.write_all(b" of")?;
    write_named(b"checkpoint", u64::from(head.number), out)
}

/// Prints where a checkpoint ends, if that is known.
fn write_end<W: Write>(end: Option<u64>, out: &mut W) -> io::Result<()>
    ensures { OnOk result (Appends (W.contents out.old) (W.contents out.new) (end_words end)) }
{
    match end {
        Some(end) => write_named(b"to", end, out),
        None => Ok(()),
    }
}

/// Prints the line of a record or an entry, with its number and the byte where it begins. Err: write error.
pub(crate) fn write_words<W: Write>(placed: &Placed<'_>, out: &mut W) -> io::Result<()>
    ensures { OnOk result (Appends (W.contents out.old) (W.contents out.new) (words_line placed.now)) }
{
    write_item(placed, out)?;
    out.write_all(b" #")?;
    write_number(placed.number, out)?;
    out.write_all(b" at")?;
    write_number(placed.at as u64, out)?;
    out.write_all(b"\n")
}

/// Prints what a record or an entry says.
fn write_item<W: Write>(placed: &Placed<'_>, out: &mut W) -> io::Result<()>
    ensures { OnOk result (Appends (W.contents out.old) (W.contents out.new) (item_words placed.now.item)) }
{
    match placed.change {
        Some(change) => write_change(change, placed.timestamp, out),
        None => {
            out.write_all(b"mark")?;
            write_time(placed.timestamp, out)
        }
    }
}

/// Prints what a change says, with its timestamp if it has one.
fn write_change<W: Write>(change: &Change, timestamp: Option<u64>, out: &mut W) -> io::Result<()>
    ensures { OnOk result (Appends (W.contents out.old) (W.contents out.new) (change_words timestamp change.now)) }
{
    out.write_all(verb_of(&change.kind))?;
    out.write_all(b" ")?;
    write_bytes(change.key.as_bytes(), out)?;
    write_number(change.version, out)?;
    write_time(timestamp, out)?;
    write_columns(&change.kind, out)
}

/// Prints a timestamp, if there is one.
fn write_time<W: Write>(timestamp: Option<u64>, out: &mut W) -> io::Result<()>
    ensures { OnOk result (Appends (W.contents out.old) (W.contents out.new) (time_words timestamp)) }
{
    match timestamp {
        Some(timestamp) => write_number(timestamp, out),
        None => Ok(()),
    }
}

/// Returns what a change does, as a word.
pub(crate) fn verb_of(kind: &Kind) -> &'static [u8]
    ensures { result.now ≡ verb kind.now }
{
    match kind {
        Kind::Put(_) => b"put",
        Kind::Remove => b"remove",
        Kind::Whole(_) => b"entry",
        Kind::Erase(_) => b"erase",
    }
}

/// Prints the columns that a change sets or erases.
fn write_columns<W: Write>(kind: &Kind, out: &mut W) -> io::Result<()>
    ensures { OnOk result (Appends (W.contents out.old) (W.contents out.new) (column_words kind.now)) }
{
    match kind {
        Kind::Put(columns) | Kind::Whole(columns) => write_sets(columns.as_slice(), out),
        Kind::Remove => Ok(()),
        Kind::Erase(numbers) => write_numbers(numbers.as_slice(), out),
    }
}

/// Prints the columns that a change sets.
fn write_sets<W: Write>(columns: &[Column], out: &mut W) -> io::Result<()>
    ensures { OnOk result (Appends (W.contents out.old) (W.contents out.new) (flat_map set_word columns.now)) }
{
    for column in columns {
        write_set(column, out)?;
    }
    Ok(())
}

/// Prints the numbers of the columns that a change erases.
fn write_numbers<W: Write>(numbers: &[u8], out: &mut W) -> io::Result<()>
    ensures { OnOk result (Appends (W.contents out.old) (W.contents out.new) (flat_map number_word numbers.now)) }
{
    for number in numbers {
        write_number(u64::from(*number), out)?;
    }
    Ok(())
}

/// Prints a column that a change sets.
fn write_set<W: Write>(column: &Column, out: &mut W) -> io::Result<()>
    ensures { OnOk result (Appends (W.contents out.old) (W.contents out.new) (set_word column.now)) }
{
    write_number(u64::from(column.number), out)?;
    out.write_all(b"=")?;
    write_bytes(&column.bytes, out)
}

/// Prints bytes in hexadecimal.
fn write_bytes<W: Write>(bytes: &[u8], out: &mut W) -> io::Result<()>
    ensures { OnOk result (Appends (W.contents out.old) (W.contents out.new) (hex_word bytes.now)) }
{
    out.write_all(b"0x")?;
    write_hex(bytes, out)
}

/// Prints a space, a word, and a number.
#[tactic(auto, unfolding(crate::specs::RecordText::named))]
fn write_named<W: Write>(word: &[u8], number: u64, out: &mut W) -> io::Result<()>
    ensures { OnOk result (Appends (W.contents out.old) (W.contents out.new) (named word.now number)) }
{
    out.write_all(b" ")?;
    out.write_all(word)?;
    write_number(number, out)
}

/// Prints a space and a number.
fn write_number<W: Write>(number: u64, out: &mut W) -> io::Result<()>
    ensures { OnOk result (Appends (W.contents out.old) (W.contents out.new) (number_word number)) }
{
    out.write_all(b" ")?;
    write_decimal(number, out)
}
