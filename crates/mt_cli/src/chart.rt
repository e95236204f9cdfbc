//! A chart of the logs and checkpoints of a folder over one axis of timestamps.
ghost use Rattle.std.specs.Prelude.{◌<◌};

use crate::checked::{Checked, CheckedLog};
use crate::fates::{Fate, numbers_of};
use crate::folding::{USUAL_WIDTH, width_of, write_blanks};
use crate::host::{Host, Run};
use crate::row::{Cell, Field, write_row};
use crate::sealed::text_in;
use mt_record::{FeedFault, Rest, header_at, open_file, record_at};
use mt_text::Shown;
use mt_words::{Fault, Memory};
use std::alloc::{AllocError, Global};
use std::io::{self, Write};

/// The fewest cells of an axis. A line gets wider if it must.
const FEWEST_CELLS: usize = 10;

/// A chart of the logs and checkpoints of a folder over one axis of timestamps.
#[derive(Drop)]
pub struct Chart<'a> {
    /// The logs, and then the checkpoints.
    rows: Vec<Row<'a>>,
    axis: Axis,
    /// The cutoff. None: recovery names a fault.
    cutoff: Option<u64>,
}

/// A log or a checkpoint.
#[derive(Drop)]
struct Row<'a> {
    /// Its name, as a value and as text.
    name: Field<'a>,
    label: String,
    /// Where its timestamps lie. A span hides those before it.
    spans: Vec<Span>,
    /// What becomes of it.
    note: String,
}

/// Timestamps of a row, the cells of which have this mark.
#[derive(Clone, Copy)]
struct Span {
    from: u64,
    to: u64,
    mark: u8,
}

impl Span {
    /// Creates a span.
    fn new(from: u64, to: u64, mark: u8) -> Span {
        Span { from, to, mark }
    }
}

/// The timestamps from the least to the greatest.
#[derive(Clone, Copy)]
struct Axis {
    least: u64,
    greatest: u64,
}

impl Axis {
    /// Returns the axis that has all spans. Without one it has just 0.
    fn of(rows: &[Row<'_>]) -> Axis {
        let mut axis = Axis {
            least: u64::MAX,
            greatest: 0,
        };
        for row in rows {
            for span in &row.spans {
                axis.least = axis.least.min(span.from);
                axis.greatest = axis.greatest.max(span.to);
            }
        }
        axis.least = axis.least.min(axis.greatest);
        axis
    }

    /// Returns the cell of a timestamp: the least one has the first of these cells, the greatest one the last.
    fn cell(self, timestamp: u64, cells: usize) -> usize
        ensures { 0 < cells → result < cells }
    {
        let last = cells.saturating_sub(1);
        let span = u128::from(self.greatest.saturating_sub(self.least)).max(1);
        let before = u128::from(timestamp.saturating_sub(self.least));
        let cell = before.saturating_mul(last as u128) / span;
        usize::try_from(cell).unwrap_or(last).min(last)
    }
}

impl<'a> Chart<'a> {
    /// Returns the chart of what was checked. `firsts` are the timestamps of the first record of each log, if it has one.
    fn of(
        alloc: Global,
        checked: &Checked<'a>,
        firsts: &[Option<u64>],
    ) -> Result<Chart<'a>, Memory> {
        let cutoff = match &checked.start {
            Ok(start) => Some(start.window.cutoff),
            Err(_) => None,
        };
        let mut rows = Vec::new(alloc);
        for (log, first) in checked.logs.iter().zip(firsts) {
            rows.push(Row {
                name: ("file", Cell::Name(log.file.name)),
                label: format!(in alloc; "{}", Shown(log.file.name))?,
                spans: spans_of_log(alloc, log, *first, cutoff)?,
                note: note_of_log(alloc, log, cutoff.is_some())?,
            })?;
        }
        for number in &numbers_of(alloc, &checked.parts)? {
            let fate = Fate::of(*number, checked);
            rows.push(Row {
                name: ("checkpoint", Cell::Number(Some(u64::from(*number)))),
                label: format!(in alloc; "checkpoint {number}")?,
                spans: spans_of_checkpoint(alloc, &fate, cutoff)?,
                note: String::from_str(alloc, fate.word)?,
            })?;
        }
        Ok(Chart {
            axis: Axis::of(&rows),
            rows,
            cutoff,
        })
    }

    /// Prints a JSON object for each span of a row: what its mark means, where it lies, and what becomes of the row.
    pub fn write_json<W: Write>(&self, out: &mut W) -> io::Result<()> {
        for row in &self.rows {
            for span in &row.spans {
                let Some(word) = word_of(span.mark) else {
                    continue;
                };
                let fields = [
                    row.name,
                    ("span", Cell::Word(word)),
                    ("from", Cell::Number(Some(span.from))),
                    ("to", Cell::Number(Some(span.to))),
                    ("note", Cell::Word(row.note.as_str())),
                ];
                write_row(&fields, true, out)?;
            }
        }
        match self.cutoff {
            Some(cutoff) => write_row(&[("cutoff", Cell::Number(Some(cutoff)))], true, out),
            None => Ok(()),
        }
    }

    /// Prints the chart in lines of this width, or of the usual one: the ends of the axis, a line for each row, and what the
    /// marks mean.
    pub fn write<W: Write>(&self, width: Option<u64>, out: &mut W) -> io::Result<()> {
        let width = width.unwrap_or(USUAL_WIDTH) as usize;
        let mut labels = 0;
        let mut notes = 0;
        for row in &self.rows {
            labels = width_of(row.label.as_str()).max(labels);
            notes = width_of(row.note.as_str()).max(notes);
        }
        let cells = width
            .saturating_sub(labels)
            .saturating_sub(notes)
            .saturating_sub(2)
            .max(FEWEST_CELLS);
        self.write_ends(labels, cells, out)?;
        for row in &self.rows {
            out.write_all(row.label.as_str().as_bytes())?;
            let blanks = labels.saturating_sub(width_of(row.label.as_str()));
            write_blanks(blanks.saturating_add(1), out)?;
            for cell in 0..cells {
                out.write_all(&[self.mark_at(row, cell, cells)])?;
            }
            writeln!(out, " {}", row.note)?;
        }
        out.write_all(b"= complete, ")?;
        if let Some(cutoff) = self.cutoff {
            write!(out, "| cutoff {cutoff}, x late, ")?;
        }
        out.write_all(b"! torn, # damaged, . hole, [-] checkpoint\n")
    }

    /// Prints the line of the least and the greatest timestamp, above the ends of the axis.
    fn write_ends<W: Write>(&self, labels: usize, cells: usize, out: &mut W) -> io::Result<()> {
        let Axis { least, greatest } = self.axis;
        write_blanks(labels.saturating_add(1), out)?;
        write!(out, "{least}")?;
        let between = cells
            .saturating_sub(digits_of(least))
            .saturating_sub(digits_of(greatest));
        write_blanks(between.max(1), out)?;
        writeln!(out, "{greatest}")
    }

    /// Returns the mark of a cell of a row: that of the last span that has it.
    fn mark_at(&self, row: &Row<'_>, cell: usize, cells: usize) -> u8 {
        let mut mark = b' ';
        for span in &row.spans {
            let from = self.axis.cell(span.from, cells);
            if cell >= from && cell <= self.axis.cell(span.to, cells) {
                mark = span.mark;
            }
        }
        mark
    }
}

/// Returns what a mark means. None: it is not that of a span, but of a place that others have too.
fn word_of(mark: u8) -> Option<&'static str> {
    match mark {
        b'=' => Some("complete"),
        b'x' => Some("late"),
        b'.' => Some("hole"),
        b'!' => Some("torn"),
        b'#' => Some("damaged"),
        b'-' => Some("checkpoint"),
        _ => None,
    }
}

/// Returns the spans of a log: the hole before it, its records, the late ones, the cutoff, and how it ends, which hides that.
fn spans_of_log(
    alloc: Global,
    log: &CheckedLog<'_>,
    first: Option<u64>,
    cutoff: Option<u64>,
) -> Result<Vec<Span>, AllocError> {
    let mut spans = Vec::new(alloc);
    let Some(front) = log.front() else {
        push_cutoff(cutoff, &mut spans)?;
        return Ok(spans);
    };
    let to = front.last();
    let from = first.unwrap_or(front.from()).min(to);
    if let Some(hole) = log.hole {
        spans.push(Span::new(hole, from, b'.'))?;
    }
    spans.push(Span::new(from, to, b'='))?;
    match cutoff {
        Some(cutoff) if cutoff < to => spans.push(Span::new(from.max(cutoff), to, b'x'))?,
        _ => {}
    }
    push_cutoff(cutoff, &mut spans)?;
    let mark = match front.rest {
        Rest::Nothing => return Ok(spans),
        Rest::Torn => b'!',
        Rest::Faulty(_) => b'#',
    };
    spans.push(Span::new(to, to, mark))?;
    Ok(spans)
}

/// Returns the spans of a checkpoint, whose ends hide the cutoff. Err: out of memory.
fn spans_of_checkpoint(
    alloc: Global,
    fate: &Fate,
    cutoff: Option<u64>,
) -> Result<Vec<Span>, AllocError> {
    let mut spans = Vec::new(alloc);
    let Some(part) = fate.first else {
        push_cutoff(cutoff, &mut spans)?;
        return Ok(spans);
    };
    let to = part.end;
    let from = part.begin.min(to);
    spans.push(Span::new(from, to, b'-'))?;
    push_cutoff(cutoff, &mut spans)?;
    spans.push(Span::new(from, from, b'['))?;
    spans.push(Span::new(to, to, b']'))?;
    Ok(spans)
}

/// Appends the span of the cutoff, if there is one. Err: out of memory.
fn push_cutoff(cutoff: Option<u64>, spans: &mut Vec<Span>) -> Result<(), AllocError> {
    if let Some(cutoff) = cutoff {
        spans.push(Span::new(cutoff, cutoff, b'|'))?;
    }
    Ok(())
}

/// Returns what becomes of a log: how it ends, and how many of its updates are late. Err: out of memory.
fn note_of_log(
    alloc: Global,
    log: &CheckedLog<'_>,
    has_cutoff: bool,
) -> Result<String, AllocError> {
    let check = match &log.check {
        Ok(check) => check,
        Err(Fault::Header { .. }) => return String::from_str(alloc, "header"),
        Err(_) => return String::from_str(alloc, "unread"),
    };
    let state = match check.front.rest {
        Rest::Nothing => String::from_str(alloc, "whole")?,
        Rest::Torn => String::from_str(alloc, "torn")?,
        Rest::Faulty(what) => format!(in alloc; "{what}")?,
    };
    if has_cutoff && check.late > 0 {
        return format!(in alloc; "{state}, {} late", check.late);
    }
    Ok(state)
}

/// Returns the number of digits of a number.
fn digits_of(number: u64) -> usize {
    match number.checked_ilog10() {
        Some(log) => log as usize + 1,
        None => 1,
    }
}

/// The pieces of a log that are read to find its first record, which has fewer bytes than these.
const READ: u64 = 8;

impl<'a, R: Host> Run<'a, R> {
    /// Returns the chart of what was checked.
    pub fn chart<'c>(&self, checked: &Checked<'c>) -> Result<Chart<'c>, Memory> {
        let mut firsts = Vec::with_capacity(self.rt.alloc(), checked.logs.len())?;
        for log in &checked.logs {
            firsts.push(self.first_of(log.file.name)?)?;
        }
        Chart::of(self.rt.alloc(), checked, &firsts)
    }

    /// Returns the timestamp of the first record of the log of this name. None: it has none, or cannot be read again.
    fn first_of(&self, name: &str) -> Result<Option<u64>, Memory> {
        let Some(file) = self.read_again(name, READ)? else {
            return Ok(None);
        };
        let opened = match open_file(self.rt.alloc(), &file.held) {
            Ok(opened) => opened,
            Err(FeedFault::Memory) => return Err(Memory),
            Err(_) => return Ok(None),
        };
        let Some((head, rest)) = header_at(text_in(&opened, &file.held)) else {
            return Ok(None);
        };
        match record_at(self.rt.alloc(), head.format, 0, rest)? {
            Some((record, _)) => Ok(Some(record.timestamp())),
            None => Ok(None),
        }
    }
}
