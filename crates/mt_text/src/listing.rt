//! Prints the records of a log, or the entries of a part, whose bytes are in memory.
ghost use Rattle.std.specs.Prelude.{◌≡◌, ◌<◌, ◌+◌, ◌^◌, ◌↔◌, ◌∷◌, [], length, filter, IfOk, OnOk, IsTrue};
ghost use Rattle.std.specs.List.{flat_map};
ghost use Rattle.std.specs.Io.KnownBytes.{Appends};
ghost use Rattle.mt_words.specs.Limits.{limits_of};
ghost use Rattle.mt_text.specs.Listing.{ArePrinted, EntriesArePrinted, is_wanted, line, head_line, part_line};

use crate::json::{write_json, write_log_json, write_part_json};
use crate::placed::Placed;
use crate::print_fault::PrintFault;
use crate::words::{write_log_words, write_part_words, write_words};
use mt_record::{Head, PartHead, entry_at, record_at};
use mt_words::{Format, Key};
use std::alloc::Global;
use std::io::{self, Write};

/// How lines are written.
#[derive(Clone, Copy, Debug)]
pub enum Notation {
    /// In the words of case files.
    Words,
    /// As JSON, an object a line.
    Json,
}

/// Which records of a log, or entries of a part, are printed, and how.
#[derive(Debug, Drop)]
pub struct Selection {
    /// The number of the first one, counted from 0.
    pub from: u64,
    /// The most that are printed.
    pub limit: u64,
    /// Only those that change this key, if there is one.
    pub key: Option<Key>,
    /// How each line is written.
    pub notation: Notation,
}

impl Selection {
    /// Returns that nothing is listed, and the first record or entry begins at this byte.
    pub fn begin(&self, at: usize) -> Listed
        ensures { (result.at ≡ at) × (result.number ≡ 0) × (result.latest ≡ 0) × (result.left ≡ self.now.limit) }
    {
        Listed {
            at,
            number: 0,
            latest: 0,
            left: self.limit,
        }
    }

    /// Returns whether a record or an entry is wanted.
    fn wants(&self, placed: &Placed<'_>) -> bool
        ensures { result ≡ is_wanted self.now placed.now }
    {
        placed.number >= self.from && placed.has_key(&self.key)
    }
}

/// How far the records of a log, or the entries of a part, are listed.
#[derive(Clone, Copy, Debug)]
pub struct Listed {
    /// The byte where the next one begins.
    pub at: usize,
    /// Its number.
    pub number: u64,
    /// The timestamp of the record before it, or 0.
    pub latest: u64,
    /// The most that are still printed.
    pub left: u64,
}

impl Listed {
    /// Returns whether no byte and no number passes 2^64 - 1 if these bytes follow.
    fn fits(&self, bytes: &[u8]) -> bool
        ensures { IsTrue result ↔ ((self.now.at + length bytes.now < 2 ^ 64) × (self.now.number + length bytes.now + 1 < 2 ^ 64)) }
    {
        self.at <= usize::MAX - bytes.len() && self.number < u64::MAX - bytes.len() as u64
    }
}

/// Prints the line of a log's header. Err: write error.
pub fn write_head<W: Write>(head: &Head, notation: Notation, out: &mut W) -> io::Result<()>
    ensures { OnOk result (Appends (W.contents out.old) (W.contents out.new) (head_line notation head.now)) }
{
    match notation {
        Notation::Words => write_log_words(head, out),
        Notation::Json => write_log_json(head, out),
    }
}

/// Prints the line of a part's header, and where its checkpoint ends if the part has a footer. Err: write error.
pub fn write_part_head<W: Write>(
    head: &PartHead,
    end: Option<u64>,
    notation: Notation,
    out: &mut W,
) -> io::Result<()>
    ensures { OnOk result (Appends (W.contents out.old) (W.contents out.new) (part_line notation head.now end)) }
{
    match notation {
        Notation::Words => write_part_words(head, end, out),
        Notation::Json => write_part_json(head, end, out),
    }
}

/// Prints the wanted records of this format, each on a line: the bytes go on where those before are listed. Returns how far
/// they are listed then: to where no record follows, or to the limit. Err: write error, or out of memory, as which the
/// function also takes a byte or a number past 2^64 - 1.
pub fn write_records<W: Write>(
    alloc: Global,
    format: Format,
    bytes: &[u8],
    from: Listed,
    selection: &Selection,
    out: &mut W,
) -> Result<Listed, PrintFault>
    ensures { IfOk result (λ to. ArePrinted (limits_of format) selection.now bytes.now from to (W.contents out.old) (W.contents out.new)) }
{
    if !from.fits(bytes) {
        return Err(PrintFault::Memory);
    }
    let mut rest = bytes;
    let Listed {
        mut number,
        mut latest,
        mut left,
        ..
    } = from;
    while left > 0 {
        let at = from.at + (bytes.len() - rest.len());
        let Some((record, after)) = record_at(alloc, format, latest, rest)? else {
            break;
        };
        left -= write_wanted(&Placed::of_record(number, at, &record), selection, out)?;
        latest = record.timestamp();
        number += 1;
        rest = after;
    }
    let at = from.at + (bytes.len() - rest.len());
    Ok(Listed {
        at,
        number,
        latest,
        left,
    })
}

/// Does as `write_records`, but with the entries of a part of this format.
pub fn write_entries<W: Write>(
    alloc: Global,
    format: Format,
    bytes: &[u8],
    from: Listed,
    selection: &Selection,
    out: &mut W,
) -> Result<Listed, PrintFault>
    ensures { IfOk result (λ to. EntriesArePrinted (limits_of format) selection.now bytes.now from to (W.contents out.old) (W.contents out.new)) }
{
    if !from.fits(bytes) {
        return Err(PrintFault::Memory);
    }
    let mut rest = bytes;
    let Listed {
        mut number,
        mut left,
        ..
    } = from;
    while left > 0 {
        let at = from.at + (bytes.len() - rest.len());
        let Some((entry, after)) = entry_at(alloc, format, rest)? else {
            break;
        };
        left -= write_wanted(&Placed::of_entry(number, at, &entry), selection, out)?;
        number += 1;
        rest = after;
    }
    let at = from.at + (bytes.len() - rest.len());
    Ok(Listed {
        at,
        number,
        left,
        ..from
    })
}

/// Prints a record or an entry if it is wanted. Returns how many lines that is.
fn write_wanted<W: Write>(
    placed: &Placed<'_>,
    selection: &Selection,
    out: &mut W,
) -> io::Result<u64>
    ensures count { IfOk result (λ count. count ≡ length (filter (is_wanted selection.now) (placed.now ∷ []))) }
    ensures printed { OnOk result (Appends (W.contents out.old) (W.contents out.new) (flat_map (line selection.now.notation) (filter (is_wanted selection.now) (placed.now ∷ [])))) }
{
    if !selection.wants(placed) {
        return Ok(0);
    }
    match selection.notation {
        Notation::Words => write_words(placed, out)?,
        Notation::Json => write_json(placed, out)?,
    }
    Ok(1)
}
