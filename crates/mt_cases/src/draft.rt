//! A log or a part while its lines are read, and bytes with a name.
use crate::blocks::{Line, words_of};
use crate::mistake::Mistake;
use crate::records::{entry_of, record_of};
use crate::words::{byte_of, number_of, push_digits};
use mt_record::{
    PartHead, encode_log_header, encode_log_header_2, encode_log_header_3, encode_part,
    encode_part_2, encode_record,
};
use mt_words::{Entry, Format};
use std::alloc::Global;

/// Bytes with a name.
#[derive(Drop)]
pub struct Named<'a> {
    name: &'a str,
    bytes: Vec<u8>,
}

/// A part that still takes entries.
#[derive(Drop)]
struct PartDraft {
    head: PartHead,
    end: u64,
    entries: Vec<Entry>,
}

/// A log or a part, as far as its lines have been read.
#[derive(Drop)]
pub struct Draft {
    pub is_log: bool,
    /// The part, until it is encoded into the bytes. After that it takes no entry.
    part: Option<PartDraft>,
    pub bytes: Vec<u8>,
    /// The first call of `advance` that fails on its source, counted from 1.
    pub fails: Option<u64>,
}

impl Draft {
    /// Begins the log or part of a line `log ..` or `part ..`.
    pub fn begin(alloc: Global, names: &[Named<'_>], words: &[&str]) -> Result<Draft, Mistake> {
        let (is_log, rest) = match words {
            ["log", rest @ ..] => (true, rest),
            ["part", rest @ ..] => (false, rest),
            _ => return Err(Mistake::LINE),
        };
        let (mut part, mut bytes) = (None, Vec::new(alloc));
        match rest {
            ["is", name] => bytes.extend_from_slice(find(names, name).ok_or(Mistake::NO_NAME)?)?,
            ["bytes", digits @ ..] => push_digits(alloc, digits, &mut bytes)?,
            _ if is_log => push_log_header(rest, &mut bytes)?,
            _ => part = Some(part_of(alloc, rest)?),
        }
        Ok(Draft {
            is_log,
            part,
            bytes,
            fails: None,
        })
    }

    /// Adds a line: a record, an entry, or a change of the bytes.
    pub fn add(&mut self, alloc: Global, words: &[&str]) -> Result<(), Mistake> {
        match (words, &mut self.part) {
            (["put" | "remove" | "erase" | "mark", ..], _) if self.is_log => {
                Ok(encode_record(&record_of(alloc, words)?, &mut self.bytes)?)
            }
            (["entry", rest @ ..], Some(part)) => Ok(part.entries.push(entry_of(alloc, rest)?)?),
            (["put" | "remove" | "erase" | "mark" | "entry", ..], _) => Err(Mistake::MISPLACED),
            _ => {
                self.spell_part()?;
                change(alloc, words, &mut self.bytes)
            }
        }
    }

    /// Makes its source fail at this call of `advance` and all later ones. Calls count from 1.
    pub fn fail_from(&mut self, call: u64) -> Result<(), Mistake> {
        if call == 0 {
            return Err(Mistake::NUMBER);
        }
        self.fails = Some(call);
        Ok(())
    }

    /// Whether this is a log whose source does not fail.
    pub fn is_steady_log(&self) -> bool {
        self.is_log && self.fails.is_none()
    }

    /// Encodes the part into the bytes, if that has not been done. Err: an entry that its format does not allow, too
    /// many entries for a footer, or out of memory.
    pub fn spell_part(&mut self) -> Result<(), Mistake> {
        let Some(PartDraft { head, end, entries }) = self.part.take() else {
            return Ok(());
        };
        // A footer can count no more.
        if entries.len() > u32::MAX as usize {
            return Err(Mistake::NUMBER);
        }
        let PartHead {
            format,
            number,
            begin,
            part,
            parts,
        } = head;
        let out = &mut self.bytes;
        match format {
            Format::One if !entries.iter().all(Entry::fits_format_1) => Err(Mistake::FORMAT),
            Format::One => Ok(encode_part(number, begin, part, parts, end, &entries, out)?),
            Format::Two => Ok(encode_part_2(number, begin, part, parts, end, &entries, out)?),
        }
    }
}

/// Returns the bytes of this name, or None if there is no such name.
fn find<'n>(names: &'n [Named<'_>], name: &str) -> Option<&'n [u8]> {
    for named in names {
        if named.name == name {
            return Some(&named.bytes);
        }
    }
    None
}

/// Appends a log's header: `from FROM`, or nothing for 0; then a format, or `worker WORKER segment SEGMENT`.
fn push_log_header(words: &[&str], out: &mut Vec<u8>) -> Result<(), Mistake> {
    let (from, rest) = match words {
        ["from", from, rest @ ..] => (number_of(from)?, rest),
        _ => (0, words),
    };
    if let ["worker", worker, "segment", segment] = rest {
        let (worker, segment) = (number_of(worker)?, number_of(segment)?);
        return Ok(encode_log_header_3(from, worker, segment, out)?);
    }
    match format_of(rest)? {
        Format::One => Ok(encode_log_header(from, out)?),
        Format::Two => Ok(encode_log_header_2(from, out)?),
    }
}

/// Reads a format: `format 1`, `format 2`, or nothing for format 1.
fn format_of(words: &[&str]) -> Result<Format, Mistake> {
    match words {
        [] | ["format", "1"] => Ok(Format::One),
        ["format", "2"] => Ok(Format::Two),
        ["format", _] => Err(Mistake::NUMBER),
        _ => Err(Mistake::LINE),
    }
}

/// Begins a part: `PART of PARTS of checkpoint NUMBER from BEGIN to END`, then a format.
fn part_of(alloc: Global, words: &[&str]) -> Result<PartDraft, Mistake> {
    let [
        part,
        "of",
        parts,
        "of",
        "checkpoint",
        number,
        "from",
        begin,
        "to",
        end,
        format @ ..,
    ] = words
    else {
        return Err(Mistake::LINE);
    };
    let head = PartHead {
        format: format_of(format)?,
        number: number_of(number)?,
        begin: number_of(begin)?,
        part: number_of(part)?,
        parts: number_of(parts)?,
    };
    let (end, entries) = (number_of(end)?, Vec::new(alloc));
    Ok(PartDraft { head, end, entries })
}

/// Changes the bytes: `bytes DIGITS ..` appends, `byte PLACE VALUE` replaces a byte, `cut LENGTH` keeps the first
/// LENGTH. `spelled DIGITS ..` changes nothing, and is an Err unless the bytes are exactly these.
fn change(alloc: Global, words: &[&str], bytes: &mut Vec<u8>) -> Result<(), Mistake> {
    match words {
        ["bytes", digits @ ..] => push_digits(alloc, digits, bytes),
        ["byte", place, value] => {
            let Some(byte) = bytes.get_mut(number_of::<usize>(place)?) else {
                return Err(Mistake::PLACE);
            };
            *byte = byte_of(alloc, value)?;
            Ok(())
        }
        ["cut", length] => match number_of::<usize>(length)? {
            length if length > bytes.len() => Err(Mistake::PLACE),
            length => Ok(bytes.truncate(length)),
        },
        ["spelled", digits @ ..] => {
            let mut wanted = Vec::new(alloc);
            push_digits(alloc, digits, &mut wanted)?;
            if wanted == *bytes {
                Ok(())
            } else {
                Err(Mistake::SPELLING)
            }
        }
        _ => Err(Mistake::LINE),
    }
}

/// Reads the block of a name: `name NAME log ..` or `name NAME part ..`, and the lines after it. Sets `at` to the line
/// that a mistake is reported for.
pub fn read_name<'a>(
    alloc: Global,
    names: &[Named<'_>],
    head: &Line<'a>,
    body: &[Line<'a>],
    at: &mut Line<'a>,
) -> Result<Named<'a>, Mistake> {
    let words = words_of(alloc, head.text)?;
    let ["name", name, rest @ ..] = words.as_slice() else {
        return Err(Mistake::LINE);
    };
    if find(names, name).is_some() {
        return Err(Mistake::TWICE);
    }
    let mut draft = Draft::begin(alloc, names, rest)?;
    for line in body {
        *at = *line;
        draft.add(alloc, &words_of(alloc, line.text)?)?;
    }
    *at = *head;
    draft.spell_part()?;
    let bytes = draft.bytes;
    Ok(Named { name, bytes })
}
