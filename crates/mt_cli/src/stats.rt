//! Counts the records of a log, or the entries of a part, by what they do.
use crate::cutting::has_part_header;
use crate::halt::Halt;
use crate::host::Host;
use crate::intake::{open, unread};
use crate::row::{Cell, write_row};
use crate::salvaging::{PartPieces, Placed};
use crate::sealed::{Piece, Sealed, TEXT_HEADER, unopened};
use mt_record::{Items, header_at};
use mt_words::Fault;
use std::io::{self, Write};

/// The kinds of records, and the bytes by which a log has them, by docs/FORMATS.md.
const KINDS: [Named; 4] = [
    ("put", Some(1)),
    ("remove", Some(2)),
    ("erase", Some(4)),
    ("mark", Some(3)),
];

/// A name, and the byte of a kind. None: that of all entries.
type Named = (&'static str, Option<u8>);

/// The byte of a record that is its kind.
const KIND_AT: usize = 4;

/// Prints a line for each kind of the records of a log, or for the entries of a part, wherever `cut --skip` finds them: how many
/// there are, their bytes, and the least and the greatest timestamp. The file is held.
pub fn print_stats<'a, R: Host, O: Write>(
    rt: &R,
    path: &'a str,
    is_json: bool,
    out: &mut O,
) -> Result<(), Halt<'a>> {
    let alloc = rt.alloc();
    let mut file = open(rt, path)?;
    if file.is_sealed() {
        let log = Sealed::open(alloc, file.into_all().map_err(unread)?).map_err(unopened)?;
        let behind = log.behind(alloc)?;
        let found = log.find(alloc, TEXT_HEADER, &behind)?;
        return Ok(print_records(&found, is_json, out)?);
    }
    if has_part_header(&file.held) {
        let bytes = file.into_all().map_err(unread)?;
        let Some(part) = PartPieces::open(alloc, bytes)? else {
            return Err(Halt::from(Fault::Header { log: 0 }));
        };
        let found = part.find(alloc)?;
        print_kind(("entry", None), &found, is_json, out)?;
        return Ok(out.flush()?);
    }
    let Some((head, rest)) = header_at(&file.held) else {
        return Err(Halt::from(Fault::Header { log: 0 }));
    };
    let first = file.held.len().saturating_sub(rest.len());
    file.pass(first);
    let text = Piece::of_rest(alloc, file.into_all().map_err(unread)?, first)?;
    let mut found = Vec::new(alloc);
    text.find(alloc, Items::Records, head.format, 0, &mut found)?;
    Ok(print_records(&found, is_json, out)?)
}

/// Prints a line for each kind of these records.
fn print_records<O: Write>(found: &[Placed<'_>], is_json: bool, out: &mut O) -> io::Result<()> {
    for kind in &KINDS {
        print_kind(*kind, found, is_json, out)?;
    }
    out.flush()
}

/// Prints the line of those of this kind.
fn print_kind<O: Write>(
    kind: Named,
    found: &[Placed<'_>],
    is_json: bool,
    out: &mut O,
) -> io::Result<()> {
    let (name, code) = kind;
    let mut count: u64 = 0;
    let mut bytes: u64 = 0;
    let mut first = u64::MAX;
    let mut last: u64 = 0;
    for Placed { item, .. } in found {
        if code.is_none() || item.bytes.get(KIND_AT).copied() == code {
            count = count.saturating_add(1);
            bytes = bytes.saturating_add(item.bytes.len() as u64);
            first = item.timestamp.min(first);
            last = item.timestamp.max(last);
        }
    }
    let has_times = count > 0 && code.is_some();
    let row = [
        ("kind", Cell::Word(name)),
        ("records", Cell::Number(Some(count))),
        ("bytes", Cell::Number(Some(bytes))),
        ("first", Cell::Number(has_times.then_some(first))),
        ("last", Cell::Number(has_times.then_some(last))),
    ];
    write_row(&row, is_json, out)
}
