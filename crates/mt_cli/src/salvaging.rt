//! Salvages damaged files: chooses what is kept of the records that are found in a log, or of the entries in a part.
use crate::ending::Again;
use crate::halt::Halt;
use crate::request::Cut;
use crate::sealed::{BEFORE_BODY, Piece, pieces_from, text_head};
use mt_block::part_header_at as sealed_header_at;
use mt_record::{
    FOOTER_BYTES, Found, Items, PartHead, encode_salvaged_part, footer_of, keep_most,
    part_header_at,
};
use mt_words::{Fault, Memory};
use std::alloc::Global;
use std::io::{self, ErrorKind, Write};

/// A record or an entry that was found, and where it begins and ends in its file.
#[derive(Clone, Copy)]
pub struct Placed<'s> {
    pub item: Found<'s>,
    pub from: usize,
    pub to: usize,
}

/// What is kept of a damaged file.
#[derive(Drop)]
pub struct Salvage<'s> {
    /// The records or entries.
    pub kept: Vec<Found<'s>>,
    /// What is skipped of the file, in order.
    skipped: Vec<Skipped>,
    /// The byte of the file where the last one ends, or the first would begin.
    pub end: usize,
}

/// Bytes of a file that are skipped.
#[derive(Clone, Copy)]
struct Skipped {
    from: usize,
    to: usize,
    /// The number of records or entries before them.
    count: usize,
}

impl<'s> Salvage<'s> {
    /// Keeps as many of these records as possible, so that their timestamps never fall; of entries, which have none, all. The
    /// first one would begin at the byte `begin` of the file. Err: out of memory.
    pub fn of(alloc: Global, found: &[Placed<'s>], begin: usize) -> Result<Salvage<'s>, Memory> {
        let mut times = Vec::with_capacity(alloc, found.len())?;
        for placed in found {
            times.push(placed.item.timestamp)?;
        }
        let marks = keep_most(alloc, &times)?;
        let mut all = Salvage {
            kept: Vec::new(alloc),
            skipped: Vec::new(alloc),
            end: begin,
        };
        for (placed, is_kept) in found.iter().zip(&marks) {
            if *is_kept {
                all.skip_to(placed.from)?;
                all.kept.push(placed.item)?;
                all.end = placed.to;
            }
        }
        Ok(all)
    }

    /// Skips what is left of the file before this byte. Err: out of memory.
    pub fn skip_to(&mut self, byte: usize) -> Result<(), Memory> {
        if self.end < byte {
            self.skipped.push(Skipped {
                from: self.end,
                to: byte,
                count: self.kept.len(),
            })?;
            self.end = byte;
        }
        Ok(())
    }

    /// Returns whether bytes of the file are skipped.
    pub fn has_skipped(&self) -> bool {
        !self.skipped.is_empty()
    }

    /// Returns where records or entries go on after the first damage. None: nowhere.
    pub fn again(&self) -> Option<Again> {
        let first = self.skipped.first()?;
        let records = self.kept.len().saturating_sub(first.count);
        (records > 0).then_some(Again {
            at: first.to,
            records,
        })
    }

    /// Prints a line for each span that is skipped; `items` is what is counted. A write error is passed over.
    pub fn tell<E: Write>(&self, items: &str, err: &mut E) {
        for span in &self.skipped {
            let Skipped { from, to, count } = *span;
            let bytes = to.saturating_sub(from);
            let _ = writeln!(
                err,
                "mtrecover: skipped: from={from} to={to} bytes={bytes} {items}={count}"
            );
        }
    }
}

/// A part as it stands in its file: in one piece or, if it is of format 4, in pieces between damaged blocks.
#[derive(Drop)]
pub struct PartPieces {
    /// The header of its text.
    head: PartHead,
    /// Its entries and its footer.
    pieces: Vec<Piece>,
    /// Its footer, in the last piece. None: it has none that can be true.
    footer: Option<Footer>,
    /// The byte of the file where its first entry is, if nothing is damaged before it.
    begin: usize,
    /// The number of bytes of the file.
    size: usize,
}

/// The footer of a part, and where it stands.
#[derive(Clone, Copy)]
struct Footer {
    /// The byte of the last piece's text where it begins.
    at: usize,
    /// The bytes of the file where it begins and ends.
    from: usize,
    to: usize,
    /// Where the checkpoint ends, and the number of entries.
    end: u64,
    count: u32,
}

impl PartPieces {
    /// Opens the part of these bytes. None: it has no header. Err: out of memory.
    pub fn open(alloc: Global, bytes: Vec<u8>) -> Result<Option<PartPieces>, Memory> {
        let size = bytes.len();
        let (head, pieces, begin) = match sealed_header_at(&bytes) {
            Some((header, rest)) => {
                let first = size.saturating_sub(rest.len());
                let pieces = pieces_from(alloc, header.mark(), &bytes, first)?;
                (text_head(header), pieces, first.saturating_add(BEFORE_BODY))
            }
            None => {
                let Some((head, rest)) = part_header_at(&bytes) else {
                    return Ok(None);
                };
                let begin = size.saturating_sub(rest.len());
                let mut text = bytes;
                text.drain(..begin);
                let mut pieces = Vec::new(alloc);
                pieces.push(Piece::of_rest(alloc, text, begin)?)?;
                (head, pieces, begin)
            }
        };
        let mut part = PartPieces {
            head,
            pieces,
            footer: None,
            begin,
            size,
        };
        part.footer = part.find_footer(alloc)?;
        Ok(Some(part))
    }

    /// Returns its entries, wherever they are before its footer. Err: out of memory.
    pub fn find(&self, alloc: Global) -> Result<Vec<Placed<'_>>, Memory> {
        self.find_before(alloc, self.footer.map_or(usize::MAX, |footer| footer.at))
    }

    /// Returns the entries of all pieces, those of the last one up to this byte of its text. Err: out of memory.
    fn find_before(&self, alloc: Global, end: usize) -> Result<Vec<Placed<'_>>, Memory> {
        let mut found = Vec::new(alloc);
        let last = self.pieces.len().saturating_sub(1);
        for (number, piece) in self.pieces.iter().enumerate() {
            let end = if number == last { end } else { usize::MAX };
            piece.find_within(
                alloc,
                Items::Entries,
                self.head.format,
                (0, end),
                &mut found,
            )?;
        }
        Ok(found)
    }

    /// Returns its footer. It must stand directly behind the last entry that is found, since bytes elsewhere may look like one, as
    /// those of a value that is cut. It ends the text or, if all entries that it counts stand before it, other bytes may follow.
    /// None: no such footer is there. Err: out of memory.
    fn find_footer(&self, alloc: Global) -> Result<Option<Footer>, Memory> {
        let Some(last) = self.pieces.last() else {
            return Ok(None);
        };
        let found = self.find_before(alloc, usize::MAX)?;
        if self.end_of(&found) == last.end() {
            // Entries end it: what ends the last one is no footer.
            return Ok(None);
        }
        if let Some(at) = self.bytes_in_a_row(&found) {
            let footer = self.footer_at(at, found.len());
            if footer.is_some_and(|footer| footer.count as usize == found.len()) {
                return Ok(footer);
            }
        }
        let Some(at) = last.text.len().checked_sub(FOOTER_BYTES) else {
            return Ok(None);
        };
        let found = self.find_before(alloc, at)?;
        if self.end_of(&found) != last.file_at(at) {
            return Ok(None);
        }
        Ok(self.footer_at(at, found.len()))
    }

    /// Returns the byte of the file where these entries end, or where the first one would begin.
    fn end_of(&self, found: &[Placed<'_>]) -> usize {
        found.last().map_or(self.begin, |entry| entry.to)
    }

    /// Returns the number of bytes of these entries, if the part is one piece that begins with them, one after the other.
    fn bytes_in_a_row(&self, found: &[Placed<'_>]) -> Option<usize> {
        if self.pieces.len() != 1 || found.first()?.from != self.begin {
            return None;
        }
        let mut bytes: usize = 0;
        for entry in found {
            if !entry.item.skipped.is_empty() {
                return None;
            }
            bytes = bytes.saturating_add(entry.item.bytes.len());
        }
        Some(bytes)
    }

    /// Returns the footer that stands at this byte of the last piece's text. None: it is none, its checkpoint would end before it
    /// begins, or it counts fewer entries than this number.
    fn footer_at(&self, at: usize, entries: usize) -> Option<Footer> {
        let last = self.pieces.last()?;
        let behind = at.saturating_add(FOOTER_BYTES);
        let (end, count) = footer_of(last.text.get(at..behind)?)?;
        if end < self.head.begin || (count as usize) < entries {
            return None;
        }
        Some(Footer {
            at,
            from: last.file_at(at),
            to: last.file_at(behind),
            end,
            count,
        })
    }

    /// Returns what can be salvaged of it. Err: out of memory.
    pub fn salvage(&self, alloc: Global) -> Result<Salvage<'_>, Memory> {
        let found = self.find(alloc)?;
        let mut all = Salvage::of(alloc, &found, self.begin)?;
        if let Some(footer) = self.footer {
            all.skip_to(footer.from)?;
            all.end = footer.to;
        }
        all.skip_to(self.size)?;
        Ok(all)
    }

    /// Returns the number of entries in its footer, if the part is broken only because it has not as many. Err: out of memory.
    pub fn wrong_count(&self, alloc: Global) -> Result<Option<u32>, Memory> {
        let Some(last) = self.pieces.last() else {
            return Ok(None);
        };
        let Some(at) = last.text.len().checked_sub(FOOTER_BYTES) else {
            return Ok(None);
        };
        let found = self.find_before(alloc, at)?;
        let mut all = Salvage::of(alloc, &found, self.begin)?;
        all.skip_to(last.file_at(at))?;
        let Some((_, count)) = footer_of(last.text.get(at..).unwrap_or(&[])) else {
            return Ok(None);
        };
        let is_wrong = all.skipped.is_empty()
            && last.end() == self.size
            && found.len() != count as usize;
        Ok(is_wrong.then_some(count))
    }

    /// Returns where its checkpoint ends, by its footer. None: it has none that can be true.
    fn end(&self) -> Option<u64> {
        self.footer.map(|footer| footer.end)
    }
}

/// Prints the part of the entries of a part that can be salvaged, in format 2 if it is of format 4, and tells on `err` what it
/// skips. Its footer has their number, and where the checkpoint ends. Returns whether it skips bytes.
pub fn cut_part<'a, O: Write, E: Write>(
    alloc: Global,
    bytes: Vec<u8>,
    how: &Cut,
    out: &mut O,
    err: &mut E,
) -> Result<bool, Halt<'a>> {
    if how.below.is_some() {
        return Err(refused(alloc, "its entries have no timestamps", "leave out --below"));
    }
    let Some(part) = PartPieces::open(alloc, bytes)? else {
        return Err(Halt::from(Fault::Header { log: 0 }));
    };
    let all = part.salvage(alloc)?;
    let Some(end) = how.end.or(part.end()) else {
        return Err(refused(
            alloc,
            "it has no footer that can be true",
            "say by --end where its checkpoint ends, as its other parts and check do",
        ));
    };
    let Some(made) = encode_salvaged_part(alloc, part.head, end, &all.kept)? else {
        return Err(refused(
            alloc,
            "it has 4294967296 entries or more",
            "put a good copy back",
        ));
    };
    out.write_all(&made)?;
    out.flush()?;
    all.tell("entries", err);
    Ok(all.has_skipped())
}

/// Returns why a part is not salvaged.
fn refused<'a>(alloc: Global, reason: &'static str, advice: &'static str) -> Halt<'a> {
    let reason = io::Error::new(ErrorKind::Unsupported, reason);
    Halt::stuck(alloc, "cut", "the part", reason, advice)
}
