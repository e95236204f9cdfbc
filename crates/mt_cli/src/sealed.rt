//! A file of format 4 that is held as a whole: its text, and where each byte of this stands in the file.
use crate::ending::{Again, Ending, WIDEST};
use crate::headless::{HEADER, mark_in};
use crate::hints::zeros_at_end;
use crate::salvaging::Placed;
use crate::torn::may_begin_record;
use mt_block::{
    FRAME_BYTES, PartHeader, find_head, has_some_head, header_at, next_block, part_header_at,
};
use mt_record::{
    BlockAt, FOOTER_BYTES, Head, Items, KeptRecords, LogFeed, LogFront, OpenedFile, PartHead, Rest,
    Segment, encode_head, find_items, footer_of, open_file,
};
use mt_recover::{Failure, Refusal};
use mt_words::{Fault, Format, Memory, What};
use std::alloc::Global;
use std::io::{self, ErrorKind};

/// The bytes of a part's header, and of the header of a log's text.
pub const PART_HEADER: usize = 36;

pub const TEXT_HEADER: usize = 20;

/// The bytes of a block before its body.
pub const BEFORE_BODY: usize = 12;

/// What stands in blocks that follow one another.
#[derive(Drop)]
pub struct Piece {
    pub text: Vec<u8>,
    blocks: Vec<BlockAt>,
    /// The bytes of a block before its body.
    before: usize,
    /// The byte of the file where the blocks end.
    end: usize,
}

impl Piece {
    /// Reads what stands in the blocks with this mark from this byte of a file on. `front` is the text before it.
    fn read(
        alloc: Global,
        mark: u32,
        bytes: &[u8],
        at: usize,
        front: Vec<u8>,
    ) -> Result<Piece, Memory> {
        let mut piece = Piece {
            text: front,
            blocks: Vec::new(alloc),
            before: BEFORE_BODY,
            end: at,
        };
        for _ in 0..u64::MAX {
            let rest = bytes.get(piece.end..).unwrap_or(&[]);
            let Ok(Some((body, _))) = next_block(mark, rest) else {
                break;
            };
            piece.blocks.push(BlockAt {
                file: piece.end,
                text: piece.text.len(),
            })?;
            piece.text.extend_from_slice(body)?;
            piece.end = piece
                .end
                .saturating_add(FRAME_BYTES)
                .saturating_add(body.len());
        }
        Ok(piece)
    }

    /// Returns this text, which ends a file and begins at this byte of it, as a block that is nothing but its body. Err: out of
    /// memory.
    pub fn of_rest(alloc: Global, text: Vec<u8>, at: usize) -> Result<Piece, Memory> {
        let mut blocks = Vec::new(alloc);
        blocks.push(BlockAt { file: at, text: 0 })?;
        let end = at.saturating_add(text.len());
        Ok(Piece {
            text,
            blocks,
            before: 0,
            end,
        })
    }

    /// Returns the byte of the file where its blocks end.
    pub fn end(&self) -> usize {
        self.end
    }

    /// Returns the byte of the file where this byte of the text stands, or where the blocks end, if it has no such byte.
    pub fn file_at(&self, text: usize) -> usize {
        if text >= self.text.len() {
            return self.end;
        }
        let before = self.blocks.partition_point(|block| block.text <= text);
        match self.blocks.get(before.saturating_sub(1)) {
            Some(block) => block
                .file
                .saturating_add(self.before)
                .saturating_add(text.saturating_sub(block.text)),
            None => self.end,
        }
    }

    /// Appends the records or entries from this byte of its text on. Err: out of memory.
    pub fn find<'s>(
        &'s self,
        alloc: Global,
        items: Items,
        format: Format,
        start: usize,
        all: &mut Vec<Placed<'s>>,
    ) -> Result<(), Memory> {
        self.find_within(alloc, items, format, (start, usize::MAX), all)
    }

    /// Appends the records or entries from the first of these bytes of its text on, up to the second one or the end of the text.
    /// Err: out of memory.
    pub fn find_within<'s>(
        &'s self,
        alloc: Global,
        items: Items,
        format: Format,
        (start, end): (usize, usize),
        all: &mut Vec<Placed<'s>>,
    ) -> Result<(), Memory> {
        let end = end.min(self.text.len());
        let text = self.text.get(start..end).unwrap_or(&[]);
        let mut at = start;
        for item in &find_items(alloc, items, format, text)? {
            let from = at.saturating_add(item.skipped.len());
            at = from.saturating_add(item.bytes.len());
            all.push(Placed {
                item: *item,
                from: self.file_at(from),
                to: self.file_at(at),
            })?;
        }
        Ok(())
    }

    /// Returns the first byte of the records or entries in the text that stands at this byte of the file or behind it.
    fn text_at(&self, file: usize) -> usize {
        let mut found = TEXT_HEADER;
        for block in &self.blocks {
            let body = block.file.saturating_add(self.before);
            if body > file {
                return found.min(block.text);
            }
            found = block.text.saturating_add(file.saturating_sub(body));
        }
        found.min(self.text.len())
    }
}

/// A log of format 4.
#[derive(Drop)]
pub struct Sealed {
    bytes: Vec<u8>,
    /// What its blocks begin with.
    mark: u32,
    /// How far it is a log. Its bytes are those of its text.
    pub front: LogFront,
    /// Its text, up to the end or the first damage.
    pub first: Piece,
}

impl Sealed {
    /// Opens the log of these bytes. Err: it has no header, or out of memory.
    pub fn open(alloc: Global, bytes: Vec<u8>) -> Result<Sealed, Fault> {
        let mut feed: LogFeed<KeptRecords> = LogFeed::keeping(alloc);
        // The feed keeps a fault.
        let _ = feed.feed(&bytes);
        let front = match feed.front() {
            Ok(front) => front,
            Err(fault) => return Err(fault.of_log(0)),
        };
        let opened = match open_file(alloc, &bytes) {
            Ok(opened) => opened,
            Err(fault) => return Err(fault.of_log(0)),
        };
        let Some(opened) = opened else {
            return Err(Fault::Header { log: 0 });
        };
        let OpenedFile {
            header,
            text,
            blocks,
            ..
        } = opened;
        let end = match blocks.last() {
            Some(block) => block
                .file
                .saturating_add(FRAME_BYTES)
                .saturating_add(text.len().saturating_sub(block.text)),
            None => HEADER,
        };
        Ok(Sealed {
            mark: header.mark(),
            bytes,
            front,
            first: Piece {
                text,
                blocks,
                before: BEFORE_BODY,
                end,
            },
        })
    }

    /// Opens the log of these bytes by the header of a segment in place of its own one. If that is lost, the blocks tell the
    /// mark, and the first ones stand where they do, up to its end. Err: out of memory.
    pub fn with_head(alloc: Global, bytes: Vec<u8>, head: Head) -> Result<Sealed, Fault> {
        let (mark, at) = match header_at(&bytes) {
            Some((header, _)) => (header.mark(), HEADER),
            // Without a whole block none has any mark.
            None => match mark_in(&bytes) {
                Some(mark) => (mark, first_block(mark, &bytes).min(HEADER)),
                None => (0, HEADER),
            },
        };
        let front = encode_head(alloc, head)?;
        let first = Piece::read(alloc, mark, &bytes, at.min(bytes.len()), front)?;
        let mut feed: LogFeed<KeptRecords> = LogFeed::keeping(alloc);
        // The feed keeps a fault.
        let _ = feed.feed(&first.text);
        let front = match feed.front() {
            Ok(front) => front,
            Err(fault) => return Err(fault.of_log(0)),
        };
        let rest = match front.rest {
            Rest::Faulty(what) => Rest::Faulty(what),
            rest => rest_of(mark, bytes.get(first.end..).unwrap_or(&[]), rest),
        };
        Ok(Sealed {
            mark,
            bytes,
            front: LogFront { rest, ..front },
            first,
        })
    }

    /// Returns the byte of its text where its complete records end.
    pub fn records_end(&self) -> usize {
        self.front.bytes as usize
    }

    /// Returns the bytes of its complete records.
    pub fn records(&self) -> &[u8] {
        let text = self.first.text.as_slice();
        text.get(TEXT_HEADER..self.records_end()).unwrap_or(&[])
    }

    /// Returns the byte of the text where reading begins: from this byte of the file on, or from the first record on.
    pub fn start(&self, file: Option<u64>) -> usize {
        match file {
            Some(file) => self.first.text_at(file as usize),
            None => TEXT_HEADER,
        }
    }

    /// Returns the number of its bytes.
    pub fn size(&self) -> usize {
        self.bytes.len()
    }

    /// Returns what stands in the whole blocks behind the first damage, wherever they are.
    pub fn behind(&self, alloc: Global) -> Result<Vec<Piece>, Memory> {
        pieces_from(alloc, self.mark, &self.bytes, self.first.end)
    }

    fn bytes_from(&self, at: usize) -> &[u8] {
        self.bytes.get(at..).unwrap_or(&[])
    }

    /// Returns the records from this byte of its text on, and in what is behind. Err: out of memory.
    pub fn find<'s>(
        &'s self,
        alloc: Global,
        at: usize,
        behind: &'s [Piece],
    ) -> Result<Vec<Placed<'s>>, Memory> {
        let format = self.front.head.format;
        let mut all = Vec::new(alloc);
        self.first
            .find(alloc, Items::Records, format, at, &mut all)?;
        for piece in behind {
            piece.find(alloc, Items::Records, format, 0, &mut all)?;
        }
        Ok(all)
    }

    /// Returns what is in a log that has lost its header: all that its file holds. Err: out of memory.
    pub fn ending_of_all(&self, alloc: Global) -> Result<Ending, Memory> {
        let behind = self.behind(alloc)?;
        let all = self.find(alloc, TEXT_HEADER, &behind)?;
        Ok(ending_of(&self.bytes, &all))
    }

    /// Returns what follows its records, which were read up to this byte of its text. None: nothing. Err: out of memory.
    pub fn ending(&self, alloc: Global, at: usize) -> Result<Option<Ending>, Memory> {
        let rest = self.bytes_from(self.first.file_at(at));
        if rest.is_empty() {
            return Ok(None);
        }
        let behind = self.behind(alloc)?;
        let text = self.first.text.get(at..).unwrap_or(&[]);
        let front = &self.front;
        if behind.is_empty() && may_begin_record(front.head.format, front.latest, text) {
            return Ok(Some(ending_of(rest, &[])));
        }
        let all = self.find(alloc, at, &behind)?;
        Ok(Some(ending_of(rest, &all)))
    }
}

/// Returns that these bytes follow, in which these records are.
fn ending_of(rest: &[u8], all: &[Placed<'_>]) -> Ending {
    Ending {
        bytes: rest.len(),
        zeros: zeros_at_end(rest),
        again: all.first().map(|first| Again {
            at: first.from,
            records: all.len(),
        }),
        hints: None,
    }
}

/// Returns what follows the records of a log of format 4. Its whole blocks end before these bytes, and its text is this.
fn rest_of(mark: u32, bytes: &[u8], text: Rest) -> Rest {
    match next_block(mark, bytes) {
        Ok(_) if bytes.is_empty() => text,
        Err(behind) if has_some_head(mark, behind) => Rest::Faulty(What::Checksum),
        Ok(_) | Err(_) => Rest::Torn,
    }
}

/// Returns the byte at which the first whole block with this mark begins, or the number of bytes, if there is none.
fn first_block(mark: u32, bytes: &[u8]) -> usize {
    for at in 0..bytes.len() {
        if let Ok(Some(_)) = next_block(mark, bytes.get(at..).unwrap_or(&[])) {
            return at;
        }
    }
    bytes.len()
}

/// The header by which a log of format 4 is read that has lost its own.
pub const UNKNOWN_SEGMENT: Head = Head {
    format: WIDEST,
    from: 0,
    segment: Some(Segment {
        worker: 0,
        number: 0,
    }),
};

/// Returns what stands in the whole blocks with this mark from this byte of a file on, wherever they are. Err: out of memory.
pub fn pieces_from(
    alloc: Global,
    mark: u32,
    bytes: &[u8],
    at: usize,
) -> Result<Vec<Piece>, Memory> {
    let mut pieces = Vec::new(alloc);
    let mut at = at;
    for _ in 0..u64::MAX {
        match next_block(mark, bytes.get(at..).unwrap_or(&[])) {
            Ok(Some(_)) => {
                let piece = Piece::read(alloc, mark, bytes, at, Vec::new(alloc))?;
                at = piece.end;
                pieces.push(piece)?;
            }
            // The end of the file, which may be torn.
            Ok(None) => break,
            Err(behind) => {
                let passed = bytes.len().saturating_sub(behind.len());
                at = passed.saturating_add(find_head(mark, behind));
            }
        }
    }
    Ok(pieces)
}

/// Returns the header of the text of a part of format 4.
pub fn text_head(header: PartHeader) -> PartHead {
    let PartHeader {
        number,
        part,
        parts,
        begin,
        ..
    } = header;
    PartHead {
        format: Format::Two,
        number,
        begin,
        part,
        parts,
    }
}

/// A part of format 4.
#[derive(Drop)]
pub struct SealedPart {
    pub bytes: Vec<u8>,
    /// The header of its text.
    pub head: PartHead,
    /// Its entries and its footer, up to its end or to what is broken.
    pub body: Piece,
}

impl SealedPart {
    /// Opens the part of these bytes. Err: it has no header, or out of memory.
    pub fn open(alloc: Global, bytes: Vec<u8>) -> Result<SealedPart, Fault> {
        let Some((header, rest)) = part_header_at(&bytes) else {
            return Err(Fault::Header { log: 0 });
        };
        let first = bytes.len().saturating_sub(rest.len());
        let body = match Piece::read(alloc, header.mark(), &bytes, first, Vec::new(alloc)) {
            Ok(body) => body,
            Err(Memory) => return Err(Fault::Memory),
        };
        let head = text_head(header);
        Ok(SealedPart { bytes, head, body })
    }

    /// Returns the byte of the body where reading begins: from this byte of the file on, or from the first entry on.
    pub fn start(&self, file: Option<u64>) -> usize {
        file.map_or(0, |file| self.body.text_at(file as usize))
    }

    /// Returns whether just a footer is left of it behind this byte of its body.
    pub fn ends_at(&self, at: usize) -> bool {
        let rest = self.body.text.get(at..).unwrap_or(&[]);
        self.body.end == self.bytes.len() && is_footer(rest)
    }
}

/// Returns whether these bytes are just a footer.
pub fn is_footer(bytes: &[u8]) -> bool {
    bytes.len() == FOOTER_BYTES && footer_of(bytes).is_some()
}

/// Returns the text of a log of these bytes: that of the file of format 4 that was opened, or else the bytes.
pub fn text_in<'t>(opened: &'t Option<OpenedFile>, bytes: &'t [u8]) -> &'t [u8] {
    match opened {
        Some(file) => &file.text,
        None => bytes,
    }
}

/// Returns why a file of format 4 that is the only one of a command is not opened.
pub fn unopened(fault: Fault) -> Refusal<'static> {
    match fault {
        Fault::Header { .. } => {
            let reason = io::Error::new(ErrorKind::InvalidData, NO_HEADER);
            Refusal::of(Failure::Recovery(fault), reason)
        }
        fault => Refusal::from(fault),
    }
}

/// What is wrong with a file of format 4 that has lost its header.
pub const NO_HEADER: &str = "it is of format 4, and its header is not whole";
