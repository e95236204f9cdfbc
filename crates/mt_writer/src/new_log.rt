//! Begins the files of logs.
ghost use Rattle.std.specs.Prelude.{◌≡◌, false, max, IfOk};
ghost use Rattle.mt_block.specs.Blocks.{IsHeader};
ghost use Rattle.mt_record.specs.declared.feed.head.Head.{Head as HeadValue};
ghost use Rattle.mt_record.specs.Opening.{text_head};
ghost use Rattle.mt_writer.specs.Journals.{Begins, Keeps, IsFileOf, begun};

use crate::held::Held;
use crate::log_writer::LogWriter;
use mt_block::{Header, append_block};
use mt_record::{Segment, encode_record};
use mt_words::{Memory, Record};
use std::alloc::Global;
use std::marker::Model;

/// The number of bytes of the text of a new file: its header and a mark.
const TEXT_BYTES: u64 = 37;

/// How many more bytes the new file has: its header is longer, and the mark stands in a block.
const MORE_BYTES: u64 = 40;

/// The bytes of a file of a log that is to be created: a header, and a mark at or past its `from`.
#[derive(Drop)]
pub struct NewLog {
    bytes: Vec<u8>,
    header: Header,
    mark: u64,
}

impl Model for NewLog {
    ghost use Rattle.mt_writer.specs.Journals.{NewFile};

    ghost Value = { NewFile };

    ghost view = { λ n. record { bytes = n.bytes.items; header = n.header; mark = n.mark } };
}

impl NewLog {
    /// Begins the segment of this header, with a mark at `mark`, or at the header's `from` if that is greater. Err: out of
    /// memory.
    pub fn begin(alloc: Global, header: Header, mark: u64) -> Result<NewLog, Memory>
        ensures begins { IfOk result (λ new. Begins new (text_head header)) }
        ensures header { IfOk result (λ new. new.header ≡ header) }
        ensures mark { IfOk result (λ new. new.mark ≡ max header.from mark) }
    {
        // These loads show the proof that the numbers fit.
        let _loaded = (header.salt, header.worker, header.segment, header.workers);
        let mark = header.from.max(mark);
        let mut record = Vec::new(alloc);
        encode_record(&Record::mark(mark), &mut record)?;
        let mut bytes = header.bytes(alloc)?;
        append_block(header.mark(), &record, &mut bytes)?;
        Ok(NewLog {
            bytes,
            header,
            mark,
        })
    }

    /// Returns the bytes of the file. They are written under another name and synced, the file is renamed, and the
    /// folder is synced.
    pub fn bytes(&self) -> &[u8]
        ensures { result.now ≡ self.now.bytes }
    {
        self.bytes.as_slice()
    }

    /// Returns the header of the file.
    pub fn header(&self) -> Header
        ensures { result ≡ self.now.header }
    {
        self.header
    }

    /// Returns the timestamp of the file's mark.
    pub fn mark(&self) -> u64
        ensures { result ≡ self.now.mark }
    {
        self.mark
    }

    /// Returns the writer of the file, which has its name, with all of its bytes synced.
    pub fn created(self) -> LogWriter
        ensures keeps { (head : HeadValue) → Begins self head → Keeps result (begun head self.mark) }
        ensures file { (head : HeadValue) → Begins self head → IsFileOf result (begun head self.mark) self.bytes }
        ensures failed { result.failed ≡ false }
    {
        let worker = self.header.worker;
        let number = self.header.segment;
        LogWriter {
            held: Held::new(Some(self.header.mark()), self.bytes),
            last: self.mark,
            taken: self.mark,
            reach: self.mark,
            size: TEXT_BYTES,
            taken_size: TEXT_BYTES,
            synced_size: TEXT_BYTES,
            frames: MORE_BYTES,
            segment: Some(Segment { worker, number }),
            failed: false,
        }
    }
}
