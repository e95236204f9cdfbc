//! Answers the subcommand `cut`.
use crate::answering::PRINTED_AT_ONCE;
use crate::caveat::plural;
use crate::halt::Halt;
use crate::headless::{mark_in, with_part_header};
use crate::host::Host;
use crate::intake::{Intake, LogIntake, feed_piece, open, unread};
use crate::request::Cut;
use crate::salvaging::{Placed, Salvage, cut_part};
use crate::sealed::{Piece, Sealed, TEXT_HEADER, unopened};
use crate::stop::Stop;
use mt_block::header_at as sealed_header_at;
use mt_record::{
    Head, Items, KeptRecords, LogFeed, Segment, encode_head, encode_record, find_items, header_at,
    is_sealed_part, part_header_at,
};
use mt_recover::Refusal;
use mt_words::{Fault, Record};
use std::alloc::Global;
use std::io::{self, ErrorKind, Read, Write};

/// Prints a log of complete records of the log, byte for byte, as it reads them, and tells on `err` what it leaves out. If it
/// is to skip damage, it holds the file, and prints as many records as possible, in order, whose timestamps never fall; of a
/// part the part of its entries. A log of format 4 it holds as well, and prints its text, a segment. By another header it prints
/// nothing if no record is there. Returns whether it leaves out more than a crash leaves that was not acknowledged.
pub fn cut<'a, R: Host, O: Write, E: Write>(
    rt: &R,
    path: &'a str,
    how: &Cut,
    is_verbose: bool,
    out: &mut O,
    err: &mut E,
) -> Result<bool, Halt<'a>> {
    let mut file = open(rt, path)?;
    let name = is_verbose.then_some(path);
    if file.is_sealed() || how.header.is_some() && has_lost_header(&mut file)? {
        let bytes = file.into_all().map_err(unread)?;
        let log = match how.header {
            None => Sealed::open(rt.alloc(), bytes).map_err(unopened)?,
            Some(head) => open_by(rt.alloc(), bytes, head, err)?,
        };
        let cutter = Cutter::new(rt.alloc(), log.front.head, how, out)?;
        let made = cutter.cut_sealed(&log, name, err)?;
        return expect_records(rt.alloc(), made, how);
    }
    if how.is_skipping && how.header.is_none() && header_at(&file.held).is_none() {
        let bytes = with_part_header(rt.alloc(), file.into_all().map_err(unread)?)?;
        if has_part_header(&bytes) {
            return cut_part(rt.alloc(), bytes, how, out, err);
        }
        return Err(Halt::from(Fault::Header { log: 0 }));
    }
    let (head, first) = match how.header {
        Some(head) => (head, pass_header(&file.held, head, err)),
        None => match header_at(&file.held) {
            Some((head, rest)) => (head, file.held.len().saturating_sub(rest.len())),
            None if has_part_header(&file.held) => return Err(is_part(rt.alloc())),
            None => return Err(Halt::from(Fault::Header { log: 0 })),
        },
    };
    file.pass(first);
    let made = if how.is_skipping {
        let bytes = file.into_all().map_err(unread)?;
        let size = first.saturating_add(bytes.len());
        let text = Piece::of_rest(rt.alloc(), bytes, first)?;
        let mut found = Vec::new(rt.alloc());
        text.find(rt.alloc(), Items::Records, head.format, 0, &mut found)?;
        let cutter = Cutter::new(rt.alloc(), head, how, out)?;
        cutter.salvage(&found, first, size, err)?
    } else {
        let log = LogIntake::new(rt.alloc(), file, head)?;
        let cutter = Cutter::new(rt.alloc(), head, how, out)?;
        cutter.cut(log, name, err)?
    };
    expect_records(rt.alloc(), made, how)
}

/// Returns whether a file is of format 4, but does not begin as one: its header is lost, and blocks are in it. Reads it to its end if
/// its header is lost.
fn has_lost_header<F: Read + Drop>(file: &mut Intake<F>) -> Result<bool, Refusal<'static>> {
    if header_at(&file.held).is_some() {
        return Ok(false);
    }
    file.read(u64::MAX).map_err(unread)?;
    Ok(mark_in(&file.held).is_some())
}

/// Opens a log of format 4 by this header, in place of its own one. Tells if that has a lower `from`.
fn open_by<E: Write>(
    alloc: Global,
    bytes: Vec<u8>,
    head: Head,
    err: &mut E,
) -> Result<Sealed, Halt<'static>> {
    if head.segment.is_none() {
        return Err(is_segment(alloc));
    }
    if let Some((own, _)) = sealed_header_at(&bytes) {
        tell_lower(own.from, head, err);
    }
    Ok(Sealed::with_head(alloc, bytes, head).map_err(unopened)?)
}

/// Returns whether more is left out than a crash leaves. Refuses a log without a complete record if it gets a header, since that
/// alone would hold the cutoff at its `from`.
fn expect_records(alloc: Global, made: Made, how: &Cut) -> Result<bool, Halt<'static>> {
    match how.header {
        Some(head) if !made.has_records => Err(has_no_record(alloc, head.from)),
        _ => Ok(made.is_lossy),
    }
}

/// Returns whether a file is a part, as its first bytes say.
pub fn has_part_header(bytes: &[u8]) -> bool {
    part_header_at(bytes).is_some() || is_sealed_part(bytes)
}

/// Returns that a part is not cut at its damage.
fn is_part(alloc: Global) -> Halt<'static> {
    let reason = io::Error::new(ErrorKind::Unsupported, "it begins with a part's header");
    Halt::stuck(
        alloc,
        "cut",
        "a part, which records prints",
        reason,
        "print it by records, or save its entries by cut --skip",
    )
}

/// Returns the number of bytes of a log's own header, if it is not lost, which another one replaces. Tells if that has a lower
/// `from`. A write error is passed over.
fn pass_header<E: Write>(bytes: &[u8], head: Head, err: &mut E) -> usize {
    let Some((own, rest)) = header_at(bytes) else {
        return 0;
    };
    tell_lower(own.from, head, err);
    bytes.len().saturating_sub(rest.len())
}

/// Tells if the `from` that a log had is lowered by its new header. A write error is passed over.
fn tell_lower<E: Write>(from: u64, head: Head, err: &mut E) {
    if from > head.from {
        let _ = writeln!(
            err,
            "mtrecover: its from was {from}: updates below that are lost, unless other files have them"
        );
    }
}

/// Returns that a log without a complete record gets no header.
fn has_no_record(alloc: Global, from: u64) -> Halt<'static> {
    let name = match format!(in alloc; "a log without a complete record: it would end at {from}") {
        Ok(name) => name,
        Err(refused) => return Halt::from(refused),
    };
    let reason = io::Error::new(ErrorKind::Unsupported, "the cutoff would not be above that");
    let advice = "put a good copy back; else move it away, or end it by --end as check says";
    Halt::stuck(alloc, "cut", name.as_str(), reason, advice)
}

/// Returns that a log of format 4 takes only the header of a segment, which it is.
fn is_segment(alloc: Global) -> Halt<'static> {
    let reason = io::Error::new(ErrorKind::Unsupported, "it is a segment of a worker's log");
    Halt::stuck(
        alloc,
        "cut",
        "a log of format 4 by the header of none",
        reason,
        "say 3:FROM:WORKER:SEGMENT, as check does",
    )
}

/// Prints a log that is cut.
#[derive(Drop)]
struct Cutter<'x, O> {
    alloc: Global,
    head: Head,
    how: &'x Cut,
    out: &'x mut O,
    /// The header, until it is printed, if it takes the place of another one. Without records it is not printed.
    header: Option<Vec<u8>>,
    /// If the log is a segment, or is to end with a mark, it reads what is printed.
    feed: Option<LogFeed<KeptRecords>>,
    /// Whether the last bytes of the log so far are not printed.
    is_cut: bool,
    /// The number of records that are not printed since they are not below the timestamp that is wanted.
    not_below: usize,
    made: Made,
}

/// What became of a log.
#[derive(Clone, Copy)]
struct Made {
    /// Whether a record is printed.
    has_records: bool,
    /// Whether more is left out than a crash leaves, or may be lost by a header or a mark.
    is_lossy: bool,
}

impl<'x, O: Write> Cutter<'x, O> {
    /// Prints the header of the log, unless it takes the place of another one.
    fn new(
        alloc: Global,
        head: Head,
        how: &'x Cut,
        out: &'x mut O,
    ) -> Result<Cutter<'x, O>, Refusal<'static>> {
        let header = encode_head(alloc, head)?;
        if how.header.is_none() {
            out.write_all(&header)?;
        }
        let feed = if head.segment.is_some() || how.end.is_some() {
            let mut feed = LogFeed::keeping(alloc);
            feed_all(&mut feed, &header);
            Some(feed)
        } else {
            None
        };
        Ok(Cutter {
            alloc,
            head,
            how,
            out,
            header: how.header.is_some().then_some(header),
            feed,
            is_cut: false,
            not_below: 0,
            made: Made {
                has_records: false,
                is_lossy: how.header.is_some(),
            },
        })
    }

    /// Prints the records of the log, and tells on `err` what is left out, and where a segment then ends. If there is a name,
    /// tells what may have happened to the file.
    fn cut<F: Read + Drop, E: Write>(
        self,
        log: LogIntake<F>,
        name: Option<&str>,
        err: &mut E,
    ) -> Result<Made, Refusal<'static>> {
        let mut cutter = self;
        let mut log = log;
        for _ in 0..u64::MAX {
            cutter.print(log.records())?;
            log.pass();
            if !log.more()? {
                break;
            }
        }
        log.read_rest()?;
        let stop = Stop::of(cutter.alloc, &log);
        cutter.finish(stop, name, err)
    }

    /// Prints the records of a log of format 4, likewise.
    fn cut_sealed<E: Write>(
        self,
        log: &Sealed,
        name: Option<&str>,
        err: &mut E,
    ) -> Result<Made, Refusal<'static>> {
        let mut cutter = self;
        if cutter.how.is_skipping {
            let behind = log.behind(cutter.alloc)?;
            let found = log.find(cutter.alloc, TEXT_HEADER, &behind)?;
            return cutter.salvage(&found, log.first.file_at(TEXT_HEADER), log.size(), err);
        }
        cutter.print(log.records())?;
        let stop = Stop::of_sealed(cutter.alloc, log);
        cutter.finish(stop, name, err)
    }

    /// Prints as many of these records as possible, in order, whose timestamps never fall, and tells on `err` what is skipped
    /// of a file of this size, the first record of which would begin at the byte `begin`, and where a segment then ends.
    fn salvage<E: Write>(
        self,
        found: &[Placed<'_>],
        begin: usize,
        size: usize,
        err: &mut E,
    ) -> Result<Made, Refusal<'static>> {
        let mut cutter = self;
        let mut all = Salvage::of(cutter.alloc, found, begin)?;
        for record in &all.kept {
            cutter.print(record.bytes)?;
        }
        cutter.out.flush()?;
        cutter.is_cut = cutter.is_cut || all.end < size;
        all.skip_to(size)?;
        all.tell("records", err);
        cutter.made.is_lossy = cutter.made.is_lossy || all.has_skipped();
        cutter.finish(Ok(None), None, err)
    }

    /// Ends the log, and tells on `err` how many records are not below the timestamp that is wanted, where its records stop, if
    /// something follows that is left out, and where a segment then ends.
    fn finish<E: Write>(
        self,
        stop: Result<Option<Stop>, Refusal<'static>>,
        name: Option<&str>,
        err: &mut E,
    ) -> Result<Made, Refusal<'static>> {
        let mut cutter = self;
        cutter.out.flush()?;
        cutter.tell_not_below(err);
        if let Some(stop) = stop? {
            cutter.is_cut = true;
            cutter.made.is_lossy = cutter.made.is_lossy || !stop.is_of_crash();
            stop.tell("left out: ", name, err);
        }
        cutter.mark(err)?;
        if let Some(end) = cutter.end()? {
            end.tell(err);
        }
        Ok(cutter.made)
    }

    /// Tells on `err` how many records are not below the timestamp that is wanted, if some are not. A write error is passed over.
    fn tell_not_below<E: Write>(&mut self, err: &mut E) {
        let Some(timestamp) = self.how.below else {
            return;
        };
        let count = self.not_below;
        if count == 0 {
            return;
        }
        let s = plural(count as u128);
        let _ = writeln!(
            err,
            "mtrecover: left out: {count} record{s} from timestamp {timestamp} on"
        );
        self.made.is_lossy = true;
    }

    /// Ends the log with the mark that is wanted, if one is and it ends before that, and tells on `err` what may be lost.
    fn mark<E: Write>(&mut self, err: &mut E) -> Result<(), Refusal<'static>> {
        let Some(end) = self.how.end else {
            return Ok(());
        };
        let last = match &self.feed {
            Some(feed) => last_in(feed)?,
            None => end,
        };
        if end <= last {
            return Ok(());
        }
        let mut record = Vec::new(self.alloc);
        encode_record(&Record::mark(end), &mut record)?;
        if let Some(feed) = &mut self.feed {
            let _ = feed.feed(&record);
        }
        self.made.is_lossy = true;
        self.write_records(&record)?;
        self.out.flush()?;
        // A write error is passed over.
        let _ = writeln!(
            err,
            "mtrecover: a mark now ends it at {end}: if it had updates from {last} up to that, they are lost"
        );
        Ok(())
    }

    /// Prints those of these records that are kept.
    fn print(&mut self, records: &[u8]) -> Result<(), Refusal<'static>> {
        if records.is_empty() {
            return Ok(());
        }
        let kept = self.how.kept(self.head.format, records);
        if let Some(feed) = &mut self.feed {
            feed_all(feed, kept);
        }
        let rest = records.get(kept.len()..).unwrap_or(&[]);
        self.is_cut = !rest.is_empty();
        if self.is_cut {
            let found = find_items(self.alloc, Items::Records, self.head.format, rest)?;
            self.not_below = self.not_below.saturating_add(found.len());
        }
        if kept.is_empty() {
            return Ok(());
        }
        self.write_records(kept)
    }

    /// Prints records, after the header if that is not printed yet.
    fn write_records(&mut self, records: &[u8]) -> Result<(), Refusal<'static>> {
        if let Some(header) = self.header.take() {
            self.out.write_all(&header)?;
        }
        self.made.has_records = true;
        Ok(self.out.write_all(records)?)
    }

    /// Returns where the segment ends, if its last bytes are not printed.
    fn end(&self) -> Result<Option<SegmentEnd>, Refusal<'static>> {
        match (self.head.segment, &self.feed) {
            (Some(segment), Some(feed)) if self.is_cut => {
                let last = last_in(feed)?;
                Ok(Some(SegmentEnd { segment, last }))
            }
            _ => Ok(None),
        }
    }
}

/// Where a segment of a worker's log ends once it is cut.
#[derive(Clone, Copy)]
struct SegmentEnd {
    segment: Segment,
    /// Its last timestamp.
    last: u64,
}

impl SegmentEnd {
    /// Prints what is lost if a later segment is there. A write error is passed over.
    fn tell<E: Write>(&self, err: &mut E) {
        let SegmentEnd { segment, last } = *self;
        let Segment { worker, number } = segment;
        let _ = writeln!(
            err,
            "mtrecover: segment {number} of worker {worker} now ends at {last}: if a later one is there, updates from {last} up to its from are lost"
        );
    }
}

/// Returns the last timestamp of the log of this header and of these records, one list after another. Err: out of memory.
pub fn last_of(alloc: Global, head: Head, records: &[&[u8]]) -> Result<u64, Refusal<'static>> {
    let mut feed = LogFeed::keeping(alloc);
    feed_all(&mut feed, &encode_head(alloc, head)?);
    for list in records {
        feed_all(&mut feed, list);
    }
    last_in(&feed)
}

/// Feeds a header or records, in pieces, and keeps none of them.
fn feed_all(feed: &mut LogFeed<KeptRecords>, bytes: &[u8]) {
    for piece in bytes.chunks(PRINTED_AT_ONCE) {
        let _ = feed_piece(feed, Some(piece));
    }
}

/// Returns the last timestamp of the log that the feed has read. Err: out of memory.
fn last_in(feed: &LogFeed<KeptRecords>) -> Result<u64, Refusal<'static>> {
    match feed.front() {
        Ok(front) => Ok(front.last()),
        Err(fault) => Err(Refusal::from(fault.of_log(0))),
    }
}
