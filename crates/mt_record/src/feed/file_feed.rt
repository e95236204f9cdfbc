//! Reads a file that comes in chunks. A plain file is the log itself. In a file of format 4 the log stands in blocks.
ghost use Rattle.std.specs.Prelude.{◌≡◌, ◌++◌, ◌≤◌, [], List, ℕ, Some, None, false, length, IsSome, IfSome, IfOk, IfErr, OnOk, OnErr, IsTrue, MatchBool};
ghost use Rattle.mt_words.specs.Changes.{Logged};
ghost use Rattle.mt_block.specs.Blocks.{IsHeader, header_bytes};
ghost use Rattle.mt_record.specs.declared.read.FeedFault.{FeedFault as FaultValue};
ghost use Rattle.mt_record.specs.declared.read.FeedFault.TheVariants as faults;
ghost use Rattle.mt_record.specs.declared.feed.file_feed.FileKind.TheVariants as kinds;
ghost use Rattle.mt_record.specs.Unsealing.{IsPlain, ShowsNoSeal};
ghost use Rattle.mt_record.specs.LogFeeding.{IsTextFed, IsLogFed, IsHeaderShown, IsAllRead, fed_log};
ghost use Rattle.mt_record.specs.Heads.{head_bytes};
ghost use Rattle.mt_record.specs.LogFeeding.{IsFedBehind};
ghost use Rattle.mt_record.specs.Steps.Joining.{begins_at, begun_feed, joined_front, joined_feed, RisesTo, IsSoundFeed, HoldsNothing, IsFollowedBy, IsBefore};
ghost use Rattle.mt_record.specs.Steps.Telling.{Tells, IsToldBy};

use crate::feed::blocks::Blocks;
use crate::feed::head::{BLOCKS, HEADER_BYTES, Head, SEGMENT_HEADER_BYTES, Segment, is_sealed};
use crate::feed::log_items::LogItems;
use crate::feed::{Feed, top_up};
use crate::front::{LogFront, Rest};
use crate::kept::Records;
use crate::kept::log::KeptRecords;
use crate::read::FeedFault;
use mt_block::{Header, header_at as file_header_at};
use mt_words::{Format, Memory};
use std::alloc::Global;
use std::mem;

/// The number of bytes in the header of a file of format 4.
pub const FILE_HEADER_BYTES: usize = 44;

/// What the bytes of a file tell about it.
#[derive(Clone, Copy, Debug, PartialEq, Eq)]
pub enum FileKind {
    /// They may be those of a file of format 4, whose header is not complete.
    Untold,
    /// They are those of a file of formats 1 to 3, and so the log itself.
    Plain,
    /// They are those of a file of format 4. The log stands in its blocks.
    Blocks,
}

/// A reader of a file that comes in chunks.
#[derive(Drop)]
pub struct FileFeed<R: Records> {
    pub kind: FileKind,
    /// The blocks of the file. In a plain file only the feed of the log in it is used.
    pub blocks: Feed<Blocks<LogItems<R>>>,
}

impl<R: Records> FileFeed<R> {
    /// Creates a feed that has read no chunk. It collects records in `records`, which must be empty.
    pub fn new(alloc: Global, records: R) -> FileFeed<R>
        requires { R.listed records ≡ [] }
        ensures fed { IsLogFed (fed_log R.listed result) [] [] }
        ensures sound { (fed_log R.listed result).fault ≡ None }
    {
        let items = LogItems {
            front: None,
            ready: records,
        };
        let inner = Feed::new(alloc, items);
        let seam = Vec::new(alloc);
        let items = Blocks {
            inner,
            mark: 0,
            searching: false,
            seam,
        };
        let held = Vec::new(alloc);
        FileFeed {
            kind: FileKind::Untold,
            blocks: Feed {
                items,
                held,
                fault: None,
            },
        }
    }

    /// Reads the next chunk, by the kind of the file.
    pub fn read(&mut self, piece: &[u8]) -> Result<(), FeedFault>
        ensures fed { (bytes : List ℕ) (taken : List Logged) → IsLogFed (fed_log R.listed self.old) bytes taken →
            IsLogFed (fed_log R.listed self.new) (bytes ++ piece.now) taken }
        ensures sound { OnOk result ((fed_log R.listed self.new).fault ≡ None) }
        ensures kept { IfErr result (λ fault. (fed_log R.listed self.new).fault ≡ Some fault) }
        ensures again { (fault : FaultValue) → (fed_log R.listed self.old).fault ≡ Some fault → result ≡ Err fault }
        ensures stays { IsSome (fed_log R.listed self.old).fault → self.new ≡ self.old }
    {
        match self.kind {
            FileKind::Untold => self.begin(piece),
            FileKind::Plain => self.blocks.items.inner.feed(piece),
            FileKind::Blocks => self.blocks.feed(piece),
        }
    }

    /// Reads the next chunk of a file whose kind the bytes did not tell yet.
    fn begin(&mut self, piece: &[u8]) -> Result<(), FeedFault>
        requires { self.old.kind ≡ kinds.Untold }
        ensures fed { (bytes : List ℕ) (taken : List Logged) → IsLogFed (fed_log R.listed self.old) bytes taken →
            IsLogFed (fed_log R.listed self.new) (bytes ++ piece.now) taken }
        ensures sound { OnOk result ((fed_log R.listed self.new).fault ≡ None) }
        ensures kept { IfErr result (λ fault. (fed_log R.listed self.new).fault ≡ Some fault) }
        ensures again { (fault : FaultValue) → (fed_log R.listed self.old).fault ≡ Some fault → result ≡ Err fault }
        ensures stays { IsSome (fed_log R.listed self.old).fault → self.new ≡ self.old }
    {
        if let Some(fault) = self.blocks.fault {
            return Err(fault);
        }
        match tell(&mut self.blocks.held, piece) {
            Ok(Told::Nothing) => Ok(()),
            Ok(Told::Plain(rest)) => self.begin_plain(rest),
            Ok(Told::Blocks(header, rest)) => self.begin_blocks(header, rest),
            Err(fault) => {
                self.blocks.fault = Some(fault);
                Err(fault)
            }
        }
    }

    /// Reads the bytes that were held, and the rest of the chunk, as those of a plain file.
    fn begin_plain(&mut self, rest: &[u8]) -> Result<(), FeedFault>
        ensures fed { (taken : List Logged) → IsPlain (fed_log R.listed self.old).file.held → IsTextFed taken (fed_log R.listed self.old).so_far (fed_log R.listed self.old).held (fed_log R.listed self.old).file.fault [] →
            IsLogFed (fed_log R.listed self.new) ((fed_log R.listed self.old).file.held ++ rest.now) taken }
        ensures sound { OnOk result ((fed_log R.listed self.new).fault ≡ None) }
        ensures kept { IfErr result (λ fault. (fed_log R.listed self.new).fault ≡ Some fault) }
    {
        self.kind = FileKind::Plain;
        self.blocks.items.inner.feed(&self.blocks.held)?;
        self.blocks.held.clear();
        self.blocks.items.inner.feed(rest)
    }

    /// Reads the rest of the chunk as the blocks of a file with this header. Nothing of its text was read.
    fn begin_blocks(&mut self, header: Header, rest: &[u8]) -> Result<(), FeedFault>
        requires { self.old.kind ≡ kinds.Untold }
        ensures fed { (taken : List Logged) → IsHeader header → IsTextFed taken (fed_log R.listed self.old).so_far (fed_log R.listed self.old).held (fed_log R.listed self.old).file.fault [] →
            (fed_log R.listed self.old).file.fault ≡ None → (fed_log R.listed self.old).file.place.searching ≡ false → (fed_log R.listed self.old).file.place.seam ≡ [] → (fed_log R.listed self.old).fault ≡ None →
            IsLogFed (fed_log R.listed self.new) (header_bytes header ++ rest.now) taken }
        ensures sound { OnOk result ((fed_log R.listed self.new).fault ≡ None) }
        ensures kept { IfErr result (λ fault. (fed_log R.listed self.new).fault ≡ Some fault) }
    {
        let head = Head {
            format: Format::Two,
            from: header.from,
            segment: Some(Segment {
                worker: header.worker,
                number: header.segment,
            }),
        };
        self.kind = FileKind::Blocks;
        self.blocks.items.mark = header.mark();
        self.blocks.items.inner.items.front = Some(LogFront {
            head,
            count: 0,
            latest: 0,
            version: 0,
            bytes: SEGMENT_HEADER_BYTES as u64,
            rest: Rest::Nothing,
        });
        self.blocks.held.clear();
        self.blocks.feed(rest)
    }

    /// Returns the fault that was returned, if there was one.
    pub fn fault(&self) -> Option<FeedFault>
        ensures { result ≡ (fed_log R.listed self.now).fault }
    {
        match self.kind {
            FileKind::Plain => self.blocks.items.inner.fault,
            _ => self.blocks.fault,
        }
    }

    /// Returns whether all bytes of the file were read, so that nothing is torn.
    pub fn is_all_read(&self) -> bool
        ensures { MatchBool result (IsAllRead (fed_log R.listed self.now)) (IsAllRead (fed_log R.listed self.now) → ⊥) }
    {
        let blocks = &self.blocks;
        let is_file_read = self.kind != FileKind::Blocks
            || blocks.held.is_empty() && !blocks.items.searching;
        is_file_read && blocks.items.inner.held.is_empty()
    }
}

impl FileFeed<KeptRecords> {
    /// Returns a feed that has read the header of this file alone. Returns None if this feed has not read the header.
    pub fn behind_header(&self, alloc: Global) -> Option<FileFeed<KeptRecords>>
        ensures { (bytes : List ℕ) (taken : List Logged) → IsLogFed (fed_log (λ records. records) self.now) bytes taken →
            IfSome result (λ begun. IsFedBehind (fed_log (λ records. records) begun) []) }
    {
        if self.kind == FileKind::Untold {
            return None;
        }
        let front = self.blocks.items.inner.items.front?;
        Some(self.begun(alloc, front.head))
    }

    /// Returns a feed of a file of the same kind that has read this header, and nothing else.
    fn begun(&self, alloc: Global, head: Head) -> FileFeed<KeptRecords>
        ensures { fed_log (λ records. records) result ≡ begun_feed (fed_log (λ records. records) self.now).file head }
    {
        let items = LogItems {
            front: Some(begun(head)),
            ready: KeptRecords::new(alloc),
        };
        let inner = Feed {
            items,
            held: Vec::new(alloc),
            fault: None,
        };
        let items = Blocks {
            inner,
            mark: self.blocks.items.mark,
            searching: false,
            seam: Vec::new(alloc),
        };
        FileFeed {
            kind: self.kind,
            blocks: Feed {
                items,
                held: Vec::new(alloc),
                fault: None,
            },
        }
    }

    /// Reads the next chunk, which `ahead` was fed behind a header. What that feed read is not read again if it goes on from
    /// here.
    pub fn read_ahead(
        &mut self,
        ahead: FileFeed<KeptRecords>,
        piece: &[u8],
    ) -> Result<(), FeedFault>
        requires { IsFedBehind (fed_log (λ records. records) ahead) piece.now }
        ensures fed { (bytes : List ℕ) (taken : List Logged) → IsLogFed (fed_log (λ records. records) self.old) bytes taken →
            IsLogFed (fed_log (λ records. records) self.new) (bytes ++ piece.now) taken }
        ensures sound { OnOk result ((fed_log (λ records. records) self.new).fault ≡ None) }
        ensures kept { IfErr result (λ fault. (fed_log (λ records. records) self.new).fault ≡ Some fault) }
        ensures again { (fault : FaultValue) → (fed_log (λ records. records) self.old).fault ≡ Some fault → result ≡ Err fault }
        ensures stays { IsSome (fed_log (λ records. records) self.old).fault → self.new ≡ self.old }
    {
        if self.takes(ahead) {
            return Ok(());
        }
        self.read(piece)
    }

    /// Goes on with what `ahead` read behind a header, if that goes on from here and memory suffices. Returns whether it
    /// did; else nothing changes.
    fn takes(&mut self, ahead: FileFeed<KeptRecords>) -> bool
        ensures { MatchBool result
            (IsBefore (fed_log (λ records. records) self.old) (fed_log (λ records. records) ahead) × (fed_log (λ records. records) self.new ≡ joined_feed (fed_log (λ records. records) self.old) (fed_log (λ records. records) ahead)))
            (self.new ≡ self.old) }
    {
        if !self.is_before(&ahead) {
            return false;
        }
        self.join(ahead).is_ok()
    }

    /// Returns whether what `ahead` read behind a header goes on from here.
    fn is_before(&self, ahead: &FileFeed<KeptRecords>) -> bool
        ensures { IsTrue result → IsBefore (fed_log (λ records. records) self.now) (fed_log (λ records. records) ahead.now) }
    {
        self.is_sound() && ahead.is_sound() && self.holds_nothing() && self.is_followed_by(ahead)
    }

    /// Returns whether the kind of the file is told and nothing broken was found.
    fn is_sound(&self) -> bool
        ensures { IsTrue result → IsSoundFeed (fed_log (λ records. records) self.now) }
    {
        self.kind != FileKind::Untold
            && self.blocks.fault.is_none()
            && self.blocks.items.inner.fault.is_none()
            && !self.blocks.items.searching
    }

    /// Returns whether all bytes were read, so that none is held back.
    fn holds_nothing(&self) -> bool
        ensures { IsTrue result → HoldsNothing (fed_log (λ records. records) self.now) }
    {
        self.blocks.held.is_empty() && self.blocks.items.inner.held.is_empty()
    }

    /// Returns whether both have read the same header, and the records of `ahead` may follow those of this feed.
    fn is_followed_by(&self, ahead: &FileFeed<KeptRecords>) -> bool
        ensures { IsTrue result → IsFollowedBy (fed_log (λ records. records) self.now) (fed_log (λ records. records) ahead.now) }
    {
        let own = &self.blocks.items;
        let next = &ahead.blocks.items;
        match (own.inner.items.front, next.inner.items.front) {
            (Some(front), Some(behind)) => {
                self.kind == ahead.kind
                    && own.mark == next.mark
                    && front.head == behind.head
                    && rises_to(front.latest, &next.inner.items.ready)
            }
            _ => false,
        }
    }

    /// Goes on with what `ahead` read. Err: out of memory; nothing changes.
    fn join(&mut self, ahead: FileFeed<KeptRecords>) -> Result<(), Memory>
        requires { IsBefore (fed_log (λ records. records) self.old) (fed_log (λ records. records) ahead) }
        ensures ok { OnOk result (fed_log (λ records. records) self.new ≡ joined_feed (fed_log (λ records. records) self.old) (fed_log (λ records. records) ahead)) }
        ensures err { OnErr result (self.new ≡ self.old) }
    {
        let mut ahead = ahead;
        let own = &mut self.blocks.items.inner;
        let next = &mut ahead.blocks.items.inner;
        let (Some(front), Some(behind)) = (own.items.front, next.items.front) else {
            unreachable!();
        };
        let none = next.items.ready.none();
        own.items
            .ready
            .append(mem::replace(&mut next.items.ready, none))?;
        own.items.front = Some(joined(front, behind));
        mem::swap(&mut own.held, &mut next.held);
        mem::swap(&mut self.blocks.held, &mut ahead.blocks.held);
        Ok(())
    }
}

/// Returns whether the records may follow one with this timestamp.
fn rises_to(latest: u64, records: &KeptRecords) -> bool
    ensures { IsTrue result → RisesTo latest records.now }
{
    match records.first() {
        Some(first) => latest <= first,
        None => true,
    }
}

/// Returns the front of a header, before any record.
fn begun(head: Head) -> LogFront
    ensures { result ≡ begins_at head (length (head_bytes head)) }
{
    LogFront {
        head,
        count: 0,
        latest: 0,
        version: 0,
        bytes: head_length(head),
        rest: Rest::Nothing,
    }
}

/// Returns the front of the records of both, the later ones without their header.
fn joined(front: LogFront, behind: LogFront) -> LogFront
    ensures { result ≡ joined_front front behind }
{
    LogFront {
        count: front.count.saturating_add(behind.count),
        latest: front.latest.max(behind.latest),
        version: front.version.max(behind.version),
        bytes: front
            .bytes
            .saturating_add(behind.bytes.saturating_sub(head_length(behind.head))),
        ..front
    }
}

/// Returns the number of bytes of a header.
fn head_length(head: Head) -> u64
    ensures { result ≡ length (head_bytes head) }
{
    match head.segment {
        Some(_) => SEGMENT_HEADER_BYTES as u64,
        None => HEADER_BYTES as u64,
    }
}

/// What the first bytes of a file tell: nothing yet, or its kind. The bytes are those of the chunk that are left.
enum Told<'a> {
    Nothing,
    Plain(&'a [u8]),
    Blocks(Header, &'a [u8]),
}

/// Moves bytes from the front of the chunk to `held`, as many as a header of format 4 has.
/// Err: the bytes show that the file has no header, or out of memory.
fn tell<'a>(held: &mut Vec<u8>, piece: &'a [u8]) -> Result<Told<'a>, FeedFault>
    ensures told { length held.old.items ≤ 44 → IfOk result (Tells (held.old.items ++ piece.now) held.new.items) }
    ensures fault { IfErr result (IsHeaderShown (held.old.items ++ piece.now)) }
{
    let rest = top_up(held, FILE_HEADER_BYTES, piece)?;
    told_by(held, rest)
}

/// Returns what these first bytes of a file tell, of which `rest` follows.
/// Err: they have all of a header of format 4, but none stands there.
fn told_by<'a>(held: &[u8], rest: &'a [u8]) -> Result<Told<'a>, FeedFault>
    ensures told { IfOk result (IsToldBy held.now rest.now) }
    ensures fault { IfErr result (λ fault. (fault ≡ faults.Header) × ShowsNoSeal held.now) }
{
    if !is_sealed(held) {
        if BLOCKS.starts_with(held) {
            return Ok(Told::Nothing);
        }
        return Ok(Told::Plain(rest));
    }
    if held.len() < FILE_HEADER_BYTES {
        return Ok(Told::Nothing);
    }
    match file_header_at(held) {
        Some((header, _)) => Ok(Told::Blocks(header, rest)),
        None => Err(FeedFault::Header),
    }
}
