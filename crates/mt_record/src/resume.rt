//! What replaces a log when a server resumes after a crash.
ghost use Rattle.std.specs.Prelude.{◌≡◌, ◌≢◌, ◌+◌, ◌<◌, ◌≤◌, ◌^◌, ◌↔◌, ◌⊎◌, ◌∷◌, ◌++◌, [], List, ℕ, min, length, All, IsTrue, IfOk, IfErr};
ghost use Rattle.std.specs.List.{flat_map};
ghost use Rattle.mt_words.specs.Changes.{Logged};
ghost use Rattle.mt_block.specs.Blocks.{IsHeader, IsFile};
ghost use Rattle.mt_record.specs.declared.feed.head.Head.{Head as HeadValue};
ghost use Rattle.mt_record.specs.Spelling.{spelling};
ghost use Rattle.mt_record.specs.Heads.{IsHead, head_bytes};
ghost use Rattle.mt_record.specs.Opening.{IsSealed, IsDamagedAfter, joined};
ghost use Rattle.mt_record.specs.Logs.{LogReading, IsReading, count_of};
ghost use Rattle.mt_record.specs.LogFaults.{IsTextFault};
ghost use Rattle.mt_record.specs.Answered.{IsAnswered, IsTextAnswered};
ghost use Rattle.mt_record.specs.Decoding.{IsBody, decode};
ghost use Rattle.mt_record.specs.Resuming.{is_end, is_ended, updates_past, marks_past, marks_of, resumed, IsResumed, Replaces};
ghost use Rattle.mt_record.specs.Runs.{IsSmall, HasSmallBlocks};
ghost use Rattle.mt_record.specs.Steps.Runs.{AreFitting};
ghost use Rattle.mt_record.specs.Steps.Splits.{IsSplitOf, IsSplitIn};

use crate::body::spelled;
use crate::encode::{append_header, encode_log_header_3, encode_record};
use crate::feed::frame::next_record;
use crate::feed::head::{Head, header_at};
use crate::front::Rest;
use crate::open::{FileEnd, open_file};
use crate::read::{FeedFault, log_front};
use crate::runs::append_small_blocks;
use mt_block::{Header, append_block};
use mt_words::{Format, Memory, Record};
use std::alloc::Global;

/// What replaces a log: these bytes, one after the other.
#[derive(Debug, Drop)]
pub struct ResumedLog<'a> {
    /// The header of the log, with a `from` of at most the cutoff. Of a file of format 4 it is all that replaces it.
    pub front: Vec<u8>,
    /// The records of the log below the cutoff, borrowed from its bytes.
    pub records: &'a [u8],
    /// A mark at the cutoff, and the mark that ends the log if it was ended.
    pub marks: Vec<u8>,
    /// The number of updates at or past the cutoff, which go, counted up to 2^64 - 1.
    pub dropped: u64,
    /// The number of marks at or past the cutoff, which go, without the mark that ends a log, counted up to 2^64 - 1. A
    /// crash leaves few of them. Many show that another log was cut short.
    pub late_marks: u64,
    /// Whether the bytes differ from those of the log. A file of format 4 is always written anew.
    pub changed: bool,
    /// Whether a mark ends the log that replaces it.
    pub ended: bool,
}

/// Returns what replaces this log when a server resumes after a recovery that found this cutoff. All logs are replaced
/// before the server appends again. A file of format 4 is replaced by one with this salt, which no other file has. Each
/// block of the new file has whole records: at most 32,768 bytes of them, or one longer record. Its header says
/// `workers`, the number of writers of the logs that recovery found: none of them can vanish unnoticed, and one whose loss
/// was accepted is missed no more. Of other formats the records are not copied.
/// Err: the one fault of the bytes, or `Memory` if an allocation failed.
///
/// ```
/// let new = resume_log(alloc, &bytes, report.cutoff, salt, writers)?;
/// file.write_all(&new.front)?;
/// file.write_all(new.records)?;
/// file.write_all(&new.marks)?;
/// ```
pub fn resume_log(
    alloc: Global,
    bytes: &[u8],
    cutoff: u64,
    salt: u64,
    workers: u32,
) -> Result<ResumedLog<'_>, FeedFault>
    ensures log { IfOk result (λ new. Replaces cutoff salt workers bytes.now (new.front.items ++ (new.records.now ++ new.marks.items))) }
    ensures small { IfOk result (λ new. IsSealed bytes.now → HasSmallBlocks (new.front.items ++ (new.records.now ++ new.marks.items))) }
    ensures dropped { IfOk result (λ new. (log : LogReading) → IsReading bytes.now log →
        new.dropped ≡ count_of (updates_past cutoff log.records)) }
    ensures late_marks { IfOk result (λ new. (log : LogReading) → IsReading bytes.now log →
        new.late_marks ≡ count_of (marks_past cutoff log.records)) }
    ensures changed { IfOk result (λ new. IsTrue new.changed ↔
        (IsSealed bytes.now ⊎ (new.front.items ++ (new.records.now ++ new.marks.items) ≢ bytes.now))) }
    ensures ended { IfOk result (λ new. (log : LogReading) → IsReading bytes.now log →
        new.ended ≡ is_ended (resumed cutoff log).records) }
    ensures fault { IfErr result (IsAnswered bytes.now) }
{
    let Some(opened) = open_file(alloc, bytes)? else {
        return resume_text(alloc, bytes, cutoff);
    };
    if opened.end == FileEnd::Damaged {
        return Err(damage_of(alloc, bytes));
    }
    let text = resume_text(alloc, &opened.text, cutoff)?;
    let from = opened.header.from.min(cutoff);
    let header = Header {
        salt,
        workers,
        from,
        ..opened.header
    };
    Ok(ResumedLog {
        front: seal_log(alloc, header, text.records, &text.marks)?,
        records: &[],
        marks: Vec::new(alloc),
        dropped: text.dropped,
        late_marks: text.late_marks,
        changed: true,
        ended: text.ended,
    })
}

/// Returns what replaces the log of this text.
/// Err: the one fault of the text, or `Memory` if an allocation failed.
fn resume_text(alloc: Global, text: &[u8], cutoff: u64) -> Result<ResumedLog<'_>, FeedFault>
    ensures log { IfOk result (λ new. IsResumed cutoff text.now (new.front.items ++ (new.records.now ++ new.marks.items))) }
    ensures header { IfOk result (λ new. (head : HeadValue) (rest : List ℕ) → IsHead head → text.now ≡ head_bytes head ++ rest →
        new.front.items ≡ head_bytes (record head { from = min head.from cutoff })) }
    ensures records { IfOk result (λ new. AreFitting new.records.now) }
    ensures marks { IfOk result (λ new. IsSmall new.marks.items × (length new.marks.items ≤ 34)) }
    ensures dropped { IfOk result (λ new. (log : LogReading) → IsReading text.now log →
        new.dropped ≡ count_of (updates_past cutoff log.records)) }
    ensures late_marks { IfOk result (λ new. (log : LogReading) → IsReading text.now log →
        new.late_marks ≡ count_of (marks_past cutoff log.records)) }
    ensures changed { IfOk result (λ new.
        IsTrue new.changed ↔ (new.front.items ++ (new.records.now ++ new.marks.items) ≢ text.now)) }
    ensures ended { IfOk result (λ new. (log : LogReading) → IsReading text.now log →
        new.ended ≡ is_ended (resumed cutoff log).records) }
    ensures fault { IfErr result (IsTextAnswered text.now) }
{
    let Some((head, rest)) = header_at(text) else {
        return Err(FeedFault::Header);
    };
    let split = split_records(head.format, cutoff, rest)?;
    let from = head.from.min(cutoff);
    let front = encode_head(alloc, Head { from, ..head })?;
    let marks = encode_marks(alloc, cutoff, split.ended)?;
    let (records, late) = rest.split_at(split.kept);
    let changed = from != head.from || late != marks.as_slice();
    Ok(ResumedLog {
        front,
        records,
        marks,
        dropped: split.dropped,
        late_marks: split.late_marks,
        changed,
        ended: split.ended || cutoff == u64::MAX,
    })
}

/// Returns the file of format 4 with this header, and these records and marks in small blocks. Err: out of memory.
fn seal_log(alloc: Global, header: Header, records: &[u8], marks: &[u8]) -> Result<Vec<u8>, Memory>
    requires header { IsHeader header }
    requires records { AreFitting records.now }
    requires marks { IsSmall marks.now × (length marks.now ≤ 34) }
    ensures { IfOk result (λ file. (bodies : List (List ℕ)) × IsFile file.items header bodies [] × (joined bodies ≡ records.now ++ marks.now) × All IsSmall bodies) }
{
    let mark = header.mark();
    let mut file = header.bytes(alloc)?;
    append_small_blocks(mark, records, &mut file)?;
    append_block(mark, marks, &mut file)?;
    Ok(file)
}

/// Returns the fault of a damaged file of format 4, or `Memory` if an allocation failed.
fn damage_of(alloc: Global, bytes: &[u8]) -> FeedFault
    requires { (text : List ℕ) × IsDamagedAfter bytes.now text }
    ensures { IsAnswered bytes.now result }
{
    let front = match log_front(alloc, bytes) {
        Ok(front) => front,
        Err(fault) => return fault,
    };
    let Rest::Faulty(what) = front.rest else {
        unreachable!();
    };
    FeedFault::Record {
        nth: front.count,
        what,
    }
}

/// The records of a log, split at a cutoff.
#[derive(Clone, Copy, Debug)]
struct Split {
    /// The number of bytes of the records below the cutoff.
    kept: usize,
    /// The number of updates at or past it, counted up to 2^64 - 1.
    dropped: u64,
    /// The number of marks at or past it, without the mark that ends the log, counted up to 2^64 - 1.
    late_marks: u64,
    /// Whether a mark ends the log.
    ended: bool,
}

/// Splits the records of a log, which follow its header, at the cutoff.
/// Err: the one fault of the log.
fn split_records(format: Format, cutoff: u64, bytes: &[u8]) -> Result<Split, FeedFault>
    ensures split { IfOk result (IsSplitIn format cutoff bytes.now) }
    ensures fault { IfErr result (λ fault. (head : HeadValue) → IsHead head → head.format ≡ format →
        IsTextFault (head_bytes head ++ bytes.now) fault) }
{
    let mut split = Split {
        kept: 0,
        dropped: 0,
        late_marks: 0,
        ended: false,
    };
    let mut rest = bytes;
    let mut latest = 0;
    let mut nth = 0u64;
    loop {
        match next_record(format, latest, rest) {
            Ok(Some((timestamp, body, after))) => {
                split = split.with(cutoff, timestamp, body, rest.len() - after.len());
                rest = after;
                latest = timestamp;
                nth = nth.saturating_add(1);
            }
            // The end, or a torn tail.
            Ok(None) => return Ok(split),
            Err(what) => return Err(FeedFault::Record { nth, what }),
        }
    }
}

impl Split {
    /// Returns the split of one more record, with this timestamp, this body and this many bytes.
    fn with(self, cutoff: u64, timestamp: u64, body: &[u8], size: usize) -> Split
        requires lawful { IsBody body.now }
        requires room { self.kept + size < 2 ^ 64 }
        ensures { (records : List Logged) (r : Logged) → decode body.now ≡ r → timestamp ≡ r.timestamp → size ≡ length (spelling r) →
            IsSplitOf cutoff records self → IsSplitOf cutoff (records ++ r ∷ []) result }
    {
        let is_last = is_end(timestamp, body);
        let ended = self.ended || is_last;
        if timestamp < cutoff {
            return Split {
                kept: self.kept + size,
                ended,
                ..self
            };
        }
        if is_last {
            return Split { ended, ..self };
        }
        if spelled::is_mark(body) {
            return Split {
                late_marks: self.late_marks.saturating_add(1),
                ended,
                ..self
            };
        }
        Split {
            dropped: self.dropped.saturating_add(1),
            ended,
            ..self
        }
    }
}

/// Returns whether the record with this timestamp and this body is the mark that ends a log.
fn is_end(timestamp: u64, body: &[u8]) -> bool
    requires { IsBody body.now }
    ensures { (r : Logged) → decode body.now ≡ r → timestamp ≡ r.timestamp → result ≡ is_end r }
{
    spelled::is_mark(body) && timestamp == u64::MAX
}

/// Returns the encoding of the header. Err: out of memory.
pub fn encode_head(alloc: Global, head: Head) -> Result<Vec<u8>, Memory>
    ensures { IfOk result (λ out. out.items ≡ head_bytes head) }
{
    let mut out = Vec::new(alloc);
    match head.segment {
        None => append_header(head.format, head.from, &mut out)?,
        Some(segment) => {
            encode_log_header_3(head.from, segment.worker, segment.number, &mut out)?
        }
    }
    Ok(out)
}

/// Returns the encodings of a mark at the cutoff and, if the log was ended, of the mark that ends it again.
fn encode_marks(alloc: Global, cutoff: u64, ended: bool) -> Result<Vec<u8>, Memory>
    ensures { IfOk result (λ out. (records : List Logged) → ended ≡ is_ended records →
        out.items ≡ flat_map spelling (marks_of cutoff records)) }
{
    let mut out = Vec::new(alloc);
    encode_record(&Record::mark(cutoff), &mut out)?;
    if ended && cutoff < u64::MAX {
        encode_record(&Record::mark(u64::MAX), &mut out)?;
    }
    Ok(out)
}
