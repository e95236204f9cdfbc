//! Headers of logs and parts, as C reads them.
ghost use Rattle.std.specs.Prelude.{◌≡◌, ◌≢◌, ◌∷◌, [], IfSome, IfNone};
ghost use Rattle.mt_block.specs.Blocks.{IsHeader, header_bytes};
ghost use Rattle.mt_block.specs.Parts.{IsPartHeader, part_header_bytes};
ghost use Rattle.mt_record.specs.Heads.{IsHead, head_bytes, HasNoHeader};
ghost use Rattle.mt_record.specs.Opening.{HasNoSeal};
ghost use Rattle.mt_record.specs.Parts.{IsPartHead, part_head_bytes, HasNoPartSeal};
ghost use Rattle.mt_record.specs.PartFaults.{HasNoPartHeader};
ghost use Rattle.mt_c.specs.Fronts.{Tells, c_head, c_header, BeginsLog, part_number, c_part_head, c_part_header, BeginsPart};
ghost use Rattle.mt_c.specs.Statuses.{IsOneOf};
ghost use Rattle.mt_c.specs.declared.status.TheConstants.{DONE, FAULT};

use crate::formats::log_number;
use crate::status::{DONE, FAULT};
use mt_record::Segment;
use mt_words::Format;

/// The header of a log, as C sees it.
#[repr(C)]
#[derive(Clone, Copy)]
pub struct LogFront {
    /// The format of the log.
    pub format: u32,
    /// The worker whose log it is, or 0 of formats 1 and 2.
    pub worker: u32,
    /// The number of the segment in its worker's log, or 0 of formats 1 and 2.
    pub segment: u32,
    /// The number of workers of its server, or 0 of formats 1 to 3.
    pub workers: u32,
    /// Updates below this timestamp may be missing.
    pub from: u64,
    /// The salt, or 0 of formats 1 to 3.
    pub salt: u64,
    /// The number of bytes of the header.
    pub length: usize,
}

/// The header of a part, as C sees it.
#[repr(C)]
#[derive(Clone, Copy)]
pub struct PartFront {
    /// The format of the part.
    pub format: u32,
    /// The number of its checkpoint.
    pub number: u32,
    /// The number of this part, counted from 0.
    pub part: u32,
    /// The number of parts of the checkpoint.
    pub parts: u32,
    /// The timestamp from which logs are replayed over the checkpoint.
    pub begin: u64,
    /// The salt, or 0 of formats 1 and 2.
    pub salt: u64,
    /// The number of bytes of the header.
    pub length: usize,
}

/// Reads the header of a log at the front of the bytes, of any format. `FAULT`: the bytes do not begin with one.
#[unsafe(no_mangle)]
pub extern "C" fn mtr_read_log_header(bytes: &[u8], header: &mut LogFront) -> u32
    ensures done { result ≡ DONE → BeginsLog bytes.now header.new }
    ensures fault { result ≡ FAULT → HasNoHeader bytes.now × HasNoSeal bytes.now }
    ensures kept { result ≢ DONE → header.new ≡ header.old }
    ensures certain { IsOneOf (DONE ∷ FAULT ∷ []) result }
{
    if let Some(front) = plain_front(bytes) {
        *header = front;
        return DONE;
    }
    if let Some(front) = sealed_front(bytes) {
        *header = front;
        return DONE;
    }
    FAULT
}

/// Reads the header of a part at the front of the bytes, of any format. `FAULT`: the bytes do not begin with one.
#[unsafe(no_mangle)]
pub extern "C" fn mtr_read_part_header(bytes: &[u8], header: &mut PartFront) -> u32
    ensures done { result ≡ DONE → BeginsPart bytes.now header.new }
    ensures fault { result ≡ FAULT → HasNoPartHeader bytes.now × HasNoPartSeal bytes.now }
    ensures kept { result ≢ DONE → header.new ≡ header.old }
    ensures certain { IsOneOf (DONE ∷ FAULT ∷ []) result }
{
    if let Some(front) = plain_part_front(bytes) {
        *header = front;
        return DONE;
    }
    if let Some(front) = sealed_part_front(bytes) {
        *header = front;
        return DONE;
    }
    FAULT
}

/// Reads the header of a log of formats 1 to 3. None: the bytes do not begin with one.
fn plain_front(bytes: &[u8]) -> Option<LogFront>
    ensures found { IfSome result (Tells IsHead head_bytes c_head bytes.now) }
    ensures none { IfNone result (HasNoHeader bytes.now) }
{
    let (head, rest) = mt_record::header_at(bytes)?;
    let (worker, segment) = match head.segment {
        Some(Segment { worker, number }) => (worker, number),
        None => (0, 0),
    };
    Some(LogFront {
        format: log_number(head),
        worker,
        segment,
        workers: 0,
        from: head.from,
        salt: 0,
        length: bytes.len() - rest.len(),
    })
}

/// Reads the header of a log of format 4. None: the bytes do not begin with one.
fn sealed_front(bytes: &[u8]) -> Option<LogFront>
    ensures found { IfSome result (Tells IsHeader header_bytes c_header bytes.now) }
    ensures none { IfNone result (HasNoSeal bytes.now) }
{
    let (header, rest) = mt_block::header_at(bytes)?;
    Some(LogFront {
        format: 4,
        worker: header.worker,
        segment: header.segment,
        workers: header.workers,
        from: header.from,
        salt: header.salt,
        length: bytes.len() - rest.len(),
    })
}

/// Reads the header of a part of formats 1 and 2. None: the bytes do not begin with one.
fn plain_part_front(bytes: &[u8]) -> Option<PartFront>
    ensures found { IfSome result (Tells IsPartHead part_head_bytes c_part_head bytes.now) }
    ensures none { IfNone result (HasNoPartHeader bytes.now) }
{
    let (head, rest) = mt_record::part_header_at(bytes)?;
    Some(PartFront {
        format: part_number(head.format),
        number: head.number,
        part: u32::from(head.part),
        parts: u32::from(head.parts),
        begin: head.begin,
        salt: 0,
        length: bytes.len() - rest.len(),
    })
}

/// Reads the header of a part of format 4. None: the bytes do not begin with one.
fn sealed_part_front(bytes: &[u8]) -> Option<PartFront>
    ensures found { IfSome result (Tells IsPartHeader part_header_bytes c_part_header bytes.now) }
    ensures none { IfNone result (HasNoPartSeal bytes.now) }
{
    let (header, rest) = mt_block::part_header_at(bytes)?;
    Some(PartFront {
        format: 4,
        number: header.number,
        part: u32::from(header.part),
        parts: u32::from(header.parts),
        begin: header.begin,
        salt: header.salt,
        length: bytes.len() - rest.len(),
    })
}

/// Returns the number of the format of a part of formats 1 and 2.
fn part_number(format: Format) -> u32
    ensures { result ≡ part_number format }
{
    match format {
        Format::One => 1,
        Format::Two => 2,
    }
}
