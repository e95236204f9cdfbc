//! What replaces a log if a server resumes.
ghost use Rattle.std.specs.Prelude.{◌≡◌, ◌≢◌, ◌∷◌, []};
ghost use Rattle.mt_record.specs.declared.read.FeedFault.{FeedFault};
ghost use Rattle.mt_record.specs.LogFaults.{IsLogFault};
ghost use Rattle.mt_record.specs.Logs.{LogReading, IsReading};
ghost use Rattle.mt_c.specs.declared.status.TheConstants.{DONE, MEMORY, SHORT, FAULT};
ghost use Rattle.mt_c.specs.Formats.{IsFormatOf};
ghost use Rattle.mt_c.specs.Resumes.{Resumes};
ghost use Rattle.mt_c.specs.Statuses.{IsOneOf};

use crate::buffer::write_joined;
use crate::formats::log_number;
use crate::status::{FAULT, MEMORY};
use mt_record::{FeedFault, header_at, is_sealed, resume_log};
use std::alloc::Global;

/// What becomes of a log if a server resumes, as C sees it.
#[repr(C)]
#[derive(Clone, Copy)]
pub struct Resumed {
    /// The number of its updates at or past the cutoff, which go, counted up to 2^64 - 1.
    pub dropped: u64,
    /// The number of its marks at or past the cutoff, which go, but for the one that ends a log, counted up to 2^64 - 1.
    pub late_marks: u64,
    /// The format of the log.
    pub format: u32,
    /// Whether the bytes differ from those of the log. Those of a log of format 4 always count as changed.
    pub changed: bool,
    /// Whether they end with the mark that ends a log.
    pub ended: bool,
}

/// Writes what replaces the log, if a server resumes after a recovery with this cutoff, to the beginning of `out`, and its
/// length to `count`. It has the format of the log, and of format 4 this salt, a number that no other file has, and a header that
/// says `workers`, the number of writers of the logs that recovery found. `FAULT`: the bytes are no log.
#[unsafe(no_mangle)]
pub extern "C" fn mtr_resume_log(
    alloc: Global,
    log: &[u8],
    cutoff: u64,
    salt: u64,
    workers: u32,
    resumed: &mut Resumed,
    out: &mut [u8],
    count: &mut usize,
) -> u32
    ensures written { result ≢ MEMORY → result ≢ FAULT → Resumes cutoff salt workers log.now resumed.new out.old out.new count.new result }
    ensures fault { result ≡ FAULT → (fault : FeedFault) × IsLogFault log.now fault }
    ensures untold { result ≢ DONE → result ≢ SHORT → resumed.new ≡ resumed.old }
    ensures kept { result ≢ DONE → out.new ≡ out.old }
    ensures certain { IsOneOf (DONE ∷ MEMORY ∷ SHORT ∷ FAULT ∷ []) result }
{
    match resume_log(alloc, log, cutoff, salt, workers) {
        Ok(new) => {
            let status = write_joined(&new.front, new.records, &new.marks, out, count);
            if status == MEMORY {
                return MEMORY;
            }
            *resumed = Resumed {
                dropped: new.dropped,
                late_marks: new.late_marks,
                format: format_in(log),
                changed: new.changed,
                ended: new.ended,
            };
            status
        }
        Err(FeedFault::Memory) => MEMORY,
        Err(_) => FAULT,
    }
}

/// Returns the number of the format of the log, or 0 if the bytes are none.
fn format_in(log: &[u8]) -> u32
    ensures { (reading : LogReading) → IsReading log.now reading → IsFormatOf log.now reading.head result }
{
    if is_sealed(log) {
        return 4;
    }
    match header_at(log) {
        Some((head, _)) => log_number(head),
        None => 0,
    }
}
