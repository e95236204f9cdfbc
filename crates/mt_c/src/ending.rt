//! Where a log ends, as C sees it.
ghost use Rattle.std.specs.Prelude.{◌≡◌, ◌≢◌, ◌∷◌, ◌++◌, [], List, ℕ, IfOk, IfErr};
ghost use Rattle.mt_record.specs.declared.read.FeedFault.{FeedFault as FaultValue};
ghost use Rattle.mt_record.specs.Opening.{IsSealed};
ghost use Rattle.mt_record.specs.Logs.{LogReading, IsReading, log_bytes};
ghost use Rattle.mt_record.specs.LogTexts.{front_in};
ghost use Rattle.mt_record.specs.LogFaults.{IsLogFault};
ghost use Rattle.mt_record.specs.Answered.{IsAnswered};
ghost use Rattle.mt_c.specs.declared.status.TheConstants.{DONE, MEMORY, FAULT};
ghost use Rattle.mt_c.specs.Endings.{EndsSo, GoesOn};
ghost use Rattle.mt_c.specs.Statuses.{IsOneOf};

use crate::status::{DONE, FAULT, MEMORY};
use mt_record::{FeedFault, Items, LogFeed, LogFront, find_items, is_sealed};
use mt_words::Memory;
use std::alloc::Global;

/// Where a log ends, as C sees it.
#[repr(C)]
#[derive(Clone, Copy)]
pub struct LogEnding {
    /// The timestamp of its header, below which updates may be missing.
    pub from: u64,
    /// The greatest of its timestamps: of its header and its complete records.
    pub last: u64,
    /// Whether a torn tail follows these records.
    pub torn: bool,
    /// Whether further records follow the torn tail, as `cut --skip` finds them. Those of a file of format 4 do not.
    pub goes_on: bool,
}

/// Tells where a log ends. `FAULT`: the bytes are no log.
#[unsafe(no_mangle)]
pub extern "C" fn mtr_read_log_ending(alloc: Global, log: &[u8], ending: &mut LogEnding) -> u32
    ensures done { result ≡ DONE → EndsSo log.now ending.new }
    ensures fault { result ≡ FAULT → (fault : FaultValue) × IsLogFault log.now fault }
    ensures kept { result ≢ DONE → ending.new ≡ ending.old }
    ensures certain { IsOneOf (DONE ∷ MEMORY ∷ FAULT ∷ []) result }
{
    let front = match front_of(alloc, log) {
        Ok(front) => front,
        Err(FeedFault::Memory) => return MEMORY,
        Err(_) => return FAULT,
    };
    let Ok(goes_on) = goes_on(alloc, log, front) else {
        return MEMORY;
    };
    *ending = LogEnding {
        from: front.from(),
        last: front.last(),
        torn: front.torn(),
        goes_on,
    };
    DONE
}

/// Returns the front of a log. Err: the one fault of the bytes, or out of memory.
fn front_of(alloc: Global, log: &[u8]) -> Result<LogFront, FeedFault>
    ensures front { IfOk result (λ front. (reading : LogReading) × IsReading log.now reading × (front ≡ front_in reading)) }
    ensures fault { IfErr result (IsAnswered log.now) }
{
    let mut feed = LogFeed::keeping(alloc);
    // The feed keeps a fault, which `finish` returns.
    let _ = feed.feed(log);
    let text = feed.finish()?;
    Ok(text.front)
}

/// Returns whether records go on behind those of the log with this front. Err: out of memory.
fn goes_on(alloc: Global, log: &[u8], front: LogFront) -> Result<bool, Memory>
    requires { (reading : LogReading) × IsReading log.now reading × (front ≡ front_in reading) }
    ensures { IfOk result (λ goes_on. (reading : LogReading) → IsReading log.now reading → front ≡ front_in reading → GoesOn log.now reading goes_on) }
{
    if is_sealed(log) {
        return Ok(false);
    }
    let rest = rest_of(log, front);
    let found = find_items(alloc, Items::Records, front.head.format, rest)?;
    Ok(!found.is_empty())
}

/// Returns what follows the complete records of the log with this front, which is no file of format 4.
fn rest_of(log: &[u8], front: LogFront) -> &[u8]
    requires plain { IsSealed log.now → ⊥ }
    requires front { (reading : LogReading) × IsReading log.now reading × (front ≡ front_in reading) }
    ensures { (reading : LogReading) → IsReading log.now reading → front ≡ front_in reading → log.now ≡ log_bytes reading.head reading.records ++ result.now }
{
    &log[front.bytes as usize..]
}
