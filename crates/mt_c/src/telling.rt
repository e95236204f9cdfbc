//! The words for a status and for a fault, and the versions of the library.
ghost use Rattle.std.specs.Prelude.{◌≡◌, ◌≢◌, ◌≤◌, ◌↔◌, ◌∷◌, [], List, ℕ, IsSome};
ghost use Rattle.mt_words.specs.declared.fault.Fault.{Fault};
ghost use Rattle.mt_c.specs.Told.{c_fault, CanBeTold};
ghost use Rattle.mt_c.specs.Buffers.{Writes};
ghost use Rattle.mt_c.specs.Statuses.{IsOneOf, IsRefusedUnless};
ghost use Rattle.mt_c.specs.declared.status.TheConstants.{DONE, MEMORY, WRONG, SHORT, FAILED};

use crate::buffer::write_bytes;
use crate::fault::CFault;
use crate::status::{ABSENT, DONE, EARLY, FAILED, FAULT, FULL, MEMORY, SHORT, WRONG};
use std::alloc::Global;

/// The version of the library.
const LIBRARY: u32 = 3;

/// The greatest format of logs.
const LOG_FORMAT: u32 = 4;

/// The greatest format of parts.
const PART_FORMAT: u32 = 4;

/// The versions of the library as C sees them.
#[repr(C)]
#[derive(Clone, Copy)]
pub struct Versions {
    /// The version of the library.
    pub library: u32,
    /// The greatest format of logs that it knows.
    pub log_format: u32,
    /// The greatest format of parts that it knows.
    pub part_format: u32,
}

/// Tells the versions of the library.
#[unsafe(no_mangle)]
pub extern "C" fn mtr_version(versions: &mut Versions)
    ensures { versions.new ≡ record { library = 3; log_format = 4; part_format = 4 } }
{
    *versions = Versions {
        library: LIBRARY,
        log_format: LOG_FORMAT,
        part_format: PART_FORMAT,
    };
}

/// Writes the words for the status to the beginning of `out`, and their length to `count`. `WRONG`: there is no such
/// status.
#[unsafe(no_mangle)]
pub extern "C" fn mtr_status_text(status: u32, out: &mut [u8], count: &mut usize) -> u32
    ensures written { result ≢ WRONG → (words : List ℕ) × Writes words out.old out.new count.new result }
    ensures kept { result ≢ DONE → out.new ≡ out.old }
    ensures untold { result ≢ DONE → result ≢ SHORT → count.new ≡ count.old }
    ensures certain { IsOneOf (DONE ∷ WRONG ∷ SHORT ∷ []) result }
    ensures refused { IsRefusedUnless (status ≤ FAILED) result }
{
    match words_of(status) {
        Some(words) => write_bytes(words.as_bytes(), out, count),
        None => WRONG,
    }
}

/// Returns the words for a status, or None if there is no such status.
fn words_of(status: u32) -> Option<&'static str>
    ensures { IsSome result ↔ status ≤ FAILED }
{
    match status {
        DONE => Some("done"),
        MEMORY => Some("out of memory"),
        WRONG => Some("an argument is not lawful, or a place does not hold what the call needs"),
        ABSENT => Some("there is no such key, column, pair or item"),
        SHORT => Some("the buffer is too short"),
        FAULT => Some("the bytes have a fault"),
        EARLY => Some("what the call waits for did not happen yet"),
        FULL => Some("the log has no room, or no stamp or number is left"),
        FAILED => Some("a write or a sync failed"),
        _ => None,
    }
}

/// Writes the words for the fault to the beginning of `out`, and their length to `count`. `WRONG`: recovery tells no such
/// fault.
#[unsafe(no_mangle)]
pub extern "C" fn mtr_fault_text(
    alloc: Global,
    fault: &CFault,
    out: &mut [u8],
    count: &mut usize,
) -> u32
    ensures written { result ≢ MEMORY → result ≢ WRONG → (words : List ℕ) × Writes words out.old out.new count.new result }
    ensures kept { result ≢ DONE → out.new ≡ out.old }
    ensures untold { result ≢ DONE → result ≢ SHORT → count.new ≡ count.old }
    ensures certain { IsOneOf (DONE ∷ MEMORY ∷ WRONG ∷ SHORT ∷ []) result }
    ensures refused { IsRefusedUnless ((found : Fault) × CanBeTold found × (fault.now ≡ c_fault found)) result }
{
    let Some(found) = fault.found() else {
        return WRONG;
    };
    match format!(in alloc; "{found}") {
        Ok(words) => write_bytes(words.as_bytes(), out, count),
        Err(_) => MEMORY,
    }
}
