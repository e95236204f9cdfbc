//! Writes logs so that nothing acknowledged is lost in a crash (docs/DURABILITY.md).
//!
//! A `NewLog` has the bytes of a file that is to be created. A `LogWriter` belongs to one worker and owns no file: it
//! returns the bytes to be appended, one write at a time, and is told when they are synced. `least_reach` tells what may
//! be acknowledged.
//!
//! ```
//! let new = NewLog::begin(alloc, Header { salt, worker: 0, segment: 0, workers: 1, from: 0 }, 1)?;
//! // Write new.bytes() to a file under another name, sync it, rename it, and sync the folder.
//! let mut log = new.created();
//! let red = Given { number: 0, bytes: b"red" };
//! let time = log.put(now, version, b"apple", &[red])?;
//! log.mark(time + 1)?;
//! if let Some(bytes) = log.take(spare) {
//!     // Append the bytes to the file, and sync it. If that fails, call log.failed().
//!     log.synced();
//! }
//! if time < least_reach(&[log.reach(), other.reach()]) {
//!     // The put may be acknowledged.
//! }
//! ```
//!
//! Begin with `log_writer.rt`, and with `specs/Journals.antt`, which says what a writer keeps.
#![tactic(auto)]

mod held;
mod laws;
mod log_writer;
mod new_log;
mod part_fault;
mod part_writer;
mod reaches;
#[cfg(test)]
mod tests;
mod writer_fault;

pub use laws::{
    a_file_has_its_text, a_journal_is_an_open_file, a_reach_stays_true, a_written_part_is_read,
};
pub use log_writer::{LONGEST_RECORD, LogWriter};
pub use new_log::NewLog;
pub use part_fault::PartWriterFault;
pub use part_writer::{PartWriter, SMALL};
pub use reaches::least_reach;
pub use writer_fault::WriterFault;
