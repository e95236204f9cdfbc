//! Keeps all logs of a server, so that nothing acknowledged is lost in a crash (docs/DURABILITY.md).
//!
//! A `Keeper` owns the writers of all logs and the clock that stamps their records. It owns no file: it returns bytes, and
//! is told what became of them. A server with threads keeps it under a lock. Each call is a step of a life
//! (`calls_are_a_life` of `mt_laws`).
//!
//! ```
//! let first = First::begin(alloc, salt)?;
//! // Write first.bytes() to a file under another name, sync it, rename it, and sync the folder.
//! let mut keeper = first.created();
//! let stamp = keeper.put(0, key, columns)?;
//! keeper.mark(0)?;
//! buffer = keeper.take(0, buffer)?;
//! // Append the buffer to the file of log 0, and sync it.
//! keeper.synced(0)?;
//! if stamp < keeper.acknowledged_below() {
//!     // The put may be acknowledged.
//! }
//! ```
//!
//! Begin with `specs/Keeping.antt`, which says which server a keeper holds, and `specs/Calling.antt`, which says what each
//! call does to it.
#![tactic(auto)]

mod beginning;
mod checkpoints;
mod crew;
mod deleting;
mod first;
mod keeper;
mod keeper_fault;
mod lent_log;
mod resuming;
mod segments;
#[cfg(test)]
mod tests;
mod working;
mod writing;

pub use crew::{Crew, LATEST_LENT, MOST_LOGS, MOST_STAMPS};
pub use first::First;
pub use keeper::Keeper;
pub use keeper_fault::KeeperFault;
pub use lent_log::LentLog;
pub use resuming::{Found, Restart};
