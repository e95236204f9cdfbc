//! Writes a store as the parts of one checkpoint, and the log that makes it count.
//!
//! `Checkpoint::plan` walks a tree once, writes nothing, and decides which pairs each part has. `write_part` writes a part
//! to any writer, straight from the tree. So the caller creates one file after another, or several at once.
//! `log` returns the bytes of a log that makes the checkpoint count. All these files are of format 4, with a salt each.
//!
//! ```
//! let checkpoint = Checkpoint::plan(alloc, &tree, number, cutoff, version, limit)?;
//! for part in 0..checkpoint.parts() {
//!     let mut file = File::create(alloc, name_of(part))?;
//!     checkpoint.write_part(alloc, salt + u64::from(part), part, &mut file)?;
//! }
//! let log = checkpoint.log(alloc, salt + u64::from(checkpoint.parts()))?;
//! ```
//!
//! Begin with `checkpoint.rt`, and with `specs/Checkpoints.antt`, which says what is written.
#![tactic(auto)]

mod checkpoint;
mod encode;
mod entries;
mod laws;
mod plan_fault;
mod planning;
#[cfg(test)]
mod tests;

pub use checkpoint::{Checkpoint, MOST_PARTS};
pub use laws::a_written_checkpoint_is_read;
pub use plan_fault::PlanFault;
