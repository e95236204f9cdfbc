//! The basic types of the store: keys, columns, log records, checkpoint entries, updates with their stamps, and faults.
//!
//! A `Record` of a log and an `Entry` of a checkpoint are lawful: they can only be made so. An `Update` is what one of
//! them does to a `Key`, with the `Stamp` that orders the updates of that key. `Columns` are the values of a key, and
//! `PackedColumns` those of a stored key, in one block of bytes. A `Fault` is the reason why there is no store.
//!
//! ```
//! let key = Key::copy_of(alloc, b"k")?;
//! // At time 9, key k is removed by version 2. A version of 0 would give None.
//! let record = Record::remove(9, 2, key);
//! ```
//!
//! Begin with `record.rt` and `update.rt`. `limits.rt` has the limits of both formats.
#![tactic(auto)]

mod code;
mod columns;
mod entry;
mod fault;
mod key;
mod limits;
mod numbers;
mod packed;
mod record;
mod sink;
mod slice;
mod update;

pub use code::{Code, Payload};
pub use columns::{Column, Columns, Value};
pub use entry::Entry;
pub use fault::{Fault, Memory, What};
pub use key::Key;
pub use limits::{Format, GREATEST_COLUMN, LONGEST_KEY, LONGEST_VALUE, Limits, MOST_COLUMNS};
pub use numbers::Numbers;
pub use packed::{LentColumns, PackedColumns, column_at};
pub use record::{Change, Record};
pub use sink::PairSink;
pub use slice::{slice_at, slice_bytes, slice_of};
pub use update::{Kind, Origin, Stamp, Update};
