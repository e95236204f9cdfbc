//! Prints what logs, parts and stores hold, as lines of text and as JSON, for the programs of this repository.
//!
//! `write_records` and `write_entries` print the records of a log and the entries of a part that a `Selection` wants. The
//! visitor `Lines` prints a store in the form of the dump, and `Printer` in another `Form`. `Fields` prints a line of
//! named values. For records, entries, headers and the dump, contracts say each byte that is printed.
//!
//! ```
//! let selection = Selection { from: 0, limit: 10, key: None, notation: Notation::Json };
//! let (head, rest) = header_at(bytes)?;
//! write_head(&head, selection.notation, out)?;
//! let first = selection.begin(bytes.len() - rest.len());
//! write_records(alloc, head.format, rest, first, &selection, out)?;
//! ```
//!
//! Begin with `listing.rt`, and with `specs/Listing.antt`, which says what is printed.
#![tactic(auto)]

mod digits;
mod escapes;
mod fields;
mod form;
mod json;
mod listing;
mod pairs;
mod placed;
mod print_fault;
mod value;
mod words;

pub use digits::write_hex;
pub use escapes::{Shown, unescape};
pub use fields::Fields;
pub use form::{Form, Printer};
pub use listing::{
    Listed, Notation, Selection, write_entries, write_head, write_part_head, write_records,
};
pub use pairs::{Lines, write_pair};
pub use print_fault::PrintFault;
pub use value::Value;
