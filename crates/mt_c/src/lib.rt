//! The library for servers in C and C++: recovery from logs and parts of checkpoints that the server reads and feeds, the
//! store's report and keys, what replaces a log, a keeper of the logs that it writes, and headers, records, entries and
//! footers, written to buffers of the server.
//!
//! Each function that C calls, but `mtr_free` and `mtr_version`, answers a status (`status.rt`). None keeps state, prints,
//! waits or ends the program. A value that outlives a call is in a `Place` of the server, as a boxed `Held`. Contracts see
//! what a place holds.
//!
//! Begin with `recovering.rt`, and with `specs/Holding.antt`, which says what a place holds; for the keeper with
//! `keeping.rt` and `specs/Keepers.antt`; for encoders with `records.rt`, and with `specs/Buffers.antt`, which says what is
//! written to a buffer.
#![tactic(auto)]

mod bare;
mod blocks;
mod borrower;
mod buffer;
mod checkpoints;
mod crewing;
mod cutting;
mod dumping;
mod ending;
mod fault;
mod feeding;
mod feeds;
mod filling;
mod flat;
mod formats;
mod fronts;
mod given;
mod headers;
mod held;
mod hosting;
mod inputs;
mod job;
mod keeping;
mod lent;
mod loan;
mod parts;
mod partwriting;
mod place;
mod querying;
mod ranging;
mod records;
mod recovering;
mod refusing;
mod reporting;
mod restarting;
mod resuming;
mod seeking;
mod segments;
mod status;
mod task;
mod telling;
mod trees;
mod working;
mod writing;
