//! Recovers a store from update logs and checkpoint parts, and prints it as text.
//!
//! `recover_one` recovers from `Inputs` on one thread, `recover` by workers. Both return `Recovered`: a `Store` and its
//! `Report`. A caller with threads of its own takes three steps: `prepare` makes a `Job`, `work` replays pieces of it
//! into a `Haul`, and `assemble` makes the store of all hauls.
//!
//! `Fed` takes logs and parts that the caller reads and feeds itself, and recovers from these as `recover_one` does. For
//! threads that the caller starts, `Fed::divide` makes tasks that divide, `Dividing::replay` takes these back, done, and
//! makes tasks that replay, and `Replaying::finish` takes those back and makes the store.
//!
//! `audit` answers from the same `Inputs`, without a store: it finds the versions of a key that several updates share.
//!
//! ```
//! match recover_logs(alloc, &[log]) {
//!     Ok(recovered) => write_dump(recovered.store(), out),
//!     Err(fault) => writeln!(out, "{fault}"),
//! }
//! ```
//!
//! Begin with `recovery.rt`, and with `specs/Inputs.antt`, which says what recovery returns.
#![tactic(auto)]

mod assembling;
mod auditing;
mod batches;
mod by_workers;
mod checking;
mod dividing;
mod failure;
mod fed;
mod found;
mod haul;
mod history;
mod holes;
mod job;
mod laws;
mod prepared;
mod program;
mod reading;
mod recovery;
mod replaying;
mod report;
mod report_text;
mod scans;
mod store;
mod versions;
mod workers;
mod working;

pub use assembling::assemble;
pub use auditing::audit;
pub use checking::{check_logs, check_parts, fronts_of};
pub use dividing::{DivideTask, DividedTask, Dividing};
pub use failure::{Failure, Refusal};
pub use fed::Fed;
pub use found::{Start, start_of};
pub use haul::Haul;
pub use history::{Fate, History, history_of};
pub use holes::hole_before;
pub use job::{Job, prepare};
pub use laws::{one_report, one_verdict, one_walk};
pub use mt_board::Pass;
pub use mt_record::MOST_BYTES;
pub use mt_replay::{Clash, Cuts, MOST_PIECES, Pieces, Place, Window};
pub use mt_scan::{Choice, LogCheck, PartScan};
pub use mt_tree::{Hit, Visitor, Wanted};
pub use program::{MOST_FILES, dump_files, write_dump};
pub use reading::read_log;
pub use recovery::{Inputs, Recovered, recover, recover_logs, recover_one};
pub use replaying::{ReplayTask, ReplayedTask, Replaying};
pub use report::Report;
pub use store::Store;
pub use workers::{Cutting, Gate, MOST_WORKERS, NoGate, Workers};
pub use working::work;
