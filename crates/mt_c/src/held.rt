//! What a place holds.
use crate::borrower::Borrower;
use crate::feeds::{FedLog, FedPart};
use crate::inputs::Inputs;
use crate::job::Job;
use crate::loan::Loan;
use crate::task::Worker;
use mt_keeper::{First, Keeper, Restart};
use mt_recover::{Hit, Recovered};
use mt_writer::PartWriter;
use std::sync::Arc;

/// A value that a place of C holds.
#[derive(Drop)]
pub enum Held {
    /// A log that is being fed. `None`: its device failed.
    Log(Option<FedLog>),
    /// A part that is being fed. `None`: its device failed.
    Part(Option<FedPart>),
    /// Logs and parts to recover from.
    Inputs(Inputs),
    /// A recovery whose tasks threads of C do.
    Job(Job),
    /// A task that a job handed out.
    Worker(Worker),
    /// A store and its report, which any number of places share.
    Store(Arc<Recovered>),
    /// Pairs of a store.
    Hits(Vec<Hit>),
    /// The first log of an empty folder, which is to be created.
    First(First),
    /// The logs of a keeper that goes on after a crash.
    Restart(Restart),
    /// A keeper of logs.
    Keeper(Keeper),
    /// A keeper that lent its logs.
    Loan(Loan),
    /// A log that a keeper lent, for one thread.
    Borrower(Borrower),
    /// Bytes that were taken of a log or of a part.
    Bytes(Vec<u8>),
    /// A part that is being written.
    PartWriter(PartWriter),
}
