//! The code of the program `mtrecover`, which recovers the store of a folder and answers one query on it, or those of its
//! input, or writes it as a checkpoint into a new folder; audits the logs of the folder; checks all its files, or resumes
//! them after a crash; or prints or cuts one file.
//!
//! `run` is the whole program. It reads the arguments into a `Command`. One on a file, as of `records` and `cut`, reads
//! that file. The others list the `Names` of the logs and parts in the `Folder`, and are methods of a `Run` over both.
//! `check` and `resume` read each file by itself. A `Question`, `audit`, `shell` and `checkpoint` open the files as sources,
//! from which the store is recovered or the logs are audited. `row.rt` prints all lines of named values, and `saving.rt`
//! has all calls that change files.
//!
//! ```
//! let words = vec![in rt.alloc(); "report".to_string(rt.alloc())?, folder]?;
//! let around = Surroundings { at_terminal: false, prints_at_terminal: false, columns: None, takes_colours: false };
//! let status = run_words(rt, &words, input, around, out, err);
//! ```
//!
//! Begin with `running.rt`. `failure.rt` of `mt_recover` has the text and the exit status of each failure.
#![tactic(auto)]

mod answering;
mod beginning;
mod caveat;
mod chart;
mod checked;
mod checking;
mod checkpointing;
mod closing;
mod copies;
mod cutting;
mod ending;
mod explaining;
mod fates;
mod filing;
mod flaws;
mod folding;
mod grammar;
mod halt;
mod headless;
mod heads;
mod hints;
mod host;
mod intake;
mod lateness;
mod listing;
mod loss;
mod noting;
mod opening;
mod progress;
mod question;
mod ranges;
mod request;
mod resuming;
mod row;
mod running;
mod salvaging;
mod saving;
mod sealed;
mod sheet;
mod shell;
mod stats;
mod stop;
mod straying;
mod told;
mod torn;
mod tracing;
mod watching;
mod ways;
mod words;

pub use answering::print_answer;
pub use host::{Host, Lock};
pub use listing::{Names, list};
pub use loss::Budget;
pub use progress::Telling;
pub use request::{
    CheckForm, Command, Cut, FileCommand, FileQuery, Folder, FolderCommand, NewFolder, Question,
    Range, Resume, Shell, StoreQuery, Trace,
};
pub use running::{Surroundings, run, run_words};
pub use words::command;
