//! The request that the arguments make.
use crate::loss::Budget;
use crate::progress::Telling;
use mt_record::{Head, records_below};
use mt_recover::{Pieces, Workers};
use mt_text::{Form, Selection};
use mt_words::{Format, Key};

/// The request that the arguments make. If it is verbose, a failure has a second line, which explains it.
#[derive(Drop)]
pub enum Command<'a> {
    OnFolder(Folder<'a>, FolderCommand<'a>),
    OnFile(FileCommand<'a>),
}

/// What to do with a folder of logs and parts.
#[derive(Drop)]
pub enum FolderCommand<'a> {
    /// Answers a question.
    Question(Question),
    /// Prints the clashes of the logs, which take no store.
    Audit { is_json: bool },
    /// Answers questions over the store, which are lines of the input.
    Shell(Shell),
    /// Prints what is in each file, for which files are read twice.
    Check(CheckForm),
    /// Makes the files those with which a server goes on after a crash.
    Resume(Resume),
    /// Writes the store as a checkpoint into a new folder.
    Checkpoint(NewFolder<'a>),
    /// Prints and deletes the notes of what was lost.
    Forget { is_json: bool },
}

impl FolderCommand<'_> {
    /// Returns whether others may read the folder meanwhile. None: and write it, since the command changes no file.
    pub fn lock(&self) -> Option<bool> {
        match self {
            FolderCommand::Resume(how) => Some(how.is_dry),
            FolderCommand::Checkpoint(_) => Some(true),
            FolderCommand::Forget { .. } => Some(false),
            _ => None,
        }
    }

    /// Returns whether the command changes files.
    pub fn changes_files(&self) -> bool {
        match self {
            FolderCommand::Resume(how) => !how.is_dry,
            FolderCommand::Checkpoint(_) | FolderCommand::Forget { .. } => true,
            _ => false,
        }
    }
}

/// A query on a file.
#[derive(Drop)]
pub struct FileCommand<'a> {
    pub path: &'a str,
    /// Whether a failure has a second line, which explains it.
    pub is_verbose: bool,
    pub query: FileQuery<'a>,
}

impl Command<'_> {
    /// Makes a command explain a failure, tell how far it has come, and what its store lost, as fits a terminal.
    pub fn tell_at_terminal(&mut self) {
        match self {
            Command::OnFolder(folder, _) => {
                folder.telling = folder.telling.at_terminal();
                folder.is_verbose = true;
            }
            Command::OnFile(file) => file.is_verbose = true,
        }
    }

    /// Gives a chart this width, unless the arguments give one.
    pub fn fit(&mut self, columns: Option<u64>) {
        if let Command::OnFolder(_, FolderCommand::Check(CheckForm::Chart(width))) = self {
            *width = width.or(columns);
        }
    }
}

/// A folder, and how to read it.
#[derive(Drop)]
pub struct Folder<'a> {
    /// The path of the folder of the logs and parts.
    pub path: &'a str,
    /// The number of threads that work.
    pub workers: Workers,
    /// The most logs and parts that it may have, together.
    pub most_files: u64,
    /// The most bytes that one of them may have.
    pub most_bytes: u64,
    /// Whether a failure has a second line, which explains it, and what was lost or passed over is told after an answer.
    pub is_verbose: bool,
    /// How it is told how far the command has come.
    pub telling: Telling,
    /// Recovery cuts the keys into at most this many pieces. None: the command takes no store.
    pub pieces: Option<Pieces>,
    /// How many writers the server had, as a report counts them. None: any number.
    pub writers: Option<u64>,
}

/// How to print what is in the files of a folder.
#[derive(Clone, Copy, PartialEq, Eq)]
pub enum CheckForm {
    /// As a line of each file.
    Lines,
    /// As a JSON object of each file.
    Json,
    /// As a chart, in lines of this width, or of the usual one.
    Chart(Option<u64>),
    /// As what a chart has: a JSON object of each span.
    Spans,
}

/// How to answer the lines of the input.
#[derive(Clone, Copy)]
pub struct Shell {
    /// Whether the exit status is the first status that is not 0, and not just 0.
    pub is_strict: bool,
    /// Whether a line with the status follows each answer.
    pub has_status: bool,
    /// Whether errors are lines of the answers.
    pub has_errors: bool,
}

/// How to resume the files of a folder.
#[derive(Clone, Copy)]
pub struct Resume {
    /// Whether nothing is changed: what would be is printed.
    pub is_dry: bool,
    /// Whether nothing is changed if anything was lost or passed over.
    pub is_strict: bool,
    /// Whether JSON is printed.
    pub is_json: bool,
    /// Whether there is no log, and one is begun above the best checkpoint.
    pub has_no_logs: bool,
    /// What may be lost.
    pub budget: Budget,
}

/// A new folder for a checkpoint of a store, and what the checkpoint is to be.
#[derive(Drop)]
pub struct NewFolder<'a> {
    /// The path of the folder.
    pub path: &'a str,
    /// The number of the checkpoint.
    pub number: u32,
    /// The most bytes of the text of a part that has several entries.
    pub limit: usize,
    /// Whether JSON is printed.
    pub is_json: bool,
    /// What the store may have lost.
    pub budget: Budget,
}

/// A question over a folder: what to print.
#[derive(Drop)]
pub enum Question {
    /// A query on the recovered store.
    Store(StoreQuery),
    /// What became of each update of a key.
    History(Trace),
}

/// The history of a key: what to print.
#[derive(Drop)]
pub struct Trace {
    pub key: Key,
    /// Whether JSON is printed.
    pub is_json: bool,
}

/// What to print of one file.
#[derive(Drop)]
pub enum FileQuery<'a> {
    /// The wanted records of a log, or entries of a part, from this byte on, or from the first one on.
    Records(Selection, Option<u64>),
    /// How many records or entries there are of each kind, as JSON or not.
    Stats(bool),
    /// A log of the complete records of a log, written into the file of this path if one is given.
    Cut(Cut, Option<&'a str>),
}

impl FileQuery<'_> {
    /// Returns whether a file is written.
    pub fn changes_files(&self) -> bool {
        matches!(self, FileQuery::Cut(_, Some(_)))
    }
}

/// How to cut a log, or to salvage a part.
#[derive(Clone, Copy)]
pub struct Cut {
    /// Whether records or entries go on after damage. If not, they end at it.
    pub is_skipping: bool,
    /// A header in place of the log's own, which is lost.
    pub header: Option<Head>,
    /// The timestamp below which records are kept. None: all are.
    pub below: Option<u64>,
    /// The timestamp of a mark that ends the log, or where the checkpoint of the part ends.
    pub end: Option<u64>,
}

impl Cut {
    /// Returns the records that are kept of these.
    pub fn kept<'b>(&self, format: Format, records: &'b [u8]) -> &'b [u8] {
        match self.below {
            Some(timestamp) => records_below(format, timestamp, records),
            None => records,
        }
    }
}

/// A query on the recovered store.
#[derive(Drop)]
pub enum StoreQuery {
    /// The report of recovery. If it is strict, what was lost or passed over decides the status.
    Report { is_json: bool, is_strict: bool },
    /// The pair of a key.
    Get(Key, Form),
    /// Whether there is this key. Prints nothing.
    Exists(Key),
    /// Some pairs in order.
    Range(Range, Form),
    /// All pairs.
    Dump(Form),
    /// The number of pairs.
    Count,
}

/// The pairs of a range: the first ones, up to a number.
#[derive(Drop)]
pub struct Range {
    /// The key at or after which the range begins.
    pub from: Key,
    /// The most pairs.
    pub count: u32,
    /// The key below which the range ends, if it ends before the last key.
    pub to: Option<Key>,
    /// What all keys of the range begin with, if not just anything.
    pub prefix: Option<Key>,
    /// The numbers of the columns to print. None: all columns.
    pub columns: Option<Vec<u8>>,
}
