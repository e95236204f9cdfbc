//! Reads the arguments.
ghost use Rattle.std.specs.Prelude.{◌≤◌, IfErr};

use crate::explaining::or_tell;
use crate::grammar::{
    ACCEPT_LOSS, AT, BELOW, CHART, COLUMNS, COUNT, COUNT_KEYS, DRY_RUN, END, ERRORS, EXISTS,
    FILE_BYTES, FILES, FOLDER, FROM, HEADER, JSON, KEY, LIMIT, LOG_OR_PART, MAX_LATE, MOST_TEXT,
    NO_LOGS, NO_VALUE, NUMBER, OUT, OUTPUT, PART_LIMIT, PIECES, PREFIX, PROGRESS, RECORD_KEY, SKIP,
    STATS, STATUS, STRICT, STRICT_RESUME, STRICT_SHELL, TEXT, TO, VERBOSE, WIDTH, WORKERS, WRITERS,
    grammar,
};
use crate::listing::Names;
use crate::loss::Budget;
use crate::progress::Telling;
use crate::question::tell_error;
use crate::request::{
    CheckForm, Command, Cut, FileCommand, FileQuery, Folder, FolderCommand, NewFolder, Question,
    Range, Resume, Shell, StoreQuery, Trace,
};
use crate::running::Surroundings;
use clap::ArgMatches;
use clap::error::ErrorKind;
use hex::FromHexError;
use mt_record::{Head, Segment};
use mt_recover::{Failure, Pieces, Refusal, Workers};
use mt_text::{Form, Notation, Selection, unescape};
use mt_words::{Fault, Format, Key};
use std::alloc::Global;
use std::io::{self, Write};

/// Reads the request from the arguments after the name of the program. An Err is the exit status; the text is then
/// printed: help and the version on `out`, in lines that fit it, a fault of the arguments on `err`.
pub fn command<'a, R: AllocGlobal, O: Write, E: Write>(
    rt: &R,
    words: &'a [String],
    around: Surroundings,
    out: &mut O,
    err: &mut E,
) -> Result<Command<'a>, u8>
    ensures status { IfErr result (λ status. status ≤ 3) }
{
    match parse(rt.alloc(), words) {
        Ok(matches) => read_or_tell(rt.alloc(), &matches, around.at_terminal, err),
        Err(error) => Err(tell_error(
            rt.alloc(),
            &error,
            Some(around.help_width()),
            None,
            out,
            err,
        )),
    }
}

/// Reads the request from the parsed arguments. An Err is the exit status; the failure is then printed on `err`.
fn read_or_tell<'a, E: Write>(
    alloc: Global,
    matches: &ArgMatches<'a>,
    at_terminal: bool,
    err: &mut E,
) -> Result<Command<'a>, u8>
    ensures { IfErr result (λ status. status ≤ 3) }
{
    let no_names = Names::new(alloc);
    let is_verbose = match matches.subcommand() {
        Some((_, matches)) => at_terminal || matches.get_flag(VERBOSE.name),
        None => false,
    };
    or_tell(read(alloc, matches), is_verbose.then_some(&no_names), err)
}

/// Parses the arguments by the grammar, which takes any word as the header of a log.
fn parse<'a>(alloc: Global, words: &'a [String]) -> Result<ArgMatches<'a>, clap::Error> {
    let mut grammar = grammar(alloc)?;
    let matches = grammar.try_get_matches_from_mut(words)?;
    if has_bad_header(&matches) {
        return Err(grammar.error(ErrorKind::ValueValidation, BAD_HEADER)?);
    }
    Ok(matches)
}

/// What is wrong with a word that is no header of a log.
const BAD_HEADER: &str = "a header is FORMAT:FROM, or of a segment 3:FROM:WORKER:SEGMENT";

/// Returns whether there is a word for the header of a log, but it is none.
fn has_bad_header(matches: &ArgMatches<'_>) -> bool {
    match matches.subcommand() {
        Some(("cut", matches)) => match matches.get_str(HEADER.name) {
            Some(word) => header(word).is_none(),
            None => false,
        },
        _ => false,
    }
}

/// Reads the request from the parsed arguments.
fn read<'a>(alloc: Global, matches: &ArgMatches<'a>) -> Result<Command<'a>, Refusal<'static>> {
    let (name, matches) = matches.subcommand().ok_or(Failure::Words)?;
    let query = match name {
        "records" if matches.get_flag(STATS.name) => FileQuery::Stats(matches.get_flag(JSON.name)),
        "records" => FileQuery::Records(selection(alloc, matches)?, matches.get_one(AT.name)),
        "cut" => FileQuery::Cut(cut(matches), matches.get_str(OUTPUT.name)),
        _ => return of_folder(alloc, name, matches),
    };
    Ok(Command::OnFile(FileCommand {
        path: found(matches.get_str(LOG_OR_PART.name))?,
        is_verbose: matches.get_flag(VERBOSE.name),
        query,
    }))
}

/// Returns the request of the subcommand of this name, which takes a folder.
fn of_folder<'a>(
    alloc: Global,
    name: &str,
    matches: &ArgMatches<'a>,
) -> Result<Command<'a>, Refusal<'static>> {
    let folder = Folder {
        path: found(matches.get_str(FOLDER.name))?,
        workers: found(matches.get_one(WORKERS.name).and_then(Workers::new))?,
        most_files: found(matches.get_one(FILES.name))?,
        most_bytes: found(matches.get_one(FILE_BYTES.name))?,
        is_verbose: matches.get_flag(VERBOSE.name),
        telling: if matches.get_flag(PROGRESS.name) {
            Telling::Lines
        } else {
            Telling::Never
        },
        pieces: matches.get_one(PIECES.name).and_then(Pieces::new),
        writers: matches.get_one(WRITERS.name),
    };
    let command = match name {
        "check" => FolderCommand::Check(check_form(matches)),
        "resume" => FolderCommand::Resume(Resume {
            is_dry: matches.get_flag(DRY_RUN.name),
            is_strict: matches.get_flag(STRICT_RESUME.name),
            is_json: matches.get_flag(JSON.name),
            has_no_logs: matches.get_flag(NO_LOGS.name),
            budget: budget(matches),
        }),
        "checkpoint" => {
            let limit: u64 = found(matches.get_one(PART_LIMIT.name))?;
            FolderCommand::Checkpoint(NewFolder {
                path: found(matches.get_str(OUT.name))?,
                number: found(matches.get_one(NUMBER.name))?,
                limit: limit.min(MOST_TEXT) as usize,
                is_json: matches.get_flag(JSON.name),
                budget: budget(matches),
            })
        }
        "audit" => FolderCommand::Audit {
            is_json: matches.get_flag(JSON.name),
        },
        "forget" => FolderCommand::Forget {
            is_json: matches.get_flag(JSON.name),
        },
        "shell" => FolderCommand::Shell(Shell {
            is_strict: matches.get_flag(STRICT_SHELL.name),
            has_status: matches.get_flag(STATUS.name),
            has_errors: matches.get_flag(ERRORS.name),
        }),
        _ => FolderCommand::Question(question_of(alloc, name, matches)?),
    };
    Ok(Command::OnFolder(folder, command))
}

/// Returns what may be lost.
fn budget(matches: &ArgMatches<'_>) -> Budget {
    Budget {
        most_late: matches.get_one(MAX_LATE.name),
        accepts_loss: matches.get_flag(ACCEPT_LOSS.name),
    }
}

/// Returns how to print what is in the files of a folder.
fn check_form(matches: &ArgMatches<'_>) -> CheckForm {
    match (matches.get_flag(CHART.name), matches.get_flag(JSON.name)) {
        (true, false) => CheckForm::Chart(matches.get_one(WIDTH.name)),
        (true, true) => CheckForm::Spans,
        (false, true) => CheckForm::Json,
        (false, false) => CheckForm::Lines,
    }
}

/// Returns which records or entries to print, and how.
fn selection(alloc: Global, matches: &ArgMatches<'_>) -> Result<Selection, Refusal<'static>> {
    Ok(Selection {
        from: matches.get_one(FROM.name).unwrap_or(0),
        limit: matches.get_one(LIMIT.name).unwrap_or(u64::MAX),
        key: key(alloc, matches, RECORD_KEY.name)?,
        notation: if matches.get_flag(JSON.name) {
            Notation::Json
        } else {
            Notation::Words
        },
    })
}

/// Returns how to cut a log. After a header that is lost, records go on as after any damage.
fn cut(matches: &ArgMatches<'_>) -> Cut {
    let header = matches.get_str(HEADER.name).and_then(header);
    Cut {
        is_skipping: matches.get_flag(SKIP.name) || header.is_some(),
        header,
        below: matches.get_one(BELOW.name),
        end: matches.get_one(END.name),
    }
}

/// Reads the header of a log: `FORMAT:FROM`, or `3:FROM:WORKER:SEGMENT` of a segment. None: the word is no header.
fn header(word: &str) -> Option<Head> {
    let (format, fields) = word.split_once(':')?;
    let (from, segment) = match format {
        "1" | "2" => (fields, None),
        "3" => {
            let (from, segment) = fields.split_once(':')?;
            (from, Some(segment_of(segment)?))
        }
        _ => return None,
    };
    Some(Head {
        format: if format == "1" {
            Format::One
        } else {
            Format::Two
        },
        from: from.parse::<u64>().ok()?,
        segment,
    })
}

/// Reads `WORKER:SEGMENT`.
fn segment_of(fields: &str) -> Option<Segment> {
    let (worker, number) = fields.split_once(':')?;
    Some(Segment {
        worker: worker.parse::<u32>().ok()?,
        number: number.parse::<u32>().ok()?,
    })
}

/// Returns a value that the grammar requires. Err: `Words`, if the parser did not find it.
fn found<T>(value: Option<T>) -> Result<T, Refusal<'static>> {
    value.ok_or(Refusal::from(Failure::Words))
}

/// Returns the question of the subcommand of this name.
pub fn question_of(
    alloc: Global,
    name: &str,
    matches: &ArgMatches<'_>,
) -> Result<Question, Refusal<'static>> {
    let query = match name {
        "report" => StoreQuery::Report {
            is_json: matches.get_flag(JSON.name),
            is_strict: matches.get_flag(STRICT.name),
        },
        "get" if matches.get_flag(EXISTS.name) => {
            StoreQuery::Exists(found(key(alloc, matches, KEY.name)?)?)
        }
        "get" => StoreQuery::Get(found(key(alloc, matches, KEY.name)?)?, form(matches)),
        "range" => StoreQuery::Range(range(alloc, matches)?, form(matches)),
        "dump" if matches.get_flag(COUNT_KEYS.name) => StoreQuery::Count,
        "dump" if matches.get_flag(NO_VALUE.name) => {
            StoreQuery::Range(all_keys(alloc)?, form(matches))
        }
        "dump" => StoreQuery::Dump(form(matches)),
        "history" => {
            return Ok(Question::History(Trace {
                key: found(key(alloc, matches, KEY.name)?)?,
                is_json: matches.get_flag(JSON.name),
            }));
        }
        _ => return Err(Refusal::from(Failure::Words)),
    };
    Ok(Question::Store(query))
}

/// Returns the range of all keys, without a column.
fn all_keys(alloc: Global) -> Result<Range, Refusal<'static>> {
    Ok(Range {
        from: found(Key::new(Vec::new(alloc)))?,
        count: u32::MAX,
        to: None,
        prefix: None,
        columns: Some(Vec::new(alloc)),
    })
}

/// Returns the form in which pairs are printed.
fn form(matches: &ArgMatches<'_>) -> Form {
    Form {
        is_json: matches.get_flag(JSON.name),
        is_text: matches.get_flag(TEXT.name),
    }
}

/// Returns the range of the subcommand `range`.
fn range(alloc: Global, matches: &ArgMatches<'_>) -> Result<Range, Refusal<'static>> {
    let from = found(key(alloc, matches, KEY.name)?)?;
    let to = key(alloc, matches, TO.name)?;
    let prefix = key(alloc, matches, PREFIX.name)?;
    Ok(Range {
        from,
        count: found(matches.get_one(COUNT.name))?,
        to,
        prefix,
        columns: columns(alloc, matches)?,
    })
}

/// Returns the numbers of the columns. None: the arguments name none.
fn columns(alloc: Global, matches: &ArgMatches<'_>) -> Result<Option<Vec<u8>>, Refusal<'static>> {
    let Some(words) = matches.get_strs(COLUMNS.name) else {
        return Ok(None);
    };
    let mut numbers = Vec::new(alloc);
    for word in words {
        numbers.push(found(word.parse::<u8>().ok())?)?;
    }
    Ok(Some(numbers))
}

/// Decodes the key of this argument. None: it is not given. By then the parser has accepted all arguments.
fn key(
    alloc: Global,
    matches: &ArgMatches<'_>,
    argument: &str,
) -> Result<Option<Key>, Refusal<'static>> {
    match matches.get_str(argument) {
        Some(word) => Ok(Some(key_of(alloc, word, matches.get_flag(TEXT.name))?)),
        None => Ok(None),
    }
}

/// Decodes a key: text with escapes; or hexadecimal, before which `0x` may stand, as `records` prints it.
fn key_of(alloc: Global, word: &str, is_text: bool) -> Result<Key, Refusal<'static>> {
    let bytes = if is_text {
        unescape(alloc, word)?.ok_or(bad_key("it has a wrong escape"))?
    } else {
        match hex::decode(alloc, word.strip_prefix("0x").unwrap_or(word)) {
            Ok(bytes) => bytes,
            Err(FromHexError::OutOfMemory) => return Err(Refusal::from(Fault::Memory)),
            Err(FromHexError::OddLength) => return Err(bad_key("its digits are odd in number")),
            Err(_) => return Err(bad_key("it is not only hexadecimal digits")),
        }
    };
    Key::new(bytes).ok_or(bad_key("it is too long"))
}

/// Returns that a word is no key, and why.
fn bad_key(reason: &'static str) -> Refusal<'static> {
    Refusal::of(
        Failure::Key,
        io::Error::new(io::ErrorKind::InvalidInput, reason),
    )
}
