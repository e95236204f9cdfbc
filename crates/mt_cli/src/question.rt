//! Reads the questions of a shell.
ghost use Rattle.std.specs.Prelude.{◌≤◌, IfErr, IfSome};
ghost use Rattle.mt_cli.specs.Questions.{AsksForKey};

use crate::closing::unless_closed;
use crate::explaining::{or_tell, tell};
use crate::folding::{USUAL_WIDTH, write_folded};
use crate::grammar::questions;
use crate::listing::Names;
use crate::request::Question;
use crate::words::question_of;
use clap::ArgMatches;
use clap::error::ErrorKind;
use mt_recover::{Failure, Refusal};
use mt_words::{Fault, Key};
use std::alloc::{AllocError, Global};
use std::io::{self, BufRead, Read, Write};

/// Reads the question that these words ask. An Err is its status; what is to be printed then is printed: help on `out`,
/// one line on `err` that says what is wrong, and if there are names a second one.
pub fn question<O: Write, E: Write>(
    alloc: Global,
    words: &[&str],
    names: Option<&Names>,
    out: &mut O,
    err: &mut E,
) -> Result<Question, u8>
    ensures status { IfErr result (λ status. status ≤ 3) }
{
    match parse(alloc, words) {
        Ok(matches) => or_tell(read(alloc, &matches), names, err),
        Err(error) => Err(tell_error(alloc, &error, None, names, out, err)),
    }
}

/// Parses the words by the grammar of a line.
fn parse<'a>(alloc: Global, words: &'a [&'a str]) -> Result<ArgMatches<'a>, clap::Error> {
    let first = words.first().copied().unwrap_or("");
    questions(alloc, first)?.try_get_matches_from_mut(words)
}

/// Reads the question from the parsed words.
fn read(alloc: Global, matches: &ArgMatches<'_>) -> Result<Question, Refusal<'static>> {
    let (name, matches) = matches.subcommand().ok_or(Failure::Words)?;
    question_of(alloc, name, matches)
}

/// Prints what the parser reports, and returns the exit status: help on `out`, in lines of this width, and an error on `err`.
/// Without a width this is in a shell: help has the usual width, and an error is one line.
pub fn tell_error<O: Write, E: Write>(
    alloc: Global,
    error: &clap::Error,
    width: Option<usize>,
    names: Option<&Names>,
    out: &mut O,
    err: &mut E,
) -> u8
    ensures { result ≤ 3 }
{
    if error.kind() == ErrorKind::OutOfMemory {
        return tell(&Refusal::from(Fault::Memory), names, err);
    }
    let Ok(text) = format!(in alloc; "{error}") else {
        return tell(&Refusal::from(Fault::Memory), names, err);
    };
    let mut folded = Vec::new(alloc);
    if write_folded(
        text.as_str(),
        width.unwrap_or(USUAL_WIDTH as usize),
        &mut folded,
    )
    .is_err()
    {
        return tell(&Refusal::from(Fault::Memory), names, err);
    }
    if !error.use_stderr() {
        let printed = match out.write_all(&folded) {
            Ok(()) => out.flush(),
            Err(error) => Err(error),
        };
        return match unless_closed(printed) {
            Ok(()) => 0,
            Err(error) => tell(&Refusal::from(error), names, err),
        };
    }
    // A write error does not change the status.
    let _ = match width {
        None => write_paragraph(text.as_str(), err),
        Some(_) if error.kind() == ErrorKind::DisplayHelpOnMissingArgumentOrSubcommand => {
            err.write_all(&folded)
        }
        Some(_) => err.write_all(text.as_bytes()),
    };
    2
}

/// Prints the first paragraph of a text as one line. Err: write error.
fn write_paragraph<E: Write>(text: &str, err: &mut E) -> io::Result<()> {
    let mut is_first = true;
    for line in text.lines() {
        if line.is_empty() {
            break;
        }
        if !is_first {
            err.write_all(b" ")?;
        }
        err.write_all(line.trim().as_bytes())?;
        is_first = false;
    }
    err.write_all(b"\n")
}

/// The most bytes of a line, without its line feed.
pub const LONGEST_LINE: usize = 65_536;

/// How a line was read.
#[derive(Clone, Copy)]
pub enum Line {
    /// It was read. It may be empty.
    Whole,
    /// It has more than `LONGEST_LINE` bytes, and was skipped.
    TooLong,
    /// There is no further line.
    End,
}

/// Reads the next line into `line`, without its line feed, which the last line may lack. Err: read error, or out of memory.
pub fn next_line<B: BufRead>(input: &mut B, line: &mut Vec<u8>) -> io::Result<Line> {
    line.clear();
    let count = Read::take(&mut *input, LONGEST_LINE as u64 + 1).read_until(b'\n', line)?;
    if count == 0 {
        return Ok(Line::End);
    }
    if line.last() == Some(&b'\n') {
        line.pop();
        return Ok(Line::Whole);
    }
    if count <= LONGEST_LINE {
        return Ok(Line::Whole);
    }
    input.skip_until(b'\n')?;
    Ok(Line::TooLong)
}

/// Returns the key of a line `get KEY`, the question that is asked most, without the grammar, which takes longer to make than
/// the answer. None: the grammar reads the line, or says what is wrong.
pub fn lone_key(alloc: Global, line: &[u8]) -> Option<Key>
    ensures { IfSome result (λ key. AsksForKey line.now key) }
{
    let word = line.strip_prefix(b"get ")?;
    if word.is_empty() {
        return None;
    }
    Key::new(hex::decode(alloc, word).ok()?)
}

/// Returns the words of a line, which stand between blanks. `''` is an empty one. Err: out of memory.
pub fn words_of(alloc: Global, line: &str) -> Result<Vec<&str>, AllocError> {
    let mut words = Vec::new(alloc);
    for word in line.split_ascii_whitespace() {
        words.push(if word == "''" { "" } else { word })?;
    }
    Ok(words)
}
