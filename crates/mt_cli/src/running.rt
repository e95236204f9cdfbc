//! The steps of the program, from its arguments to its exit status.
ghost use Rattle.std.specs.Prelude.{◌≤◌};

use crate::caveat::Caveat;
use crate::explaining::tell;
use crate::filing::answer_file;
use crate::folding::USUAL_WIDTH;
use crate::grammar::{GREATEST_WIDTH, LEAST_WIDTH};
use crate::halt::Halt;
use crate::host::{self, Host, lock_folder};
use crate::listing::{Names, list};
use crate::request::{Command, Folder, FolderCommand};
use crate::sheet::Screen;
use crate::told::Told;
use crate::words::command;
use mt_recover::{Failure, Refusal};
use std::env::{self, Env};
use std::io::{self, IsTerminal, Read, Write};

/// Does what the arguments of the process ask and returns the exit status. Only `shell` reads the input.
pub fn run<R: Host, I: Read + IsTerminal, O: Write + IsTerminal, E: Write + IsTerminal + Send>(
    rt: &R,
    input: &mut I,
    out: &mut O,
    err: &mut E,
) -> u8
    ensures status { result ≤ 5 }
{
    let around = Surroundings {
        at_terminal: err.is_terminal(),
        prints_at_terminal: out.is_terminal(),
        columns: columns_of(rt),
        takes_colours: takes_colours(rt),
    };
    match words_of_process(rt) {
        Ok(words) => run_words(rt, &words, input, around, out, err),
        Err(error) => tell(&Refusal::of(Failure::Words, error), None, err),
    }
}

/// Where the program runs.
#[derive(Clone, Copy)]
pub struct Surroundings {
    /// Whether standard error is a terminal.
    pub at_terminal: bool,
    /// Whether standard output is one.
    pub prints_at_terminal: bool,
    /// The number of characters of a line, if the environment says it.
    pub columns: Option<u64>,
    /// Whether a terminal may be sent colours.
    pub takes_colours: bool,
}

impl Surroundings {
    /// Returns the terminal that standard output is, if it is one.
    pub fn screen(self) -> Option<Screen> {
        let screen = Screen {
            width: self.columns.unwrap_or(USUAL_WIDTH) as usize,
            has_colours: self.takes_colours,
        };
        self.prints_at_terminal.then_some(screen)
    }

    /// Returns the width of the lines of help: that of the terminal, or else the usual one.
    pub fn help_width(self) -> usize {
        match self.screen() {
            Some(screen) => screen.width,
            None => USUAL_WIDTH as usize,
        }
    }
}

/// Returns the number of characters of a line, as the environment says it: `COLUMNS`, if that is a width.
fn columns_of<R: AllocGlobal + Env>(rt: &R) -> Option<u64> {
    let columns = env::var(rt, "COLUMNS").ok()?;
    let width = columns.as_str().parse::<u64>().ok()?;
    (LEAST_WIDTH..=GREATEST_WIDTH)
        .contains(&width)
        .then_some(width)
}

/// Returns whether the environment allows colours: `NO_COLOR` is not there or is empty, and `TERM` is not `dumb`.
fn takes_colours<R: AllocGlobal + Env>(rt: &R) -> bool {
    let is_refused = match env::var(rt, "NO_COLOR") {
        Ok(word) => !word.is_empty(),
        Err(_) => false,
    };
    let is_dumb = match env::var(rt, "TERM") {
        Ok(word) => word.as_str() == "dumb",
        Err(_) => false,
    };
    !is_refused && !is_dumb
}

/// Reads the arguments of the process after the name of the program.
fn words_of_process<R: AllocGlobal + Env>(rt: &R) -> io::Result<Vec<String>> {
    Ok(env::args(rt)?.skip(1).collect(rt.alloc())?)
}

/// Does what these arguments ask and returns the exit status. The name of the program is not among them. At a terminal an
/// answer is followed by what was lost or passed over. With `--json` each line on `err` is an object, as nowhere else. If
/// the reader of `out` closes it early, a command that changes no file ends with the status of what it found by then.
pub fn run_words<R: Host, I: Read + IsTerminal, O: Write, E: Write + Send>(
    rt: &R,
    words: &[String],
    input: &mut I,
    around: Surroundings,
    out: &mut O,
    err: &mut E,
) -> u8
    ensures status { result ≤ 5 }
{
    let is_json = words.iter().any(|word| word.as_str() == "--json");
    let around = Surroundings {
        at_terminal: around.at_terminal && !is_json,
        ..around
    };
    let err = &mut Told::new(rt.alloc(), is_json, err);
    let mut asked = match command(rt, words, around, out, err) {
        Ok(asked) => asked,
        Err(status) => return status,
    };
    if around.at_terminal {
        asked.tell_at_terminal();
    }
    asked.fit(around.columns);
    let (folder, task) = match &asked {
        Command::OnFolder(folder, task) => (folder, task),
        Command::OnFile(file) => {
            return answer_file(rt, file, around.prints_at_terminal, out, err);
        }
    };
    // The lock ends with the program.
    let (_lock, names) = match lock_and_list(rt, folder, task.lock()) {
        Ok(locked) => locked,
        Err(halt) => {
            let none = Names::new(rt.alloc());
            let start = host::Run {
                rt,
                folder,
                names: &none,
            };
            return start.end(Err(halt), err);
        }
    };
    let run = host::Run {
        rt,
        folder,
        names: &names,
    };
    let outcome = match task {
        FolderCommand::Question(question) => run.answer(question, out, err),
        FolderCommand::Audit { is_json } => run.audit(*is_json, out, err),
        FolderCommand::Check(form) => run.check(*form, around.screen(), out, err),
        FolderCommand::Resume(how) => run.resume(*how, out, err),
        FolderCommand::Checkpoint(new) => run.checkpoint(new, out, err),
        FolderCommand::Forget { is_json } => run.forget(*is_json, out),
        FolderCommand::Shell(how) => match run.shell(*how, input, out, err) {
            Ok(status) => return status,
            Err(halt) => Err(halt),
        },
    };
    if is_closed(&outcome) && !task.changes_files() {
        return 0;
    }
    run.end(outcome, err)
}

/// Returns whether a command failed because the reader of its output has closed it.
fn is_closed(outcome: &Result<Option<Caveat>, Halt<'_>>) -> bool {
    match outcome {
        Ok(_) => false,
        Err(halt) => halt.is_closed(),
    }
}

/// Locks the folder, as the command asks, and returns the lock and the names of its files.
fn lock_and_list<'a, R: Host>(
    rt: &R,
    folder: &Folder<'a>,
    shared: Option<bool>,
) -> Result<(Option<R::File>, Names), Halt<'a>> {
    let lock = lock_folder(rt, folder.path, shared)?;
    let names = list(rt, folder)?;
    Ok((lock, names))
}
