//! Answers the subcommand `shell`: recovers the store of a folder once, and answers the lines of the input.
ghost use Rattle.std.specs.Prelude.{◌≡◌, ◌≤◌, List, ℕ, IfOk, true, false};
ghost use Rattle.std.specs.Io.KnownBytes.{Appends, Keeps};
ghost use Rattle.mt_cli.specs.Answers.{IsTextOf};
ghost use Rattle.mt_cli.specs.Questions.{AsksForKey};

use crate::answering::{PRINTED_AT_ONCE, print_answer};
use crate::caveat::{Caveat, Losses};
use crate::closing::is_closed;
use crate::explaining::tell;
use crate::grammar::PROMPT;
use crate::halt::Halt;
use crate::host::{Host, Run};
use crate::listing::Names;
use crate::question::{LONGEST_LINE, Line, lone_key, next_line, question, words_of};
use crate::request::{Question, Shell, StoreQuery};
use mt_recover::{Failure, Recovered, Refusal};
use mt_text::Form;
use mt_words::Fault;
use std::io::{self, BufReader, BufWriter, IsTerminal, Read, Write};
use std::{mem, str};

impl<'a, R: Host> Run<'a, R> {
    /// Recovers the store, tells the losses if they are to be told, answers the lines of the input through a buffer, and
    /// returns the exit status. As in a query, the store is not freed.
    pub fn shell<I: Read + IsTerminal, O: Write, E: Write + Send>(
        &self,
        how: Shell,
        input: &mut I,
        out: &mut O,
        err: &mut E,
    ) -> Result<u8, Halt<'a>>
        ensures status { IfOk result (λ status. status ≤ 5) }
    {
        let recovered = self.recover(err)?;
        self.folder.tell_losses(Losses::of(recovered.report()), err);
        let session = Session {
            run: self,
            recovered: &recovered,
            how,
        };
        let mut out = BufWriter::with_capacity(self.rt.alloc(), PRINTED_AT_ONCE, out)?;
        let status = session.answer_lines(input, &mut out, err)?;
        mem::forget(recovered);
        Ok(status)
    }
}

/// Returns whether a line ends the shell.
fn ends_shell(line: &[u8]) -> bool {
    line == b"quit".as_slice() || line == b"exit".as_slice()
}

/// Why the output takes no more answers, which ends the shell.
#[derive(Clone, Copy)]
enum OutputFailed {
    /// Its reader has closed it.
    Closed,
    /// It failed, which was told.
    Told,
}

impl OutputFailed {
    /// Returns the exit status of a shell that would otherwise have this one.
    fn status(self, status: u8) -> u8
        ensures { status ≤ 5 → result ≤ 5 }
    {
        match self {
            OutputFailed::Closed => status,
            OutputFailed::Told => 3,
        }
    }
}

/// Answers lines from one recovered store, or from the files of its folder.
#[derive(Drop)]
struct Session<'a, 'r, R> {
    run: &'r Run<'a, R>,
    recovered: &'r Recovered,
    how: Shell,
}

impl<'a, 'r, R: Host> Session<'a, 'r, R> {
    /// Answers each line of the input, before it waits for the next one, and returns the exit status. It ends early if the
    /// output fails, with status 3, or if the reader of the output closes it. At a terminal it asks for each line. Err: read error,
    /// or out of memory.
    fn answer_lines<I: Read + IsTerminal, O: Write, E: Write + Send>(
        &self,
        input: &mut I,
        out: &mut O,
        err: &mut E,
    ) -> Result<u8, Halt<'static>>
        ensures { IfOk result (λ status. status ≤ 5) }
    {
        let asks = input.is_terminal();
        let mut first = 0;
        let mut text = Vec::new(self.run.rt.alloc());
        let mut lines = match BufReader::new(self.run.rt.alloc(), input) {
            Ok(lines) => lines,
            Err(error) => return Err(self.unread(error)),
        };
        for _ in 0..u64::MAX {
            // The next line may come only after the answers to those before.
            if !lines.buffer().contains(&b'\n') {
                if let Err(failed) = self.flush(out, err) {
                    return Ok(failed.status(first));
                }
            }
            if asks {
                // A write error is passed over.
                let _ = write!(err, "{PROMPT} ");
                let _ = err.flush();
            }
            let line = match next_line(&mut lines, &mut text) {
                Ok(Line::End) => break,
                Ok(_) if ends_shell(&text) => break,
                Ok(line) => line,
                Err(error) => return Err(self.unread(error)),
            };
            let status = match self.answer_and_end(line, &text, out, err) {
                Ok(status) => status,
                Err(failed) => return Ok(failed.status(first)),
            };
            if first == 0 && self.how.is_strict {
                first = status;
            }
        }
        if let Err(failed) = self.flush(out, err) {
            return Ok(failed.status(first));
        }
        if asks {
            // What prints next begins a line of its own.
            let _ = writeln!(err);
        }
        Ok(first)
    }

    /// Returns that the input cannot be read.
    fn unread(&self, error: io::Error) -> Halt<'static> {
        Halt::stuck(
            self.run.rt.alloc(),
            "read",
            "standard input",
            error,
            "give lines from a file or a pipe",
        )
    }

    /// Answers a line, and ends the answer with what was told of it, if that is wanted, and with the line of its status, if that
    /// is. Returns the status.
    fn answer_and_end<O: Write, E: Write + Send>(
        &self,
        line: Line,
        text: &[u8],
        out: &mut O,
        err: &mut E,
    ) -> Result<u8, OutputFailed>
        ensures { IfOk result (λ status. status ≤ 5) }
    {
        if !self.how.has_errors {
            let status = self.answer_line(line, text, out, err)?;
            return self.end_answer(status, out, err);
        }
        let mut told: Vec<u8> = Vec::new(self.run.rt.alloc());
        let answered = self.answer_line(line, text, out, &mut told);
        if answered.is_err() {
            // A write error is passed over.
            let _ = err.write_all(&told);
        }
        let status = answered?;
        if let Err(error) = out.write_all(&told) {
            return Err(self.fail(&Refusal::from(error), err));
        }
        self.end_answer(status, out, err)
    }

    /// Answers a line, and returns its status. A blank line has 0.
    fn answer_line<O: Write, E: Write + Send>(
        &self,
        line: Line,
        text: &[u8],
        out: &mut O,
        err: &mut E,
    ) -> Result<u8, OutputFailed>
        ensures { IfOk result (λ status. status ≤ 5) }
    {
        let is_whole = matches!(&line, Line::Whole);
        if is_whole && self.answer_get(text, out, err)? {
            return Ok(0);
        }
        // What is told on `err` follows the answers before.
        self.flush(out, err)?;
        if !is_whole {
            return Ok(self.tell_too_long(err));
        }
        let Ok(text) = str::from_utf8(text) else {
            return Ok(self.tell(&Refusal::from(Failure::Words), err));
        };
        match words_of(self.run.rt.alloc(), text) {
            Ok(words) if words.is_empty() => Ok(0),
            Ok(words) => self.answer(&words, out, err),
            Err(_) => Ok(self.tell(&Refusal::from(Fault::Memory), err)),
        }
    }

    /// Prints the pair of a key, or that it is absent, if that is all that the line asks for, and returns whether it is. Does
    /// not flush the output.
    fn answer_get<O: Write, E: Write>(
        &self,
        line: &[u8],
        out: &mut O,
        err: &mut E,
    ) -> Result<bool, OutputFailed>
        ensures asked { IfOk result (λ is_asked. is_asked ≡ true
            → (key : List ℕ) × AsksForKey line.now key
            × ((text : List ℕ) × IsTextOf key self.now.recovered.now.store text
            × Appends (O.contents out.old) (O.contents out.new) text)) }
        ensures other { IfOk result (λ is_asked. is_asked ≡ false → Keeps (O.contents out.old) (O.contents out.new)) }
    {
        let Some(key) = lone_key(self.run.rt.alloc(), line) else {
            return Ok(false);
        };
        let form = Form {
            is_json: false,
            is_text: false,
        };
        match print_answer(self.recovered, &StoreQuery::Get(key, form), out) {
            Ok(_) => Ok(true),
            Err(refusal) => Err(self.fail(&refusal, err)),
        }
    }

    /// Flushes the output.
    fn flush<O: Write, E: Write>(&self, out: &mut O, err: &mut E) -> Result<(), OutputFailed>
        ensures { Keeps (O.contents out.old) (O.contents out.new) }
    {
        match out.flush() {
            Ok(()) => Ok(()),
            Err(error) => Err(self.fail(&Refusal::from(error), err)),
        }
    }

    /// Tells that the output failed, unless its reader has closed it.
    fn fail<E: Write>(&self, refusal: &Refusal<'_>, err: &mut E) -> OutputFailed {
        if is_closed(refusal) {
            return OutputFailed::Closed;
        }
        self.tell(refusal, err);
        OutputFailed::Told
    }

    /// Answers the question of these words and returns its status.
    fn answer<O: Write, E: Write + Send>(
        &self,
        words: &[&str],
        out: &mut O,
        err: &mut E,
    ) -> Result<u8, OutputFailed>
        ensures { IfOk result (λ status. status ≤ 5) }
    {
        let question = match question(self.run.rt.alloc(), words, self.explaining(), out, err) {
            Ok(question) => question,
            // The help that the words ask for cannot be printed.
            Err(3) => return Err(OutputFailed::Told),
            Err(status) => return Ok(status),
        };
        match self.print(&question, out, err) {
            Ok(None) => Ok(0),
            Ok(Some(caveat)) => Ok(caveat.tell(err)),
            Err(refusal) => match refusal.failure {
                Failure::Output => Err(self.fail(&refusal, err)),
                _ => Ok(self.tell(&refusal, err)),
            },
        }
    }

    /// Prints the answer to a question, and flushes the output.
    fn print<O: Write, E: Write + Send>(
        &self,
        question: &Question,
        out: &mut O,
        err: &mut E,
    ) -> Result<Option<Caveat>, Refusal<'a>> {
        let caveat = match question {
            Question::Store(query) => print_answer(self.recovered, query, out)?,
            // The files are read again. How far that has come is no error.
            Question::History(how) if self.how.has_errors => {
                self.run.trace(how, out, &mut io::sink())?
            }
            Question::History(how) => self.run.trace(how, out, err)?,
        };
        out.flush()?;
        Ok(caveat)
    }

    /// Ends an answer with the line of its status, if that is wanted, and returns the status.
    fn end_answer<O: Write, E: Write>(
        &self,
        status: u8,
        out: &mut O,
        err: &mut E,
    ) -> Result<u8, OutputFailed>
        ensures { IfOk result (λ same. same ≡ status) }
    {
        if !self.how.has_status {
            return Ok(status);
        }
        match writeln!(out, "status={status}") {
            Ok(()) => Ok(status),
            Err(error) => Err(self.fail(&Refusal::from(error), err)),
        }
    }

    /// Tells a failure and returns its status.
    fn tell<E: Write>(&self, refusal: &Refusal<'_>, err: &mut E) -> u8
        ensures { result ≤ 3 }
    {
        tell(refusal, self.explaining(), err)
    }

    /// Returns the names of the files, if a failure has a second line, which explains it.
    fn explaining(&self) -> Option<&'a Names> {
        self.run.folder.is_verbose.then_some(self.run.names)
    }

    /// Tells that a line is too long, and returns its status.
    fn tell_too_long<E: Write>(&self, err: &mut E) -> u8
        ensures { result ≤ 3 }
    {
        // A write error does not change the status.
        let _ = writeln!(err, "mtrecover: line too long");
        if self.run.folder.is_verbose {
            let _ = writeln!(err, "try: write at most {LONGEST_LINE} bytes a line");
        }
        2
    }
}
