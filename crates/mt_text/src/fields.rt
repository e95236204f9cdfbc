//! Lines of named values.
ghost use Rattle.std.specs.Prelude.{◌≡◌, ◌++◌, IfSome, OnOk, true};
ghost use Rattle.std.specs.Io.KnownBytes.{Appends};
ghost use Rattle.mt_text.specs.Values.{value_text};
ghost use Rattle.mt_text.specs.Lines.{GoesOn, end_text, flag_text, format_text, name_text, shown_text, word_text};

use crate::form::Form;
use crate::json::{format_number, write_name};
use crate::value::Value;
use mt_record::{Head, Segment};
use std::fmt::Display;
use std::io::{self, Write};

/// A line of named values that is being printed: `name=value` with blanks between them, or a JSON object.
#[derive(Drop)]
pub struct Fields<'a, W> {
    out: &'a mut W,
    is_json: bool,
    is_first: bool,
}

impl<'a, W: Write> Fields<'a, W> {
    /// Begins a line.
    pub fn new(out: &'a mut W, is_json: bool) -> Fields<'a, W>
        ensures same { (result.out.ghost_name ≡ out.entry.ghost_name) × (result.out.now ≡ out.old) }
        ensures form { (result.is_json ≡ is_json) × (result.is_first ≡ true) }
    {
        Fields {
            out,
            is_json,
            is_first: true,
        }
    }

    /// Prints a number. Err: write error.
    pub fn number<N: Display + Drop>(&mut self, name: &str, number: N) -> io::Result<()>
        ensures line { GoesOn self.old self.new }
        ensures number { OnOk result (IfSome (N.output number) (λ text. (Appends (W.contents self.old.out.now) (W.contents self.new.out.now) (name_text self.old.is_json self.old.is_first name.now ++ text)))) }
    {
        self.name(name)?;
        write!(self.out, "{number}")
    }

    /// Prints a value of a report. Err: write error.
    pub fn value(&mut self, name: &str, value: Value<'_>) -> io::Result<()>
        ensures line { GoesOn self.old self.new }
        ensures value { OnOk result (Appends (W.contents self.old.out.now) (W.contents self.new.out.now) (name_text self.old.is_json self.old.is_first name.now ++ value_text self.old.is_json value.entry)) }
    {
        self.name(name)?;
        if self.is_json {
            return value.write_json(self.out);
        }
        write!(self.out, "{value}")
    }

    /// Prints the format of a log, and which segment it is. Err: write error.
    pub fn format(&mut self, head: &Head) -> io::Result<()>
        ensures line { GoesOn self.old self.new }
        ensures format { OnOk result (Appends (W.contents self.old.out.now) (W.contents self.new.out.now) (format_text self.old.is_json self.old.is_first head.now)) }
    {
        self.number("format", format_number(head.format, head.segment))?;
        if let Some(Segment { worker, number }) = head.segment {
            self.number("worker", worker)?;
            self.number("segment", number)?;
        }
        Ok(())
    }

    /// Prints a word, which needs no escapes. Err: write error.
    pub fn word<T: Display + Drop>(&mut self, name: &str, word: T) -> io::Result<()>
        ensures line { GoesOn self.old self.new }
        ensures word { OnOk result (IfSome (T.output word) (λ text. (Appends (W.contents self.old.out.now) (W.contents self.new.out.now) (name_text self.old.is_json self.old.is_first name.now ++ word_text self.old.is_json text)))) }
    {
        self.name(name)?;
        if !self.is_json {
            return write!(self.out, "{word}");
        }
        self.out.write_all(b"\"")?;
        write!(self.out, "{word}")?;
        self.out.write_all(b"\"")
    }

    /// Prints `yes` or `no`, in JSON `true` or `false`. Err: write error.
    pub fn flag(&mut self, name: &str, is_so: bool) -> io::Result<()>
        ensures line { GoesOn self.old self.new }
        ensures flag { OnOk result (Appends (W.contents self.old.out.now) (W.contents self.new.out.now) (name_text self.old.is_json self.old.is_first name.now ++ flag_text self.old.is_json is_so)) }
    {
        self.name(name)?;
        let word: &[u8] = match (self.is_json, is_so) {
            (false, true) => b"yes",
            (false, false) => b"no",
            (true, true) => b"true",
            (true, false) => b"false",
        };
        self.out.write_all(word)
    }

    /// Prints text, with escapes. Err: write error.
    pub fn text(&mut self, name: &str, text: &str) -> io::Result<()>
        ensures line { GoesOn self.old self.new }
        ensures text { OnOk result (Appends (W.contents self.old.out.now) (W.contents self.new.out.now) (name_text self.old.is_json self.old.is_first name.now ++ shown_text self.old.is_json text.now)) }
    {
        self.name(name)?;
        let form = Form {
            is_json: self.is_json,
            is_text: true,
        };
        form.write_bytes(text.as_bytes(), self.out)
    }

    /// Ends the line. Err: write error.
    pub fn end(self) -> io::Result<()>
        ensures { OnOk result (Appends (W.contents self.entry.out.now) (W.contents self.exit.0.now) (end_text self.entry.is_json)) }
    {
        let end: &[u8] = if self.is_json { b"}\n" } else { b"\n" };
        self.out.write_all(end)
    }

    /// Prints the name of a value, and what stands before and after it.
    fn name(&mut self, name: &str) -> io::Result<()>
        ensures line { GoesOn self.old self.new }
        ensures name { OnOk result (Appends (W.contents self.old.out.now) (W.contents self.new.out.now) (name_text self.old.is_json self.old.is_first name.now)) }
    {
        let is_first = self.is_first;
        self.is_first = false;
        if self.is_json {
            let sign: &[u8] = if is_first { b"{" } else { b"," };
            return write_name(sign, name.as_bytes(), self.out);
        }
        if !is_first {
            self.out.write_all(b" ")?;
        }
        self.out.write_all(name.as_bytes())?;
        self.out.write_all(b"=")
    }
}
