//! The forms in which pairs are printed.
ghost use Rattle.std.specs.Prelude.{◌≡◌, ◌↔◌, IsTrue, OnOk, false};
ghost use Rattle.std.specs.Io.KnownBytes.{Appends};
ghost use Rattle.std.specs.List.{flat_map};
ghost use Rattle.mt_text.specs.Forms.{IsDump, absent_text, bytes_text, escape_text, letter_text, quote};

use crate::digits::write_hex;
use crate::escapes::is_plain;
use crate::json::write_name;
use mt_tree::{Visitor, Wanted};
use mt_words::PackedColumns;
use std::io::{self, Write};

/// The form in which pairs are printed.
#[derive(Clone, Copy, Debug)]
pub struct Form {
    /// Each pair is a JSON object, and not a line of the dump.
    pub is_json: bool,
    /// Keys and values are text with escapes, and not hexadecimal.
    pub is_text: bool,
}

impl Form {
    /// Returns whether this is the form of the dump.
    pub fn is_dump(self) -> bool
        ensures { IsTrue result ↔ IsDump self }
    {
        !self.is_json && !self.is_text
    }

    /// Returns the printer of pairs in this form, with all columns.
    pub fn printer(self) -> Printer {
        Printer {
            form: self,
            wanted: Wanted::all(),
        }
    }

    /// Prints that a key is absent. Err: write error.
    pub fn write_absent<W: Write>(self, out: &mut W) -> io::Result<()>
        ensures { self.is_json ≡ false → OnOk result (Appends (W.contents out.old) (W.contents out.new) absent_text) }
    {
        out.write_all(if self.is_json { b"null\n" } else { b"absent\n" })
    }

    /// Prints bytes, in JSON as a string. Err: write error.
    pub(crate) fn write_bytes<W: Write>(self, bytes: &[u8], out: &mut W) -> io::Result<()>
        ensures { OnOk result (Appends (W.contents out.old) (W.contents out.new) (bytes_text self bytes.now)) }
    {
        self.write_quote(out)?;
        if self.is_text {
            self.write_text(bytes, out)?;
        } else {
            write_hex(bytes, out)?;
        }
        self.write_quote(out)
    }

    /// Prints a key as `write_bytes` prints bytes, but as text with an escape for a `-` that it begins with: an argument
    /// with a first `-` is an option.
    fn write_key<W: Write>(self, key: &[u8], out: &mut W) -> io::Result<()> {
        match key {
            [b'-', rest @ ..] if self.is_text => {
                self.write_quote(out)?;
                self.write_escape(b'-', out)?;
                self.write_text(rest, out)?;
                self.write_quote(out)
            }
            _ => self.write_bytes(key, out),
        }
    }

    /// Prints what stands before and after a string in JSON.
    fn write_quote<W: Write>(self, out: &mut W) -> io::Result<()>
        ensures { OnOk result (Appends (W.contents out.old) (W.contents out.new) (quote self.is_json)) }
    {
        out.write_all(if self.is_json { b"\"" } else { b"" })
    }

    /// Prints bytes as text.
    fn write_text<W: Write>(self, bytes: &[u8], out: &mut W) -> io::Result<()>
        ensures { OnOk result (Appends (W.contents out.old) (W.contents out.new) (flat_map (letter_text self.is_json) bytes.now)) }
    {
        for byte in bytes {
            self.write_letter(*byte, out)?;
        }
        Ok(())
    }

    /// Prints a byte as it is, or its escape.
    fn write_letter<W: Write>(self, byte: u8, out: &mut W) -> io::Result<()>
        ensures { OnOk result (Appends (W.contents out.old) (W.contents out.new) (letter_text self.is_json byte)) }
    {
        if is_plain(byte) {
            return out.write_all(&[byte]);
        }
        self.write_escape(byte, out)
    }

    /// Prints the escape of a byte. In a JSON string two backslashes stand for one.
    fn write_escape<W: Write>(self, byte: u8, out: &mut W) -> io::Result<()>
        ensures { OnOk result (Appends (W.contents out.old) (W.contents out.new) (escape_text self.is_json byte)) }
    {
        out.write_all(if self.is_json { b"\\\\x" } else { b"\\x" })?;
        write_hex(&[byte], out)
    }
}

/// The visitor that prints each pair in a form, with those of its columns that are wanted.
#[derive(Drop)]
pub struct Printer {
    pub form: Form,
    pub wanted: Wanted,
}

impl Printer {
    /// Prints a pair on a line. Err: write error.
    pub fn write<W: Write>(
        &self,
        key: &[u8],
        columns: &PackedColumns,
        out: &mut W,
    ) -> io::Result<()> {
        if self.form.is_json {
            return self.write_object(key, columns, out);
        }
        self.form.write_key(key, out)?;
        out.write_all(b":")?;
        let mut rest = columns.lent();
        while let Some((number, bytes)) = rest.next() {
            if self.wanted.has(number) {
                write!(out, " {number}=")?;
                self.form.write_bytes(bytes, out)?;
            }
        }
        out.write_all(b"\n")
    }

    /// Prints a pair as a JSON object.
    fn write_object<W: Write>(
        &self,
        key: &[u8],
        columns: &PackedColumns,
        out: &mut W,
    ) -> io::Result<()> {
        write_name(b"{", b"key", out)?;
        self.form.write_key(key, out)?;
        write_name(b",", b"columns", out)?;
        out.write_all(b"{")?;
        let mut sign = "";
        let mut rest = columns.lent();
        while let Some((number, bytes)) = rest.next() {
            if self.wanted.has(number) {
                write!(out, "{sign}\"{number}\":")?;
                self.form.write_bytes(bytes, out)?;
                sign = ",";
            }
        }
        out.write_all(b"}}\n")
    }
}

impl<W: Write> Visitor<W> for Printer {
    type Error = io::Error;

    ghost shown = { λ _ _ _. Unit {0} };

    fn visit(&self, out: &mut W, key: &[u8], columns: &PackedColumns) -> io::Result<()> {
        self.write(key, columns, out)
    }

    ghost none = { λ _. record {} };

    ghost more = { λ _ _ _ _ _ _ _. record {} };
}
