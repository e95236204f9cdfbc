//! Lines of named values.
ghost use Rattle.std.specs.Prelude.{All, OnOk};
ghost use Rattle.std.specs.Io.KnownBytes.{Appends};
ghost use Rattle.mt_cli.specs.Rows.{IsTold, row_text};

use mt_record::Head;
use mt_recover::Failure;
use mt_text::{Fields, Value};
use mt_words::What;
use std::io::{self, Write};

/// A value of a line, with its name.
pub type Field<'a> = (&'static str, Cell<'a>);

/// A value of a line. None: the line does not have it.
#[derive(Clone, Copy)]
pub enum Cell<'a> {
    Number(Option<u64>),
    /// A count, or numbers.
    Value(Value<'a>),
    /// A word, which needs no escapes.
    Word(&'a str),
    /// What is wrong in a log.
    What(What),
    /// A name, which may need escapes.
    Name(&'a str),
    /// The format of a log and, of a segment, its worker and number.
    Format(Option<&'a Head>),
    /// What the system said.
    Reason(Option<&'a io::Error>),
    Failure(&'a Failure<'a>),
}

/// Prints a line of named values: `name=value` with blanks between them, or a JSON object. Err: write error.
pub fn write_row<W: Write>(row: &[Field<'_>], is_json: bool, out: &mut W) -> io::Result<()>
    ensures { All IsTold row.now → OnOk result (Appends (W.contents out.old) (W.contents out.new) (row_text is_json row.now)) }
{
    let mut line = Fields::new(out, is_json);
    for (name, cell) in row {
        match cell {
            Cell::Number(number) => {
                if let Some(number) = number {
                    line.number(name, number)?
                }
            }
            Cell::Value(value) => line.value(name, *value)?,
            Cell::Word(word) => line.word(name, word)?,
            Cell::What(what) => line.word(name, *what)?,
            Cell::Name(text) => line.text(name, text)?,
            Cell::Format(head) => {
                if let Some(head) = head {
                    line.format(head)?
                }
            }
            Cell::Reason(reason) => {
                if let Some(reason) = reason {
                    line.word(name, reason)?
                }
            }
            Cell::Failure(failure) => line.word(name, failure)?,
        }
    }
    line.end()
}
