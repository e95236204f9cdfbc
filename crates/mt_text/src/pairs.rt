//! The line of a pair.
ghost use Rattle.std.specs.Prelude.{OnOk};
ghost use Rattle.std.specs.Io.KnownBytes.{Appends};
ghost use Rattle.mt_text.specs.Pairs.{dump_text, pair_text, column_text, dump_both};
ghost use Rattle.std.proofs.KnownBytes.{Appends-nil};

use crate::digits::{write_decimal, write_hex};
use mt_tree::Visitor;
use mt_words::PackedColumns;
use std::io::{self, Write};

/// The visitor that prints the line of each pair, as `write_pair` does.
#[derive(Clone, Copy, Debug)]
pub struct Lines;

impl<W: Write> Visitor<W> for Lines {
    type Error = io::Error;

    ghost shown = { λ old new pairs. Appends (W.contents old) (W.contents new) (dump_text pairs) };

    fn visit(&self, out: &mut W, key: &[u8], columns: &PackedColumns) -> io::Result<()> {
        write_pair(key, columns, out)
    }

    ghost none = { λ out. Appends-nil (W.contents out) };

    ghost more = { λ a b c v w. dump_both (W.contents a) (W.contents b) (W.contents c) v w };
}

/// Prints the line of a pair: the key in lowercase hexadecimal, a colon, and for each column a space, its number, `=`
/// and its bytes in lowercase hexadecimal. Err: write error.
pub fn write_pair<W: Write>(key: &[u8], columns: &PackedColumns, out: &mut W) -> io::Result<()>
    ensures { OnOk result (Appends (W.contents out.old) (W.contents out.new) (pair_text (key.now, columns.now))) }
{
    write_hex(key, out)?;
    out.write_all(b":")?;
    let mut rest = columns.lent();
    while let Some((number, bytes)) = rest.next() {
        write_column(number, bytes, out)?;
    }
    out.write_all(b"\n")
}

/// Prints a column of a key.
fn write_column<W: Write>(number: u8, bytes: &[u8], out: &mut W) -> io::Result<()>
    ensures { OnOk result (Appends (W.contents out.old) (W.contents out.new) (column_text (number, bytes.now))) }
{
    out.write_all(b" ")?;
    write_decimal(u64::from(number), out)?;
    out.write_all(b"=")?;
    write_hex(bytes, out)
}
