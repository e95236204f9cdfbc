//! Writes the entries and the footer of a part to a writer.
ghost use Rattle.std.specs.Prelude.{◌≡◌, ◌<◌, ◌^◌, ℕ, length, OnOk};
ghost use Rattle.std.specs.Io.KnownBytes.{Appends};
ghost use Rattle.mt_words.specs.Limits.{widest};
ghost use Rattle.mt_words.specs.Words.{IsKey};
ghost use Rattle.mt_words.specs.Built.{entry_of};
ghost use Rattle.mt_record.specs.Parts.{entry_spelling, footer_bytes};
ghost use Rattle.mt_record.specs.Spelling.{change_bytes};

use byteorder::{BigEndian, WriteBytesExt};
use mt_words::PackedColumns;
use std::io::{self, Write};

/// Writes the footer of a part with `count` entries. Err: write error.
pub fn write_footer<W: Write>(end: u64, count: u32, out: &mut W) -> io::Result<()>
    ensures { OnOk result (Appends (W.contents out.old) (W.contents out.new) (footer_bytes end count)) }
{
    out.write_u32::<BigEndian>(0)?;
    out.write_u64::<BigEndian>(end)?;
    out.write_u32::<BigEndian>(count)
}

/// Returns the number of bytes of the fields of this pair's entry, whatever its version. Its frame has eight more.
pub fn entry_length(key: &[u8], columns: &PackedColumns) -> usize
    requires { IsKey widest key.now }
    ensures value { (version : ℕ) → result ≡ length (change_bytes (entry_of version key.now columns.now)) }
    ensures short { result < 2 ^ 26 }
{
    10 + key.len() + columns.as_bytes().len()
}

/// Writes the entry of a pair, of this version. Err: write error.
pub fn write_entry<W: Write>(
    version: u64,
    key: &[u8],
    columns: &PackedColumns,
    out: &mut W,
) -> io::Result<()>
    requires { IsKey widest key.now }
    ensures { OnOk result
        (Appends (W.contents out.old) (W.contents out.new) (entry_spelling (entry_of version key.now columns.now))) }
{
    let length = entry_length(key, columns) as u32;
    out.write_u32::<BigEndian>(length)?;
    write_fields(version, key, columns, out)?;
    out.write_u32::<BigEndian>(length)
}

/// Writes the fields of an entry.
fn write_fields<W: Write>(
    version: u64,
    key: &[u8],
    columns: &PackedColumns,
    out: &mut W,
) -> io::Result<()>
    requires { IsKey widest key.now }
    ensures { OnOk result
        (Appends (W.contents out.old) (W.contents out.new) (change_bytes (entry_of version key.now columns.now))) }
{
    out.write_u64::<BigEndian>(version)?;
    out.write_u16::<BigEndian>(key.len() as u16)?;
    out.write_all(key)?;
    out.write_all(columns.as_bytes())
}
