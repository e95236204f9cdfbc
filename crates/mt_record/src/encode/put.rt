//! Appends fields to bytes, in room that was reserved before. Each field is copied once.
ghost use Rattle.std.specs.Prelude.{◌<◌, ◌^◌, length};
ghost use Rattle.mt_words.specs.Limits.{magic};
ghost use Rattle.mt_record.specs.Spelling.{with_length, column_bytes, FitsColumn};
ghost use Rattle.mt_record.specs.Steps.Adding.{HasRoom, Adds};

use mt_words::{Column, Format};

/// Appends the bytes.
#[inline(always)]
pub fn put_bytes(bytes: &[u8], out: &mut Vec<u8>)
    requires { HasRoom (length bytes.now) out.old }
    ensures { Adds bytes.now out.old out.new }
{
    let Ok(()) = out.extend_from_slice(bytes) else {
        unreachable!();
    };
}

/// Appends what a file of the format begins with: these letters and the digit of the format.
pub fn put_magic(letters: &[u8], format: Format, out: &mut Vec<u8>)
    requires { HasRoom (length (magic letters.now format)) out.old }
    ensures { Adds (magic letters.now format) out.old out.new }
{
    put_bytes(letters, out);
    put_bytes(&[format.limits().digit], out);
}

/// Appends the length of the bytes, then the bytes.
pub fn put_counted(bytes: &[u8], out: &mut Vec<u8>)
    requires short { length bytes.now < 2 ^ 16 }
    requires room { HasRoom (length (with_length bytes.now)) out.old }
    ensures { Adds (with_length bytes.now) out.old out.new }
{
    let length = bytes.len() as u16;
    put_bytes(&length.to_be_bytes(), out);
    put_bytes(bytes, out);
}

/// Appends a column: its number, then its bytes with their length.
pub fn put_column(column: &Column, out: &mut Vec<u8>)
    requires fits { FitsColumn column.now }
    requires room { HasRoom (length (column_bytes column.now)) out.old }
    ensures { Adds (column_bytes column.now) out.old out.new }
{
    put_bytes(&[column.number], out);
    put_counted(&column.bytes, out);
}
