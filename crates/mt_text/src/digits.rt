//! Numbers in decimal, and bytes in hexadecimal.
ghost use Rattle.std.specs.Prelude.{◌≤◌, length, decimal, OnOk};
ghost use Rattle.std.specs.Io.KnownBytes.{Appends};
ghost use Rattle.hex.specs.Hex.{encode_lower};

use itoa::Buffer;
use std::io::{self, Write};

/// The number of bytes that are printed at once.
const CHUNK: usize = 64;

/// Prints bytes in lowercase hexadecimal. Err: write error.
pub fn write_hex<W: Write>(bytes: &[u8], out: &mut W) -> io::Result<()>
    ensures { OnOk result (Appends (W.contents out.old) (W.contents out.new) (encode_lower bytes.now)) }
{
    let mut rest = bytes;
    while !rest.is_empty() {
        let (chunk, after) = rest.split_at(rest.len().min(CHUNK));
        write_chunk(chunk, out)?;
        rest = after;
    }
    Ok(())
}

/// Prints at most `CHUNK` bytes in lowercase hexadecimal.
fn write_chunk<W: Write>(chunk: &[u8], out: &mut W) -> io::Result<()>
    requires { length chunk.now ≤ CHUNK }
    ensures { OnOk result (Appends (W.contents out.old) (W.contents out.new) (encode_lower chunk.now)) }
{
    let mut digits = [0; 2 * CHUNK];
    let text = &mut digits[..2 * chunk.len()];
    // Ok, since the text is twice as long as the chunk.
    let _encoded = hex::encode_to_slice(chunk, text);
    out.write_all(text)
}

/// Prints a number. Err: write error.
pub(crate) fn write_decimal<W: Write>(number: u64, out: &mut W) -> io::Result<()>
    ensures { OnOk result (Appends (W.contents out.old) (W.contents out.new) (decimal number)) }
{
    let mut buffer = Buffer::new();
    out.write_all(buffer.format(number).as_bytes())
}
