//! Bytes as text with escapes.
ghost use Rattle.std.specs.Prelude.{◌≡◌, ◌<◌, IfOk, MatchOption, None, Some, length};
ghost use Rattle.mt_text.specs.Forms.{is_plain};
ghost use Rattle.mt_text.specs.Escapes.{StandsFor, StandsForNone, front, hex_byte, named_byte};

use std::alloc::{AllocError, Global};
use std::fmt::{self, Display, Formatter, Write};

/// A name in a message: as it is, but each byte of a control character or a `\` as its escape.
#[derive(Clone, Copy, Debug)]
pub struct Shown<'a>(pub &'a str);

impl<'a> Display for Shown<'a> {
    fn fmt<W: Write>(&self, f: &mut Formatter<W>) -> fmt::Result {
        for letter in self.0.chars() {
            if !letter.is_control() && letter != '\\' {
                f.write_char(letter)?;
                continue;
            }
            let mut bytes = [0; 4];
            for byte in letter.encode_utf8(&mut bytes).as_bytes() {
                write!(f, "\\x{byte:02x}")?;
            }
        }
        Ok(())
    }
}

/// Whether a byte stands for itself in printed text: ASCII from `!` to `~`, but `"`, `:`, `=` and `\`.
pub fn is_plain(byte: u8) -> bool
    ensures { result ≡ is_plain byte }
{
    byte >= b'!' && byte <= b'~' && byte != b'"' && byte != b':' && byte != b'=' && byte != b'\\'
}

/// Returns the bytes of a text with the escapes `\n`, `\r`, `\t`, `\0`, `\\`, `\"`, `\'`, and `\x00` to `\xff`. None: it has
/// another escape. Err: out of memory.
pub fn unescape(alloc: Global, text: &str) -> Result<Option<Vec<u8>>, AllocError>
    ensures { IfOk result (λ bytes. MatchOption bytes (StandsForNone text.now) (λ bytes. StandsFor text.now bytes.items)) }
{
    let mut bytes = Vec::new(alloc);
    let mut rest = text.as_bytes();
    while !rest.is_empty() {
        let Some((byte, after)) = first_of(rest) else {
            return Ok(None);
        };
        bytes.push(byte)?;
        rest = after;
    }
    Ok(Some(bytes))
}

/// Returns the byte that a text begins with, and the rest of the text. None: the text is empty, or begins with `\` but with
/// no escape.
fn first_of(text: &[u8]) -> Option<(u8, &[u8])>
    ensures { MatchOption result (front text.now ≡ None) (λ found. (front text.now ≡ Some (found.0, found.1.now)) × (length found.1.now < length text.now)) }
{
    let (byte, rest) = text.split_first()?;
    if *byte != b'\\' {
        return Some((*byte, rest));
    }
    let (letter, rest) = rest.split_first()?;
    if *letter != b'x' {
        return Some((named(*letter)?, rest));
    }
    let (first, rest) = rest.split_first()?;
    let (second, rest) = rest.split_first()?;
    Some((byte_of(*first, *second)?, rest))
}

/// Returns the byte that this letter stands for after `\`. None: no byte.
fn named(letter: u8) -> Option<u8>
    ensures { result ≡ named_byte letter }
{
    match letter {
        b'n' => Some(b'\n'),
        b'r' => Some(b'\r'),
        b't' => Some(b'\t'),
        b'0' => Some(b'\0'),
        b'\\' | b'"' | b'\'' => Some(letter),
        _ => None,
    }
}

/// Returns the byte of two hexadecimal digits. None: one is no such digit.
fn byte_of(first: u8, second: u8) -> Option<u8>
    ensures { result ≡ hex_byte first second }
{
    let mut byte = [0];
    match hex::decode_to_slice([first, second].as_slice(), &mut byte) {
        Ok(()) => Some(byte[0]),
        Err(_) => None,
    }
}
