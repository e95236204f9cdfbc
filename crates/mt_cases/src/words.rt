//! Reads single words of a case file.
use crate::mistake::Mistake;
use std::alloc::Global;
use std::str::FromStr;

/// The most repetitions in a word.
const MOST_TIMES: u64 = 1_048_576;

/// Reads a decimal number of this type.
pub fn number_of<T: FromStr>(word: &str) -> Result<T, Mistake>
where
    T::Err: Drop,
{
    match word.parse::<T>() {
        Ok(number) => Ok(number),
        Err(_) => Err(Mistake::NUMBER),
    }
}

/// Splits a word such as `k*1024` into the text and the number of its repetitions, which is 1 without the `*`. Err: no
/// number, or one above `MOST_TIMES`.
fn repeated(word: &str) -> Result<(&str, u64), Mistake> {
    let Some((once, times)) = word.split_once('*') else {
        return Ok((word, 1));
    };
    let times = number_of::<u64>(times)?;
    if times > MOST_TIMES {
        return Err(Mistake::NUMBER);
    }
    Ok((once, times))
}

/// Appends the bytes of a piece: hexadecimal digits or text, which may be repeated.
fn push_piece(alloc: Global, piece: &str, is_hex: bool, out: &mut Vec<u8>) -> Result<(), Mistake> {
    let (once, times) = repeated(piece)?;
    let mut bytes = Vec::from_slice(alloc, once.as_bytes())?;
    if is_hex {
        bytes = hex::decode(alloc, once.as_bytes()).map_err(|_| Mistake::DIGITS)?;
    }
    for _time in 0..times {
        out.extend_from_slice(&bytes)?;
    }
    Ok(())
}

/// Appends the bytes of words of hexadecimal digits, each of which may be repeated.
pub fn push_digits(alloc: Global, words: &[&str], out: &mut Vec<u8>) -> Result<(), Mistake> {
    for word in words {
        push_piece(alloc, word, true, out)?;
    }
    Ok(())
}

/// Appends the bytes of a word: pieces joined by `+`. Each is text, or hexadecimal digits after `0x`, and may be
/// repeated.
fn push_word(alloc: Global, word: &str, out: &mut Vec<u8>) -> Result<(), Mistake> {
    for piece in word.split('+') {
        let digits = piece.strip_prefix("0x");
        push_piece(alloc, digits.unwrap_or(piece), digits.is_some(), out)?;
    }
    Ok(())
}

/// Reads the bytes of a key or value.
pub fn bytes_of(alloc: Global, word: &str) -> Result<Vec<u8>, Mistake> {
    let mut bytes = Vec::new(alloc);
    push_word(alloc, word, &mut bytes)?;
    Ok(bytes)
}

/// Appends the line that these words make: the bytes of each, with one space between words, and a line feed.
pub fn push_line(alloc: Global, words: &[&str], text: &mut Vec<u8>) -> Result<(), Mistake> {
    for (place, word) in words.iter().enumerate() {
        if place > 0 {
            text.push(b' ')?;
        }
        push_word(alloc, word, text)?;
    }
    Ok(text.push(b'\n')?)
}

/// Reads a byte: decimal, or two hexadecimal digits after `0x`.
pub fn byte_of(alloc: Global, word: &str) -> Result<u8, Mistake> {
    if !word.starts_with("0x") {
        return number_of(word);
    }
    match bytes_of(alloc, word)?.as_slice() {
        [byte] => Ok(*byte),
        _ => Err(Mistake::DIGITS),
    }
}
