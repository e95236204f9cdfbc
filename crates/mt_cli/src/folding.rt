//! Folds lines at blanks, so that they fit a width.
use std::io::{self, Write};

/// The width of a line if nothing gives another one, in characters.
pub const USUAL_WIDTH: u64 = 80;

/// Prints a text, with its lines folded to this width. What goes on of a line stands below its last column. Err: write error.
pub fn write_folded<W: Write>(text: &str, width: usize, out: &mut W) -> io::Result<()> {
    for line in text.lines() {
        let indent = indent_of(line);
        let (before, words) = line.split_at_checked(indent).unwrap_or(("", line));
        fold(before, words, indent, width, out)?;
        out.write_all(b"\n")?;
    }
    Ok(())
}

/// Returns the byte where the last column of a line begins, which stands behind two blanks or more. A line of one column begins
/// there behind its first blanks.
fn indent_of(line: &str) -> usize {
    let mut indent = 0;
    let mut blanks: usize = 0;
    for (at, byte) in line.as_bytes().iter().enumerate() {
        if *byte == b' ' {
            blanks = blanks.saturating_add(1);
            continue;
        }
        if blanks == at || blanks > 1 {
            indent = at;
        }
        blanks = 0;
    }
    indent
}

/// Prints a line without its end: what comes before its words, and these words. Where the next word does not fit into this width, another line
/// begins, with as many blanks as `indent`. A word that is too wide stays whole. Err: write error.
pub fn fold<W: Write>(
    before: &str,
    words: &str,
    indent: usize,
    width: usize,
    out: &mut W,
) -> io::Result<()> {
    out.write_all(before.as_bytes())?;
    let mut column = width_of(before);
    let mut is_first = true;
    for word in words.split(' ') {
        let end = width_of(word).saturating_add(column);
        if is_first {
            column = end;
        } else if end < width {
            out.write_all(b" ")?;
            column = end.saturating_add(1);
        } else {
            out.write_all(b"\n")?;
            write_blanks(indent, out)?;
            column = width_of(word).saturating_add(indent);
        }
        out.write_all(word.as_bytes())?;
        is_first = false;
    }
    Ok(())
}

/// Returns the number of characters of a text.
pub fn width_of(text: &str) -> usize {
    text.chars().count()
}

/// Prints `count` blanks. Err: write error.
pub fn write_blanks<W: Write>(count: usize, out: &mut W) -> io::Result<()> {
    for _ in 0..count {
        out.write_all(b" ")?;
    }
    Ok(())
}
