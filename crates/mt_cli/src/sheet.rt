//! Where lines of named values are printed. At a terminal they are folded, and a line of something that is wrong is marked.
use crate::folding::fold;
use crate::row::{Field, write_row};
use std::alloc::Global;
use std::io::{self, Write};
use std::str;

/// A terminal that lines are printed on.
#[derive(Clone, Copy)]
pub struct Screen {
    /// The number of characters of a line.
    pub width: usize,
    /// Whether it is sent colours.
    pub has_colours: bool,
}

/// The number of blanks before what goes on of a line.
const INDENT: usize = 4;

/// What a marked line begins with.
const MARK: &str = "! ";

/// What makes the text after it red.
const RED: &[u8] = b"\x1b[31m";

/// What ends that.
const PLAIN: &[u8] = b"\x1b[0m";

impl Screen {
    /// Prints a line, which may be marked. Err: write error.
    fn write_line<W: Write>(self, line: &str, is_marked: bool, out: &mut W) -> io::Result<()> {
        let is_red = is_marked && self.has_colours;
        if is_red {
            out.write_all(RED)?;
        }
        let mark = if is_marked { MARK } else { "" };
        fold(mark, line, INDENT, self.width, out)?;
        if is_red {
            out.write_all(PLAIN)?;
        }
        out.write_all(b"\n")
    }
}

/// Lines of named values that are being printed.
#[derive(Drop)]
pub struct Sheet<'o, O> {
    alloc: Global,
    is_json: bool,
    /// The terminal on which lines are folded and marked. None: each stays a line.
    screen: Option<Screen>,
    out: &'o mut O,
}

impl<'o, O: Write> Sheet<'o, O> {
    /// Begins to print lines on this output, which may be a terminal. JSON stays as it is there too.
    pub fn new(
        alloc: Global,
        is_json: bool,
        screen: Option<Screen>,
        out: &'o mut O,
    ) -> Sheet<'o, O> {
        Sheet {
            alloc,
            is_json,
            screen: if is_json { None } else { screen },
            out,
        }
    }

    /// Prints the line of something that is as it should be. Err: write error, or out of memory.
    pub fn row(&mut self, row: &[Field<'_>]) -> io::Result<()> {
        self.judged(row, true)
    }

    /// Prints the line of something that is as it should be, or is not. Err: write error, or out of memory.
    pub fn judged(&mut self, row: &[Field<'_>], is_good: bool) -> io::Result<()> {
        let Some(screen) = self.screen else {
            return write_row(row, self.is_json, self.out);
        };
        let mut line = Vec::new(self.alloc);
        write_row(row, false, &mut line)?;
        match str::from_utf8(&line) {
            Ok(text) => screen.write_line(text.trim_end(), !is_good, self.out),
            Err(_) => self.out.write_all(&line),
        }
    }
}
