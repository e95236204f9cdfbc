//! What may have happened to a damaged log.
use crate::ending::Again;
use mt_text::Shown;
use std::io::Write;

/// What may have happened to a damaged log, as its bytes show it.
#[derive(Clone, Copy)]
pub struct Hints {
    /// The number of line feeds, if there are some, and each follows a carriage return.
    feeds: Option<usize>,
    /// Many zeros in what is damaged.
    zeros: Option<Zeros>,
    /// The byte of a length that goes past the end, though records follow it.
    length: Option<usize>,
}

impl Hints {
    /// Returns the hints of a log, from the line feeds of its bytes. The rest of them, from the byte `end` on, follows its
    /// complete records, which go on there or do not.
    pub fn of(feeds: Feeds, rest: &[u8], end: usize, again: Option<Again>) -> Hints {
        let damaged = match again {
            Some(again) => rest.get(..again.at.saturating_sub(end)).unwrap_or(&[]),
            None => rest,
        };
        Hints {
            feeds: feeds.number(),
            zeros: zeros_in(damaged, end),
            length: (again.is_some() && is_too_long(rest)).then_some(end),
        }
    }

    /// Prints a line for each hint on the file of this name. A write error is passed over.
    pub fn tell<E: Write>(&self, name: &str, err: &mut E) {
        let name = Shown(name);
        if let Some(feeds) = self.feeds {
            let _ = writeln!(
                err,
                "hint: {name}: each line feed follows a carriage return ({feeds} of them): was it copied as text?"
            );
        }
        if let Some(Zeros { from, count }) = self.zeros {
            let _ = writeln!(
                err,
                "hint: {name}: {count} zeros from byte {from} on: were these pages written?"
            );
        }
        if let Some(at) = self.length {
            let _ = writeln!(
                err,
                "hint: {name}: the length at byte {at} goes past the end, but records follow it"
            );
        }
    }
}

/// The line feeds of bytes that come in pieces.
#[derive(Clone, Copy)]
pub struct Feeds {
    /// The number of those so far.
    count: usize,
    /// Whether one does not follow a carriage return.
    has_plain: bool,
    /// The last byte, or 0.
    before: u8,
}

impl Feeds {
    /// Creates the line feeds of no bytes.
    pub fn new() -> Feeds {
        Feeds {
            count: 0,
            has_plain: false,
            before: 0,
        }
    }

    /// Counts those of the next piece, unless one so far does not follow a carriage return.
    pub fn add(&mut self, piece: &[u8]) {
        for byte in piece {
            if self.has_plain {
                return;
            }
            if *byte == b'\n' {
                self.has_plain = self.before != b'\r';
                self.count = self.count.saturating_add(1);
            }
            self.before = *byte;
        }
    }

    /// Returns their number. None: there is none, or one does not follow a carriage return.
    fn number(self) -> Option<usize> {
        (self.count > 0 && !self.has_plain).then_some(self.count)
    }
}

/// Returns whether the record at the front has a length that goes past the end.
fn is_too_long(rest: &[u8]) -> bool {
    match rest.split_first_chunk::<4>() {
        Some((length, body)) => u32::from_be_bytes(*length) as usize > body.len(),
        None => false,
    }
}

/// The fewest zeros in a row that a log does not have in its records, as a rule.
pub const MANY_ZEROS: usize = 64;

/// Zeros in a row.
#[derive(Clone, Copy)]
struct Zeros {
    /// The byte where they begin.
    from: usize,
    /// Their number.
    count: usize,
}

/// Returns the longest run of zeros in the bytes, the first of which is the byte `start`, if it has at least `MANY_ZEROS`.
fn zeros_in(bytes: &[u8], start: usize) -> Option<Zeros> {
    let mut longest = Zeros { from: 0, count: 0 };
    let mut run = Zeros { from: 0, count: 0 };
    for (at, byte) in bytes.iter().enumerate() {
        if *byte != 0 {
            run.count = 0;
            continue;
        }
        if run.count == 0 {
            run.from = at.saturating_add(start);
        }
        run.count = run.count.saturating_add(1);
        if run.count > longest.count {
            longest = run;
        }
    }
    (longest.count >= MANY_ZEROS).then_some(longest)
}

/// Returns the number of zeros that end the bytes.
pub fn zeros_at_end(bytes: &[u8]) -> usize {
    bytes.iter().rev().take_while(|byte| **byte == 0).count()
}
