//! Where a log may be cut, as far as the lengths of its records and blocks tell.
ghost use Rattle.std.specs.Prelude.{◌≤◌, ◌<◌, length, IfSome};

use crate::body::fields::u32_at;
use crate::feed::file_feed::{FILE_HEADER_BYTES, FileKind};
use crate::feed::head::{head_bytes_wanted, is_sealed};
use crate::kept::byte_strings::TEXTS;

/// Cuts a log into stretches. Each ends where a record ends, as far as lengths tell: nothing else is checked, so what
/// it returns is a guess.
#[derive(Clone, Copy, Debug)]
pub struct Cutter {
    kind: FileKind,
}

impl Cutter {
    /// Creates a cutter of a log, from its first byte on.
    pub fn new() -> Cutter {
        Cutter {
            kind: FileKind::Untold,
        }
    }

    /// Returns the length of the next stretch, of which these are the first bytes: the header, and later as many whole
    /// records as there are; in a file of format 4 whole blocks that have whole records. Returns 0 if that is not
    /// complete.
    pub fn next(&mut self, bytes: &[u8]) -> usize
        ensures { result ≤ length bytes.now }
    {
        match self.kind {
            FileKind::Untold => self.begin(bytes),
            FileKind::Plain => whole_records(bytes),
            FileKind::Blocks => bytes.len() - behind_blocks(bytes).len(),
        }
    }

    /// Returns the length of the header, which tells the kind of the file.
    fn begin(&mut self, bytes: &[u8]) -> usize
        ensures { result ≤ length bytes.now }
    {
        let (kind, header) = if is_sealed(bytes) {
            (FileKind::Blocks, FILE_HEADER_BYTES)
        } else {
            (FileKind::Plain, head_bytes_wanted(bytes))
        };
        if bytes.len() < header {
            return 0;
        }
        self.kind = kind;
        header
    }
}

/// Returns how many bytes at the front are whole records. Kept, they fill whole blocks, unless they are fewer than one
/// has: then they are appended to others without a copy.
fn whole_records(bytes: &[u8]) -> usize
    ensures { result ≤ length bytes.now }
{
    let mut rest = bytes;
    let mut behind = bytes;
    let mut count = 0;
    'records: while let Some(after) = after_record(rest) {
        rest = after;
        count += 1;
        if count == TEXTS {
            behind = rest;
            count = 0;
        }
    }
    if behind.len() == bytes.len() {
        behind = rest;
    }
    bytes.len() - behind.len()
}

/// Returns the bytes behind the whole records at the front.
fn behind_records(bytes: &[u8]) -> &[u8] {
    let mut rest = bytes;
    'records: while let Some(after) = after_record(rest) {
        rest = after;
    }
    rest
}

/// Returns the bytes behind the record at the front. Returns None if it is not complete.
fn after_record(bytes: &[u8]) -> Option<&[u8]>
    ensures { IfSome result (λ after. length after.now < length bytes.now) }
{
    let (length, rest) = u32_at(bytes)?;
    let (_, rest) = rest.split_at_checked(length as usize)?;
    let (_, after) = rest.split_at_checked(4)?;
    Some(after)
}

/// Returns the bytes behind the whole blocks at the front that have whole records.
fn behind_blocks(bytes: &[u8]) -> &[u8]
    ensures { length result.now ≤ length bytes.now }
{
    let mut rest = bytes;
    'sealed: while let Some(after) = after_block(rest) {
        rest = after;
    }
    rest
}

/// Returns the bytes behind the block at the front. Returns None if it is not complete or does not have whole records.
fn after_block(bytes: &[u8]) -> Option<&[u8]>
    ensures { IfSome result (λ after. length after.now < length bytes.now) }
{
    let (_, rest) = bytes.split_at_checked(4)?;
    let (number, rest) = u32_at(rest)?;
    let (_, rest) = rest.split_at_checked(4)?;
    let (body, rest) = rest.split_at_checked(number as usize)?;
    let (_, after) = rest.split_at_checked(4)?;
    if !behind_records(body).is_empty() {
        return None;
    }
    Some(after)
}
