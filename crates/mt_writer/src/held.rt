//! The records that a writer holds until they are taken.
//!
//! ```text
//! file of blocks   room for a head, 12 | record | record | .. | capacity for a checksum, 4
//! other file       record | record | ..
//! ```
//!
//! So a block is made where its records stand, without an allocation.
ghost use Rattle.std.specs.Prelude.{◌≡◌, ◌≤◌, ◌<◌, ◌⊎◌, ◌++◌, [], Some, length, drop, take, MatchBool, OnOk, OnErr, IfSome, vec_len, vec_capacity};
ghost use Rattle.mt_words.specs.Changes.{IsLoggedChange, changed};
ghost use Rattle.mt_words.specs.Limits.{widest};
ghost use Rattle.mt_record.specs.Given.{change_of};
ghost use Rattle.mt_record.specs.Spelling.{spelling};
ghost use Rattle.mt_block.specs.declared.block.TheConstants.{MOST_BODY, SMALL_BODY};
ghost use Rattle.mt_block.specs.Blocks.{IsBody};
ghost use Rattle.mt_writer.specs.Framing.{framed, room_in, records_in, HasFront, HasRoomAround};

use mt_block::{SMALL_BODY, frame_of};
use mt_record::{GivenChange, encode_given, encode_record};
use mt_words::{Memory, Record};
use std::marker::Model;
use std::mem;

/// The number of bytes of the head of a block.
const HEAD_BYTES: usize = 12;

/// The number of bytes of the checksum after the body of a block.
const CHECK_BYTES: usize = 4;

/// The records that are not taken.
#[derive(Drop)]
pub(crate) struct Held {
    /// The mark of the file, if it has blocks.
    mark: Option<u32>,
    bytes: Vec<u8>,
}

impl Model for Held {
    ghost use Rattle.mt_writer.specs.Framing.{Buffer, records_in, HasRoomAround};

    ghost Value = { Buffer };

    ghost view = { λ h. record { mark = h.mark; records = records_in h.mark h.bytes.items } };

    ghost invariant = { λ h. HasRoomAround h.mark h.bytes };
}

impl Held {
    /// Holds no record. `spare` is emptied, and its memory is used.
    pub fn new(mark: Option<u32>, mut spare: Vec<u8>) -> Held
        ensures { result ≡ record { mark = mark; records = [] } }
    {
        spare.clear();
        Held { mark, bytes: spare }
    }

    /// Returns how many bytes the records have.
    pub fn len(&self) -> usize
        ensures { result ≡ length self.now.records }
    {
        match self.mark {
            None => self.bytes.len(),
            Some(_) => self.bytes.len().saturating_sub(HEAD_BYTES),
        }
    }

    /// Appends the record of this change at this timestamp. Err: out of memory; nothing is appended.
    pub fn append_change(&mut self, time: u64, given: GivenChange<'_>) -> Result<(), Memory>
        requires { IsLoggedChange widest (change_of given) }
        ensures ok { OnOk result (self.new ≡ record self.old { records = self.old.records ++ spelling (changed time (change_of given.entry)) }) }
        ensures err { OnErr result (self.new ≡ self.old) }
    {
        make_room(self.mark, &mut self.bytes)?;
        let before = self.bytes.len();
        encode_given(time, given, &mut self.bytes)?;
        keep_room(self.mark, before, &mut self.bytes)
    }

    /// Appends the record. Err: out of memory; nothing is appended.
    pub fn append(&mut self, entry: &Record) -> Result<(), Memory>
        ensures ok { OnOk result (self.new ≡ record self.old { records = self.old.records ++ spelling entry.now }) }
        ensures err { OnErr result (self.new ≡ self.old) }
    {
        make_room(self.mark, &mut self.bytes)?;
        let before = self.bytes.len();
        encode_record(entry, &mut self.bytes)?;
        keep_room(self.mark, before, &mut self.bytes)
    }

    /// Keeps the record behind the first `before` bytes if no other one is held, or if a small block has room for all of them.
    /// Otherwise drops it. Returns whether the record stays.
    pub fn stays_small(&mut self, before: usize) -> bool
        requires { before ≤ length self.old.records }
        ensures { MatchBool result ((self.new ≡ self.old) × ((before ≡ 0) ⊎ (length self.old.records ≤ SMALL_BODY)))
            ((self.new ≡ record self.old { records = take before self.old.records }) × ((0 < before) × (SMALL_BODY < length self.old.records))) }
    {
        if before == 0 || self.len() <= SMALL_BODY as usize {
            return true;
        }
        self.bytes.truncate(room_in(self.mark) + before);
        false
    }

    /// Returns what is to be appended to the file, and goes on with `spare`, emptied.
    pub fn take(&mut self, spare: Vec<u8>) -> Vec<u8>
        requires { length self.old.records ≤ MOST_BODY }
        ensures bytes { result.items ≡ framed self.old.mark self.old.records }
        ensures body { IfSome self.old.mark (λ mark. IsBody self.old.records) }
        ensures rest { self.new ≡ record self.old { records = [] } }
    {
        let mut spare = spare;
        spare.clear();
        let bytes = mem::replace(&mut self.bytes, spare);
        match self.mark {
            None => bytes,
            Some(mark) => seal(mark, bytes),
        }
    }
}

/// Returns how many bytes stand before the records.
fn room_in(mark: Option<u32>) -> usize
    ensures value { result ≡ room_in mark }
    ensures few { result ≤ 12 }
{
    match mark {
        None => 0,
        Some(_) => HEAD_BYTES,
    }
}

/// Makes room for a head before the first record, if the file has blocks. Err: out of memory.
fn make_room(mark: Option<u32>, bytes: &mut Vec<u8>) -> Result<(), Memory>
    requires { HasRoomAround mark bytes.old }
    ensures front { OnOk result (HasFront mark (vec_len bytes.new) bytes.new) }
    ensures around { HasRoomAround mark bytes.new }
    ensures same { records_in mark bytes.new.items ≡ records_in mark bytes.old.items }
{
    if mark.is_none() || !bytes.is_empty() {
        return Ok(());
    }
    bytes.reserve(HEAD_BYTES + CHECK_BYTES)?;
    let Ok(()) = bytes.extend_from_slice(&[0; HEAD_BYTES]) else {
        unreachable!();
    };
    Ok(())
}

/// Keeps room for a checksum after a record that follows the first `before` bytes, if the file has blocks. Err: out of
/// memory; the record is gone.
fn keep_room(mark: Option<u32>, before: usize, bytes: &mut Vec<u8>) -> Result<(), Memory>
    requires within { before ≤ vec_len bytes.old }
    requires front { HasFront mark before bytes.old }
    ensures ok { OnOk result (bytes.new.items ≡ bytes.old.items) }
    ensures err { OnErr result (bytes.new.items ≡ take before bytes.old.items) }
    ensures around { HasRoomAround mark bytes.new }
{
    if mark.is_some() && bytes.reserve(CHECK_BYTES).is_err() {
        bytes.truncate(before);
        return Err(Memory);
    }
    Ok(())
}

/// Makes a block of the records in the buffer, or empties it if there is none.
fn seal(mark: u32, mut bytes: Vec<u8>) -> Vec<u8>
    requires room { HasRoomAround (Some mark) bytes }
    requires few { length (drop 12 bytes.items) ≤ MOST_BODY }
    ensures block { result.items ≡ framed (Some mark) (drop 12 bytes.items) }
    ensures body { IsBody (drop 12 bytes.items) }
{
    let frame = frame_of(mark, after_room(&bytes));
    if bytes.len() <= HEAD_BYTES {
        bytes.clear();
        return bytes;
    }
    put_head(&frame.head, &mut bytes);
    let Ok(()) = bytes.extend_from_slice(&frame.check) else {
        unreachable!();
    };
    bytes
}

/// Returns the records in a buffer, which has room for a head before them.
fn after_room(bytes: &[u8]) -> &[u8]
    ensures { result.now ≡ drop 12 bytes.now }
{
    bytes.get(HEAD_BYTES..).unwrap_or(&[])
}

/// Writes the head into the room for it.
fn put_head(head: &[u8; 12], bytes: &mut [u8])
    requires { 12 ≤ length bytes.old }
    ensures head { take 12 bytes.new ≡ head.now }
    ensures rest { drop 12 bytes.new ≡ drop 12 bytes.old }
{
    bytes[..HEAD_BYTES].copy_from_slice(head);
}
