//! Reads input that comes in chunks. `LogFeed` and `PartFeed` share this code.
pub mod blocks;
pub mod cutter;
pub mod file_feed;
pub mod frame;
pub mod head;
pub mod items;
pub mod log_feed;
pub mod log_items;
pub mod magic;
pub mod part_feed;
pub mod part_file;
pub mod part_head;
pub mod part_items;

ghost use Rattle.std.specs.Prelude.{◌≡◌, ◌<◌, ◌≤◌, ◌+◌, min, max, ◌++◌, [], List, ℕ, Some, None, Err, length, drop, IsSome, IfOk, IfErr, OnOk};
ghost use Rattle.mt_record.specs.Feeding.{Reads, HasShown, StepsOn, HoldsAll, IsFedBy};

use crate::feed::items::Items;
use mt_words::Memory;
use std::alloc::Global;

/// What was read from the chunks so far, and the bytes that are left over.
#[derive(Drop)]
pub struct Feed<I: Items> {
    pub items: I,
    /// The beginning of an item that the next chunks complete.
    pub held: Vec<u8>,
    /// The fault that was returned, if there was one.
    pub fault: Option<I::Fault>,
}

impl<I: Items> Feed<I> {
    /// Creates a feed for these items that has read no chunk.
    pub fn new(alloc: Global, items: I) -> Feed<I>
        ensures fed { (taken : I.Taken) → HoldsAll (I.holds taken) I.is_left items [] [] →
            IsFedBy (I.holds taken) I.is_left I.shows result.items result.held.items result.fault [] }
        ensures sound { result.fault ≡ None }
    {
        Feed {
            items,
            held: Vec::new(alloc),
            fault: None,
        }
    }

    /// Reads the next chunk.
    /// Err: the fault that the bytes show, or out of memory. After an Err, each call returns the same fault and reads
    /// nothing.
    #[tactic(auto, using(crate::proofs::Feeds::fed_on))]
    pub fn feed(&mut self, piece: &[u8]) -> Result<(), I::Fault>
        ensures fed { (taken : I.Taken) (text : List ℕ) →
            IsFedBy (I.holds taken) I.is_left I.shows self.old.items self.old.held.items self.old.fault text →
            IsFedBy (I.holds taken) I.is_left I.shows self.new.items self.new.held.items self.new.fault (text ++ piece.now) }
        ensures sound { OnOk result (self.new.fault ≡ None) }
        ensures kept { IfErr result (λ fault. self.new.fault ≡ Some fault) }
        ensures again { (fault : I.Fault) → self.old.fault ≡ Some fault → result ≡ Err fault }
        ensures stays { IsSome self.old.fault → self.new ≡ self.old }
    {
        if let Some(fault) = self.fault {
            return Err(fault);
        }
        let outcome = self.read(piece);
        self.fault = outcome.err();
        outcome
    }

    /// Reads the next chunk. An item that lies completely in the chunk is read straight from it. What is left is held
    /// back.
    #[tactic(auto, using(crate::proofs::Feeds::then_read, crate::proofs::Feeds::nil_if_empty))]
    fn read(&mut self, piece: &[u8]) -> Result<(), I::Fault>
        ensures ok { I.is_left self.old.items self.old.held.items →
            OnOk result (Reads I.holds self.old.items self.new.items (self.old.held.items ++ piece.now) self.new.held.items × I.is_left self.new.items self.new.held.items) }
        ensures fault { IfErr result (λ fault. HasShown (Reads I.holds self.old.items self.new.items (self.old.held.items ++ piece.now)) (I.shows self.new.items fault)) }
    {
        let mut rest = piece;
        'held: while !self.held.is_empty() {
            if rest.is_empty() {
                return Ok(());
            }
            rest = self.read_held(rest)?;
        }
        let rest = read_whole(&mut self.items, rest)?;
        append(&mut self.held, rest)?;
        Ok(())
    }

    /// Appends bytes of the chunk to those held back, and reads the items that are then complete. Returns the rest of
    /// the chunk.
    #[tactic(auto, using(crate::proofs::Feeds::left_over, crate::proofs::Feeds::goes_on))]
    fn read_held<'a>(&mut self, piece: &'a [u8]) -> Result<&'a [u8], I::Fault>
        requires { 0 < length piece.now }
        ensures rest { IfOk result (λ rest.
            Reads I.holds self.old.items self.new.items (self.old.held.items ++ piece.now) (self.new.held.items ++ rest.now) × I.is_left self.new.items self.new.held.items) }
        ensures less { IfOk result (λ rest. length rest.now < length piece.now) }
        ensures fault { IfErr result (λ fault. HasShown (Reads I.holds self.old.items self.new.items (self.old.held.items ++ piece.now)) (I.shows self.new.items fault)) }
    {
        let wanted = self.items.bytes_wanted(&self.held).max(self.held.len() + 1);
        let rest = top_up(&mut self.held, wanted, piece)?;
        let left = read_whole(&mut self.items, &self.held)?.len();
        let read = self.held.len() - left;
        self.held.drain(..read);
        Ok(rest)
    }
}

/// Reads the complete items at the front. Returns the bytes after them, from which no further item can be read.
#[tactic(auto, using(crate::proofs::Feeds::then_read))]
fn read_whole<'a, I: Items>(items: &mut I, bytes: &'a [u8]) -> Result<&'a [u8], I::Fault>
    ensures { StepsOn I.holds I.is_left I.shows items.old items.new bytes.now result }
{
    let mut rest = bytes;
    'items: loop {
        let Some(after) = items.read_next(rest)? else {
            return Ok(rest);
        };
        rest = after;
    }
}

/// Moves bytes from the front of the chunk to `held`, until `held` has `wanted` bytes or the chunk is empty. Returns
/// the rest of the chunk.
fn top_up<'a>(held: &mut Vec<u8>, wanted: usize, piece: &'a [u8]) -> Result<&'a [u8], Memory>
    ensures joins { IfOk result (λ rest. held.new.items ++ rest.now ≡ held.old.items ++ piece.now) }
    ensures size { OnOk result (length held.new.items ≡ max (length held.old.items) (min wanted (length held.old.items + length piece.now))) }
{
    let missing = wanted.saturating_sub(held.len()).min(piece.len());
    let (front, rest) = piece.split_at(missing);
    append(held, front)?;
    Ok(rest)
}

/// Appends these bytes to `held`.
fn append(held: &mut Vec<u8>, bytes: &[u8]) -> Result<(), Memory>
    ensures { OnOk result (held.new.items ≡ held.old.items ++ bytes.now) }
{
    Ok(held.extend_from_slice(bytes)?)
}
