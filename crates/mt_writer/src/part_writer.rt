//! Writes a part of a checkpoint, as bytes to be appended to its file.
//!
//! ```text
//! file    header | block | block | ..
//! ready   what is to be appended: whole blocks, and before the first one the header
//! held    entry | entry | ..   in no block yet
//! ```
//!
//! A block has whole entries, of at most `SMALL` bytes or a single one. So damage of a block costs few entries.
ghost use Rattle.std.specs.Prelude.{◌≡◌, ◌≤◌, ◌+◌, ◌++◌, ◌∷◌, [], ℕ, List, Option, Some, None, length, map, take, drop, true, IfOk, IfErr, OnOk, OnErr, vec_len, vec_capacity};
ghost use Rattle.std.specs.Io.{StartsWith};
ghost use Rattle.mt_words.specs.declared.record.Change.{Change};
ghost use Rattle.mt_words.specs.Limits.{widest};
ghost use Rattle.mt_words.specs.Changes.{IsWhole, IsEntry};
ghost use Rattle.mt_words.specs.Built.{entry_of};
ghost use Rattle.mt_block.specs.declared.block.TheConstants.{MOST_BODY};
ghost use Rattle.mt_block.specs.Blocks.{IsBody, block};
ghost use Rattle.mt_record.specs.Given.{column_of, kind_of, change_of};
ghost use Rattle.mt_record.specs.Parts.{entry_spelling};
ghost use Rattle.mt_writer.specs.PartFiles.{IsPartOf, IsAdmitted, NoEntry, NoEnd, IsAdded, AreLast, AreEnded};

use crate::part_fault::PartWriterFault;
use mt_block::{PartHeader, append_block};
use mt_record::{
    Given, GivenChange, GivenKind, comes_before, encode_given_entry, encode_part_footer,
};
use mt_words::{Format, Memory};
use std::alloc::Global;
use std::marker::Model;
use std::mem;

/// The most bytes of the body of a block, unless a single entry has more.
pub const SMALL: usize = 4_096;

/// Writes a part of a checkpoint, in format 4.
#[derive(Drop)]
pub struct PartWriter {
    header: PartHeader,
    /// The mark of the file.
    mark: u32,
    /// Whether any key may come next.
    is_first: bool,
    /// The last key, unless any may come next.
    last: Vec<u8>,
    /// The number of entries.
    count: u32,
    /// The timestamp at which the checkpoint ends, once the part has ended.
    end: Option<u64>,
    /// The entries that are in no block yet.
    held: Vec<u8>,
    /// What is to be appended to the file.
    ready: Vec<u8>,
}

impl Model for PartWriter {
    ghost use Rattle.std.specs.Prelude.{◌≡◌, ◌≤◌, length};
    ghost use Rattle.mt_block.specs.declared.block.TheConstants.{MOST_BODY};
    ghost use Rattle.mt_block.specs.Parts.{part_mark};
    ghost use Rattle.mt_writer.specs.PartFiles.{Part, last_key};

    ghost Value = { Part };

    ghost view = { λ w. record {
      header = w.header;
      last = last_key w.is_first w.last.items;
      count = w.count;
      end = w.end;
      held = w.held.items;
      ready = w.ready.items;
    } };

    ghost invariant = { λ w. (w.mark ≡ part_mark w.header) × (length w.held.items ≤ MOST_BODY) };
}

impl PartWriter {
    /// Begins the part with this header. Err: out of memory.
    pub fn begin(alloc: Global, header: PartHeader) -> Result<PartWriter, Memory>
        ensures begins { IfOk result (λ w. IsPartOf w None [] []) }
        ensures header { IfOk result (λ w. w.header ≡ header) }
    {
        // These loads show the proof that the numbers fit.
        let _loaded = (
            header.salt,
            header.number,
            header.part,
            header.parts,
            header.begin,
        );
        Ok(PartWriter {
            header,
            mark: header.mark(),
            is_first: true,
            last: Vec::new(alloc),
            count: 0,
            end: None,
            held: Vec::new(alloc),
            ready: header.bytes(alloc)?,
        })
    }

    /// Begins the part with this header, whose keys are all to be above `above`, the last key of the part before it. Err: out
    /// of memory.
    pub fn begin_above(
        alloc: Global,
        header: PartHeader,
        above: &[u8],
    ) -> Result<PartWriter, Memory>
        ensures begins { IfOk result (λ w. IsPartOf w (Some above.now) [] []) }
        ensures header { IfOk result (λ w. w.header ≡ header) }
    {
        let mut writer = PartWriter::begin(alloc, header)?;
        writer.last.clear();
        writer.last.extend_from_slice(above)?;
        writer.is_first = false;
        Ok(writer)
    }

    /// Appends the entry of this key, which is above the last one. Err: nothing is changed.
    pub fn entry(
        &mut self,
        version: u64,
        key: &[u8],
        columns: &[Given<'_>],
    ) -> Result<(), PartWriterFault>
        ensures ok { (above : Option (List ℕ)) (entries : List Change) (taken : List ℕ) → IsPartOf self.old above entries taken →
            OnOk result (IsPartOf self.new above (entries ++ entry_of version key.now (map column_of columns.now) ∷ []) taken) }
        ensures accepted { OnOk result (IsAdmitted self.old (entry_of version key.now (map column_of columns.now))) }
        ensures same { self.new.header ≡ self.old.header }
        ensures err { OnErr result (self.new ≡ self.old) }
        ensures fault { IfErr result (NoEntry self.old (entry_of version key.now (map column_of columns.now))) }
    {
        let kind = GivenKind::Whole(columns);
        let given = GivenChange { version, key, kind };
        self.admit(given)?;
        self.last.reserve(key.len())?;
        hold(self.mark, given, &mut self.held, &mut self.ready)?;
        replace(key, &mut self.last);
        self.is_first = false;
        self.count += 1;
        Ok(())
    }

    /// Ends the part: its footer tells the number of entries, and the timestamp `end`, at which the checkpoint was complete.
    /// From then on no entry is taken. Err: nothing is changed.
    pub fn end(&mut self, end: u64) -> Result<(), PartWriterFault>
        ensures ok { (above : Option (List ℕ)) (entries : List Change) (taken : List ℕ) → IsPartOf self.old above entries taken →
            OnOk result (IsPartOf self.new above entries taken) }
        ensures ended { OnOk result (self.new.end ≡ Some end) }
        ensures same { self.new.header ≡ self.old.header }
        ensures err { OnErr result (self.new ≡ self.old) }
        ensures fault { IfErr result (NoEnd self.old end) }
    {
        if self.end.is_some() {
            return Err(PartWriterFault::Ended);
        }
        if end < self.header.begin {
            return Err(PartWriterFault::End);
        }
        close(self.mark, end, self.count, &mut self.held, &mut self.ready)?;
        self.end = Some(end);
        Ok(())
    }

    /// Returns what is to be appended to the file now, and goes on with `spare`, emptied.
    pub fn take(&mut self, spare: Vec<u8>) -> Vec<u8>
        ensures bytes { result.items ≡ self.old.ready }
        ensures rest { self.new ≡ record self.old { ready = [] } }
        ensures kept { (above : Option (List ℕ)) (entries : List Change) (taken : List ℕ) → IsPartOf self.old above entries taken →
            IsPartOf self.new above entries (taken ++ result.items) }
    {
        let mut spare = spare;
        spare.clear();
        mem::replace(&mut self.ready, spare)
    }

    /// Returns whether the part takes this entry now. Err: `Ended`, `Lawless`, `Full` or `Order`.
    fn admit(&self, given: GivenChange<'_>) -> Result<(), PartWriterFault>
        requires { IsWhole (kind_of given.kind) }
        ensures ok { OnOk result (IsAdmitted self.now (change_of given.entry)) }
        ensures fault { IfErr result (NoEntry self.now (change_of given.entry)) }
    {
        if self.end.is_some() {
            return Err(PartWriterFault::Ended);
        }
        if !given.fits(Format::Two) {
            return Err(PartWriterFault::Lawless);
        }
        if self.count == u32::MAX {
            return Err(PartWriterFault::Full);
        }
        if !self.is_first && !comes_before(&self.last, given.key) {
            return Err(PartWriterFault::Order);
        }
        Ok(())
    }
}

/// Appends an entry to those held. If there is too much for a small block, makes a block of those before. Err: out of
/// memory; nothing is changed.
fn hold(
    mark: u32,
    given: GivenChange<'_>,
    held: &mut Vec<u8>,
    ready: &mut Vec<u8>,
) -> Result<(), Memory>
    requires entry { IsEntry widest (change_of given) }
    requires few { length held.old.items ≤ MOST_BODY }
    ensures ok { OnOk result (IsAdded mark (entry_spelling (change_of given.entry)) held.old.items ready.old.items held.new.items ready.new.items) }
    ensures err { OnErr result ((held.new.items ≡ held.old.items) × (ready.new.items ≡ ready.old.items)) }
{
    let before = held.len();
    encode_given_entry(given, held)?;
    if before == 0 || held.len() <= SMALL {
        return Ok(());
    }
    let Ok(()) = append_block(mark, &held[..before], ready) else {
        held.truncate(before);
        return Err(Memory);
    };
    drop_first(before, held);
    Ok(())
}

/// Makes blocks of what is held and of the footer. Err: out of memory; nothing is changed.
fn close(
    mark: u32,
    end: u64,
    count: u32,
    held: &mut Vec<u8>,
    ready: &mut Vec<u8>,
) -> Result<(), Memory>
    requires { length held.old.items ≤ MOST_BODY }
    ensures ok { OnOk result (AreEnded mark end count held.old.items ready.old.items held.new.items ready.new.items) }
    ensures err { OnErr result ((held.new.items ≡ held.old.items) × (ready.new.items ≡ ready.old.items)) }
{
    let before = held.len();
    let size = ready.len();
    encode_part_footer(end, count, held)?;
    let Ok(()) = append_last(mark, before, held, ready) else {
        held.truncate(before);
        ready.truncate(size);
        return Err(Memory);
    };
    held.clear();
    Ok(())
}

/// Appends blocks of a text whose first `before` bytes are entries, and the others a footer: one block if it is small, or
/// two. Err: out of memory; a block may be appended.
fn append_last(mark: u32, before: usize, text: &[u8], ready: &mut Vec<u8>) -> Result<(), Memory>
    requires within { before ≤ length text.now }
    requires few { before ≤ MOST_BODY }
    requires footer { length text.now ≤ before + 16 }
    ensures ok { OnOk result (AreLast mark (take before text.now) (drop before text.now) ready.old.items ready.new.items) }
    ensures front { StartsWith ready.new.items ready.old.items }
{
    if text.len() <= SMALL {
        append_block(mark, text, ready)?;
        return Ok(());
    }
    let (entries, footer) = text.split_at(before);
    append_block(mark, entries, ready)?;
    append_block(mark, footer, ready)?;
    Ok(())
}

/// Replaces the bytes by those of the key, for which there is room.
fn replace(key: &[u8], last: &mut Vec<u8>)
    requires { length key.now ≤ vec_capacity last.old }
    ensures { last.new.items ≡ key.now }
{
    last.clear();
    let Ok(()) = last.extend_from_slice(key) else {
        unreachable!();
    };
}

/// Drops the first `number` bytes.
fn drop_first(number: usize, bytes: &mut Vec<u8>)
    requires { number ≤ vec_len bytes.old }
    ensures { bytes.new.items ≡ drop number bytes.old.items }
{
    bytes.drain(..number);
}
