//! A list of byte strings in blocks.
ghost use Rattle.std.specs.Prelude.{◌≡◌, ◌<◌, ◌≤◌, ◌^◌, ◌++◌, [], ◌∷◌, List, ℕ, OnOk, OnErr, IfOk, length, take, slice_index_or};
ghost use Rattle.mt_words.specs.Walks.{joined};
ghost use Rattle.mt_record.specs.Steps.Blocks.{AreBlocks};
ghost use Rattle.mt_record.specs.declared.kept.byte_strings.TheConstants.{TEXTS};

use crate::kept::block::Block;
use mt_words::Memory;
use std::alloc::Global;
use std::marker::Model;
use std::mem;

/// The number of texts of a full block. A block of bodies is small enough that the allocator reuses its memory once it
/// is freed.
pub(crate) const TEXTS: usize = 512;

/// The most full blocks, so that the number of texts fits a `usize`.
pub(crate) const MOST_BLOCKS: usize = 1 << 54;

/// A list of byte strings, here called texts. They lie in blocks. Each block has `TEXTS` texts, but the last may have
/// fewer.
#[derive(Debug, Drop)]
pub struct ByteStrings {
    full: Vec<Block>,
    last: Block,
}

impl Model for ByteStrings {
    ghost use Rattle.std.specs.Prelude.{List, ℕ, ◌++◌};
    ghost use Rattle.mt_words.specs.Walks.{joined};
    ghost use Rattle.mt_record.specs.Steps.Blocks.{AreBlocks};

    ghost Value = { List (List ℕ) };

    ghost view = { λ t. joined t.full.items ++ t.last };

    ghost invariant = { λ t. AreBlocks t.full.items t.last };
}

impl ByteStrings {
    /// Creates an empty list.
    pub fn new(alloc: Global) -> ByteStrings
        ensures { result ≡ [] }
    {
        ByteStrings {
            full: Vec::new(alloc),
            last: Block::new(alloc),
        }
    }

    /// Returns an empty list with the same allocator.
    pub(crate) fn none(&self) -> ByteStrings
        ensures { result ≡ [] }
    {
        ByteStrings::new(*self.full.allocator())
    }

    /// Removes all texts.
    pub(crate) fn clear(&mut self)
        ensures { self.new ≡ [] }
    {
        self.full.clear();
        self.last.clear();
    }

    /// Removes the last text.
    pub(crate) fn drop_last(&mut self)
        requires { 0 < length self.old }
        ensures { (last : List ℕ) × (self.old ≡ self.new ++ last ∷ []) }
    {
        reopen(&mut self.full, &mut self.last);
        self.last.drop_last();
    }

    /// Returns the number of texts.
    pub fn len(&self) -> usize
        ensures { result ≡ length self.now }
    {
        self.full.len() * TEXTS + self.last.len()
    }

    /// Returns the text at this place.
    pub fn get(&self, at: usize) -> &[u8]
        requires { at < length self.now }
        ensures { (d : List ℕ) → result.now ≡ slice_index_or self.now at d }
    {
        let block = at / TEXTS;
        if block < self.full.len() {
            self.full[block].get(at % TEXTS)
        } else {
            self.last.get(at % TEXTS)
        }
    }

    /// Appends a text. Err: out of memory; nothing is appended.
    // Each record of a log passes through here when it is scanned. Without inlining, the calls alone are a thirtieth of all
    // instructions.
    #[inline(always)]
    pub fn push(&mut self, text: &[u8]) -> Result<(), Memory>
        ensures ok { OnOk result (self.new ≡ self.old ++ text.now ∷ []) }
        ensures err { OnErr result (self.new ≡ self.old) }
    {
        make_room(&mut self.full, &mut self.last)?;
        self.last.push(text)
    }

    /// Appends one text that is given as its front and its rest. Err: out of memory; nothing is appended.
    pub fn push_joined(&mut self, front: &[u8], rest: &[u8]) -> Result<(), Memory>
        ensures ok { OnOk result (self.new ≡ self.old ++ (front.now ++ rest.now) ∷ []) }
        ensures err { OnErr result (self.new ≡ self.old) }
    {
        make_room(&mut self.full, &mut self.last)?;
        self.last.push_joined(front, rest)
    }

    /// Appends these texts. They are copied only if the last block is not full. Err: out of memory; nothing is appended.
    pub(crate) fn append(&mut self, more: ByteStrings) -> Result<(), Memory>
        ensures ok { OnOk result (self.new ≡ self.old ++ more) }
        ensures err { OnErr result (self.new ≡ self.old) }
    {
        if self.last.len() % TEXTS > 0 {
            return self.copy(&more);
        }
        let ByteStrings { full, last } = more;
        append_blocks(&mut self.full, &mut self.last, full, last)
    }

    /// Appends copies of these texts. Err: out of memory; nothing is appended.
    fn copy(&mut self, more: &ByteStrings) -> Result<(), Memory>
        ensures ok { OnOk result (self.new ≡ self.old ++ more.now) }
        ensures err { OnErr result (self.new ≡ self.old) }
    {
        let count = self.len();
        for at in 0..more.len() {
            match self.push(more.get(at)) {
                Ok(()) => {}
                Err(Memory) => {
                    self.shorten(count);
                    return Err(Memory);
                }
            }
        }
        Ok(())
    }

    /// Removes texts from the end until this many are left.
    fn shorten(&mut self, count: usize)
        requires { count ≤ length self.old }
        ensures { self.new ≡ take count self.old }
    {
        'texts: while self.len() > count {
            self.drop_last();
        }
    }

    /// Returns the blocks. Err: out of memory.
    pub(crate) fn into_blocks(self) -> Result<Vec<Block>, Memory>
        ensures same { IfOk result (λ blocks. joined blocks.items ≡ self) }
        ensures few { IfOk result (λ blocks. length (joined blocks.items) < 2 ^ 64) }
    {
        let ByteStrings { full, last } = self;
        let mut blocks = full;
        blocks.push(last)?;
        Ok(blocks)
    }
}

/// Makes room for a text in the last block: begins a block if the last one is full. Err: out of memory.
#[inline(always)]
fn make_room(full: &mut Vec<Block>, last: &mut Block) -> Result<(), Memory>
    requires { AreBlocks full.old.items last.old }
    ensures same { joined full.new.items ++ last.new ≡ joined full.old.items ++ last.old }
    ensures blocks { AreBlocks full.new.items last.new }
    ensures room { OnOk result (length last.new < TEXTS) }
{
    if last.len() < TEXTS {
        return Ok(());
    }
    begin_block(full, last)
}

/// Begins a block after the last one, which is full. Err: out of memory.
fn begin_block(full: &mut Vec<Block>, last: &mut Block) -> Result<(), Memory>
    requires blocks { AreBlocks full.old.items last.old }
    requires full { length last.old ≡ TEXTS }
    ensures same { joined full.new.items ++ last.new ≡ joined full.old.items ++ last.old }
    ensures blocks { AreBlocks full.new.items last.new }
    ensures room { OnOk result (length last.new < TEXTS) }
{
    if full.len() >= MOST_BLOCKS {
        return Err(Memory);
    }
    let next = last.next()?;
    full.reserve(1)?;
    full.push_reserved(mem::replace(last, next));
    Ok(())
}

/// Appends further blocks. Err: the last block is not full, or out of memory; nothing is appended.
fn append_blocks(
    full: &mut Vec<Block>,
    last: &mut Block,
    more: Vec<Block>,
    end: Block,
) -> Result<(), Memory>
    requires blocks { AreBlocks full.old.items last.old }
    requires more { AreBlocks more.items end }
    ensures ok { OnOk result (joined full.new.items ++ last.new ≡ (joined full.old.items ++ last.old) ++ (joined more.items ++ end)) }
    ensures err { OnErr result (joined full.new.items ++ last.new ≡ joined full.old.items ++ last.old) }
    ensures blocks { AreBlocks full.new.items last.new }
{
    if full.is_empty() && last.len() == 0 {
        *full = more;
        *last = end;
        return Ok(());
    }
    if last.len() < TEXTS || full.len() + more.len() >= MOST_BLOCKS {
        return Err(Memory);
    }
    full.reserve(more.len() + 1)?;
    full.push_reserved(mem::replace(last, end));
    let mut more = more;
    full.append(&mut more)?;
    Ok(())
}

/// Makes the last full block the last one again if that is empty.
fn reopen(full: &mut Vec<Block>, last: &mut Block)
    requires blocks { AreBlocks full.old.items last.old }
    requires some { 0 < length (joined full.old.items ++ last.old) }
    ensures same { joined full.new.items ++ last.new ≡ joined full.old.items ++ last.old }
    ensures blocks { AreBlocks full.new.items last.new }
    ensures some { 0 < length last.new }
{
    if last.len() > 0 {
        return;
    }
    let Some(block) = full.pop() else {
        unreachable!();
    };
    *last = block;
}
