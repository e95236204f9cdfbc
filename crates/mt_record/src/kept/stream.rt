//! Updates as texts in buffers, which are read from the first to the last.
//!
//!     text     the number of bytes after this number, 4 bytes | origin | body
ghost use Rattle.std.specs.Prelude.{◌≡◌, ◌≤◌, ◌<◌, ◌+◌, ◌^◌, ◌++◌, [], ◌∷◌, IfOk, OnOk, OnErr, length, map, take, drop};
ghost use Rattle.byteorder.specs.Endian.{big_number};
ghost use Rattle.mt_words.specs.Walks.{joined};
ghost use Rattle.mt_record.specs.Decoding.{IsChangeBody, update_in};
ghost use Rattle.mt_record.specs.Steps.Texts.{IsUpdateText, update_in_text};
ghost use Rattle.mt_record.specs.Steps.Streams.{texts_in, AreUpdateTexts, IsCountBefore};

use crate::encode::put::put_bytes;
use crate::kept::text::{Text, long, short};
use byteorder::{BigEndian, ByteOrder};
use mt_words::{Memory, Origin};
use std::alloc::Global;
use std::marker::Model;
use std::mem;

/// The number of bytes before a text: its length.
const BEFORE: usize = 4;

/// The number of bytes of a block. It is small enough that the allocator reuses its memory once it is freed.
const BLOCK: usize = 1 << 14;

/// The most texts of all blocks but the last, so that the number of texts fits a `usize`.
const MOST: usize = 1 << 63;

/// Texts, one after another in one buffer, each after its length.
#[derive(Drop)]
struct Block {
    bytes: Vec<u8>,
    texts: usize,
}

impl Model for Block {
    ghost use Rattle.std.specs.Prelude.{List, map};
    ghost use Rattle.mt_words.specs.declared.update.Update.{Update};
    ghost use Rattle.mt_record.specs.Steps.Texts.{update_in_text};
    ghost use Rattle.mt_record.specs.Steps.Streams.{texts_in, AreUpdateTexts};

    ghost Value = { List Update };

    ghost view = { λ b. map update_in_text (texts_in b.texts b.bytes.items) };

    ghost invariant = { λ b. AreUpdateTexts b.texts b.bytes.items };
}

impl Block {
    /// Creates an empty block with room for this many bytes. Err: out of memory.
    fn with_capacity(alloc: Global, bytes: usize) -> Result<Block, Memory>
        ensures { IfOk result (λ block. block ≡ []) }
    {
        Ok(Block {
            bytes: Vec::with_capacity(alloc, bytes)?,
            texts: 0,
        })
    }

    /// Returns the number of texts.
    fn len(&self) -> usize
        ensures value { result ≡ length self.now }
        ensures few { length self.now < 2 ^ 62 }
    {
        self.texts
    }

    /// Returns how many more bytes the block has room for.
    #[inline(always)]
    fn room(&self) -> usize {
        self.bytes.capacity() - self.bytes.len()
    }

    /// Appends a text that is given as its origin and its body. Err: out of memory; nothing is appended.
    #[inline(always)]
    fn push(&mut self, origin: &[u8], body: &[u8]) -> Result<(), Memory>
        requires text { IsUpdateText (origin.now ++ body.now) }
        requires short { length origin.now + length body.now < 2 ^ 32 }
        ensures ok { OnOk result (self.new ≡ self.old ++ update_in_text (origin.now ++ body.now) ∷ []) }
        ensures err { OnErr result (self.new ≡ self.old) }
    {
        let size = origin.len() + body.len();
        self.bytes.reserve(BEFORE + size)?;
        put_bytes(&(size as u32).to_be_bytes(), &mut self.bytes);
        put_bytes(origin, &mut self.bytes);
        put_bytes(body, &mut self.bytes);
        self.texts += 1;
        Ok(())
    }

    /// Appends the texts of the updates to others. Err: out of memory.
    fn add_to<'a>(&'a self, texts: &mut Vec<Text<'a>>) -> Result<(), Memory>
        ensures { OnOk result (texts.new.items ≡ texts.old.items ++ self.now) }
    {
        add_texts(&self.bytes, self.texts, texts)
    }
}

/// A list of updates, each as its text. It lies in blocks. An update is appended to the last one, whose fields stand
/// first: they are all that is read then.
#[derive(Drop)]
pub struct Stream {
    open: Block,
    full: Vec<Block>,
    /// The number of texts of the full blocks.
    before: usize,
}

impl Model for Stream {
    ghost use Rattle.std.specs.Prelude.{List, ◌++◌};
    ghost use Rattle.mt_words.specs.declared.update.Update.{Update};
    ghost use Rattle.mt_words.specs.Walks.{joined};
    ghost use Rattle.mt_record.specs.Steps.Streams.{IsCountBefore};

    ghost Value = { List Update };

    ghost view = { λ s. joined s.full.items ++ s.open };

    ghost invariant = { λ s. IsCountBefore s.full.items s.before };
}

impl Stream {
    /// Creates an empty list. Its first block has room for `bytes` bytes, but no more than other blocks.
    /// Err: out of memory.
    pub fn with_capacity(alloc: Global, bytes: usize) -> Result<Stream, Memory>
        ensures { IfOk result (λ stream. stream ≡ []) }
    {
        Ok(Stream {
            open: Block::with_capacity(alloc, bytes.min(BLOCK))?,
            full: Vec::new(alloc),
            before: 0,
        })
    }

    /// Returns the number of updates.
    pub fn len(&self) -> usize
        ensures { result ≡ length self.now }
    {
        self.before + self.open.len()
    }

    /// Appends the texts of the updates to others. Err: out of memory.
    pub fn add_to<'a>(&'a self, texts: &mut Vec<Text<'a>>) -> Result<(), Memory>
        ensures { OnOk result (texts.new.items ≡ texts.old.items ++ self.now) }
    {
        for block in &self.full {
            block.add_to(texts)?;
        }
        self.open.add_to(texts)
    }

    /// Appends the update with this origin and this body. Err: out of memory; nothing is appended.
    #[inline(always)]
    pub fn push(&mut self, origin: Origin, body: &[u8]) -> Result<(), Memory>
        requires { IsChangeBody body.now }
        ensures ok { OnOk result (self.new ≡ self.old ++ update_in origin body.now ∷ []) }
        ensures err { OnErr result (self.new ≡ self.old) }
    {
        match origin {
            Origin::Checkpoint => self.push_text(&[0], body),
            Origin::Log { log, record } => {
                if log > usize::from(u16::MAX) || record > u64::from(u32::MAX) {
                    return self.push_text(&long(log as u64, record), body);
                }
                self.push_text(&short(log as u16, record as u32), body)
            }
        }
    }

    /// Appends a text that is given as its origin and its body. Err: out of memory; nothing is appended.
    #[inline(always)]
    fn push_text(&mut self, origin: &[u8], body: &[u8]) -> Result<(), Memory>
        requires text { IsUpdateText (origin.now ++ body.now) }
        requires short { length origin.now + length body.now < 2 ^ 32 }
        ensures ok { OnOk result (self.new ≡ self.old ++ update_in_text (origin.now ++ body.now) ∷ []) }
        ensures err { OnErr result (self.new ≡ self.old) }
    {
        let size = BEFORE + origin.len() + body.len();
        if self.open.room() < size {
            begin_block(&mut self.full, &mut self.open, &mut self.before, size)?;
        }
        self.open.push(origin, body)
    }
}

/// Begins a block with room for this many bytes at least. Err: out of memory.
fn begin_block(
    full: &mut Vec<Block>,
    block: &mut Block,
    before: &mut usize,
    size: usize,
) -> Result<(), Memory>
    requires { IsCountBefore full.old.items before.old }
    ensures same { joined full.new.items ++ block.new ≡ joined full.old.items ++ block.old }
    ensures before { IsCountBefore full.new.items before.new }
{
    let count = *before + block.len();
    if count > MOST {
        return Err(Memory);
    }
    let next = Block::with_capacity(*full.allocator(), size.max(BLOCK))?;
    full.reserve(1)?;
    full.push_reserved(mem::replace(block, next));
    *before = count;
    Ok(())
}

/// Appends the first texts of these bytes, this many, to others. Err: out of memory.
fn add_texts<'a>(bytes: &'a [u8], count: usize, texts: &mut Vec<Text<'a>>) -> Result<(), Memory>
    requires { AreUpdateTexts count bytes.now }
    ensures { OnOk result (texts.new.items ≡ texts.old.items ++ map update_in_text (texts_in count bytes.now)) }
{
    let mut rest = bytes;
    for _ in 0..count {
        let (text, after) = first_text(rest);
        texts.push(Text::of_text(text))?;
        rest = after;
    }
    Ok(())
}

/// Returns the first text of these bytes, and the bytes after it.
fn first_text(bytes: &[u8]) -> (&[u8], &[u8])
    requires { 4 + big_number 4 bytes.now ≤ length bytes.now }
    ensures text { result.0.now ≡ take (big_number 4 bytes.now) (drop 4 bytes.now) }
    ensures rest { result.1.now ≡ drop (4 + big_number 4 bytes.now) bytes.now }
{
    let size = BigEndian::read_u32(bytes) as usize;
    bytes[BEFORE..].split_at(size)
}
