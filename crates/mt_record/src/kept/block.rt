//! Byte strings in one buffer.
ghost use Rattle.std.specs.Prelude.{◌≡◌, ◌<◌, ◌≤◌, ◌++◌, [], ◌∷◌, List, ℕ, OnOk, OnErr, IfOk, length, slice_index_or};
ghost use Rattle.mt_record.specs.Steps.ByteStrings.{start_at};

use crate::encode::put::put_bytes;
use crate::kept::ends::Ends;
use mt_words::Memory;
use std::alloc::Global;
use std::marker::Model;

/// A list of byte strings, here called texts. They lie one after another in one buffer.
#[derive(Debug, Drop)]
pub(crate) struct Block {
    bytes: Vec<u8>,
    ends: Ends,
}

impl Model for Block {
    ghost use Rattle.std.specs.Prelude.{List, ℕ, length};
    ghost use Rattle.mt_record.specs.Steps.ByteStrings.{texts_from, AreEnds};

    ghost Value = { List (List ℕ) };

    ghost view = { λ t. texts_from 0 t.bytes.items t.ends };

    ghost invariant = { λ t. AreEnds 0 (length t.bytes.items) t.ends };
}

impl Block {
    /// Creates an empty list.
    pub(crate) fn new(alloc: Global) -> Block
        ensures { result ≡ [] }
    {
        Block {
            bytes: Vec::new(alloc),
            ends: Ends::new(alloc),
        }
    }

    /// Creates an empty list with room for `texts` texts of `bytes` bytes in all. Err: out of memory.
    pub(crate) fn with_capacity(alloc: Global, texts: usize, bytes: usize) -> Result<Block, Memory>
        ensures { IfOk result (λ texts. texts ≡ []) }
    {
        Ok(Block {
            bytes: Vec::with_capacity(alloc, bytes)?,
            ends: Ends::with_capacity(alloc, texts)?,
        })
    }

    /// Creates an empty list with room for as many texts, and for their bytes and a thirty-second more. Err: out of
    /// memory.
    pub(crate) fn next(&self) -> Result<Block, Memory>
        ensures { IfOk result (λ texts. texts ≡ []) }
    {
        let bytes = self.bytes.len();
        Block::with_capacity(*self.bytes.allocator(), self.len(), bytes + bytes / 32)
    }

    /// Removes all texts.
    pub(crate) fn clear(&mut self)
        ensures { self.new ≡ [] }
    {
        self.bytes.clear();
        self.ends.clear();
    }

    /// Removes the last text.
    pub(crate) fn drop_last(&mut self)
        requires { 0 < length self.old }
        ensures { (last : List ℕ) × (self.old ≡ self.new ++ last ∷ []) }
    {
        self.ends.drop_last();
        let size = start_of(&self.ends, self.ends.len());
        self.bytes.truncate(size);
    }

    /// Returns the number of texts.
    pub(crate) fn len(&self) -> usize
        ensures { result ≡ length self.now }
    {
        self.ends.len()
    }

    /// Returns the text at this place.
    pub(crate) fn get(&self, at: usize) -> &[u8]
        requires { at < length self.now }
        ensures { (d : List ℕ) → result.now ≡ slice_index_or self.now at d }
    {
        let start = start_of(&self.ends, at);
        let end = self.ends.get(at);
        &self.bytes[start..end]
    }

    /// Appends a text. Err: out of memory; nothing is appended.
    // Each record of a log passes through here when it is scanned. Without inlining, the calls alone are a thirtieth of all
    // instructions.
    #[inline(always)]
    pub(crate) fn push(&mut self, text: &[u8]) -> Result<(), Memory>
        ensures ok { OnOk result (self.new ≡ self.old ++ text.now ∷ []) }
        ensures err { OnErr result (self.new ≡ self.old) }
    {
        // A text is appended completely or not at all, so its room is reserved first.
        self.bytes.reserve(text.len())?;
        self.ends.push(self.bytes.len() + text.len())?;
        put_bytes(text, &mut self.bytes);
        Ok(())
    }

    /// Appends one text that is given as its front and its rest. Err: out of memory; nothing is appended.
    pub(crate) fn push_joined(&mut self, front: &[u8], rest: &[u8]) -> Result<(), Memory>
        ensures ok { OnOk result (self.new ≡ self.old ++ (front.now ++ rest.now) ∷ []) }
        ensures err { OnErr result (self.new ≡ self.old) }
    {
        let size = front.len() + rest.len();
        self.bytes.reserve(size)?;
        self.ends.push(self.bytes.len() + size)?;
        put_bytes(front, &mut self.bytes);
        put_bytes(rest, &mut self.bytes);
        Ok(())
    }
}

/// Returns where the text at this place starts.
fn start_of(ends: &Ends, at: usize) -> usize
    requires { at ≤ length ends.now }
    ensures { result ≡ start_at 0 ends.now at }
{
    if at == 0 {
        return 0;
    }
    ends.get(at - 1)
}
