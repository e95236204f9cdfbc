//! A source of bytes in memory.
ghost use Rattle.std.specs.Prelude.{◌≡◌, ◌↔◌, [], IfSome, IsSome, IsTrue, Some};
ghost use Rattle.mt_scan.specs.Advancing.{Advances, HoldsBufferOf};
ghost use Rattle.mt_scan.specs.SourceTypes.{seen_of_memory, piece_size, GivesPiece, slot_after};

use crate::buffer::Buffer;
use crate::slot::Slot;
use crate::source::{Source, SourceFault};

/// A source of bytes in memory. Each chunk is as long as the buffer; the last one may be shorter. Contracts know its
/// bytes, and it never fails. Its drop puts the buffer back into the slot.
pub struct MemSource<'a, B = Buffer> {
    /// The bytes still to come.
    rest: &'a [u8],
    /// The slot that the buffer goes back to.
    slot: &'a mut Slot<B>,
    buffer: B,
}

impl<'a> MemSource<'a> {
    /// Creates a source of these bytes that uses the slot's buffer. Returns None, and changes nothing, if the slot is
    /// empty.
    pub fn new(bytes: &'a [u8], slot: &'a mut Slot) -> Option<MemSource<'a>>
        ensures variant { IsSome result ↔ IsSome slot.old }
        ensures told { IfSome result (λ s. (seen_of_memory s).told ≡ Some bytes.now) }
        ensures steady { IfSome result (λ s. IsTrue (seen_of_memory s).steady) }
        ensures shown { IfSome result (λ s. (seen_of_memory s).shown ≡ []) }
        ensures size { IfSome result (λ s. HoldsBufferOf (piece_size s) slot.old) }
        ensures slot { IfSome result (λ s. s.slot.ghost_name ≡ slot.entry.ghost_name) }
    {
        let buffer = slot.take_out()?;
        Some(MemSource {
            rest: bytes,
            slot,
            buffer,
        })
    }
}

impl<B: Drop> Drop for MemSource<'_, B> {
    fn drop(self)
        ensures { slot_after self.exit ≡ Some self.entry.buffer }
    {
        let MemSource {
            rest: _,
            slot,
            buffer,
        } = self;
        slot.put_back(buffer);
    }
}

impl Source for MemSource<'_> {
    ghost seen = { seen_of_memory };

    fn advance(&mut self) -> Result<usize, SourceFault>
        ensures advances { Advances (seen_of_memory self.old) (seen_of_memory self.new) result }
        ensures piece { GivesPiece (seen_of_memory self.old) (piece_size self.old) result }
        ensures size { piece_size self.new ≡ piece_size self.old }
        ensures slot { self.new.slot.ghost_name ≡ self.old.slot.ghost_name }
    {
        let count = self.buffer.fill(self.rest);
        self.rest = &self.rest[count..];
        Ok(count)
    }

    fn piece(&self) -> &[u8] {
        self.buffer.piece()
    }
}
