//! Slots: places for the buffers that sources borrow.
ghost use Rattle.std.specs.Prelude.{◌≡◌, ◌≤◌, ◌↔◌, [], All, IfOk, IfSome, IfNone, IsTrue, IsSome, Some, length};
ghost use Rattle.std.specs.Borrow.{sem};
ghost use Rattle.mt_scan.specs.declared.slot.TheConstants.{LONGEST_BUFFER};
ghost use Rattle.mt_scan.specs.Advancing.{HoldsBufferOf};
ghost use Rattle.mt_scan.specs.SourceTypes.{LendsSlots};

use crate::buffer::Buffer;
use mt_words::Memory;
use std::alloc::Global;
use std::marker::Model;

/// The greatest size of a buffer, in bytes.
pub const LONGEST_BUFFER: usize = 65_536;

/// A place for one buffer. A source takes the buffer out, and its drop puts the buffer back. Contracts see the buffer
/// if it is there.
#[derive(Debug, Drop)]
pub struct Slot<B = Buffer> {
    buffer: Option<B>,
}

impl<B> Model for Slot<B> {
    ghost use Rattle.std.specs.Prelude.{Option};

    ghost Value = { Option B };

    ghost view = { λ s. s.buffer };
}

impl<B> Slot<B> {
    /// Returns whether the buffer is in the slot.
    pub fn is_full(&self) -> bool
        ensures { IsTrue result ↔ IsSome self.now }
    {
        self.buffer.is_some()
    }
}

impl<B: Drop> Slot<B> {
    /// Puts the buffer into the slot, as the drop of each source does.
    pub(crate) fn put_back(&mut self, buffer: B)
        ensures { self.new ≡ Some buffer }
    {
        self.buffer = Some(buffer);
    }
}

impl Slot {
    /// Takes the buffer out of the slot and clears it. Returns None, and changes nothing, if the slot is empty.
    pub(crate) fn take_out(&mut self) -> Option<Buffer>
        ensures variant { IsSome result ↔ IsSome self.old }
        ensures shown { IfSome result (λ buffer. buffer.shown ≡ []) }
        ensures size { IfSome result (λ buffer. HoldsBufferOf buffer.size self.old) }
        ensures unchanged { IfNone result (self.new ≡ self.old) }
    {
        let mut buffer = self.buffer.take()?;
        buffer.clear();
        Some(buffer)
    }
}

/// Slots that are created full, for sources to borrow from.
#[derive(Debug)]
pub struct Rack {
    slots: Vec<Slot>,
}

/// Written out, not derived, for the same reason as the drop of `Columns`.
impl Drop for Rack {
    fn drop(self) {
        let Rack { slots: _ } = self;
    }
}

impl Model for Rack {
    ghost use Rattle.std.specs.Prelude.{List, Option};
    ghost use Rattle.mt_scan.specs.Advancing.{Buffered};

    ghost Value = { List (Option Buffered) };

    ghost view = { λ r. r.slots.items };
}

impl Rack {
    /// Creates `count` full slots, with buffers of `size` bytes: 1 to `LONGEST_BUFFER`. Err: out of memory.
    pub fn new(alloc: Global, count: usize, size: usize) -> Result<Rack, Memory>
        requires least { 1 ≤ size }
        requires most { size ≤ LONGEST_BUFFER }
        ensures count { IfOk result (λ rack. length rack ≡ count) }
        ensures full { IfOk result (All (HoldsBufferOf size)) }
    {
        let mut slots = Vec::with_capacity(alloc, count)?;
        for _place in 0..count {
            let buffer = Some(Buffer::new(alloc, size)?);
            slots.push(Slot { buffer })?;
        }
        Ok(Rack { slots })
    }

    /// Returns the slots, for sources to borrow from.
    pub fn slots(&mut self) -> &mut [Slot]
        ensures* lent { sem 𝓛 (LendsSlots self.entry result) }
        ensures same { result.now ≡ self.old }
    {
        self.slots.as_mut_slice()
    }

    /// Returns whether each slot has its buffer.
    pub fn all_full(&self) -> bool
        ensures { IsTrue result ↔ All IsSome self.now }
    {
        self.slots.iter().all(|slot| slot.is_full())
    }
}
