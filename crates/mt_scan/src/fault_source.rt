//! A source of bytes in memory that fails.
ghost use Rattle.std.specs.Prelude.{◌≡◌, ◌+◌, ◌-◌, ◌≤◌, ◌<◌, ◌↔◌, [], IfSome, IsSome, Some, Err, false};
ghost use Rattle.mt_scan.specs.declared.source.SourceFault.TheVariants.{Device};
ghost use Rattle.mt_scan.specs.Advancing.{Advances, HoldsBufferOf};
ghost use Rattle.mt_scan.specs.SourceTypes.{seen_of_fault, calls_left, fault_piece_size, GivesPiece, slot_after};

use crate::buffer::Buffer;
use crate::slot::Slot;
use crate::source::{Source, SourceFault};
use crate::tally::Tally;

/// A source that returns bytes in memory as a `MemSource` does, until one `advance` fails with `Device`. All later ones
/// fail too. Contracts know its bytes. It is not steady: it may fail. Its drop puts the buffer back into the slot.
pub struct FaultSource<'a, B = Buffer> {
    /// The bytes still to come.
    rest: &'a [u8],
    /// The slot that the buffer goes back to.
    slot: &'a mut Slot<B>,
    buffer: B,
    /// The number of calls that will still succeed.
    left: u64,
    /// How often it failed.
    failures: Tally,
}

impl<'a> FaultSource<'a> {
    /// Creates a source of these bytes that uses the slot's buffer. Its k-th `advance`, counted from 1, and all later
    /// ones fail. Returns None, and changes nothing, if the slot is empty.
    pub fn new(bytes: &'a [u8], slot: &'a mut Slot, k: u64) -> Option<FaultSource<'a>>
        requires { 1 ≤ k }
        ensures variant { IsSome result ↔ IsSome slot.old }
        ensures told { IfSome result (λ s. (seen_of_fault s).told ≡ Some bytes.now) }
        ensures steady { IfSome result (λ s. (seen_of_fault s).steady ≡ false) }
        ensures shown { IfSome result (λ s. (seen_of_fault s).shown ≡ []) }
        ensures calls { IfSome result (λ s. calls_left s + 1 ≡ k) }
        ensures size { IfSome result (λ s. HoldsBufferOf (fault_piece_size s) slot.old) }
        ensures slot { IfSome result (λ s. s.slot.ghost_name ≡ slot.entry.ghost_name) }
    {
        let buffer = slot.take_out()?;
        Some(FaultSource {
            rest: bytes,
            slot,
            buffer,
            left: k - 1,
            failures: Tally::new(),
        })
    }
}

impl<B: Drop> Drop for FaultSource<'_, B> {
    fn drop(self)
        ensures { slot_after self.exit ≡ Some self.entry.buffer }
    {
        let FaultSource {
            rest: _,
            slot,
            buffer,
            left: _,
            failures: _,
        } = self;
        slot.put_back(buffer);
    }
}

impl Source for FaultSource<'_> {
    ghost seen = { seen_of_fault };

    fn advance(&mut self) -> Result<usize, SourceFault>
        ensures advances { Advances (seen_of_fault self.old) (seen_of_fault self.new) result }
        ensures fails { calls_left self.old ≡ 0 → result ≡ Err Device }
        ensures piece { 0 < calls_left self.old →
            GivesPiece (seen_of_fault self.old) (fault_piece_size self.old) result }
        ensures calls { calls_left self.new ≡ calls_left self.old - 1 }
        ensures size { fault_piece_size self.new ≡ fault_piece_size self.old }
        ensures slot { self.new.slot.ghost_name ≡ self.old.slot.ghost_name }
    {
        if self.left == 0 {
            self.buffer.clear();
            self.failures = self.failures.and_one();
            return Err(SourceFault::Device);
        }
        self.left -= 1;
        let count = self.buffer.fill(self.rest);
        self.rest = &self.rest[count..];
        Ok(count)
    }

    fn piece(&self) -> &[u8] {
        self.buffer.piece()
    }
}
