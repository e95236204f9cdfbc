//! A source of the bytes of a reader.
ghost use Rattle.std.specs.Prelude.{◌≡◌, ◌+◌, ◌↔◌, ◌⊎◌, [], IfSome, IfOk, IfErr, IsSome, IsTrue, Some, Ok, Err, false};
ghost use Rattle.mt_scan.specs.declared.source.SourceFault.TheVariants.{Device, TooLong};
ghost use Rattle.mt_scan.specs.Advancing.{Advances, HoldsBufferOf};
ghost use Rattle.std.specs.Io.KnownBytes.{Keeps};
ghost use Rattle.mt_scan.specs.SourceTypes.{seen_of_reader, reader_piece_size, HasTooMany, at_its_end, has_failed, slot_after};

use crate::buffer::Buffer;
use crate::slot::Slot;
use crate::source::{Source, SourceFault};
use crate::tally::Tally;
use std::io::Read;

/// How far the reader has come.
#[derive(Clone, Copy)]
pub enum Progress {
    /// It may have more bytes.
    Open,
    /// It has ended.
    Ended,
    /// It failed, or had more bytes than the limit.
    Failed(SourceFault),
}

/// A source of the bytes of a reader, at most `limit` of them. Every error of the reader becomes `Device`, and the
/// reader is not read again. If the reader has one more byte after `limit` bytes were returned, the error is `TooLong`,
/// and that byte is not returned. After the reader's end the source stays at its end, even if the reader has more bytes
/// later. Contracts know its bytes as far as they know those of the reader. It is not steady: it may fail. Its drop
/// puts the buffer back into the slot.
pub struct ReaderSource<'a, R, B = Buffer> {
    reader: R,
    /// The slot that the buffer goes back to.
    slot: &'a mut Slot<B>,
    buffer: B,
    /// The number of bytes that may still be returned.
    left: u64,
    progress: Progress,
    /// How often it failed.
    failures: Tally,
}

impl<'a, R: Read + Drop> ReaderSource<'a, R> {
    /// Creates a source of the reader's bytes, at most `limit`, that uses the slot's buffer. Returns None if the slot
    /// is empty.
    pub fn new(reader: R, limit: u64, slot: &'a mut Slot) -> Option<ReaderSource<'a, R>>
        ensures variant { IsSome result ↔ IsSome slot.old }
        ensures told { IfSome result (λ s. (seen_of_reader R.remaining s).told ≡ R.remaining reader) }
        ensures bound { IfSome result (λ s. (seen_of_reader R.remaining s).bound ≡ limit) }
        ensures steady { IfSome result (λ s. (seen_of_reader R.remaining s).steady ≡ false) }
        ensures fresh { IfSome result (λ s. (seen_of_reader R.remaining s).spent ≡ false) }
        ensures shown { IfSome result (λ s. (seen_of_reader R.remaining s).shown ≡ []) }
        ensures size { IfSome result (λ s. HoldsBufferOf (reader_piece_size s) slot.old) }
        ensures slot { IfSome result (λ s. s.slot.ghost_name ≡ slot.entry.ghost_name) }
    {
        let buffer = slot.take_out()?;
        Some(ReaderSource {
            reader,
            slot,
            buffer,
            left: limit,
            progress: Progress::Open,
            failures: Tally::new(),
        })
    }
}

impl<R: Drop, B: Drop> Drop for ReaderSource<'_, R, B> {
    fn drop(self)
        ensures { slot_after self.exit ≡ Some self.entry.buffer }
    {
        let ReaderSource {
            reader: _,
            slot,
            buffer,
            left: _,
            progress: _,
            failures: _,
        } = self;
        slot.put_back(buffer);
    }
}

impl<R: Read + Drop> Source for ReaderSource<'_, R> {
    ghost seen = { seen_of_reader R.remaining };

    fn advance(&mut self) -> Result<usize, SourceFault>
        ensures advances { Advances (seen_of_reader R.remaining self.old) (seen_of_reader R.remaining self.new) result }
        ensures bound { IfOk result (λ n. (seen_of_reader R.remaining self.new).bound + n ≡ (seen_of_reader R.remaining self.old).bound) }
        // An error of the reader consumes none of its known bytes. `TooLong` consumes one, so it is never reported as
        // `Device`.
        ensures device { result ≡ Err Device →
            Keeps (seen_of_reader R.remaining self.old).told (seen_of_reader R.remaining self.new).told }
        ensures too_long { result ≡ Err TooLong →
            HasTooMany (seen_of_reader R.remaining self.old) (seen_of_reader R.remaining self.new)
            ⊎ IsTrue (seen_of_reader R.remaining self.old).spent }
        ensures ended { result ≡ Ok 0 → IsTrue (at_its_end self.new) }
        ensures stays { IsTrue (at_its_end self.old) → result ≡ Ok 0 }
        // After the reader's end, and after a failure, the reader is left alone.
        ensures unread { IsTrue (at_its_end self.old) ⊎ IsTrue (has_failed self.old.progress) → self.new.reader ≡ self.old.reader }
        ensures size { reader_piece_size self.new ≡ reader_piece_size self.old }
        ensures slot { self.new.slot.ghost_name ≡ self.old.slot.ghost_name }
    {
        let left = self.left;
        match self.progress {
            Progress::Ended => {
                self.buffer.clear();
                return Ok(0);
            }
            Progress::Failed(fault) => return self.fail(fault),
            Progress::Open => {}
        }
        let Ok(count) = self.buffer.read_from(&mut self.reader, left.max(1)) else {
            return self.fail(SourceFault::Device);
        };
        if count == 0 {
            self.progress = Progress::Ended;
            return Ok(0);
        }
        if left == 0 {
            return self.fail(SourceFault::TooLong);
        }
        self.left = left - count as u64;
        Ok(count)
    }

    fn piece(&self) -> &[u8] {
        self.buffer.piece()
    }
}

impl<R> ReaderSource<'_, R> {
    /// Marks the source as failed with this fault, and returns the fault as an Err.
    fn fail(&mut self, fault: SourceFault) -> Result<usize, SourceFault>
        ensures fault { result ≡ Err fault }
        ensures counted { self.new.failures.count ≡ self.old.failures.count + 1 }
        ensures shown { self.new.buffer.shown ≡ [] }
        ensures failed { IsTrue (has_failed self.new.progress) }
        ensures left { self.new.left ≡ self.old.left }
        ensures reader { self.new.reader ≡ self.old.reader }
        ensures size { self.new.buffer.size ≡ self.old.buffer.size }
        ensures slot { self.new.slot.ghost_name ≡ self.old.slot.ghost_name }
    {
        self.buffer.clear();
        self.progress = Progress::Failed(fault);
        self.failures = self.failures.and_one();
        Err(fault)
    }
}
