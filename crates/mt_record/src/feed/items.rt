//! The items of a log or a part, which follow one another.
ghost use Rattle.std.specs.Prelude.{List, ℕ};
ghost use Rattle.mt_words.specs.declared.fault.Memory.{Memory as MemoryValue};
ghost use Rattle.mt_record.specs.Feeding.{Steps};

use mt_words::Memory;

/// The result of one step: the bytes after the item that was read, or None if no complete item is at the front.
pub type Step<'a, Fault> = Result<Option<&'a [u8]>, Fault>;

/// What was read so far of input that is a sequence of items, of any kinds. The items of a log are its header and its
/// records. The items of a part are its header, its entries and its footer.
pub trait Items {
    /// What is wrong with the input, or out of memory.
    type Fault: Copy + From<Memory>;

    /// What was read and then taken out.
    ghost Taken: { Type 0 };

    /// These bytes encode what was taken and what is still here.
    ghost holds: { Taken → Self → List ℕ → Type 0 };

    /// Nothing more can be read from these bytes, and they show no fault.
    ghost is_left: { Self → List ℕ → Type 0 };

    /// After what was read, these bytes show the fault, however they go on.
    ghost shows: { Self → Self.Fault → List ℕ → Type 0 };

    /// Reads the item at the front. Err: the fault that the bytes show, or out of memory.
    fn read_next<'a>(&mut self, bytes: &'a [u8]) -> Step<'a, Self::Fault>
        ensures { Steps holds is_left shows self.old self.new bytes.now result };

    /// Returns how many bytes the unfinished item in `held` asks for. The number only says how many bytes to collect
    /// before the next try, so any number is right.
    fn bytes_wanted(&self, held: &[u8]) -> usize;

    /// An allocation may fail at any time.
    ghost refused: { (items : Self) (rest : List ℕ) (memory : MemoryValue) (fault : Self.Fault) →
        Self.Fault.from_gives memory fault → shows items fault rest };
}
