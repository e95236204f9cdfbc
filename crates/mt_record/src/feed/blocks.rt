//! Reads the blocks of a file, in which the items of a log or a part stand.
ghost use Rattle.std.specs.Prelude.{◌≡◌, ◌++◌, List, ℕ, None, false, true, OnOk, OnErr};
ghost use Rattle.std.proofs.Common.{inr};
ghost use Rattle.mt_words.specs.declared.fault.Memory.{Memory as MemoryValue};
ghost use Rattle.mt_block.specs.Blocks.{IsBroken};
ghost use Rattle.mt_record.specs.Feeding.{IsFedBy};
ghost use Rattle.mt_record.specs.Unsealing.{IsSeam, place_of, HoldsBlocks, AreBlocksLeft, AreBlocksFaulty, StepsBlocks};

use crate::feed::Feed;
use crate::feed::items::{Items, Step};
use mt_block::{block_wanted, has_some_head, next_block};
use mt_words::Memory;

/// Items that may stand in blocks.
pub trait Sealed: Items {
    /// The fault of a file that is damaged after these items.
    ghost damage: { Self → Self.Fault };

    /// Returns the fault of a file that is damaged after these items.
    fn damaged(&self) -> Self::Fault
        ensures { result ≡ damage self.now };
}

/// The blocks of a file, as items. What stands in them is fed to a feed of its own.
#[derive(Drop)]
pub struct Blocks<I: Sealed> {
    pub inner: Feed<I>,
    /// The mark of the file.
    pub mark: u32,
    /// Whether something broken was found. Then the file has ended, unless a head follows.
    pub searching: bool,
    /// The last bytes passed over in the search, fewer than a head has.
    pub seam: Vec<u8>,
}

/// The most bytes of a head that may stand before a chunk.
const SEAM: usize = 11;

impl<I: Sealed> Items for Blocks<I> {
    type Fault = I::Fault;

    ghost Taken = { I.Taken × List ℕ × ℕ };

    ghost holds = { λ taken b. HoldsBlocks (IsFedBy (I.holds taken.0) I.is_left I.shows b.inner.items b.inner.held.items b.inner.fault) (place_of b) taken.1 taken.2 };

    ghost is_left = { λ b. AreBlocksLeft b.inner.fault (place_of b) };

    ghost shows = { λ b. AreBlocksFaulty (I.damage b.inner.items) (λ fault. (memory : MemoryValue) × I.Fault.from_gives memory fault) b.inner.fault (place_of b) };

    fn read_next<'a>(&mut self, bytes: &'a [u8]) -> Step<'a, I::Fault> {
        if let Some(fault) = self.inner.fault {
            return Err(fault);
        }
        if self.searching {
            return self.search(bytes);
        }
        match next_block(self.mark, bytes) {
            Ok(Some((body, after))) => {
                // The feed keeps a fault, and the next step returns it.
                let _ = self.inner.feed(body);
                Ok(Some(after))
            }
            Ok(None) => Ok(None),
            Err(behind) => self.begin_search(bytes, behind),
        }
    }

    /// Returns the number of bytes of a head, and once that is held, those of its block.
    fn bytes_wanted(&self, held: &[u8]) -> usize {
        block_wanted(self.mark, held)
    }

    ghost refused = { λ items rest memory fault is. inr (inr (memory, is)) };
}

impl<I: Sealed> Blocks<I> {
    /// Passes over something broken. `behind` are the bytes behind it.
    fn begin_search<'a>(&mut self, bytes: &'a [u8], behind: &[u8]) -> Step<'a, I::Fault>
        requires broken { IsBroken self.old.mark bytes.now behind.now }
        requires first { self.old.searching ≡ false }
        requires sound { self.old.inner.fault ≡ None }
        ensures { StepsBlocks I.holds I.is_left I.shows I.damage (λ fault. (memory : MemoryValue) × I.Fault.from_gives memory fault) self.old self.new bytes.now result }
    {
        if has_some_head(self.mark, behind) {
            return Err(self.inner.items.damaged());
        }
        let start = behind.len().saturating_sub(SEAM);
        extend(&mut self.seam, &behind[start..])?;
        self.searching = true;
        Ok(Some(&[]))
    }

    /// Passes over these bytes as well.
    fn search<'a>(&mut self, bytes: &'a [u8]) -> Step<'a, I::Fault>
        requires searching { self.old.searching ≡ true }
        requires sound { self.old.inner.fault ≡ None }
        ensures { StepsBlocks I.holds I.is_left I.shows I.damage (λ fault. (memory : MemoryValue) × I.Fault.from_gives memory fault) self.old self.new bytes.now result }
    {
        if bytes.is_empty() {
            return Ok(None);
        }
        let kept = self.seam.len();
        extend(&mut self.seam, bytes)?;
        if has_some_head(self.mark, &self.seam) {
            self.seam.truncate(kept);
            return Err(self.inner.items.damaged());
        }
        shorten(&mut self.seam);
        Ok(Some(&[]))
    }
}

/// Appends the bytes. Err: out of memory; nothing is appended.
fn extend(seam: &mut Vec<u8>, bytes: &[u8]) -> Result<(), Memory>
    ensures ok { OnOk result (seam.new.items ≡ seam.old.items ++ bytes.now) }
    ensures err { OnErr result (seam.new.items ≡ seam.old.items) }
{
    Ok(seam.extend_from_slice(bytes)?)
}

/// Keeps the last bytes, fewer than a head has.
#[tactic(auto, using(crate::proofs::Unsealing::is_seam_drained))]
fn shorten(seam: &mut Vec<u8>)
    ensures { IsSeam seam.old.items seam.new.items }
{
    let passed = seam.len().saturating_sub(SEAM);
    seam.drain(..passed);
}
