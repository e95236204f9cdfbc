//! The items of a part, in order: its header, its entries and its footer.
//!
//!     header   "MTC1" or "MTC2" | number, 4 bytes | begin, 8 | part, 2 | parts, 2
//!     entry    length, 4 bytes | change, as many bytes | length again, 4
//!     footer   0, 4 bytes | end, 8 | number of entries, 4
//!
//! No entry has the length 0, so the first 4 bytes of an item tell which it is. Nothing follows the footer.
ghost use Rattle.std.specs.Prelude.{◌≡◌, ◌≢◌, ◌++◌, List, ℕ, None, Some, length};
ghost use Rattle.byteorder.specs.Endian.{big_bytes};
ghost use Rattle.mt_record.specs.declared.part_text.PartFault.TheVariants.{Broken};
ghost use Rattle.mt_record.specs.PartFeeding.{part_so_far, broken_after, HoldsPart, IsPartLeft, IsPartFaulty, StepsPart};

use crate::body::fields::{u32_at, u64_at};
use crate::feed::frame::{frame_wanted, next_entry};
use crate::feed::items::{Items, Step};
use crate::feed::magic::NoMagic;
use crate::feed::part_head::{FOOTER_BYTES, PART_HEADER_BYTES, next_part_header};
use crate::kept::Entries;
use crate::part_text::{PartFault, PartHead};

/// What was read of a part so far.
#[derive(Drop)]
pub struct PartItems<E: Entries> {
    /// The header, once it is complete.
    pub head: Option<PartHead>,
    /// The entries, in order.
    pub entries: E,
    /// The timestamp at which the checkpoint ends, once the footer is complete.
    pub end: Option<u64>,
}

impl<E: Entries> Items for PartItems<E> {
    type Fault = PartFault;

    ghost Taken = { Unit {0} };

    ghost holds = { λ _ items. HoldsPart (part_so_far E.listed items) };

    ghost is_left = { λ items. IsPartLeft (part_so_far E.listed items) };

    ghost shows = { λ items. IsPartFaulty (part_so_far E.listed items) };

    fn read_next<'a>(&mut self, bytes: &'a [u8]) -> Step<'a, PartFault> {
        let Some(head) = self.head else {
            return self.read_header(bytes);
        };
        let Some(_) = self.end else {
            return self.read_item(head, bytes);
        };
        if bytes.is_empty() {
            return Ok(None);
        }
        Err(self.broken(head))
    }

    /// Returns the number of bytes of a header until the header is read, and then those that an entry or the footer
    /// asks for.
    fn bytes_wanted(&self, held: &[u8]) -> usize {
        if self.head.is_none() {
            return PART_HEADER_BYTES;
        }
        match u32_at(held) {
            Some((0, _)) => FOOTER_BYTES,
            _ => frame_wanted(held),
        }
    }

    ghost refused = { λ items rest memory fault is. Prim.rw is tt };
}

impl<E: Entries> PartItems<E> {
    /// Reads the header.
    #[tactic(auto, using(crate::proofs::PartItems::header_read))]
    fn read_header<'a>(&mut self, bytes: &'a [u8]) -> Step<'a, PartFault>
        ensures { self.old.head ≡ None → StepsPart E.listed self.old self.new bytes.now result }
    {
        match next_part_header(bytes) {
            Ok(Some((head, after))) => {
                self.head = Some(head);
                Ok(Some(after))
            }
            Ok(None) => Ok(None),
            Err(NoMagic) => Err(PartFault::Header),
        }
    }

    /// Reads an entry, or the footer, which begins with a length of zero.
    fn read_item<'a>(&mut self, head: PartHead, bytes: &'a [u8]) -> Step<'a, PartFault>
        requires head { self.old.head ≡ Some head }
        requires open { self.old.end ≡ None }
        ensures { StepsPart E.listed self.old self.new bytes.now result }
    {
        let Some((length, rest)) = u32_at(bytes) else {
            return Ok(None);
        };
        if length == 0 {
            return self.read_footer(head, rest);
        }
        self.read_entry(head, bytes)
    }

    /// Reads an entry.
    #[tactic(auto, using(crate::proofs::PartItems::entry_broken))]
    fn read_entry<'a>(&mut self, head: PartHead, bytes: &'a [u8]) -> Step<'a, PartFault>
        requires head { self.old.head ≡ Some head }
        requires open { self.old.end ≡ None }
        requires entry { (more : List ℕ) → bytes.now ≢ big_bytes 4 0 ++ more }
        ensures { StepsPart E.listed self.old self.new bytes.now result }
    {
        match next_entry(head.format, bytes) {
            Ok(Some((fields, after))) => {
                self.entries.put_entry(fields)?;
                Ok(Some(after))
            }
            Ok(None) => Ok(None),
            Err(_) => Err(self.broken(head)),
        }
    }

    /// Reads the footer. The bytes are those after its length of zero.
    #[tactic(auto, using(crate::proofs::PartItems::footer_read))]
    fn read_footer<'a>(&mut self, head: PartHead, bytes: &'a [u8]) -> Step<'a, PartFault>
        requires head { self.old.head ≡ Some head }
        requires open { self.old.end ≡ None }
        ensures { StepsPart E.listed self.old self.new (big_bytes 4 0 ++ bytes.now) result }
    {
        let Some((end, rest)) = u64_at(bytes) else {
            return Ok(None);
        };
        let Some((count, after)) = u32_at(rest) else {
            return Ok(None);
        };
        if count as usize != self.entries.count() {
            return Err(self.broken(head));
        }
        self.end = Some(end);
        Ok(Some(after))
    }

    /// Returns the fault of a part that is broken after the entries so far.
    pub fn broken(&self, head: PartHead) -> PartFault
        ensures { result ≡ Broken head.number (length (E.listed self.now.entries)) }
    {
        PartFault::Broken {
            number: head.number,
            entries: self.entries.count() as u64,
        }
    }

    /// Returns the fault of a file that is broken after what was read.
    pub fn broken_here(&self) -> PartFault
        ensures { result ≡ broken_after (part_so_far E.listed self.now) }
    {
        match self.head {
            Some(head) => self.broken(head),
            None => PartFault::Header,
        }
    }
}
