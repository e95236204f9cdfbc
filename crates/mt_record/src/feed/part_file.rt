//! A file of a part, around its text. A plain file is the part itself. In a file of format 4 the part stands in blocks.
ghost use Rattle.std.specs.Prelude.{◌≡◌, None};
ghost use Rattle.std.proofs.Common.{inr};
ghost use Rattle.mt_record.specs.declared.feed.file_feed.FileKind.TheVariants as kinds;
ghost use Rattle.mt_record.specs.Parts.{IsSealedPart, part_text_head};
ghost use Rattle.mt_record.specs.PartFeeding.{part_file, HoldsPartFile, IsPartFileLeft, IsPartFileFaulty, StepsPartFile};

use crate::feed::Feed;
use crate::feed::file_feed::FileKind;
use crate::feed::items::{Items, Step};
use crate::feed::part_head::{PART_BLOCKS, is_sealed_part};
use crate::feed::part_items::PartItems;
use crate::kept::Entries;
use crate::part_text::{PartFault, PartHead};
use mt_block::{PartHeader, block_wanted, next_block, part_header_at};
use mt_words::Format;

/// The number of bytes in the header of a part of format 4.
const FILE_HEADER_BYTES: usize = 36;

/// What was read of a file so far. Its items are the header of format 4 and the blocks, or the chunks of a plain file.
#[derive(Drop)]
pub struct PartFile<E: Entries> {
    pub kind: FileKind,
    /// The mark of the file, if it is one of format 4.
    pub mark: u32,
    /// The feed of the text.
    pub text: Feed<PartItems<E>>,
}

impl<E: Entries> Items for PartFile<E> {
    type Fault = PartFault;

    ghost Taken = { Unit {0} };

    ghost holds = { λ _ file. HoldsPartFile (part_file E.listed file) };

    ghost is_left = { λ file. IsPartFileLeft (part_file E.listed file) };

    ghost shows = { λ file. IsPartFileFaulty (part_file E.listed file) };

    fn read_next<'a>(&mut self, bytes: &'a [u8]) -> Step<'a, PartFault> {
        if let Some(fault) = self.text.fault {
            return Err(fault);
        }
        match self.kind {
            FileKind::Untold => self.read_header(bytes),
            FileKind::Plain => self.read_plain(bytes),
            FileKind::Blocks => self.read_block(bytes),
        }
    }

    /// Returns the number of bytes of a header until the kind is known, and then those of a head or its block.
    fn bytes_wanted(&self, held: &[u8]) -> usize {
        match self.kind {
            FileKind::Blocks => block_wanted(self.mark, held),
            _ => FILE_HEADER_BYTES,
        }
    }

    ghost refused = { λ file rest memory fault is. inr (inr is) };
}

impl<E: Entries> PartFile<E> {
    /// Reads the header of format 4, or all bytes as those of a plain file.
    fn read_header<'a>(&mut self, bytes: &'a [u8]) -> Step<'a, PartFault>
        requires untold { self.old.kind ≡ kinds.Untold }
        requires sound { self.old.text.fault ≡ None }
        ensures { StepsPartFile E.listed self.old self.new bytes.now result }
    {
        if is_sealed_part(bytes) {
            return self.read_file_header(bytes);
        }
        if PART_BLOCKS.starts_with(bytes) {
            return Ok(None);
        }
        self.kind = FileKind::Plain;
        // The feed keeps a fault, and the next step returns it.
        let _ = self.text.feed(bytes);
        Ok(Some(&[]))
    }

    /// Reads the header of format 4. The bytes begin with its magic.
    fn read_file_header<'a>(&mut self, bytes: &'a [u8]) -> Step<'a, PartFault>
        requires untold { self.old.kind ≡ kinds.Untold }
        requires sound { self.old.text.fault ≡ None }
        requires sealed { IsSealedPart bytes.now }
        ensures { StepsPartFile E.listed self.old self.new bytes.now result }
    {
        if bytes.len() < FILE_HEADER_BYTES {
            return Ok(None);
        }
        let Some((header, after)) = part_header_at(bytes) else {
            return Err(PartFault::Header);
        };
        self.kind = FileKind::Blocks;
        self.mark = header.mark();
        self.text.items.head = Some(text_head(header));
        Ok(Some(after))
    }

    /// Reads all bytes of a plain file.
    fn read_plain<'a>(&mut self, bytes: &'a [u8]) -> Step<'a, PartFault>
        requires plain { self.old.kind ≡ kinds.Plain }
        requires sound { self.old.text.fault ≡ None }
        ensures { StepsPartFile E.listed self.old self.new bytes.now result }
    {
        if bytes.is_empty() {
            return Ok(None);
        }
        // The feed keeps a fault, and the next step returns it.
        let _ = self.text.feed(bytes);
        Ok(Some(&[]))
    }

    /// Reads a block.
    fn read_block<'a>(&mut self, bytes: &'a [u8]) -> Step<'a, PartFault>
        requires sealed { self.old.kind ≡ kinds.Blocks }
        requires sound { self.old.text.fault ≡ None }
        ensures { StepsPartFile E.listed self.old self.new bytes.now result }
    {
        match next_block(self.mark, bytes) {
            Ok(Some((body, after))) => {
                // The feed keeps a fault, and the next step returns it.
                let _ = self.text.feed(body);
                Ok(Some(after))
            }
            Ok(None) => Ok(None),
            Err(_) => Err(self.text.items.broken_here()),
        }
    }
}

/// Returns the header of the text of a file with this header.
fn text_head(header: PartHeader) -> PartHead
    ensures { result ≡ part_text_head header }
{
    PartHead {
        format: Format::Two,
        number: header.number,
        begin: header.begin,
        part: header.part,
        parts: header.parts,
    }
}
