//! Reads a part that comes in chunks.
ghost use Rattle.std.specs.Prelude.{◌≡◌, ◌++◌, [], List, ℕ, Some, None, IsSome, IfOk, IfErr, OnOk};
ghost use Rattle.mt_record.specs.declared.part_text.PartFault.{PartFault as FaultValue};
ghost use Rattle.mt_record.specs.PartTexts.{IsPartText};
ghost use Rattle.mt_record.specs.Answered.{IsPartAnswered};
ghost use Rattle.mt_record.specs.PartFeeding.{IsPartFed, ShowsNoPartFault, IsPartShown};

use crate::feed::Feed;
use crate::feed::file_feed::FileKind;
use crate::feed::part_file::PartFile;
use crate::feed::part_items::PartItems;
use crate::kept::Entries;
use crate::kept::part::KeptEntries;
use crate::part_text::{PartFault, PartText};
use mt_words::Entry;
use std::alloc::Global;
use std::marker::Model;

/// A reader of a part of a checkpoint that comes in chunks of any size. It collects the entries in an `E`. It holds
/// back only the beginning of the header, of one entry or of the footer, and in a file of format 4 that of one block.
/// An entry that lies completely in one chunk is copied straight from that chunk. The work is linear in the number of
/// bytes, however they are cut.
#[derive(Drop)]
pub struct PartFeed<E: Entries = Vec<Entry>> {
    feed: Feed<PartFile<E>>,
}

impl<E: Entries> Model for PartFeed<E> {
    ghost use Rattle.mt_record.specs.Feeding.{fed_by};
    ghost use Rattle.mt_record.specs.PartFeeding.{part_file, FedPart};

    ghost Value = { FedPart };

    ghost view = { λ f. fed_by (part_file E.listed) f.feed };
}

impl PartFeed {
    /// Creates a feed that has read no chunk.
    pub fn new(alloc: Global) -> PartFeed
        ensures fed { IsPartFed result [] }
        ensures sound { result.fault ≡ None }
    {
        PartFeed::filling(alloc, Vec::new(alloc))
    }
}

impl PartFeed<KeptEntries> {
    /// Creates a feed that has read no chunk. It keeps the bodies of entries.
    pub fn keeping(alloc: Global) -> PartFeed<KeptEntries>
        ensures fed { IsPartFed result [] }
        ensures sound { result.fault ≡ None }
    {
        PartFeed::filling(alloc, KeptEntries::new(alloc))
    }
}

impl<E: Entries> PartFeed<E> {
    /// Creates a feed that has read no chunk. It collects entries in `entries`, which must be empty.
    fn filling(alloc: Global, entries: E) -> PartFeed<E>
        requires { E.listed entries ≡ [] }
        ensures fed { IsPartFed result [] }
        ensures sound { result.fault ≡ None }
    {
        let items = PartItems {
            head: None,
            entries,
            end: None,
        };
        let held = Vec::new(alloc);
        let text = Feed {
            items,
            held,
            fault: None,
        };
        let file = PartFile {
            kind: FileKind::Untold,
            mark: 0,
            text,
        };
        PartFeed {
            feed: Feed::new(alloc, file),
        }
    }

    /// Reads the next chunk.
    /// Err: the fault that the bytes so far show, or `Memory` if an allocation failed. The first call after which the
    /// bytes show the fault returns it. Each later call, and `finish`, returns it again.
    pub fn feed(&mut self, piece: &[u8]) -> Result<(), PartFault>
        ensures fed { (bytes : List ℕ) → IsPartFed self.old bytes → IsPartFed self.new (bytes ++ piece.now) }
        ensures ok { (bytes : List ℕ) → IsPartFed self.old bytes →
            OnOk result (ShowsNoPartFault (bytes ++ piece.now)) }
        ensures fault { (bytes : List ℕ) → IsPartFed self.old bytes →
            IfErr result (IsPartShown (bytes ++ piece.now)) }
        ensures sound { OnOk result (self.new.fault ≡ None) }
        ensures kept { IfErr result (λ fault. self.new.fault ≡ Some fault) }
        ensures again { (fault : FaultValue) → self.old.fault ≡ Some fault → result ≡ Err fault }
        ensures stays { IsSome self.old.fault → self.new ≡ self.old }
    {
        self.feed.feed(piece)
    }

    /// Returns what the bytes say as a part.
    /// Err: the one fault of the bytes, or `Memory` if an allocation failed. A part that is cut short is a fault too, as
    /// is one of format 4 whose last block is not whole.
    #[tactic(auto, using(crate::proofs::PartFeeds::no_head_fed))]
    pub fn finish(self) -> Result<PartText<E>, PartFault>
        ensures part { (bytes : List ℕ) → IsPartFed self bytes → IfOk result (IsPartText E.listed bytes) }
        ensures fault { (bytes : List ℕ) → IsPartFed self bytes → IfErr result (IsPartAnswered bytes) }
        ensures again { (fault : FaultValue) → self.fault ≡ Some fault → result ≡ Err fault }
    {
        if let Some(fault) = self.feed.fault {
            return Err(fault);
        }
        let items = &self.feed.items.text.items;
        let Some(head) = items.head else {
            return Err(PartFault::Header);
        };
        let Some(end) = items.end else {
            return Err(items.broken(head));
        };
        if !self.feed.held.is_empty() {
            return Err(items.broken(head));
        }
        Ok(PartText {
            number: head.number,
            begin: head.begin,
            part: head.part,
            parts: head.parts,
            entries: self.feed.items.text.items.entries,
            end,
        })
    }
}
