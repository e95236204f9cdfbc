//! A checkpoint of a store.
ghost use Rattle.std.specs.Prelude.{◌≡◌, ◌<◌, ℕ, List, max, length, IfErr, IfOk, OnOk};
ghost use Rattle.std.specs.Io.KnownBytes.{Appends};
ghost use Rattle.mt_words.specs.Walks.{KeysRise};
ghost use Rattle.mt_tree.specs.Trees.{tree_walk};
ghost use Rattle.mt_checkpoint.specs.Checkpoints.{HasPairs, ArePartsWithin, IsPlanFault, NeedsParts, IsPartFile, IsLogFile};

use crate::entries::write_blocks;
use crate::plan_fault::PlanFault;
use crate::planning::{Stretch, stretches_of};
use mt_block::{Header, PartHeader, append_block};
use mt_record::encode_record;
use mt_tree::Tree;
use mt_words::{Memory, Record};
use std::alloc::Global;
use std::io::{self, Write};
use std::marker::Model;

/// The most parts of a checkpoint.
pub const MOST_PARTS: usize = 65_535;

/// A checkpoint of the pairs of a tree, of which nothing is written yet. It begins and ends at the same timestamp, the
/// cutoff of the recovery that gave the tree.
#[derive(Drop)]
pub struct Checkpoint<'a> {
    tree: &'a Tree,
    number: u32,
    cutoff: u64,
    version: u64,
    stretches: Vec<Stretch>,
}

impl<'a> Model for Checkpoint<'a> {
    ghost use Rattle.std.specs.Prelude.{◌<◌, ◌^◌, ◌-◌, length, map};
    ghost use Rattle.mt_tree.specs.Trees.{tree_walk};
    ghost use Rattle.mt_checkpoint.specs.Checkpoints.{Checkpoint as View};
    ghost use Rattle.mt_checkpoint.specs.Steps.Planning.{within};

    ghost Value = { View };

    ghost view = { λ c. record {
      number = c.number;
      cutoff = c.cutoff;
      version = c.version;
      parts = map (within (tree_walk c.tree.now)) c.stretches.items;
    } };

    ghost invariant = { λ c. (c.cutoff < 2 ^ 64 - 1) × (length c.stretches.items < 2 ^ 16) × (c.number < 2 ^ 32) };
}

impl<'a> Checkpoint<'a> {
    /// Plans checkpoint `number` of the tree: which pairs each of its parts has. Writes nothing. The checkpoint is at the
    /// timestamp `cutoff`, and its entries have the version `version`, or 1 if that is 0. The text of a part has at most
    /// `limit` bytes, or a single entry, and there are as few parts as that allows. The blocks of its file take 16 bytes
    /// more each. Err: no timestamp is above the cutoff; no version is above `version`; more than `MOST_PARTS` parts are
    /// needed; out of memory.
    pub fn plan(
        alloc: Global,
        tree: &'a Tree,
        number: u32,
        cutoff: u64,
        version: u64,
        limit: usize,
    ) -> Result<Checkpoint<'a>, PlanFault>
        requires { KeysRise (tree_walk tree.now) }
        ensures number { IfOk result (λ made. made.number ≡ number) }
        ensures cutoff { IfOk result (λ made. made.cutoff ≡ cutoff) }
        ensures version { IfOk result (λ made. made.version ≡ max 1 version) }
        ensures parts { IfOk result (HasPairs (tree_walk tree.now)) }
        ensures within { IfOk result (ArePartsWithin limit) }
        ensures fewest { IfOk result (λ made. NeedsParts limit (tree_walk tree.now) (length made.parts)) }
        ensures fault { IfErr result (IsPlanFault limit cutoff version (tree_walk tree.now)) }
    {
        if cutoff == u64::MAX {
            return Err(PlanFault::Timestamp);
        }
        if version == u64::MAX {
            return Err(PlanFault::Version);
        }
        Ok(Checkpoint {
            tree,
            number,
            cutoff,
            version: version.max(1),
            stretches: stretches_of(alloc, tree, limit)?,
        })
    }

    /// Returns the number of parts.
    pub fn parts(&self) -> u16
        ensures { result ≡ length self.now.parts }
    {
        self.stretches.len() as u16
    }

    /// Writes part `part`, as a file of format 4 with this salt, which no other file has. Parts count from 0. Err: write
    /// error; out of memory. The contract does not say how much was written then.
    pub fn write_part<W: Write>(
        &self,
        alloc: Global,
        salt: u64,
        part: u16,
        out: &mut W,
    ) -> io::Result<()>
        requires { part < length self.now.parts }
        ensures { OnOk result ((bytes : List ℕ) × IsPartFile salt self.now part bytes × Appends (W.contents out.old) (W.contents out.new) bytes) }
    {
        let header = PartHeader {
            salt,
            number: self.number,
            part,
            parts: self.parts(),
            begin: self.cutoff,
        };
        out.write_all(&header.bytes(alloc)?)?;
        let stretch = &self.stretches[part as usize];
        write_blocks(
            alloc,
            header.mark(),
            self.tree,
            self.version,
            stretch,
            self.cutoff,
            out,
        )
    }

    /// Returns the bytes of a log that makes the checkpoint count, of format 4, with this salt, which no other file has. Err:
    /// out of memory.
    pub fn log(&self, alloc: Global, salt: u64) -> Result<Vec<u8>, Memory>
        ensures { IfOk result (λ log. IsLogFile salt self.now log.items) }
    {
        let header = Header {
            salt,
            worker: 0,
            segment: 0,
            workers: 1,
            from: self.cutoff,
        };
        let mut mark = Vec::new(alloc);
        encode_record(&Record::mark(self.cutoff + 1), &mut mark)?;
        let mut log = header.bytes(alloc)?;
        append_block(header.mark(), &mark, &mut log)?;
        Ok(log)
    }
}
