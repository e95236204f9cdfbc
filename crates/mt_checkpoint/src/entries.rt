//! Writes the entries and the footer of a part in blocks.
ghost use Rattle.std.specs.Prelude.{◌≡◌, [], ◌++◌, List, ℕ, length, take, OnOk};
ghost use Rattle.std.specs.Io.KnownBytes.{Appends};
ghost use Rattle.mt_record.specs.Parts.{footer_bytes};
ghost use Rattle.mt_tree.specs.Range.{from};
ghost use Rattle.mt_tree.specs.Trees.{tree_walk};
ghost use Rattle.mt_checkpoint.specs.Checkpoints.{entries_text};
ghost use Rattle.mt_checkpoint.specs.Steps.Planning.{within};
ghost use Rattle.mt_checkpoint.specs.Steps.Writing.{AreBlocksOf, HaveSealed, HaveWritten, HaveWrittenAll, none_written, both_written};

use crate::encode::{write_entry, write_footer};
use crate::planning::Stretch;
use mt_block::append_blocks;
use mt_tree::{Tree, Visitor};
use mt_words::PackedColumns;
use std::alloc::Global;
use std::io::{self, Write};

/// The number of bytes that fill a block. The last entry in a block may exceed it.
const FULL: usize = 4_096;

/// Writes blocks of the entries of this stretch of the tree, of this version, and of the footer of a part that ends at
/// `end`, in the file with this mark. Err: write error; out of memory.
pub fn write_blocks<W: Write>(
    alloc: Global,
    mark: u32,
    tree: &Tree,
    version: u64,
    stretch: &Stretch,
    end: u64,
    out: &mut W,
) -> io::Result<()>
    ensures { OnOk result ((sealed : List ℕ) × AreBlocksOf mark (entries_text version (within (tree_walk tree.now) stretch.now) ++ footer_bytes end (length (within (tree_walk tree.now) stretch.now))) sealed
        × Appends (W.contents out.old) (W.contents out.new) sealed) }
{
    let mut body = Vec::new(alloc);
    let mut blocks = Vec::new(alloc);
    let mut rest = Rest {
        version,
        left: stretch.count,
        mark,
        body: &mut body,
        blocks: &mut blocks,
        out,
    };
    rest.write(tree, stretch.start.as_bytes(), end)
}

/// What a walk has still to write of a part.
#[derive(Drop)]
struct Rest<'a, W> {
    /// The version of the entries.
    version: u64,
    /// The number of entries that are not written yet.
    left: u32,
    /// The mark of the file.
    mark: u32,
    /// The bytes that are in no block yet.
    body: &'a mut Vec<u8>,
    /// A buffer for blocks.
    blocks: &'a mut Vec<u8>,
    out: &'a mut W,
}

impl<'a, W: Write> Rest<'a, W> {
    /// Writes blocks of the entries of the pairs at or after this key, and of the footer of a part that ends at `end`. Err:
    /// write error; out of memory.
    fn write(&mut self, tree: &Tree, start: &[u8], end: u64) -> io::Result<()>
        ensures { OnOk result (HaveWrittenAll W.contents self.old self.new end (take self.old.left (from start.now (tree_walk tree.now)))) }
    {
        let most = self.left;
        tree.visit_from(start, &Entries, self)?;
        write_footer(end, most - self.left, self.body)?;
        self.seal()
    }

    /// Writes the bytes so far in blocks if they fill one. Err: write error; out of memory.
    fn seal_full(&mut self) -> io::Result<()>
        ensures { OnOk result (HaveSealed W.contents self.old self.new []) }
    {
        if self.body.len() < FULL {
            return Ok(());
        }
        self.seal()
    }

    /// Writes the bytes so far in blocks. Err: write error; out of memory.
    fn seal(&mut self) -> io::Result<()>
        ensures { OnOk result (HaveSealed W.contents self.old self.new [] × (self.new.body.now.items ≡ [])) }
    {
        self.blocks.clear();
        append_blocks(self.mark, self.body, self.blocks)?;
        self.out.write_all(self.blocks)?;
        self.body.clear();
        Ok(())
    }
}

/// Writes the entry of each pair, and ends the walk after the last entry of the part.
struct Entries;

impl<'a, W: Write> Visitor<Rest<'a, W>> for Entries {
    type Error = io::Error;

    ghost shown = { HaveWritten W.contents };

    fn visit(&self, rest: &mut Rest<'a, W>, key: &[u8], columns: &PackedColumns) -> io::Result<()> {
        if rest.left == 0 {
            return Ok(());
        }
        rest.left -= 1;
        write_entry(rest.version, key, columns, rest.body)?;
        rest.seal_full()
    }

    fn is_full(&self, rest: &Rest<'a, W>) -> bool {
        rest.left == 0
    }

    ghost none = { none_written W.contents };

    ghost more = { both_written W.contents };
}
