//! Tests of what no contract says: that a checkpoint can be planned and written.
ghost use Rattle.std.specs.Prelude.{IfOk};
ghost use Rattle.mt_words.specs.Walks.{KeysRise};
ghost use Rattle.mt_tree.specs.Trees.{tree_walk};

use crate::Checkpoint;
use mt_tree::{Draft, Tree};
use mt_words::{Memory, PackedColumns};
use std::alloc::Global;
use std::process::Abort;

/// Returns one column of one byte.
fn column(alloc: Global) -> Result<PackedColumns, Memory> {
    let mut columns = PackedColumns::new(alloc);
    columns.add(0, b"z")?;
    Ok(columns)
}

/// Returns the tree of three keys with one column each. The fields of an entry have 16 bytes.
fn tree_of_three(alloc: Global) -> Result<Tree, Memory>
    ensures { IfOk result (λ tree. KeysRise (tree_walk tree)) }
{
    let mut draft = Draft::new(alloc);
    draft.push(b"a", column(alloc)?)?;
    draft.push(b"b", column(alloc)?)?;
    draft.push(b"c", column(alloc)?)?;
    draft.finish()
}

#[test]
fn parts_are_cut_by_their_bytes(rt: HostRuntime) {
    let tree = tree_of_three(rt.alloc()).expect(&rt, "memory");
    let planned = Checkpoint::plan(rt.alloc(), &tree, 7, 100, 9, 36 + 2 * 24);
    let checkpoint = planned.expect(&rt, "a checkpoint");
    assert_eq!(&rt; checkpoint.parts(), 2);
    let mut last = Vec::new(rt.alloc());
    if 1 < checkpoint.parts() {
        let written = checkpoint.write_part(rt.alloc(), 1, 1, &mut last);
        written.expect(&rt, "memory");
    }
    assert_eq!(&rt; last.as_slice(), LAST_PART);
}

/// Part 1 of 2, with the salt 1: its header, the head of a block, one entry, the footer, and the checksum of the block.
const LAST_PART: &[u8] =
    b"MTC4\0\0\0\0\0\0\0\x01\0\0\0\x07\0\x01\0\x02\0\0\0\x01\0\0\0\0\0\0\0\x64\xc0\xf4\x56\x4b\
    \xc0\xf4\x56\x4b\0\0\0\x28\x23\xa1\0\x9e\
    \0\0\0\x10\0\0\0\0\0\0\0\x09\0\x01c\x01\0\0\x01z\0\0\0\x10\
    \0\0\0\0\0\0\0\0\0\0\0\x64\0\0\0\x01\
    \xc4\xe4\xde\x78";

#[test]
fn a_log_has_a_mark_above_the_cutoff(rt: HostRuntime) {
    let tree = tree_of_three(rt.alloc()).expect(&rt, "memory");
    let planned = Checkpoint::plan(rt.alloc(), &tree, 7, 100, 9, 1000);
    let checkpoint = planned.expect(&rt, "a checkpoint");
    let log = checkpoint.log(rt.alloc(), 1).expect(&rt, "memory");
    assert_eq!(&rt; log.as_slice(), LOG);
}

/// A header that is from 100, with the salt 1, and a block with a mark at 101.
const LOG: &[u8] =
    b"MTL4\0\0\0\0\0\0\0\x01\0\0\0\0\0\0\0\0\0\0\0\0\0\0\0\0\0\0\0\x01\0\0\0\0\0\0\0\x64\x9a\x26\x56\xa1\
    \x9a\x26\x56\xa1\0\0\0\x11\x98\x7b\xfe\xac\
    \0\0\0\x09\x03\0\0\0\0\0\0\0\x65\0\0\0\x09\
    \xd5\x0d\x4d\xd7";
