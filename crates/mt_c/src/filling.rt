//! Fills a buffer with as many whole pairs of a tree as fit.
ghost use Rattle.std.specs.Prelude.{◌≡◌, ◌≢◌, ◌⊎◌};
ghost use Rattle.mt_words.specs.Walks.{KeysRise};
ghost use Rattle.mt_tree.specs.Range.{from};
ghost use Rattle.mt_tree.specs.Trees.{tree_walk};
ghost use Rattle.mt_c.specs.Cuts.{is_until, between};
ghost use Rattle.mt_c.specs.declared.status.TheConstants.{DONE, ABSENT, SHORT};
ghost use Rattle.mt_c.specs.Flat.{Dumps};
ghost use Rattle.mt_c.specs.Filling.{HaveFilled, none_filled, both_filled, refused_of};

use crate::flat::{fill_pair, pair_length};
use crate::status::{ABSENT, DONE, SHORT};
use mt_tree::{Tree, Visitor};
use mt_words::PackedColumns;
use std::convert::Infallible;

/// Why a pair was not written.
#[derive(Clone, Copy)]
pub enum Stop {
    /// It has this length, and no room.
    Room(usize),
    /// Its key is not below the end.
    End,
}

/// A buffer that is being filled with pairs.
#[derive(Drop)]
pub struct Filling<'a, 'e> {
    pub out: &'a mut [u8],
    /// All keys that are written are below it. No bytes: there is no end.
    pub end: &'e [u8],
    /// The number of bytes that are written.
    pub at: usize,
    /// The number of pairs that are written.
    pub pairs: usize,
    /// Why the first pair that is not written is not.
    pub stop: Option<Stop>,
}

/// Writes each pair, up to the first that does not fit or is not below the end.
pub struct Filler;

impl<'a, 'e> Visitor<Filling<'a, 'e>> for Filler {
    type Error = Infallible;

    ghost shown = { HaveFilled };

    fn visit(
        &self,
        filling: &mut Filling<'a, 'e>,
        key: &[u8],
        columns: &PackedColumns,
    ) -> Result<(), Infallible> {
        if filling.stop.is_some() {
            return Ok(());
        }
        if !is_until(filling.end, key) {
            filling.stop = Some(Stop::End);
            return Ok(());
        }
        let length = pair_length(key, columns);
        if filling.out.len().saturating_sub(filling.at) < length {
            filling.stop = Some(Stop::Room(length));
            return Ok(());
        }
        let end = filling.at + length;
        fill_pair(key, columns, &mut filling.out[filling.at..end]);
        filling.at = end;
        filling.pairs = filling.pairs.saturating_add(1);
        Ok(())
    }

    ghost none = { none_filled };

    ghost more = { both_filled };

    fn is_full(&self, filling: &Filling<'a, 'e>) -> bool {
        filling.stop.is_some()
    }
}

/// Returns whether the key is below the end. No bytes are no end.
fn is_until(end: &[u8], key: &[u8]) -> bool
    ensures { result ≡ is_until end.now key.now }
{
    end.is_empty() || key.cmp(end).is_lt()
}

/// Returns the length of the pair that has no room, or None if no pair lacks room.
fn refused(stop: Option<Stop>) -> Option<usize>
    ensures { result ≡ refused_of stop }
{
    match stop {
        Some(Stop::Room(length)) => Some(length),
        _ => None,
    }
}

/// Writes the first pairs of the tree whose keys are at or after `start` and below `end` to `out`, as many whole ones as
/// fit, and tells the number of bytes and of pairs. An `end` of no bytes is none.
pub fn fill(
    tree: &Tree,
    start: &[u8],
    end: &[u8],
    out: &mut [u8],
    count: &mut usize,
    pairs: &mut usize,
) -> u32
    requires { KeysRise (tree_walk tree.now) }
    ensures dumped { Dumps (between start.now end.now (tree_walk tree.now)) out.old out.new count.new pairs.new result }
    ensures untold { result ≢ DONE → pairs.new ≡ pairs.old }
    ensures certain { (result ≡ DONE) ⊎ ((result ≡ SHORT) ⊎ (result ≡ ABSENT)) }
{
    let mut filling = Filling {
        out,
        end,
        at: 0,
        pairs: 0,
        stop: None,
    };
    match tree.visit_from(start, &Filler, &mut filling) {
        Ok(()) => {}
        Err(never) => match never {},
    }
    if filling.pairs > 0 {
        *count = filling.at;
        *pairs = filling.pairs;
        return DONE;
    }
    match refused(filling.stop) {
        Some(length) => {
            *count = length;
            SHORT
        }
        None => ABSENT,
    }
}

/// Writes the first pairs of the tree whose keys are at or after `start` to `out`, as `fill` does.
#[tactic(auto, using(crate::proofs::Dumps::dumps_without_end))]
pub fn fill_from(
    tree: &Tree,
    start: &[u8],
    out: &mut [u8],
    count: &mut usize,
    pairs: &mut usize,
) -> u32
    requires { KeysRise (tree_walk tree.now) }
    ensures dumped { Dumps (from start.now (tree_walk tree.now)) out.old out.new count.new pairs.new result }
    ensures untold { result ≢ DONE → pairs.new ≡ pairs.old }
    ensures certain { (result ≡ DONE) ⊎ ((result ≡ SHORT) ⊎ (result ≡ ABSENT)) }
{
    fill(tree, start, &[], out, count, pairs)
}
