//! Audits logs: finds the versions of a key that several surviving updates share.
ghost use Rattle.std.specs.Prelude.{◌≡◌, ◌<◌, ◌+◌, List, ℕ, length, filter, IsPermutation, IfOk};
ghost use Rattle.std.specs.List.{range_with_len};
ghost use Rattle.mt_words.specs.Walks.{joined};
ghost use Rattle.mt_replay.specs.Cuts.{updates_in};
ghost use Rattle.mt_replay.specs.Clashes.{AreClashes};
ghost use Rattle.mt_replay.specs.Survivors.{in_window};
ghost use Rattle.mt_recover.specs.Audit.{IsAuditOf};
ghost use Rattle.mt_recover.specs.Inputs.{IsAnswerFrom};
ghost use Rattle.mt_recover.specs.Steps.LogScans.{kept_in_window};
ghost use Rattle.mt_recover.specs.Steps.Preparing.{IsFound, IsFoundOf};

use crate::by_workers::{all_done, by_workers, concat};
use crate::dividing::divide;
use crate::found::{Found, find};
use crate::recovery::Inputs;
use crate::scans::scan_all;
use crate::workers::{Cutting, Workers};
use mt_replay::{Clash, Divided, MOST_PIECES, Pieces, pieces_make_the_audit};
use mt_scan::Source;
use mt_words::{Fault, Memory};
use std::alloc::Global;
use std::thread::Threads;

/// Finds the clashes of the log updates that survive, in order: by key, then by version. Entries of checkpoints do not
/// count. Recovers no store. The workers do not change the result.
///
/// Err: the same as for `recover`.
pub fn audit<R: Threads + Sync, S: Source + Send>(
    rt: &R,
    alloc: Global,
    inputs: Inputs<S>,
    workers: Workers,
) -> Result<Vec<Clash>, Fault>
    ensures { IsAnswerFrom S.seen inputs.logs.items inputs.parts.items (λ logs parts clashes. IsAuditOf logs parts clashes.items) result }
{
    let outcomes = scan_all(rt, alloc, inputs, workers)?;
    let found = find(alloc, outcomes)?;
    Ok(audit_found(rt, alloc, found, workers)?)
}

/// Finds the clashes of what was found.
fn audit_found<R: Threads + Sync>(
    rt: &R,
    alloc: Global,
    found: Found,
    workers: Workers,
) -> Result<Vec<Clash>, Memory>
    requires { IsFound found }
    ensures { (logs parts : List (List ℕ)) → IsFoundOf logs parts found → IfOk result (λ clashes. IsAuditOf logs parts clashes.items) }
{
    let Found { scans, start, .. } = found;
    let pieces = Pieces::new(MOST_PIECES).unwrap();
    let cutting = Cutting::Sampled(pieces);
    let (divided, _) = divide(
        rt,
        alloc,
        scans,
        start.window,
        Vec::new(alloc),
        workers,
        cutting,
    )?;
    all_clashes(rt, alloc, &divided, workers)
}

/// Finds the clashes of each piece, and puts them together in order.
fn all_clashes<R: Threads + Sync>(
    rt: &R,
    alloc: Global,
    divided: &Divided,
    workers: Workers,
) -> Result<Vec<Clash>, Memory>
    ensures { IfOk result (λ clashes. AreClashes divided.now.updates clashes.items) }
{
    let found = by_workers(
        rt,
        alloc,
        numbers(alloc, divided.pieces())?,
        workers,
        &|piece: u32| -> Result<Vec<Clash>, Memory>
            requires { piece < length divided.now.cuts + 1 }
            ensures { IfOk result (λ clashes. AreClashes (updates_in divided.entry.now.cuts piece divided.entry.now.updates) clashes.items) }
        { divided.clashes_in(alloc, piece) },
    )?;
    pieces_make_the_audit();
    concat(alloc, all_done(alloc, found)?)
}

/// Returns the numbers below `count`, in order.
fn numbers(alloc: Global, count: u32) -> Result<Vec<u32>, Memory>
    ensures { IfOk result (λ numbers. numbers.items ≡ range_with_len 0 count) }
{
    Ok((0..count).collect(alloc)?)
}
