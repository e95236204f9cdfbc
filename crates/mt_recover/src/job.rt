//! Recovery as a job, whose pieces are claimed, replayed and assembled into the store.
ghost use Rattle.std.specs.Prelude.{◌≡◌, ◌+◌, ◌<◌, length, IfOk, IfErr};
ghost use Rattle.mt_board.specs.Board.{fresh_passes};
ghost use Rattle.mt_recover.specs.Inputs.{IsAnsweredBy, OfSources};
ghost use Rattle.mt_recover.specs.Job.{AreCutBy, JobView};
ghost use Rattle.mt_recover.specs.Prepared.{IsPreparedOf};

use crate::prepared::Prepared;
use crate::recovery::Inputs;
use crate::workers::{Cutting, MOST_WORKERS, Workers};
use mt_board::{Board, MOST_NUMBERS, MOST_PASSES, Pass};
use mt_replay::MOST_PIECES;
use mt_scan::Source;
use mt_words::{Fault, Memory};
use std::alloc::Global;
use std::marker::Model;
use std::thread::Threads;

/// The work that is left after the scans of logs and parts. Any threads replay its pieces, which are ranges of keys;
/// then the pieces are assembled. Whoever holds a `Pass` of the job may `work` on it.
#[derive(Drop)]
pub struct Job {
    pub(crate) prepared: Prepared,
    /// The board that gives out the numbers of the pieces.
    pub(crate) board: Board,
}

impl Model for Job {
    ghost Value = { JobView };

    ghost view = { λ j. record { prepared = j.prepared; board = j.board } };

    ghost invariant = { λ j. j.board.total ≡ length j.prepared.cuts + 1 };
}

/// Scans the sources with these workers, and prepares the job of their store. Returns the job and a pass for each
/// worker, in the order of their numbers.
///
/// Err: the same as for `recover`.
pub fn prepare<R: Threads + Sync, S: Source + Send>(
    rt: &R,
    alloc: Global,
    inputs: Inputs<S>,
    workers: Workers,
    cutting: Cutting,
) -> Result<(Job, Vec<Pass>), Fault>
    ensures job { IfOk result (λ opened. OfSources S.seen inputs.logs.items inputs.parts.items (λ logs parts. IsPreparedOf logs parts opened.0.prepared)) }
    ensures cuts { IfOk result (λ opened. AreCutBy cutting opened.0.prepared.updates opened.0.prepared.cuts) }
    ensures pieces { IfOk result (λ opened. opened.0.board.total ≡ length opened.0.prepared.cuts + 1) }
    ensures passes { IfOk result (λ opened. (opened.0.board.passes ≡ workers) × (opened.1.items ≡ fresh_passes opened.0.board workers)) }
    ensures some { IfOk result (λ opened. 0 < opened.0.board.passes) }
    ensures fault { IfErr result (IsAnsweredBy S.seen inputs.logs.items inputs.parts.items) }
{
    let prepared = Prepared::from_sources(rt, alloc, inputs, workers, cutting)?;
    Ok(open(alloc, prepared, workers)?)
}

// The board of a job has a number for each piece and a pass for each worker.
const _: () = prove!(MOST_PIECES == MOST_NUMBERS);

const _: () = prove!(MOST_WORKERS == MOST_PASSES);

/// Opens the board of a job, and returns the job and its passes. Err: out of memory.
fn open(alloc: Global, prepared: Prepared, workers: Workers) -> Result<(Job, Vec<Pass>), Memory>
    ensures prepared { IfOk result (λ opened. opened.0.prepared ≡ prepared) }
    ensures pieces { IfOk result (λ opened. opened.0.board.total ≡ length prepared.cuts + 1) }
    ensures passes { IfOk result (λ opened. (opened.0.board.passes ≡ workers) × (opened.1.items ≡ fresh_passes opened.0.board workers)) }
    ensures some { IfOk result (λ opened. 0 < opened.0.board.passes) }
{
    let Ok((board, passes)) = Board::open(alloc, prepared.pieces(), workers.count()) else {
        return Err(Memory);
    };
    Ok((Job { prepared, board }, passes))
}
