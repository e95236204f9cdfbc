//! Assembles the store of a job from the pieces that workers hauled.
ghost use Rattle.std.specs.Prelude.{◌≡◌, ◌<◌, ◌≤◌, ℕ, List, length, map, All, IfOk, IfErr, OnOk, IsPermutation};
ghost use Rattle.std.specs.List.Sorted.{IsNonDecreasingBy};
ghost use Rattle.mt_words.specs.declared.fault.Fault.TheVariants as faults;
ghost use Rattle.mt_words.specs.Walks.{KeysRise, joined};
ghost use Rattle.mt_tree.specs.Borders.{layer_walk};
ghost use Rattle.mt_recover.specs.Steps.Assembling.{all_held, AreDraftsOf, IsLacking};
ghost use Rattle.mt_recover.specs.Hauls.{AllCameBack, AreAllHeld, IsHaulOf, IsLeftOut};
ghost use Rattle.mt_recover.specs.Prepared.{IsMadeOf, IsPreparedOf};
ghost use Rattle.mt_recover.specs.Report.{IsRecoveredOf};

use crate::by_workers::close;
use crate::haul::{Haul, Piece};
use crate::job::Job;
use crate::recovery::Recovered;
use mt_board::Pass;
use mt_replay::pieces_make_the_walk;
use mt_tree::Draft;
use mt_words::{Fault, Memory};
use std::alloc::Global;

/// Assembles the store of the job and its report. The hauls may come in any order. A pass that does not come back is
/// not a fault.
///
/// Err: `Missing` with the least piece that no haul holds, or `Memory`.
pub fn assemble(
    alloc: Global,
    job: Job,
    hauls: Vec<Haul>,
    passes: Vec<Pass>,
) -> Result<Recovered, Fault>
    requires hauls { All (IsHaulOf job) hauls.items }
    requires passes { All (λ pass. pass.board ≡ job.board) passes.items }
    ensures store { IfOk result (IsMadeOf job.prepared) }
    ensures recovered { (logs parts : List (List ℕ)) → IsPreparedOf logs parts job.prepared → IfOk result (IsRecoveredOf logs parts) }
    ensures held { OnOk result (AreAllHeld job hauls.items) }
    ensures missing { IfErr result (IsLeftOut job hauls.items) }
    ensures drawn { AllCameBack job hauls.items passes.items → IfErr result (λ fault. fault ≡ faults.Memory) }
{
    let Job { prepared, board } = job;
    close(board, passes);
    let pieces = by_number(pieces_of(alloc, hauls)?);
    let drafts = in_order(alloc, pieces, prepared.pieces())?;
    pieces_make_the_walk();
    Ok(prepared.finish(join_all(alloc, drafts)?)?)
}

/// Returns the pieces of all hauls.
fn pieces_of(alloc: Global, hauls: Vec<Haul>) -> Result<Vec<Piece>, Memory>
    ensures { IfOk result (λ pieces. pieces.items ≡ all_held hauls.items) }
{
    let mut pieces = Vec::new(alloc);
    for haul in hauls {
        let Haul {
            of: _,
            pieces: mut held,
        } = haul;
        pieces.append(&mut held)?;
    }
    Ok(pieces)
}

/// Sorts the pieces by their numbers.
fn by_number(pieces: Vec<Piece>) -> Vec<Piece>
    ensures same { IsPermutation pieces.items result.items }
    ensures sorted { IsNonDecreasingBy (λ piece. piece.number) result.items }
{
    let mut pieces = pieces;
    pieces.sort_unstable_by_key(|piece| piece.number);
    pieces
}

/// Returns the drafts of sorted pieces, one for each number below `count`. Of two pieces with the same number it takes
/// the first. Err: `Missing` with the least number that no piece has, or `Memory`.
fn in_order(alloc: Global, pieces: Vec<Piece>, count: u32) -> Result<Vec<Draft>, Fault>
    requires sorted { IsNonDecreasingBy (λ piece. piece.number) pieces.items }
    requires within { All (λ piece. piece.number < count) pieces.items }
    ensures long { IfOk result (λ drafts. length drafts.items ≡ count) }
    ensures drafts { IfOk result (λ drafts. AreDraftsOf pieces.items drafts.items) }
    ensures missing { IfErr result (IsLacking pieces.items count) }
{
    let mut drafts = Vec::new(alloc);
    for piece in pieces {
        let Piece { number, draft } = piece;
        if number as usize != drafts.len() {
            continue;
        }
        drafts.push(draft)?;
    }
    if drafts.len() < count as usize {
        let piece = drafts.len() as u32;
        return Err(Fault::Missing { piece });
    }
    Ok(drafts)
}

/// Joins the drafts into one, in their order.
pub(crate) fn join_all(alloc: Global, drafts: Vec<Draft>) -> Result<Draft, Memory>
    requires { KeysRise (joined (map layer_walk drafts.items)) }
    ensures { IfOk result (λ whole. layer_walk whole ≡ joined (map layer_walk drafts.items)) }
{
    let mut whole = Draft::new(alloc);
    for draft in drafts {
        whole = Draft::join(whole, draft)?;
    }
    Ok(whole)
}
