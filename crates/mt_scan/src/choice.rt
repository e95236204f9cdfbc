//! The choice of the checkpoint to begin from.
ghost use Rattle.std.specs.Prelude.{IfOk, map};
ghost use Rattle.mt_scan.specs.PartsShown.{known_by};
ghost use Rattle.mt_scan.specs.Choice.{AreNameless};
ghost use Rattle.mt_scan.specs.Choosing.{IsChoiceOf};

use crate::checkpoint::Checkpoint;
use crate::group::group_parts;
use crate::part_scan::PartScan;
use crate::selection::{Selection, select};
use mt_words::Memory;
use std::alloc::Global;

/// The checkpoint to begin from, and the checkpoints and parts that are of no use.
#[derive(Debug, Drop)]
pub struct Choice {
    /// Of the valid checkpoints that end below the cutoff, the one with the greatest end; of several, the one with the
    /// greatest number. None if there is none.
    pub chosen: Option<Checkpoint>,
    /// The numbers of the invalid checkpoints, in rising order.
    pub skipped: Vec<u32>,
    /// The positions of the nameless parts, in rising order.
    pub nameless: Vec<usize>,
}

/// Chooses the checkpoint to begin from. The parts of all checkpoints come in any order. A checkpoint is valid if its
/// parts are all complete, agree in begin, end and the number of parts, and are numbered from 0 on, once each; if the
/// keys of its entries rise in the order of those numbers; and if its begin is at most its end. Parts are moved, none
/// is copied. This takes time n log n for n parts, and looks at the first and the last entry of each. Err: out of memory.
pub fn choose(alloc: Global, scans: Vec<PartScan>, cutoff: u64) -> Result<Choice, Memory>
    ensures { IfOk result (IsChoiceOf (map known_by scans.items) cutoff) }
{
    let nameless = nameless_among(alloc, &scans)?;
    let groups = group_parts(alloc, scans)?;
    let Selection { best, skipped } = select(alloc, groups, cutoff)?;
    Ok(Choice {
        chosen: best,
        skipped,
        nameless,
    })
}

/// Returns the positions of the nameless parts, in rising order. Err: out of memory.
fn nameless_among(alloc: Global, scans: &[PartScan]) -> Result<Vec<usize>, Memory>
    ensures { IfOk result (λ positions. AreNameless (map known_by scans.now) positions.items) }
{
    let mut positions = Vec::new(alloc);
    for (position, scan) in scans.iter().enumerate() {
        if let PartScan::Nameless = scan {
            positions.push(position)?;
        }
    }
    Ok(positions)
}
