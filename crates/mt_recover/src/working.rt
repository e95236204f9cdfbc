//! What a worker does with a job.
ghost use Rattle.std.specs.Prelude.{true, ◌≡◌, ◌++◌, IfOk, IfErr};
ghost use Rattle.mt_words.specs.declared.fault.Fault.TheVariants as faults;
ghost use Rattle.mt_recover.specs.Hauls.{IsHaulOf, numbers};

use crate::Gate;
use crate::haul::{Haul, Piece};
use crate::job::Job;
use mt_board::Pass;
use mt_words::Fault;
use std::alloc::Global;
use std::snapshot::Snapshot;

/// Claims pieces of the job until none is left. Enters each at the gate, and then replays it. Returns the haul of the
/// pieces drawn in this call.
///
/// Err: `Memory`. The pieces drawn in this call are then lost.
#[tactic(auto, using(mt_board::proofs::Drawing::left_falls))]
pub fn work<G: Gate>(alloc: Global, job: &Job, pass: &mut Pass, gate: &G) -> Result<Haul, Fault>
    requires { pass.old.board ≡ job.now.board }
    ensures haul { IfOk result (IsHaulOf job.now) }
    ensures drawn { IfOk result (λ haul. pass.new ≡ record pass.old { draws = pass.old.draws ++ numbers haul; done = true }) }
    ensures rest { pass.new ≡ record pass.old { draws = pass.new.draws; done = pass.new.done } }
    ensures fault { IfErr result (λ fault. fault ≡ faults.Memory) }
{
    let worker = pass.number();
    let mut pieces = Vec::new(alloc);
    while let Some(number) = job.board.claim(pass) {
        gate.enter(worker, number);
        let draft = job.prepared.replay(alloc, number)?;
        pieces.push(Piece { number, draft })?;
    }
    Ok(Haul {
        of: Snapshot::of(job),
        pieces,
    })
}
