//! The steps of recovery, taken by threads of the caller's own.
ghost use Rattle.std.specs.Prelude.{◌≡◌, [], IfSome};
ghost use Rattle.mt_board.specs.Board.{fresh_pass};
ghost use Rattle.mt_recover.specs.Hauls.{HasWorked};

use crate::asserting::{assert_bytes, assert_same};
use crate::logs::LOG_OF_THREE;
use crate::meeting::Meeting;
use mt_board::Pass;
use mt_recover::{
    Cutting, Haul, Inputs, Job, Pieces, Workers, assemble, prepare, work, write_dump,
};
use mt_scan::{MemSource, Rack};
use std::alloc::Global;
use std::sync::Wait;
use std::thread;
use std::thread::{Promise, Threads};

/// Returns the job of the log of three keys, each in a piece, and its two passes. None: out of memory.
pub fn open<R: AllocGlobal + Threads + Sync>(rt: &R) -> Option<(Job, Pass, Pass)>
    ensures first { IfSome result (λ opened. opened.1 ≡ fresh_pass opened.0.board 0) }
    ensures second { IfSome result (λ opened. opened.2 ≡ fresh_pass opened.0.board 1) }
{
    let mut rack = Rack::new(rt.alloc(), 1, 16).ok()?;
    let source = MemSource::new(LOG_OF_THREE, rack.slots().first_mut()?)?;
    let mut logs = Vec::new(rt.alloc());
    logs.push(source).ok()?;
    let parts = Vec::new(rt.alloc());
    let inputs = Inputs { logs, parts };
    let (workers, pieces) = (Workers::new(2)?, Pieces::new(3)?);
    let opened = prepare(rt, rt.alloc(), inputs, workers, Cutting::Even(pieces));
    let (job, mut passes) = opened.ok()?;
    let second = passes.pop()?;
    let first = passes.pop()?;
    Some((job, first, second))
}

/// What a thread gives back: its pass, and the haul of all pieces that it drew. None if it ran out of memory.
type Worked = Option<(Pass, Haul)>;

/// Promises that pass and haul are this job's.
#[derive(Clone, Copy)]
struct OfJob<'a>(&'a Job);

impl<'a> Promise<Worked> for OfJob<'a> {
    ghost use Rattle.std.specs.Prelude.{IfSome};
    ghost use Rattle.mt_recover.specs.Hauls.{HasWorked};

    ghost kept_by = { λ p worked. IfSome worked (λ w. HasWorked p.0.now w.0 w.1) };
}

/// Works with a pass, and returns it with the haul. None: out of memory.
fn work_with(alloc: Global, job: &Job, mut pass: Pass, gate: &Meeting) -> Worked
    requires { (pass.board ≡ job.now.board) × (pass.draws ≡ []) }
    ensures { IfSome result (λ w. HasWorked job.now w.0 w.1) }
{
    let haul = work(alloc, job, &mut pass, gate).ok()?;
    Some((pass, haul))
}

/// Lets two threads work on the job, with a pass each. None if a thread cannot be spawned.
fn work_in_scope<R: Threads + Wait + Sync>(
    rt: &R,
    alloc: Global,
    job: &Job,
    first: Pass,
    second: Pass,
    gate: &Meeting,
) -> Option<(Worked, Worked)>
    requires { (first ≡ fresh_pass job.now.board 0) × (second ≡ fresh_pass job.now.board 1) }
    ensures { IfSome result (λ both. IfSome both.0 (λ w. HasWorked job.now w.0 w.1) × IfSome both.1 (λ w. HasWorked job.now w.0 w.1)) }
{
    thread::scope(
        thread::scope_env(),
        rt,
        move |scope| -> Option<(Worked, Worked)>
            requires { (first ≡ fresh_pass job.now.board 0) × (second ≡ fresh_pass job.now.board 1) }
            ensures { IfSome result (λ both. IfSome both.0 (λ w. HasWorked job.entry.now w.0 w.1) × IfSome both.1 (λ w. HasWorked job.entry.now w.0 w.1)) }
        {
            let one = scope
                .spawn_with(OfJob(job), move || work_with(alloc, job, first, gate))
                .ok()?;
            let other = scope
                .spawn_with(OfJob(job), move || work_with(alloc, job, second, gate))
                .ok()?;
            Some((one.join(rt), other.join(rt)))
        },
    )
}

// Hauls and passes come in any order.
#[test]
fn threads_of_a_callers_own_make_the_store(rt: HostRuntime) {
    let (job, first, second) = open(&rt).expect(&rt, "a job");
    let gate = Meeting::new(2);
    let worked = work_in_scope(&rt, rt.alloc(), &job, first, second, &gate);
    let (one, other) = worked.expect(&rt, "two threads");
    let (first, one) = one.expect(&rt, "a haul");
    let (second, other) = other.expect(&rt, "a haul");
    assert_same(&rt, &gate.entries(), &(1, 2, 0x01_01_01));
    let hauls = vec![in rt.alloc(); other, one].expect(&rt, "memory");
    let passes = vec![in rt.alloc(); first, second].expect(&rt, "memory");
    let recovered = assemble(rt.alloc(), job, hauls, passes).expect(&rt, "a store");
    let mut text = Vec::new(rt.alloc());
    write_dump(recovered.store(), &mut text).expect(&rt, "memory");
    assert_bytes(&rt, "", &text, b"62: 0=31\n64: 0=32\n66: 0=33\n");
}
