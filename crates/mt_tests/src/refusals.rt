//! Tests of what happens when memory runs out. Run alone, they see no failed allocation. `tests/failures` makes
//! their first allocation fail, then their second, and so on. Each run must give the expected result or `Memory`.
//! Recoveries and encoders run out of memory in the cases that it tries.
ghost use Rattle.std.specs.Prelude.{◌≡◌, IfSome};
ghost use Rattle.mt_recover.specs.Hauls.{IsHaulOf};

use crate::asserting::assert_same;
use crate::claiming::open;
use crate::logs::{LATE_LOG, LOG_OF_THREE, PART};
use crate::meeting::Meeting;
use mt_board::Pass;
use mt_recover::{Haul, Job, assemble, recover_logs, work};
use mt_replay::{Cell, Cuts, Pieces, SortedUpdates, Window, clashes, replay_piece};
use mt_scan::{MemSource, Rack, choose, scan_bytes, scan_log, scan_part};
use mt_tree::{Draft, Wanted, above};
use mt_words::{Fault, Key, Memory, PackedColumns, Update};
use std::alloc::Global;
use std::fmt::Debug;
use std::process::Abort;
use std::thread::Threads;

/// Scans a log and a part. Returns the number of updates, and the number of the chosen checkpoint.
fn scan_both(alloc: Global) -> Result<(usize, Option<u32>), Fault> {
    let mut rack = Rack::new(alloc, 1, 16)?;
    let slot = rack.slots().first_mut().ok_or(Fault::NoLogs)?;
    let mut log = MemSource::new(LATE_LOG, slot).ok_or(Fault::NoLogs)?;
    let scan = scan_log(alloc, &mut log, 0)?;
    let mut rack = Rack::new(alloc, 1, 16)?;
    let slot = rack.slots().first_mut().ok_or(Fault::NoLogs)?;
    let mut part = MemSource::new(PART, slot).ok_or(Fault::NoLogs)?;
    let parts = vec![in alloc; scan_part(alloc, &mut part, 0)?]?;
    let choice = choose(alloc, parts, scan.front.last())?;
    let number = choice.chosen.map(|chosen| chosen.number);
    Ok((scan.updates.len(), number))
}

/// A window that has the updates of all logs.
const ALL: Window = Window {
    begin: 0,
    cutoff: 9,
};

/// Returns the updates of the log of three keys at this position.
fn updates_at(alloc: Global, log: usize) -> Result<Vec<Update>, Fault> {
    Ok(
        scan_bytes(alloc, LOG_OF_THREE, log)?
            .updates
            .into_vec(alloc)?,
    )
}

/// Returns the number of clashes of two such logs.
fn clashes_of_two(alloc: Global) -> Result<usize, Fault> {
    let logs = [updates_at(alloc, 0)?, updates_at(alloc, 1)?];
    Ok(clashes(alloc, &logs, ALL)?.len())
}

/// Replays the last update of the log alone. Returns whether that leaves its column.
fn replay_last(alloc: Global) -> Result<bool, Fault> {
    let mut cell = Cell::empty(alloc);
    if let Some(update) = updates_at(alloc, 0)?.pop() {
        cell.apply(update);
    }
    Ok(cell.columns()?.get(0) == Some(b"3"))
}

/// Cuts the updates of the log into two pieces by a sample, which has all its keys, and replays the second. Returns its
/// number of keys.
fn replay_second(alloc: Global) -> Result<usize, Fault> {
    let lists = [SortedUpdates::of(alloc, updates_at(alloc, 0)?, ALL)?];
    let pieces = Pieces::new(2).ok_or(Fault::NoLogs)?;
    let cuts = Cuts::sampled(alloc, &[], &lists, pieces)?;
    let piece = cuts.pieces() - 1;
    Ok(replay_piece(alloc, &lists, &cuts, piece)?.len())
}

/// Returns the draft of this key, without columns.
fn draft_of(alloc: Global, key: &[u8]) -> Result<Draft, Memory> {
    let mut pairs = Vec::new(alloc);
    if let Some(key) = Key::new(Vec::from_slice(alloc, key)?) {
        pairs.push((key, PackedColumns::new(alloc)))?;
    }
    Draft::build(alloc, pairs)
}

/// Returns the number of layers of the tree of two keys, and the number of its pairs from the second key on.
fn join_two(alloc: Global) -> Result<(u64, usize), Fault> {
    let first = draft_of(alloc, b"aaaaaaaab")?;
    let second = draft_of(alloc, b"aaaaaaaac")?;
    if !above(&first, &second) {
        return Err(Fault::NoLogs);
    }
    let tree = Draft::join(first, second)?.finish()?;
    let hits = tree.getrange(b"aaaaaaaac", 2, Wanted::all())?;
    Ok((tree.layers(), hits.len()))
}

/// Returns the number of pairs of the log's store from the second key on.
fn range_of_store(alloc: Global) -> Result<usize, Fault> {
    let recovered = recover_logs(alloc, &[LOG_OF_THREE])?;
    Ok(recovered.store().getrange(b"c", 9, Wanted::all())?.len())
}

/// Checks that the answer is the expected one, or that memory ran out.
fn assert_answer<T: PartialEq + Debug + Drop>(
    rt: &impl Abort,
    answer: Result<T, Fault>,
    expected: &T,
) {
    match answer {
        Ok(found) => assert_same(rt, &found, expected),
        Err(fault) => assert_same(rt, &fault, &Fault::Memory),
    }
}

#[test]
fn a_refused_growth_of_a_step_is_memory(rt: HostRuntime) {
    let alloc = rt.alloc();
    assert_answer(&rt, scan_both(alloc), &(2, Some(1)));
    assert_answer(&rt, clashes_of_two(alloc), &3);
    assert_answer(&rt, replay_last(alloc), &true);
    assert_answer(&rt, replay_second(rt.alloc()), &2);
    assert_answer(&rt, join_two(alloc), &(2, 1));
    assert_answer(&rt, range_of_store(alloc), &2);
}

/// Works with the pass, by the gate. None: out of memory.
fn haul_of(alloc: Global, job: &Job, pass: &mut Pass, gate: &Meeting) -> Option<Haul>
    requires { pass.old.board ≡ job.now.board }
    ensures haul { IfSome result (IsHaulOf job.now) }
    ensures pass { pass.new.board ≡ pass.old.board }
{
    work(alloc, job, pass, gate).ok()
}

/// Returns the fault of a job that is assembled from this haul alone. None: there is none, or out of memory before.
fn fault_of_rest(alloc: Global, job: Job, rest: Haul, first: Pass, second: Pass) -> Option<Fault>
    requires haul { IsHaulOf job rest }
    requires passes { (first.board ≡ job.board) × (second.board ≡ job.board) }
{
    let hauls = vec![in alloc; rest].ok()?;
    let passes = vec![in alloc; first, second].ok()?;
    assemble(alloc, job, hauls, passes).err()
}

/// How a first pass ended early, and what was left: its fault, the entries at the gate by it, by a second pass then, and
/// of each piece, and the fault of the assembly.
type Left = (Fault, (u64, u64, u64), Option<Fault>);

/// Works on a log of three keys, each in a piece, with one pass, which runs out of memory, and then with another. None:
/// the first pass did not run out of memory, or something else did.
fn left_by_first<R: AllocGlobal + Threads + Sync>(rt: &R) -> Option<Left> {
    let (job, mut first, mut second) = open(rt)?;
    let gate = Meeting::new(0);
    let refused = work(rt.alloc(), &job, &mut first, &gate).err()?;
    let rest = haul_of(rt.alloc(), &job, &mut second, &gate)?;
    let fault = fault_of_rest(rt.alloc(), job, rest, first, second);
    Some((refused, gate.entries(), fault))
}

/// No haul has piece 0.
const MISSING: Option<Fault> = Some(Fault::Missing { piece: 0 });

/// Each result of `left_by_first`: the first pass ran out of memory in piece 0, in piece 1 or in piece 2. It entered the
/// gate before, since `work` allocates only in a replay.
const LEFT: [Left; 3] = [
    (Fault::Memory, (1, 2, 0x01_01_01), MISSING),
    (Fault::Memory, (2, 1, 0x01_01_01), MISSING),
    (Fault::Memory, (3, 0, 0x01_01_01), MISSING),
];

// `tests/failures` wants each of the lines that this test writes.
#[test]
fn a_refused_growth_of_work_leaves_its_pieces_missing(rt: HostRuntime) {
    if let Some(left) = left_by_first(&rt) {
        assert!(rt; LEFT.contains(&left), "{left:?}");
        eprintln!(rt; "reached: {} of 3 pieces", left.1.0).expect(&rt, "standard error");
    }
}
