//! Workers that meet: a thread that waits for another shows that there is another.
ghost use Rattle.mt_scan.specs.SourceTypes.{seen_of_memory};

use crate::asserting::assert_same;
use crate::logs::LOG_OF_THREE;
use mt_recover::{Cuts, Cutting, Gate, Inputs, Pieces, Workers, audit, check_logs, recover};
use mt_scan::{MemSource, Rack, Source, SourceFault};
use mt_words::{Fault, Key};
use std::process::Abort;
use std::sync::atomic::{AtomicU64, Ordering};
use std::thread::Threads;

/// The most times that a thread looks for the other.
const TURNS: u32 = 500_000_000;

/// Whether the count reaches the number within `TURNS` looks.
fn is_reached_in_time(count: &AtomicU64, number: u64) -> bool {
    for _turn in 0..TURNS {
        if count.load(Ordering::SeqCst) >= number {
            return true;
        }
    }
    false
}

/// A gate that holds the first worker that enters until the others have entered `wanted` times, or it has looked
/// `TURNS` times.
#[derive(Drop)]
pub struct Meeting {
    /// How often the others must enter.
    wanted: u64,
    /// The first worker, counted from 1; 0 before any has entered.
    first: AtomicU64,
    /// How often the first worker has entered, but for a first time that it waited in vain.
    own: AtomicU64,
    /// How often the others have entered.
    others: AtomicU64,
    /// A byte for each of the first eight pieces, from the lowest: how often it was entered.
    pieces: AtomicU64,
}

impl Meeting {
    /// Creates a gate that nobody has entered.
    pub fn new(wanted: u64) -> Meeting {
        Meeting {
            wanted,
            first: AtomicU64::new(0),
            own: AtomicU64::new(0),
            others: AtomicU64::new(0),
            pieces: AtomicU64::new(0),
        }
    }

    /// Returns how often the first worker has entered, how often the others have, and how often each piece was entered, a
    /// byte a piece.
    pub fn entries(&self) -> (u64, u64, u64) {
        let own = self.own.load(Ordering::SeqCst);
        let others = self.others.load(Ordering::SeqCst);
        (own, others, self.pieces.load(Ordering::SeqCst))
    }
}

impl Gate for Meeting {
    fn enter(&self, worker: u32, piece: u32) {
        let of_piece = 1_u64.wrapping_shl(piece.wrapping_mul(8));
        self.pieces.fetch_add(of_piece, Ordering::SeqCst);
        let worker = u64::from(worker).saturating_add(1);
        let first = self
            .first
            .compare_exchange(0, worker, Ordering::SeqCst, Ordering::SeqCst);
        let count = match first {
            Ok(_) => {
                if !is_reached_in_time(&self.others, self.wanted) {
                    return;
                }
                &self.own
            }
            Err(first) if first == worker => &self.own,
            Err(_) => &self.others,
        };
        count.fetch_add(1, Ordering::SeqCst);
    }
}

/// A source whose first call waits for the first call of another one.
#[derive(Drop)]
struct Waiting<'a> {
    log: MemSource<'a>,
    has_begun: bool,
    /// How many sources have begun.
    begun: &'a AtomicU64,
    /// How many have seen the other one begin.
    met: &'a AtomicU64,
}

impl Source for Waiting<'_> {
    ghost seen = { λ source. seen_of_memory source.log };

    fn advance(&mut self) -> Result<usize, SourceFault> {
        if !self.has_begun {
            self.has_begun = true;
            self.begun.fetch_add(1, Ordering::SeqCst);
            if is_reached_in_time(self.begun, 2) {
                self.met.fetch_add(1, Ordering::SeqCst);
            }
        }
        self.log.advance()
    }

    fn piece(&self) -> &[u8] {
        self.log.piece()
    }
}

/// What is asked of two sources that wait for each other.
#[derive(Clone, Copy)]
enum Call {
    Recover,
    /// To recover from them as parts, without a log.
    RecoverParts,
    Audit,
    CheckLogs,
}

/// Makes the call. Returns its fault, if any.
fn fault_of<R: Abort + AllocGlobal + Threads + Sync, S: Source + Send>(
    rt: &R,
    call: Call,
    sources: Vec<S>,
    workers: Workers,
    gate: &Meeting,
) -> Option<Fault> {
    let cutting = Cutting::Even(Pieces::new(2).expect(rt, "1 to 4,096 pieces"));
    let alloc = rt.alloc();
    let (logs, parts) = match call {
        Call::RecoverParts => (Vec::new(alloc), sources),
        _ => (sources, Vec::new(alloc)),
    };
    match call {
        Call::Audit => audit(rt, alloc, Inputs { logs, parts }, workers).err(),
        Call::CheckLogs => check_logs(rt, alloc, logs, workers, 9)
            .err()
            .map(Fault::from),
        _ => recover(rt, alloc, Inputs { logs, parts }, workers, cutting, gate).err(),
    }
}

/// Returns the log of three keys as a waiting source for each slot.
fn sources_in<'a, R: Abort + AllocGlobal>(
    rt: &R,
    rack: &'a mut Rack,
    begun: &'a AtomicU64,
    met: &'a AtomicU64,
) -> Vec<Waiting<'a>> {
    let mut sources = Vec::new(rt.alloc());
    for slot in rack.slots() {
        let source = Waiting {
            log: MemSource::new(LOG_OF_THREE, slot).expect(rt, "a full slot"),
            has_begun: false,
            begun,
            met,
        };
        sources.push(source).expect(rt, "memory");
    }
    sources
}

/// Makes the call with two logs of three keys, which wait for each other. Returns how many of them met, and its fault.
fn meet<R: Abort + AllocGlobal + Threads + Sync>(
    rt: &R,
    call: Call,
    workers: u32,
    gate: &Meeting,
) -> (u64, Option<Fault>) {
    let workers = Workers::new(workers).expect(rt, "1 to 64 workers");
    let (begun, met) = (AtomicU64::new(0), AtomicU64::new(0));
    let mut rack = Rack::new(rt.alloc(), 2, 16).expect(rt, "memory");
    let sources = sources_in(rt, &mut rack, &begun, &met);
    let fault = fault_of(rt, call, sources, workers, gate);
    (met.load(Ordering::SeqCst), fault)
}

// Each worker has a piece. The first that enters waits for the other.
#[test]
fn two_workers_meet_in_scans_and_at_a_gate(rt: HostRuntime) {
    let gate = Meeting::new(1);
    assert_same(&rt, &meet(&rt, Call::Recover, 2, &gate), &(2, None));
    assert_same(&rt, &gate.entries(), &(1, 1, 0x01_01));
}

/// Recovers the log of three keys with one worker, cut so. Returns the entries at the gate.
fn entries_of_one<R: Abort + AllocGlobal + Threads + Sync>(
    rt: &R,
    cutting: Cutting,
) -> (u64, u64, u64) {
    let mut rack = Rack::new(rt.alloc(), 1, 16).expect(rt, "memory");
    let slot = rack.slots().first_mut().expect(rt, "a slot");
    let source = MemSource::new(LOG_OF_THREE, slot).expect(rt, "a full slot");
    let mut logs = Vec::new(rt.alloc());
    logs.push(source).expect(rt, "memory");
    let parts = Vec::new(rt.alloc());
    let (one, gate) = (Workers::new(1).expect(rt, "one worker"), Meeting::new(0));
    let recovered = recover(rt, rt.alloc(), Inputs { logs, parts }, one, cutting, &gate);
    assert_same(rt, &recovered.expect(rt, "a store").report().keys, &3);
    gate.entries()
}

#[test]
fn a_worker_enters_each_piece_that_is_asked_for_once(rt: HostRuntime) {
    let key = Key::new(Vec::new(rt.alloc())).expect(&rt, "a key");
    let cuts = Cuts::new(vec![in rt.alloc(); key].expect(&rt, "memory"));
    let cutting = Cutting::At(cuts.expect(&rt, "keys that rise"));
    assert_same(&rt, &entries_of_one(&rt, cutting), &(2, 0, 0x01_01));
    let three = Cutting::Sampled(Pieces::new(3).expect(&rt, "three pieces"));
    assert_same(&rt, &entries_of_one(&rt, three), &(3, 0, 0x01_01_01));
}

// One worker reads one log after the other: then the first sees no other begin, and the second has seen it.
#[test]
fn an_audit_and_a_check_read_as_many_logs_at_once_as_they_have_workers(rt: HostRuntime) {
    let gate = Meeting::new(0);
    for workers in 1..3 {
        for call in [Call::Audit, Call::CheckLogs] {
            let met = meet(&rt, call, workers, &gate);
            assert_same(&rt, &met, &(u64::from(workers), None));
        }
    }
}

#[test]
fn without_a_log_no_part_is_read(rt: HostRuntime) {
    let met = meet(&rt, Call::RecoverParts, 1, &Meeting::new(0));
    assert_same(&rt, &met, &(0, Some(Fault::NoLogs)));
}
