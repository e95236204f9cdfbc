//! Tests of what no contract says: that calls succeed.
ghost use Rattle.std.specs.Prelude.{◌≡◌, IfSome};

use crate::{Crew, First, Found, Keeper, KeeperFault, LentLog, Restart};
use mt_record::{Given, encode_log_header_3, encode_record, read_log};
use mt_words::Record;
use mt_writer::WriterFault;
use std::alloc::Global;
use std::process::Abort;
use std::thread::{Threads, join};

/// Returns the keeper of a new folder.
fn keeper(alloc: Global, rt: &impl Abort) -> Keeper {
    First::begin(alloc, 7).expect(rt, "memory").created()
}

/// Appends all that log 0 holds, and syncs it.
fn sync(alloc: Global, keeper: &mut Keeper) -> Result<(), KeeperFault> {
    let _ = keeper.take(0, Vec::new(alloc))?;
    keeper.synced(0)
}

#[test]
fn what_is_marked_and_synced_may_be_acknowledged(rt: HostRuntime) {
    let alloc = rt.alloc();
    let mut keeper = keeper(alloc, &rt);
    let columns = [Given {
        number: 0,
        bytes: b"red",
    }];
    assert_eq!(&rt; keeper.put(0, b"k", &columns), Ok(2));
    assert_eq!(&rt; keeper.remove(0, b"k"), Ok(3));
    assert_eq!(&rt; keeper.mark(0), Ok(()));
    assert_eq!(&rt; keeper.acknowledged_below(), 1);
    assert_eq!(&rt; sync(alloc, &mut keeper), Ok(()));
    assert_eq!(&rt; keeper.acknowledged_below(), 4);
}

#[test]
fn acknowledgements_wait_for_a_new_log(rt: HostRuntime) {
    let alloc = rt.alloc();
    let mut keeper = keeper(alloc, &rt);
    assert_eq!(&rt; keeper.begin_log(alloc), Ok(1));
    assert_eq!(&rt; keeper.created(1), Ok(()));
    assert_eq!(&rt; keeper.erase(0, b"k", &[1]), Ok(2));
    assert_eq!(&rt; keeper.mark(0), Ok(()));
    assert_eq!(&rt; sync(alloc, &mut keeper), Ok(()));
    assert_eq!(&rt; keeper.acknowledged_below(), 2);
}

#[test]
fn a_segment_follows_once_all_is_synced(rt: HostRuntime) {
    let alloc = rt.alloc();
    let mut keeper = keeper(alloc, &rt);
    assert_eq!(&rt; keeper.mark(0), Ok(()));
    assert_eq!(&rt; keeper.begin_segment(alloc, 0), Err(KeeperFault::Early));
    assert_eq!(&rt; sync(alloc, &mut keeper), Ok(()));
    assert_eq!(&rt; keeper.begin_segment(alloc, 0), Ok(1));
    assert_eq!(&rt; keeper.created(1), Ok(()));
    assert_eq!(&rt; keeper.mark(1), Ok(()));
}

/// The log of worker 0, with a mark at 1.
fn marked_log(alloc: Global, rt: &impl Abort) -> Vec<u8> {
    let mut log = Vec::new(alloc);
    encode_log_header_3(0, 0, 0, &mut log).expect(rt, "memory");
    encode_record(&Record::mark(1), &mut log).expect(rt, "memory");
    log
}

/// A restart at cutoff 1 from a recovery that had this number of logs and this greatest version.
fn restart(alloc: Global, logs: usize, version: u64) -> Restart {
    let found = Found {
        logs,
        cutoff: 1,
        version,
        begin: 0,
    };
    Restart::new(alloc, found, 0, 9)
}

#[test]
fn a_restart_goes_on_with_a_log_once(rt: HostRuntime) {
    let alloc = rt.alloc();
    let log = marked_log(alloc, &rt);
    let mut restart = restart(alloc, 1, 0);
    assert_eq!(&rt; restart.add(alloc, &log), Ok(0));
    assert_eq!(&rt; restart.add(alloc, &log), Err(KeeperFault::Log));
    let Ok(mut keeper) = restart.done() else {
        panic!(&rt; "the keeper does not go on");
    };
    assert_eq!(&rt; keeper.remove(0, b"k"), Ok(1));
}

#[test]
fn a_restart_goes_on_above_each_version(rt: HostRuntime) {
    let alloc = rt.alloc();
    let log = marked_log(alloc, &rt);
    let mut restart = restart(alloc, 1, 20);
    assert_eq!(&rt; restart.add(alloc, &log), Ok(0));
    let Ok(mut keeper) = restart.done() else {
        panic!(&rt; "the keeper does not go on");
    };
    assert_eq!(&rt; keeper.remove(0, b"k"), Ok(21));
}

#[test]
fn a_restart_does_not_go_on_without_a_log(rt: HostRuntime) {
    let alloc = rt.alloc();
    let log = marked_log(alloc, &rt);
    let mut restart = restart(alloc, 2, 0);
    assert_eq!(&rt; restart.add(alloc, &log), Ok(0));
    assert!(&rt; restart.done().is_err());
}

#[test]
fn a_restart_goes_on_with_blocks(rt: HostRuntime) {
    let alloc = rt.alloc();
    let first = First::begin(alloc, 7).expect(&rt, "memory");
    let mut file = Vec::new(alloc);
    file.extend_from_slice(first.bytes()).expect(&rt, "memory");
    let mut restart = restart(alloc, 1, 0);
    assert_eq!(&rt; restart.add(alloc, &file), Ok(0));
    let Ok(mut keeper) = restart.done() else {
        panic!(&rt; "the keeper does not go on");
    };
    assert_eq!(&rt; keeper.remove(0, b"k"), Ok(1));
    let block = keeper.take(0, Vec::new(alloc)).expect(&rt, "a block");
    file.extend_from_slice(&block).expect(&rt, "memory");
    let log = read_log(alloc, &file).expect(&rt, "a log");
    assert_eq!(&rt; log.front.count, 2);
}

#[test]
fn one_write_is_in_flight(rt: HostRuntime) {
    let alloc = rt.alloc();
    let mut keeper = keeper(alloc, &rt);
    assert_eq!(&rt; keeper.mark(0), Ok(()));
    assert!(&rt; keeper.take(0, Vec::new(alloc)).is_ok());
    assert!(&rt; keeper.take(0, Vec::new(alloc)).is_err());
}

#[test]
fn a_failed_keeper_takes_nothing(rt: HostRuntime) {
    let mut keeper = keeper(rt.alloc(), &rt);
    keeper.failed();
    let failed = KeeperFault::Writer(WriterFault::Failed);
    assert_eq!(&rt; keeper.mark(0), Err(failed));
    assert_eq!(&rt; keeper.abandon_checkpoint(), Err(failed));
}

/// Lends the two logs of a server.
fn lend_two(alloc: Global, rt: &impl Abort) -> (Crew, LentLog, LentLog)
    ensures first { result.1.table ≡ result.0.table }
    ensures second { result.2.table ≡ result.0.table }
{
    let mut keeper = keeper(alloc, rt);
    let number = keeper.begin_log(alloc).expect(rt, "a second log");
    keeper.created(number).expect(rt, "a file");
    let Ok((crew, mut logs)) = keeper.lend(alloc) else {
        panic!(rt; "no logs were lent");
    };
    let second = logs.pop().expect(rt, "a second log");
    let first = logs.pop().expect(rt, "a first log");
    (crew, first, second)
}

/// Puts `times` times, and returns the log. None: a put was refused.
fn put_often(crew: &Crew, mut log: LentLog, times: usize) -> Option<LentLog>
    requires { log.table ≡ crew.now.table }
    ensures { IfSome result (λ l. l.table ≡ crew.now.table) }
{
    let columns = [Given {
        number: 0,
        bytes: b"red",
    }];
    for _ in 0..times {
        crew.put(&mut log, b"k", &columns).ok()?;
    }
    Some(log)
}

/// Lets a thread put to each of two logs, at once. None: a put was refused.
fn put_by_two<R: Threads + Sync>(
    rt: &R,
    crew: &Crew,
    first: LentLog,
    second: LentLog,
) -> Option<(LentLog, LentLog)>
    requires first { first.table ≡ crew.now.table }
    requires second { second.table ≡ crew.now.table }
    ensures first { IfSome result (λ logs. logs.0.table ≡ crew.now.table) }
    ensures second { IfSome result (λ logs. logs.1.table ≡ crew.now.table) }
{
    let (first, second) = join(
        rt,
        || -> Option<LentLog>
            requires { first.table ≡ crew.now.table }
            ensures { IfSome result (λ l. l.table ≡ crew.entry.now.table) }
        { put_often(crew, first, 900) },
        || -> Option<LentLog>
            requires { second.table ≡ crew.now.table }
            ensures { IfSome result (λ l. l.table ≡ crew.entry.now.table) }
        { put_often(crew, second, 900) },
    );
    Some((first?, second?))
}

#[test]
fn two_threads_put_at_once(rt: HostRuntime) {
    let alloc = rt.alloc();
    let (crew, first, second) = lend_two(alloc, &rt);
    let (first, second) = put_by_two(&rt, &crew, first, second).expect(&rt, "puts");
    let logs = vec![in alloc; first, second].expect(&rt, "memory");
    let Ok(mut keeper) = crew.close(alloc, logs) else {
        panic!(&rt; "the crew was not closed");
    };
    let columns = [Given {
        number: 0,
        bytes: b"red",
    }];
    assert_eq!(&rt; keeper.put(0, b"k", &columns), Ok(1802));
}

#[test]
fn a_thread_may_acknowledge_what_all_have_synced(rt: HostRuntime) {
    let alloc = rt.alloc();
    let (crew, mut first, mut second) = lend_two(alloc, &rt);
    let columns = [Given {
        number: 0,
        bytes: b"red",
    }];
    assert_eq!(&rt; crew.put(&mut first, b"k", &columns), Ok(2));
    assert_eq!(&rt; crew.mark(&mut first), Ok(()));
    assert_eq!(&rt; crew.mark(&mut second), Ok(()));
    assert!(&rt; crew.take(&mut first, Vec::new(alloc)).is_ok());
    assert_eq!(&rt; crew.synced(&mut first), Ok(()));
    assert_eq!(&rt; crew.acknowledged_below(&mut first), 2);
    assert!(&rt; crew.take(&mut second, Vec::new(alloc)).is_ok());
    assert_eq!(&rt; crew.synced(&mut second), Ok(()));
    assert_eq!(&rt; crew.acknowledged_below(&mut first), 3);
}
