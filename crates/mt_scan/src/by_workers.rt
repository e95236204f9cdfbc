//! Scans of one log by several threads.
ghost use Rattle.std.specs.Prelude.{◌≡◌, ◌++◌, [], List, ℕ, false, map, All, IfOk, IfErr, OnErr, IsTrue};
ghost use Rattle.std.specs.List.{AllZip};
ghost use denote.Param.Send.{IsSync};
ghost use Rattle.mt_words.specs.Walks.{joined};
ghost use Rattle.mt_scan.specs.Scans.{IsScanFault, OfTold, failures_of};
ghost use Rattle.mt_scan.specs.Dropping.{IsSharedScan, HasLooked};
ghost use Rattle.mt_scan.specs.Steps.DroppingFeeds.{HasStopped};
ghost use Rattle.mt_scan.specs.Steps.Feeding.{IsFedAbove};
ghost use Rattle.mt_scan.specs.Steps.Stretches.{IsAhead, IsChecked, IsRead};

use crate::dropping_feed::DroppingFeed;
use crate::log_scan::LogScan;
use crate::sharing::note_last;
use crate::source::Source;
use crate::stretches::Reader;
use mt_board::{Board, Pass};
use mt_record::{KeptRecords, LogFeed};
use mt_words::{Fault, Memory};
use std::alloc::Global;
use std::thread;
use std::thread::Threads;

/// A stretch of a log, and what was read of it ahead.
#[derive(Drop)]
struct Checked {
    bytes: Vec<u8>,
    /// A feed that began behind a header and was fed the stretch. None if the header was not read yet.
    ahead: Option<LogFeed<KeptRecords>>,
}

/// What the threads did in a round.
#[derive(Drop)]
struct Round<S> {
    reader: Reader<S>,
    /// The stretches that were read from the source.
    read: Vec<Vec<u8>>,
    /// The stretches that were read in the round before.
    checked: Vec<Checked>,
}

/// Does what `scan_shared` does, on this many threads, or two if they are fewer: in each round one thread reads the next
/// stretches of the log from the source, and each of the others checks a stretch of the round before. It looks at the
/// board once a round. Err: the same as for `scan_shared`.
pub fn scan_by_workers<R: Threads + Sync, S: Source + Send>(
    rt: &R,
    alloc: Global,
    source: S,
    log: usize,
    threads: usize,
    board: &Board,
    pass: &mut Pass,
) -> Result<LogScan, Fault>
    requires { pass.old.board ≡ board.now }
    ensures scan { IfOk result (λ scan. OfTold (S.seen source).told (λ bytes. IsSharedScan log pass.old pass.new bytes scan)) }
    ensures fault { IfErr result (λ fault. OfTold (S.seen source).told (λ bytes. IsScanFault log bytes fault)) }
    ensures unnoted { OnErr result (HasLooked pass.old pass.new × (pass.new.noted ≡ pass.old.noted)) }
    ensures steady { IsTrue (S.seen source).steady → failures_of result ≡ 0 }
{
    let mut feed = DroppingFeed::new(alloc);
    let mut limit = board.least(pass);
    let (mut reader, mut stretches) = Reader::new(alloc, source).read(alloc, 1)?;
    'rounds: while !stretches.is_empty() {
        let done = read_and_check(rt, alloc, threads, reader, &feed, stretches)?;
        if !feed_checked(&mut feed, done.checked, limit) {
            return feed.finish(log);
        }
        reader = done.reader;
        stretches = done.read;
        limit = board.least(pass);
    }
    if reader.failed {
        return Err(Fault::Source { log });
    }
    let _ = feed.feed_below(&[], limit);
    let scan = feed.finish(log)?;
    note_last(board, pass, &scan);
    Ok(scan)
}

/// Reads the next stretches, and checks the last ones. Err: out of memory.
fn read_and_check<R: Threads + Sync, S: Source + Send>(
    rt: &R,
    alloc: Global,
    threads: usize,
    reader: Reader<S>,
    feed: &DroppingFeed,
    stretches: Vec<Vec<u8>>,
) -> Result<Round<S>, Memory>
    ensures reads { IfOk result (λ done. IsRead S.seen reader done.reader (map (λ stretch. stretch.items) done.read.items)) }
    ensures checked { IfOk result (λ done. AllZip (λ stretch one. IsChecked feed.now stretch.items one) stretches.items done.checked.items) }
{
    let count = threads.saturating_sub(1).max(1);
    let (read, checked) = thread::join(
        rt,
        move || { reader.read(alloc, count) },
        move || -> Result<Vec<Checked>, Memory>
            requires { IsSync R.row }
            ensures { IfOk result (λ checked. AllZip (λ stretch one. IsChecked feed.entry.now stretch.items one) stretches.items checked.items) }
        { check_all(rt, alloc, feed, stretches) },
    );
    let (reader, read) = read?;
    Ok(Round {
        reader,
        read,
        checked: checked?,
    })
}

/// Checks each stretch on a thread of its own. Err: out of memory.
fn check_all<R: Threads + Sync>(
    rt: &R,
    alloc: Global,
    feed: &DroppingFeed,
    stretches: Vec<Vec<u8>>,
) -> Result<Vec<Checked>, Memory>
    ensures { IfOk result (λ checked. AllZip (λ stretch one. IsChecked feed.now stretch.items one) stretches.items checked.items) }
{
    Ok(thread::map_vec(
        rt,
        stretches,
        &|bytes: Vec<u8>| { check(alloc, feed, bytes) },
    )?)
}

/// Reads a stretch ahead, behind the header that the feed has read.
fn check(alloc: Global, feed: &DroppingFeed, bytes: Vec<u8>) -> Checked
    ensures { IsChecked feed.now bytes.items result }
{
    let Some(mut ahead) = feed.behind_header(alloc) else {
        return Checked { bytes, ahead: None };
    };
    // The feed keeps a fault.
    let _ = ahead.feed(&bytes);
    Checked {
        bytes,
        ahead: Some(ahead),
    }
}

/// Feeds the stretches, in order, up to the first fault. Returns false after a fault.
fn feed_checked(feed: &mut DroppingFeed, checked: Vec<Checked>, limit: u64) -> bool
    requires { All IsAhead checked.items }
    ensures fed { (bytes : List ℕ) → IsFedAbove limit feed.old bytes →
        IsFedAbove limit feed.new (bytes ++ joined (map (λ one. one.bytes.items) checked.items)) }
    ensures stops { result ≡ false → HasStopped feed.new }
{
    for one in checked {
        if !feed.feed_ahead_below(one.ahead, &one.bytes, limit) {
            return false;
        }
    }
    true
}
