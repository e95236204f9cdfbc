//! What recovery finds in logs and parts, or why it refuses them.
ghost use Rattle.std.specs.Prelude.{◌≡◌, ℕ, List, map, IfOk, IfErr, OnOk};
ghost use Rattle.std.specs.List.{AllZip};
ghost use Rattle.std.specs.Option.{option_map};
ghost use Rattle.mt_scan.specs.Choosing.{checkpoint_in};
ghost use Rattle.mt_scan.specs.Sources.{Seen};
ghost use Rattle.mt_record.specs.Logs.{LogReading};
ghost use Rattle.mt_scan.specs.Scans.{ShowFronts};
ghost use Rattle.mt_scan.specs.Segments.{AreWriters};
ghost use Rattle.mt_recover.specs.Steps.Preparing.{IsFoundOf, IsWritersFault, StartsFrom};
ghost use Rattle.mt_recover.specs.Inputs.{OfSources, IsAnsweredBy};
ghost use Rattle.mt_recover.specs.Check.{ArePartOutcomes, IsFrontSeen, IsStartOf};
ghost use Rattle.mt_recover.specs.Steps.Outcomes.{AreOutcomes, AreOutcomesTo, AreAllOk};
ghost use Rattle.mt_recover.specs.Recovery.{begin_of as begin_in};

use crate::by_workers::all_done;
use crate::scans::Outcomes;
use mt_record::LogFront;
use mt_replay::Window;
use mt_scan::{
    Checkpoint, Choice, LogScan, PartScan, choose, cutoff, first_doubled, first_gap, first_torn,
};
use mt_words::{Fault, Memory};
use std::alloc::Global;

/// Where recovery of logs and checkpoint parts begins.
#[derive(Debug, Drop)]
pub struct Start {
    /// The timestamps at which updates of logs survive.
    pub window: Window,
    /// The checkpoint over which the logs are replayed, the skipped checkpoints and the nameless parts.
    pub choice: Choice,
}

/// What recovery finds in its inputs, if it does not refuse them.
#[derive(Drop)]
pub(crate) struct Found {
    /// The scans of the logs, in the order of their numbers.
    pub scans: Vec<LogScan>,
    /// Their fronts.
    pub fronts: Vec<LogFront>,
    /// Where recovery begins.
    pub start: Start,
}

/// Finds where recovery begins. Err: the fault of the least log that has one, or that of `start_of`.
pub(crate) fn find(alloc: Global, outcomes: Outcomes) -> Result<Found, Fault>
    ensures found { (logs parts : List Seen) → AreOutcomes logs parts outcomes →
        IfOk result (λ found. OfSources (λ seen. seen) logs parts (λ ls ps. IsFoundOf ls ps found)) }
    ensures fault { (limit : ℕ) (logs parts : List Seen) → AreOutcomesTo limit logs parts outcomes →
        IfErr result (IsAnsweredBy (λ seen. seen) logs parts) }
    ensures whole { OnOk result (AreAllOk outcomes) }
{
    let scans = all_done(alloc, outcomes.logs)?;
    let fronts = fronts_in(alloc, &scans)?;
    let start = start_of(alloc, &fronts, outcomes.parts)?;
    Ok(Found {
        scans,
        fronts,
        start,
    })
}

/// Returns the fronts of the scanned logs. Err: out of memory.
fn fronts_in(alloc: Global, scans: &[LogScan]) -> Result<Vec<LogFront>, Memory>
    ensures { IfOk result (λ fronts. fronts.items ≡ map (λ scan. scan.front) scans.now) }
{
    Ok(scans.iter().map(|scan| scan.front).collect(alloc)?)
}

/// Returns where recovery of logs with these fronts and of the scanned parts begins. An Err is the first of these that
/// holds: `NoLogs`; `Doubled` of the least log that is the same segment as one before it; `Torn` of the least log that is
/// torn and not the last segment of its worker's log; the fault of the least part whose source failed; `Gap` of the least
/// log with a gap. `Memory` may replace any of them.
pub fn start_of(
    alloc: Global,
    fronts: &[LogFront],
    parts: Vec<Result<PartScan, Fault>>,
) -> Result<Start, Fault>
    ensures start { (log_sources part_sources : List Seen) → AllZip IsFrontSeen log_sources fronts.now → ArePartOutcomes log_sources part_sources parts.items →
        IfOk result (λ start. OfSources (λ seen. seen) log_sources part_sources (λ ls ps. IsStartOf ls ps start)) }
    ensures fault { (log_sources part_sources : List Seen) → AllZip IsFrontSeen log_sources fronts.now → ArePartOutcomes log_sources part_sources parts.items →
        IfErr result (IsAnsweredBy (λ seen. seen) log_sources part_sources) }
    ensures facts { IfOk result (StartsFrom fronts.now parts.items) }
{
    let Some(cutoff) = cutoff(fronts) else {
        return Err(Fault::NoLogs);
    };
    check_writers(fronts)?;
    let known = all_done(alloc, parts)?;
    let choice = choose(alloc, known, cutoff)?;
    let begin = begin_of(&choice.chosen);
    if let Some(log) = first_gap(fronts, begin) {
        return Err(Fault::Gap { log });
    }
    let window = Window { begin, cutoff };
    Ok(Start { window, choice })
}

/// Returns the timestamp from which logs are replayed: where the checkpoint begins, or 0 without one.
fn begin_of(chosen: &Option<Checkpoint>) -> u64
    ensures { result ≡ begin_in (option_map checkpoint_in chosen.now) }
{
    match chosen {
        Some(checkpoint) => checkpoint.begin,
        None => 0,
    }
}

/// Checks that no segment is there twice, and that none but the last one of a worker's log is torn. Err: `Doubled` of
/// the least log that is the same segment as one before it, or else `Torn` of the least torn log that is not the last.
fn check_writers(fronts: &[LogFront]) -> Result<(), Fault>
    ensures ok { (logs : List LogReading) → ShowFronts fronts.now logs → OnOk result (AreWriters logs) }
    ensures fault { (logs : List LogReading) → ShowFronts fronts.now logs → IfErr result (IsWritersFault logs) }
{
    if let Some(log) = first_doubled(fronts) {
        return Err(Fault::Doubled { log });
    }
    match first_torn(fronts) {
        Some(log) => Err(Fault::Torn { log }),
        None => Ok(()),
    }
}
