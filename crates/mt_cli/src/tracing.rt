//! Answers `history`: tells what became of each update of a key.
use crate::answering::PRINTED_AT_ONCE;
use crate::caveat::Caveat;
use crate::host::{Host, Run};
use crate::progress::count_inputs;
use crate::request::Trace;
use crate::row::{Cell, Field, write_row};
use itertools::Itertools;
use mt_record::{Lent, LogFront};
use mt_recover::{Fate, Inputs, Refusal, check_parts, history_of, start_of};
use mt_scan::{LogScan, Source, scan_log};
use mt_text::Value;
use mt_words::{Fault, Memory, Origin};
use std::alloc::{AllocError, Global};
use std::io::{BufWriter, Write};

impl<'a, R: Host> Run<'a, R> {
    /// Scans the logs, one after the other, and the parts, and prints a line for each update of a key, in the order of their
    /// timestamps, and last for the entry of the chosen checkpoint, through a buffer.
    pub fn trace<O: Write, E: Write + Send>(
        &self,
        how: &Trace,
        out: &mut O,
        err: &mut E,
    ) -> Result<Option<Caveat>, Refusal<'a>> {
        let alloc = self.rt.alloc();
        let mut rack = self.rack()?;
        let inputs = self.open_inputs(rack.slots())?;
        let meter = self.meter(1, 0, err);
        let Inputs { logs, parts } = count_inputs(alloc, inputs, &meter)?;
        if logs.is_empty() {
            return Err(Refusal::from(Fault::NoLogs));
        }
        let scans = scan_logs(alloc, logs);
        let parts = check_parts(self.rt, alloc, parts, self.folder.workers);
        meter.end();
        let (scans, parts) = (scans?, parts?);
        let fronts: Vec<LogFront> = scans.iter().map(|scan| scan.front).collect(alloc)?;
        let start = start_of(alloc, &fronts, parts)?;
        let chosen = &start.choice.chosen;
        let checkpoint = chosen
            .as_ref()
            .map(|checkpoint| u64::from(checkpoint.number));
        let history = history_of(alloc, how.key.as_bytes(), start.window, &scans, chosen)?;
        let mut out = BufWriter::with_capacity(alloc, PRINTED_AT_ONCE, out)?;
        for number in by_timestamp(alloc, &history.updates)? {
            let (updates, fates) = (&history.updates, &history.fates);
            let (Some(update), Some(fate)) = (updates.get(number), fates.get(number)) else {
                continue;
            };
            let columns = columns_of(alloc, update)?;
            let row = fields(update, fate, &columns, checkpoint, &self.names.logs);
            write_row(&row, how.is_json, &mut out)?;
        }
        out.flush()?;
        Ok(None)
    }
}

/// Scans the logs, each with all its updates. Err: the fault of the first one that has one.
fn scan_logs<S: Source>(alloc: Global, logs: Vec<S>) -> Result<Vec<LogScan>, Fault> {
    let mut scans = Vec::new(alloc);
    for (log, source) in logs.into_iter().enumerate() {
        let mut source = source;
        let scan = scan_log(alloc, &mut source, log)?;
        if scans.push(scan).is_err() {
            return Err(Fault::Memory);
        }
    }
    Ok(scans)
}

/// Returns the numbers of these updates in the order of their timestamps, at one timestamp in the order of their numbers. They stand
/// by log, and in a log timestamps never fall. The entry of a checkpoint, whose timestamp is not known, is the last. Err: out of
/// memory.
fn by_timestamp(alloc: Global, updates: &[Lent<'_>]) -> Result<Vec<usize>, AllocError> {
    let mut runs = Vec::new(alloc);
    let mut last = None;
    for (number, update) in updates.iter().enumerate() {
        let (log, timestamp) = match update.origin() {
            Origin::Log { log, .. } => (Some(log), update.timestamp()),
            Origin::Checkpoint => (None, u64::MAX),
        };
        if last != Some(log) {
            runs.push(Vec::new(alloc))?;
            last = Some(log);
        }
        if let Some(run) = runs.last_mut() {
            run.push((timestamp, number))?;
        }
    }
    let merged = runs.into_iter().kmerge(alloc)?;
    merged.map(|(_, number)| number).collect(alloc)
}

/// Returns the line of an update: where it comes from, what it says and what became of it. The timestamp of an entry is not
/// known. `columns` are the numbers of those that it writes, `names` those of the logs.
fn fields<'a>(
    update: &Lent<'_>,
    fate: &'a Fate,
    columns: &'a [u32],
    checkpoint: Option<u64>,
    names: &'a [String],
) -> [Field<'a>; 10] {
    let (log, name, record, checkpoint, timestamp) = match update.origin() {
        Origin::Log { log, record } => {
            let name = match names.get(log) {
                Some(name) => Cell::Name(name.as_str()),
                None => Cell::Number(None),
            };
            (
                Some(log as u64),
                name,
                Some(record),
                None,
                Some(update.timestamp()),
            )
        }
        Origin::Checkpoint => (None, Cell::Number(None), None, checkpoint, None),
    };
    let (state, won) = match fate {
        Fate::Early => ("early", Cell::Number(None)),
        Fate::Late => ("late", Cell::Number(None)),
        Fate::Older => ("older", Cell::Number(None)),
        Fate::Won(numbers) => ("won", Cell::Value(Value::Numbers(numbers))),
    };
    [
        ("log", Cell::Number(log)),
        ("file", name),
        ("record", Cell::Number(record)),
        ("checkpoint", Cell::Number(checkpoint)),
        ("kind", Cell::Word(verb_of(update))),
        ("version", Cell::Number(Some(update.stamp().version))),
        ("timestamp", Cell::Number(timestamp)),
        ("columns", Cell::Value(Value::Numbers(columns))),
        ("state", Cell::Word(state)),
        ("won", won),
    ]
}

/// Returns what an update does, as a word.
fn verb_of(update: &Lent<'_>) -> &'static str {
    match (update.origin(), update.writes().next()) {
        (Origin::Checkpoint, _) => "entry",
        (Origin::Log { .. }, Some((_, Some(_)))) => "put",
        (Origin::Log { .. }, Some((_, None))) => "erase",
        (Origin::Log { .. }, None) => "remove",
    }
}

/// Returns the numbers of the columns that an update writes. Err: out of memory.
fn columns_of(alloc: Global, update: &Lent<'_>) -> Result<Vec<u32>, Memory> {
    let mut numbers = Vec::new(alloc);
    let mut writes = update.writes();
    while let Some((number, _)) = writes.next() {
        numbers.push(u32::from(number))?;
    }
    Ok(numbers)
}
