//! What recovery would find once damaged logs are cut, a log gets another header, or one that holds the cutoff back ends with a
//! mark.
use crate::beginning::last_before_end;
use crate::checked::{Checked, CheckedLog};
use crate::cutting::cut;
use crate::halt::Halt;
use crate::headless::{head_of, header_of};
use crate::heads::heads_for;
use crate::host::{Host, Run};
use crate::progress::{Meter, Telling};
use crate::request::Cut;
use crate::row::Cell;
use crate::sheet::Sheet;
use mt_record::{Head, Segment};
use mt_recover::{Failure, Refusal, Window, check_parts, fronts_of, start_of};
use mt_scan::{Checkpoint, Slot};
use mt_text::Value;
use mt_words::{Fault, Format};
use std::alloc::{AllocError, Global};
use std::io::{self, Write};

/// A way to cut logs.
#[derive(Clone, Copy)]
struct Way {
    name: &'static str,
    how: Cut,
}

impl Way {
    /// Creates a way that goes on after damage, by this header, if there is one, and ends with a mark of this timestamp, if
    /// there is one.
    fn skipping(name: &'static str, header: Option<Head>, end: Option<u64>) -> Way {
        let how = Cut {
            is_skipping: true,
            header,
            below: None,
            end,
        };
        Way { name, how }
    }

    /// Returns the ways to cut damaged logs.
    fn all() -> [Way; 2] {
        let skip = Way::skipping("skip", None, None);
        let how = Cut {
            is_skipping: false,
            ..skip.how
        };
        [Way { name: "cut", how }, skip]
    }
}

/// What recovery would find.
#[derive(Clone, Copy)]
struct Outlook {
    cutoff: u64,
    late: u128,
    survivors: u128,
}

impl<'a, R: Host> Run<'a, R> {
    /// Prints a line for each way to cut all logs in which a record is damaged, or seems torn though records or segments follow
    /// it; if updates are late, or more marks of a log than a crash leaves, for the way to end the logs before them with a mark;
    /// and for each header that a log may get. It has what recovery would find then, or the fault that it would name, which ends
    /// the line, since it has blanks. Reads the files again for each. Prints nothing if there is no such log, or one of the files
    /// cannot be read again.
    pub fn write_ways<W: Write>(
        &self,
        checked: &Checked<'_>,
        sheet: &mut Sheet<'_, W>,
    ) -> Result<(), Refusal<'static>> {
        let mut damaged = Vec::new(self.rt.alloc());
        for (number, log) in checked.logs.iter().enumerate() {
            if log.is_damaged() || checked.is_torn_segment(number) {
                damaged.push(number)?;
            }
        }
        if checked.memory().is_none() {
            return Ok(());
        }
        if !damaged.is_empty() {
            for way in &Way::all() {
                self.write_way(way, &damaged, sheet)?;
            }
        }
        self.write_headers(checked, sheet)?;
        let Ok(start) = &checked.start else {
            return Ok(());
        };
        let cutoff = start.window.cutoff;
        let end = self.last_of_late(checked)?.max(checked.last_below_end());
        if end <= cutoff || !self.has_late(checked, cutoff)? {
            return Ok(());
        }
        let early = checked.ending_at(self.rt.alloc(), cutoff)?;
        let way = Way::skipping("end", None, Some(end));
        self.write_way(&way, &early, sheet)
    }

    /// Returns the greatest timestamp before the end of the ended logs that have late updates, or 0. Such a log does not hold the
    /// cutoff back, but another log that has lost its tail may.
    fn last_of_late(&self, checked: &Checked<'_>) -> Result<u64, Refusal<'static>> {
        let mut last = 0;
        for (number, log) in checked.logs.iter().enumerate() {
            if !log.has_ended() || log.late_head().is_none() {
                continue;
            }
            if let Some(bytes) = self.all_again(log.file.name)? {
                last = last_before_end(self.rt.alloc(), number, &bytes)?.max(last);
            }
        }
        Ok(last)
    }

    /// Prints a line for each header that the log may get which recovery names for its header or for a gap before it: for the one
    /// that it had, if it is of format 4 and that is known. A log without a complete record then ends with a mark.
    fn write_headers<W: Write>(
        &self,
        checked: &Checked<'_>,
        sheet: &mut Sheet<'_, W>,
    ) -> Result<(), Refusal<'static>> {
        let log = match checked.start {
            Err(Fault::Header { log } | Fault::Gap { log }) => log,
            _ => return Ok(()),
        };
        let Some(found) = checked.logs.get(log) else {
            return Ok(());
        };
        if found.is_sealed.is_none() {
            return Ok(());
        }
        for head in &self.heads_of(checked, found)? {
            let end = head.from.saturating_add(1).max(checked.last_below_end());
            let end = (!found.has_records()).then_some(end);
            let way = Way::skipping("header", Some(*head), end);
            self.write_way(&way, &[log], sheet)?;
        }
        Ok(())
    }

    /// Returns the headers that a log may have had: if it is of format 4 and has lost the one that its blocks go with, but this can
    /// be found, that alone.
    fn heads_of(
        &self,
        checked: &Checked<'_>,
        log: &CheckedLog<'_>,
    ) -> Result<Vec<Head>, Refusal<'static>> {
        let alloc = self.rt.alloc();
        if log.is_sealed == Some(true) && log.front().is_none() {
            if let Some(bytes) = self.all_again(log.file.name)? {
                let fronts = checked.fronts(alloc)?;
                let workers = self.workers_said()?;
                let name = log.file.name;
                if let Some(header) = header_of(alloc, name, &bytes, &fronts, &workers)? {
                    return Ok(vec![in alloc; head_of(header)]?);
                }
            }
        }
        Ok(heads_for(alloc, checked, log)?)
    }

    /// Prints the line of a way to cut these logs.
    fn write_way<W: Write>(
        &self,
        way: &Way,
        logs: &[usize],
        sheet: &mut Sheet<'_, W>,
    ) -> Result<(), Refusal<'static>> {
        let outlook = self.look_ahead(logs, way);
        let header = match way.how.header {
            Some(head) => Some(words_of(self.rt.alloc(), head)?),
            None => None,
        };
        write_outlook(way, logs, &header, &outlook, sheet)
    }

    /// Returns what recovery would find if these logs were cut, or the fault that it would name.
    fn look_ahead(&self, logs: &[usize], way: &Way) -> Result<Outlook, Refusal<'a>> {
        let cuts = self.cut_all(logs, way)?;
        let mut rack = self.rack()?;
        let mut nowhere = io::sink();
        let meter = Meter::new(self.rt, Telling::Never, 0, 0, &mut nowhere);
        let (checks, _) = self.check_logs(&cuts, rack.slots(), u64::MAX, &meter)?;
        let (sources, _) = self.open_each(&self.names.parts, &[], rack.slots())?;
        let parts = check_parts(self.rt, self.rt.alloc(), sources, self.folder.workers)?;
        let fronts = fronts_of(self.rt.alloc(), checks)?;
        let start = start_of(self.rt.alloc(), &fronts, parts)?;
        let Window { begin, cutoff } = start.window;
        let kept = self.count_from(&cuts, rack.slots(), begin, &meter)?;
        let late = self.count_from(&cuts, rack.slots(), cutoff, &meter)?;
        Ok(Outlook {
            cutoff,
            late,
            survivors: kept
                .saturating_sub(late)
                .saturating_add(entries_of(&start.choice.chosen)),
        })
    }

    /// Counts the updates from this timestamp on.
    fn count_from<E: Write + Send>(
        &self,
        cuts: &[Option<Vec<u8>>],
        slots: &mut [Slot],
        timestamp: u64,
        meter: &Meter<'_, R, E>,
    ) -> Result<u128, Refusal<'a>> {
        let (checks, _) = self.check_logs(cuts, slots, timestamp, meter)?;
        let mut count = 0;
        for check in checks {
            count = u128::from(check?.late).saturating_add(count);
        }
        Ok(count)
    }

    /// Returns for each log, if it is one of these, the log that `cut` makes of it.
    fn cut_all(&self, logs: &[usize], way: &Way) -> Result<Vec<Option<Vec<u8>>>, Refusal<'static>> {
        let mut cuts = Vec::with_capacity(self.rt.alloc(), self.names.logs.len())?;
        for (log, name) in self.names.logs.iter().enumerate() {
            let bytes = if logs.contains(&log) {
                Some(self.cut_one(log, name.as_str(), way)?)
            } else {
                None
            };
            cuts.push(bytes)?;
        }
        Ok(cuts)
    }

    /// Returns the log that `cut` makes of the log of this number and name. Err: it cannot be read again, or out of memory.
    fn cut_one(&self, log: usize, name: &str, way: &Way) -> Result<Vec<u8>, Refusal<'static>> {
        let path = format!(in self.rt.alloc(); "{}/{name}", self.folder.path)?;
        let mut bytes = Vec::new(self.rt.alloc());
        match cut(
            self.rt,
            path.as_str(),
            &way.how,
            false,
            &mut bytes,
            &mut io::sink(),
        ) {
            Ok(_) => Ok(bytes),
            Err(
                Halt::Refused(
                    Refusal {
                        failure: Failure::Recovery(Fault::Memory),
                        ..
                    },
                ),
            ) => Err(Refusal::from(Fault::Memory)),
            Err(_) => Err(Refusal::from(Fault::Source { log })),
        }
    }
}

/// Prints the line of a way to cut these logs. Err: write error, or out of memory.
fn write_outlook<'x, W: Write>(
    way: &Way,
    logs: &'x [usize],
    header: &'x Option<String>,
    outlook: &'x Result<Outlook, Refusal<'x>>,
    sheet: &mut Sheet<'_, W>,
) -> Result<(), Refusal<'static>> {
    let (name, logs) = (Cell::Word(way.name), Cell::Value(Value::Positions(logs)));
    let end = Cell::Number(way.how.end);
    let header = match header {
        Some(header) => Cell::Word(header.as_str()),
        None => Cell::Number(None),
    };
    match outlook {
        Ok(outlook) => {
            let row = [
                ("way", name),
                ("logs", logs),
                ("header", header),
                ("end", end),
                ("cutoff", Cell::Number(Some(outlook.cutoff))),
                ("late", Cell::Value(Value::Number(outlook.late))),
                ("survivors", Cell::Value(Value::Number(outlook.survivors))),
            ];
            Ok(sheet.row(&row)?)
        }
        Err(refusal) => match &refusal.failure {
            Failure::Recovery(Fault::Memory) => Err(Refusal::from(Fault::Memory)),
            failure => {
                let row = [
                    ("way", name),
                    ("logs", logs),
                    ("header", header),
                    ("end", end),
                    ("fault", Cell::Failure(failure)),
                ];
                Ok(sheet.row(&row)?)
            }
        },
    }
}

/// Returns the words of a header, as `cut --header` takes them. Err: out of memory.
fn words_of(alloc: Global, head: Head) -> Result<String, AllocError> {
    let from = head.from;
    match head.segment {
        Some(Segment { worker, number }) => format!(in alloc; "3:{from}:{worker}:{number}"),
        None if head.format == Format::One => format!(in alloc; "1:{from}"),
        None => format!(in alloc; "2:{from}"),
    }
}

/// Counts the entries of a checkpoint.
fn entries_of(chosen: &Option<Checkpoint>) -> u128 {
    let mut count = 0;
    if let Some(checkpoint) = chosen {
        for part in &checkpoint.parts {
            count = (part.entries.len() as u128).saturating_add(count);
        }
    }
    count
}
