//! Answers the subcommand `check`: reads all files of a folder, and tells what is in each of them.
use crate::answering::PRINTED_AT_ONCE;
use crate::caveat::Caveat;
use crate::checked::{Checked, CheckedFile, CheckedLog, CheckedPart};
use crate::closing::is_closed;
use crate::ending::{Again, Ending};
use crate::fates::PartState;
use crate::flaws::falls_in;
use crate::halt::Halt;
use crate::headless::mark_in;
use crate::host::{Host, Run};
use crate::intake::{Intake, LogIntake, unread};
use crate::progress::{Meter, count_all};
use crate::request::CheckForm;
use crate::salvaging::PartPieces;
use crate::sealed::{Sealed, UNKNOWN_SEGMENT};
use crate::sheet::{Screen, Sheet};
use mt_record::{Head, Rest, encode_head};
use mt_recover::{
    Failure, LogCheck, Refusal, Window, check_logs, check_parts, fronts_of, hole_before, start_of,
};
use mt_scan::{Slot, cutoff};
use mt_words::{Fault, Memory};
use std::alloc::Global;
use std::io::{BufWriter, Read, Write};

/// What a check finds in each log.
type Checks = Vec<Result<LogCheck, Fault>>;

impl<'a, R: Host> Run<'a, R> {
    /// Checks the files, and prints what is in each, with a caveat if recovery loses something or passes over it. Err: the
    /// fault that recovery names, after the lines; or a failure.
    pub fn check<O: Write, E: Write + Send>(
        &self,
        form: CheckForm,
        screen: Option<Screen>,
        out: &mut O,
        err: &mut E,
    ) -> Result<Option<Caveat>, Halt<'a>> {
        let alloc = self.rt.alloc();
        let mut checked = self.check_all(err)?;
        self.find_copies(&mut checked)?;
        match self.write_checked(&checked, form, screen, out) {
            Err(refusal) if is_closed(&refusal) => {}
            written => written?,
        }
        if self.folder.is_verbose {
            checked.tell_hints(alloc, err)?;
            self.tell_late(&checked, err)?;
        }
        let caveat = checked.losses().map(Caveat::Losses);
        let caveat = self.tell_noted(caveat, checked.writers(alloc)?, err)?;
        if let Some(refusal) = checked.unopened {
            return Err(Halt::from(refusal));
        }
        checked.start?;
        let Some(caveat) = caveat else {
            return Ok(None);
        };
        // Its lines have what to try.
        caveat.tell(err);
        Ok(Some(Caveat::No))
    }

    /// Prints what was found, in this form, through a buffer. Lines fit the terminal, if there is one.
    fn write_checked<O: Write>(
        &self,
        checked: &Checked<'a>,
        form: CheckForm,
        screen: Option<Screen>,
        out: &mut O,
    ) -> Result<(), Refusal<'static>> {
        let alloc = self.rt.alloc();
        let mut out = BufWriter::with_capacity(alloc, PRINTED_AT_ONCE, out)?;
        match form {
            CheckForm::Chart(width) => self.chart(checked)?.write(width, &mut out)?,
            CheckForm::Spans => self.chart(checked)?.write_json(&mut out)?,
            CheckForm::Lines | CheckForm::Json => {
                let is_json = form == CheckForm::Json;
                let mut sheet = Sheet::new(alloc, is_json, screen, &mut out);
                checked.write(alloc, &mut sheet)?;
                self.write_ways(checked, &mut sheet)?;
            }
        }
        Ok(out.flush()?)
    }

    /// Checks all logs and parts. If there is a cutoff, the logs are read once more, to count what is late; the bytes of a pipe are
    /// held for that. What follows the complete records of a log is read after that.
    pub fn check_all<E: Write + Send>(&self, err: &mut E) -> Result<Checked<'a>, Refusal<'a>> {
        let alloc = self.rt.alloc();
        let mut rack = self.rack()?;
        let meter = self.meter(2, 0, err);
        let pipes = self.read_pipes()?;
        let (mut checks, first) = self.check_logs(&pipes, rack.slots(), u64::MAX, &meter)?;
        let (sources, unopened) = self.open_each(&self.names.parts, &[], rack.slots())?;
        let mut unopened = first.or(unopened);
        let sources = count_all(alloc, sources, &meter)?;
        let scans = check_parts(self.rt, alloc, sources, self.folder.workers)?;
        let mut parts = Vec::with_capacity(alloc, scans.len())?;
        for (name, scan) in self.names.parts.iter().zip(&scans) {
            let state = PartState::of(scan);
            let file = self.checked_file(name.as_str(), matches!(state, PartState::Unread));
            let (again, counted) = self.reread_part(name.as_str(), state)?;
            parts.push(CheckedPart {
                file,
                state,
                again,
                counted,
            })?;
        }
        let falls = falls_in(alloc, &scans)?;
        let fronts = fronts_of(alloc, Vec::from_slice(alloc, &checks)?);
        let mut start = match &fronts {
            Ok(fronts) => start_of(alloc, fronts, scans),
            Err(fault) => Err(*fault),
        };
        let cutoff = match (&start, &fronts) {
            // It chose a checkpoint before it found the gap.
            (Ok(_) | Err(Fault::Gap { .. }), Ok(fronts)) => cutoff(fronts),
            _ => None,
        };
        let mut holes = Vec::new(alloc);
        if let Ok(found) = &start {
            let window = found.window;
            let again = self.check_logs(&pipes, rack.slots(), window.cutoff, &meter)?;
            checks = again.0;
            unopened = unopened.or(again.1);
            match holes_of(alloc, &checks, window)? {
                Ok(found) => holes = found,
                Err(fault) => start = Err(fault),
            }
        }
        meter.end();
        let mut logs = Vec::with_capacity(alloc, checks.len())?;
        for ((log, name), check) in self.names.logs.iter().enumerate().zip(checks) {
            let is_unread = matches!(check, Err(Fault::Source { .. }));
            let lost = if matches!(check, Err(Fault::Header { .. })) {
                self.headless(name.as_str())?
            } else {
                None
            };
            let is_sealed = match lost {
                Some(_) => Some(true),
                None => self.is_sealed(name.as_str())?,
            };
            let (end, ending) = match (lost, is_sealed) {
                (Some(ending), _) => (None, Some(ending)),
                (None, Some(false)) => (None, self.ending_of(name.as_str(), &check)?),
                (None, Some(true)) => self.sealed_ending(name.as_str(), &check)?,
                (None, None) => (None, None),
            };
            logs.push(CheckedLog {
                file: self.checked_file(name.as_str(), is_unread),
                is_sealed,
                end,
                ending,
                hole: holes.get(log).copied().flatten(),
                copy: None,
                check,
            })?;
        }
        Ok(Checked {
            logs,
            parts,
            unopened,
            start,
            cutoff,
            falls,
        })
    }

    /// Checks the logs, and returns why the first one that cannot be opened cannot, too. `replaced` has the bytes that are
    /// read in place of a log, by its number. Updates at or past the limit count as late.
    pub fn check_logs<E: Write + Send>(
        &self,
        replaced: &[Option<Vec<u8>>],
        slots: &mut [Slot],
        limit: u64,
        meter: &Meter<'_, R, E>,
    ) -> Result<(Checks, Option<Refusal<'a>>), Refusal<'a>> {
        let (sources, unopened) = self.open_each(&self.names.logs, replaced, slots)?;
        let sources = count_all(self.rt.alloc(), sources, meter)?;
        let checks = check_logs(
            self.rt,
            self.rt.alloc(),
            sources,
            self.folder.workers,
            limit,
        )?;
        Ok((checks, unopened))
    }

    /// Returns the file of this name: its size and, if it is unread, why, if the system tells.
    fn checked_file(&self, name: &'a str, is_unread: bool) -> CheckedFile<'a> {
        CheckedFile {
            name,
            size: self.size_of(name),
            reason: if is_unread {
                self.why_unread(name)
            } else {
                None
            },
        }
    }

    /// Reads what follows the header and the complete records of a log. None: nothing, or it cannot be read again.
    fn ending_of(
        &self,
        name: &str,
        check: &Result<LogCheck, Fault>,
    ) -> Result<Option<Ending>, Memory> {
        let head = match check {
            Ok(check) if check.front.rest != Rest::Nothing => Some(check.front.head),
            // Without a header all bytes are left.
            Err(Fault::Header { .. }) => None,
            Ok(_) | Err(_) => return Ok(None),
        };
        let alloc = self.rt.alloc();
        let Some(file) = self.read_again(name, 1)? else {
            return Ok(None);
        };
        match ending_in(alloc, file, head) {
            Ok(ending) => Ok(ending),
            Err(
                Refusal {
                    failure: Failure::Recovery(Fault::Memory),
                    ..
                },
            ) => Err(Memory),
            Err(_) => Ok(None),
        }
    }

    /// Returns where the entries of a part go on after damage, and the number of entries that its footer has if just that is wrong,
    /// if it is broken. None: neither is so, or it cannot be read again.
    fn reread_part(
        &self,
        name: &str,
        state: PartState,
    ) -> Result<(Option<Again>, Option<u32>), Memory> {
        if !matches!(state, PartState::Broken { .. }) {
            return Ok((None, None));
        }
        let Some(bytes) = self.all_again(name)? else {
            return Ok((None, None));
        };
        let Some(part) = PartPieces::open(self.rt.alloc(), bytes)? else {
            return Ok((None, None));
        };
        let all = part.salvage(self.rt.alloc())?;
        Ok((all.again(), part.wrong_count(self.rt.alloc())?))
    }

    /// Returns what is in a log that has lost its header, if blocks of format 4 are in it. None: none are, or it cannot be read
    /// again.
    fn headless(&self, name: &str) -> Result<Option<Ending>, Memory> {
        let alloc = self.rt.alloc();
        let Some(bytes) = self.all_again(name)? else {
            return Ok(None);
        };
        if mark_in(&bytes).is_none() {
            return Ok(None);
        }
        match Sealed::with_head(alloc, bytes, UNKNOWN_SEGMENT) {
            Ok(log) => Ok(Some(log.ending_of_all(alloc)?)),
            // Out of memory: a segment's header is read.
            Err(_) => Err(Memory),
        }
    }

    /// Reads a log of format 4. Returns the byte of its file where its records end, and what follows them. None: it has no
    /// header, or cannot be read again.
    fn sealed_ending(
        &self,
        name: &str,
        check: &Result<LogCheck, Fault>,
    ) -> Result<(Option<u64>, Option<Ending>), Memory> {
        match check {
            Ok(check) if check.front.rest == Rest::Nothing => {
                return Ok((self.size_of(name), None));
            }
            Ok(_) => {}
            Err(_) => return Ok((None, None)),
        }
        let alloc = self.rt.alloc();
        let Some(bytes) = self.all_again(name)? else {
            return Ok((None, None));
        };
        match Sealed::open(alloc, bytes) {
            Ok(log) => {
                let at = log.records_end();
                let end = log.first.file_at(at) as u64;
                Ok((Some(end), log.ending(alloc, at)?))
            }
            Err(Fault::Memory) => Err(Memory),
            Err(_) => Ok((None, None)),
        }
    }
}

/// Reads what follows the records of the log of this header, or without a header all of the file. None: nothing.
fn ending_in<F: Read + Drop>(
    alloc: Global,
    file: Intake<F>,
    head: Option<Head>,
) -> Result<Option<Ending>, Refusal<'static>> {
    let mut file = file;
    let Some(head) = head else {
        file.read(u64::MAX).map_err(unread)?;
        return Ok(Ending::of_all(alloc, &file)?);
    };
    let header = encode_head(alloc, head)?.len();
    file.pass(header);
    let mut log = LogIntake::new(alloc, file, head)?;
    log.read_rest()?;
    Ending::of_log(alloc, &log)
}

/// Returns where the hole before each log begins, None if there is none, or the fault of the first log that has one.
fn holes_of(
    alloc: Global,
    checks: &[Result<LogCheck, Fault>],
    window: Window,
) -> Result<Result<Vec<Option<u64>>, Fault>, Memory> {
    let fronts = match fronts_of(alloc, Vec::from_slice(alloc, checks)?) {
        Ok(fronts) => fronts,
        Err(fault) => return Ok(Err(fault)),
    };
    let mut holes = Vec::with_capacity(alloc, fronts.len())?;
    for front in &fronts {
        holes.push(hole_before(&fronts, window, front))?;
    }
    Ok(Ok(holes))
}
