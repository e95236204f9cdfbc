//! Begins a log in a folder in which no log can go on: all have ended, or none is there.
use crate::caveat::{Caveat, Losses};
use crate::cutting::last_of;
use crate::halt::Halt;
use crate::host::{Host, Run};
use crate::loss::Loss;
use crate::request::Resume;
use crate::row::{Cell, Field, write_row};
use crate::saving::Site;
use crate::sealed::text_in;
use mt_block::{Header, append_blocks};
use mt_checkpoint::PlanFault;
use mt_record::{Head, encode_record, header_at, open_file, records_below};
use mt_recover::{Failure, Refusal, check_parts};
use mt_scan::{Checkpoint, Choice, choose};
use mt_text::Shown;
use mt_words::{Fault, Record};
use std::alloc::{AllocError, Global};
use std::io::{self, ErrorKind, Write};

/// A log of a header and a mark that is to be written, of format 4.
#[derive(Drop)]
pub struct NewLog {
    name: String,
    bytes: Vec<u8>,
    /// The timestamp of its mark.
    pub mark: u64,
}

impl NewLog {
    /// Plans the log with this header, with a mark directly above `last`. Err: no timestamp is left; its name is taken.
    pub fn above<R: Host>(
        site: &Site<'_, R>,
        header: Header,
        last: u64,
    ) -> Result<NewLog, Halt<'static>> {
        let mark = last.saturating_add(1);
        // An update goes on from the mark, and needs a mark above it that does not end the log.
        if mark >= u64::MAX - 1 {
            return Err(Halt::Unplanned("log", PlanFault::Timestamp));
        }
        let mut records = Vec::new(site.rt.alloc());
        encode_record(&Record::mark(mark), &mut records)?;
        let mut bytes = header.bytes(site.rt.alloc())?;
        append_blocks(header.mark(), &records, &mut bytes)?;
        let name = format!(in site.rt.alloc(); "open-{mark}.mtl")?;
        site.expect(name.as_str(), true)?;
        Ok(NewLog { name, bytes, mark })
    }

    /// Writes it, with the owner, the group and the mode of this file, and syncs the folder.
    pub fn write<R: Host>(&self, site: &Site<'_, R>, model: &str) -> Result<(), Halt<'static>> {
        site.write(self.name.as_str(), model, &self.bytes)?;
        site.sync()
    }

    /// Returns what is lost if it is begun without other logs, over a checkpoint that begins at this timestamp. Err: out of memory.
    fn loss(&self, alloc: Global, begin: u64) -> Result<Loss, AllocError> {
        let mut lines = Vec::new(alloc);
        let name = Shown(self.name.as_str());
        let line = format!(in alloc;
            "{name}: begun without logs: what they had from {begin} on is lost"
        )?;
        lines.push(line)?;
        Ok(Loss(lines))
    }

    /// Returns its line.
    pub fn row(&self, number: usize) -> [Field<'_>; 7] {
        log_row(
            number,
            self.name.as_str(),
            "begun",
            [0, 0, self.bytes.len() as u64],
            false,
        )
    }
}

impl<'a, R: Host> Run<'a, R> {
    /// Returns the greatest timestamp of the logs below the one that ends a log.
    pub fn last_below_end(&self, site: &Site<'_, R>) -> Result<u64, Halt<'static>> {
        let mut last = 0;
        for (log, name) in self.names.logs.iter().enumerate() {
            let bytes = site.read(name.as_str())?;
            last = last_before_end(self.rt.alloc(), log, &bytes)?.max(last);
        }
        Ok(last)
    }

    /// Begins a log above the end of the best checkpoint, if there is no log, and prints its line.
    pub fn begin_over_checkpoint<O: Write, E: Write>(
        &self,
        site: &Site<'_, R>,
        how: Resume,
        out: &mut O,
        err: &mut E,
    ) -> Result<Option<Caveat>, Halt<'a>> {
        if !self.names.logs.is_empty() {
            return Err(self.cannot_begin("there is a log", "leave out --no-logs"));
        }
        let choice = self.choose_best()?;
        let (Some(checkpoint), Some(model)) = (&choice.chosen, self.names.parts.first()) else {
            return Err(self.cannot_begin("no checkpoint is valid", "put the logs back"));
        };
        let (skipped, nameless) = (choice.skipped.len() as u128, choice.nameless.len() as u128);
        let losses = Losses::new([0, 0, 0, skipped, nameless]);
        if how.is_strict && losses.is_some() {
            return Ok(losses.map(Caveat::Losses));
        }
        self.expect_room(self.names.parts.len())?;
        let header = Header {
            salt: site.salt()?,
            worker: 0,
            segment: 0,
            workers: 1,
            from: checkpoint.begin,
        };
        let log = NewLog::above(site, header, checkpoint.end)?;
        let loss = log.loss(self.rt.alloc(), checkpoint.begin)?;
        loss.tell(err);
        if !how.is_dry {
            for name in &self.names.parts {
                site.sync_file(name.as_str())?;
            }
            site.sync()?;
            site.note(&loss, model.as_str())?;
            log.write(site, model.as_str())?;
        }
        write_row(&log.row(0), how.is_json, out)?;
        let mark = log.mark;
        write_row(
            &end_row(mark, mark, version_of(checkpoint)),
            how.is_json,
            out,
        )?;
        out.flush()?;
        self.folder.tell_losses(losses, err);
        Ok(None)
    }

    /// Chooses the best of all checkpoints.
    fn choose_best(&self) -> Result<Choice, Refusal<'a>> {
        let mut rack = self.rack()?;
        let parts = self.open_inputs(rack.slots())?.parts;
        let mut scans = Vec::with_capacity(self.rt.alloc(), parts.len())?;
        for scan in check_parts(self.rt, self.rt.alloc(), parts, self.folder.workers)? {
            scans.push(scan?)?;
        }
        Ok(choose(self.rt.alloc(), scans, u64::MAX)?)
    }

    /// Refuses one more file if the folder has this number of them and may have no more.
    pub fn expect_room(&self, files: usize) -> Result<(), Refusal<'static>> {
        if files as u64 >= self.folder.most_files {
            return Err(Refusal::from(Failure::TooManyFiles));
        }
        Ok(())
    }

    /// Returns why no log is begun.
    fn cannot_begin(&self, reason: &'static str, advice: &'static str) -> Halt<'static> {
        let reason = io::Error::new(ErrorKind::Unsupported, reason);
        let path = self.folder.path;
        Halt::stuck(self.rt.alloc(), "begin a log in", path, reason, advice)
    }
}

/// Returns the greatest timestamp of the log of this number and these bytes below the one that ends a log. Err: it has no header,
/// or out of memory.
pub fn last_before_end(alloc: Global, log: usize, bytes: &[u8]) -> Result<u64, Refusal<'static>> {
    let opened = match open_file(alloc, bytes) {
        Ok(opened) => opened,
        Err(fault) => return Err(Refusal::from(fault.of_log(log))),
    };
    let (head, records) = header_at(text_in(&opened, bytes)).ok_or(Fault::Header { log })?;
    let from = if head.from == u64::MAX { 0 } else { head.from };
    let kept = records_below(head.format, u64::MAX, records);
    last_of(alloc, Head { from, ..head }, &[kept])
}

/// Returns the line of a log: how many updates were dropped, how many bytes it had, and how many it has.
pub fn log_row<'x>(
    number: usize,
    name: &'x str,
    state: &'static str,
    sizes: [u64; 3],
    ended: bool,
) -> [Field<'x>; 7] {
    let [dropped, bytes, after] = sizes;
    let ended = if ended {
        Cell::Word("yes")
    } else {
        Cell::Number(None)
    };
    [
        ("log", Cell::Number(Some(number as u64))),
        ("file", Cell::Name(name)),
        ("state", Cell::Word(state)),
        ("dropped", Cell::Number(Some(dropped))),
        ("bytes", Cell::Number(Some(bytes))),
        ("after", Cell::Number(Some(after))),
        ("ended", ended),
    ]
}

/// Returns the last line of what a server needs to go on: the cutoff, and the greatest timestamp and version.
pub fn end_row(cutoff: u64, last: u64, version: u64) -> [Field<'static>; 3] {
    [
        ("cutoff", Cell::Number(Some(cutoff))),
        ("last", Cell::Number(Some(last))),
        ("version", Cell::Number(Some(version))),
    ]
}

/// Returns the greatest version of the entries of a checkpoint.
pub fn version_of(checkpoint: &Checkpoint) -> u64 {
    let mut version = 0;
    for part in &checkpoint.parts {
        for number in 0..part.entries.len() {
            version = part.entries.update(number).stamp().version.max(version);
        }
    }
    version
}
