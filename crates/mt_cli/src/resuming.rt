//! Answers the subcommand `resume`: makes the files of a folder those with which a server goes on after a crash.
use crate::answering::PRINTED_AT_ONCE;
use crate::beginning::{NewLog, end_row, log_row};
use crate::caveat::Caveat;
use crate::checked::{CheckedPart, unused_worker};
use crate::fates::{PartState, numbers_of};
use crate::halt::Halt;
use crate::host::{Host, Run};
use crate::request::Resume;
use crate::row::{Cell, write_row};
use crate::saving::Site;
use crate::watching::Look;
use mt_block::{Header, header_at as sealed_header_at};
use mt_record::resume_log;
use std::io::{BufWriter, Write};

impl<'a, R: Host> Run<'a, R> {
    /// Resumes the files, and prints what became of each. Recovery gives the same store after each step.
    pub fn resume<O: Write, E: Write + Send>(
        &self,
        how: Resume,
        out: &mut O,
        err: &mut E,
    ) -> Result<Option<Caveat>, Halt<'a>> {
        let site = Site {
            rt: self.rt,
            folder: self.folder.path,
            advice: "run it again: it goes on, and the store is the same; or write the store into a new folder by checkpoint",
        };
        if how.has_no_logs {
            return self.begin_over_checkpoint(&site, how, out, err);
        }
        for name in &self.names.logs {
            site.expect(name.as_str(), false)?;
        }
        let looks = self.look_at_logs()?;
        let checked = self.check_all(err)?;
        let losses = checked.losses();
        let writers = checked.writers(self.rt.alloc())?;
        let lost = self.lost_writers(writers)?;
        let loss = self.loss_of(&checked, how.budget.most_late, lost)?;
        let version = checked.version();
        let mut parts = checked.parts;
        if let Some(refusal) = checked.unopened {
            return Err(Halt::from(refusal));
        }
        let start = checked.start?;
        if loss.is_some() && !how.budget.accepts_loss {
            return Ok(loss.map(Caveat::Loss));
        }
        if let Some(loss) = &loss {
            loss.tell(err);
        }
        if how.is_strict {
            let noted = self.tell_noted(None, writers, err)?;
            if losses.is_some() {
                return Ok(losses.map(Caveat::Losses));
            }
            if noted.is_some() {
                return Ok(noted);
            }
        }
        let salt = site.salt()?;
        let base = &start.choice.chosen;
        let chosen = base.as_ref().map(|checkpoint| checkpoint.number);
        let begun = if start.window.cutoff == u64::MAX {
            let kept = parts.iter().filter(|part| !part.state.goes(chosen)).count();
            self.expect_room(self.names.logs.len().saturating_add(kept))?;
            let end = base.as_ref().map_or(0, |checkpoint| checkpoint.end);
            let last = self.last_below_end(&site)?.max(end);
            let header = Header {
                salt: salt.wrapping_add(self.names.logs.len() as u64),
                worker: unused_worker(self.rt.alloc(), &checked.logs)?,
                segment: 0,
                workers: 1,
                from: start.window.begin,
            };
            Some(NewLog::above(&site, header, last)?)
        } else {
            None
        };
        let writers = u32::try_from(writers).unwrap_or(u32::MAX);
        let cutoff = begun.as_ref().map_or(start.window.cutoff, |log| log.mark);
        let mut out = BufWriter::with_capacity(self.rt.alloc(), PRINTED_AT_ONCE, out)?;
        if !how.is_dry {
            // The disk must have what was read: the server may have ended before it synced.
            for name in self.names.logs.iter().chain(&self.names.parts) {
                site.sync_file(name.as_str())?;
            }
            site.sync()?;
            for name in &self.names.logs {
                site.expect_replaceable(name.as_str())?;
            }
            self.expect_unchanged(&looks)?;
            if let (Some(loss), Some(model)) = (&loss, self.names.logs.first()) {
                site.note(loss, model.as_str())?;
            }
            delete_parts(&site, &mut parts, chosen)?;
            if let (Some(log), Some(model)) = (&begun, self.names.logs.first()) {
                log.write(&site, model.as_str())?;
            }
        }
        for (number, part) in parts.iter().enumerate() {
            let goes = part.state.goes(chosen);
            let row = [
                ("part", Cell::Number(Some(number as u64))),
                ("file", Cell::Name(part.file.name)),
                ("bytes", Cell::Number(part.file.size)),
                ("state", Cell::Word(if goes { "deleted" } else { "kept" })),
            ];
            write_row(&row, how.is_json, &mut out)?;
        }
        let mut last = cutoff;
        for ((log, name), look) in self.names.logs.iter().enumerate().zip(&looks) {
            let plan = Replacement {
                cutoff,
                salt: salt.wrapping_add(log as u64),
                writers,
            };
            let file = (name.as_str(), *look);
            if replace_log(&site, log, file, plan, how, &mut out)? {
                last = u64::MAX;
            }
        }
        if let Some(log) = &begun {
            write_row(&log.row(self.names.logs.len()), how.is_json, &mut out)?;
        }
        if !how.is_dry {
            site.sync()?;
        }
        write_row(&end_row(cutoff, last, version), how.is_json, &mut out)?;
        out.flush()?;
        self.folder.tell_losses(losses, err);
        Ok(None)
    }
}

/// Deletes the parts that are of no use: those of checkpoints that are not chosen, and nameless ones. A checkpoint that is
/// invalid must not become valid on the way. So one of its parts is broken first, and deleted last.
fn delete_parts<R: Host>(
    site: &Site<'_, R>,
    parts: &mut [CheckedPart<'_>],
    chosen: Option<u32>,
) -> Result<(), Halt<'static>> {
    for number in &numbers_of(site.rt.alloc(), parts)? {
        if chosen != Some(*number) {
            spoil(site, parts, *number)?;
        }
    }
    site.sync()?;
    for are_whole in [true, false] {
        for part in &*parts {
            let is_whole = matches!(part.state, PartState::Whole(_));
            if part.state.goes(chosen) && is_whole == are_whole {
                site.delete(part.file.name)?;
            }
        }
        site.sync()?;
    }
    Ok(())
}

/// Breaks the first complete part of the checkpoint with this number, if it has several.
fn spoil<R: Host>(
    site: &Site<'_, R>,
    parts: &mut [CheckedPart<'_>],
    number: u32,
) -> Result<(), Halt<'static>> {
    let mut wholes = parts
        .iter_mut()
        .filter(|part| part.state.of_checkpoint(number).is_some());
    let Some(part) = wholes.next() else {
        return Ok(());
    };
    if wholes.next().is_none() {
        return Ok(());
    }
    site.spoil(part.file.name)?;
    part.state = PartState::Broken {
        checkpoint: number,
        entries: 0,
    };
    Ok(())
}

/// What replaces a log: its records below the cutoff. The header of a file of format 4 has this salt, and says at most this number
/// of writers. It never says more workers than before, since a server may delete all files of a worker whose log has ended.
#[derive(Clone, Copy)]
struct Replacement {
    cutoff: u64,
    salt: u64,
    writers: u32,
}

/// Replaces a log, if it is not resumed yet and is as it was in the look, prints its line, and returns whether it was ended. A log
/// of format 4 is always replaced, by a file with another salt: so no block of the old file is one of the new file, wherever the
/// disk puts it.
fn replace_log<R: Host, O: Write>(
    site: &Site<'_, R>,
    log: usize,
    (name, look): (&str, Option<Look>),
    plan: Replacement,
    how: Resume,
    out: &mut O,
) -> Result<bool, Halt<'static>> {
    let bytes = site.read(name)?;
    let workers = match sealed_header_at(&bytes) {
        Some((header, _)) => header.workers.min(plan.writers),
        None => plan.writers,
    };
    let alloc = site.rt.alloc();
    let new = match resume_log(alloc, &bytes, plan.cutoff, plan.salt, workers) {
        Ok(new) => new,
        Err(fault) => return Err(Halt::from(fault.of_log(log))),
    };
    if new.changed && !how.is_dry {
        site.replace(name, look, &new.front, new.records, &new.marks)?;
    }
    let after = new
        .front
        .len()
        .saturating_add(new.records.len())
        .saturating_add(new.marks.len());
    let state = if new.changed { "replaced" } else { "kept" };
    let sizes = [new.dropped, bytes.len() as u64, after as u64];
    write_row(
        &log_row(log, name, state, sizes, new.ended),
        how.is_json,
        out,
    )?;
    Ok(new.ended)
}
