//! Answers the subcommand `checkpoint`: writes the store of a folder as a checkpoint and a log into a new folder.
ghost use Rattle.std.specs.Prelude.{◌-◌, ◌<◌, ◌^◌, length, IfOk, OnOk};
ghost use Rattle.std.specs.Io.KnownBytes.{Appends};
ghost use Rattle.mt_cli.specs.Written.{IsCheckpointOf, written_text};

use crate::answering::PRINTED_AT_ONCE;
use crate::caveat::{Caveat, Losses};
use crate::halt::Halt;
use crate::host::{Host, Lock, Run};
use crate::loss::{Loss, MOST_LATE_MARKS};
use crate::noting::NOTES;
use crate::request::NewFolder;
use crate::row::{Cell, write_row};
use crate::saving::{Site, make_folder, no_file};
use crate::watching::Look;
use mt_checkpoint::{Checkpoint, PlanFault};
use mt_recover::{Recovered, Report};
use std::alloc::Global;
use std::fs::{File, OpenFile};
use std::io::{self, BufWriter, Write};
use std::mem;

/// The name of the log that makes the checkpoint count.
const LOG: &str = "log.mtl";

impl<'a, R: Host> Run<'a, R> {
    /// Recovers the store and writes it into a new folder, which may have as many files as the other. As in a query, the
    /// store is not freed.
    pub fn checkpoint<O: Write, E: Write + Send>(
        &self,
        new: &NewFolder<'_>,
        out: &mut O,
        err: &mut E,
    ) -> Result<Option<Caveat>, Halt<'a>> {
        let looks = self.look_at_logs()?;
        let recovered = self.recover(err)?;
        let writers = recovered.report().writers;
        let lost = self.lost_writers(writers)?;
        let loss = if lost.is_some() || may_have_lost(recovered.report()) {
            // Only a check tells which file shows it.
            self.expect_no_pipe()?;
            let checked = self.check_all(err)?;
            self.loss_of(&checked, new.budget.most_late, lost)?
        } else {
            None
        };
        if loss.is_some() && !new.budget.accepts_loss {
            mem::forget(recovered);
            return Ok(loss.map(Caveat::Loss));
        }
        if let Some(loss) = &loss {
            loss.tell(err);
        }
        let checkpoint = plan_of(self.rt.alloc(), new, &recovered)?;
        if u64::from(checkpoint.parts()) >= self.folder.most_files {
            return Err(Halt::from(PlanFault::Parts));
        }
        self.write_all(&looks, loss.as_ref(), new, &checkpoint)?;
        write_line(new, checkpoint.parts(), recovered.report(), out)?;
        out.flush()?;
        self.folder.tell_losses(Losses::of(recovered.report()), err);
        mem::forget(checkpoint);
        mem::forget(recovered);
        Ok(None)
    }

    /// Refuses if a log or a part cannot be read twice.
    fn expect_no_pipe(&self) -> Result<(), Halt<'static>> {
        match self.first_pipe() {
            Some(name) => {
                let advice = "copy it into a file: what is lost is found by a second reading";
                Err(Halt::stuck(self.rt.alloc(), "read", name, no_file(), advice))
            }
            None => Ok(()),
        }
    }

    /// Writes the parts of the checkpoint into the new folder, which is locked meanwhile, notes the loss there, and then writes
    /// the log, if the logs are as they were in these looks.
    fn write_all(
        &self,
        looks: &[Option<Look>],
        loss: Option<&Loss>,
        new: &NewFolder<'_>,
        checkpoint: &Checkpoint<'_>,
    ) -> Result<(), Halt<'static>> {
        make_folder(self.rt, new.path)?;
        let site = Site {
            rt: self.rt,
            folder: new.path,
            advice: "delete the new folder, which is no store yet, and run it again",
        };
        let _lock = site.tell("lock", new.path, lock_at(self.rt, new.path))?;
        let salt = site.salt()?;
        for part in 0..checkpoint.parts() {
            let name = format!(in self.rt.alloc(); "{}-{part}.mtc", new.number)?;
            let salt = salt.wrapping_add(u64::from(part));
            let written = write_part(&site, checkpoint, salt, part, name.as_str());
            site.tell("write", name.as_str(), written)?;
        }
        if let Some(loss) = loss {
            site.note(loss, NOTES)?;
        }
        // The log counts, so all parts must be there before it.
        site.sync()?;
        self.expect_unchanged(looks)?;
        let salt = salt.wrapping_add(u64::from(checkpoint.parts()));
        let log = checkpoint.log(self.rt.alloc(), salt)?;
        site.write(LOG, LOG, &log)?;
        site.sync()
    }
}

/// Returns whether a report does not rule out that more was lost than a crash loses.
fn may_have_lost(report: &Report) -> bool {
    let goes_beyond = report.last > report.cutoff;
    let has_late_marks = goes_beyond && report.marks > u128::from(MOST_LATE_MARKS);
    has_late_marks || Losses::of(report).is_some()
}

/// Plans the checkpoint of what was recovered, at its cutoff. Its entries have the greatest version found below the cutoff.
/// The versions of late updates do not count: a server may give them to other updates after the restart.
fn plan_of<'r>(
    alloc: Global,
    new: &NewFolder<'_>,
    recovered: &'r Recovered,
) -> Result<Checkpoint<'r>, PlanFault>
    ensures { IfOk result (IsCheckpointOf new.now.number new.now.limit recovered.now) }
{
    let report = recovered.report();
    Checkpoint::plan(
        alloc,
        recovered.store().tree(),
        new.number,
        report.cutoff,
        report.version_below_cutoff,
        new.limit,
    )
}

/// Prints the line of a checkpoint that was written. Its log has a mark beyond the cutoff. Err: write error.
fn write_line<O: Write>(
    new: &NewFolder<'_>,
    parts: u16,
    report: &Report,
    out: &mut O,
) -> io::Result<()>
    requires { report.now.cutoff < 2 ^ 64 - 1 }
    ensures { OnOk result (Appends (O.contents out.old) (O.contents out.new) (written_text new.now.is_json new.now.number parts report.now)) }
{
    let row = [
        ("checkpoint", Cell::Number(Some(u64::from(new.number)))),
        ("parts", Cell::Number(Some(u64::from(parts)))),
        ("cutoff", Cell::Number(Some(report.cutoff))),
        ("last", Cell::Number(Some(report.cutoff + 1))),
        ("version", Cell::Number(Some(report.version))),
    ];
    write_row(&row, new.is_json, out)
}

/// Locks the folder of this path until what is returned is dropped.
fn lock_at<R: Host>(rt: &R, path: &str) -> io::Result<R::File> {
    let folder = File::open(rt, path)?;
    folder.lock_at_once(false)?;
    Ok(folder)
}

/// Writes a part into a new file of this name and this salt, in one step.
fn write_part<R: Host>(
    site: &Site<'_, R>,
    checkpoint: &Checkpoint<'_>,
    salt: u64,
    part: u16,
    name: &str,
) -> io::Result<()>
    requires { part < length checkpoint.now.parts }
{
    let path = site.path(name)?;
    let mut file = site.begin(&path, &path)?;
    let mut out = BufWriter::with_capacity(site.rt.alloc(), PRINTED_AT_ONCE, &mut file)?;
    checkpoint.write_part(site.rt.alloc(), salt, part, &mut out)?;
    out.flush()?;
    drop(out);
    site.finish(file, &path)
}
