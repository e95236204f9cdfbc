//! What a store lost that no crash loses.
use crate::caveat::plural;
use crate::checked::{Checked, CheckedLog};
use crate::fates::{Fate, numbers_of};
use crate::host::{Host, Run};
use mt_recover::{Refusal, Start};
use mt_text::Shown;
use mt_words::Memory;
use std::alloc::{AllocError, Global};
use std::io::Write;

/// How many marks of a log at or past the cutoff a crash may leave. A host ends each commit with a mark, so they are the commits by
/// which another log was ahead: hosts leave at most 4 of them, a log that was cut short leaves up to a thousand in other logs.
pub const MOST_LATE_MARKS: u64 = 16;

/// How much may be lost without being accepted, as residue of a crash.
#[derive(Clone, Copy)]
pub struct Budget {
    /// The most updates that may be late. None: any number, but no log may have more than `MOST_LATE_MARKS` late marks.
    pub most_late: Option<u64>,
    /// Whether each loss is accepted.
    pub accepts_loss: bool,
}

/// What a store lost that no crash loses: a line for each file or checkpoint that shows it.
#[derive(Drop)]
pub struct Loss(pub Vec<String>);

impl Loss {
    /// Prints the lines. A write error is passed over.
    pub fn tell<E: Write>(&self, err: &mut E) {
        for line in &self.0 {
            let _ = writeln!(err, "mtrecover: loss: {line}");
        }
    }
}

impl<'a, R: Host> Run<'a, R> {
    /// Returns a line if this is another number of writers than the arguments say or, if they say none, fewer than a header of
    /// format 4 says. A crash never leaves fewer: a header counts only workers of which a file was created, and a server keeps a
    /// file of each worker that its headers count. Err: out of memory.
    pub fn lost_writers(&self, count: usize) -> Result<Option<String>, Memory> {
        let alloc = self.rt.alloc();
        let s = plural(count as u128);
        if let Some(wanted) = self.folder.writers {
            if wanted == count as u64 {
                return Ok(None);
            }
            let line = format!(in alloc; "{count} writer{s}, but {wanted} must be there")?;
            return Ok(Some(line));
        }
        let said = self.workers_said()?;
        match said.iter().max() {
            Some(most) if *most as usize > count => {
                let line = format!(in alloc; "{count} writer{s}, but a header says {most}")?;
                Ok(Some(line))
            }
            _ => Ok(None),
        }
    }

    /// Returns what recovery of these files loses that no crash loses, if this many updates may be late, and the line on the number
    /// of writers if there is one. None: nothing, or it names a fault. Err: read error, or out of memory.
    pub fn loss_of(
        &self,
        checked: &Checked<'_>,
        most_late: Option<u64>,
        writers: Option<String>,
    ) -> Result<Option<Loss>, Refusal<'static>> {
        let Ok(start) = &checked.start else {
            return Ok(None);
        };
        let alloc = self.rt.alloc();
        let mut lines = Vec::new(alloc);
        if let Some(line) = writers {
            lines.push(line)?;
        }
        let cutoff = start.window.cutoff;
        match most_late {
            Some(most) => checked.add_late(alloc, cutoff, most, &mut lines)?,
            None => self.add_late_marks(checked, cutoff, &mut lines)?,
        }
        for log in &checked.logs {
            log.add_holes(alloc, &mut lines)?;
        }
        checked.add_checkpoints(alloc, start, &mut lines)?;
        Ok((!lines.is_empty()).then_some(Loss(lines)))
    }

    /// Adds each log with more than `MOST_LATE_MARKS` late marks, and the file that ends at the cutoff.
    fn add_late_marks(
        &self,
        checked: &Checked<'_>,
        cutoff: u64,
        lines: &mut Vec<String>,
    ) -> Result<(), Refusal<'static>> {
        let end = Shown(checked.name_at(cutoff));
        for (number, log) in checked.logs.iter().enumerate() {
            let marks = self.late_marks(number, log, cutoff)?;
            if marks > MOST_LATE_MARKS {
                let name = Shown(log.file.name);
                let line = format!(in self.rt.alloc();
                    "{name}: {marks} marks at or past the cutoff; {end} ends at {cutoff}"
                )?;
                lines.push(line)?;
            }
        }
        Ok(())
    }
}

impl Checked<'_> {
    /// Adds the file that ends at the cutoff, if more updates than this number are late.
    fn add_late(
        &self,
        alloc: Global,
        cutoff: u64,
        most: u64,
        lines: &mut Vec<String>,
    ) -> Result<(), Memory> {
        let late = self.late();
        if late <= u128::from(most) {
            return Ok(());
        }
        let (s, name) = (plural(late), Shown(self.name_at(cutoff)));
        lines.push(format!(in alloc; "{late} update{s} late: {name} ends at {cutoff}")?)?;
        Ok(())
    }

    /// Returns the name of the file that ends at the cutoff.
    fn name_at(&self, cutoff: u64) -> &str {
        let Some(number) = self.log_of(cutoff) else {
            return "";
        };
        match self.logs.get(number as usize) {
            Some(log) => log.file.name,
            None => "",
        }
    }

    /// Adds the damaged checkpoints that are newer than the chosen one.
    fn add_checkpoints(
        &self,
        alloc: Global,
        start: &Start,
        lines: &mut Vec<String>,
    ) -> Result<(), Memory> {
        let chosen = start.choice.chosen.as_ref().map(|chosen| chosen.number);
        for number in &numbers_of(alloc, &self.parts)? {
            if chosen.is_some_and(|chosen| *number <= chosen) {
                continue;
            }
            let is_unordered = Fate::of(*number, self).word == "unordered";
            if is_unordered || self.parts.iter().any(|part| part.is_damaged(*number)) {
                lines.push(format!(in alloc; "checkpoint {number} skipped: it is damaged")?)?;
            }
        }
        Ok(())
    }
}

impl CheckedLog<'_> {
    /// Adds the hole before it, and that records follow its torn tail.
    fn add_holes(&self, alloc: Global, lines: &mut Vec<String>) -> Result<(), Memory> {
        let name = Shown(self.file.name);
        if let (Some(hole), Some(front)) = (self.hole, self.front()) {
            let from = front.from();
            lines.push(format!(in alloc; "{name}: a hole from {hole} to {from} is before it")?)?;
        }
        if self.is_damaged() {
            lines.push(format!(in alloc; "{name}: records follow its torn tail")?)?;
        }
        Ok(())
    }
}
