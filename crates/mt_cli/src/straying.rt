//! A log that is perhaps of another store: it alone keeps a checkpoint from being chosen.
use crate::halt::Halt;
use crate::host::{Host, Run};
use crate::progress::{Meter, Telling};
use mt_record::LogFront;
use mt_recover::{Failure, Refusal, check_parts, fronts_of, start_of};
use mt_scan::cutoff;
use mt_text::Shown;
use mt_words::Fault;
use std::alloc::{AllocError, Global};
use std::io::{self, Write};

impl<'a, R: Host> Run<'a, R> {
    /// Prints which log keeps a checkpoint from being chosen, if a command stopped at a gap and there is one. Reads the files again.
    /// If that fails, or one of them cannot be read twice, nothing is printed. A write error is passed over.
    pub fn tell_stray<E: Write>(&self, halt: &Halt<'_>, err: &mut E) {
        match halt {
            Halt::Refused(
                Refusal {
                    failure: Failure::Recovery(Fault::Gap { .. }),
                    ..
                },
            ) => {}
            _ => return,
        }
        if self.first_pipe().is_some() {
            // A pipe is not read twice.
            return;
        }
        if let Ok(Some((name, checkpoint))) = self.stray() {
            let _ = writeln!(
                err,
                "hint: {}: without it checkpoint {checkpoint} would be chosen: is it of this store?",
                Shown(name)
            );
        }
    }

    /// Returns the log that alone holds the cutoff down, and the number of the checkpoint that would be chosen without it. None: none
    /// would. Err: recovery would name a fault, or the files cannot be read again.
    fn stray(&self) -> Result<Option<(&'a str, u32)>, Refusal<'a>> {
        let alloc = self.rt.alloc();
        let mut rack = self.rack()?;
        let mut nowhere = io::sink();
        let meter = Meter::new(self.rt, Telling::Never, 0, 0, &mut nowhere);
        let (checks, _) = self.check_logs(&[], rack.slots(), u64::MAX, &meter)?;
        let (sources, _) = self.open_each(&self.names.parts, &[], rack.slots())?;
        let parts = check_parts(self.rt, alloc, sources, self.folder.workers)?;
        let fronts = fronts_of(alloc, checks)?;
        let Some(cutoff) = cutoff(&fronts) else {
            return Ok(None);
        };
        let found = fronts
            .iter()
            .position(|front| ends_writer(&fronts, front, cutoff));
        let Some(log) = found else {
            return Ok(None);
        };
        let (Some(front), Some(name)) = (fronts.get(log), self.names.logs.get(log)) else {
            return Ok(None);
        };
        let others = without(alloc, &fronts, log, front)?;
        let start = start_of(alloc, &others, parts)?;
        let chosen = start.choice.chosen.as_ref();
        Ok(chosen.map(|chosen| (name.as_str(), chosen.number)))
    }
}

/// Returns whether a file ends at this timestamp, and no other file of its writer ends after that.
fn ends_writer(fronts: &[LogFront], file: &LogFront, end: u64) -> bool {
    if file.last() != end {
        return false;
    }
    for other in fronts {
        if is_of_writer(other, file) && other.last() > end {
            return false;
        }
    }
    true
}

/// Returns whether the first file is a segment of the same worker's log as the second one, which may be the same file.
fn is_of_writer(other: &LogFront, file: &LogFront) -> bool {
    match (other.head.segment, file.head.segment) {
        (Some(other), Some(segment)) => other.worker == segment.worker,
        _ => false,
    }
}

/// Returns the fronts of all files but those of the writer of this one, which is the log of this number. Err: out of memory.
fn without(
    alloc: Global,
    fronts: &[LogFront],
    log: usize,
    file: &LogFront,
) -> Result<Vec<LogFront>, AllocError> {
    let mut others = Vec::with_capacity(alloc, fronts.len())?;
    for (number, front) in fronts.iter().enumerate() {
        if number != log && !is_of_writer(front, file) {
            others.push(*front)?;
        }
    }
    Ok(others)
}
