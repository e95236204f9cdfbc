//! Tells where the late records of a log begin, and counts its late marks.
use crate::checked::{Checked, CheckedLog};
use crate::host::{Host, Run};
use crate::intake::{Intake, LogIntake, unread};
use crate::loss::MOST_LATE_MARKS;
use crate::sealed::{Sealed, TEXT_HEADER, unopened};
use mt_record::{FeedFault, Head, KeptRecords, LogFeed, encode_head, records_below};
use mt_recover::{Failure, Refusal};
use mt_text::Shown;
use mt_words::{Fault, Memory};
use std::alloc::Global;
use std::io::{self, ErrorKind, Read, Write};

impl<'a, R: Host> Run<'a, R> {
    /// Tells of each log with late updates the byte where its records from the cutoff on begin, up to which it counts. A write
    /// error is passed over.
    pub fn tell_late<E: Write>(&self, checked: &Checked<'_>, err: &mut E) -> Result<(), Memory> {
        let Ok(start) = &checked.start else {
            return Ok(());
        };
        for log in &checked.logs {
            let Some(at) = self.late_at(log, start.window.cutoff)? else {
                continue;
            };
            let _ = writeln!(
                err,
                "hint: {}: its records from the cutoff on begin at byte {at}",
                Shown(log.file.name)
            );
        }
        Ok(())
    }

    /// Returns the byte of a log where its records from this timestamp on begin. None: none of them is an update, or it cannot
    /// be read again.
    fn late_at(&self, log: &CheckedLog<'_>, cutoff: u64) -> Result<Option<usize>, Memory> {
        let (Some(head), Some(is_sealed)) = (log.late_head(), log.is_sealed) else {
            return Ok(None);
        };
        let Some(file) = self.read_again(log.file.name, 1)? else {
            return Ok(None);
        };
        let alloc = self.rt.alloc();
        let found = if is_sealed {
            late_in_sealed(alloc, file, cutoff)
        } else {
            late_in(alloc, file, head, cutoff)
        };
        // What was read before cannot be read now.
        Ok(found.unwrap_or(None))
    }

    /// Returns whether an update is late, or more marks of a log than a crash leaves. Err: read error, or out of memory.
    pub fn has_late(&self, checked: &Checked<'_>, cutoff: u64) -> Result<bool, Refusal<'static>> {
        if checked.late() > 0 {
            return Ok(true);
        }
        for (number, log) in checked.logs.iter().enumerate() {
            if self.late_marks(number, log, cutoff)? > MOST_LATE_MARKS {
                return Ok(true);
            }
        }
        Ok(false)
    }

    /// Returns the number of marks of the log of this number at or past the cutoff, without the mark that ends a log, for which the
    /// log is read again. It is 0 if the log has at most `MOST_LATE_MARKS` marks, does not go on beyond the cutoff, or is a pipe. Err:
    /// read error, or out of memory.
    pub fn late_marks(
        &self,
        number: usize,
        log: &CheckedLog<'_>,
        cutoff: u64,
    ) -> Result<u64, Refusal<'static>> {
        let Ok(check) = &log.check else {
            return Ok(0);
        };
        let last = check.front.last();
        if check.marks <= MOST_LATE_MARKS || last <= cutoff {
            return Ok(0);
        }
        let Some(file) = self.read_again(log.file.name, 1)? else {
            return Ok(0);
        };
        match marks_from(self.rt.alloc(), file, cutoff) {
            Ok(marks) => Ok(marks.saturating_sub(u64::from(last == u64::MAX))),
            Err(error) => Err(Refusal::of(Failure::Recovery(Fault::Source { log: number }), error)),
        }
    }
}

/// Returns the number of marks of a log from this timestamp on, up to the first fault of its bytes. Err: read error, or out of
/// memory.
fn marks_from<F: Read + Drop>(alloc: Global, file: Intake<F>, timestamp: u64) -> io::Result<u64> {
    let mut file = file;
    let mut feed: LogFeed<KeptRecords> = LogFeed::keeping(alloc);
    let mut marks: u64 = 0;
    for _ in 0..u64::MAX {
        let fed = feed.feed(&file.held);
        let (late, _) = feed.drop_at(timestamp);
        marks = marks.saturating_add(late.marks);
        match fed {
            Ok(()) => file.pass(usize::MAX),
            Err(FeedFault::Memory) => return Err(io::Error::from(ErrorKind::OutOfMemory)),
            Err(_) => break,
        }
        if file.more()?.is_none() {
            break;
        }
    }
    Ok(marks)
}

/// Returns the byte of a log of this header where its records from this timestamp on begin.
fn late_in<F: Read + Drop>(
    alloc: Global,
    file: Intake<F>,
    head: Head,
    cutoff: u64,
) -> Result<Option<usize>, Refusal<'static>> {
    let mut file = file;
    file.pass(encode_head(alloc, head)?.len());
    let mut log = LogIntake::new(alloc, file, head)?;
    for _ in 0..u64::MAX {
        let records = log.records();
        let below = records_below(head.format, cutoff, records).len();
        if below < records.len() {
            return Ok(Some(log.file.at.saturating_add(below)));
        }
        log.pass();
        if !log.more()? {
            break;
        }
    }
    Ok(None)
}

/// Returns the byte of a log of format 4 where its records from this timestamp on begin.
fn late_in_sealed<F: Read + Drop>(
    alloc: Global,
    file: Intake<F>,
    cutoff: u64,
) -> Result<Option<usize>, Refusal<'static>> {
    let log = Sealed::open(alloc, file.into_all().map_err(unread)?).map_err(unopened)?;
    let below = records_below(log.front.head.format, cutoff, log.records()).len();
    Ok(Some(log.first.file_at(TEXT_HEADER.saturating_add(below))))
}
