//! What a check finds in the files of a folder, as lines.
use crate::beginning::version_of;
use crate::caveat::Losses;
use crate::ending::{Again, Ending};
use crate::fates::{Fate, PartState, numbers_of};
use crate::flaws::Fall;
use crate::heads::continued;
use crate::row::{Cell, Field};
use crate::sealed::PART_HEADER;
use crate::sheet::Sheet;
use mt_record::{Head, LogFront, Rest, Segment};
use mt_recover::{LogCheck, Refusal, Start};
use mt_scan::writer_count;
use mt_text::Shown;
use mt_words::{Fault, Memory};
use std::alloc::{AllocError, Global};
use std::io::{self, Write};

/// What a check finds in the files of a folder.
#[derive(Drop)]
pub struct Checked<'a> {
    pub logs: Vec<CheckedLog<'a>>,
    pub parts: Vec<CheckedPart<'a>>,
    /// Why the first file that cannot be opened cannot, if there is one. Recovery says so before it reads a file.
    pub unopened: Option<Refusal<'a>>,
    /// Where recovery begins, or the fault that it names.
    pub start: Result<Start, Fault>,
    /// The cutoff. None: recovery names a fault before it compares checkpoints with it.
    pub cutoff: Option<u64>,
    /// Where the keys of checkpoints fall.
    pub falls: Vec<Fall>,
}

/// A file of a folder.
#[derive(Drop)]
pub struct CheckedFile<'a> {
    pub name: &'a str,
    /// Its size in bytes, if the system tells.
    pub size: Option<u64>,
    /// Why it is unread, if it is and the system tells.
    pub reason: Option<io::Error>,
}

/// What a check finds in a log.
#[derive(Drop)]
pub struct CheckedLog<'a> {
    pub file: CheckedFile<'a>,
    /// Whether it is of format 4. None: its file cannot be read again.
    pub is_sealed: Option<bool>,
    pub check: Result<LogCheck, Fault>,
    /// The byte of its file where its complete records end, if it is of format 4 and its file could be read again.
    pub end: Option<u64>,
    /// What follows its complete records, if something does, and its file could be read again.
    pub ending: Option<Ending>,
    /// Where the hole before it begins, if there is one and recovery names no fault.
    pub hole: Option<u64>,
    /// The name of another log that it is a beginning of, or equal to, if one was looked for and found.
    pub copy: Option<&'a str>,
}

/// What a check finds in a part.
#[derive(Drop)]
pub struct CheckedPart<'a> {
    pub file: CheckedFile<'a>,
    pub state: PartState,
    /// Where its entries go on after damage, if it is broken and they do, and its file could be read again.
    pub again: Option<Again>,
    /// The number of entries that its footer has, if it is broken only because they are not as many.
    pub counted: Option<u32>,
}

/// The bytes of memory that recovery takes for a byte of ordinary logs and parts, about.
const MEMORY_A_BYTE: u64 = 3;

impl<'a> Checked<'a> {
    /// Prints a line for each log, for each part, for each checkpoint, and for the cutoff if there is one.
    pub fn write<W: Write>(
        &self,
        alloc: Global,
        sheet: &mut Sheet<'_, W>,
    ) -> Result<(), Refusal<'static>> {
        for (number, log) in self.logs.iter().enumerate() {
            let is_good = log.is_good() && !self.is_at_fault(number);
            sheet.judged(&log.fields(number, self.start.is_ok()), is_good)?;
        }
        for (number, part) in self.parts.iter().enumerate() {
            let is_good = matches!(part.state, PartState::Whole(_));
            sheet.judged(&part.fields(number), is_good)?;
        }
        for number in &numbers_of(alloc, &self.parts)? {
            let fate = Fate::of(*number, self);
            sheet.judged(&fate.fields(), fate.is_good())?;
        }
        if let Ok(start) = &self.start {
            let row = [
                ("cutoff", Cell::Number(Some(start.window.cutoff))),
                ("log", Cell::Number(self.log_of(start.window.cutoff))),
                ("begin", Cell::Number(Some(start.window.begin))),
                ("memory", Cell::Number(self.memory())),
                ("last", Cell::Number(Some(self.last_up_to(u64::MAX)))),
                ("version", Cell::Number(Some(self.version()))),
            ];
            sheet.row(&row)?;
        }
        Ok(())
    }

    /// Returns whether recovery names a fault of the log of this number.
    fn is_at_fault(&self, number: usize) -> bool {
        match &self.start {
            Err(
                Fault::Header { log }
                | Fault::Record { log, .. }
                | Fault::Source { log }
                | Fault::Doubled { log }
                | Fault::Torn { log }
                | Fault::Gap { log },
            ) => *log == number,
            _ => false,
        }
    }

    /// Returns the first file that ends at the cutoff, as does the log that it belongs to. Of a worker's log it is the newest
    /// segment that does, to which the worker may go on to append.
    pub fn log_of(&self, cutoff: u64) -> Option<u64> {
        for (number, log) in self.logs.iter().enumerate() {
            if self.ends_log(log, cutoff) {
                return Some(number as u64);
            }
        }
        None
    }

    /// Returns whether a file ends at the cutoff, and no segment of its worker's log ends after that, or is newer and ends there.
    fn ends_log(&self, log: &CheckedLog<'_>, cutoff: u64) -> bool {
        let Some(file) = log.front() else {
            return false;
        };
        if file.last() != cutoff {
            return false;
        }
        let Some(segment) = file.head.segment else {
            return true;
        };
        for front in self.logs.iter().filter_map(CheckedLog::front) {
            let (last, other) = (front.last(), front.head.segment);
            let is_beyond = match other {
                Some(other) if other.worker == segment.worker => {
                    last > cutoff || (last == cutoff && other.number > segment.number)
                }
                _ => false,
            };
            if is_beyond {
                return false;
            }
        }
        true
    }

    /// Returns the numbers of the files that end at the cutoff, as do the logs that they belong to. Err: out of memory.
    pub fn ending_at(&self, alloc: Global, cutoff: u64) -> Result<Vec<usize>, AllocError> {
        let mut early = Vec::new(alloc);
        for (number, log) in self.logs.iter().enumerate() {
            if self.ends_log(log, cutoff) {
                early.push(number)?;
            }
        }
        Ok(early)
    }

    /// Returns the greatest timestamp of the logs that have not ended.
    pub fn last_below_end(&self) -> u64 {
        self.last_up_to(u64::MAX - 1)
    }

    /// Returns the greatest timestamp of the logs that end at this timestamp or before it.
    fn last_up_to(&self, end: u64) -> u64 {
        let mut greatest = 0;
        for front in self.logs.iter().filter_map(CheckedLog::front) {
            if front.last() <= end {
                greatest = front.last().max(greatest);
            }
        }
        greatest
    }

    /// Returns the greatest version of the logs and of the entries of the chosen checkpoint.
    pub fn version(&self) -> u64 {
        let mut version = match &self.start {
            Ok(start) => start.choice.chosen.as_ref().map_or(0, version_of),
            Err(_) => 0,
        };
        for front in self.logs.iter().filter_map(CheckedLog::front) {
            version = front.version.max(version);
        }
        version
    }

    /// Returns about how many bytes of memory recovery takes. None: the size of a file is not known.
    pub fn memory(&self) -> Option<u64> {
        let mut bytes: u64 = 0;
        for log in &self.logs {
            bytes = bytes.checked_add(log.file.size?)?;
        }
        for part in &self.parts {
            bytes = bytes.checked_add(part.file.size?)?;
        }
        bytes.checked_mul(MEMORY_A_BYTE)
    }

    /// Returns whether recovery names the log of this number as a segment that is torn, though another one follows it.
    pub fn is_torn_segment(&self, number: usize) -> bool {
        matches!(self.start, Err(Fault::Torn { log }) if log == number)
    }

    /// Prints what may have happened to each damaged log, why checkpoints are not valid, and what may close a gap. A write error is
    /// passed over. Err: out of memory.
    pub fn tell_hints<E: Write>(&self, alloc: Global, err: &mut E) -> Result<(), Memory> {
        for log in &self.logs {
            if let Some(ending) = &log.ending {
                ending.tell_hints(!log.is_torn(), log.file.name, err);
            }
        }
        for flaw in &self.flaws(alloc)? {
            let _ = writeln!(err, "hint: {flaw}");
        }
        let Err(Fault::Gap { log }) = self.start else {
            return Ok(());
        };
        self.tell_changed(log, err);
        for part in &self.parts {
            if let PartState::Broken { checkpoint, .. } = part.state {
                let _ = writeln!(
                    err,
                    "hint: {}: it is broken: cut --skip saves its entries, and then checkpoint {checkpoint} may close the gap",
                    Shown(part.file.name)
                );
            }
        }
        Ok(())
    }

    /// Prints that the number of the worker of this log looks changed, if the log begins where the segment before it ends of
    /// another worker. A write error is passed over.
    fn tell_changed<E: Write>(&self, log: usize, err: &mut E) {
        let Some(gap) = self.logs.get(log) else {
            return;
        };
        for log in &self.logs {
            let (Some(front), Some(next)) = (log.front(), gap.front()) else {
                continue;
            };
            if let Some(Segment { worker, number }) = continued(front, next) {
                let _ = writeln!(
                    err,
                    "hint: {}: its from is where the segment before it of worker {worker} ends: was it segment {number} of that worker?",
                    Shown(gap.file.name)
                );
            }
        }
    }

    /// Returns what recovery loses or passes over. None: nothing.
    pub fn losses(&self) -> Option<Losses> {
        let Ok(start) = &self.start else {
            return None;
        };
        let mut torn: u128 = 0;
        let mut holes: u128 = 0;
        for log in &self.logs {
            torn = torn.saturating_add(u128::from(log.is_torn()));
            holes = holes.saturating_add(u128::from(log.hole.is_some()));
        }
        let skipped = start.choice.skipped.len() as u128;
        let nameless = start.choice.nameless.len() as u128;
        Losses::new([torn, holes, self.late(), skipped, nameless])
    }

    /// Returns the fronts of the logs that have a header. Err: out of memory.
    pub fn fronts(&self, alloc: Global) -> Result<Vec<LogFront>, AllocError> {
        let mut fronts = Vec::with_capacity(alloc, self.logs.len())?;
        for front in self.logs.iter().filter_map(CheckedLog::front) {
            fronts.push(*front)?;
        }
        Ok(fronts)
    }

    /// Returns the number of writers of these logs. Err: out of memory.
    pub fn writers(&self, alloc: Global) -> Result<usize, AllocError> {
        Ok(writer_count(&self.fronts(alloc)?))
    }

    /// Returns the number of late updates, if there is a cutoff.
    pub fn late(&self) -> u128 {
        let mut late: u128 = 0;
        for log in &self.logs {
            if let Ok(check) = &log.check {
                late = late.saturating_add(u128::from(check.late));
            }
        }
        late
    }
}

/// Returns the least number that no worker of these logs has. Err: out of memory.
pub fn unused_worker(alloc: Global, logs: &[CheckedLog<'_>]) -> Result<u32, AllocError> {
    let mut workers = Vec::with_capacity(alloc, logs.len())?;
    for front in logs.iter().filter_map(CheckedLog::front) {
        if let Some(segment) = front.head.segment {
            workers.push(segment.worker)?;
        }
    }
    workers.sort_unstable();
    let mut unused: u32 = 0;
    for worker in &workers {
        if *worker == unused {
            unused = unused.saturating_add(1);
        }
    }
    Ok(unused)
}

impl CheckedLog<'_> {
    /// Returns its front, if it has a header.
    pub fn front(&self) -> Option<&LogFront> {
        match &self.check {
            Ok(check) => Some(&check.front),
            Err(_) => None,
        }
    }

    /// Returns whether it has complete records, behind its header or, without one, anywhere.
    pub fn has_records(&self) -> bool {
        match self.front() {
            Some(front) => front.count > 0,
            None => matches!(&self.ending, Some(ending) if ending.again.is_some()),
        }
    }

    /// Returns whether it has ended: its last timestamp is the greatest one.
    pub fn has_ended(&self) -> bool {
        matches!(self.front(), Some(front) if front.last() == u64::MAX)
    }

    /// Returns its header, if it has late updates.
    pub fn late_head(&self) -> Option<Head> {
        match &self.check {
            Ok(check) if check.late > 0 => Some(check.front.head),
            _ => None,
        }
    }

    /// Returns whether it has a complete record that is no mark.
    pub fn has_updates(&self) -> bool {
        matches!(&self.check, Ok(check) if check.front.count > check.marks)
    }

    /// Returns whether it is whole, no update of it is late, and no hole is before it.
    fn is_good(&self) -> bool {
        let is_whole = match &self.check {
            Ok(check) => check.front.rest == Rest::Nothing && check.late == 0,
            Err(_) => false,
        };
        is_whole && self.hole.is_none()
    }

    /// Returns whether it ends in a torn tail.
    fn is_torn(&self) -> bool {
        matches!(self.front(), Some(front) if front.torn())
    }

    /// Returns whether it is known to stand in its file as it is: not in the blocks of format 4, in which it would be a segment.
    fn is_plain(&self) -> bool {
        match (self.is_sealed, self.front()) {
            (Some(is_sealed), _) => !is_sealed,
            (None, Some(front)) => front.head.segment.is_none(),
            (None, None) => true,
        }
    }

    /// Returns whether one of its records is damaged, or it seems torn though records follow.
    pub fn is_damaged(&self) -> bool {
        let goes_on = matches!(&self.ending, Some(ending) if ending.again.is_some());
        match self.front() {
            Some(front) => match front.rest {
                Rest::Faulty(_) => true,
                Rest::Torn => goes_on,
                Rest::Nothing => false,
            },
            None => false,
        }
    }

    /// Returns its line. The late updates are known if there is a cutoff. Where the records end is told if it is known
    /// in bytes of the file. The reason ends the line, since it has blanks.
    fn fields(&self, number: usize, has_cutoff: bool) -> [Field<'_>; 21] {
        let state = match &self.check {
            Ok(check) => match check.front.rest {
                Rest::Nothing => Cell::Word("whole"),
                Rest::Torn => Cell::Word("torn"),
                Rest::Faulty(what) => Cell::What(what),
            },
            Err(Fault::Header { .. }) => Cell::Word("header"),
            Err(_) => Cell::Word("unread"),
        };
        let [end, records, marks, late, from, last] = match &self.check {
            Ok(LogCheck { front, marks, late }) => [
                if self.is_plain() {
                    Some(front.bytes)
                } else {
                    self.end
                },
                Some(front.count),
                Some(*marks),
                has_cutoff.then_some(*late),
                Some(front.from()),
                Some(front.last()),
            ],
            Err(_) => [None; 6],
        };
        let [left, zeros, next, after] = match &self.ending {
            Some(ending) => ending.numbers(),
            None => [None; 4],
        };
        let (head, segment) = match self.front() {
            Some(front) if self.is_plain() => (Some(&front.head), None),
            Some(front) => (None, front.head.segment),
            None => (None, None),
        };
        let [format, worker, place] = match segment {
            Some(Segment { worker, number }) => [
                (self.is_sealed == Some(true)).then_some(4),
                Some(u64::from(worker)),
                Some(u64::from(number)),
            ],
            None => [None; 3],
        };
        let copy = match self.copy {
            Some(name) => Cell::Name(name),
            None => Cell::Number(None),
        };
        [
            ("log", Cell::Number(Some(number as u64))),
            ("file", Cell::Name(self.file.name)),
            ("bytes", Cell::Number(self.file.size)),
            ("state", state),
            ("end", Cell::Number(end)),
            ("left", Cell::Number(left)),
            ("zeros", Cell::Number(zeros)),
            ("next", Cell::Number(next)),
            ("after", Cell::Number(after)),
            ("records", Cell::Number(records)),
            ("marks", Cell::Number(marks)),
            ("late", Cell::Number(late)),
            ("from", Cell::Number(from)),
            ("last", Cell::Number(last)),
            ("format", Cell::Format(head)),
            ("format", Cell::Number(format)),
            ("worker", Cell::Number(worker)),
            ("segment", Cell::Number(place)),
            ("hole", Cell::Number(self.hole)),
            ("copy", copy),
            ("reason", Cell::Reason(self.file.reason.as_ref())),
        ]
    }
}

impl CheckedPart<'_> {
    /// Returns whether it is a part of this checkpoint and broken, but not by a resume that was stopped: that leaves its header.
    pub fn is_damaged(&self, number: u32) -> bool {
        match self.state {
            PartState::Broken { checkpoint, .. } => {
                checkpoint == number && self.file.size.is_none_or(|size| size > PART_HEADER as u64)
            }
            _ => false,
        }
    }

    /// Returns its line. The reason ends it, since it has blanks.
    fn fields(&self, number: usize) -> [Field<'_>; 13] {
        let (next, after) = match self.again {
            Some(again) => (Some(again.at as u64), Some(again.records as u64)),
            None => (None, None),
        };
        let [checkpoint, place, parts, begin, end, entries] = match self.state {
            PartState::Whole(part) => {
                let [place, parts] = [u64::from(part.place), u64::from(part.parts)];
                let [begin, end, entries] = [part.begin, part.end, part.entries as u64];
                let numbers = [
                    u64::from(part.checkpoint),
                    place,
                    parts,
                    begin,
                    end,
                    entries,
                ];
                numbers.map(Some)
            }
            PartState::Broken {
                checkpoint,
                entries,
            } => {
                let checkpoint = Some(u64::from(checkpoint));
                [checkpoint, None, None, None, None, Some(entries)]
            }
            PartState::Nameless | PartState::Unread => [None; 6],
        };
        [
            ("part", Cell::Number(Some(number as u64))),
            ("file", Cell::Name(self.file.name)),
            ("bytes", Cell::Number(self.file.size)),
            ("state", Cell::Word(self.state.word())),
            ("checkpoint", Cell::Number(checkpoint)),
            ("place", Cell::Number(place)),
            ("parts", Cell::Number(parts)),
            ("begin", Cell::Number(begin)),
            ("end", Cell::Number(end)),
            ("entries", Cell::Number(entries)),
            ("next", Cell::Number(next)),
            ("after", Cell::Number(after)),
            ("reason", Cell::Reason(self.file.reason.as_ref())),
        ]
    }
}
