//! What follows the complete records of a log, or the entries of a part.
use crate::hints::{Feeds, Hints, zeros_at_end};
use crate::intake::{Intake, LogIntake};
use crate::torn::may_begin_record;
use mt_record::{Items, find_items};
use mt_recover::Refusal;
use mt_words::{Format, Memory};
use std::alloc::Global;
use std::io::Write;

/// The widest format, by which bytes without a header are read.
pub const WIDEST: Format = Format::Two;

/// What follows the complete records of a log, or the entries of a part.
#[derive(Clone, Copy)]
pub struct Ending {
    /// The number of bytes.
    pub bytes: usize,
    /// How many of them, at their end, are 0.
    pub zeros: usize,
    /// Where records go on after damage, if they do. A torn record whose value can hold all of them is no damage.
    pub again: Option<Again>,
    /// What may have happened to them.
    pub hints: Option<Hints>,
}

/// Records or entries that go on after damage, as `cut --skip` finds them.
#[derive(Clone, Copy)]
pub struct Again {
    /// The byte where the first of them begins.
    pub at: usize,
    /// The number of all of them.
    pub records: usize,
}

impl Again {
    /// Returns where records of this format go on in these bytes, which begin at the byte `end` of a log. None: nowhere. Err: out of
    /// memory.
    fn in_rest(
        alloc: Global,
        format: Format,
        end: usize,
        rest: &[u8],
    ) -> Result<Option<Again>, Memory> {
        let found = find_items(alloc, Items::Records, format, rest)?;
        Ok(
            found.first().map(|first| Again {
                at: end.saturating_add(first.skipped.len()),
                records: found.len(),
            }),
        )
    }
}

impl Ending {
    /// Returns what follows the records of a log that was read to its end. None: nothing. Err: out of memory.
    pub fn of_log<F>(
        alloc: Global,
        log: &LogIntake<F>,
    ) -> Result<Option<Ending>, Refusal<'static>> {
        let front = log.front()?;
        let format = front.head.format;
        let rest = log.rest();
        let again = if may_begin_record(format, front.latest, rest) {
            None
        } else {
            Again::in_rest(alloc, format, log.end(), rest)?
        };
        let ending = Ending::of(log.end(), rest, again, log.file.feeds);
        Ok((ending.bytes > 0).then_some(ending))
    }

    /// Returns what is in a log that has no header: all that its file holds. None: nothing. Err: out of memory.
    pub fn of_all<F>(alloc: Global, file: &Intake<F>) -> Result<Option<Ending>, Memory> {
        let again = Again::in_rest(alloc, WIDEST, 0, &file.held)?;
        let ending = Ending::of(0, &file.held, again, file.feeds);
        Ok((ending.bytes > 0).then_some(ending))
    }

    /// Returns what follows in a log, whose complete records end at the byte `end`, from the line feeds of all its bytes.
    fn of(end: usize, rest: &[u8], again: Option<Again>, feeds: Feeds) -> Ending {
        Ending {
            bytes: rest.len(),
            zeros: zeros_at_end(rest),
            again,
            hints: Some(Hints::of(feeds, rest, end, again)),
        }
    }

    /// Returns what follows in a part, whose complete entries end at this byte.
    pub fn of_part(rest: &[u8]) -> Ending {
        Ending {
            bytes: rest.len(),
            zeros: zeros_at_end(rest),
            again: None,
            hints: None,
        }
    }

    /// Prints what may have happened to the file of this name, if it is faulty or goes on. A write error is passed over.
    pub fn tell_hints<E: Write>(&self, is_faulty: bool, name: &str, err: &mut E) {
        match &self.hints {
            Some(hints) if is_faulty || self.again.is_some() => hints.tell(name, err),
            _ => {}
        }
    }

    /// Returns the number of its bytes and of the zeros that end them, and where records go on, and how many.
    pub fn numbers(&self) -> [Option<u64>; 4] {
        let (next, after) = match self.again {
            Some(again) => (Some(again.at as u64), again.records),
            None => (None, 0),
        };
        [
            Some(self.bytes as u64),
            Some(self.zeros as u64),
            next,
            Some(after as u64),
        ]
    }
}
