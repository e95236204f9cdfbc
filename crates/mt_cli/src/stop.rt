//! Where the complete records of a log, or the entries of a part, stop before its bytes do.
ghost use Rattle.std.specs.Prelude.{◌≤◌};

use crate::caveat::plural;
use crate::ending::{Again, Ending};
use crate::hints::MANY_ZEROS;
use crate::intake::LogIntake;
use crate::sealed::Sealed;
use mt_record::{LogFront, Rest};
use mt_recover::Refusal;
use mt_text::Listed;
use mt_words::What;
use std::alloc::Global;
use std::fmt::{self, Display, Formatter, Write};
use std::io;

/// Where the complete records of a log, or the entries of a part, stop before its bytes do, and what follows them.
#[derive(Clone, Copy)]
pub struct Stop {
    /// What one of them is called.
    name: &'static str,
    /// The byte where they stop.
    at: usize,
    /// The number of those before, and what is there in place of the next one, if the file was read from its beginning.
    reason: Option<(u64, Wrong)>,
    /// The bytes from there on.
    ending: Ending,
}

/// What is there in place of a record or an entry.
#[derive(Clone, Copy)]
enum Wrong {
    /// A torn tail.
    Torn,
    /// A record with this fault.
    Record(What),
    /// In a part: neither an entry nor just its footer.
    Broken,
}

impl Stop {
    /// Returns where the records of a log stop that was read to its end. None: nothing follows them. Err: out of memory.
    pub fn of<F>(alloc: Global, log: &LogIntake<F>) -> Result<Option<Stop>, Refusal<'static>> {
        let reason = reason_of(&log.front()?);
        if reason.is_none() {
            return Ok(None);
        }
        Ok(Stop::at(alloc, log)?.map(|stop| Stop { reason, ..stop }))
    }

    /// Returns where the records of a log of format 4 stop. None: nothing follows them. Err: out of memory.
    pub fn of_sealed(alloc: Global, log: &Sealed) -> Result<Option<Stop>, Refusal<'static>> {
        let reason = reason_of(&log.front);
        if reason.is_none() {
            return Ok(None);
        }
        let stop = Stop::at_sealed(alloc, log, log.records_end())?;
        Ok(stop.map(|stop| Stop { reason, ..stop }))
    }

    /// Returns that the records of a log of format 4 stop at this byte of its text. None: no byte follows. Err: out of memory.
    pub fn at_sealed(
        alloc: Global,
        log: &Sealed,
        at: usize,
    ) -> Result<Option<Stop>, Refusal<'static>> {
        let Some(ending) = log.ending(alloc, at)? else {
            return Ok(None);
        };
        Ok(Some(Stop {
            name: "record",
            at: log.first.file_at(at),
            reason: None,
            ending,
        }))
    }

    /// Returns where the entries of a broken part stop, all of which were counted.
    pub fn of_entries(listed: &Listed, bytes: &[u8]) -> Option<Stop> {
        Some(Stop {
            name: "entry",
            at: listed.at,
            reason: Some((listed.number, Wrong::Broken)),
            ending: Ending::of_part(bytes.get(listed.at..)?),
        })
    }

    /// Returns that entries stop at this byte. None: no byte follows.
    pub fn at_entry(bytes: &[u8], at: usize) -> Option<Stop> {
        let rest = bytes.get(at..)?;
        if rest.is_empty() {
            return None;
        }
        Some(Stop {
            name: "entry",
            at,
            reason: None,
            ending: Ending::of_part(rest),
        })
    }

    /// Returns the byte where the records of a log stop that was read to its end. None: no byte follows. Err: out of memory.
    pub fn at<F>(alloc: Global, log: &LogIntake<F>) -> Result<Option<Stop>, Refusal<'static>> {
        let Some(ending) = Ending::of_log(alloc, log)? else {
            return Ok(None);
        };
        Ok(Some(Stop {
            name: "record",
            at: log.end(),
            reason: None,
            ending,
        }))
    }

    /// Prints its line, after these words. If there is a name, prints what may have happened to the file, if that is damaged. A
    /// write error is passed over.
    pub fn tell<E: io::Write>(&self, before: &str, name: Option<&str>, err: &mut E) {
        let _ = writeln!(err, "mtrecover: {before}{self}");
        let is_torn = matches!(self.reason, Some((_, Wrong::Torn)));
        if let Some(name) = name {
            self.ending.tell_hints(!is_torn, name, err);
        }
    }

    /// Returns the exit status after all was printed: 1 if a fault follows or the part is broken, else 4.
    pub fn status(&self) -> u8
        ensures { result ≤ 4 }
    {
        match self.reason {
            Some((_, Wrong::Record(_) | Wrong::Broken)) => 1,
            Some((_, Wrong::Torn)) | None => 4,
        }
    }

    /// Returns whether a crash leaves what follows, of which nothing was acknowledged: a torn tail or, of a record, zeros in place of
    /// its end. No record is behind it.
    pub fn is_of_crash(&self) -> bool {
        let Ending { zeros, again, .. } = self.ending;
        let is_unfinished = match self.reason {
            Some((_, Wrong::Torn)) => true,
            Some((_, Wrong::Record(What::Length | What::Trailer))) => zeros > 0,
            _ => false,
        };
        is_unfinished && again.is_none()
    }

    /// Writes where they stop, and why.
    fn write_reason<W: Write>(&self, f: &mut Formatter<W>) -> fmt::Result {
        let Stop { name, at, .. } = *self;
        let Some((number, fault)) = self.reason else {
            return write!(f, "no {name} at byte {at}");
        };
        write!(f, "{name} {number} at byte {at}: ")?;
        match fault {
            Wrong::Torn => f.write_str("torn"),
            Wrong::Record(what) => write!(f, "{what}"),
            Wrong::Broken => f.write_str("broken"),
        }
    }

    /// Writes how many bytes are left, and which.
    fn write_ending<W: Write>(&self, f: &mut Formatter<W>) -> fmt::Result {
        let Ending {
            bytes,
            zeros,
            again,
            ..
        } = self.ending;
        write!(f, "; {bytes} byte{} left", plural(bytes as u128))?;
        if zeros > 0 && zeros == bytes {
            f.write_str(", all zero")?;
        } else if zeros >= MANY_ZEROS {
            write!(f, ", the last {zeros} of them zero")?;
        }
        let Some(Again { at, records }) = again else {
            return Ok(());
        };
        let s = plural(records as u128);
        write!(
            f,
            ", whole again from byte {at} on ({records} record{s}), which points to damage"
        )
    }
}

/// Returns the number of records that a front has, and what is there in place of the next one. None: nothing follows them.
fn reason_of(front: &LogFront) -> Option<(u64, Wrong)> {
    let wrong = match front.rest {
        Rest::Nothing => return None,
        Rest::Torn => Wrong::Torn,
        Rest::Faulty(what) => Wrong::Record(what),
    };
    Some((front.count, wrong))
}

/// Writes where they stop, and what follows.
impl Display for Stop {
    fn fmt<W: Write>(&self, f: &mut Formatter<W>) -> fmt::Result {
        self.write_reason(f)?;
        self.write_ending(f)
    }
}
