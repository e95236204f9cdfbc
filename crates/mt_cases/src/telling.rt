//! Tries the cases of files, and reports on them.
use crate::blocks::{Line, lines_of};
use crate::draft::{Named, read_name};
use crate::mistake::Mistake;
use crate::trying::try_case;
use std::alloc::Global;
use std::io::{self, Write};
use std::thread::Threads;

/// Counts of the cases so far. A line that is not understood counts as a case that does not hold, and so does a file
/// that cannot be read.
#[derive(Clone, Copy)]
pub struct Counts {
    pub held: u64,
    pub not_held: u64,
    /// The number of cases that held but must not, or did not hold but must.
    pub wrong: u64,
}

/// Tries cases and reports on them: in `out` each case that does not hold, with the expected and the actual text, and
/// in `err` each case that did not end as it must. Lines with mistakes are reported in the same way. Its functions
/// return an Err only if out of memory.
#[derive(Drop)]
pub struct Teller {
    pub out: Vec<u8>,
    pub err: Vec<u8>,
    counts: Counts,
}

/// The result of a block.
#[derive(Drop)]
pub enum Trial {
    /// The block is not a case: it is a name, or the line `refused`.
    NoCase,
    Holds,
    /// The case does not hold. This is the expected and the actual text.
    Differs(Vec<u8>),
}

impl Teller {
    /// Creates a teller with nothing to report.
    pub fn new(alloc: Global) -> Teller {
        Teller {
            out: Vec::new(alloc),
            err: Vec::new(alloc),
            counts: Counts {
                held: 0,
                not_held: 0,
                wrong: 0,
            },
        }
    }

    /// Tries the cases of a file of this name and this text. Those after a line `refused` must not hold.
    pub fn try_text<R: AllocGlobal + Threads + Sync>(
        &mut self,
        rt: &R,
        file: &str,
        text: &str,
    ) -> io::Result<()> {
        let Ok(lines) = lines_of(rt.alloc(), text) else {
            return self.tell_unread(file);
        };
        let mut names = Vec::new(rt.alloc());
        let mut is_refused = false;
        for block in lines.chunk_by(|_, next| !next.is_head()) {
            if let Some((head, body)) = block.split_first() {
                is_refused = is_refused || head.first_word() == "refused";
                let mut at = *head;
                let trial = trial_of(rt, &mut names, head, body, &mut at);
                self.tell(file, &at, &trial, is_refused)?;
            }
        }
        Ok(())
    }

    /// Reports how many cases hold, and returns the counts.
    pub fn finish(&mut self) -> io::Result<Counts> {
        let Counts { held, not_held, .. } = self.counts;
        writeln!(self.out, "{held} cases hold, {not_held} do not")?;
        Ok(self.counts)
    }

    /// Reports that a file cannot be read.
    pub fn tell_unread(&mut self, file: &str) -> io::Result<()> {
        self.count(false, true);
        writeln!(self.err, "mt_cases: {file}: cannot be read")
    }

    /// Reports the result of a block. `line` is the line that the report names.
    fn tell(
        &mut self,
        file: &str,
        line: &Line<'_>,
        trial: &Result<Trial, Mistake>,
        is_refused: bool,
    ) -> io::Result<()> {
        let Line { number, text } = *line;
        let (holds, what) = match trial {
            Ok(Trial::NoCase) => return Ok(()),
            Ok(Trial::Holds) => (true, "holds, and is not to"),
            Ok(Trial::Differs(difference)) => {
                writeln!(self.out, "{file}:{number}: {text}")?;
                self.out.extend_from_slice(difference)?;
                (false, "does not hold")
            }
            Err(mistake) => {
                let Mistake(why) = mistake;
                writeln!(self.out, "{file}:{number}: {why}: {text}")?;
                (false, "is not understood")
            }
        };
        self.count(holds, holds == is_refused);
        if holds == is_refused {
            writeln!(self.err, "mt_cases: {file}:{number}: {text}: {what}")?;
        }
        Ok(())
    }

    /// Counts a case that holds or does not hold. `is_wrong` says that it should have been the other way round.
    fn count(&mut self, holds: bool, is_wrong: bool) {
        let counts = &mut self.counts;
        counts.held = counts.held.saturating_add(u64::from(holds));
        counts.not_held = counts.not_held.saturating_add(u64::from(!holds));
        counts.wrong = counts.wrong.saturating_add(u64::from(is_wrong));
    }
}

/// Adds the name that a block gives, or tries its case. Sets `at` to the line that the result is reported for.
fn trial_of<'a, R: AllocGlobal + Threads + Sync>(
    rt: &R,
    names: &mut Vec<Named<'a>>,
    head: &Line<'a>,
    body: &[Line<'a>],
    at: &mut Line<'a>,
) -> Result<Trial, Mistake> {
    match (head.first_word(), body.first()) {
        ("refused", None) => Ok(Trial::NoCase),
        ("refused", Some(line)) => {
            *at = *line;
            Err(Mistake::LINE)
        }
        ("name", _) => {
            names.push(read_name(rt.alloc(), names, head, body, at)?)?;
            Ok(Trial::NoCase)
        }
        ("case", _) => try_case(rt, names, head, body, at),
        _ => Err(Mistake::LINE),
    }
}
