//! A case in one pass: what is recovered, and what is expected.
use crate::answer::{cuts_of, recover_from_memory, write_answer};
use crate::blocks::words_of;
use crate::draft::{Draft, Named};
use crate::mistake::Mistake;
use crate::passes::Pass;
use crate::source::inputs_of;
use crate::words::{number_of, push_line};
use mt_recover::{Cutting, NoGate, Pieces, Recovered, Workers, recover, recover_one};
use mt_scan::{LONGEST_BUFFER, Rack};
use mt_words::Fault;
use std::alloc::Global;
use std::thread::Threads;

/// What the lines of a case say in one pass.
#[derive(Drop)]
pub struct Case {
    drafts: Vec<Draft>,
    /// The one size of all buffers, if the case names it.
    size: Option<usize>,
    /// The lines `cuts`.
    cuts: Vec<String>,
    /// The expected text.
    pub expected: Vec<u8>,
}

/// How a case is tried.
#[derive(Clone, Copy)]
pub enum Way<'a> {
    /// From all logs in memory, on one thread.
    Memory,
    /// From sources with buffers of this size, on one thread.
    Buffers(usize),
    /// By `workers` workers, in `pieces` even pieces.
    Even {
        workers: u32,
        pieces: u32,
    },
    /// By `workers` workers, cut at the keys of this line `cuts`, whose number counts from 0.
    At {
        workers: u32,
        number: usize,
        line: &'a str,
    },
}

/// The sizes of buffers, if a case names none.
const SIZES: [usize; 3] = [1, 16, LONGEST_BUFFER];

/// The numbers of workers that are tried.
const WORKERS: [u32; 3] = [1, 2, 8];

/// The same with each number of even pieces.
const EVEN: [(u32, u32); 6] = [(1, 1), (1, 16), (2, 1), (2, 16), (8, 1), (8, 16)];

impl Case {
    /// Creates a case without logs and parts that expects nothing.
    pub fn new(alloc: Global) -> Case {
        Case {
            drafts: Vec::new(alloc),
            size: None,
            cuts: Vec::new(alloc),
            expected: Vec::new(alloc),
        }
    }

    /// Adds a line of these words.
    pub fn add(
        &mut self,
        alloc: Global,
        names: &[Named<'_>],
        line: &str,
        words: &[&str],
    ) -> Result<(), Mistake> {
        match words {
            ["log" | "part", ..] => Ok(self.drafts.push(Draft::begin(alloc, names, words)?)?),
            // Lines `each` stand right after `case`, one for each letter.
            ["each", ..] => Err(Mistake::LINE),
            ["buffers", size] => self.use_buffers(size),
            ["cuts", ..] => {
                // Read here, so that a mistake names this line.
                cuts_of(alloc, line)?;
                Ok(self.cuts.push(String::from_str(alloc, line)?)?)
            }
            _ if is_expected(words) => push_line(alloc, words, &mut self.expected),
            _ => self.go_on(alloc, words),
        }
    }

    /// Gives all sources buffers of this size. Err: not a number from 1 to 65,536.
    fn use_buffers(&mut self, size: &str) -> Result<(), Mistake> {
        let size = number_of::<usize>(size)?;
        if size == 0 || size > LONGEST_BUFFER {
            return Err(Mistake::NUMBER);
        }
        self.size = Some(size);
        Ok(())
    }

    /// Adds a line to the last log or part. Err if there is none.
    fn go_on(&mut self, alloc: Global, words: &[&str]) -> Result<(), Mistake> {
        let Some(draft) = self.drafts.last_mut() else {
            return Err(Mistake::NO_DRAFT);
        };
        match words {
            ["fail", call] => draft.fail_from(number_of(call)?),
            _ => draft.add(alloc, words),
        }
    }

    /// Encodes the parts that are still drafts. Err: the case expects nothing, or a part cannot be encoded.
    pub fn finish(&mut self) -> Result<(), Mistake> {
        if self.expected.is_empty() {
            return Err(Mistake::NOTHING);
        }
        for draft in &mut self.drafts {
            draft.spell_part()?;
        }
        Ok(())
    }

    /// Returns the ways in which the case is tried in this pass: from memory only if there are no parts, no source
    /// fails and no size is named.
    pub fn ways(&self, alloc: Global, pass: Pass) -> Result<Vec<Way<'_>>, Mistake> {
        let mut ways = Vec::new(alloc);
        if let Some(size) = self.size {
            ways.push(Way::Buffers(size))?;
        } else {
            if self.drafts.iter().all(Draft::is_steady_log) {
                ways.push(Way::Memory)?;
            }
            for size in SIZES {
                ways.push(Way::Buffers(size))?;
            }
        }
        for (place, (workers, pieces)) in EVEN.into_iter().enumerate() {
            if pass.takes(place) {
                ways.push(Way::Even { workers, pieces })?;
            }
        }
        for workers in WORKERS {
            for (number, line) in self.cuts.iter().enumerate() {
                let line = line.as_str();
                ways.push(Way::At {
                    workers,
                    number,
                    line,
                })?;
            }
        }
        Ok(ways)
    }

    /// Tries the case in this way. Returns what comes, as text.
    pub fn come<R: AllocGlobal + Threads + Sync>(
        &self,
        rt: &R,
        way: Way<'_>,
    ) -> Result<Vec<u8>, Mistake> {
        let size = match way {
            Way::Buffers(size) => size,
            _ => self.size.unwrap_or(LONGEST_BUFFER),
        };
        let answer = match way {
            Way::Memory => recover_from_memory(rt.alloc(), &self.drafts)?,
            _ => self.recover_from_sources(rt, size, way)?,
        };
        write_answer(rt.alloc(), answer, &self.expected)
    }

    /// Recovers the case from sources with buffers of this size. Err if a buffer is not back in its slot afterwards.
    fn recover_from_sources<R: AllocGlobal + Threads + Sync>(
        &self,
        rt: &R,
        size: usize,
        way: Way<'_>,
    ) -> Result<Result<Recovered, Fault>, Mistake> {
        let size = size.clamp(1, LONGEST_BUFFER);
        let mut rack = Rack::new(rt.alloc(), self.drafts.len(), size)?;
        let inputs = inputs_of(rt.alloc(), &self.drafts, rack.slots())?;
        let answer = match cutting_in(rt.alloc(), way)? {
            None => recover_one(rt.alloc(), inputs),
            Some((workers, cutting)) => {
                recover(rt, rt.alloc(), inputs, workers, cutting, &NoGate)
            }
        };
        if !rack.all_full() {
            return Err(Mistake::SLOT);
        }
        Ok(answer)
    }
}

/// Returns the workers of this way and how the keys are cut, or None for a way on one thread.
fn cutting_in(alloc: Global, way: Way<'_>) -> Result<Option<(Workers, Cutting)>, Mistake> {
    let (workers, cutting) = match way {
        Way::Memory | Way::Buffers(_) => return Ok(None),
        Way::Even { workers, pieces } => {
            let Some(pieces) = Pieces::new(pieces) else {
                return Err(Mistake::NUMBER);
            };
            (workers, Cutting::Even(pieces))
        }
        Way::At { workers, line, .. } => (workers, Cutting::At(cuts_of(alloc, line)?)),
    };
    let Some(workers) = Workers::new(workers) else {
        return Err(Mistake::NUMBER);
    };
    Ok(Some((workers, cutting)))
}

/// Whether these words are a line that states an expectation.
fn is_expected(words: &[&str]) -> bool {
    match words {
        ["store"] | ["choice" | "fault", ..] => true,
        ["report", fields @ ..] => fields.iter().all(|field| field.contains('=')),
        [first, ..] => first.ends_with(':'),
        [] => false,
    }
}
