//! What becomes of parts and checkpoints, and why.
use crate::checked::{Checked, CheckedPart};
use crate::row::{Cell, Field};
use mt_recover::{PartScan, Start};
use mt_words::Fault;
use std::alloc::{AllocError, Global};

/// What is known of a part.
#[derive(Clone, Copy)]
pub enum PartState {
    /// It is complete.
    Whole(Part),
    /// It has a header, but is broken.
    Broken {
        checkpoint: u32,
        /// The number of complete entries before the fault.
        entries: u64,
    },
    /// It has no header.
    Nameless,
    /// Its source failed.
    Unread,
}

/// What a complete part says.
#[derive(Clone, Copy)]
pub struct Part {
    pub checkpoint: u32,
    pub place: u16,
    pub parts: u16,
    pub begin: u64,
    pub end: u64,
    pub entries: usize,
}

impl PartState {
    /// Returns what is known of a part from its scan.
    pub fn of(scan: &Result<PartScan, Fault>) -> PartState {
        match scan {
            Ok(PartScan::Whole(text)) => PartState::Whole(Part {
                checkpoint: text.number,
                place: text.part,
                parts: text.parts,
                begin: text.begin,
                end: text.end,
                entries: text.entries.len(),
            }),
            Ok(PartScan::Broken { number, entries }) => PartState::Broken {
                checkpoint: *number,
                entries: *entries,
            },
            Ok(PartScan::Nameless) => PartState::Nameless,
            Err(_) => PartState::Unread,
        }
    }

    /// Returns the number of its checkpoint.
    fn checkpoint(self) -> Option<u32> {
        match self {
            PartState::Whole(part) => Some(part.checkpoint),
            PartState::Broken { checkpoint, .. } => Some(checkpoint),
            PartState::Nameless | PartState::Unread => None,
        }
    }

    /// Returns whether it goes when a server resumes: it is of another checkpoint than the chosen one, or of none.
    pub fn goes(self, chosen: Option<u32>) -> bool {
        match self {
            PartState::Unread => false,
            _ => chosen.is_none() || self.checkpoint() != chosen,
        }
    }

    /// Returns what it says, if it is complete and belongs to this checkpoint.
    pub fn of_checkpoint(self, number: u32) -> Option<Part> {
        match self {
            PartState::Whole(part) if part.checkpoint == number => Some(part),
            _ => None,
        }
    }

    /// Returns what it is, in a word.
    pub fn word(self) -> &'static str {
        match self {
            PartState::Whole(_) => "whole",
            PartState::Broken { .. } => "broken",
            PartState::Nameless => "nameless",
            PartState::Unread => "unread",
        }
    }
}

/// Returns the numbers of the checkpoints that have parts, rising. Err: out of memory.
pub fn numbers_of(alloc: Global, parts: &[CheckedPart<'_>]) -> Result<Vec<u32>, AllocError> {
    let mut numbers = Vec::with_capacity(alloc, parts.len())?;
    for part in parts {
        if let Some(number) = part.state.checkpoint() {
            numbers.push(number)?;
        }
    }
    numbers.sort_unstable();
    numbers.dedup();
    Ok(numbers)
}

/// What becomes of a checkpoint.
#[derive(Clone, Copy)]
pub struct Fate {
    number: u32,
    /// What becomes of it, in a word.
    pub word: &'static str,
    /// The number of its parts.
    count: usize,
    /// Its first complete part, which says where it begins and ends.
    pub first: Option<Part>,
}

impl Fate {
    /// Returns what becomes of the checkpoint with this number.
    pub fn of(number: u32, checked: &Checked<'_>) -> Fate {
        let mut count: usize = 0;
        let mut wholes: usize = 0;
        let mut first: Option<Part> = None;
        for part in &checked.parts {
            if part.state.checkpoint() == Some(number) {
                count = count.saturating_add(1);
            }
            if let Some(whole) = part.state.of_checkpoint(number) {
                wholes = wholes.saturating_add(1);
                first = first.or(Some(whole));
            }
        }
        let word = match first {
            Some(first) if wholes == count => word_of(first, count, checked),
            _ => "broken",
        };
        Fate {
            number,
            word,
            count,
            first,
        }
    }

    /// Returns whether it is valid, as far as is known, and ends below the cutoff.
    pub fn is_good(&self) -> bool {
        match self.word {
            "chosen" | "older" | "unjudged" => true,
            _ => false,
        }
    }

    /// Returns its line.
    pub fn fields(&self) -> [Field<'static>; 5] {
        let (begin, end) = match self.first {
            Some(part) => (Some(part.begin), Some(part.end)),
            None => (None, None),
        };
        [
            ("checkpoint", Cell::Number(Some(u64::from(self.number)))),
            ("state", Cell::Word(self.word)),
            ("parts", Cell::Number(Some(self.count as u64))),
            ("begin", Cell::Number(begin)),
            ("end", Cell::Number(end)),
        ]
    }
}

/// Returns what becomes of a checkpoint of `count` parts, all of which are complete, in a word.
fn word_of(first: Part, count: usize, checked: &Checked<'_>) -> &'static str {
    if usize::from(first.parts) != count || first.begin > first.end {
        return "incomplete";
    }
    for place in 0..first.parts {
        if count_at(place, first, &checked.parts) != 1 {
            return "incomplete";
        }
    }
    if checked.fall_of(first.checkpoint).is_some() {
        return "unordered";
    }
    match (checked.cutoff, &checked.start) {
        (Some(cutoff), _) if first.end >= cutoff => "late",
        (_, Ok(start)) => word_among(first.checkpoint, start),
        (_, Err(_)) => "unjudged",
    }
}

/// Returns what becomes of a valid checkpoint of this number that ends below the cutoff, in a word.
fn word_among(number: u32, start: &Start) -> &'static str {
    match &start.choice.chosen {
        Some(chosen) if chosen.number == number => "chosen",
        _ => "older",
    }
}

/// Returns how many parts are at this place of the checkpoint of this part, and agree with it.
fn count_at(place: u16, first: Part, parts: &[CheckedPart<'_>]) -> usize {
    let mut count: usize = 0;
    for part in parts {
        match part.state.of_checkpoint(first.checkpoint) {
            Some(part)
                if part.place == place
                    && part.parts == first.parts
                    && part.begin == first.begin
                    && part.end == first.end => count = count.saturating_add(1),
            _ => {}
        }
    }
    count
}
