//! Why checkpoints are not valid, or end too late to be chosen.
use crate::checked::Checked;
use crate::fates::{Fate, Part, PartState, numbers_of};
use mt_record::KeptEntries;
use mt_recover::PartScan;
use mt_text::Shown;
use mt_words::{Fault, Memory};
use std::alloc::Global;

/// An entry of a checkpoint whose key is not above the key before it.
#[derive(Clone, Copy)]
pub struct Fall {
    /// The number of the checkpoint.
    checkpoint: u32,
    /// The position of its part among the parts.
    part: usize,
    /// The number of the entry in that part, counted from 0.
    entry: usize,
}

/// Returns the first fall in each part whose keys do not rise from the last key of the parts before it on, by checkpoint and by
/// place. Recovery compares the same keys, but does not say which of them falls. Err: out of memory.
pub fn falls_in(alloc: Global, scans: &[Result<PartScan, Fault>]) -> Result<Vec<Fall>, Memory> {
    let mut order = Vec::with_capacity(alloc, scans.len())?;
    for (part, scan) in scans.iter().enumerate() {
        if let Ok(PartScan::Whole(text)) = scan {
            order.push((text.number, text.part, part))?;
        }
    }
    order.sort_unstable();
    let mut falls = Vec::new(alloc);
    let mut current = None;
    let mut last = None;
    for (checkpoint, _, part) in &order {
        let Some(Ok(PartScan::Whole(text))) = scans.get(*part) else {
            continue;
        };
        if current != Some(*checkpoint) {
            last = None;
        }
        current = Some(*checkpoint);
        if let Some(entry) = first_fall(last, &text.entries) {
            falls.push(Fall {
                checkpoint: *checkpoint,
                part: *part,
                entry,
            })?;
        }
        last = last_key(last, &text.entries);
    }
    Ok(falls)
}

/// Returns the number of the first entry whose key is not above the key before it, which is `last` for the first entry.
fn first_fall(last: Option<&[u8]>, entries: &KeptEntries) -> Option<usize> {
    let mut last = last;
    for number in 0..entries.len() {
        let key = entries.key(number);
        match last {
            Some(last) if last >= key => return Some(number),
            _ => {}
        }
        // Then only the first key can fall.
        if entries.is_rising() {
            break;
        }
        last = Some(key);
    }
    None
}

/// Returns the last key of the entries, or the one before them if there are no entries.
fn last_key<'k>(last: Option<&'k [u8]>, entries: &'k KeptEntries) -> Option<&'k [u8]> {
    let count = entries.len();
    if count == 0 {
        return last;
    }
    Some(entries.key(count - 1))
}

impl Checked<'_> {
    /// Returns the first fall of the keys of the checkpoint with this number. None: they rise.
    pub fn fall_of(&self, number: u32) -> Option<Fall> {
        for fall in &self.falls {
            if fall.checkpoint == number {
                return Some(*fall);
            }
        }
        None
    }

    /// Returns why checkpoints are not valid, and which of them end too late to be chosen, a line each. Of a broken part it is
    /// known only that its footer has another number of entries. Err: out of memory.
    pub fn flaws(&self, alloc: Global) -> Result<Vec<String>, Memory> {
        let mut lines = Vec::new(alloc);
        for part in &self.parts {
            if let (Some(count), PartState::Broken { entries, .. }) = (part.counted, part.state) {
                let name = Shown(part.file.name);
                let line = format!(in alloc;
                    "{name}: the count in its footer is {count}, but it has entries={entries}"
                )?;
                lines.push(line)?;
            }
        }
        for number in &numbers_of(alloc, &self.parts)? {
            let fate = Fate::of(*number, self);
            let Some(first) = fate.first else {
                continue;
            };
            match fate.word {
                "incomplete" => {
                    self.add_differences(alloc, first, &mut lines)?;
                    self.add_places(alloc, first, &mut lines)?;
                }
                "unordered" => self.add_fall(alloc, first, &mut lines)?,
                "late" => self.add_late_end(alloc, first, &mut lines)?,
                _ => {}
            }
        }
        Ok(lines)
    }

    /// Adds what the parts of an incomplete checkpoint do not agree in with this one, and that it begins past its end.
    fn add_differences(
        &self,
        alloc: Global,
        first: Part,
        lines: &mut Vec<String>,
    ) -> Result<(), Memory> {
        let Part {
            checkpoint,
            begin,
            end,
            ..
        } = first;
        let mut name = "";
        for part in &self.parts {
            let Some(found) = part.state.of_checkpoint(checkpoint) else {
                continue;
            };
            if name.is_empty() {
                name = part.file.name;
            }
            let fields = [
                ("parts", u64::from(found.parts), u64::from(first.parts)),
                ("begin", found.begin, begin),
                ("end", found.end, end),
            ];
            for (field, one, other) in fields {
                if one != other {
                    let (file, name) = (Shown(part.file.name), Shown(name));
                    let line = format!(in alloc;
                        "{file}: it has {field}={one}, but {name} has {field}={other}"
                    )?;
                    lines.push(line)?;
                }
            }
        }
        if begin > end {
            let line = format!(in alloc;
                "checkpoint {checkpoint}: it begins at {begin}, past its end {end}"
            )?;
            lines.push(line)?;
        }
        Ok(())
    }

    /// Adds which places of an incomplete checkpoint have no part, or more than one, and which parts have no such place.
    fn add_places(
        &self,
        alloc: Global,
        first: Part,
        lines: &mut Vec<String>,
    ) -> Result<(), Memory> {
        let Part {
            checkpoint,
            parts,
            ..
        } = first;
        let mut places = Vec::with_capacity(alloc, self.parts.len())?;
        for part in &self.parts {
            if let Some(found) = part.state.of_checkpoint(checkpoint) {
                places.push((found.place, part.file.name))?;
            }
        }
        places.sort_unstable();
        let mut next: u16 = 0;
        let mut before = "";
        for (place, name) in &places {
            if *place >= parts {
                let name = Shown(*name);
                let line = format!(in alloc;
                    "checkpoint {checkpoint}: {name} has place={place}, not below parts={parts}"
                )?;
                lines.push(line)?;
                continue;
            }
            if *place < next {
                let (before, name) = (Shown(before), Shown(*name));
                let line = format!(in alloc;
                    "checkpoint {checkpoint}: {before} and {name} both have place={place}"
                )?;
                lines.push(line)?;
            }
            add_missing(alloc, checkpoint, next, *place, lines)?;
            next = next.max(place.saturating_add(1));
            before = *name;
        }
        add_missing(alloc, checkpoint, next, parts, lines)
    }

    /// Adds where the keys of an unordered checkpoint fall.
    fn add_fall(&self, alloc: Global, first: Part, lines: &mut Vec<String>) -> Result<(), Memory> {
        let Some(Fall { part, entry, .. }) = self.fall_of(first.checkpoint) else {
            return Ok(());
        };
        let name = self.parts.get(part).map_or("", |part| part.file.name);
        let before = if entry == 0 {
            "the last one of the part before it"
        } else {
            "the one before it"
        };
        let name = Shown(name);
        let line = format!(in alloc; "{name}: the key of its entry {entry} is not above {before}")?;
        lines.push(line)?;
        Ok(())
    }

    /// Adds that a checkpoint ends too late.
    fn add_late_end(
        &self,
        alloc: Global,
        first: Part,
        lines: &mut Vec<String>,
    ) -> Result<(), Memory> {
        let Part {
            checkpoint,
            end,
            ..
        } = first;
        let cutoff = self.cutoff.unwrap_or(0);
        let line = format!(in alloc;
            "checkpoint {checkpoint}: it ends at {end}, not below the cutoff {cutoff}"
        )?;
        lines.push(line)?;
        Ok(())
    }
}

/// Adds that no part has the places from one on up to another one, if there are such places.
fn add_missing(
    alloc: Global,
    checkpoint: u32,
    from: u16,
    to: u16,
    lines: &mut Vec<String>,
) -> Result<(), Memory> {
    let count = to.saturating_sub(from);
    if count == 0 {
        return Ok(());
    }
    let last = to.saturating_sub(1);
    let line = if count == 1 {
        format!(in alloc; "checkpoint {checkpoint}: no part has place={from}")?
    } else {
        format!(in alloc; "checkpoint {checkpoint}: no part has place={from} to place={last}")?
    };
    lines.push(line)?;
    Ok(())
}
