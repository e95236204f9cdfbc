//! Checkpoints, made of their parts.
ghost use Rattle.std.specs.Prelude.{map};
ghost use Rattle.std.specs.List.{flat_map};
ghost use Rattle.mt_words.specs.Words.{AreRising};
ghost use Rattle.mt_scan.specs.Steps.Rising.{AreRising-prop};

use crate::validity::make_up;
use mt_record::{KeptEntries, PartText};

/// A valid checkpoint.
#[derive(Debug, Drop)]
pub struct Checkpoint {
    /// Its number.
    pub number: u32,
    /// The timestamp from which logs are replayed over it.
    pub begin: u64,
    /// The timestamp at which it was complete.
    pub end: u64,
    /// Its parts, in order.
    pub parts: Vec<PartText<KeptEntries>>,
    /// The keys of the entries strictly rise, within each part and from one part to the next.
    pub ghost rise: { AreRising (map (λ entry. entry.key) (flat_map (λ text. text.entries) parts.items)) } by { AreRising-prop (map (λ entry. entry.key) (flat_map (λ text. text.entries) parts.items)) },
}

impl Checkpoint {
    ghost use Rattle.std.specs.Prelude.{MatchOption};
    ghost use Rattle.mt_scan.specs.PartsShown.{shown_by_all};
    ghost use Rattle.mt_scan.specs.Steps.Checkpoints.{MakeUpNone, IsMadeOfParts};

    /// Creates the checkpoint with this number from its parts, which come in any order. Returns None if they make up no
    /// valid checkpoint.
    pub(crate) fn of(number: u32, parts: Vec<PartText<KeptEntries>>) -> Option<Checkpoint>
        ensures { MatchOption result
            (MakeUpNone (shown_by_all parts.items))
            (IsMadeOfParts number (shown_by_all parts.items)) }
    {
        let mut parts = parts;
        parts.sort_unstable_by_key(|text| text.part);
        let first = parts.first()?;
        let (begin, end) = (first.begin, first.end);
        if !make_up(begin, end, &parts) {
            return None;
        }
        Some(Checkpoint {
            number,
            begin,
            end,
            parts,
        })
    }
}
