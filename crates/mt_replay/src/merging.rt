//! Merges texts that are sorted by numbers with updates that are in order already.
ghost use Rattle.std.specs.Prelude.{◌≡◌, ◌<◌, ◌++◌, ◌∷◌, ◌%◌, ◌^◌, List, IfOk, All, length};
ghost use Rattle.mt_words.specs.declared.update.Update.{Update};
ghost use Rattle.mt_replay.specs.Cuts.{InKeyOrder};
ghost use Rattle.mt_replay.specs.Steps.Merging.{IsFrom, IsMerging, IsMerged, numbered, updates_of};

use crate::parts::{Part, len_of};
use crate::sorting::place_of;
use mt_record::{Text, comes_before};
use mt_words::Memory;
use std::alloc::Global;

/// Merges the texts at the places of the numbers, which are in the order of their keys, and the updates of a part, if there
/// is one. Err: out of memory.
pub(crate) fn merge<'a>(
    alloc: Global,
    texts: &[Text<'a>],
    numbers: &[u64],
    bits: u32,
    part: &Option<Part<'a>>,
) -> Result<Vec<Text<'a>>, Memory>
    requires below { bits < 64 }
    requires within { All (λ number. number % 2 ^ bits < length texts.now) numbers.now }
    requires sorted { (d : Update) → InKeyOrder (numbered texts.now bits d numbers.now) }
    ensures { IfOk result (λ merged. (d : Update) → IsMerged (updates_of part.now) (numbered texts.now bits d numbers.now) merged.items) }
{
    let count = numbers.len().saturating_add(len_of(part));
    let mut merged = Vec::with_capacity(alloc, count)?;
    let mut rest = add_part(&mut merged, texts, numbers, bits, part)?;
    while let Some((number, after)) = rest.split_first() {
        merged.push(texts[place_of(*number, bits)].copy())?;
        rest = after;
    }
    Ok(merged)
}

/// Appends the updates of a part, if there is one, each after the texts below it, which are those of the first numbers.
/// Returns the other numbers. Err: out of memory.
fn add_part<'a, 'n>(
    merged: &mut Vec<Text<'a>>,
    texts: &[Text<'a>],
    numbers: &'n [u64],
    bits: u32,
    part: &Option<Part<'a>>,
) -> Result<&'n [u64], Memory>
    requires below { bits < 64 }
    requires within { All (λ number. number % 2 ^ bits < length texts.now) numbers.now }
    ensures within { IfOk result (λ rest. All (λ number. number % 2 ^ bits < length texts.now) rest.now) }
    ensures merged { IfOk result (λ rest. (d : Update) (first second later : List Update) →
        IsMerging first second merged.old.items (updates_of part.now ++ later) (numbered texts.now bits d numbers.now) →
        IsMerging first second merged.new.items later (numbered texts.now bits d rest.now)) }
{
    let Some(entries) = part else {
        return Ok(numbers);
    };
    let mut rest = numbers;
    for at in 0..entries.len() {
        let entry = entries.text(at);
        rest = add_below(merged, texts, rest, bits, entry.key())?;
        merged.push(entry)?;
    }
    Ok(rest)
}

/// Appends the texts of the first numbers, up to the first whose key is not below this one. Returns the other numbers.
/// Err: out of memory.
fn add_below<'a, 'n>(
    merged: &mut Vec<Text<'a>>,
    texts: &[Text<'a>],
    numbers: &'n [u64],
    bits: u32,
    key: &[u8],
) -> Result<&'n [u64], Memory>
    requires below { bits < 64 }
    requires within { All (λ number. number % 2 ^ bits < length texts.now) numbers.now }
    ensures within { IfOk result (λ rest. All (λ number. number % 2 ^ bits < length texts.now) rest.now) }
    ensures merged { IfOk result (λ rest. (d : Update) (first second later : List Update) (entry : Update) → entry.key ≡ key.now →
        IsMerging first second merged.old.items (entry ∷ later) (numbered texts.now bits d numbers.now) →
        IsMerging first second merged.new.items (entry ∷ later) (numbered texts.now bits d rest.now)) }
    ensures ends { IfOk result (λ rest. (d : Update) → IsFrom key.now (numbered texts.now bits d rest.now)) }
{
    let mut rest = numbers;
    while let Some((number, after)) = rest.split_first() {
        let text = &texts[place_of(*number, bits)];
        if !comes_before(text.key(), key) {
            return Ok(rest);
        }
        merged.push(text.copy())?;
        rest = after;
    }
    Ok(rest)
}
