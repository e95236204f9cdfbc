//! Checks that parts make up a checkpoint.
ghost use Rattle.std.specs.Prelude.{◌<◌, ◌↔◌, ℕ, List, length, IsTrue};
ghost use Rattle.mt_scan.specs.PartsShown.{KeptPart, shown_by, shown_by_all};
ghost use Rattle.mt_scan.specs.Choice.{IsPartAt, AreInPlace, AreItsParts};
ghost use Rattle.mt_scan.specs.Steps.Checkpoints.{reading_of};

use crate::rising::do_entries_rise;
use mt_record::{KeptEntries, PartText};

/// Returns whether the parts make up a valid checkpoint in this order. There must be at least one.
pub fn make_up(begin: u64, end: u64, texts: &[PartText<KeptEntries>]) -> bool
    requires { 0 < length texts.now }
    ensures { (number : ℕ) → IsTrue result ↔ AreItsParts (shown_by_all texts.now) (reading_of number begin end texts.now) }
{
    begin <= end && are_in_place(begin, end, texts) && do_entries_rise(texts)
}

/// Returns whether each part is at the place of its number and agrees with the checkpoint.
fn are_in_place(begin: u64, end: u64, texts: &[PartText<KeptEntries>]) -> bool
    ensures { (number : ℕ) → IsTrue result ↔
        AreInPlace (reading_of number begin end texts.now) (length texts.now) 0 (shown_by_all texts.now) }
{
    for (place, text) in texts.iter().enumerate() {
        if !is_at(begin, end, texts.len(), place, text) {
            return false;
        }
    }
    true
}

/// Returns whether this is the part at this place of a checkpoint of `count` parts.
fn is_at(begin: u64, end: u64, count: usize, place: usize, text: &PartText<KeptEntries>) -> bool
    ensures { (number : ℕ) (texts : List KeptPart) →
        IsTrue result ↔ IsPartAt (reading_of number begin end texts) count place (shown_by text.now) }
{
    usize::from(text.part) == place
        && usize::from(text.parts) == count
        && text.begin == begin
        && text.end == end
}
