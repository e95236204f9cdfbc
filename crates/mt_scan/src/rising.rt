//! Checks that keys rise.
ghost use Rattle.std.specs.Prelude.{◌≡◌, ◌↔◌, [], ◌∷◌, ◌++◌, IsTrue};
ghost use Rattle.mt_words.specs.Words.{AreRising};
ghost use Rattle.mt_scan.specs.PartsShown.{shown_by_all};
ghost use Rattle.mt_scan.specs.Choice.{entry_keys};
ghost use Rattle.mt_scan.specs.Steps.Checkpoints.{entries_of, none_or_one, last_key_of};

use mt_record::{KeptEntries, PartText};

/// Returns whether the keys of all entries strictly rise, within each part and from one part to the next.
pub fn do_entries_rise(texts: &[PartText<KeptEntries>]) -> bool
    ensures { IsTrue result ↔ AreRising (entry_keys (entries_of (shown_by_all texts.now))) }
{
    let mut last = None;
    for text in texts {
        if !do_rise_from(last, &text.entries) {
            return false;
        }
        last = last_key(last, &text.entries);
    }
    true
}

/// Returns whether the keys of the entries strictly rise, and are above the last key before them, if there is one.
fn do_rise_from(before: Option<&[u8]>, entries: &KeptEntries) -> bool
    ensures { IsTrue result ↔ AreRising (none_or_one before.entry ++ entry_keys entries.now) }
{
    entries.is_rising() && (entries.len() == 0 || can_follow(before, entries.key(0)))
}

/// Returns whether the key is above the last one before it, if there is one.
fn can_follow(last: Option<&[u8]>, key: &[u8]) -> bool
    ensures { IsTrue result ↔ AreRising (none_or_one last.entry ++ key.now ∷ []) }
{
    match last {
        Some(last) => last < key,
        None => true,
    }
}

/// Returns the last key of the entries, or the last one before them if there are no entries.
fn last_key<'a>(before: Option<&'a [u8]>, entries: &'a KeptEntries) -> Option<&'a [u8]>
    ensures { none_or_one result ≡ last_key_of (none_or_one before.entry ++ entry_keys entries.now) }
{
    let count = entries.len();
    if count == 0 {
        return before;
    }
    Some(entries.key(count - 1))
}
