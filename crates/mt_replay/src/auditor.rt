//! The clashes of the updates of texts, key by key.
ghost use Rattle.std.specs.Prelude.{◌≡◌, ◌≤◌, ◌<◌, ◌↔◌, ◌++◌, [], ◌∷◌, List, Contains, length, IfOk, OnOk, Some};
ghost use Rattle.std.specs.List.Sorted.{IsPartitionPoint};
ghost use Rattle.mt_words.specs.Limits.{widest};
ghost use Rattle.mt_words.specs.Words.{IsKey};
ghost use Rattle.mt_replay.specs.Clashes.{Rises, AreClashes};
ghost use Rattle.mt_replay.specs.Cuts.{InKeyOrder};
ghost use Rattle.mt_replay.specs.Steps.Auditor.{IsLowerSeen, seen_by, seen_in, clash_at, AddClashes};

use crate::clash::{Clash, Place};
use crate::replay::end_of_key;
use mt_record::Text;
use mt_words::{Key, Memory, Origin, Stamp};
use std::alloc::Global;

/// The version and the place of a log update.
#[derive(Clone, Copy, PartialEq, Eq, PartialOrd, Ord)]
struct Seen {
    version: u64,
    place: Place,
}

/// Returns the clashes of the updates of texts, which are in the order of their keys. Err: out of memory.
pub(crate) fn clashes_of(alloc: Global, sorted: &[Text<'_>]) -> Result<Vec<Clash>, Memory>
    requires { InKeyOrder sorted.now }
    ensures { IfOk result (λ clashes. AreClashes sorted.now clashes.items) }
{
    let mut clashes = Vec::new(alloc);
    let mut seen = Vec::new(alloc);
    let mut at = 0;
    while at < sorted.len() {
        let end = end_of_key(sorted, at);
        note_all(&mut seen, &sorted[at..end])?;
        keep_each_once(&mut seen);
        add_clashes(alloc, &mut clashes, sorted[at].key(), &seen)?;
        at = end;
    }
    Ok(clashes)
}

/// Lists the versions and the places of updates. Entries of a checkpoint do not count. Err: out of memory.
fn note_all(seen: &mut Vec<Seen>, texts: &[Text<'_>]) -> Result<(), Memory>
    ensures { OnOk result (seen.new.items ≡ seen_in texts.now) }
{
    seen.clear();
    for text in texts {
        note(seen, text.lent().stamp())?;
    }
    Ok(())
}

/// Appends the version and the place of an update, unless it is the entry of a checkpoint. Err: out of memory.
fn note(seen: &mut Vec<Seen>, stamp: Stamp) -> Result<(), Memory>
    ensures { OnOk result (seen.new.items ≡ seen.old.items ++ seen_by stamp.version stamp.origin) }
{
    let Origin::Log { log, record } = stamp.origin else {
        return Ok(());
    };
    seen.push(Seen {
        version: stamp.version,
        place: Place { log, nth: record },
    })?;
    Ok(())
}

/// Sorts what was seen, and keeps each once: the same update may come twice.
fn keep_each_once(seen: &mut Vec<Seen>)
    ensures rise { Rises IsLowerSeen seen.new.items }
    ensures same { (one : Seen) → Contains seen.new.items one ↔ Contains seen.old.items one }
{
    seen.sort_unstable();
    seen.dedup();
}

/// Appends a clash for each version of the key that was seen more than once. Err: out of memory.
fn add_clashes(
    alloc: Global,
    clashes: &mut Vec<Clash>,
    key: &[u8],
    seen: &[Seen],
) -> Result<(), Memory>
    requires lawful { IsKey widest key.now }
    requires rise { Rises IsLowerSeen seen.now }
    ensures { OnOk result (AddClashes key.now seen.now clashes.old.items clashes.new.items) }
{
    let mut rest = seen;
    while let Some(first) = rest.first() {
        let (same, later) = rest.split_at(count_like(rest, *first));
        if same.len() > 1 {
            clashes.push(clash_of(alloc, key, first.version, same)?)?;
        }
        rest = later;
    }
    Ok(())
}

/// Returns how many at the front have at most the version of this one.
fn count_like(seen: &[Seen], first: Seen) -> usize
    requires { Rises IsLowerSeen seen.now }
    ensures within { result ≤ length seen.now }
    ensures point { IsPartitionPoint (λ one. one.version ≤ first.version) (λ one. first.version < one.version) seen.now result }
{
    seen.partition_point(|one: &Seen| one.version <= first.version)
}

/// Returns the clash of what was seen of a key at one version. Err: out of memory.
fn clash_of(alloc: Global, key: &[u8], version: u64, seen: &[Seen]) -> Result<Clash, Memory>
    requires { IsKey widest key.now }
    ensures { IfOk result (λ clash. clash ≡ clash_at key.now version seen.now) }
{
    let mut places = Vec::with_capacity(alloc, seen.len())?;
    for one in seen {
        places.push(one.place)?;
    }
    Ok(Clash {
        key: Key::copy_of(alloc, key)?,
        version,
        places,
    })
}
