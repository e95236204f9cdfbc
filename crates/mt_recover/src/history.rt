//! The history of a key: its updates, and what became of each.
ghost use Rattle.std.specs.Prelude.{◌≡◌, ◌↔◌, ◌++◌, [], ◌∷◌, ℕ, false, Option, Some, List, Contains, IsTrue, IfOk, OnOk, filter};
ghost use Rattle.std.specs.List.{AllZip};
ghost use Rattle.std.specs.Option.{option_map};
ghost use Rattle.mt_words.specs.Changes.{Writes};
ghost use Rattle.mt_words.specs.OneLog.{as_list, kept_updates};
ghost use Rattle.mt_record.specs.Logs.{LogReading};
ghost use Rattle.mt_scan.specs.Choosing.{checkpoint_in};
ghost use Rattle.mt_scan.specs.Scans.{ShowsLog};
ghost use Rattle.mt_replay.specs.Survivors.{log_updates, wholes};
ghost use Rattle.mt_recover.specs.Recovery.{entry_updates, records_of};
ghost use Rattle.mt_recover.specs.Check.{AllFrom};
ghost use Rattle.mt_recover.specs.History.{is_of, IsNewestOf, AreStanding, Stands, IsRemove, IsLastRemove, IsFate, IsHistory};
ghost use Rattle.mt_recover.specs.Steps.Fates.{updates_in, survives, those_surviving, IsLost, DecidesAt, Undoes, HasAdded};

use mt_record::{KeptEntries, Lent, Updates};
use mt_replay::Window;
use mt_scan::{Checkpoint, LogScan};
use mt_words::{Memory, Origin};
use std::alloc::{AllocError, Global};

/// What became of an update.
#[derive(Debug, Drop)]
pub enum Fate {
    /// It is from before the begin of the chosen checkpoint.
    Early,
    /// It is from the cutoff on.
    Late,
    /// It survives, but newer survivors undid all of it.
    Older,
    /// It survives, and these are the numbers of the columns that are as it wrote them: none only if it is a remove, and no
    /// newer survivor resets the key.
    Won(Vec<u32>),
}

/// The updates of a key, and what became of each.
#[derive(Drop)]
pub struct History<'a> {
    /// The updates: those of logs by log, then by record; then the entry of the chosen checkpoint.
    pub updates: Vec<Lent<'a>>,
    /// The fate of each.
    pub fates: Vec<Fate>,
}

/// Returns the history of a key. `scans` are those of all logs, in order, and kept all updates. Err: out of memory.
pub fn history_of<'a>(
    alloc: Global,
    key: &[u8],
    window: Window,
    scans: &'a [LogScan],
    chosen: &'a Option<Checkpoint>,
) -> Result<History<'a>, Memory>
    ensures { IfOk result (λ history. (logs : List LogReading) → AllFrom ShowsLog 0 scans.now logs →
        IsHistory key.now window (log_updates (records_of logs)) (entry_updates (option_map checkpoint_in chosen.now)) history.updates.items history.fates.items) }
{
    let updates = updates_of(alloc, key, scans, chosen)?;
    let fates = fates_of(alloc, window, &updates)?;
    Ok(History { updates, fates })
}

/// Returns the updates of a key. Err: out of memory.
fn updates_of<'a>(
    alloc: Global,
    key: &[u8],
    scans: &'a [LogScan],
    chosen: &'a Option<Checkpoint>,
) -> Result<Vec<Lent<'a>>, Memory>
    ensures { IfOk result (λ updates. updates.items ≡ filter (is_of key.now) (updates_in scans.now ++ entry_updates (option_map checkpoint_in chosen.now))) }
{
    let mut updates = Vec::new(alloc);
    for scan in scans {
        add_log(key, &scan.updates, &mut updates)?;
    }
    add_checkpoint(key, chosen, &mut updates)?;
    Ok(updates)
}

/// Appends the updates of a key in a log. Err: out of memory.
fn add_log<'a>(key: &[u8], log: &'a Updates, updates: &mut Vec<Lent<'a>>) -> Result<(), AllocError>
    ensures { OnOk result (updates.new.items ≡ updates.old.items ++ filter (is_of key.now) (kept_updates log.now)) }
{
    for number in 0..log.record_count() {
        add(key, log.update(number), updates)?;
    }
    Ok(())
}

/// Appends the updates of a key in a checkpoint, if there is one. Err: out of memory.
fn add_checkpoint<'a>(
    key: &[u8],
    chosen: &'a Option<Checkpoint>,
    updates: &mut Vec<Lent<'a>>,
) -> Result<(), AllocError>
    ensures { OnOk result (updates.new.items ≡ updates.old.items ++ filter (is_of key.now) (entry_updates (option_map checkpoint_in chosen.now))) }
{
    let Some(checkpoint) = chosen else {
        return Ok(());
    };
    for part in &checkpoint.parts {
        add_entries(key, &part.entries, updates)?;
    }
    Ok(())
}

/// Appends the updates of a key in a part. Err: out of memory.
fn add_entries<'a>(
    key: &[u8],
    entries: &'a KeptEntries,
    updates: &mut Vec<Lent<'a>>,
) -> Result<(), AllocError>
    ensures { OnOk result (updates.new.items ≡ updates.old.items ++ filter (is_of key.now) (wholes entries.now)) }
{
    for number in 0..entries.len() {
        add(key, Some(entries.update(number)), updates)?;
    }
    Ok(())
}

/// Appends an update, if there is one and it is of the key. Err: out of memory.
fn add<'a>(
    key: &[u8],
    update: Option<Lent<'a>>,
    updates: &mut Vec<Lent<'a>>,
) -> Result<(), AllocError>
    ensures { OnOk result (updates.new.items ≡ updates.old.items ++ filter (is_of key.now) (as_list update.entry)) }
{
    let Some(update) = update else {
        return Ok(());
    };
    if update.key() != key {
        return Ok(());
    }
    updates.push(update)?;
    Ok(())
}

/// Returns the fate of each of these updates, if there are no others. Err: out of memory.
fn fates_of(alloc: Global, window: Window, updates: &[Lent<'_>]) -> Result<Vec<Fate>, AllocError>
    ensures { IfOk result (λ fates. AllZip (IsFate window (those_surviving window updates.now)) updates.now fates.items) }
{
    let mut fates = Vec::with_capacity(alloc, updates.len())?;
    for update in updates {
        fates.push(fate_of(alloc, window, updates, update)?)?;
    }
    Ok(fates)
}

/// Returns the fate of an update among these, of which it is one. Err: out of memory.
fn fate_of(
    alloc: Global,
    window: Window,
    updates: &[Lent<'_>],
    update: &Lent<'_>,
) -> Result<Fate, AllocError>
    requires { Contains updates.now update.now }
    ensures { IfOk result (IsFate window (those_surviving window updates.now) update.now) }
{
    if survives(window, update) {
        return kept(alloc, window, updates, update);
    }
    Ok(lost(window, update))
}

/// Returns the fate of a survivor. Err: out of memory.
fn kept(
    alloc: Global,
    window: Window,
    updates: &[Lent<'_>],
    update: &Lent<'_>,
) -> Result<Fate, AllocError>
    requires { Contains (those_surviving window updates.now) update.now }
    ensures { IfOk result (IsFate window (those_surviving window updates.now) update.now) }
{
    let numbers = standing(alloc, window, updates, update)?;
    if numbers.is_empty() && !is_last_remove(window, updates, update) {
        return Ok(Fate::Older);
    }
    Ok(Fate::Won(numbers))
}

/// Returns whether an update survives.
fn survives(window: Window, update: &Lent<'_>) -> bool
    ensures { result ≡ survives window update.now }
{
    match update.origin() {
        Origin::Log { .. } => window.contains(update.timestamp()),
        Origin::Checkpoint => true,
    }
}

/// Returns the fate of an update that does not survive.
fn lost(window: Window, update: &Lent<'_>) -> Fate
    requires { survives window update.now ≡ false }
    ensures { IsLost window update.now result }
{
    if update.timestamp() < window.begin {
        Fate::Early
    } else {
        Fate::Late
    }
}

/// Returns the numbers of the columns that are as an update wrote them, in the order of its writes. Err: out of memory.
fn standing(
    alloc: Global,
    window: Window,
    updates: &[Lent<'_>],
    update: &Lent<'_>,
) -> Result<Vec<u32>, AllocError>
    ensures { IfOk result (λ numbers. AreStanding (those_surviving window updates.now) update.now numbers.items) }
{
    let mut numbers = Vec::new(alloc);
    let mut writes = update.writes();
    while let Some((number, _)) = writes.next() {
        push_if_newest(window, updates, update, number, &mut numbers)?;
    }
    Ok(numbers)
}

/// Appends the number of a column if no newer survivor decides what the key has there. Err: out of memory.
fn push_if_newest(
    window: Window,
    updates: &[Lent<'_>],
    update: &Lent<'_>,
    number: u8,
    numbers: &mut Vec<u32>,
) -> Result<(), AllocError>
    ensures { OnOk result (HasAdded numbers.old.items number (Stands (those_surviving window updates.now) update.now number) numbers.new.items) }
{
    if is_newest(window, updates, update, Some(number)) {
        numbers.push(u32::from(number))?;
    }
    Ok(())
}

/// Returns whether an update is a remove, and no newer survivor resets its key.
fn is_last_remove(window: Window, updates: &[Lent<'_>], update: &Lent<'_>) -> bool
    ensures { IsTrue result ↔ IsLastRemove (those_surviving window updates.now) update.now }
{
    is_remove(update) && is_newest(window, updates, update, None)
}

/// Returns whether an update resets its key, and writes nothing.
fn is_remove(update: &Lent<'_>) -> bool
    ensures { IsTrue result ↔ IsRemove update.now }
{
    update.is_reset() && update.writes().next().is_none()
}

/// Returns whether no survivor of the update's key that decides what the key has in this column is newer; without a number,
/// none that resets the key.
fn is_newest(window: Window, updates: &[Lent<'_>], update: &Lent<'_>, number: Option<u8>) -> bool
    ensures { IsTrue result ↔ IsNewestOf (DecidesAt number) (those_surviving window updates.now) update.now }
{
    for other in updates {
        if survives(window, other) && undoes(other, update, number) {
            return false;
        }
    }
    true
}

/// Returns whether an update undoes what an older one of its key did to this column or, without a number, by its reset.
fn undoes(update: &Lent<'_>, older: &Lent<'_>, number: Option<u8>) -> bool
    ensures { IsTrue result ↔ Undoes number update.now older.now }
{
    update.key() == older.key()
        && older.stamp().is_older(&update.stamp())
        && decides(update, number)
}

/// Returns whether an update decides what its key has in this column or, without a number, resets its key.
fn decides(update: &Lent<'_>, number: Option<u8>) -> bool
    ensures { IsTrue result ↔ DecidesAt number update.now }
{
    match number {
        Some(number) => update.is_reset() || writes_to(update, number),
        None => update.is_reset(),
    }
}

/// Returns whether an update writes this column.
fn writes_to(update: &Lent<'_>, number: u8) -> bool
    ensures { IsTrue result ↔ ((bytes : Option (List ℕ)) × Writes update.now.kind number bytes) }
{
    let mut writes = update.writes();
    while let Some((other, _)) = writes.next() {
        if other == number {
            return true;
        }
    }
    false
}
