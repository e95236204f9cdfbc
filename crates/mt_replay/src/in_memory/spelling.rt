//! Encodes updates in memory as bodies, and sorts them.
ghost use Rattle.std.specs.Prelude.{◌≡◌, ◌++◌, [], ◌∷◌, IfOk, OnOk, IsPermutation, filter};
ghost use Rattle.mt_replay.specs.InMemory.{survives as survives_in, survives_with};

use crate::sorted_updates::in_order;
use crate::{SortedUpdates, Window};
use mt_record::{Stream, body_of_update};
use mt_words::{Kind, Memory, Update};
use std::alloc::Global;

impl SortedUpdates {
    /// Returns the updates that survive. It encodes each of them. If they are bodies already, `of_rising`
    /// avoids that. Err: out of memory.
    pub fn of(alloc: Global, updates: Vec<Update>, window: Window) -> Result<SortedUpdates, Memory>
        ensures { IfOk result (λ sorted. IsPermutation (filter (survives_in window) updates.items) sorted) }
    {
        let bodies = spell(alloc, &updates, window, true)?;
        in_order(alloc, &bodies)
    }
}

/// Returns the log updates in the window encoded as bodies, and with `entries` all entries too. Err: out of memory.
pub(crate) fn spell(
    alloc: Global,
    updates: &[Update],
    window: Window,
    entries: bool,
) -> Result<Stream, Memory>
    ensures { IfOk result (λ stream. stream ≡ filter (survives_with entries window) updates.now) }
{
    let mut stream = Stream::with_capacity(alloc, 0)?;
    for update in updates {
        if survives(update, window, entries) {
            add_body(alloc, &mut stream, update)?;
        }
    }
    Ok(stream)
}

/// Appends the body of an update. Err: out of memory.
fn add_body(alloc: Global, stream: &mut Stream, update: &Update) -> Result<(), Memory>
    ensures { OnOk result (stream.new ≡ stream.old ++ update.now ∷ []) }
{
    let body = body_of_update(alloc, update)?;
    stream.push(update.stamp.origin, &body)?;
    Ok(())
}

/// Returns whether an update survives. An entry survives with `entries`. Any other update survives if it is in the
/// window.
fn survives(update: &Update, window: Window, entries: bool) -> bool
    ensures { result ≡ survives_with entries window update.now }
{
    match &update.kind {
        Kind::Whole(_) => entries,
        _ => window.contains(update.timestamp),
    }
}
