//! The sources of a case.
use crate::draft::Draft;
use crate::mistake::Mistake;
use mt_recover::Inputs;
use mt_scan::{FaultSource, Slot};
use std::alloc::Global;

/// Returns the sources of the drafts, each with the buffer of a slot. A source that must not fail is set to fail at a
/// call that is never made.
pub fn inputs_of<'a>(
    alloc: Global,
    drafts: &'a [Draft],
    slots: &'a mut [Slot],
) -> Result<Inputs<FaultSource<'a>>, Mistake> {
    let mut logs = Vec::new(alloc);
    let mut parts = Vec::new(alloc);
    for (draft, slot) in drafts.iter().zip(slots) {
        let call = draft.fails.unwrap_or(u64::MAX).max(1);
        let source = FaultSource::new(&draft.bytes, slot, call).ok_or(Mistake::SLOT)?;
        if draft.is_log {
            logs.push(source)?;
        } else {
            parts.push(source)?;
        }
    }
    Ok(Inputs { logs, parts })
}
