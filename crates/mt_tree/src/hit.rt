//! The hits that a range query returns.
ghost use Rattle.std.specs.Prelude.{◌≡◌, IfOk};
ghost use Rattle.mt_tree.specs.Range.{wanted_of};

use crate::wanted::Wanted;
use mt_words::{Key, Memory, PackedColumns};
use std::alloc::Global;

/// A pair of a range, with only its wanted columns. It may have none of them.
#[derive(Debug, Drop)]
pub struct Hit {
    /// The key.
    pub key: Key,
    /// Its wanted columns.
    pub columns: PackedColumns,
}

/// Copies the wanted columns, in no more memory than they need. Err: out of memory.
pub(crate) fn copy_wanted(
    alloc: Global,
    columns: &PackedColumns,
    wanted: Wanted,
) -> Result<PackedColumns, Memory>
    ensures { IfOk result (λ copies. copies ≡ wanted_of wanted columns.now) }
{
    let mut copies = PackedColumns::with_capacity(alloc, wanted_size(columns, wanted))?;
    let mut rest = columns.lent();
    while let Some((number, bytes)) = rest.next() {
        if wanted.has(number) {
            copies.add(number, bytes)?;
        }
    }
    Ok(copies)
}

/// Returns the size of the block of the wanted columns.
fn wanted_size(columns: &PackedColumns, wanted: Wanted) -> usize {
    let mut size: usize = 1;
    let mut rest = columns.lent();
    while let Some((number, bytes)) = rest.next() {
        if wanted.has(number) {
            size = size.saturating_add(3 + bytes.len());
        }
    }
    size
}
