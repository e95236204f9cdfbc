//! Ranges of a store.
ghost use Rattle.std.specs.Prelude.{◌≡◌, ◌≢◌, ◌∷◌, [], List, None, Some, IfOk, MatchOption, map, slice_get};
ghost use Rattle.mt_words.specs.Walks.{Pair};
ghost use Rattle.mt_tree.specs.Range.{range};
ghost use Rattle.mt_recover.specs.Report.{Outcome};
ghost use Rattle.mt_c.specs.Holding.{HoldsOutcome, HoldsPairs, pair_of, Holds, IsStore, AreHits};
ghost use Rattle.mt_c.specs.Ranges.{IsPairAt, IsColumnAt, column_at};
ghost use Rattle.mt_c.specs.Statuses.{IsOneOf, IsRefusedUnless};
ghost use Rattle.mt_c.specs.declared.status.TheConstants.{DONE, MEMORY, WRONG, ABSENT, SHORT};

use crate::buffer::write_bytes;
use crate::held::Held;
use crate::place::Place;
use crate::status::{ABSENT, MEMORY, WRONG};
use mt_recover::{Hit, Store, Wanted};
use mt_words::{Memory, PackedColumns};
use std::alloc::Global;

/// Copies the first `n` pairs of the store whose keys are at or after `start`, in order, into the empty place `hits`.
/// `WRONG`: `store` does not hold a store, or `hits` is not empty.
#[unsafe(no_mangle)]
pub extern "C" fn mtr_range(
    alloc: Global,
    store: &mut Place,
    start: &[u8],
    n: usize,
    hits: &mut Place,
) -> u32
    ensures same { store.new.handle.value ≡ store.old.handle.value }
    ensures done { (outcome : Outcome) → HoldsOutcome outcome store.old.handle.value → result ≡ DONE → HoldsPairs (range outcome.store start.now n) hits.new.handle.value }
    ensures kept { result ≢ DONE → hits.new.handle.value ≡ hits.old.handle.value }
    ensures certain { IsOneOf (DONE ∷ MEMORY ∷ WRONG ∷ []) result }
    ensures refused { IsRefusedUnless (Holds IsStore store.old.handle.value × (hits.old.handle.value ≡ None)) result }
{
    let Some(Held::Store(recovered)) = store.held() else {
        return WRONG;
    };
    if !hits.is_empty() {
        return WRONG;
    }
    match range_in(recovered.store(), start, n) {
        Ok(found) => hits.begin(alloc, Held::Hits(found)),
        Err(_) => MEMORY,
    }
}

/// Writes the key of the pair at position `i` of the hits to the beginning of `out`, and its length to `count`, and tells
/// the number of its columns. `ABSENT`: there are not so many hits. `WRONG`: the place does not hold hits.
#[unsafe(no_mangle)]
pub extern "C" fn mtr_hit(
    hits: &mut Place,
    i: usize,
    columns: &mut usize,
    out: &mut [u8],
    count: &mut usize,
) -> u32
    ensures same { hits.new.handle.value ≡ hits.old.handle.value }
    ensures written { (pairs : List Pair) → HoldsPairs pairs hits.old.handle.value → result ≢ ABSENT → IsPairAt (slice_get pairs i) columns.new out.old out.new count.new result }
    ensures absent { (pairs : List Pair) → HoldsPairs pairs hits.old.handle.value → result ≡ ABSENT → slice_get pairs i ≡ None }
    ensures kept { result ≢ DONE → out.new ≡ out.old }
    ensures untold { result ≢ DONE → result ≢ SHORT → (columns.new ≡ columns.old) × (count.new ≡ count.old) }
    ensures certain { IsOneOf (DONE ∷ WRONG ∷ ABSENT ∷ SHORT ∷ []) result }
    ensures refused { IsRefusedUnless (Holds AreHits hits.old.handle.value) result }
{
    let Some(Held::Hits(pairs)) = hits.held() else {
        return WRONG;
    };
    let Some(hit) = pairs.get(i) else {
        return ABSENT;
    };
    *columns = hit.columns.len();
    write_bytes(hit.key.as_bytes(), out, count)
}

/// Writes the value of the column at position `nth` of the pair at position `i` of the hits to the beginning of `out`, and
/// its length to `count`, and tells its number. `ABSENT`: there are not so many hits or columns. `WRONG`: the place does
/// not hold hits.
#[unsafe(no_mangle)]
pub extern "C" fn mtr_hit_column(
    hits: &mut Place,
    i: usize,
    nth: usize,
    number: &mut u8,
    out: &mut [u8],
    count: &mut usize,
) -> u32
    ensures same { hits.new.handle.value ≡ hits.old.handle.value }
    ensures written { (pairs : List Pair) → HoldsPairs pairs hits.old.handle.value → result ≢ ABSENT → IsColumnAt (column_at pairs i nth) number.new out.old out.new count.new result }
    ensures absent { (pairs : List Pair) → HoldsPairs pairs hits.old.handle.value → result ≡ ABSENT → column_at pairs i nth ≡ None }
    ensures kept { result ≢ DONE → out.new ≡ out.old }
    ensures untold { result ≢ DONE → result ≢ SHORT → (number.new ≡ number.old) × (count.new ≡ count.old) }
    ensures certain { IsOneOf (DONE ∷ WRONG ∷ ABSENT ∷ SHORT ∷ []) result }
    ensures refused { IsRefusedUnless (Holds AreHits hits.old.handle.value) result }
{
    let Some(Held::Hits(pairs)) = hits.held() else {
        return WRONG;
    };
    let Some(hit) = pairs.get(i) else {
        return ABSENT;
    };
    let Some((found, bytes)) = nth_column(&hit.columns, nth) else {
        return ABSENT;
    };
    *number = found;
    write_bytes(bytes, out, count)
}

/// Returns the number and the bytes of the column at position `nth`. Returns None if there are not so many columns.
fn nth_column(columns: &PackedColumns, nth: usize) -> Option<(u8, &[u8])>
    ensures { MatchOption result
        (slice_get columns.now nth ≡ None)
        (λ column. slice_get columns.now nth ≡ Some (column.0, column.1.now)) }
{
    let mut rest = columns.lent();
    for _ in 0..nth {
        rest.next()?;
    }
    rest.next()
}

/// Copies the first `n` pairs of the store whose keys are at or after `start`, with all their columns. Err: out of memory.
fn range_in(store: &Store, start: &[u8], n: usize) -> Result<Vec<Hit>, Memory>
    ensures { IfOk result (λ hits. map pair_of hits.items ≡ range store.now start.now n) }
{
    // Its contract says that the pairs are lawful.
    let _ = store.tree();
    store.getrange(start, n, Wanted::all())
}
