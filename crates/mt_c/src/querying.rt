//! Queries of a store.
ghost use Rattle.std.specs.Prelude.{◌≡◌, ◌≢◌, ◌∷◌, [], List, ℕ, None, MatchOption};
ghost use Rattle.mt_recover.specs.Report.{Outcome};
ghost use Rattle.mt_c.specs.Buffers.{Writes};
ghost use Rattle.mt_c.specs.Holding.{HoldsOutcome, Holds, IsStore};
ghost use Rattle.mt_c.specs.Statuses.{IsOneOf, IsRefusedUnless};
ghost use Rattle.mt_c.specs.Values.{HasKey, IsNoKey, IsValue, IsAbsent};
ghost use Rattle.mt_c.specs.declared.status.TheConstants.{DONE, MEMORY, WRONG, ABSENT, SHORT};

use crate::buffer::write_bytes;
use crate::held::Held;
use crate::place::Place;
use crate::status::{ABSENT, DONE, MEMORY, WRONG};
use mt_recover::Store;
use std::alloc::Global;
use std::sync::Arc;

/// Writes the value of this column of this key to the beginning of `out`, and its length to `count`. `ABSENT`: there is
/// none. `WRONG`: the place does not hold a store.
#[unsafe(no_mangle)]
pub extern "C" fn mtr_get(
    store: &mut Place,
    key: &[u8],
    column: u8,
    out: &mut [u8],
    count: &mut usize,
) -> u32
    ensures same { store.new.handle.value ≡ store.old.handle.value }
    ensures done { (outcome : Outcome) → HoldsOutcome outcome store.old.handle.value → result ≢ ABSENT →
        (bytes : List ℕ) × IsValue outcome.store key.now column bytes × Writes bytes out.old out.new count.new result }
    ensures absent { (outcome : Outcome) → HoldsOutcome outcome store.old.handle.value → result ≡ ABSENT → IsAbsent outcome.store key.now column }
    ensures kept { result ≢ DONE → out.new ≡ out.old }
    ensures untold { result ≢ DONE → result ≢ SHORT → count.new ≡ count.old }
    ensures certain { IsOneOf (DONE ∷ WRONG ∷ ABSENT ∷ SHORT ∷ []) result }
    ensures refused { IsRefusedUnless (Holds IsStore store.old.handle.value) result }
{
    let Some(Held::Store(recovered)) = store.held() else {
        return WRONG;
    };
    match value_of(recovered.store(), key, column) {
        None => ABSENT,
        Some(bytes) => write_bytes(bytes, out, count),
    }
}

/// Answers whether the store has this key. `ABSENT`: it has not. `WRONG`: the place does not hold a store.
#[unsafe(no_mangle)]
pub extern "C" fn mtr_exists(store: &mut Place, key: &[u8]) -> u32
    ensures same { store.new.handle.value ≡ store.old.handle.value }
    ensures done { (outcome : Outcome) → HoldsOutcome outcome store.old.handle.value → result ≡ DONE → HasKey outcome.store key.now }
    ensures absent { (outcome : Outcome) → HoldsOutcome outcome store.old.handle.value → result ≡ ABSENT → IsNoKey outcome.store key.now }
    ensures certain { IsOneOf (DONE ∷ WRONG ∷ ABSENT ∷ []) result }
    ensures refused { IsRefusedUnless (Holds IsStore store.old.handle.value) result }
{
    let Some(Held::Store(recovered)) = store.held() else {
        return WRONG;
    };
    match recovered.store().get(key) {
        Some(_) => DONE,
        None => ABSENT,
    }
}

/// Puts the same store into the empty place `other`, for another thread. `WRONG`: `store` does not hold a store, or
/// `other` is not empty.
#[unsafe(no_mangle)]
pub extern "C" fn mtr_share(alloc: Global, store: &mut Place, other: &mut Place) -> u32
    ensures same { store.new.handle.value ≡ store.old.handle.value }
    ensures done { (outcome : Outcome) → HoldsOutcome outcome store.old.handle.value → result ≡ DONE → HoldsOutcome outcome other.new.handle.value }
    ensures kept { result ≢ DONE → other.new.handle.value ≡ other.old.handle.value }
    ensures certain { IsOneOf (DONE ∷ MEMORY ∷ WRONG ∷ []) result }
    ensures refused { IsRefusedUnless (Holds IsStore store.old.handle.value × (other.old.handle.value ≡ None)) result }
{
    let Some(Held::Store(recovered)) = store.held() else {
        return WRONG;
    };
    if !other.is_empty() {
        return WRONG;
    }
    match Arc::try_clone(recovered) {
        Ok(shared) => other.begin(alloc, Held::Store(shared)),
        Err(_) => MEMORY,
    }
}

/// Returns the bytes of this column of this key, or None if there are none.
fn value_of<'a>(store: &'a Store, key: &[u8], column: u8) -> Option<&'a [u8]>
    ensures { MatchOption result
        (IsAbsent store.now key.now column)
        (λ bytes. IsValue store.now key.now column bytes.now) }
{
    match store.get(key) {
        None => None,
        Some(columns) => columns.get(column),
    }
}
