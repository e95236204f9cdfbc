//! Whole pairs of a store, in their flat form.
ghost use Rattle.std.specs.Prelude.{◌≡◌, ◌≢◌, ◌∷◌, []};
ghost use Rattle.mt_tree.specs.Range.{from};
ghost use Rattle.mt_recover.specs.Report.{Outcome};
ghost use Rattle.mt_c.specs.Cuts.{between};
ghost use Rattle.mt_c.specs.Flat.{WritesPair, Dumps};
ghost use Rattle.mt_c.specs.Holding.{HoldsOutcome, Holds, IsStore};
ghost use Rattle.mt_c.specs.Statuses.{IsOneOf, IsRefusedUnless};
ghost use Rattle.mt_c.specs.Values.{IsNoKey};
ghost use Rattle.mt_c.specs.declared.status.TheConstants.{DONE, WRONG, ABSENT, SHORT};

use crate::filling::{fill, fill_from};
use crate::flat::write_pair;
use crate::held::Held;
use crate::place::Place;
use crate::status::{ABSENT, WRONG};
use crate::trees::tree_of;

/// Writes the pair of this key to the beginning of `out`, and its length to `count`. `ABSENT`: the store has no such key.
/// `WRONG`: the place does not hold a store.
#[unsafe(no_mangle)]
pub extern "C" fn mtr_pair(store: &mut Place, key: &[u8], out: &mut [u8], count: &mut usize) -> u32
    ensures same { store.new.handle.value ≡ store.old.handle.value }
    ensures written { (outcome : Outcome) → HoldsOutcome outcome store.old.handle.value → result ≢ ABSENT → WritesPair outcome.store key.now out.old out.new count.new result }
    ensures absent { (outcome : Outcome) → HoldsOutcome outcome store.old.handle.value → result ≡ ABSENT → IsNoKey outcome.store key.now }
    ensures kept { result ≢ DONE → out.new ≡ out.old }
    ensures untold { result ≢ DONE → result ≢ SHORT → count.new ≡ count.old }
    ensures certain { IsOneOf (DONE ∷ WRONG ∷ ABSENT ∷ SHORT ∷ []) result }
    ensures refused { IsRefusedUnless (Holds IsStore store.old.handle.value) result }
{
    let Some(Held::Store(recovered)) = store.held() else {
        return WRONG;
    };
    let store = recovered.store();
    // Its contract says that the pairs are lawful.
    let _ = store.tree();
    match store.get(key) {
        None => ABSENT,
        Some(columns) => write_pair(key, columns, out, count),
    }
}

/// Writes the first pairs of the store whose keys are at or after `start` to the beginning of `out`, one after the other:
/// as many whole ones as have room, one at least. Tells the number of bytes in `count`, and that of the pairs in `pairs`.
/// `SHORT`: not even the first has room. `ABSENT`: there is no such pair. `WRONG`: the place does not hold a store.
#[unsafe(no_mangle)]
pub extern "C" fn mtr_dump(
    store: &mut Place,
    start: &[u8],
    out: &mut [u8],
    count: &mut usize,
    pairs: &mut usize,
) -> u32
    ensures same { store.new.handle.value ≡ store.old.handle.value }
    ensures dumped { (outcome : Outcome) → HoldsOutcome outcome store.old.handle.value → Dumps (from start.now outcome.store) out.old out.new count.new pairs.new result }
    ensures kept { result ≢ DONE → out.new ≡ out.old }
    ensures untold { result ≢ DONE → pairs.new ≡ pairs.old }
    ensures uncounted { result ≡ WRONG → count.new ≡ count.old }
    ensures certain { IsOneOf (DONE ∷ WRONG ∷ ABSENT ∷ SHORT ∷ []) result }
    ensures refused { IsRefusedUnless (Holds IsStore store.old.handle.value) result }
{
    let Some(Held::Store(recovered)) = store.held() else {
        return WRONG;
    };
    fill_from(tree_of(recovered.store()), start, out, count, pairs)
}

/// Writes the first pairs of the store whose keys are at or after `start` and below `end`, as `mtr_dump` does. An `end` of
/// no bytes is none. `ABSENT`: there is no such pair.
#[unsafe(no_mangle)]
pub extern "C" fn mtr_dump_until(
    store: &mut Place,
    start: &[u8],
    end: &[u8],
    out: &mut [u8],
    count: &mut usize,
    pairs: &mut usize,
) -> u32
    ensures same { store.new.handle.value ≡ store.old.handle.value }
    ensures dumped { (outcome : Outcome) → HoldsOutcome outcome store.old.handle.value → Dumps (between start.now end.now outcome.store) out.old out.new count.new pairs.new result }
    ensures kept { result ≢ DONE → out.new ≡ out.old }
    ensures untold { result ≢ DONE → pairs.new ≡ pairs.old }
    ensures uncounted { result ≡ WRONG → count.new ≡ count.old }
    ensures certain { IsOneOf (DONE ∷ WRONG ∷ ABSENT ∷ SHORT ∷ []) result }
    ensures refused { IsRefusedUnless (Holds IsStore store.old.handle.value) result }
{
    let Some(Held::Store(recovered)) = store.held() else {
        return WRONG;
    };
    fill(tree_of(recovered.store()), start, end, out, count, pairs)
}
