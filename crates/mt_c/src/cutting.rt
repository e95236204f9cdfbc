//! Keys that cut a store into ranges of about equally many pairs.
ghost use Rattle.std.specs.Prelude.{◌≡◌, ◌≢◌, ◌⊎◌, ◌<◌, ◌∷◌, [], List, ℕ};
ghost use Rattle.mt_words.specs.Walks.{Pair, IsMap};
ghost use Rattle.mt_recover.specs.Report.{Outcome};
ghost use Rattle.mt_c.specs.Buffers.{Writes};
ghost use Rattle.mt_c.specs.Cuts.{BeginsRange, BeginRanges, each_range};
ghost use Rattle.mt_c.specs.Holding.{HoldsOutcome, Holds, IsStore};
ghost use Rattle.mt_c.specs.Statuses.{IsOneOf, IsRefusedUnless};
ghost use Rattle.mt_c.specs.declared.status.TheConstants.{DONE, WRONG, ABSENT, SHORT};

use crate::buffer::write_bytes;
use crate::held::Held;
use crate::place::Place;
use crate::seeking::cut_key;
use crate::status::{ABSENT, WRONG};
use crate::trees::tree_of;
use mt_recover::Store;

/// Writes the key at which range `i` of `n` ranges of the store begins to the beginning of `out`, and its length to
/// `count`. The ranges have all pairs, each the same number of them or one more. Range 0 begins at no bytes, and no other
/// does. A key that cuts the store need not be in it. `ABSENT`: `i` is `n` or more. `WRONG`: the place does not hold a
/// store.
#[unsafe(no_mangle)]
pub extern "C" fn mtr_cut_key(
    store: &mut Place,
    i: usize,
    n: usize,
    out: &mut [u8],
    count: &mut usize,
) -> u32
    ensures same { store.new.handle.value ≡ store.old.handle.value }
    ensures written { (outcome : Outcome) → HoldsOutcome outcome store.old.handle.value → result ≢ ABSENT →
        (key : List ℕ) × BeginsRange outcome.store i n key × Writes key out.old out.new count.new result }
    ensures there { result ≢ ABSENT → result ≢ WRONG → i < n }
    ensures absent { result ≡ ABSENT → i < n → ⊥ }
    ensures kept { result ≢ DONE → out.new ≡ out.old }
    ensures untold { result ≢ DONE → result ≢ SHORT → count.new ≡ count.old }
    ensures certain { IsOneOf (DONE ∷ WRONG ∷ ABSENT ∷ SHORT ∷ []) result }
    ensures refused { IsRefusedUnless (Holds IsStore store.old.handle.value) result }
{
    let Some(Held::Store(recovered)) = store.held() else {
        return WRONG;
    };
    if i >= n {
        return ABSENT;
    }
    write_cut(recovered.store(), i, n, out, count)
}

/// Writes the key at which range `i` of `n` ranges of the store begins to the beginning of `out`, and its length to `count`.
fn write_cut(store: &Store, i: usize, n: usize, out: &mut [u8], count: &mut usize) -> u32
    requires { i < n }
    ensures written { (key : List ℕ) × BeginsRange store.now i n key × Writes key out.old out.new count.new result }
    ensures accepted { result ≢ WRONG }
    ensures certain { (result ≡ DONE) ⊎ (result ≡ SHORT) }
{
    let key = cut_key(tree_of(store), i, n);
    write_bytes(key.as_slice(), out, count)
}

/// States that the ranges that begin at the keys of `mtr_cut_key`, one after the other, are the whole store. This is a law:
/// it has nothing to run.
#[tactic(auto, using(crate::proofs::Joins::ranges_join))]
pub fn ranges_join_to_the_store()
    ensures { (pairs : List Pair) (n : ℕ) (keys : List (List ℕ)) → IsMap pairs → 0 < n → BeginRanges pairs 0 n keys → each_range keys pairs ≡ pairs }
{}
