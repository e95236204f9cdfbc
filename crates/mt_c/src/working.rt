//! What a thread of C does with a log that it was lent.
ghost use Rattle.std.specs.Prelude.{◌≡◌, ◌≢◌, ◌⊎◌, ◌++◌, ◌∷◌, [], List, ℕ, map, flat_map, length, replicate};
ghost use Rattle.mt_words.specs.declared.update.Kind.TheVariants as kinds;
ghost use Rattle.mt_record.specs.Given.{column_of};
ghost use Rattle.mt_record.specs.Spelling.{spelling};
ghost use Rattle.mt_record.specs.Runs.{IsSmall};
ghost use Rattle.mt_writer.specs.Framing.{framed};
ghost use Rattle.mt_writer.specs.Journals.{Journal, Keeps};
ghost use Rattle.mt_keeper.specs.Crews.{CrewView, Deed, wrote, spent, marked, took, synced, looked, asked};
ghost use Rattle.mt_keeper.specs.Refusals.{LentTakesNot, LentMarksNot, LentHasFailed, IsLentInFlight, IsNoLog};
ghost use Rattle.mt_c.specs.Borrowing.{BorrowerView};
ghost use Rattle.mt_c.specs.Holding.{Holds};
ghost use Rattle.mt_c.specs.Keepers.{keeper_answers, HoldsBorrower, HoldsDeeds, HoldsLent, HoldsSomeBytes, IsAnyBorrower, IsLentRefusal};
ghost use Rattle.mt_c.specs.Loans.{HasFailed};
ghost use Rattle.mt_c.specs.Statuses.{IsOneOf, IsRefusedUnless};
ghost use Rattle.mt_c.specs.declared.status.TheConstants.{DONE, MEMORY, WRONG};

use crate::held::Held;
use crate::lent::{Lent, lend};
use crate::place::Place;
use crate::refusing::fault_status;
use crate::status::{DONE, MEMORY, WRONG};
use mt_record::Given;
use std::alloc::Global;

/// Appends a put of these columns of the key to the worker's log, and tells its stamp, which is its timestamp and its
/// version. Otherwise a stamp may be spent.
#[unsafe(no_mangle)]
pub extern "C" fn mtr_worker_put(
    worker: &mut Place,
    key: &[u8],
    columns: &[Given<'_>],
    stamp: &mut u64,
) -> u32
    ensures done { (crew : CrewView) (number : ℕ) (deeds : List Deed) → HoldsDeeds crew number deeds worker.old.handle.value → result ≡ DONE →
        HoldsDeeds crew number (deeds ++ wrote (record { version = stamp.new; key = key.now; kind = kinds.Put (map column_of columns.now) }) ∷ []) worker.new.handle.value }
    ensures kept { (crew : CrewView) (number : ℕ) (deeds : List Deed) → HoldsDeeds crew number deeds worker.old.handle.value → result ≢ DONE →
        HoldsDeeds crew number deeds worker.new.handle.value ⊎ HoldsDeeds crew number (deeds ++ spent ∷ []) worker.new.handle.value }
    ensures untold { result ≢ DONE → stamp.new ≡ stamp.old }
    ensures why { (b : BorrowerView) → HoldsBorrower (λ held. held ≡ b) worker.old.handle.value → result ≢ DONE →
        HoldsBorrower (λ after. IsLentRefusal (LentTakesNot (λ stamp. record { version = stamp; key = key.now; kind = kinds.Put (map column_of columns.now) }) b.log after.log) result) worker.new.handle.value }
    ensures certain { IsOneOf keeper_answers result }
    ensures wrong { (Holds IsAnyBorrower worker.old.handle.value → ⊥) → (result ≡ WRONG) × (worker.new.handle.value ≡ worker.old.handle.value) }
{
    let Some(borrower) = worker.borrower_mut() else {
        return WRONG;
    };
    match borrower.crew.put(&mut borrower.log, key, columns) {
        Ok(drawn) => {
            *stamp = drawn;
            DONE
        }
        Err(fault) => fault_status(fault),
    }
}

/// Appends a remove of the key, as `mtr_worker_put` does.
#[unsafe(no_mangle)]
pub extern "C" fn mtr_worker_remove(worker: &mut Place, key: &[u8], stamp: &mut u64) -> u32
    ensures done { (crew : CrewView) (number : ℕ) (deeds : List Deed) → HoldsDeeds crew number deeds worker.old.handle.value → result ≡ DONE →
        HoldsDeeds crew number (deeds ++ wrote (record { version = stamp.new; key = key.now; kind = kinds.Remove }) ∷ []) worker.new.handle.value }
    ensures kept { (crew : CrewView) (number : ℕ) (deeds : List Deed) → HoldsDeeds crew number deeds worker.old.handle.value → result ≢ DONE →
        HoldsDeeds crew number deeds worker.new.handle.value ⊎ HoldsDeeds crew number (deeds ++ spent ∷ []) worker.new.handle.value }
    ensures untold { result ≢ DONE → stamp.new ≡ stamp.old }
    ensures why { (b : BorrowerView) → HoldsBorrower (λ held. held ≡ b) worker.old.handle.value → result ≢ DONE →
        HoldsBorrower (λ after. IsLentRefusal (LentTakesNot (λ stamp. record { version = stamp; key = key.now; kind = kinds.Remove }) b.log after.log) result) worker.new.handle.value }
    ensures certain { IsOneOf keeper_answers result }
    ensures wrong { (Holds IsAnyBorrower worker.old.handle.value → ⊥) → (result ≡ WRONG) × (worker.new.handle.value ≡ worker.old.handle.value) }
{
    let Some(borrower) = worker.borrower_mut() else {
        return WRONG;
    };
    match borrower.crew.remove(&mut borrower.log, key) {
        Ok(drawn) => {
            *stamp = drawn;
            DONE
        }
        Err(fault) => fault_status(fault),
    }
}

/// Appends an erase of the columns of the key that have these numbers, as `mtr_worker_put` does.
#[unsafe(no_mangle)]
pub extern "C" fn mtr_worker_erase(
    worker: &mut Place,
    key: &[u8],
    numbers: &[u8],
    stamp: &mut u64,
) -> u32
    ensures done { (crew : CrewView) (number : ℕ) (deeds : List Deed) → HoldsDeeds crew number deeds worker.old.handle.value → result ≡ DONE →
        HoldsDeeds crew number (deeds ++ wrote (record { version = stamp.new; key = key.now; kind = kinds.Erase numbers.now }) ∷ []) worker.new.handle.value }
    ensures kept { (crew : CrewView) (number : ℕ) (deeds : List Deed) → HoldsDeeds crew number deeds worker.old.handle.value → result ≢ DONE →
        HoldsDeeds crew number deeds worker.new.handle.value ⊎ HoldsDeeds crew number (deeds ++ spent ∷ []) worker.new.handle.value }
    ensures untold { result ≢ DONE → stamp.new ≡ stamp.old }
    ensures why { (b : BorrowerView) → HoldsBorrower (λ held. held ≡ b) worker.old.handle.value → result ≢ DONE →
        HoldsBorrower (λ after. IsLentRefusal (LentTakesNot (λ stamp. record { version = stamp; key = key.now; kind = kinds.Erase numbers.now }) b.log after.log) result) worker.new.handle.value }
    ensures certain { IsOneOf keeper_answers result }
    ensures wrong { (Holds IsAnyBorrower worker.old.handle.value → ⊥) → (result ≡ WRONG) × (worker.new.handle.value ≡ worker.old.handle.value) }
{
    let Some(borrower) = worker.borrower_mut() else {
        return WRONG;
    };
    match borrower.crew.erase(&mut borrower.log, key, numbers) {
        Ok(drawn) => {
            *stamp = drawn;
            DONE
        }
        Err(fault) => fault_status(fault),
    }
}

/// Appends a mark beyond all stamps so far to the worker's log.
#[unsafe(no_mangle)]
pub extern "C" fn mtr_worker_mark(worker: &mut Place) -> u32
    ensures done { (crew : CrewView) (number : ℕ) (deeds : List Deed) → HoldsDeeds crew number deeds worker.old.handle.value → result ≡ DONE →
        (time : ℕ) × HoldsDeeds crew number (deeds ++ marked time ∷ []) worker.new.handle.value }
    ensures kept { (crew : CrewView) (number : ℕ) (deeds : List Deed) → HoldsDeeds crew number deeds worker.old.handle.value → result ≢ DONE →
        HoldsDeeds crew number deeds worker.new.handle.value ⊎ HoldsDeeds crew number (deeds ++ looked ∷ []) worker.new.handle.value }
    ensures why { (b : BorrowerView) → HoldsBorrower (λ held. held ≡ b) worker.old.handle.value → result ≢ DONE →
        HoldsBorrower (λ after. IsLentRefusal (LentMarksNot b.log after.log) result) worker.new.handle.value }
    ensures certain { IsOneOf keeper_answers result }
    ensures wrong { (Holds IsAnyBorrower worker.old.handle.value → ⊥) → (result ≡ WRONG) × (worker.new.handle.value ≡ worker.old.handle.value) }
{
    let Some(borrower) = worker.borrower_mut() else {
        return WRONG;
    };
    match borrower.crew.mark(&mut borrower.log) {
        Ok(()) => DONE,
        Err(fault) => fault_status(fault),
    }
}

/// Takes all that was appended to the worker's log, as `mtr_log_take` does.
#[unsafe(no_mangle)]
pub extern "C" fn mtr_worker_take(
    alloc: Global,
    worker: &mut Place,
    buffer: &mut Place,
    lent: &mut Lent,
) -> u32
    ensures done { (crew : CrewView) (number : ℕ) (deeds : List Deed) → HoldsDeeds crew number deeds worker.old.handle.value → result ≡ DONE →
        HoldsDeeds crew number (deeds ++ took ∷ []) worker.new.handle.value }
    ensures bytes { (b : BorrowerView) (j : Journal) → HoldsBorrower (λ held. held ≡ b) worker.old.handle.value → Keeps b.log.writer j → result ≡ DONE →
        HoldsLent lent.new (λ bytes. bytes ≡ framed b.log.writer.mark (flat_map spelling j.held)) buffer.new.handle.value }
    ensures small { (b : BorrowerView) (j : Journal) → HoldsBorrower (λ held. held ≡ b) worker.old.handle.value → Keeps b.log.writer j → result ≡ DONE → IsSmall (flat_map spelling j.held) }
    ensures kept { result ≢ DONE → (worker.new.handle.value ≡ worker.old.handle.value) × (buffer.new.handle.value ≡ buffer.old.handle.value) }
    ensures untold { result ≢ DONE → lent.new ≡ lent.old }
    ensures why { (b : BorrowerView) → HoldsBorrower (λ held. held ≡ b) worker.old.handle.value → HoldsSomeBytes buffer.old.handle.value → result ≢ DONE → result ≢ MEMORY →
        IsLentRefusal (λ fault. LentHasFailed b.log fault ⊎ IsLentInFlight b.log fault) result }
    ensures certain { IsOneOf keeper_answers result }
    ensures wrong { (Holds IsAnyBorrower worker.old.handle.value × HoldsSomeBytes buffer.old.handle.value → ⊥) → result ≡ WRONG }
{
    let Some(borrower) = worker.borrower_mut() else {
        return WRONG;
    };
    if let Some(held) = buffer.held_mut() {
        let Held::Bytes(bytes) = held else {
            return WRONG;
        };
        return match borrower.crew.take(&mut borrower.log, Vec::new(alloc)) {
            Ok(taken) => {
                *bytes = taken;
                lend(bytes, lent);
                DONE
            }
            Err(fault) => fault_status(fault),
        };
    }
    let Ok(mut held) = Box::new(alloc, Held::Log(None)) else {
        return MEMORY;
    };
    match borrower.crew.take(&mut borrower.log, Vec::new(alloc)) {
        Ok(taken) => {
            lend(&taken, lent);
            *held = Held::Bytes(taken);
            buffer.put(held);
            DONE
        }
        Err(fault) => fault_status(fault),
    }
}

/// Notes that the file of the worker's log has all bytes that were taken, and was synced since.
#[unsafe(no_mangle)]
pub extern "C" fn mtr_worker_synced(worker: &mut Place) -> u32
    ensures done { (crew : CrewView) (number : ℕ) (deeds : List Deed) → HoldsDeeds crew number deeds worker.old.handle.value → result ≡ DONE →
        HoldsDeeds crew number (deeds ++ synced ∷ []) worker.new.handle.value }
    ensures kept { result ≢ DONE → worker.new.handle.value ≡ worker.old.handle.value }
    ensures why { (b : BorrowerView) → HoldsBorrower (λ held. held ≡ b) worker.old.handle.value → result ≢ DONE →
        IsLentRefusal (λ fault. LentHasFailed b.log fault ⊎ IsNoLog (length b.crew.before.logs) b.log fault) result }
    ensures certain { IsOneOf keeper_answers result }
    ensures wrong { (Holds IsAnyBorrower worker.old.handle.value → ⊥) → result ≡ WRONG }
{
    let Some(borrower) = worker.borrower_mut() else {
        return WRONG;
    };
    match borrower.crew.synced(&mut borrower.log) {
        Ok(()) => DONE,
        Err(fault) => fault_status(fault),
    }
}

/// Tells the stamp below which all updates may be acknowledged, of all threads. `WRONG`: the place does not hold a lent log.
#[unsafe(no_mangle)]
pub extern "C" fn mtr_worker_acknowledged(worker: &mut Place, below: &mut u64) -> u32
    ensures done { (crew : CrewView) (number : ℕ) (deeds : List Deed) → HoldsDeeds crew number deeds worker.old.handle.value → result ≡ DONE →
        HoldsDeeds crew number ((deeds ++ replicate (length crew.before.logs) looked) ++ asked below.new ∷ []) worker.new.handle.value }
    ensures kept { result ≢ DONE → worker.new.handle.value ≡ worker.old.handle.value }
    ensures untold { result ≢ DONE → below.new ≡ below.old }
    ensures certain { IsOneOf (DONE ∷ WRONG ∷ []) result }
    ensures refused { IsRefusedUnless (Holds IsAnyBorrower worker.old.handle.value) result }
{
    let Some(borrower) = worker.borrower_mut() else {
        return WRONG;
    };
    *below = borrower.crew.acknowledged_below(&mut borrower.log);
    DONE
}

/// Notes that a write or a sync of the worker's log failed: from then on it takes nothing, and the keeper fails once the log
/// is back. `WRONG`: the place does not hold a lent log.
#[unsafe(no_mangle)]
pub extern "C" fn mtr_worker_failed(worker: &mut Place) -> u32
    ensures done { (b : BorrowerView) → HoldsBorrower (λ held. held ≡ b) worker.old.handle.value → result ≡ DONE → HoldsBorrower (HasFailed b) worker.new.handle.value }
    ensures same { (crew : CrewView) (number : ℕ) (deeds : List Deed) → HoldsDeeds crew number deeds worker.old.handle.value → HoldsDeeds crew number deeds worker.new.handle.value }
    ensures kept { result ≢ DONE → worker.new.handle.value ≡ worker.old.handle.value }
    ensures certain { IsOneOf (DONE ∷ WRONG ∷ []) result }
    ensures refused { IsRefusedUnless (Holds IsAnyBorrower worker.old.handle.value) result }
{
    let Some(borrower) = worker.borrower_mut() else {
        return WRONG;
    };
    borrower.log.failed();
    DONE
}

/// Tells the number of the worker's log. `WRONG`: the place does not hold a lent log.
#[unsafe(no_mangle)]
pub extern "C" fn mtr_worker_log(worker: &mut Place, log: &mut usize) -> u32
    ensures same { worker.new.handle.value ≡ worker.old.handle.value }
    ensures done { result ≡ DONE → HoldsBorrower (λ b. b.log.number ≡ log.new) worker.old.handle.value }
    ensures untold { result ≢ DONE → log.new ≡ log.old }
    ensures certain { IsOneOf (DONE ∷ WRONG ∷ []) result }
    ensures refused { IsRefusedUnless (Holds IsAnyBorrower worker.old.handle.value) result }
{
    let Some(Held::Borrower(borrower)) = worker.held() else {
        return WRONG;
    };
    *log = borrower.log.number();
    DONE
}
