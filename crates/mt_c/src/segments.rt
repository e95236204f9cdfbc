//! Segments of a keeper's logs: their names, the next one, and their deletion.
ghost use Rattle.std.specs.Prelude.{◌≡◌, ◌≢◌, ◌⊎◌, ◌∷◌, [], ℕ, Some, None, false, length, slice_get};
ghost use Rattle.mt_laws.specs.Writing.{Server};
ghost use Rattle.mt_keeper.specs.declared.keeper.Log.{Log as Entry};
ghost use Rattle.mt_keeper.specs.Keeping.{Keeping, numbered, MayGo};
ghost use Rattle.mt_keeper.specs.Calling.{StepsToNext, with_going, with_gone};
ghost use Rattle.mt_keeper.specs.Filing.{workers_created, BeginsFile};
ghost use Rattle.mt_keeper.specs.Refusals.{HasFailed, HasNoNext, IsNotWhole, IsNotGoing};
ghost use Rattle.mt_c.specs.Holding.{Holds};
ghost use Rattle.mt_c.specs.Keepers.{keeper_answers, HoldsKeeper, HoldsServer, HoldsAfter, IsKeeper, IsFirst, IsRefusal};
ghost use Rattle.mt_c.specs.Statuses.{IsOneOf, IsRefusedUnless};
ghost use Rattle.mt_c.specs.declared.status.TheConstants.{DONE, WRONG, ABSENT};

use crate::held::Held;
use crate::place::Place;
use crate::refusing::fault_status;
use crate::status::{ABSENT, DONE, WRONG};
use std::alloc::Global;

/// Tells the worker and the number of the segment that the log is. `WRONG`: there is no such log, or it is deleted.
#[unsafe(no_mangle)]
pub extern "C" fn mtr_log_segment(
    keeper: &mut Place,
    log: usize,
    worker: &mut u32,
    segment: &mut u32,
) -> u32
    ensures same { keeper.new.handle.value ≡ keeper.old.handle.value }
    ensures done { (k : Keeping) (entry : Entry) → HoldsKeeper (λ held. held ≡ k) keeper.old.handle.value → slice_get k.logs log ≡ Some entry → result ≡ DONE →
        entry.segment ≡ Some (record { worker = worker.new; number = segment.new }) }
    ensures none { (k : Keeping) (entry : Entry) → HoldsKeeper (λ held. held ≡ k) keeper.old.handle.value → slice_get k.logs log ≡ Some entry → result ≡ WRONG → entry.segment ≡ None }
    ensures first { Holds IsFirst keeper.old.handle.value → IsRefusedUnless (log ≡ 0) result × (result ≡ DONE → (worker.new ≡ 0) × (segment.new ≡ 0)) }
    ensures kept { result ≢ DONE → (worker.new ≡ worker.old) × (segment.new ≡ segment.old) }
    ensures certain { IsOneOf (DONE ∷ WRONG ∷ []) result }
    ensures wrong { (Holds IsKeeper keeper.old.handle.value → ⊥) → (Holds IsFirst keeper.old.handle.value → ⊥) → result ≡ WRONG }
{
    let Some(held) = keeper.held() else {
        return WRONG;
    };
    match held {
        Held::First(_) if log == 0 => {
            *worker = 0;
            *segment = 0;
            DONE
        }
        Held::Keeper(keeping) => match keeping.segment(log) {
            Some(found) => {
                *worker = found.worker;
                *segment = found.number;
                DONE
            }
            None => WRONG,
        },
        _ => WRONG,
    }
}

/// Seals the log, and begins the next segment of its worker, which is to be created, and tells its number. `EARLY`: not all
/// records of the log are synced.
#[unsafe(no_mangle)]
pub extern "C" fn mtr_log_rotate(
    alloc: Global,
    keeper: &mut Place,
    log: usize,
    next: &mut usize,
) -> u32
    ensures done { (s : Server) → HoldsServer s keeper.old.handle.value → result ≡ DONE →
        (next.new ≡ length (numbered s)) × HoldsKeeper (StepsToNext s log) keeper.new.handle.value }
    ensures file { (k : Keeping) → HoldsKeeper (λ held. held ≡ k) keeper.old.handle.value → result ≡ DONE → HoldsKeeper (λ after. BeginsFile k after (workers_created k.logs) next.new) keeper.new.handle.value }
    ensures kept { result ≢ DONE → keeper.new.handle.value ≡ keeper.old.handle.value }
    ensures untold { result ≢ DONE → next.new ≡ next.old }
    ensures why { (s : Server) → HoldsServer s keeper.old.handle.value → result ≢ DONE →
        IsRefusal (λ k fault. HasFailed k fault ⊎ (HasNoNext (slice_get k.logs log) fault ⊎ IsNotWhole s log fault)) keeper.old.handle.value result }
    ensures certain { IsOneOf keeper_answers result }
    ensures wrong { (Holds IsKeeper keeper.old.handle.value → ⊥) → result ≡ WRONG }
{
    let Some(held) = keeper.held_mut() else {
        return WRONG;
    };
    let Held::Keeper(keeping) = held else {
        return WRONG;
    };
    match keeping.begin_segment(alloc, log) {
        Ok(number) => {
            *next = number;
            DONE
        }
        Err(fault) => fault_status(fault),
    }
}

/// Tells the number of the next segment whose file may be deleted. `ABSENT`: there is none.
#[unsafe(no_mangle)]
pub extern "C" fn mtr_log_delete(keeper: &mut Place, log: &mut usize) -> u32
    ensures done { (s : Server) → HoldsServer s keeper.old.handle.value → result ≡ DONE → HoldsAfter s (with_going s log.new) keeper.new.handle.value }
    ensures absent { result ≡ ABSENT → HoldsKeeper (λ k. (number : ℕ) → MayGo k number → k.failed ≡ false → ⊥) keeper.old.handle.value }
    ensures kept { result ≢ DONE → keeper.new.handle.value ≡ keeper.old.handle.value }
    ensures untold { result ≢ DONE → log.new ≡ log.old }
    ensures certain { IsOneOf (DONE ∷ WRONG ∷ ABSENT ∷ []) result }
    ensures refused { IsRefusedUnless (Holds IsKeeper keeper.old.handle.value) result }
{
    let Some(held) = keeper.held_mut() else {
        return WRONG;
    };
    let Held::Keeper(keeping) = held else {
        return WRONG;
    };
    match keeping.next_to_delete() {
        Some(number) => {
            *log = number;
            DONE
        }
        None => ABSENT,
    }
}

/// Notes that the file of a segment is deleted, and that the folder is synced. `WRONG`: the log is not being deleted.
#[unsafe(no_mangle)]
pub extern "C" fn mtr_log_deleted(keeper: &mut Place, log: usize) -> u32
    ensures done { (s : Server) → HoldsServer s keeper.old.handle.value → result ≡ DONE → HoldsAfter s (with_gone s log) keeper.new.handle.value }
    ensures kept { result ≢ DONE → keeper.new.handle.value ≡ keeper.old.handle.value }
    ensures why { result ≢ DONE → IsRefusal (λ k fault. HasFailed k fault ⊎ IsNotGoing k log fault) keeper.old.handle.value result }
    ensures certain { IsOneOf keeper_answers result }
    ensures wrong { (Holds IsKeeper keeper.old.handle.value → ⊥) → result ≡ WRONG }
{
    let Some(held) = keeper.held_mut() else {
        return WRONG;
    };
    let Held::Keeper(keeping) = held else {
        return WRONG;
    };
    match keeping.deleted(log) {
        Ok(()) => DONE,
        Err(fault) => fault_status(fault),
    }
}
