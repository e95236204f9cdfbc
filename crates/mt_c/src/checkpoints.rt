//! Checkpoints that a keeper makes, one at a time.
ghost use Rattle.std.specs.Prelude.{◌≡◌, ◌≢◌, ◌⊎◌, ◌+◌, ℕ, true, None, Contains};
ghost use Rattle.mt_scan.specs.Choice.{CheckpointReading};
ghost use Rattle.mt_laws.specs.Writing.{Server, IsRead, updates_of};
ghost use Rattle.mt_keeper.specs.Keeping.{IsReading, HasRead};
ghost use Rattle.mt_keeper.specs.Calling.{counted_up, with_checkpoint, standing_on};
ghost use Rattle.mt_keeper.specs.Refusals.{HasFailed, HasNoStamp, IsMaking, HasNoNumber, ReadsNone, MayNotStand};
ghost use Rattle.mt_c.specs.Holding.{Holds};
ghost use Rattle.mt_c.specs.Keepers.{keeper_answers, HoldsKeeper, HoldsServer, HoldsAfter, IsKeeper, IsRefusal};
ghost use Rattle.mt_c.specs.Statuses.{IsOneOf, IsRefusedUnless};
ghost use Rattle.mt_c.specs.declared.status.TheConstants.{DONE, WRONG, FAILED};

use crate::held::Held;
use crate::place::Place;
use crate::refusing::fault_status;
use crate::status::{DONE, WRONG};

/// Begins a checkpoint, and tells its number and its begin. `EARLY`: one is being made.
#[unsafe(no_mangle)]
pub extern "C" fn mtr_checkpoint_begin(keeper: &mut Place, number: &mut u32, begin: &mut u64) -> u32
    ensures done { (s : Server) → HoldsServer s keeper.old.handle.value → result ≡ DONE → HoldsAfter s (counted_up s) keeper.new.handle.value }
    ensures told { result ≡ DONE → HoldsKeeper (λ k. (number.new ≡ k.next) × (begin.new ≡ k.clock + 1)) keeper.old.handle.value }
    ensures reading { result ≡ DONE → HoldsKeeper (λ k. IsReading k.making begin.new) keeper.new.handle.value }
    ensures kept { result ≢ DONE → keeper.new.handle.value ≡ keeper.old.handle.value }
    ensures untold { result ≢ DONE → (number.new ≡ number.old) × (begin.new ≡ begin.old) }
    ensures why { result ≢ DONE →
        IsRefusal (λ k fault. HasFailed k fault ⊎ (HasNoStamp k fault ⊎ (IsMaking k fault ⊎ HasNoNumber k fault))) keeper.old.handle.value result }
    ensures certain { IsOneOf keeper_answers result }
    ensures wrong { (Holds IsKeeper keeper.old.handle.value → ⊥) → result ≡ WRONG }
{
    let Some(held) = keeper.held_mut() else {
        return WRONG;
    };
    let Held::Keeper(keeping) = held else {
        return WRONG;
    };
    match keeping.begin_checkpoint() {
        Ok((drawn, stamp)) => {
            *number = drawn;
            *begin = stamp;
            DONE
        }
        Err(fault) => fault_status(fault),
    }
}

/// Notes that all keys are read, and tells the checkpoint's end. `EARLY`: no checkpoint is being read.
#[unsafe(no_mangle)]
pub extern "C" fn mtr_checkpoint_end(keeper: &mut Place, end: &mut u64) -> u32
    ensures done { (s : Server) (new : CheckpointReading) → HoldsServer s keeper.old.handle.value → HoldsKeeper (λ k. IsReading k.making new.begin) keeper.old.handle.value →
        result ≡ DONE → new.end ≡ end.new → IsRead (updates_of s.slots) new → HoldsAfter s (with_checkpoint s new) keeper.new.handle.value }
    ensures told { result ≡ DONE → HoldsKeeper (λ k. end.new ≡ k.clock) keeper.old.handle.value }
    ensures read { (begin : ℕ) → HoldsKeeper (λ k. IsReading k.making begin) keeper.old.handle.value → result ≡ DONE →
        HoldsKeeper (λ k. HasRead k.making begin end.new) keeper.new.handle.value }
    ensures kept { result ≢ DONE → keeper.new.handle.value ≡ keeper.old.handle.value }
    ensures untold { result ≢ DONE → end.new ≡ end.old }
    ensures why { result ≢ DONE → IsRefusal (λ k fault. HasFailed k fault ⊎ ReadsNone k fault) keeper.old.handle.value result }
    ensures wrong { (Holds IsKeeper keeper.old.handle.value → ⊥) → result ≡ WRONG }
    ensures certain { IsOneOf keeper_answers result }
{
    let Some(held) = keeper.held_mut() else {
        return WRONG;
    };
    let Held::Keeper(keeping) = held else {
        return WRONG;
    };
    match keeping.end_checkpoint() {
        Ok(stamp) => {
            *end = stamp;
            DONE
        }
        Err(fault) => fault_status(fault),
    }
}

/// Notes that the parts of the checkpoint that was read have their names, and that they and the folder are synced. `EARLY`:
/// none was read, or some log is not synced past its end.
#[unsafe(no_mangle)]
pub extern "C" fn mtr_checkpoint_stand(keeper: &mut Place) -> u32
    ensures done { (s : Server) (new : CheckpointReading) → HoldsServer s keeper.old.handle.value →
        HoldsKeeper (λ k. HasRead k.making new.begin new.end) keeper.old.handle.value → Contains s.checkpoints.written new → result ≡ DONE →
        HoldsAfter s (standing_on s new) keeper.new.handle.value }
    ensures kept { result ≢ DONE → keeper.new.handle.value ≡ keeper.old.handle.value }
    ensures why { result ≢ DONE → IsRefusal (λ k fault. HasFailed k fault ⊎ MayNotStand k fault) keeper.old.handle.value result }
    ensures wrong { (Holds IsKeeper keeper.old.handle.value → ⊥) → result ≡ WRONG }
    ensures certain { IsOneOf keeper_answers result }
{
    let Some(held) = keeper.held_mut() else {
        return WRONG;
    };
    let Held::Keeper(keeping) = held else {
        return WRONG;
    };
    match keeping.stand() {
        Ok(()) => DONE,
        Err(fault) => fault_status(fault),
    }
}

/// Gives up the checkpoint that is being made, if there is one. `WRONG`: the place does not hold a keeper.
#[unsafe(no_mangle)]
pub extern "C" fn mtr_checkpoint_abandon(keeper: &mut Place) -> u32
    ensures done { result ≡ DONE → HoldsKeeper (λ k. k.making ≡ None) keeper.new.handle.value }
    ensures same { (s : Server) → HoldsServer s keeper.old.handle.value → HoldsServer s keeper.new.handle.value }
    ensures kept { result ≢ DONE → keeper.new.handle.value ≡ keeper.old.handle.value }
    ensures why { result ≢ DONE → IsRefusal HasFailed keeper.old.handle.value result }
    ensures failed { HoldsKeeper (λ k. k.failed ≡ true) keeper.old.handle.value → result ≡ FAILED }
    ensures certain { IsOneOf keeper_answers result }
    ensures refused { IsRefusedUnless (Holds IsKeeper keeper.old.handle.value) result }
{
    let Some(held) = keeper.held_mut() else {
        return WRONG;
    };
    let Held::Keeper(keeping) = held else {
        return WRONG;
    };
    match keeping.abandon_checkpoint() {
        Ok(()) => DONE,
        Err(fault) => fault_status(fault),
    }
}
