//! Records of a keeper's logs: appending them, taking them for a write, and noting that they are synced.
ghost use Rattle.std.specs.Prelude.{◌≡◌, ◌≢◌, ◌⊎◌, ◌+◌, Some, map, flat_map, slice_get};
ghost use Rattle.mt_words.specs.Built.{mark_of, put_of, remove_of, erase_of};
ghost use Rattle.mt_words.specs.declared.update.Kind.TheVariants as kinds;
ghost use Rattle.mt_record.specs.Given.{column_of};
ghost use Rattle.mt_record.specs.Spelling.{spelling};
ghost use Rattle.mt_record.specs.Runs.{IsSmall};
ghost use Rattle.mt_writer.specs.Framing.{framed};
ghost use Rattle.mt_writer.specs.Journals.{Journal, Writer};
ghost use Rattle.mt_laws.specs.Writing.{writing, Server};
ghost use Rattle.mt_keeper.specs.Keeping.{Keeping, numbered};
ghost use Rattle.mt_keeper.specs.Calling.{appended, with_taken, with_synced};
ghost use Rattle.mt_keeper.specs.declared.keeper.Stage.TheVariants.{Writing};
ghost use Rattle.mt_keeper.specs.Refusals.{IsAt, HasFailed, IsNotWritten, TakesNot, NoMark, NoChange, IsInFlight};
ghost use Rattle.mt_c.specs.Holding.{Holds};
ghost use Rattle.mt_c.specs.Keepers.{keeper_answers, HoldsKeeper, HoldsServer, HoldsAfter, HoldsLent, HoldsSomeBytes, IsKeeper, IsRefusal};
ghost use Rattle.mt_c.specs.Statuses.{IsOneOf};
ghost use Rattle.mt_c.specs.declared.status.TheConstants.{DONE, MEMORY, WRONG};

use crate::held::Held;
use crate::lent::{Lent, lend};
use crate::place::Place;
use crate::refusing::fault_status;
use crate::status::{DONE, MEMORY, WRONG};
use mt_record::Given;
use std::alloc::Global;

/// Appends a put of these columns of the key to the log, and tells its stamp, which is its timestamp and its version.
#[unsafe(no_mangle)]
pub extern "C" fn mtr_log_put(
    keeper: &mut Place,
    log: usize,
    key: &[u8],
    columns: &[Given<'_>],
    stamp: &mut u64,
) -> u32
    ensures done { (s : Server) → HoldsServer s keeper.old.handle.value → result ≡ DONE →
        HoldsAfter s (appended s log (put_of stamp.new stamp.new key.now (map column_of columns.now))) keeper.new.handle.value }
    ensures kept { result ≢ DONE → keeper.new.handle.value ≡ keeper.old.handle.value }
    ensures untold { result ≢ DONE → stamp.new ≡ stamp.old }
    ensures why { result ≢ DONE → IsRefusal (λ k. let time = k.clock + 1 in
        TakesNot k log (NoChange time (record { version = time; key = key.now; kind = kinds.Put (map column_of columns.now) }))) keeper.old.handle.value result }
    ensures certain { IsOneOf keeper_answers result }
    ensures wrong { (Holds IsKeeper keeper.old.handle.value → ⊥) → result ≡ WRONG }
{
    let Some(held) = keeper.held_mut() else {
        return WRONG;
    };
    let Held::Keeper(keeping) = held else {
        return WRONG;
    };
    match keeping.put(log, key, columns) {
        Ok(drawn) => {
            *stamp = drawn;
            DONE
        }
        Err(fault) => fault_status(fault),
    }
}

/// Appends a remove of the key to the log, as `mtr_log_put` does.
#[unsafe(no_mangle)]
pub extern "C" fn mtr_log_remove(keeper: &mut Place, log: usize, key: &[u8], stamp: &mut u64) -> u32
    ensures done { (s : Server) → HoldsServer s keeper.old.handle.value → result ≡ DONE →
        HoldsAfter s (appended s log (remove_of stamp.new stamp.new key.now)) keeper.new.handle.value }
    ensures kept { result ≢ DONE → keeper.new.handle.value ≡ keeper.old.handle.value }
    ensures untold { result ≢ DONE → stamp.new ≡ stamp.old }
    ensures why { result ≢ DONE → IsRefusal (λ k. let time = k.clock + 1 in
        TakesNot k log (NoChange time (record { version = time; key = key.now; kind = kinds.Remove }))) keeper.old.handle.value result }
    ensures certain { IsOneOf keeper_answers result }
    ensures wrong { (Holds IsKeeper keeper.old.handle.value → ⊥) → result ≡ WRONG }
{
    let Some(held) = keeper.held_mut() else {
        return WRONG;
    };
    let Held::Keeper(keeping) = held else {
        return WRONG;
    };
    match keeping.remove(log, key) {
        Ok(drawn) => {
            *stamp = drawn;
            DONE
        }
        Err(fault) => fault_status(fault),
    }
}

/// Appends an erase of the columns of the key that have these numbers to the log, as `mtr_log_put` does.
#[unsafe(no_mangle)]
pub extern "C" fn mtr_log_erase(
    keeper: &mut Place,
    log: usize,
    key: &[u8],
    numbers: &[u8],
    stamp: &mut u64,
) -> u32
    ensures done { (s : Server) → HoldsServer s keeper.old.handle.value → result ≡ DONE →
        HoldsAfter s (appended s log (erase_of stamp.new stamp.new key.now numbers.now)) keeper.new.handle.value }
    ensures kept { result ≢ DONE → keeper.new.handle.value ≡ keeper.old.handle.value }
    ensures untold { result ≢ DONE → stamp.new ≡ stamp.old }
    ensures why { result ≢ DONE → IsRefusal (λ k. let time = k.clock + 1 in
        TakesNot k log (NoChange time (record { version = time; key = key.now; kind = kinds.Erase numbers.now }))) keeper.old.handle.value result }
    ensures certain { IsOneOf keeper_answers result }
    ensures wrong { (Holds IsKeeper keeper.old.handle.value → ⊥) → result ≡ WRONG }
{
    let Some(held) = keeper.held_mut() else {
        return WRONG;
    };
    let Held::Keeper(keeping) = held else {
        return WRONG;
    };
    match keeping.erase(log, key, numbers) {
        Ok(drawn) => {
            *stamp = drawn;
            DONE
        }
        Err(fault) => fault_status(fault),
    }
}

/// Appends a mark beyond all stamps to the log. Once all logs have synced one, all updates before may be acknowledged.
#[unsafe(no_mangle)]
pub extern "C" fn mtr_log_mark(keeper: &mut Place, log: usize) -> u32
    ensures done { (s : Server) (k : Keeping) → HoldsServer s keeper.old.handle.value → HoldsKeeper (λ held. held ≡ k) keeper.old.handle.value → result ≡ DONE →
        HoldsAfter s (appended s log (mark_of (k.clock + 1))) keeper.new.handle.value }
    ensures kept { result ≢ DONE → keeper.new.handle.value ≡ keeper.old.handle.value }
    ensures why { result ≢ DONE → IsRefusal (λ k. TakesNot k log (NoMark (k.clock + 1))) keeper.old.handle.value result }
    ensures certain { IsOneOf keeper_answers result }
    ensures wrong { (Holds IsKeeper keeper.old.handle.value → ⊥) → result ≡ WRONG }
{
    let Some(held) = keeper.held_mut() else {
        return WRONG;
    };
    let Held::Keeper(keeping) = held else {
        return WRONG;
    };
    match keeping.mark(log) {
        Ok(()) => DONE,
        Err(fault) => fault_status(fault),
    }
}

/// Takes all that was appended to the log since the last call, to be appended to its file by one write: a small block. The
/// place `buffer` is empty, or holds bytes of an earlier call. It then holds the new bytes, which are lent to the caller.
/// `EARLY`: the bytes of the last call are not synced. `WRONG`: also if `buffer` holds something else.
#[unsafe(no_mangle)]
pub extern "C" fn mtr_log_take(
    alloc: Global,
    keeper: &mut Place,
    log: usize,
    buffer: &mut Place,
    lent: &mut Lent,
) -> u32
    ensures done { (s : Server) → HoldsServer s keeper.old.handle.value → result ≡ DONE → HoldsAfter s (with_taken s log) keeper.new.handle.value }
    ensures bytes { (s : Server) (k : Keeping) (j : Journal) (w : Writer) → HoldsServer s keeper.old.handle.value → HoldsKeeper (λ held. held ≡ k) keeper.old.handle.value →
        slice_get (numbered s) log ≡ Some (writing j) → IsAt k log (Writing w) → result ≡ DONE →
        HoldsLent lent.new (λ bytes. bytes ≡ framed w.mark (flat_map spelling j.held)) buffer.new.handle.value }
    ensures small { (s : Server) (j : Journal) → HoldsServer s keeper.old.handle.value → slice_get (numbered s) log ≡ Some (writing j) → result ≡ DONE → IsSmall (flat_map spelling j.held) }
    ensures kept { result ≢ DONE → (keeper.new.handle.value ≡ keeper.old.handle.value) × (buffer.new.handle.value ≡ buffer.old.handle.value) }
    ensures untold { result ≢ DONE → lent.new ≡ lent.old }
    ensures why { (s : Server) → HoldsServer s keeper.old.handle.value → HoldsSomeBytes buffer.old.handle.value → result ≢ DONE → result ≢ MEMORY →
        IsRefusal (λ k fault. HasFailed k fault ⊎ (IsNotWritten k log fault ⊎ IsInFlight s log fault)) keeper.old.handle.value result }
    ensures certain { IsOneOf keeper_answers result }
    ensures wrong { (Holds IsKeeper keeper.old.handle.value × HoldsSomeBytes buffer.old.handle.value → ⊥) → result ≡ WRONG }
{
    let Some(held) = keeper.held_mut() else {
        return WRONG;
    };
    let Held::Keeper(keeping) = held else {
        return WRONG;
    };
    if let Some(held) = buffer.held_mut() {
        let Held::Bytes(bytes) = held else {
            return WRONG;
        };
        return match keeping.take(log, Vec::new(alloc)) {
            Ok(taken) => {
                *bytes = taken;
                lend(bytes, lent);
                DONE
            }
            Err(fault) => fault_status(fault),
        };
    }
    let Ok(mut held) = Box::new(alloc, Held::Log(None)) else {
        return MEMORY;
    };
    match keeping.take(log, Vec::new(alloc)) {
        Ok(taken) => {
            lend(&taken, lent);
            *held = Held::Bytes(taken);
            buffer.put(held);
            DONE
        }
        Err(fault) => fault_status(fault),
    }
}

/// Notes that the log's file has all bytes that were taken, and was synced since.
#[unsafe(no_mangle)]
pub extern "C" fn mtr_log_synced(keeper: &mut Place, log: usize) -> u32
    ensures done { (s : Server) → HoldsServer s keeper.old.handle.value → result ≡ DONE → HoldsAfter s (with_synced s log) keeper.new.handle.value }
    ensures kept { result ≢ DONE → keeper.new.handle.value ≡ keeper.old.handle.value }
    ensures why { result ≢ DONE → IsRefusal (λ k fault. HasFailed k fault ⊎ IsNotWritten k log fault) keeper.old.handle.value result }
    ensures certain { IsOneOf keeper_answers result }
    ensures wrong { (Holds IsKeeper keeper.old.handle.value → ⊥) → result ≡ WRONG }
{
    let Some(held) = keeper.held_mut() else {
        return WRONG;
    };
    let Held::Keeper(keeping) = held else {
        return WRONG;
    };
    match keeping.synced(log) {
        Ok(()) => DONE,
        Err(fault) => fault_status(fault),
    }
}
