//! The keeper of a server's logs: its first log, further ones, and what may be acknowledged.
ghost use Rattle.std.specs.Prelude.{◌≡◌, ◌≢◌, ◌⊎◌, ◌+◌, ◌<◌, ◌∷◌, [], None, IsTrue, Contains, length};
ghost use Rattle.mt_words.specs.declared.update.Update.{Update};
ghost use Rattle.mt_writer.specs.Journals.{NewFile};
ghost use Rattle.mt_laws.specs.Writing.{Server, Called, AllReached, files_there, updates_of};
ghost use Rattle.mt_keeper.specs.Keeping.{Keeping, numbered, Holds as IsHeldBy};
ghost use Rattle.mt_keeper.specs.declared.keeper.Stage.TheVariants.{Coming};
ghost use Rattle.mt_keeper.specs.Calling.{with_new_log, with_created, acknowledged, first};
ghost use Rattle.mt_keeper.specs.Filing.{workers_created, BeginsFile, next_salt};
ghost use Rattle.mt_keeper.specs.Refusals.{IsAt, HasFailed, IsNotComing, BeginsNone};
ghost use Rattle.mt_c.specs.Buffers.{Writes};
ghost use Rattle.mt_c.specs.Formats.{log_header_4};
ghost use Rattle.mt_c.specs.Holding.{Holds};
ghost use Rattle.mt_c.specs.Keepers.{keeper_answers, HoldsKeeper, HoldsServer, HoldsAfter, HoldsComing, HoldsFirst, IsKeeper, IsFirst, IsRefusal};
ghost use Rattle.mt_c.specs.Statuses.{IsOneOf, IsRefusedUnless};
ghost use Rattle.mt_c.specs.declared.status.TheConstants.{DONE, MEMORY, WRONG, SHORT};

use crate::buffer::write_bytes;
use crate::held::Held;
use crate::place::Place;
use crate::refusing::fault_status;
use crate::status::{DONE, MEMORY, WRONG};
use mt_keeper::First;
use std::alloc::Global;
use std::mem;

/// Puts the keeper of an empty folder, whose log 0 is to be created, into the empty place. `salt` is a random number, the salt
/// of that log. `WRONG`: the place is not empty.
#[unsafe(no_mangle)]
pub extern "C" fn mtr_keeper_begin(alloc: Global, keeper: &mut Place, salt: u64) -> u32
    ensures done { result ≡ DONE → Holds IsFirst keeper.new.handle.value }
    ensures header { (new : NewFile) → HoldsFirst new keeper.new.handle.value → result ≡ DONE → new.header ≡ log_header_4 salt 0 0 1 0 }
    ensures kept { result ≢ DONE → keeper.new.handle.value ≡ keeper.old.handle.value }
    ensures certain { IsOneOf (DONE ∷ MEMORY ∷ WRONG ∷ []) result }
    ensures refused { IsRefusedUnless (keeper.old.handle.value ≡ None) result }
{
    if !keeper.is_empty() {
        return WRONG;
    }
    match First::begin(alloc, salt) {
        Ok(first) => keeper.begin(alloc, Held::First(first)),
        Err(_) => MEMORY,
    }
}

/// Begins the log of a new worker, which is to be created, and tells its number. From then on acknowledgements wait for it.
#[unsafe(no_mangle)]
pub extern "C" fn mtr_log_begin(alloc: Global, keeper: &mut Place, log: &mut usize) -> u32
    ensures done { (s : Server) (k : Keeping) → HoldsServer s keeper.old.handle.value → HoldsKeeper (λ held. held ≡ k) keeper.old.handle.value → result ≡ DONE →
        (log.new ≡ length (numbered s)) × HoldsAfter s (with_new_log s k.workers) keeper.new.handle.value }
    ensures file { (k : Keeping) → HoldsKeeper (λ held. held ≡ k) keeper.old.handle.value → result ≡ DONE → HoldsKeeper (λ after. BeginsFile k after (workers_created k.logs + 1) log.new) keeper.new.handle.value }
    ensures kept { result ≢ DONE → keeper.new.handle.value ≡ keeper.old.handle.value }
    ensures untold { result ≢ DONE → log.new ≡ log.old }
    ensures why { result ≢ DONE → IsRefusal BeginsNone keeper.old.handle.value result }
    ensures certain { IsOneOf keeper_answers result }
    ensures refused { IsRefusedUnless (Holds IsKeeper keeper.old.handle.value) result }
{
    let Some(held) = keeper.held_mut() else {
        return WRONG;
    };
    let Held::Keeper(keeping) = held else {
        return WRONG;
    };
    match keeping.begin_log(alloc) {
        Ok(number) => {
            *log = number;
            DONE
        }
        Err(fault) => fault_status(fault),
    }
}

/// Writes the bytes of a log that is to be created to the beginning of `out`, and their number to `count`. `WRONG`: no log
/// of this number is to be created.
#[unsafe(no_mangle)]
pub extern "C" fn mtr_log_bytes(
    keeper: &mut Place,
    log: usize,
    out: &mut [u8],
    count: &mut usize,
) -> u32
    ensures same { keeper.new.handle.value ≡ keeper.old.handle.value }
    ensures first { (new : NewFile) → HoldsFirst new keeper.old.handle.value → log ≡ 0 → Writes new.bytes out.old out.new count.new result }
    ensures written { (k : Keeping) (new : NewFile) → HoldsKeeper (λ held. held ≡ k) keeper.old.handle.value → IsAt k log (Coming new) →
        Writes new.bytes out.old out.new count.new result }
    ensures kept { result ≢ DONE → out.new ≡ out.old }
    ensures untold { result ≢ DONE → result ≢ SHORT → count.new ≡ count.old }
    ensures certain { IsOneOf (DONE ∷ WRONG ∷ SHORT ∷ []) result }
    ensures refused { IsRefusedUnless (HoldsComing log keeper.old.handle.value) result }
{
    let Some(held) = keeper.held() else {
        return WRONG;
    };
    match held {
        Held::First(first) if log == 0 => write_bytes(first.bytes(), out, count),
        Held::Keeper(keeping) => match keeping.bytes(log) {
            Some(bytes) => write_bytes(bytes, out, count),
            None => WRONG,
        },
        _ => WRONG,
    }
}

/// Notes that the file of a log that was to be created has its name, and that the folder is synced. `WRONG`: no log of this
/// number is to be created.
#[unsafe(no_mangle)]
pub extern "C" fn mtr_log_created(keeper: &mut Place, log: usize) -> u32
    ensures first { Holds IsFirst keeper.old.handle.value → result ≡ DONE → Called first × HoldsKeeper (λ k. IsHeldBy k first) keeper.new.handle.value }
    ensures salt { (new : NewFile) → HoldsFirst new keeper.old.handle.value → result ≡ DONE → HoldsKeeper (λ k. k.salt ≡ next_salt new.header.salt) keeper.new.handle.value }
    ensures done { (s : Server) → HoldsServer s keeper.old.handle.value → result ≡ DONE → HoldsAfter s (with_created s log) keeper.new.handle.value }
    ensures kept { result ≢ DONE → keeper.new.handle.value ≡ keeper.old.handle.value }
    ensures why { result ≢ DONE → Holds IsKeeper keeper.old.handle.value →
        IsRefusal (λ k fault. HasFailed k fault ⊎ IsNotComing k log fault) keeper.old.handle.value result }
    ensures certain { IsOneOf keeper_answers result }
    ensures wrong { (Holds IsKeeper keeper.old.handle.value → ⊥) → IsRefusedUnless (HoldsComing log keeper.old.handle.value) result }
{
    let Some(held) = keeper.held_mut() else {
        return WRONG;
    };
    if let Held::Keeper(keeping) = held {
        return match keeping.created(log) {
            Ok(()) => DONE,
            Err(fault) => fault_status(fault),
        };
    }
    if log != 0 {
        return WRONG;
    }
    match mem::replace(held, Held::Log(None)) {
        Held::First(first) => {
            *held = Held::Keeper(first.created());
            DONE
        }
        other => {
            *held = other;
            WRONG
        }
    }
}

/// Tells the stamp below which all updates may be acknowledged. `WRONG`: the place does not hold a keeper.
#[unsafe(no_mangle)]
pub extern "C" fn mtr_keeper_acknowledged(keeper: &mut Place, below: &mut u64) -> u32
    ensures same { keeper.new.handle.value ≡ keeper.old.handle.value }
    ensures reached { (s : Server) → HoldsServer s keeper.old.handle.value → (result ≡ DONE) × AllReached below.new (files_there s) }
    ensures done { (s : Server) (u : Update) → HoldsServer s keeper.old.handle.value → Contains (updates_of s.slots) u → u.timestamp < below.new →
        HoldsAfter s (acknowledged s u) keeper.new.handle.value }
    ensures kept { result ≢ DONE → below.new ≡ below.old }
    ensures certain { IsOneOf (DONE ∷ WRONG ∷ []) result }
    ensures refused { IsRefusedUnless (Holds IsKeeper keeper.old.handle.value) result }
{
    let Some(Held::Keeper(keeping)) = keeper.held() else {
        return WRONG;
    };
    *below = keeping.acknowledged_below();
    DONE
}

/// Notes that a write or a sync failed: from then on the keeper refuses each call that would change it. `WRONG`: the place
/// does not hold a keeper.
#[unsafe(no_mangle)]
pub extern "C" fn mtr_keeper_failed(keeper: &mut Place) -> u32
    ensures failed { result ≡ DONE → HoldsKeeper (λ k. IsTrue k.failed) keeper.new.handle.value }
    ensures same { (s : Server) → HoldsServer s keeper.old.handle.value → HoldsServer s keeper.new.handle.value }
    ensures kept { result ≢ DONE → keeper.new.handle.value ≡ keeper.old.handle.value }
    ensures certain { IsOneOf (DONE ∷ WRONG ∷ []) result }
    ensures refused { IsRefusedUnless (Holds IsKeeper keeper.old.handle.value) result }
{
    let Some(held) = keeper.held_mut() else {
        return WRONG;
    };
    let Held::Keeper(keeping) = held else {
        return WRONG;
    };
    keeping.failed();
    DONE
}
