//! Feeding logs and checkpoint parts, chunk by chunk.
ghost use Rattle.std.specs.Prelude.{◌≡◌, ◌≢◌, ◌++◌, ◌∷◌, [], List, ℕ, None, Some};
ghost use Rattle.mt_record.specs.LogFeeding.{ShowsFault};
ghost use Rattle.mt_record.specs.PartFeeding.{ShowsPartFault};
ghost use Rattle.mt_c.specs.Holding.{HoldsLog, HoldsPart, Holds, IsFeed};
ghost use Rattle.mt_c.specs.Statuses.{IsJudged, IsOneOf, IsRefusedUnless};
ghost use Rattle.mt_c.specs.declared.status.TheConstants.{DONE, MEMORY, WRONG, FAULT};

use crate::feeds::{FedLog, FedPart};
use crate::held::Held;
use crate::place::Place;
use crate::status::{DONE, WRONG};
use std::alloc::Global;

/// Puts a log of no bytes so far into the empty place. `WRONG`: the place is not empty.
#[unsafe(no_mangle)]
pub extern "C" fn mtr_feed_log(alloc: Global, place: &mut Place) -> u32
    ensures done { result ≡ DONE → HoldsLog (Some []) place.new.handle.value }
    ensures kept { result ≢ DONE → place.new.handle.value ≡ place.old.handle.value }
    ensures certain { IsOneOf (DONE ∷ MEMORY ∷ WRONG ∷ []) result }
    ensures refused { IsRefusedUnless (place.old.handle.value ≡ None) result }
{
    place.begin(alloc, Held::Log(Some(FedLog::new(alloc))))
}

/// Puts a part of no bytes so far into the empty place. `WRONG`: the place is not empty.
#[unsafe(no_mangle)]
pub extern "C" fn mtr_feed_part(alloc: Global, place: &mut Place) -> u32
    ensures done { result ≡ DONE → HoldsPart (Some []) place.new.handle.value }
    ensures kept { result ≢ DONE → place.new.handle.value ≡ place.old.handle.value }
    ensures certain { IsOneOf (DONE ∷ MEMORY ∷ WRONG ∷ []) result }
    ensures refused { IsRefusedUnless (place.old.handle.value ≡ None) result }
{
    place.begin(alloc, Held::Part(Some(FedPart::new(alloc))))
}

/// Feeds the next chunk to the log or part in the place. `FAULT`: the bytes so far have a fault, which more bytes do not
/// change. `MEMORY`: it has lost bytes, and recovery of it answers `MEMORY`. `WRONG`: nothing there is being fed.
#[unsafe(no_mangle)]
pub extern "C" fn mtr_feed(place: &mut Place, chunk: &[u8]) -> u32
    ensures log { (bytes : List ℕ) → HoldsLog (Some bytes) place.old.handle.value → HoldsLog (Some (bytes ++ chunk.now)) place.new.handle.value }
    ensures part { (bytes : List ℕ) → HoldsPart (Some bytes) place.old.handle.value → HoldsPart (Some (bytes ++ chunk.now)) place.new.handle.value }
    ensures judged_log { (bytes : List ℕ) → HoldsLog (Some bytes) place.old.handle.value → IsJudged (ShowsFault (bytes ++ chunk.now)) result }
    ensures judged_part { (bytes : List ℕ) → HoldsPart (Some bytes) place.old.handle.value → IsJudged (ShowsPartFault (bytes ++ chunk.now)) result }
    ensures kept { result ≡ WRONG → place.new.handle.value ≡ place.old.handle.value }
    ensures certain { IsOneOf (DONE ∷ MEMORY ∷ WRONG ∷ FAULT ∷ []) result }
    ensures refused { IsRefusedUnless (Holds IsFeed place.old.handle.value) result }
{
    let Some(held) = place.held_mut() else {
        return WRONG;
    };
    match held {
        Held::Log(Some(log)) => log.feed(chunk),
        Held::Part(Some(part)) => part.feed(chunk),
        _ => WRONG,
    }
}

/// Notes that the device of the log or part in the place failed. Its bytes are freed. `WRONG`: nothing there is being
/// fed.
#[unsafe(no_mangle)]
pub extern "C" fn mtr_feed_failed(place: &mut Place) -> u32
    ensures log { (bytes : List ℕ) → HoldsLog (Some bytes) place.old.handle.value → HoldsLog None place.new.handle.value }
    ensures part { (bytes : List ℕ) → HoldsPart (Some bytes) place.old.handle.value → HoldsPart None place.new.handle.value }
    ensures kept { result ≢ DONE → place.new.handle.value ≡ place.old.handle.value }
    ensures certain { IsOneOf (DONE ∷ WRONG ∷ []) result }
    ensures refused { IsRefusedUnless (Holds IsFeed place.old.handle.value) result }
{
    let Some(held) = place.held_mut() else {
        return WRONG;
    };
    match held {
        Held::Log(Some(_)) => *held = Held::Log(None),
        Held::Part(Some(_)) => *held = Held::Part(None),
        _ => return WRONG,
    }
    DONE
}

/// Frees what the place holds, if it holds anything, and leaves it empty.
#[unsafe(no_mangle)]
pub extern "C" fn mtr_free(alloc: Global, place: &mut Place)
    ensures { place.new.handle.value ≡ None }
{
    let _held = place.take(alloc);
}
