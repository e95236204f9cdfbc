//! A keeper that goes on with the logs that a crash left.
ghost use Rattle.std.specs.Prelude.{◌≡◌, ◌≢◌, ◌↔◌, ◌∷◌, [], ℕ, List, None, Some, IsTrue, length};
ghost use Rattle.mt_recover.specs.Report.{Outcome};
ghost use Rattle.mt_laws.specs.Writing.{Server, Called};
ghost use Rattle.mt_keeper.specs.Restarting.{Resuming, without_logs, IsAdded, AreAdded, AddsNone, going_with, AreFilesAfter, Restarts};
ghost use Rattle.mt_keeper.specs.declared.resuming.Found.{Found as FoundValue};
ghost use Rattle.mt_c.specs.Holding.{HoldsOutcome, Holds};
ghost use Rattle.mt_c.specs.Keepers.{keeper_answers, found_in, IsGreatestNumber, HoldsReport, HoldsKeeper, HoldsRestart, IsRestart, IsRestartRefusal};
ghost use Rattle.mt_c.specs.Statuses.{IsOneOf, IsRefusedUnless};
ghost use Rattle.mt_c.specs.declared.status.TheConstants.{DONE, MEMORY, WRONG, EARLY};

use crate::held::Held;
use crate::place::Place;
use crate::refusing::fault_status;
use crate::status::{DONE, EARLY, WRONG};
use mt_keeper::{Found, Restart};
use mt_recover::Report;
use std::alloc::Global;
use std::mem;

/// Puts a keeper that goes on from this store, and takes its logs, into the empty place. `number` is the greatest number of
/// a part in the folder, or 0. `salt` is a random number. `WRONG`: `keeper` is not empty, or `store` does not hold a store, or
/// recovery chose or skipped a checkpoint with a greater number.
#[unsafe(no_mangle)]
pub extern "C" fn mtr_keeper_resume(
    alloc: Global,
    keeper: &mut Place,
    store: &mut Place,
    number: u32,
    salt: u64,
) -> u32
    ensures same { store.new.handle.value ≡ store.old.handle.value }
    ensures done { (outcome : Outcome) → HoldsOutcome outcome store.old.handle.value → result ≡ DONE →
        HoldsRestart (λ r. r ≡ without_logs (found_in outcome.report) number salt) keeper.new.handle.value }
    ensures kept { result ≢ DONE → keeper.new.handle.value ≡ keeper.old.handle.value }
    ensures certain { IsOneOf (DONE ∷ MEMORY ∷ WRONG ∷ []) result }
    ensures refused { IsRefusedUnless (HoldsReport (IsGreatestNumber number) store.old.handle.value × (keeper.old.handle.value ≡ None)) result }
{
    let Some(Held::Store(recovered)) = store.held() else {
        return WRONG;
    };
    if !keeper.is_empty() {
        return WRONG;
    }
    let report = recovered.report();
    if !is_greatest(report, number) {
        return WRONG;
    }
    let found = found_in(report);
    keeper.begin(
        alloc,
        Held::Restart(Restart::new(alloc, found, number, salt)),
    )
}

/// Returns whether no checkpoint that recovery chose or skipped has a greater number.
fn is_greatest(report: &Report, number: u32) -> bool
    ensures { IsTrue result ↔ IsGreatestNumber number report.now }
{
    let chosen = match report.checkpoint {
        Some(chosen) => chosen <= number,
        None => true,
    };
    chosen && report.skipped.iter().all(|skipped| *skipped <= number)
}

/// Returns what a restart takes of the report.
fn found_in(report: &Report) -> Found
    ensures { result ≡ found_in report.now }
{
    Found {
        logs: report.logs,
        cutoff: report.cutoff,
        version: report.version,
        begin: report.begin,
    }
}

/// Adds a log of these bytes, which replaced those that the last server left, and tells its number. `WRONG`: also if a
/// writer may not go on with it.
#[unsafe(no_mangle)]
pub extern "C" fn mtr_keeper_add(
    alloc: Global,
    keeper: &mut Place,
    log: &[u8],
    number: &mut usize,
) -> u32
    ensures done { (before : Resuming) → HoldsRestart (λ r. r ≡ before) keeper.old.handle.value → result ≡ DONE →
        (number.new ≡ length before.keeper.logs) × HoldsRestart (IsAdded before log.now) keeper.new.handle.value }
    ensures kept { result ≢ DONE → keeper.new.handle.value ≡ keeper.old.handle.value }
    ensures untold { result ≢ DONE → number.new ≡ number.old }
    ensures why { result ≢ DONE → IsRestartRefusal (λ r. AddsNone r.keeper log.now) keeper.old.handle.value result }
    ensures certain { IsOneOf keeper_answers result }
    ensures wrong { (Holds IsRestart keeper.old.handle.value → ⊥) → result ≡ WRONG }
{
    let Some(held) = keeper.held_mut() else {
        return WRONG;
    };
    let Held::Restart(restart) = held else {
        return WRONG;
    };
    match restart.add(alloc, log) {
        Ok(added) => {
            *number = added;
            DONE
        }
        Err(fault) => fault_status(fault),
    }
}

/// Notes that all logs are added, and that all files and the folder are synced: the place holds the keeper of these logs.
/// `EARLY`: not as many logs were added as recovery had.
#[unsafe(no_mangle)]
pub extern "C" fn mtr_keeper_resumed(keeper: &mut Place) -> u32
    ensures done { (before : Resuming) → HoldsRestart (λ r. r ≡ before) keeper.old.handle.value → result ≡ DONE →
        (length before.keeper.logs ≡ before.found.logs) × HoldsKeeper (λ k. k ≡ going_with before) keeper.new.handle.value }
    ensures restarts { (before : Resuming) (s : Server) (found : FoundValue) (number salt : ℕ) (files : List (List ℕ)) → HoldsRestart (λ r. r ≡ before) keeper.old.handle.value → Called s →
        (of : AreFilesAfter s found.cutoff found.begin files) → AreAdded (without_logs found number salt) files before → result ≡ DONE →
        HoldsKeeper (Restarts s found.cutoff found.begin files of) keeper.new.handle.value }
    ensures early { result ≡ EARLY → HoldsRestart (λ r. length r.keeper.logs ≢ r.found.logs) keeper.old.handle.value }
    ensures kept { result ≢ DONE → keeper.new.handle.value ≡ keeper.old.handle.value }
    ensures certain { IsOneOf (DONE ∷ WRONG ∷ EARLY ∷ []) result }
    ensures refused { IsRefusedUnless (Holds IsRestart keeper.old.handle.value) result }
{
    let Some(held) = keeper.held_mut() else {
        return WRONG;
    };
    let (now, status) = resumed(mem::replace(held, Held::Log(None)));
    *held = now;
    status
}

/// Returns what a place holds once all logs are added, and the status. What is no restart stays.
fn resumed(held: Held) -> (Held, u32)
    ensures done { (before : Resuming) → HoldsRestart (λ r. r ≡ before) (Some held) → result.1 ≡ DONE →
        (length before.keeper.logs ≡ before.found.logs) × HoldsKeeper (λ k. k ≡ going_with before) (Some result.0) }
    ensures restarts { (before : Resuming) (s : Server) (found : FoundValue) (number salt : ℕ) (files : List (List ℕ)) → HoldsRestart (λ r. r ≡ before) (Some held) → Called s →
        (of : AreFilesAfter s found.cutoff found.begin files) → AreAdded (without_logs found number salt) files before → result.1 ≡ DONE →
        HoldsKeeper (Restarts s found.cutoff found.begin files of) (Some result.0) }
    ensures early { result.1 ≡ EARLY → HoldsRestart (λ r. length r.keeper.logs ≢ r.found.logs) (Some held) }
    ensures kept { result.1 ≢ DONE → result.0 ≡ held }
    ensures certain { IsOneOf (DONE ∷ WRONG ∷ EARLY ∷ []) result.1 }
    ensures refused { IsRefusedUnless (Holds IsRestart (Some held)) result.1 }
{
    match held {
        Held::Restart(restart) => match restart.done() {
            Ok(keeper) => (Held::Keeper(keeper), DONE),
            Err(restart) => (Held::Restart(restart), EARLY),
        },
        other => (other, WRONG),
    }
}
