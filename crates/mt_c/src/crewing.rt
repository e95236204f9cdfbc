//! Logs of a keeper, lent to threads of C, which append without a lock.
ghost use Rattle.std.specs.Prelude.{◌≡◌, ◌≢◌, ◌↔◌, ◌∷◌, [], List, None, Some, IsNone, IfSome};
ghost use Rattle.std.specs.List.{AllZip};
ghost use Rattle.mt_laws.specs.Writing.{Server};
ghost use Rattle.mt_keeper.specs.Keeping.{Keeping, Holds as IsHeldBy};
ghost use Rattle.mt_keeper.specs.Crews.{Deed, HasDone, HaveOneOrder};
ghost use Rattle.mt_keeper.specs.Refusals.{LendsNone};
ghost use Rattle.mt_c.specs.Borrowing.{BorrowerView};
ghost use Rattle.mt_c.specs.Holding.{Holds};
ghost use Rattle.mt_c.specs.Keepers.{keeper_answers, HoldsKeeper, IsRefusal, HoldsLoan, HoldsBorrower, IsAnyLoan, IsHired, HoldsNext};
ghost use Rattle.mt_c.specs.Loans.{Awaits, HasAll, IsFresh, LoanView, joined};
ghost use Rattle.mt_c.specs.Statuses.{IsOneOf, IsRefusedUnless};
ghost use Rattle.mt_c.specs.declared.held.Held.TheVariants as held;
ghost use Rattle.mt_c.specs.declared.status.TheConstants.{DONE, MEMORY, WRONG, ABSENT, EARLY};

use crate::borrower::Borrower;
use crate::held::Held;
use crate::loan::Loan;
use crate::place::Place;
use crate::refusing::fault_status;
use crate::status::{ABSENT, DONE, EARLY, MEMORY, WRONG};
use std::alloc::Global;
use std::mem;

/// Lends the logs of the keeper that are written: from then on the place holds their crew, and no keeper. `FULL`: there are
/// too many logs, or the last stamp is too late.
#[unsafe(no_mangle)]
pub extern "C" fn mtr_keeper_lend(alloc: Global, keeper: &mut Place) -> u32
    ensures done { (k : Keeping) → HoldsKeeper (λ held. held ≡ k) keeper.old.handle.value → result ≡ DONE → HoldsLoan (IsFresh k) keeper.new.handle.value }
    ensures kept { result ≢ DONE → keeper.new.handle.value ≡ keeper.old.handle.value }
    ensures certain { IsOneOf keeper_answers result }
    ensures why { result ≢ DONE → IsRefusal LendsNone keeper.old.handle.value result }
{
    let Some(held) = keeper.held_mut() else {
        return WRONG;
    };
    let (next, status) = lend_logs(alloc, mem::replace(held, Held::Log(None)));
    *held = next;
    status
}

/// Lends the logs of the keeper, if it is one. Returns what there is then, and the status.
fn lend_logs(alloc: Global, held: Held) -> (Held, u32)
    ensures done { (k : Keeping) → HoldsKeeper (λ held. held ≡ k) (Some held) → result.1 ≡ DONE → HoldsLoan (IsFresh k) (Some result.0) }
    ensures kept { result.1 ≢ DONE → result.0 ≡ held }
    ensures certain { IsOneOf keeper_answers result.1 }
    ensures why { result.1 ≢ DONE → IsRefusal LendsNone (Some held) result.1 }
{
    match held {
        Held::Keeper(keeping) => match Loan::begin(alloc, keeping) {
            Ok(loan) => (Held::Loan(loan), DONE),
            Err((fault, keeping)) => (Held::Keeper(keeping), fault_status(fault)),
        },
        other => (other, WRONG),
    }
}

/// Hands out the next log of the crew, into the empty place `worker`, for one thread. `ABSENT`: all are handed out.
/// `WRONG`: `crew` does not hold a crew, or `worker` is not empty.
#[unsafe(no_mangle)]
pub extern "C" fn mtr_crew_hire(alloc: Global, crew: &mut Place, worker: &mut Place) -> u32
    ensures done { (before : LoanView) → HoldsLoan (λ l. l ≡ before) crew.old.handle.value → result ≡ DONE → IsHired before crew.new.handle.value worker.new.handle.value }
    ensures absent { result ≡ ABSENT → HoldsLoan (λ l. l.logs ≡ []) crew.old.handle.value }
    ensures kept { result ≢ DONE → (crew.new.handle.value ≡ crew.old.handle.value) × (worker.new.handle.value ≡ worker.old.handle.value) }
    ensures certain { IsOneOf (DONE ∷ MEMORY ∷ WRONG ∷ ABSENT ∷ []) result }
    ensures refused { IsRefusedUnless (Holds IsAnyLoan crew.old.handle.value × (worker.old.handle.value ≡ None)) result }
{
    let Some(held) = crew.held_mut() else {
        return WRONG;
    };
    ready(alloc, held);
    let Held::Loan(lending) = held else {
        return WRONG;
    };
    if !worker.is_empty() {
        return WRONG;
    }
    let Ok(mut hired) = Box::new(alloc, Held::Log(None)) else {
        return MEMORY;
    };
    match lending.hire() {
        Ok(Some(borrower)) => {
            *hired = Held::Borrower(borrower);
            worker.put(hired);
            DONE
        }
        Ok(None) => ABSENT,
        Err(_) => MEMORY,
    }
}

/// Makes a loan ready to hand out a log, if there is memory.
fn ready(alloc: Global, held: &mut Held)
    ensures { held.new ≡ held.old }
{
    *held = match mem::replace(held, Held::Log(None)) {
        Held::Loan(lending) => Held::Loan(lending.ready(alloc)),
        other => other,
    };
}

/// Takes a log back into its crew, and empties the place `worker`. The log that was handed out last comes back first.
/// `WRONG`: `crew` does not hold a crew, or `worker` not the log that is next.
#[unsafe(no_mangle)]
pub extern "C" fn mtr_crew_join(alloc: Global, crew: &mut Place, worker: &mut Place) -> u32
    requires { (l : LoanView) (b : BorrowerView) → HoldsLoan (λ held. held ≡ l) crew.old.handle.value → HoldsBorrower (λ held. held ≡ b) worker.old.handle.value → b.crew ≡ l.crew }
    ensures done { (l : LoanView) (b : BorrowerView) → HoldsLoan (λ held. held ≡ l) crew.old.handle.value → HoldsBorrower (λ held. held ≡ b) worker.old.handle.value → result ≡ DONE →
        HoldsLoan (λ held. held ≡ joined l b) crew.new.handle.value }
    ensures empty { result ≡ DONE → worker.new.handle.value ≡ None }
    ensures kept { result ≢ DONE → (crew.new.handle.value ≡ crew.old.handle.value) × (worker.new.handle.value ≡ worker.old.handle.value) }
    ensures certain { IsOneOf (DONE ∷ WRONG ∷ []) result }
    ensures refused { IsRefusedUnless (HoldsNext crew.old.handle.value worker.old.handle.value) result }
{
    let Some(held) = crew.held_mut() else {
        return WRONG;
    };
    let Held::Loan(lending) = held else {
        return WRONG;
    };
    let Some(back) = take_awaited(alloc, lending, worker) else {
        return WRONG;
    };
    lending.join(back);
    DONE
}

/// Takes out the log for which the crew waits, and leaves the place empty. None: the place holds something else, and is as
/// before.
fn take_awaited(alloc: Global, lending: &Loan, worker: &mut Place) -> Option<Borrower>
    ensures taken { IfSome result (λ back. (worker.old.handle.value ≡ Some (held.Borrower back)) × Awaits lending.now back) }
    ensures empty { IfSome result (λ back. worker.new.handle.value ≡ None) }
    ensures kept { IsNone result → worker.new.handle.value ≡ worker.old.handle.value }
    ensures refused { IsNone result → HoldsBorrower (Awaits lending.now) worker.old.handle.value → ⊥ }
{
    let awaited = worker.take_if(
        alloc,
        |held| matches!(held, Held::Borrower(back) if lending.awaits(back)),
    )?;
    borrower_of(awaited)
}

/// Returns the log that was handed out, if that is what there is.
fn borrower_of(taken: Held) -> Option<Borrower>
    ensures some { IfSome result (λ back. taken ≡ held.Borrower back) }
    ensures none { IsNone result → (back : BorrowerView) → taken ≡ held.Borrower back → ⊥ }
{
    match taken {
        Held::Borrower(back) => Some(back),
        _ => None,
    }
}

/// Puts the keeper in the place of its crew. `EARLY`: a log is handed out. `WRONG`: the place does not hold a crew.
#[unsafe(no_mangle)]
pub extern "C" fn mtr_crew_close(alloc: Global, crew: &mut Place) -> u32
    ensures done { (l : LoanView) (s : Server) (deeds : List (List Deed)) → HoldsLoan (λ held. held ≡ l) crew.old.handle.value → IsHeldBy l.crew.before s → AllZip (HasDone l.crew.before) l.logs deeds → result ≡ DONE →
        HoldsKeeper (HaveOneOrder l.crew.numbers deeds s) crew.new.handle.value }
    ensures kept { result ≢ DONE → crew.new.handle.value ≡ crew.old.handle.value }
    ensures early { (l : LoanView) → HoldsLoan (λ held. held ≡ l) crew.old.handle.value → result ≡ EARLY ↔ (HasAll l → ⊥) }
    ensures certain { IsOneOf (DONE ∷ MEMORY ∷ WRONG ∷ EARLY ∷ []) result }
    ensures refused { IsRefusedUnless (Holds IsAnyLoan crew.old.handle.value) result }
{
    let Some(held) = crew.held_mut() else {
        return WRONG;
    };
    let (next, status) = close_loan(alloc, mem::replace(held, Held::Log(None)));
    *held = next;
    status
}

/// Takes all logs back, if it is a loan. Returns what there is then, and the status.
fn close_loan(alloc: Global, held: Held) -> (Held, u32)
    ensures done { (l : LoanView) (s : Server) (deeds : List (List Deed)) → HoldsLoan (λ held. held ≡ l) (Some held) → IsHeldBy l.crew.before s → AllZip (HasDone l.crew.before) l.logs deeds → result.1 ≡ DONE →
        HoldsKeeper (HaveOneOrder l.crew.numbers deeds s) (Some result.0) }
    ensures kept { result.1 ≢ DONE → result.0 ≡ held }
    ensures early { (l : LoanView) → HoldsLoan (λ held. held ≡ l) (Some held) → result.1 ≡ EARLY ↔ (HasAll l → ⊥) }
    ensures certain { IsOneOf (DONE ∷ MEMORY ∷ WRONG ∷ EARLY ∷ []) result.1 }
    ensures refused { IsRefusedUnless (IsAnyLoan held) result.1 }
{
    match held {
        Held::Loan(lending) => match lending.close(alloc) {
            Ok(keeper) => (Held::Keeper(keeper), DONE),
            Err((Some(_), lending)) => (Held::Loan(lending), MEMORY),
            Err((None, lending)) => (Held::Loan(lending), EARLY),
        },
        other => (other, WRONG),
    }
}
