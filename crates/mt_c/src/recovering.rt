//! Recovery from logs and checkpoint parts that were fed.
ghost use Rattle.std.specs.Prelude.{◌≡◌, ◌≢◌, ◌++◌, [], ◌∷◌, List, None, IfSome, IsNone};
ghost use Rattle.mt_words.specs.declared.fault.Fault.TheVariants as faults;
ghost use Rattle.mt_recover.specs.Fed.{Input};
ghost use Rattle.mt_c.specs.Holding.{HoldsLog, HoldsPart, HoldsInputs, HoldsOutcome, HoldsSomeInputs, HoldsStoreOf, Holds, IsInput};
ghost use Rattle.mt_c.specs.Added.{AreAdded};
ghost use Rattle.mt_c.specs.Statuses.{IsOneOf, IsRefusedUnless};
ghost use Rattle.mt_c.specs.Told.{IsTold, c_fault};
ghost use Rattle.mt_c.specs.declared.status.TheConstants.{DONE, MEMORY, WRONG, FAULT};

use crate::fault::CFault;
use crate::held::Held;
use crate::inputs::Inputs;
use crate::place::Place;
use crate::status::{DONE, FAULT, MEMORY, WRONG};
use mt_recover::Recovered;
use mt_words::{Fault, Memory};
use std::alloc::Global;
use std::sync::Arc;

/// Appends the log or part in `input` to the logs and parts in `inputs`, which may be empty, and leaves `input` empty.
/// `WRONG`: one of them does not hold this.
#[unsafe(no_mangle)]
pub extern "C" fn mtr_add(alloc: Global, inputs: &mut Place, input: &mut Place) -> u32
    ensures log { (logs parts : List Input) (log : Input) → HoldsInputs logs parts inputs.old.handle.value → HoldsLog log input.old.handle.value → result ≡ DONE →
        HoldsInputs (logs ++ log ∷ []) parts inputs.new.handle.value }
    ensures part { (logs parts : List Input) (part : Input) → HoldsInputs logs parts inputs.old.handle.value → HoldsPart part input.old.handle.value → result ≡ DONE →
        HoldsInputs logs (parts ++ part ∷ []) inputs.new.handle.value }
    ensures empty { result ≡ DONE → input.new.handle.value ≡ None }
    ensures kept { result ≢ DONE → (inputs.new.handle.value ≡ inputs.old.handle.value) × (input.new.handle.value ≡ input.old.handle.value) }
    ensures certain { IsOneOf (DONE ∷ MEMORY ∷ WRONG ∷ []) result }
    ensures refused { IsRefusedUnless (HoldsSomeInputs inputs.old.handle.value × Holds IsInput input.old.handle.value) result }
{
    let Some(feed) = input.held_mut() else {
        return WRONG;
    };
    if !matches!(feed, Held::Log(_) | Held::Part(_)) {
        return WRONG;
    }
    if let Some(held) = inputs.held_mut() {
        let Held::Inputs(added) = held else {
            return WRONG;
        };
        let status = added.add(feed);
        if status == DONE {
            drop(input.take(alloc));
        }
        return status;
    }
    let Ok(mut held) = Box::new(alloc, Held::Hits(Vec::new(alloc))) else {
        return MEMORY;
    };
    let mut added = Inputs::new(alloc);
    let status = added.add(feed);
    if status == DONE {
        *held = Held::Inputs(added);
        inputs.put(held);
        drop(input.take(alloc));
    }
    status
}

/// Recovers from the logs and parts in `inputs`, on one thread, and puts the store there in their place. `FAULT`:
/// `fault` says why there is no store. Without a store the place is empty, except that `WRONG`, it does not hold logs and
/// parts, leaves it as before.
#[unsafe(no_mangle)]
pub extern "C" fn mtr_recover(alloc: Global, inputs: &mut Place, fault: &mut CFault) -> u32
    ensures done { (logs parts : List Input) → HoldsInputs logs parts inputs.old.handle.value → result ≡ DONE → HoldsStoreOf logs parts inputs.new.handle.value }
    ensures fault { (logs parts : List Input) → HoldsInputs logs parts inputs.old.handle.value → result ≡ FAULT → IsTold logs parts fault.new }
    ensures untold { result ≢ FAULT → fault.new ≡ fault.old }
    ensures empty { IsOneOf (MEMORY ∷ FAULT ∷ []) result → inputs.new.handle.value ≡ None }
    ensures kept { result ≡ WRONG → inputs.new.handle.value ≡ inputs.old.handle.value }
    ensures certain { IsOneOf (DONE ∷ MEMORY ∷ WRONG ∷ FAULT ∷ []) result }
    ensures refused { IsRefusedUnless (HoldsSomeInputs inputs.old.handle.value) result }
{
    let Some(added) = take_inputs(alloc, inputs) else {
        return WRONG;
    };
    let Ok(fed) = added.finish(alloc) else {
        return MEMORY;
    };
    match fed.recover(alloc) {
        Ok(recovered) => begin_store(alloc, inputs, recovered),
        Err(found) => tell(found, fault),
    }
}

/// Puts the store into the empty place, in a form that places can share.
pub(crate) fn begin_store(alloc: Global, place: &mut Place, recovered: Recovered) -> u32
    requires { place.old.handle.value ≡ None }
    ensures done { result ≡ DONE → HoldsOutcome recovered place.new.handle.value }
    ensures kept { result ≢ DONE → place.new.handle.value ≡ None }
    ensures certain { IsOneOf (DONE ∷ MEMORY ∷ []) result }
{
    match Arc::new(alloc, recovered) {
        Ok(shared) => place.begin(alloc, Held::Store(shared)),
        Err(_) => MEMORY,
    }
}

/// Tells the fault, unless it is out of memory.
pub(crate) fn tell(found: Fault, fault: &mut CFault) -> u32
    ensures fault { result ≡ FAULT → (found ≢ faults.Memory) × (fault.new ≡ c_fault found) }
    ensures untold { result ≢ FAULT → fault.new ≡ fault.old }
    ensures certain { IsOneOf (MEMORY ∷ FAULT ∷ []) result }
{
    match found {
        Fault::Memory => MEMORY,
        _ => {
            *fault = CFault::of(found);
            FAULT
        }
    }
}

/// Takes the inputs out of the place, and leaves it empty; an empty place has no log or part. None: the place holds
/// something else, and is as before.
pub(crate) fn take_inputs(alloc: Global, place: &mut Place) -> Option<Inputs>
    ensures taken { (logs parts : List Input) → HoldsInputs logs parts place.old.handle.value → IfSome result (AreAdded logs parts) }
    ensures empty { IfSome result (λ inputs. place.new.handle.value ≡ None) }
    ensures kept { IsNone result → place.new.handle.value ≡ place.old.handle.value }
    ensures accepted { IfSome result (λ inputs. HoldsSomeInputs place.old.handle.value) }
    ensures refused { IsNone result → HoldsSomeInputs place.old.handle.value → ⊥ }
{
    if place.is_empty() {
        return Some(Inputs::new(alloc));
    }
    match place.take_if(alloc, |held| matches!(held, Held::Inputs(_))) {
        Some(Held::Inputs(inputs)) => Some(inputs),
        _ => None,
    }
}
