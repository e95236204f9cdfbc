//! What a place holds, lent, or taken out if it passes a test. It is read through a `&mut`: no struct can be exported to C
//! behind whose `&` its own memory is read.
ghost use Rattle.std.specs.Prelude.{◌≡◌, None, Some, IfSome, IsNone, IsSome, MatchOption, true, false};
ghost use Rattle.std.specs.Borrow.{sem};
ghost use Rattle.std.specs.Fn.{FnOnceReturnsAt};
ghost use Rattle.mt_c.specs.Holding.{Holds};
ghost use Rattle.mt_c.specs.Keepers.{IsAnyBorrower};
ghost use Rattle.mt_c.specs.Lends.{BorrowerLends, HandleLends, PlaceLends, PlaceStays};
ghost use Rattle.mt_c.specs.declared.held.Held.TheVariants as held;
ghost use Rattle.mt_c.specs.declared.held.Held.{Held as HeldValue};

use super::{Handle, Place};
use crate::borrower::Borrower;
use crate::held::Held;
use std::alloc::Global;

impl Handle {
    /// Lends the value. The handle must have one.
    fn as_mut(&mut self) -> &mut Held
        requires { IsSome self.old.value }
        ensures* writes_back { sem 𝓛 (HandleLends self.entry result) }
        ensures value { self.old.value ≡ Some result.now }
    {
        unsafe { &mut *(self.at as *mut Held) }
    }
}

impl Place {
    /// Lends what the place holds, or None if it is empty.
    pub fn held_mut(&mut self) -> Option<&mut Held>
        ensures* writes_back { sem 𝓛 (PlaceLends self.entry result) }
        ensures value { MatchOption result (self.old.handle.value ≡ None) (λ held. self.old.handle.value ≡ Some held.now) }
    {
        if self.full {
            Some(self.handle.as_mut())
        } else {
            None
        }
    }

    /// Lends the borrower that the place holds. None: it holds none.
    pub fn borrower_mut(&mut self) -> Option<&mut Borrower>
        ensures* writes_back { sem 𝓛 (BorrowerLends self.entry result) }
        ensures value { MatchOption result (Holds IsAnyBorrower self.old.handle.value → ⊥) (λ borrower. self.old.handle.value ≡ Some (held.Borrower borrower.now)) }
    {
        let Some(held) = self.held_mut() else {
            return None;
        };
        let Held::Borrower(borrower) = held else {
            return None;
        };
        Some(borrower)
    }

    /// Reads what the place holds, or None if it is empty. The place stays as it is.
    pub fn held(&mut self) -> Option<&Held>
        ensures* stays { sem 𝓛 (PlaceStays self.entry) }
        ensures value { MatchOption result (self.old.handle.value ≡ None) (λ held. self.old.handle.value ≡ Some held.now) }
    {
        match self.held_mut() {
            Some(held) => Some(held),
            None => None,
        }
    }

    /// Takes out what the place holds if it passes the test, and leaves it empty. None: the place is as before.
    pub fn take_if<F: FnOnce(&Held) -> bool>(&mut self, alloc: Global, test: F) -> Option<Held>
        requires { F.IsAlwaysCallable test }
        ensures taken { IfSome result (λ held. (self.old.handle.value ≡ Some held) × FnOnceReturnsAt F.FnOnce test held true) }
        ensures empty { IfSome result (λ held. self.new.handle.value ≡ None) }
        ensures kept { IsNone result → self.new.handle.value ≡ self.old.handle.value }
        ensures refused { (held : HeldValue) → self.old.handle.value ≡ Some held → IsNone result → FnOnceReturnsAt F.FnOnce test held false }
    {
        let held = self.take(alloc)?;
        if !test(&*held) {
            self.put(held);
            return None;
        }
        Some(Box::into_inner(held))
    }
}
