//! Places, in which C keeps what it holds of this library.
ghost use Rattle.std.specs.Prelude.{◌≡◌, ◌≢◌, ◌↔◌, ◌∷◌, [], Option, None, Some, IsSome, IsTrue, MatchOption};
ghost use Rattle.std.specs.Coded.{coded_option};
ghost use Rattle.mt_c.specs.declared.held.Held.{Held};
ghost use Rattle.mt_c.specs.contracts.held.Held.{the_row};
ghost use Rattle.mt_c.specs.Statuses.{IsOneOf, IsRefusedUnless};
ghost use Rattle.mt_c.specs.declared.status.TheConstants.{DONE, MEMORY, WRONG};

mod lending;

use crate::bare::Bare;
use crate::held::Held;
use crate::status::{DONE, MEMORY, WRONG};
use std::alloc::Global;
use std::marker::Model;
use std::{mem, ptr};

/// A boxed value that only its pointer keeps, or no value.
#[repr(C)]
pub struct Handle {
    at: *mut u8,
    pub ghost value: { Option Held } by { coded_option the_row.coded },
}

impl Model for Handle {
    ghost use Rattle.std.specs.contracts.impls.GlobalAllocator.TheImpl.{ghosts};
    ghost use Rattle.mt_c.specs.Owning.{boxed_at, heap};
    ghost use Rattle.mt_c.specs.contracts.held.Held.{the_row};

    ghost also_owns = { λ h. boxed_at (ghosts.dealloc_token heap) the_row h.at h.value };
}

impl Handle {
    /// Creates the handle of no value.
    fn empty() -> Handle
        ensures { result.value ≡ None }
    {
        Handle {
            at: ptr::null_mut(),
        }
    }

    /// Forgets the type of the value.
    fn of(held: Bare<Held>) -> Handle
        ensures { result.value ≡ Some held.value }
    {
        let Bare { at } = held;
        Handle { at: at as *mut u8 }
    }

    /// Returns the value. The handle must have one.
    fn into_bare(self) -> Bare<Held>
        requires { IsSome self.value }
        ensures { self.value ≡ Some result.value }
    {
        let Handle { at } = self;
        Bare {
            at: at as *mut Held,
        }
    }

    /// Ends the handle of no value.
    fn end(self)
        requires { self.value ≡ None }
    {
        let Handle { at: _ } = self;
    }
}

/// Any thread may be given a handle, as the box that it has may.
unsafe impl Send for Handle {}

/// Does nothing: any thread may be given a value of this type.
fn expect_send<T: Send>(_value: &T) {}

/// A place of C. All zero bytes are an empty place. C moves it and never copies it, and gives it to one call at a time.
#[repr(C)]
pub struct Place {
    pub handle: Handle,
    full: bool,
    ghost tied: { IsTrue full ↔ IsSome handle.value },
}

impl Place {
    /// Takes out what the place holds, and leaves it empty.
    pub fn take(&mut self, alloc: Global) -> Option<Box<Held>>
        ensures taken { MatchOption result (self.old.handle.value ≡ None) (λ held. self.old.handle.value ≡ Some held.value) }
        ensures empty { self.new.handle.value ≡ None }
    {
        let empty = Place {
            handle: Handle::empty(),
            full: false,
        };
        let Place { handle, full } = mem::replace(self, empty);
        if full {
            Some(handle.into_bare().into_box(alloc))
        } else {
            handle.end();
            None
        }
    }

    /// Returns whether the place is empty.
    pub fn is_empty(&self) -> bool
        ensures { IsTrue result ↔ self.now.handle.value ≡ None }
    {
        !self.full
    }

    /// Puts the value into the empty place.
    pub fn put(&mut self, held: Box<Held>)
        requires { self.old.handle.value ≡ None }
        ensures { self.new.handle.value ≡ Some held.value }
    {
        let full = Place {
            handle: Handle::of(Bare::of(held)),
            full: true,
        };
        expect_send(&full);
        let Place { handle, full: _ } = mem::replace(self, full);
        handle.end();
    }

    /// Boxes the value and puts it into the place. `WRONG`: the place is not empty.
    pub fn begin(&mut self, alloc: Global, held: Held) -> u32
        ensures done { result ≡ DONE → self.new.handle.value ≡ Some held }
        ensures kept { result ≢ DONE → self.new.handle.value ≡ self.old.handle.value }
        ensures certain { IsOneOf (DONE ∷ MEMORY ∷ WRONG ∷ []) result }
        ensures refused { IsRefusedUnless (self.old.handle.value ≡ None) result }
    {
        if self.full {
            return WRONG;
        }
        match Box::new(alloc, held) {
            Ok(held) => {
                self.put(held);
                DONE
            }
            Err(_) => MEMORY,
        }
    }
}
