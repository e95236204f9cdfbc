//! Boxes kept by their pointers.
ghost use Rattle.std.specs.Prelude.{◌≡◌};

use std::alloc::Global;
use std::marker::Model;

/// The pointer of a boxed value, with all that its box owned.
pub struct Bare<T> {
    pub at: *mut T,
    pub ghost value: { T },
}

impl<T> Model for Bare<T> {
    ghost use Rattle.std.specs.contracts.impls.GlobalAllocator.TheImpl.{ghosts};
    ghost use Rattle.std.specs.Box.Ownership.{box_owns};
    ghost use Rattle.mt_c.specs.Owning.{heap};

    ghost also_owns = { λ b. box_owns (ghosts.dealloc_token heap) T.row b.at b.value };
}

impl<T: Drop> Bare<T> {
    /// Takes the box apart.
    pub fn of(held: Box<T>) -> Bare<T>
        ensures { result.value ≡ held.value }
    {
        Bare {
            at: Box::into_raw(held),
        }
    }

    /// Makes the box again.
    pub fn into_box(self, alloc: Global) -> Box<T>
        ensures { result.value ≡ self.value }
    {
        let Bare { at } = self;
        unsafe { Box::from_raw(alloc, at) }
    }
}
