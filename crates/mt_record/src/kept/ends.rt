//! Where byte strings end that lie in one buffer.
ghost use Rattle.std.specs.Prelude.{◌≡◌, ◌<◌, ◌+◌, ◌^◌, ◌++◌, [], ◌∷◌, ℕ, OnOk, OnErr, IfOk, length, get_or};

use mt_words::Memory;
use std::alloc::Global;
use std::marker::Model;

/// A list of numbers. Each takes four bytes, up to the first that needs more.
#[derive(Debug, Drop)]
pub(crate) struct Ends {
    near: Vec<u32>,
    /// The first number above `u32::MAX`, and all after it. Few lists have any.
    far: Vec<usize>,
}

impl Model for Ends {
    ghost use Rattle.std.specs.Prelude.{◌<◌, ◌+◌, ◌^◌, ◌++◌, List, ℕ, length};

    ghost Value = { List ℕ };

    ghost view = { λ e. e.near.items ++ e.far.items };

    ghost invariant = { λ e. length e.near.items + length e.far.items < 2 ^ 64 };
}

impl Ends {
    /// Creates an empty list.
    pub(crate) fn new(alloc: Global) -> Ends
        ensures { result ≡ [] }
    {
        Ends {
            near: Vec::new(alloc),
            far: Vec::new(alloc),
        }
    }

    /// Creates an empty list with room for this many numbers. Err: out of memory.
    pub(crate) fn with_capacity(alloc: Global, numbers: usize) -> Result<Ends, Memory>
        ensures { IfOk result (λ ends. ends ≡ []) }
    {
        Ok(Ends {
            near: Vec::with_capacity(alloc, numbers)?,
            far: Vec::new(alloc),
        })
    }

    /// Removes all numbers.
    pub(crate) fn clear(&mut self)
        ensures { self.new ≡ [] }
    {
        self.near.clear();
        self.far.clear();
    }

    /// Returns how many numbers there are.
    pub(crate) fn len(&self) -> usize
        ensures { result ≡ length self.now }
    {
        self.near.len() + self.far.len()
    }

    /// Returns the number at this place.
    pub(crate) fn get(&self, at: usize) -> usize
        requires { at < length self.now }
        ensures { (d : ℕ) → result ≡ get_or self.now at d }
    {
        let near = self.near.len();
        if at < near {
            return self.near[at] as usize;
        }
        self.far[at - near]
    }

    /// Appends a number. Err: out of memory; nothing is appended.
    #[inline(always)]
    pub(crate) fn push(&mut self, end: usize) -> Result<(), Memory>
        ensures ok { OnOk result (self.new ≡ self.old ++ end ∷ []) }
        ensures err { OnErr result (self.new ≡ self.old) }
    {
        let Ends { near, far } = self;
        if far.len() == 0 && end <= u32::MAX as usize {
            near.reserve(1)?;
            near.push_reserved(end as u32);
            return Ok(());
        }
        push_far(near.len(), far, end)
    }

    /// Removes the last number.
    pub(crate) fn drop_last(&mut self)
        requires { 0 < length self.old }
        ensures { (last : ℕ) × (self.old ≡ self.new ++ last ∷ []) }
    {
        if let Some(_end) = self.far.pop() {
            return;
        }
        let Some(_end) = self.near.pop() else {
            unreachable!();
        };
    }
}

/// Appends a number that comes after `before` others and these. Err: out of memory; nothing is appended. No memory has
/// more numbers than a `usize` counts.
fn push_far(before: usize, far: &mut Vec<usize>, end: usize) -> Result<(), Memory>
    requires { before + length far.old.items < 2 ^ 64 }
    ensures ok { OnOk result (far.new.items ≡ far.old.items ++ end ∷ []) }
    ensures few { OnOk result (before + length far.new.items < 2 ^ 64) }
    ensures err { OnErr result (far.new.items ≡ far.old.items) }
{
    if before + far.len() == usize::MAX {
        return Err(Memory);
    }
    far.reserve(1)?;
    far.push_reserved(end);
    Ok(())
}
