//! A count that only proofs read.
ghost use Rattle.std.specs.Prelude.{◌≡◌, ℕ, ◌+◌};
ghost use Rattle.std.specs.Borrow.{ftrue};

use std::marker::Model;

/// A count without a greatest value, for contracts only. It takes no memory, and its methods do nothing at run time.
#[derive(Drop)]
pub struct Tally {
    /// The count.
    pub ghost count: { ℕ },
}

impl Model for Tally {
    ghost also_owns = { λ _. ftrue };
}

// A tally owns nothing.
unsafe impl Send for Tally {}

impl Tally {
    /// Creates a count of 0.
    pub fn new() -> Tally
        ensures { result.count ≡ 0 }
    {
        Tally {}
    }

    /// Returns the count plus one.
    pub fn and_one(&self) -> Tally
        ensures { result.count ≡ self.now.count + 1 }
    {
        Tally {}
    }
}
