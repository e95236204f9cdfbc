//! Lists of column numbers.
ghost use Rattle.std.specs.Prelude.{◌≡◌, ◌≤◌, ◌<◌, ◌↔◌, length, IsSome, IfSome, IsTrue};
ghost use Rattle.mt_words.specs.declared.limits.TheConstants.{GREATEST_COLUMN};
ghost use Rattle.mt_words.specs.Limits.{widest};
ghost use Rattle.mt_words.specs.Words.{Rise, AreNumbers};
ghost use Rattle.mt_words.specs.Columns.{AllBelow};
ghost use Rattle.mt_words.specs.declared.limits.Limits.{Limits};

use crate::limits::{GREATEST_COLUMN, MOST_COLUMNS};
use arrayvec::ArrayVec;
use std::marker::Model;

/// The numbers of the columns that an erase removes: at least one, strictly rising. They are stored inline.
#[derive(Debug, Drop)]
pub struct Numbers {
    numbers: ArrayVec<u8, MOST_COLUMNS>,
}

impl Model for Numbers {
    ghost use Rattle.std.specs.Prelude.{List, ℕ, ◌<◌, length};
    ghost use Rattle.mt_words.specs.Limits.{widest};
    ghost use Rattle.mt_words.specs.Words.{AreNumbers};

    ghost Value = { List ℕ };

    ghost view = { λ n. n.numbers.items };

    ghost invariant = { λ n. AreNumbers widest n.numbers.items × (0 < length n.numbers.items) };
}

impl Numbers {
    /// Creates a list of these numbers. Returns None if there are none, if one is above `GREATEST_COLUMN`, or if they
    /// do not strictly rise.
    pub fn new(numbers: &[u8]) -> Option<Numbers>
        ensures accepted { IsSome result ↔ (AreNumbers widest numbers.now × (0 < length numbers.now)) }
        ensures value { IfSome result (λ made. made ≡ numbers.now) }
    {
        let mut rising = ArrayVec::new();
        for number in numbers {
            if !may_follow(rising.as_slice(), *number) {
                return None;
            }
            rising.push(*number);
        }
        if rising.is_empty() {
            return None;
        }
        Some(Numbers { numbers: rising })
    }

    /// Creates a list of these numbers, which the caller knows to be lawful.
    pub fn of_lawful(numbers: &[u8]) -> Numbers
        requires lawful { AreNumbers widest numbers.now }
        requires some { 0 < length numbers.now }
        ensures { result ≡ numbers.now }
    {
        let mut copies = ArrayVec::new();
        for number in numbers {
            copies.push(*number);
        }
        Numbers { numbers: copies }
    }

    /// Returns the numbers as a slice.
    pub fn as_slice(&self) -> &[u8]
        ensures value { result.now ≡ self.now }
        ensures lawful { AreNumbers widest self.now × (0 < length self.now) }
    {
        self.numbers.as_slice()
    }

    /// Returns whether no number is above `greatest`.
    pub fn are_up_to(&self, greatest: u8) -> bool
        ensures { (limits : Limits) → limits.column ≡ greatest →
            IsTrue result ↔ (AreNumbers limits self.now × (0 < length self.now)) }
    {
        match self.numbers.as_slice().last() {
            None => false,
            Some(last) => *last <= greatest,
        }
    }
}

/// Returns whether the number may be appended to these.
fn may_follow(numbers: &[u8], number: u8) -> bool
    requires { Rise 0 numbers.now }
    ensures { IsTrue result ↔ ((number ≤ GREATEST_COLUMN) × AllBelow numbers.now number) }
{
    match numbers.last() {
        None => number <= GREATEST_COLUMN,
        Some(last) => number <= GREATEST_COLUMN && *last < number,
    }
}
