//! The choice of columns that a query wants.
ghost use Rattle.std.specs.Prelude.{◌≡◌, ◌≤◌, ◌↔◌, ℕ, List, IsSome, IfSome, true, nat_eq};
ghost use Rattle.std.specs.List.{AllByRecursion, list_any};
ghost use Rattle.mt_words.specs.declared.limits.TheConstants.{GREATEST_COLUMN};
ghost use Rattle.mt_words.specs.Limits.{widest};
ghost use Rattle.mt_words.specs.Words.{AreColumns};
ghost use Rattle.mt_tree.specs.Range.{wants, wanted_of};

use mt_words::{GREATEST_COLUMN, MOST_COLUMNS};
use std::marker::Model;

/// The columns that a query wants.
#[derive(Clone, Copy, Debug)]
pub struct Wanted {
    /// For each column number, whether it is wanted.
    flags: [bool; MOST_COLUMNS],
}

impl Model for Wanted {
    ghost use Rattle.std.specs.Prelude.{List, Bool};

    ghost Value = { List Bool };

    ghost view = { λ w. w.flags };

    ghost inverse = { λ flags. record { flags = flags } };
}

impl Wanted {
    /// Creates the choice of all columns.
    pub fn all() -> Wanted
        ensures value { (number : ℕ) → number ≤ GREATEST_COLUMN → wants result number ≡ true }
        ensures whole { (columns : List (ℕ × List ℕ)) → AreColumns widest columns →
            wanted_of result columns ≡ columns }
    {
        Wanted {
            flags: [true; MOST_COLUMNS],
        }
    }

    /// Creates the choice of the columns of these numbers, in any order. Returns None if a number is above
    /// `GREATEST_COLUMN`.
    pub fn only(numbers: &[u8]) -> Option<Wanted>
        ensures accepted { IsSome result ↔ AllByRecursion (λ number. number ≤ GREATEST_COLUMN) numbers.now }
        ensures value { IfSome result (λ wanted. (number : ℕ) →
            wants wanted number ≡ list_any (nat_eq number) numbers.now) }
    {
        let mut flags = [false; MOST_COLUMNS];
        for number in numbers {
            if *number > GREATEST_COLUMN {
                return None;
            }
            flags[*number as usize] = true;
        }
        Some(Wanted { flags })
    }

    /// Returns whether the column of this number is wanted.
    pub fn has(&self, number: u8) -> bool
        ensures { result ≡ wants self.now number }
    {
        number <= GREATEST_COLUMN && self.flags[number as usize]
    }
}
