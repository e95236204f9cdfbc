//! Which pairs a range has.
ghost use Rattle.std.specs.Prelude.{◌≡◌, ◌↔◌, IsTrue, OnOk};
ghost use Rattle.mt_words.specs.Words.{IsBelow};
ghost use Rattle.mt_cli.specs.Ranges.{is_below_end, begins_with, has, range_of, IsStart};
ghost use Rattle.mt_cli.specs.Steps.Showing.{HaveShown, none_shown, both_shown};

use crate::request::Range;
use mt_recover::{Store, Visitor, Wanted};
use mt_words::{Key, PackedColumns};

impl Range {
    /// Shows the pairs of the range to the visitor, in order. Allocates no memory. The walk of the store ends after the
    /// last of them; it does not ask whether the visitor is full. Err: the visitor's first error; no further pair is
    /// shown.
    pub fn visit<T, V: Visitor<T>>(
        &self,
        store: &Store,
        visitor: &V,
        target: &mut T,
    ) -> Result<(), V::Error>
        ensures { OnOk result (V.shown target.old target.new (range_of self.now store.now)) }
    {
        let mut rest = Rest {
            range: self,
            left: self.count,
            target,
        };
        store.visit_from(self.start(), &Within { visitor }, &mut rest)
    }

    /// Returns the first key that can be in the range: the greater of the key that it is from and its prefix.
    pub fn start(&self) -> &[u8]
        ensures { IsStart self.now result.now }
    {
        let from = self.from.as_bytes();
        match &self.prefix {
            Some(prefix) if is_below(from, prefix.as_bytes()) => prefix.as_bytes(),
            _ => from,
        }
    }

    /// Returns whether the range has this key, which is at or after `start`. If it has not, it has no key after it.
    pub fn has(&self, key: &[u8]) -> bool
        ensures { result ≡ has self.now key.now }
    {
        is_below_end(key, &self.to) && begins_with(key, &self.prefix)
    }

    /// Returns the columns to print. None: a number is above the greatest one.
    pub fn wanted(&self) -> Option<Wanted> {
        match &self.columns {
            Some(numbers) => Wanted::only(numbers),
            None => Some(Wanted::all()),
        }
    }
}

/// What a walk has still to show of a range.
#[derive(Drop)]
struct Rest<'a, T> {
    range: &'a Range,
    /// The most pairs that are still shown: 0 after the end of the range.
    left: u32,
    target: &'a mut T,
}

/// Shows the pairs of a range to this visitor, and ends the walk after them.
#[derive(Drop)]
struct Within<'a, V> {
    visitor: &'a V,
}

impl<'a, 'b, T, V: Visitor<T>> Visitor<Rest<'a, T>> for Within<'b, V> {
    type Error = V::Error;

    ghost shown = { HaveShown V.shown };

    fn visit(
        &self,
        rest: &mut Rest<'a, T>,
        key: &[u8],
        columns: &PackedColumns,
    ) -> Result<(), V::Error> {
        if rest.left == 0 || !rest.range.has(key) {
            rest.left = 0;
            return Ok(());
        }
        rest.left -= 1;
        self.visitor.visit(rest.target, key, columns)
    }

    fn is_full(&self, rest: &Rest<'a, T>) -> bool {
        rest.left == 0
    }

    ghost none = { none_shown V.shown V.none };

    ghost more = { both_shown V.shown V.more };
}

/// Returns whether the first key is below the second.
fn is_below(key: &[u8], other: &[u8]) -> bool
    ensures { IsTrue result ↔ IsBelow key.now other.now }
{
    key.cmp(other).is_lt()
}

/// Returns whether the key is below this end, if there is one.
fn is_below_end(key: &[u8], end: &Option<Key>) -> bool
    ensures { result ≡ is_below_end end.now key.now }
{
    match end {
        Some(end) => is_below(key, end.as_bytes()),
        None => true,
    }
}

/// Returns whether the key begins with this prefix, if there is one.
fn begins_with(key: &[u8], prefix: &Option<Key>) -> bool
    ensures { result ≡ begins_with prefix.now key.now }
{
    match prefix {
        Some(prefix) => key.starts_with(prefix.as_bytes()),
        None => true,
    }
}
