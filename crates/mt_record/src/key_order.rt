//! The order of keys, told by their slices first.
ghost use Rattle.std.specs.Prelude.{◌≡◌};
ghost use Rattle.std.specs.Ordering.{nat_cmp, is_lt};
ghost use Rattle.std.specs.Cmp.Lexicographic.{slice_cmp};
ghost use Rattle.mt_words.specs.Slices.{slice_in};

use mt_words::slice_of;

/// Returns whether the first key is below the second.
#[inline(always)]
pub fn comes_before(first: &[u8], second: &[u8]) -> bool
    ensures { result ≡ is_lt (slice_cmp nat_cmp first.now second.now) }
{
    is_below_by(first, slice_of(first), second, slice_of(second))
}

/// Returns whether the first key is below the second. Their slices are `head` and `other`. It compares the whole keys only
/// if both have one slice.
#[inline(always)]
pub fn is_below_by(first: &[u8], head: u64, second: &[u8], other: u64) -> bool
    requires head { head ≡ slice_in first.now }
    requires other { other ≡ slice_in second.now }
    ensures { result ≡ is_lt (slice_cmp nat_cmp first.now second.now) }
{
    if head != other {
        return head < other;
    }
    first.cmp(second).is_lt()
}
