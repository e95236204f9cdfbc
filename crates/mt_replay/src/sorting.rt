//! Sorts texts of updates by their keys, as numbers: each has the beginning of a key, and in its lowest bits the place
//! of a text in its list. If keys share a beginning, the numbers have what follows it.
//!
//!     bits 63 to 16                                bits 15 to 0
//!     6 bytes of the key, after those all share    place of the text
//!
//! A list of more than 65,536 texts takes 32 bits for a place.
ghost use Rattle.std.specs.Prelude.{◌≡◌, ◌≤◌, ◌<◌, ◌++◌, ◌+◌, ◌-◌, ◌/◌, ◌%◌, ◌^◌, ℕ, IfOk, IsTrue, List, IsPermutation, slice_index_or, length, take, drop, All};
ghost use Rattle.std.specs.List.{range_with_len};
ghost use Rattle.std.specs.Ordering.{nat_cmp};
ghost use Rattle.std.specs.Cmp.Lexicographic.{slice_cmp};
ghost use Rattle.mt_replay.specs.Cuts.{InKeyOrder};
ghost use Rattle.mt_replay.specs.Steps.Numbers.{places, rest_of, rests, AreInOrder, BeginsWith, AreAlike};
ghost use Rattle.mt_replay.specs.Steps.Merging.{updates_of};

use crate::merging::merge;
use crate::parts::Part;
use mt_record::Text;
use mt_words::{Memory, slice_of};
use std::alloc::Global;
use std::cmp::Ordering;

/// How often the texts of a run are sorted by numbers. Then their keys are compared as a whole.
const ROUNDS: u32 = 8;

/// Fewer texts than these are sorted by their whole keys.
const FEW: usize = 16;

/// Returns texts, and the updates of a part, if there is one, in the order of their keys. The keys of the texts must have
/// their first `depth` bytes in common. A part is in order already: it is merged. Updates of one key come in any order.
/// Err: out of memory.
pub(crate) fn sorted_texts<'a>(
    alloc: Global,
    texts: Vec<Text<'a>>,
    depth: u32,
    part: &Option<Part<'a>>,
) -> Result<Vec<Text<'a>>, Memory>
    requires { AreAlike depth texts.items }
    ensures same { IfOk result (λ sorted. IsPermutation (updates_of part.now ++ texts.entry.items) sorted.items) }
    ensures in_order { IfOk result (λ sorted. InKeyOrder sorted.items) }
{
    let bits = bits_for(texts.len());
    let numbers = sorted_numbers(alloc, &texts, bits, depth)?;
    merge(alloc, &texts, &numbers, bits, part)
}

/// Returns the number of bits of a place in a list of this length: 16 for all but long lists, so that 48 bits of a key
/// are left.
fn bits_for(length: usize) -> u32
    requires { length ≤ 2 ^ 63 }
    ensures below { result < 64 }
    ensures fits { length ≤ 2 ^ result }
{
    if length <= 65_536 {
        return 16;
    }
    if length <= 4_294_967_296 {
        return 32;
    }
    63
}

/// Returns numbers of all texts, in the order of their keys, which have their first `depth` bytes in common.
/// Err: out of memory.
fn sorted_numbers(
    alloc: Global,
    texts: &[Text<'_>],
    bits: u32,
    depth: u32,
) -> Result<Vec<u64>, Memory>
    requires below { bits < 64 }
    requires alike { AreAlike depth texts.now }
    requires fits { length texts.now ≤ 2 ^ bits }
    ensures same { IfOk result (λ numbers. IsPermutation (range_with_len 0 (length texts.now)) (places bits numbers.items)) }
    ensures in_order { IfOk result (λ numbers. AreInOrder (rests bits texts.now 0 numbers.items)) }
{
    let mut numbers = Vec::with_capacity(alloc, texts.len())?;
    for place in 0..texts.len() {
        numbers.push(place as u64)?;
    }
    sort_alike(&mut numbers, texts, bits, depth);
    Ok(numbers)
}

/// Sorts numbers by their texts' keys, which have their first `depth` bytes in common. If that is not known, `depth` is 0,
/// and they are searched for what they have in common.
fn sort_alike(numbers: &mut [u64], texts: &[Text<'_>], bits: u32, depth: u32)
    requires below { bits < 64 }
    requires alike { (shared : List ℕ) × All (λ rest. take depth rest ≡ shared) (rests bits texts.now 0 numbers.old) }
    ensures same { IsPermutation (places bits numbers.old) (places bits numbers.new) }
    ensures in_order { AreInOrder (rests bits texts.now 0 numbers.new) }
{
    if depth == 0 {
        sort_run(numbers, texts, bits, 0, ROUNDS);
        return;
    }
    sort_from(numbers, texts, bits, depth, ROUNDS);
}

/// Returns the place that a number has in its lowest bits.
pub(crate) fn place_of(number: u64, bits: u32) -> usize
    requires { bits < 64 }
    ensures value { result ≡ number % 2 ^ bits }
    ensures below { result < 2 ^ bits }
{
    (number % (1u64 << bits)) as usize
}

/// Returns what follows the first `depth` bytes of the key of a number's text, or nothing if there is no text.
fn rest<'a>(texts: &[Text<'a>], bits: u32, number: u64, depth: u32) -> &'a [u8]
    requires { bits < 64 }
    ensures value { result.now ≡ rest_of bits texts.now depth number }
    ensures fits { depth + length result.now < 2 ^ 32 }
{
    let Some(text) = texts.get(place_of(number, bits)) else {
        return &[];
    };
    key_rest(text.key(), depth)
}

/// Sorts numbers by what follows the first `depth` bytes of their texts' keys: by the numbers, and then each run of
/// those that begin alike.
#[cycle(rounds)]
fn sort_from(numbers: &mut [u64], texts: &[Text<'_>], bits: u32, depth: u32, rounds: u32)
    requires { bits < 64 }
    ensures same { IsPermutation (places bits numbers.old) (places bits numbers.new) }
    ensures in_order { AreInOrder (rests bits texts.now depth numbers.new) }
{
    begin_all(numbers, texts, bits, depth);
    numbers.sort_unstable();
    let mut at = 0;
    while at < numbers.len() {
        let end = end_of_run(numbers, bits, at);
        sort_run(&mut numbers[at..end], texts, bits, depth, rounds);
        at = end;
    }
}

/// Lets each number begin with what follows the first `depth` bytes of its text's key.
fn begin_all(numbers: &mut [u64], texts: &[Text<'_>], bits: u32, depth: u32)
    requires { bits < 64 }
    ensures same { places bits numbers.new ≡ places bits numbers.old }
    ensures heads { All (λ number. BeginsWith bits number (rest_of bits texts.now depth number)) numbers.new }
{
    for at in 0..numbers.len() {
        let number = numbers[at];
        numbers[at] = begun(rest(texts, bits, number, depth), number, bits);
    }
}

/// Returns the number with this beginning, and with the place of another one.
fn begun(rest: &[u8], number: u64, bits: u32) -> u64
    requires { bits < 64 }
    ensures begins { BeginsWith bits result rest.now }
    ensures place { result % 2 ^ bits ≡ number % 2 ^ bits }
{
    (slice_of(rest) >> bits << bits) | place_of(number, bits) as u64
}

/// Returns where the run of numbers that begin alike ends, which begins at this place.
fn end_of_run(numbers: &[u64], bits: u32, at: usize) -> usize
    requires below { bits < 64 }
    requires some { at < length numbers.now }
    ensures within { (at < result) × (result ≤ length numbers.now) }
    ensures alike { (k d : ℕ) → at ≤ k → k < result → slice_index_or numbers.now k d / 2 ^ bits ≡ slice_index_or numbers.now at d / 2 ^ bits }
    ensures ends { (d : ℕ) → result < length numbers.now → ¬ (slice_index_or numbers.now at d / 2 ^ bits ≡ slice_index_or numbers.now result d / 2 ^ bits) }
{
    for end in at + 1..numbers.len() {
        if numbers[at] >> bits != numbers[end] >> bits {
            return end;
        }
    }
    numbers.len()
}

/// Sorts numbers by what follows the first `depth` bytes of their texts' keys: few of them by all that follows, and
/// more by what follows all bytes that the keys share.
#[cycle(rounds)]
fn sort_run(numbers: &mut [u64], texts: &[Text<'_>], bits: u32, depth: u32, rounds: u32)
    requires { bits < 64 }
    ensures same { IsPermutation (places bits numbers.old) (places bits numbers.new) }
    ensures in_order { AreInOrder (rests bits texts.now depth numbers.new) }
{
    if numbers.len() < 2 {
        return;
    }
    if numbers.len() < FEW || rounds == 0 {
        sort_by_rest(numbers, texts, bits, depth);
        return;
    }
    if are_alike(numbers, texts, bits, depth) {
        return;
    }
    let further = shared_depth(numbers, texts, bits, depth);
    sort_from(numbers, texts, bits, further, rounds - 1);
}

/// Sorts numbers by what follows the first `depth` bytes of their texts' keys, with one comparison for each pair.
fn sort_by_rest(numbers: &mut [u64], texts: &[Text<'_>], bits: u32, depth: u32)
    requires { bits < 64 }
    ensures same { IsPermutation (places bits numbers.old) (places bits numbers.new) }
    ensures in_order { AreInOrder (rests bits texts.now depth numbers.new) }
{
    numbers.sort_unstable_by(
        |a: &u64, b: &u64| -> Ordering
            requires { bits < 64 }
            ensures { result ≡ slice_cmp nat_cmp (rest_of bits texts.entry.now depth a.now) (rest_of bits texts.entry.now depth b.now) }
        { rest(texts, bits, *a, depth).cmp(rest(texts, bits, *b, depth)) },
    );
}

/// Returns whether the same bytes follow the first `depth` bytes of all keys.
fn are_alike(numbers: &[u64], texts: &[Text<'_>], bits: u32, depth: u32) -> bool
    requires { bits < 64 }
    ensures { IsTrue result → (shared : List ℕ) × All (λ rest. rest ≡ shared) (rests bits texts.now depth numbers.now) }
{
    let Some(number) = numbers.first() else {
        return true;
    };
    let first = rest(texts, bits, *number, depth);
    for number in numbers {
        if first != rest(texts, bits, *number, depth) {
            return false;
        }
    }
    true
}

/// Returns the greatest depth up to which all keys are alike after their first `depth` bytes.
fn shared_depth(numbers: &[u64], texts: &[Text<'_>], bits: u32, depth: u32) -> u32
    requires { bits < 64 }
    ensures deeper { depth ≤ result }
    ensures shared { (shared : List ℕ) × All (λ rest. take (result - depth) rest ≡ shared) (rests bits texts.now depth numbers.now) }
{
    let Some(first) = numbers.first() else {
        return depth;
    };
    let mut shared = rest(texts, bits, *first, depth);
    for number in numbers {
        shared = common_start(shared, rest(texts, bits, *number, depth));
    }
    depth + shared.len() as u32
}

/// Returns what both begin with.
pub(crate) fn common_start<'a>(first: &'a [u8], second: &[u8]) -> &'a [u8]
    ensures shorter { length result.now ≤ length first.now }
    ensures first { take (length result.now) first.now ≡ result.now }
    ensures second { take (length result.now) second.now ≡ result.now }
{
    if second.starts_with(first) {
        return first;
    }
    let most = first.len().min(second.len());
    for at in 0..most {
        if first[at] != second[at] {
            return &first[..at];
        }
    }
    &first[..most]
}

/// Returns what follows the first `depth` bytes of a key.
fn key_rest(key: &[u8], depth: u32) -> &[u8]
    ensures { result.now ≡ drop depth key.now }
{
    if key.len() <= depth as usize {
        return &[];
    }
    &key[depth as usize..]
}
