//! The passes of a case.
use crate::blocks::{Line, words_of};
use crate::mistake::Mistake;
use crate::words::number_of;
use std::alloc::Global;
use std::io::{self, Write};

/// One pass of a case.
#[derive(Clone, Copy)]
pub struct Pass {
    /// The number that `$n` stands for, if the case has a line `each n`.
    n: Option<u64>,
    /// The number that `$m` stands for, if the case has a line `each m`.
    m: Option<u64>,
    /// Its place among the passes of the case, counted from 0.
    place: usize,
}

impl Pass {
    /// Whether the pass takes this one of the six ways in even pieces, where 1 and 16 pieces alternate. Each makes
    /// threads, so passes of one letter take the two numbers of pieces in turn. Of 24 passes of two letters, six take
    /// one way each.
    pub fn takes(self, way: usize) -> bool {
        match (self.n, self.m) {
            (None, None) => true,
            (Some(_), Some(_)) => way == self.place % 24,
            _ => way % 2 == self.place % 2,
        }
    }

    /// Returns the line with its letters replaced: `$n` by the number, `$xn` by its hexadecimal digits, at least two.
    /// Err if the line has a letter that stands for nothing.
    pub fn replace(self, alloc: Global, line: &str) -> Result<String, Mistake> {
        let mut text = String::from_str(alloc, line)?;
        for (decimal, hex, number) in [("$n", "$xn", self.n), ("$m", "$xm", self.m)] {
            if let Some(number) = number {
                text = text.replace(alloc, decimal, number.to_string(alloc)?.as_str())?;
                text = text.replace(alloc, hex, format!(in alloc; "{number:02x}")?.as_str())?;
            } else if text.contains(decimal) || text.contains(hex) {
                return Err(Mistake::NO_PASS);
            }
        }
        Ok(text)
    }

    /// Appends what the letters stand for.
    pub fn write(self, text: &mut Vec<u8>) -> io::Result<()> {
        for (letter, number) in [("n", self.n), ("m", self.m)] {
            if let Some(number) = number {
                write!(text, " and {letter} = {number}")?;
            }
        }
        Ok(())
    }
}

/// Returns the passes of a case, one for each pair of numbers, and its lines after `each n` and `each m`. Sets `at` to
/// the line that a mistake is reported for.
pub fn passes_of<'l, 'a>(
    alloc: Global,
    lines: &'l [Line<'a>],
    at: &mut Line<'a>,
) -> Result<(Vec<Pass>, &'l [Line<'a>]), Mistake> {
    let (ns, lines) = numbers_of(alloc, "n", lines, at)?;
    let (ms, lines) = numbers_of(alloc, "m", lines, at)?;
    let mut passes = Vec::new(alloc);
    for n in &ns {
        for m in &ms {
            let (n, m, place) = (*n, *m, passes.len());
            passes.push(Pass { n, m, place })?;
        }
    }
    Ok((passes, lines))
}

/// Returns the numbers that the first line gives to the letter, and the lines that follow. A first line that is not for
/// this letter gives it no number.
fn numbers_of<'l, 'a>(
    alloc: Global,
    letter: &str,
    lines: &'l [Line<'a>],
    at: &mut Line<'a>,
) -> Result<(Vec<Option<u64>>, &'l [Line<'a>]), Mistake> {
    if let Some((line, rest)) = lines.split_first() {
        let words = words_of(alloc, line.text)?;
        if let ["each", named, range @ ..] = words.as_slice()
            && *named == letter
        {
            *at = *line;
            return Ok((range_of(alloc, range)?, rest));
        }
    }
    Ok((Vec::from_array(alloc, [None])?, lines))
}

/// Returns the numbers of a range: `FIRST to LAST`, or `FIRST to LAST but ONE ..`. Err if the first is above the last.
fn range_of(alloc: Global, words: &[&str]) -> Result<Vec<Option<u64>>, Mistake> {
    let [first, "to", last, rest @ ..] = words else {
        return Err(Mistake::LINE);
    };
    if !matches!(rest, [] | ["but", _, ..]) {
        return Err(Mistake::LINE);
    }
    let (first, last) = (number_of(first)?, number_of::<u64>(last)?);
    if first > last {
        return Err(Mistake::NUMBER);
    }
    let mut but = Vec::new(alloc);
    for word in rest.iter().skip(1) {
        but.push(number_of::<u64>(word)?)?;
    }
    let mut numbers = Vec::new(alloc);
    for number in first..=last {
        if !but.contains(&number) {
            numbers.push(Some(number))?;
        }
    }
    Ok(numbers)
}
