//! Whether a case holds.
use crate::blocks::{Line, words_of};
use crate::case::{Case, Way};
use crate::draft::Named;
use crate::mistake::Mistake;
use crate::passes::{Pass, passes_of};
use crate::telling::Trial;
use std::alloc::Global;
use std::io::{self, Write};
use std::thread::Threads;

/// Tries a case in each pass and each way of recovery, up to the first difference. Sets `at` to the line that the
/// result is reported for.
pub fn try_case<'a, R: AllocGlobal + Threads + Sync>(
    rt: &R,
    names: &[Named<'_>],
    head: &Line<'a>,
    body: &[Line<'a>],
    at: &mut Line<'a>,
) -> Result<Trial, Mistake> {
    let (passes, lines) = passes_of(rt.alloc(), body, at)?;
    for pass in passes {
        let mut case = case_of(rt.alloc(), names, lines, pass, at)?;
        *at = *head;
        case.finish()?;
        for way in case.ways(rt.alloc(), pass)? {
            let came = case.come(rt, way)?;
            if came != case.expected {
                let text = difference(rt.alloc(), way, pass, &case.expected, &came)?;
                return Ok(Trial::Differs(text));
            }
        }
    }
    Ok(Trial::Holds)
}

/// Reads the lines of a case for one pass.
fn case_of<'a>(
    alloc: Global,
    names: &[Named<'_>],
    lines: &[Line<'a>],
    pass: Pass,
    at: &mut Line<'a>,
) -> Result<Case, Mistake> {
    let mut case = Case::new(alloc);
    for line in lines {
        *at = *line;
        let text = pass.replace(alloc, line.text)?;
        let words = words_of(alloc, text.as_str())?;
        case.add(alloc, names, text.as_str(), &words)?;
    }
    Ok(case)
}

/// Returns the expected text, the way and the pass, and the actual text.
fn difference(
    alloc: Global,
    way: Way<'_>,
    pass: Pass,
    expected: &[u8],
    came: &[u8],
) -> io::Result<Vec<u8>> {
    let mut text = Vec::new(alloc);
    text.extend_from_slice(b"expected:\n")?;
    text.extend_from_slice(expected)?;
    write_way(way, &mut text)?;
    pass.write(&mut text)?;
    text.extend_from_slice(b":\n")?;
    text.extend_from_slice(came)?;
    Ok(text)
}

/// Appends the way in which the case was tried.
fn write_way(way: Way<'_>, text: &mut Vec<u8>) -> io::Result<()> {
    match way {
        Way::Memory => write!(text, "came, from memory"),
        Way::Buffers(size) => write!(text, "came, with buffers of {size}"),
        Way::Even { workers, pieces } => {
            write!(text, "came, with {workers} workers and {pieces} pieces")
        }
        Way::At {
            workers,
            number,
            ..
        } => {
            write!(
                text,
                "came, with {workers} workers and line {number} of cuts"
            )
        }
    }
}
