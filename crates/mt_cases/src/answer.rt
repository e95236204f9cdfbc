//! Recovers from memory, and writes results as the lines of a case.
use crate::blocks::words_of;
use crate::draft::Draft;
use crate::mistake::Mistake;
use crate::records::key_of;
use mt_recover::{Cuts, Recovered, recover_logs, write_dump};
use mt_words::Fault;
use std::alloc::Global;
use std::io::Write;
use std::str;

/// Recovers the logs of these drafts from their bytes in memory.
pub fn recover_from_memory(
    alloc: Global,
    drafts: &[Draft],
) -> Result<Result<Recovered, Fault>, Mistake> {
    let mut logs = Vec::new(alloc);
    for draft in drafts {
        logs.push(draft.bytes.as_slice())?;
    }
    Ok(recover_logs(alloc, &logs))
}

/// Returns the cuts of a line `cuts KEY ..`. Err: a key too long, keys that do not rise or are too many, or out of
/// memory.
pub fn cuts_of(alloc: Global, line: &str) -> Result<Cuts, Mistake> {
    let mut keys = Vec::new(alloc);
    for word in words_of(alloc, line)?.iter().skip(1) {
        keys.push(key_of(alloc, word)?)?;
    }
    Cuts::new(keys).map_err(|_| Mistake::CUTS)
}

/// Returns the result of recovery as lines: that of the choice if one is expected, `store`, its pairs, and a line for each
/// expected line of report fields; or `fault` and the fault.
pub fn write_answer(
    alloc: Global,
    answer: Result<Recovered, Fault>,
    expected: &[u8],
) -> Result<Vec<u8>, Mistake> {
    let mut text = Vec::new(alloc);
    match answer {
        Ok(recovered) => {
            let report = recovered.report().to_string(alloc)?;
            if expected.starts_with(b"choice") {
                write_choice(alloc, report.as_str(), &mut text)?;
            }
            text.extend_from_slice(b"store\n")?;
            write_dump(recovered.store(), &mut text)?;
            for line in str::from_utf8(expected).unwrap_or("").lines() {
                write_fields(report.as_str(), line, &mut text)?;
            }
        }
        Err(fault) => writeln!(text, "fault {fault}")?,
    }
    Ok(text)
}

/// Appends the line of the choice, as the report has it: `choice`, and the number of the chosen checkpoint or `none`.
/// Then come `skipped` and `nameless`, each with its numbers, or left out if it has none.
fn write_choice(alloc: Global, report: &str, text: &mut Vec<u8>) -> Result<(), Mistake> {
    for line in report.lines() {
        match line.split_once('=').unwrap_or((line, "")) {
            ("checkpoint", number) => write!(text, "choice {number}")?,
            ("skipped" | "nameless", "none") => {}
            (name @ ("skipped" | "nameless"), numbers) => {
                write!(text, " {name} {}", numbers.replace(alloc, ",", " ")?)?;
            }
            _ => {}
        }
    }
    Ok(text.push(b'\n')?)
}

/// Appends the line of the fields that an expected line `report` names, with the values of the report.
fn write_fields(report: &str, line: &str, text: &mut Vec<u8>) -> Result<(), Mistake> {
    let mut words = line.split(' ');
    if words.next() != Some("report") {
        return Ok(());
    }
    text.extend_from_slice(b"report")?;
    for word in words {
        let (name, _) = word.split_once('=').unwrap_or((word, ""));
        for field in report.lines() {
            if field
                .split_once('=')
                .is_some_and(|(named, _)| named == name)
            {
                write!(text, " {field}")?;
            }
        }
    }
    Ok(text.push(b'\n')?)
}
