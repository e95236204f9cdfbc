//! Reads records and entries from lines.
use crate::mistake::Mistake;
use crate::words::{bytes_of, number_of};
use mt_words::{Columns, Entry, Key, Numbers, Record};
use std::alloc::Global;

/// Reads a record: `mark TIMESTAMP`, or an update of a key.
pub fn record_of(alloc: Global, words: &[&str]) -> Result<Record, Mistake> {
    match words {
        ["mark", timestamp] => Ok(Record::mark(number_of(timestamp)?)),
        [kind, key, version, timestamp, carried @ ..] => {
            let key = key_of(alloc, key)?;
            let (version, timestamp) = (number_of(version)?, number_of(timestamp)?);
            update_of(alloc, kind, key, version, timestamp, carried)
        }
        _ => Err(Mistake::LINE),
    }
}

/// Makes an update of the key from one of the lines `put KEY VERSION TIMESTAMP NUMBER=VALUE ..`,
/// `remove KEY VERSION TIMESTAMP` and `erase KEY VERSION TIMESTAMP NUMBER ..`.
fn update_of(
    alloc: Global,
    kind: &str,
    key: Key,
    version: u64,
    timestamp: u64,
    carried: &[&str],
) -> Result<Record, Mistake> {
    let record = match (kind, carried) {
        ("put", columns) => Record::put(timestamp, version, key, columns_of(alloc, columns)?),
        ("remove", []) => Record::remove(timestamp, version, key),
        ("erase", words) => {
            let mut numbers = Vec::new(alloc);
            for word in words {
                numbers.push(number_of::<u8>(word)?)?;
            }
            let numbers = Numbers::new(&numbers).ok_or(Mistake::UNLAWFUL)?;
            Record::erase(timestamp, version, key, numbers)
        }
        _ => return Err(Mistake::LINE),
    };
    record.ok_or(Mistake::UNLAWFUL)
}

/// Reads an entry from the words after `entry`: `KEY VERSION NUMBER=VALUE ..`.
pub fn entry_of(alloc: Global, words: &[&str]) -> Result<Entry, Mistake> {
    let [key, version, columns @ ..] = words else {
        return Err(Mistake::LINE);
    };
    let columns = columns_of(alloc, columns)?;
    let key = key_of(alloc, key)?;
    Entry::new(number_of(version)?, key, columns).ok_or(Mistake::UNLAWFUL)
}

/// Reads a key. Err if it is too long.
pub fn key_of(alloc: Global, word: &str) -> Result<Key, Mistake> {
    Key::new(bytes_of(alloc, word)?).ok_or(Mistake::KEY)
}

/// Reads columns `NUMBER=VALUE`. Err if a word is none, or cannot follow those before it.
fn columns_of(alloc: Global, words: &[&str]) -> Result<Columns, Mistake> {
    let mut columns = Columns::new(alloc);
    for word in words {
        let (number, value) = word.split_once('=').ok_or(Mistake::COLUMN)?;
        let pushed = columns.push(number_of(number)?, bytes_of(alloc, value)?);
        pushed.map_err(|_| Mistake::COLUMN)?;
    }
    Ok(columns)
}
