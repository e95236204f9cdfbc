//! Finds logs that are copies of others.
use crate::checked::Checked;
use crate::host::{Host, Run};
use crate::intake::Intake;
use mt_words::Memory;
use std::io::{self, ErrorKind, Read};

/// The bytes by which logs are told apart, before they are compared as a whole: a header and some records.
const FIRST_BYTES: u64 = 256;

/// A log with an update: its first bytes, its number and its name.
#[derive(Drop)]
struct Front<'a> {
    bytes: Vec<u8>,
    log: usize,
    name: &'a str,
}

/// How the bytes of a file compare with those of another one.
#[derive(Clone, Copy)]
enum Order {
    /// The other one begins with them, or is equal.
    Beginning,
    /// At the first byte that differs, or at the end of the other one, they are less.
    Below,
    /// Likewise, greater.
    Above,
}

impl<'a, R: Host> Run<'a, R> {
    /// Finds for each log with an update another log that it is a beginning of, or equal to. All logs are sorted by their bytes: if
    /// a log is a beginning of others, it is one of the log directly behind it.
    pub fn find_copies(&self, checked: &mut Checked<'a>) -> Result<(), Memory> {
        let sorted = self.sort_fronts(checked)?;
        for (one, next) in sorted.iter().zip(sorted.iter().skip(1)) {
            if !next.bytes.starts_with(&one.bytes) {
                continue;
            }
            if let Some(Order::Beginning) = self.compare(one.name, next.name)? {
                if let Some(found) = checked.logs.get_mut(one.log) {
                    found.copy = Some(next.name);
                }
            }
        }
        Ok(())
    }

    /// Returns the logs with an update in the order of their bytes, equal ones in that of their numbers.
    fn sort_fronts(&self, checked: &Checked<'a>) -> Result<Vec<Front<'a>>, Memory> {
        let mut fronts = Vec::new(self.rt.alloc());
        for (log, found) in checked.logs.iter().enumerate() {
            let name = found.file.name;
            if !found.has_updates() {
                continue;
            }
            if let Some(bytes) = self.first_bytes(name, FIRST_BYTES)? {
                fronts.push((bytes, log, name))?;
            }
        }
        fronts.sort_unstable();
        let mut sorted = Vec::with_capacity(self.rt.alloc(), fronts.len())?;
        for (bytes, log, name) in fronts {
            let front = Front { bytes, log, name };
            let place = self.place_of(&front, &sorted)?.min(sorted.len());
            sorted.insert(place, front)?;
        }
        Ok(sorted)
    }

    /// Returns the place of a log among sorted ones, none of which has greater first bytes: behind those that are not above it.
    fn place_of(&self, front: &Front<'_>, sorted: &[Front<'_>]) -> Result<usize, Memory> {
        let mut low = sorted.partition_point(|other| other.bytes < front.bytes);
        let mut high = sorted.len();
        for _ in 0..usize::BITS {
            let middle = low.saturating_add(high.saturating_sub(low) / 2);
            match sorted.get(middle) {
                Some(other) if middle < high => match self.compare(other.name, front.name)? {
                    Some(Order::Above) => high = middle,
                    _ => low = middle.saturating_add(1),
                },
                _ => break,
            }
        }
        Ok(low)
    }

    /// Compares the bytes of two files. None: one of them cannot be read again.
    fn compare(&self, name: &str, other: &str) -> Result<Option<Order>, Memory> {
        let (Some(file), Some(other)) = (self.read_again(name, 1)?, self.read_again(other, 1)?)
        else {
            return Ok(None);
        };
        match order_of(file, other) {
            Ok(order) => Ok(Some(order)),
            Err(error) if error.kind() == ErrorKind::OutOfMemory => Err(Memory),
            Err(_) => Ok(None),
        }
    }
}

/// Compares the bytes of a file with those of another one. Err: read error, or out of memory.
fn order_of<F: Read + Drop>(file: Intake<F>, other: Intake<F>) -> io::Result<Order> {
    let (mut file, mut other) = (file, other);
    for _ in 0..u64::MAX {
        if file.held.is_empty() && file.more()?.is_none() {
            return Ok(Order::Beginning);
        }
        if other.held.is_empty() && other.more()?.is_none() {
            return Ok(Order::Above);
        }
        let count = file.held.len().min(other.held.len());
        let (ours, theirs) = (file.held.get(..count), other.held.get(..count));
        if ours != theirs {
            return Ok(if ours < theirs {
                Order::Below
            } else {
                Order::Above
            });
        }
        file.pass(count);
        other.pass(count);
    }
    Ok(Order::Above)
}
