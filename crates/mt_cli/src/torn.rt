//! Whether a torn record is what a crash leaves of a lawful one. Whatever stands in its value then is no record, even if its
//! bytes are those of records: a client chooses them.
//!
//! ```text
//! L, 4 | kind | timestamp, 8 | version, 8 | key length, 2 | key | count | number | value length, 2 | value | .. | L, 4
//! ```
//!
//! L is the number of bytes between both. So each length and each count that is there says how many bytes must follow, and how
//! many may.
use mt_words::{Code, Format, LONGEST_VALUE, Payload};

/// Why the fields of a record cannot be read on.
#[derive(Clone, Copy, PartialEq, Eq)]
enum Stop {
    /// The bytes end. Those before can be of a lawful record.
    Torn,
    /// No lawful record has these bytes.
    Wrong,
}

/// The bytes of a column without its value.
const BEFORE_VALUE: usize = 3;

/// The most bytes of a column.
const MOST_OF_COLUMN: usize = BEFORE_VALUE + LONGEST_VALUE;

/// Returns whether a lawful record of this format can begin with these bytes, which are not all of it: one whose timestamp is not
/// below `latest`. Each field that is there is lawful then, and the others can make up the length that it begins with.
pub fn may_begin_record(format: Format, latest: u64, bytes: &[u8]) -> bool {
    let Some((length, rest)) = bytes.split_first_chunk::<4>() else {
        return true;
    };
    let left = u32::from_be_bytes(*length) as usize;
    let (body, trailer) = rest.split_at(left.min(rest.len()));
    let mut fields = Fields { bytes: body, left };
    match fields.read(format, latest) {
        Ok(()) => trailer.len() < length.len() && length.starts_with(trailer),
        Err(stop) => stop == Stop::Torn,
    }
}

/// Fields of the body of a record.
#[derive(Drop)]
struct Fields<'a> {
    /// The bytes of them that are there.
    bytes: &'a [u8],
    /// The number of bytes that they have, by the length of the record.
    left: usize,
}

impl<'a> Fields<'a> {
    /// Reads all fields of a record.
    fn read(&mut self, format: Format, latest: u64) -> Result<(), Stop> {
        let limits = format.limits();
        let kind = self.byte()?;
        expect(kind != Code::Whole.byte() && kind <= limits.kind)?;
        expect(self.number_of_eight()? >= latest)?;
        let Some(code) = Code::of_byte(kind) else {
            // A mark.
            return expect(self.left == 0);
        };
        expect(self.number_of_eight()? > 0)?;
        let key = usize::from(self.number_of_two()?);
        expect(key <= limits.key)?;
        let most = usize::from(limits.column).saturating_add(1);
        let (least, greatest) = match code.payload() {
            Payload::Nothing => (0, 0),
            Payload::Columns => (
                BEFORE_VALUE.saturating_add(1),
                most.saturating_mul(MOST_OF_COLUMN).saturating_add(1),
            ),
            Payload::Numbers => (2, most.saturating_add(1)),
        };
        self.expect_left(key.saturating_add(least), key.saturating_add(greatest))?;
        self.pass(key)?;
        match code.payload() {
            Payload::Nothing => Ok(()),
            Payload::Columns => self.columns(limits.column),
            Payload::Numbers => self.numbers(limits.column),
        }
    }

    /// Reads the columns of a put, whose numbers rise up to this one.
    fn columns(&mut self, greatest: u8) -> Result<(), Stop> {
        let count = self.byte()?;
        expect(count > 0)?;
        let mut least: usize = 0;
        for column in 0..count {
            let after = usize::from(count.saturating_sub(column).saturating_sub(1));
            let all = after.saturating_add(1);
            self.expect_left(
                all.saturating_mul(BEFORE_VALUE),
                all.saturating_mul(MOST_OF_COLUMN),
            )?;
            least = self.number(least, after, greatest)?;
            let value = usize::from(self.number_of_two()?);
            self.expect_left(
                value.saturating_add(after.saturating_mul(BEFORE_VALUE)),
                value.saturating_add(after.saturating_mul(MOST_OF_COLUMN)),
            )?;
            self.pass(value)?;
        }
        Ok(())
    }

    /// Reads the column numbers of an erase, which rise up to this one.
    fn numbers(&mut self, greatest: u8) -> Result<(), Stop> {
        let count = self.byte()?;
        expect(count > 0 && self.left == usize::from(count))?;
        let mut least: usize = 0;
        for nth in 0..count {
            let after = usize::from(count.saturating_sub(nth).saturating_sub(1));
            least = self.number(least, after, greatest)?;
        }
        Ok(())
    }

    /// Reads the number of a column, which is not below this one, and behind which so many greater ones follow up to the greatest.
    /// Returns the least one that may follow.
    fn number(&mut self, least: usize, after: usize, greatest: u8) -> Result<usize, Stop> {
        let number = usize::from(self.byte()?);
        expect(least <= number && number.saturating_add(after) <= usize::from(greatest))?;
        Ok(number.saturating_add(1))
    }

    fn byte(&mut self) -> Result<u8, Stop> {
        let taken = self.take(1)?;
        taken.first().copied().ok_or(Stop::Torn)
    }

    fn number_of_two(&mut self) -> Result<u16, Stop> {
        let (number, _) = self.take(2)?.split_first_chunk::<2>().ok_or(Stop::Torn)?;
        Ok(u16::from_be_bytes(*number))
    }

    fn number_of_eight(&mut self) -> Result<u64, Stop> {
        let (number, _) = self.take(8)?.split_first_chunk::<8>().ok_or(Stop::Torn)?;
        Ok(u64::from_be_bytes(*number))
    }

    /// Passes over this number of bytes.
    fn pass(&mut self, count: usize) -> Result<(), Stop> {
        self.take(count)?;
        Ok(())
    }

    /// Takes this number of bytes.
    fn take(&mut self, count: usize) -> Result<&'a [u8], Stop> {
        expect(count <= self.left)?;
        let (taken, rest) = self.bytes.split_at_checked(count).ok_or(Stop::Torn)?;
        self.bytes = rest;
        self.left = self.left.saturating_sub(count);
        Ok(taken)
    }

    /// Expects that at least and at most so many bytes are left.
    fn expect_left(&self, least: usize, most: usize) -> Result<(), Stop> {
        expect((least..=most).contains(&self.left))
    }
}

/// Stops unless this is so of a lawful record.
fn expect(is_lawful: bool) -> Result<(), Stop> {
    if is_lawful { Ok(()) } else { Err(Stop::Wrong) }
}
