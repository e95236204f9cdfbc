//! The file formats, and the limits of each.
ghost use Rattle.std.specs.Prelude.{◌≡◌, ◌≢◌, IfSome, IfNone};
ghost use Rattle.mt_words.specs.declared.limits.Format.{Format as AnyFormat};
ghost use Rattle.mt_words.specs.Limits.{limits_of};

/// A format of logs and checkpoint parts. A new format needs a variant here, its limits and its digit.
#[derive(Clone, Copy, Debug, PartialEq, Eq)]
pub enum Format {
    /// Keys of at most 1,024 bytes, columns 0 to 15, puts, removes and marks.
    One,
    /// Keys of at most 4,096 bytes, columns 0 to 63, puts, removes, marks and erases.
    Two,
}

/// The limits of a format.
#[derive(Clone, Copy, Debug, PartialEq, Eq)]
pub struct Limits {
    /// The byte that follows the three letters at the start of the format's files.
    pub digit: u8,
    /// The greatest length of a key, in bytes.
    pub key: usize,
    /// The greatest column number.
    pub column: u8,
    /// The greatest byte of a kind of record. The least is 1.
    pub kind: u8,
}

/// The greatest length of a key in any format, in bytes.
pub const LONGEST_KEY: usize = 4096;

/// The greatest column number in any format.
pub const GREATEST_COLUMN: u8 = 63;

/// The greatest number of columns of a key in any format: one for each column number.
pub const MOST_COLUMNS: usize = 64;

/// The greatest length of a column's value, in bytes.
pub const LONGEST_VALUE: usize = 65_535;

const _: () = prove!(MOST_COLUMNS == GREATEST_COLUMN as usize + 1);

impl Format {
    /// Returns the limits of the format.
    pub fn limits(self) -> Limits
        ensures { result ≡ limits_of self }
    {
        match self {
            Format::One => Limits {
                digit: b'1',
                key: 1024,
                column: 15,
                kind: 3,
            },
            Format::Two => Limits {
                digit: b'2',
                key: LONGEST_KEY,
                column: GREATEST_COLUMN,
                kind: 4,
            },
        }
    }

    /// Returns the format with this digit, or None if no format has it.
    pub fn of_digit(digit: u8) -> Option<Format>
        ensures found { IfSome result (λ format. (limits_of format).digit ≡ digit) }
        ensures none { IfNone result ((format : AnyFormat) → (limits_of format).digit ≢ digit) }
    {
        match digit {
            b'1' => Some(Format::One),
            b'2' => Some(Format::Two),
            _ => None,
        }
    }
}
