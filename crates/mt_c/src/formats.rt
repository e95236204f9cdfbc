//! Formats of logs and parts by their numbers, as C names them.
ghost use Rattle.std.specs.Prelude.{◌≡◌};
ghost use Rattle.mt_c.specs.Formats.{format_of, records_of, entries_of, log_number};

use mt_record::Head;
use mt_words::Format;

/// Returns the format of this number, or None if there is no such format.
pub fn format_of(number: u32) -> Option<Format>
    ensures { result ≡ format_of number }
{
    match number {
        1 => Some(Format::One),
        2 => Some(Format::Two),
        _ => None,
    }
}

/// Returns the format of the records of a log of this format, or None if there is no such log.
pub fn records_of(number: u32) -> Option<Format>
    ensures { result ≡ records_of number }
{
    match number {
        // Segments.
        3 | 4 => Some(Format::Two),
        _ => format_of(number),
    }
}

/// Returns the format of the entries of a part of this format, or None if there is no such part.
pub fn entries_of(number: u32) -> Option<Format>
    ensures { result ≡ entries_of number }
{
    match number {
        4 => Some(Format::Two),
        _ => format_of(number),
    }
}

/// Returns the number of the format of a log with this header.
pub fn log_number(head: Head) -> u32
    ensures { result ≡ log_number head }
{
    match (head.segment, head.format) {
        (Some(_), _) => 3,
        (None, Format::One) => 1,
        (None, Format::Two) => 2,
    }
}
