//! Values of a report.
ghost use Rattle.std.specs.Prelude.{◌≡◌, ℕ, Some, OnOk, decimal, false, map, true};
ghost use Rattle.std.specs.Fmt.{WritesOnOk};
ghost use Rattle.std.specs.List.{flat_map};
ghost use Rattle.std.specs.Io.KnownBytes.{Appends};
ghost use Rattle.mt_text.specs.RecordJson.{after_comma};
ghost use Rattle.mt_text.specs.Values.{numbers_text, value_text};

use std::fmt::{self, Display, Formatter};
use std::io;

/// A value of a report.
#[derive(Clone, Copy, Debug)]
pub enum Value<'a> {
    Number(u128),
    /// A number, if there is one.
    Perhaps(Option<u32>),
    Numbers(&'a [u32]),
    Positions(&'a [usize]),
}

/// Writes numbers with commas between them, or `none`.
impl<'a> Display for Value<'a> {
    ghost output = { λ value. Some (value_text false value) };

    fn fmt<W: fmt::Write>(&self, f: &mut Formatter<W>) -> fmt::Result {
        match self {
            Value::Number(number) => write!(f, "{number}"),
            Value::Perhaps(None) => f.write_str("none"),
            Value::Perhaps(Some(number)) => write!(f, "{number}"),
            Value::Numbers(numbers) => write_list(numbers, f),
            Value::Positions(positions) => write_list(positions, f),
        }
    }
}

/// Writes numbers with commas between them, or `none`.
fn write_list<T: Display, W: fmt::Write>(numbers: &[T], f: &mut Formatter<W>) -> fmt::Result
    ensures { (of : T → ℕ) → ((x : T) → T.output x ≡ Some (decimal (of x))) →
        WritesOnOk W.write_str_gives f.old result (numbers_text false (map of numbers.now)) f.new }
{
    let Some((first, rest)) = numbers.split_first() else {
        return f.write_str("none");
    };
    write!(f, "{first}")?;
    write_more(rest, f)
}

/// Writes numbers with a comma before each.
fn write_more<T: Display, W: fmt::Write>(numbers: &[T], f: &mut Formatter<W>) -> fmt::Result
    ensures { (of : T → ℕ) → ((x : T) → T.output x ≡ Some (decimal (of x))) →
        WritesOnOk W.write_str_gives f.old result (flat_map (after_comma decimal) (map of numbers.now)) f.new }
{
    for number in numbers {
        write!(f, ",{number}")?;
    }
    Ok(())
}

impl<'a> Value<'a> {
    /// Prints the value as JSON: a number, `null`, or an array. Err: write error.
    pub(crate) fn write_json<W: io::Write>(self, out: &mut W) -> io::Result<()>
        ensures { OnOk result (Appends (W.contents out.old) (W.contents out.new) (value_text true self.entry)) }
    {
        match self {
            Value::Perhaps(None) => out.write_all(b"null"),
            Value::Numbers([]) | Value::Positions([]) => out.write_all(b"[]"),
            Value::Numbers(_) | Value::Positions(_) => write!(out, "[{self}]"),
            Value::Number(_) | Value::Perhaps(_) => write!(out, "{self}"),
        }
    }
}
