//! The names of the numbers of a report, and its text.
ghost use Rattle.std.specs.Prelude.{◌≡◌, Bool, Some, false, map};
ghost use Rattle.std.specs.Fmt.{WritesOnOk};
ghost use Rattle.std.specs.List.{flat_map};
ghost use Rattle.mt_recover.specs.ReportText.{line_text, named_values, report_text, with_text};

use crate::report::Report;
use mt_text::Value;
use std::fmt::{self, Display, Formatter, Write};

/// A value of a report, with its name.
type Named<'a> = (&'static str, Value<'a>);

impl Report {
    /// Returns its numbers with their names, in the order in which they are printed.
    pub fn values(&self) -> [Named<'_>; 16]
        ensures { (is_json : Bool) → map (with_text is_json) result ≡ named_values is_json self.now }
    {
        [
            ("logs", Value::Number(self.logs as u128)),
            ("writers", Value::Number(self.writers as u128)),
            ("records", Value::Number(self.records)),
            ("marks", Value::Number(self.marks)),
            ("torn", Value::Number(self.torn as u128)),
            ("cutoff", Value::Number(u128::from(self.cutoff))),
            ("checkpoint", Value::Perhaps(self.checkpoint)),
            ("begin", Value::Number(u128::from(self.begin))),
            ("skipped", Value::Numbers(&self.skipped)),
            ("nameless", Value::Positions(&self.nameless)),
            ("entries", Value::Number(self.entries)),
            ("survivors", Value::Number(self.survivors)),
            ("early", Value::Number(self.early)),
            ("late", Value::Number(self.late)),
            ("keys", Value::Number(self.keys)),
            ("layers", Value::Number(u128::from(self.layers))),
        ]
    }
}

/// Writes each number as a line `name=value`, in the order of `values`. A list is written as its numbers with commas
/// between them, or as `none`.
impl Display for Report {
    ghost output = { λ report. Some (report_text report) };

    fn fmt<W: Write>(&self, f: &mut Formatter<W>) -> fmt::Result {
        write_lines(&self.values(), f)
    }
}

/// Writes each value as a line `name=value`.
fn write_lines<W: Write>(values: &[Named<'_>], f: &mut Formatter<W>) -> fmt::Result
    ensures { WritesOnOk W.write_str_gives f.old result (flat_map line_text (map (with_text false) values.now)) f.new }
{
    for named in values {
        write_line(named, f)?;
    }
    Ok(())
}

/// Writes a value as a line `name=value`.
fn write_line<W: Write>(named: &Named<'_>, f: &mut Formatter<W>) -> fmt::Result
    ensures { WritesOnOk W.write_str_gives f.old result (line_text (with_text false named.now)) f.new }
{
    let (name, value) = named;
    writeln!(f, "{name}={value}")
}
