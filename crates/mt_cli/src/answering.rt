//! Answers a query, from the recovered store or by an audit.
ghost use Rattle.std.specs.Prelude.{◌≡◌, ◌++◌, None, List, ℕ, OnOk, codes, decimal, false};
ghost use Rattle.std.specs.Io.KnownBytes.{Appends};
ghost use Rattle.mt_text.specs.Forms.{IsDump};
ghost use Rattle.mt_text.specs.Pairs.{dump_text};
ghost use Rattle.mt_recover.specs.ReportText.{report_text};
ghost use Rattle.mt_cli.specs.Answers.{IsTextOf, IsAnswer};
ghost use Rattle.mt_cli.specs.Ranges.{range_of};

use crate::caveat::{Caveat, Losses};
use crate::closing::unless_closed;
use crate::halt::Halt;
use crate::host::{Host, Run};
use crate::progress::count_inputs;
use crate::request::{Question, Range, StoreQuery};
use crate::row::{Cell, write_row};
use mt_recover::{
    Clash, Cutting, Failure, Recovered, Refusal, Report, Store, audit, recover, write_dump,
};
use mt_text::{Fields, Form, Lines, Printer, Value, write_hex, write_pair};
use mt_words::Key;
use std::alloc::Global;
use std::io::{self, BufWriter, Write};
use std::{mem, str};

/// The size of the output buffer in bytes.
pub const PRINTED_AT_ONCE: usize = 65_536;

impl<'a, R: Host> Run<'a, R> {
    /// Prints the answer to a question, through a buffer.
    pub fn answer<O: Write, E: Write + Send>(
        &self,
        question: &Question,
        out: &mut O,
        err: &mut E,
    ) -> Result<Option<Caveat>, Halt<'a>> {
        match question {
            Question::Store(query) => self.recover_and_print(query, out, err),
            Question::History(how) => Ok(self.trace(how, out, err)?),
        }
    }

    /// Recovers the store, and prints what the query asks for, through a buffer. Then tells the losses on `err`, if they are
    /// to be told and no caveat does. The store is not freed: the process ends with its answer, and freeing a large store
    /// key by key takes a tenth of the time of its recovery.
    fn recover_and_print<O: Write, E: Write + Send>(
        &self,
        query: &StoreQuery,
        out: &mut O,
        err: &mut E,
    ) -> Result<Option<Caveat>, Halt<'a>> {
        let recovered = self.recover(err)?;
        let mut out = BufWriter::with_capacity(self.rt.alloc(), PRINTED_AT_ONCE, out)?;
        let caveat = print_answer(&recovered, query, &mut out)?;
        unless_closed(out.flush())?;
        let caveat = self.add_noted(query, caveat, recovered.report().writers, err)?;
        match (&caveat, query) {
            (Some(Caveat::Losses(_)), _) => {}
            (_, StoreQuery::Report { .. }) => self.folder.tell_reported(recovered.report(), err),
            _ => self.folder.tell_losses(Losses::of(recovered.report()), err),
        }
        mem::forget(recovered);
        Ok(caveat)
    }

    /// Tells after a report what is noted as lost, and of its number of writers. If it is strict, that is a caveat.
    fn add_noted<E: Write>(
        &self,
        query: &StoreQuery,
        caveat: Option<Caveat>,
        writers: usize,
        err: &mut E,
    ) -> Result<Option<Caveat>, Refusal<'static>> {
        match query {
            StoreQuery::Report {
                is_strict: true,
                ..
            } => self.tell_noted(caveat, writers, err),
            StoreQuery::Report { .. } => {
                self.tell_noted(None, writers, err)?;
                Ok(caveat)
            }
            _ => Ok(caveat),
        }
    }

    /// Recovers the store, and tells on `err` how far it has come.
    pub fn recover<E: Write + Send>(&self, err: &mut E) -> Result<Recovered, Refusal<'a>> {
        let pieces = self.folder.pieces.ok_or(Failure::Words)?;
        let mut rack = self.rack()?;
        let inputs = self.open_inputs(rack.slots())?;
        let meter = self.meter(1, pieces.count(), err);
        let alloc = self.rt.alloc();
        let inputs = count_inputs(alloc, inputs, &meter)?;
        let cutting = Cutting::Sampled(pieces);
        let recovered = recover(self.rt, alloc, inputs, self.folder.workers, cutting, &meter);
        meter.end();
        Ok(recovered?)
    }

    /// Audits the logs, and prints the line of each clash, or its JSON object, through a buffer.
    pub fn audit<O: Write, E: Write + Send>(
        &self,
        is_json: bool,
        out: &mut O,
        err: &mut E,
    ) -> Result<Option<Caveat>, Halt<'a>> {
        let mut rack = self.rack()?;
        let inputs = self.open_inputs(rack.slots())?;
        let meter = self.meter(1, 0, err);
        let inputs = count_inputs(self.rt.alloc(), inputs, &meter)?;
        let clashes = audit(self.rt, self.rt.alloc(), inputs, self.folder.workers);
        meter.end();
        let clashes = clashes?;
        let mut out = BufWriter::with_capacity(self.rt.alloc(), PRINTED_AT_ONCE, out)?;
        for clash in &clashes {
            if is_json {
                write_object(self.rt.alloc(), clash, &mut out)?;
            } else {
                write_clash(clash, &mut out)?;
            }
        }
        out.flush()?;
        Ok(None)
    }
}

/// Prints the line of a clash: the key in lowercase hexadecimal, a space, the version, a colon, and for each record a
/// space, its log, `/` and its number in the log.
fn write_clash<O: Write>(clash: &Clash, out: &mut O) -> io::Result<()> {
    write_hex(clash.key.as_bytes(), out)?;
    write!(out, " {}:", clash.version)?;
    for place in &clash.places {
        write!(out, " {}/{}", place.log, place.nth)?;
    }
    out.write_all(b"\n")
}

/// Prints a clash as a JSON object: the key, the version, and of each record its log and its number there.
fn write_object<O: Write>(
    alloc: Global,
    clash: &Clash,
    out: &mut O,
) -> Result<(), Refusal<'static>> {
    let mut key = Vec::new(alloc);
    write_hex(clash.key.as_bytes(), &mut key)?;
    let mut logs = Vec::with_capacity(alloc, clash.places.len())?;
    let mut records = Vec::with_capacity(alloc, clash.places.len())?;
    for place in &clash.places {
        logs.push(place.log)?;
        records.push(place.nth as usize)?;
    }
    let key = str::from_utf8(&key).unwrap_or("");
    Ok(write_places(key, clash.version, &logs, &records, out)?)
}

/// Prints the JSON object of a clash. Err: write error.
fn write_places<'x, O: Write>(
    key: &'x str,
    version: u64,
    logs: &'x [usize],
    records: &'x [usize],
    out: &mut O,
) -> io::Result<()> {
    let row = [
        ("key", Cell::Word(key)),
        ("version", Cell::Number(Some(version))),
        ("logs", Cell::Value(Value::Positions(logs))),
        ("records", Cell::Value(Value::Positions(records))),
    ];
    write_row(&row, true, out)
}

/// Prints what the query asks for of a recovered store. Does not flush the output.
pub fn print_answer<O: Write>(
    recovered: &Recovered,
    query: &StoreQuery,
    out: &mut O,
) -> Result<Option<Caveat>, Refusal<'static>>
    ensures answered { OnOk result (IsAnswer query.now recovered.now (O.contents out.old) (O.contents out.new)) }
{
    let store = recovered.store();
    match query {
        StoreQuery::Report { is_json, is_strict } => {
            print_report(recovered.report(), *is_json, out)?;
            if !*is_strict {
                return Ok(None);
            }
            Ok(Losses::of(recovered.report()).map(Caveat::Losses))
        }
        StoreQuery::Exists(key) => {
            let is_there = store.get(key.as_bytes()).is_some();
            Ok(if is_there { None } else { Some(Caveat::No) })
        }
        StoreQuery::Get(key, form) => {
            write_found(store, key, *form, out)?;
            Ok(None)
        }
        StoreQuery::Range(range, form) => {
            print_range(store, range, *form, out)?;
            Ok(None)
        }
        StoreQuery::Dump(form) => {
            print_dump(store, *form, out)?;
            Ok(None)
        }
        StoreQuery::Count => {
            print_count(recovered.report(), out)?;
            Ok(None)
        }
    }
}

/// Prints the report, as lines or as one JSON object.
fn print_report<O: Write>(report: &Report, is_json: bool, out: &mut O) -> io::Result<()>
    ensures { is_json ≡ false → OnOk result (Appends (O.contents out.old) (O.contents out.new) (report_text report.now)) }
{
    if !is_json {
        return write!(out, "{report}");
    }
    let mut line = Fields::new(out, is_json);
    for (name, value) in &report.values() {
        line.value(name, *value)?;
    }
    line.number("last", &report.last)?;
    line.number("version", &report.version)?;
    line.end()
}

/// Prints the number of keys.
fn print_count<O: Write>(report: &Report, out: &mut O) -> io::Result<()>
    ensures { OnOk result (Appends (O.contents out.old) (O.contents out.new) (decimal report.now.keys ++ codes "\n")) }
{
    writeln!(out, "{}", report.keys)
}

/// Prints the pair of the key, or that it is absent.
fn write_found<O: Write>(store: &Store, key: &Key, form: Form, out: &mut O) -> io::Result<()>
    ensures { IsDump form → OnOk result ((text : List ℕ) × IsTextOf key.now store.now text × Appends (O.contents out.old) (O.contents out.new) text) }
{
    let key = key.as_bytes();
    match store.get(key) {
        Some(columns) if form.is_dump() => write_pair(key, columns, out),
        Some(columns) => form.printer().write(key, columns, out),
        None => form.write_absent(out),
    }
}

/// Prints the pairs of a range.
fn print_range<O: Write>(
    store: &Store,
    range: &Range,
    form: Form,
    out: &mut O,
) -> Result<(), Refusal<'static>>
    ensures { IsDump form → range.now.columns ≡ None → OnOk result (Appends (O.contents out.old) (O.contents out.new) (dump_text (range_of range.now store.now))) }
{
    if form.is_dump() && range.columns.is_none() {
        return Ok(range.visit(store, &Lines, out)?);
    }
    let wanted = range.wanted().ok_or(Failure::Words)?;
    Ok(range.visit(store, &Printer { form, wanted }, out)?)
}

/// Prints all pairs.
fn print_dump<O: Write>(store: &Store, form: Form, out: &mut O) -> io::Result<()>
    ensures { IsDump form → OnOk result (Appends (O.contents out.old) (O.contents out.new) (dump_text store.now)) }
{
    if form.is_dump() {
        return write_dump(store, out);
    }
    store.visit(&form.printer(), out)
}
