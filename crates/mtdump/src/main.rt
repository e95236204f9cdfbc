//! Prints the store of log files. The arguments after the name of the program are the names of the files, unless the first
//! asks for help or the version.
#![tactic(auto)]

use mt_recover::{Failure, Refusal, dump_files};
use std::env;
use std::io::{self, BufWriter, ErrorKind, Write};
use std::process::ExitCode;

const HELP: &str = "\
Recovers the store of logs, without checkpoints, and prints its keys

Usage: mtdump <FILE> [FILE ...]

Arguments:
  <FILE>  A log (.mtl). Messages call the first file log 0, the next one log 1

Options, as the first argument:
      --help     Print help
      --version  Print version

Every other argument is a file name. Write ./--help for a file of this name.

Example: mtdump examples/a.mtl examples/b.mtl
";

const VERSION: &str = "mtdump 3.0.0 (file formats 1 to 4)\n";

fn main(rt: HostRuntime) -> ExitCode {
    let status = match run(&rt) {
        Ok(status) => status,
        Err(error) => Refusal::of(Failure::Words, error).tell("mtdump", &mut rt.stderr()),
    };
    ExitCode::from(status)
}

/// Runs the program and returns its exit status. Err: the arguments cannot be read, for example because one is not
/// UTF-8; or out of memory.
fn run(rt: &HostRuntime) -> io::Result<u8> {
    let alloc = rt.alloc();
    let names: Vec<String> = env::args(rt)?.skip(1).collect(alloc)?;
    let mut out = BufWriter::new(alloc, Closable { out: rt.stdout() })?;
    let mut err = rt.stderr();
    Ok(match names.first().map(String::as_str) {
        Some("--help") => print(HELP, &mut out, &mut err),
        Some("--version") => print(VERSION, &mut out, &mut err),
        _ => dump_files(rt, names.as_slice(), &mut out, &mut err),
    })
}

/// An output that its reader may close early, as `head` does once it has its lines. What comes after that is dropped.
#[derive(Drop)]
struct Closable<O> {
    out: O,
}

impl<O: Write> Write for Closable<O> {
    fn write(&mut self, buf: &[u8]) -> io::Result<usize> {
        match self.out.write(buf) {
            Err(error) if error.kind() == ErrorKind::BrokenPipe => Ok(buf.len()),
            written => written,
        }
    }

    fn flush(&mut self) -> io::Result<()> {
        match self.out.flush() {
            Err(error) if error.kind() == ErrorKind::BrokenPipe => Ok(()),
            flushed => flushed,
        }
    }
}

/// Prints a text and returns the exit status.
fn print<O: Write, E: Write>(text: &str, out: &mut O, err: &mut E) -> u8 {
    if out.write_all(text.as_bytes()).is_err() || out.flush().is_err() {
        return Refusal::from(Failure::Output).tell("mtdump", err);
    }
    0
}
