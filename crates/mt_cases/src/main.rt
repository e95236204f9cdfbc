//! Tries the cases of the files that its arguments name. Its status is 0 if every case ends as it must and at least one
//! holds, else 1. cases/README.md describes the files. Begin with `telling.rt` and `trying.rt`.
#![tactic(auto)]

mod answer;
mod blocks;
mod case;
mod draft;
mod mistake;
mod passes;
mod records;
mod source;
mod telling;
mod trying;
mod words;

use crate::telling::{Counts, Teller};
use std::io::{self, Write};
use std::process::ExitCode;
use std::{env, fs};

fn main(rt: HostRuntime) -> io::Result<ExitCode> {
    let mut teller = Teller::new(rt.alloc());
    for name in env::args(&rt)?.skip(1) {
        match fs::read_to_string(&rt, name.as_str()) {
            Ok(text) => teller.try_text(&rt, name.as_str(), text.as_str())?,
            Err(_) => teller.tell_unread(name.as_str())?,
        }
    }
    let Counts { held, wrong, .. } = teller.finish()?;
    rt.stdout().write_all(&teller.out)?;
    rt.stderr().write_all(&teller.err)?;
    Ok(ExitCode::from(u8::from(wrong > 0 || held == 0)))
}
