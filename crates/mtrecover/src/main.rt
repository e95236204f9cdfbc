//! Recovers the store of a folder and answers queries on it; audits its logs, checks its files; prints or cuts one of them.
#![tactic(auto)]

use mt_cli::run;
use std::process::ExitCode;

fn main(rt: HostRuntime) -> ExitCode {
    ExitCode::from(run(&rt, &mut rt.stdin(), &mut rt.stdout(), &mut rt.stderr()))
}
