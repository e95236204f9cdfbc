//! Logs and checkpoint parts to recover from.
ghost use Rattle.std.specs.Prelude.{◌≡◌, ◌≢◌, ◌++◌, ◌∷◌, [], List, Option, OnOk, IfOk};
ghost use Rattle.std.specs.List.{AllZip};
ghost use Rattle.mt_record.specs.LogFeeding.{FedLog as FedLogValue};
ghost use Rattle.mt_record.specs.PartFeeding.{FedPart as FedPartValue};
ghost use Rattle.mt_recover.specs.Fed.{Input, AreFed};
ghost use Rattle.mt_c.specs.Added.{none_added, with_log, with_part, IsLog, IsPart, AreAdded};
ghost use Rattle.mt_c.specs.Holding.{IsInput};
ghost use Rattle.mt_c.specs.Statuses.{IsOneOf, IsRefusedUnless};
ghost use Rattle.mt_c.specs.declared.held.Held.TheVariants as held;
ghost use Rattle.mt_c.specs.declared.status.TheConstants.{DONE, MEMORY, WRONG};

use crate::feeds::{FedLog, FedPart};
use crate::held::Held;
use crate::status::{DONE, MEMORY, WRONG};
use mt_recover::Fed;
use mt_words::Memory;
use std::alloc::Global;
use std::marker::Model;

/// Logs and parts to recover from, each in the order in which it was added. `None` stands for one whose device failed.
#[derive(Drop)]
pub struct Inputs {
    logs: Vec<Option<FedLog>>,
    parts: Vec<Option<FedPart>>,
}

impl Model for Inputs {
    ghost use Rattle.mt_c.specs.Added.{Added};

    ghost Value = { Added };

    ghost view = { λ i. record { logs = i.logs.items; parts = i.parts.items } };
}

impl Inputs {
    /// Creates inputs without a log or part.
    pub fn new(alloc: Global) -> Inputs
        ensures { result ≡ none_added }
    {
        Inputs {
            logs: Vec::new(alloc),
            parts: Vec::new(alloc),
        }
    }

    /// Appends the log or part in `input`. `WRONG`: it is neither. Not `DONE`: both are as before.
    pub fn add(&mut self, input: &mut Held) -> u32
        ensures log { (fed : Option FedLogValue) → input.old ≡ held.Log fed → result ≡ DONE → self.new ≡ with_log fed self.old }
        ensures part { (fed : Option FedPartValue) → input.old ≡ held.Part fed → result ≡ DONE → self.new ≡ with_part fed self.old }
        ensures kept { result ≢ DONE → (self.new ≡ self.old) × (input.new ≡ input.old) }
        ensures certain { IsOneOf (DONE ∷ MEMORY ∷ WRONG ∷ []) result }
        ensures refused { IsRefusedUnless (IsInput input.old) result }
    {
        match input {
            Held::Log(log) => match self.logs.push(log.take()) {
                Ok(()) => DONE,
                Err(refused) => {
                    *log = refused.value;
                    MEMORY
                }
            },
            Held::Part(part) => match self.parts.push(part.take()) {
                Ok(()) => DONE,
                Err(refused) => {
                    *part = refused.value;
                    MEMORY
                }
            },
            _ => WRONG,
        }
    }

    /// Finishes these logs and parts, of which all bytes were fed. Err: out of memory.
    pub fn finish(self, alloc: Global) -> Result<Fed, Memory>
        ensures { IfOk result (λ fed. (logs parts : List Input) → AreAdded logs parts self → AreFed logs parts fed) }
    {
        let Inputs { logs, parts } = self;
        let mut fed = Fed::new(alloc);
        finish_logs(logs, &mut fed)?;
        finish_parts(parts, &mut fed)?;
        Ok(fed)
    }
}

/// Appends these logs. Err: out of memory.
fn finish_logs(logs: Vec<Option<FedLog>>, fed: &mut Fed) -> Result<(), Memory>
    ensures { OnOk result ((before parts more : List Input) → AreFed before parts fed.old → AllZip IsLog more logs.items → AreFed (before ++ more) parts fed.new) }
{
    for log in logs {
        finish_log(log, fed)?;
    }
    Ok(())
}

/// Appends the log. Err: out of memory.
fn finish_log(log: Option<FedLog>, fed: &mut Fed) -> Result<(), Memory>
    ensures { (before parts : List Input) (input : Input) → AreFed before parts fed.old → IsLog input log → OnOk result (AreFed (before ++ input ∷ []) parts fed.new) }
{
    match log {
        Some(FedLog { feed }) => fed.add_log(feed),
        None => fed.fail_log(),
    }
}

/// Appends these parts. Err: out of memory.
fn finish_parts(parts: Vec<Option<FedPart>>, fed: &mut Fed) -> Result<(), Memory>
    ensures { OnOk result ((logs before more : List Input) → AreFed logs before fed.old → AllZip IsPart more parts.items → AreFed logs (before ++ more) fed.new) }
{
    for part in parts {
        finish_part(part, fed)?;
    }
    Ok(())
}

/// Appends the part. Err: out of memory.
fn finish_part(part: Option<FedPart>, fed: &mut Fed) -> Result<(), Memory>
    ensures { (logs before : List Input) (input : Input) → AreFed logs before fed.old → IsPart input part → OnOk result (AreFed logs (before ++ input ∷ []) fed.new) }
{
    match part {
        Some(FedPart { feed }) => fed.add_part(feed),
        None => fed.fail_part(),
    }
}
