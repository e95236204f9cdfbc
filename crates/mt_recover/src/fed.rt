//! Recovery of logs and checkpoint parts that the caller reads and feeds itself.
ghost use Rattle.std.specs.Prelude.{◌≡◌, ◌<◌, ◌≤◌, ◌++◌, [], ◌∷◌, List, ℕ, Some, None, length, IfOk, OnOk, OnErr, All, IsSome};
ghost use Rattle.mt_record.specs.LogFeeding.{IsLogFed};
ghost use Rattle.mt_record.specs.PartFeeding.{IsPartFed};
ghost use Rattle.mt_recover.specs.Fed.{Input, AreFed, seen_fed};
ghost use Rattle.mt_recover.specs.Inputs.{IsAnswerFrom, IsRecoveryFrom};
ghost use Rattle.mt_recover.specs.Steps.Outcomes.{AreAllOk, AreOutcomes};
ghost use Rattle.mt_recover.specs.Tasks.{IsDividingOf, divide_tasks};
ghost use Rattle.mt_scan.specs.Sources.{Seen};

use crate::dividing::{DivideTask, Dividing};
use crate::found::find;
use crate::recovery::{Recovered, recover_scanned};
use crate::scans::Outcomes;
use crate::workers::Workers;
use mt_record::{KeptEntries, KeptRecords, LogFeed, PartFeed};
use mt_replay::Pieces;
use mt_scan::{finish_log, finish_part};
use mt_words::{Fault, Memory};
use std::alloc::Global;
use std::marker::Model;

/// Logs and checkpoint parts that were fed, instead of `Inputs`. The number of a log is its position among the logs, and
/// so for parts. Its scans are held, and not its bytes.
#[derive(Drop)]
pub struct Fed {
    outcomes: Outcomes,
}

impl Model for Fed {
    ghost use Rattle.std.specs.Prelude.{List};
    ghost use Rattle.mt_recover.specs.Fed.{Answers, AreFed, Input};

    ghost Value = { Answers };

    ghost view = { λ f. record { logs = f.outcomes.logs.items; parts = f.outcomes.parts.items } };

    ghost invariant = { λ f. (logs parts : List Input) × AreFed logs parts (record { logs = f.outcomes.logs.items; parts = f.outcomes.parts.items }) };
}

impl Fed {
    /// Creates inputs without a log or part.
    pub fn new(alloc: Global) -> Fed
        ensures { AreFed [] [] result }
    {
        Fed {
            outcomes: Outcomes {
                logs: Vec::new(alloc),
                parts: Vec::new(alloc),
            },
        }
    }

    /// Appends the next log, of which the feed has had all bytes. Err: out of memory; then nothing is appended.
    pub fn add_log(&mut self, feed: LogFeed<KeptRecords>) -> Result<(), Memory>
        requires { (bytes : List ℕ) × IsLogFed feed bytes [] }
        ensures added { (logs parts : List Input) (bytes : List ℕ) → AreFed logs parts self.old → IsLogFed feed bytes [] →
            OnOk result (AreFed (logs ++ Some bytes ∷ []) parts self.new) }
        ensures memory { OnErr result (self.new ≡ self.old) }
    {
        let log = self.outcomes.logs.len();
        self.outcomes.logs.push(finish_log(feed, log))?;
        Ok(())
    }

    /// Appends the next part, of which the feed has had all bytes. Err: out of memory; then nothing is appended.
    pub fn add_part(&mut self, feed: PartFeed<KeptEntries>) -> Result<(), Memory>
        requires { (bytes : List ℕ) × IsPartFed feed bytes }
        ensures added { (logs parts : List Input) (bytes : List ℕ) → AreFed logs parts self.old → IsPartFed feed bytes →
            OnOk result (AreFed logs (parts ++ Some bytes ∷ []) self.new) }
        ensures memory { OnErr result (self.new ≡ self.old) }
    {
        self.outcomes.parts.push(finish_part(feed))?;
        Ok(())
    }

    /// Appends the next log, whose device failed. Err: out of memory; then nothing is appended.
    pub fn fail_log(&mut self) -> Result<(), Memory>
        ensures added { (logs parts : List Input) → AreFed logs parts self.old →
            OnOk result (AreFed (logs ++ None ∷ []) parts self.new) }
        ensures memory { OnErr result (self.new ≡ self.old) }
    {
        let log = self.outcomes.logs.len();
        self.outcomes.logs.push(Err(Fault::Source { log }))?;
        Ok(())
    }

    /// Appends the next part, whose device failed. Err: out of memory; then nothing is appended.
    pub fn fail_part(&mut self) -> Result<(), Memory>
        ensures added { (logs parts : List Input) → AreFed logs parts self.old →
            OnOk result (AreFed logs (parts ++ None ∷ []) self.new) }
        ensures memory { OnErr result (self.new ≡ self.old) }
    {
        let part = self.outcomes.parts.len();
        self.outcomes.parts.push(Err(Fault::PartSource { part }))?;
        Ok(())
    }

    /// Recovers the same store and report as `recover_one` does from sources with these bytes, on one thread.
    ///
    /// Err: the same as for `recover_one`. `Source` and `PartSource` blame only a log or part whose device failed.
    pub fn recover(self, alloc: Global) -> Result<Recovered, Fault>
        ensures recovery { (logs parts : List Input) → AreFed logs parts self → IsRecoveryFrom seen_fed logs parts result }
        ensures whole { (logs parts : List Input) → AreFed logs parts self → OnOk result (All IsSome logs × All IsSome parts) }
    {
        let Fed { outcomes } = self;
        if outcomes.logs.is_empty() {
            return Err(Fault::NoLogs);
        }
        recover_scanned(alloc, outcomes)
    }

    /// Begins the same recovery for threads of the caller. It has at most one task for each worker, and cuts the keys into
    /// at most `most` pieces. Once all tasks are done, `Dividing::replay` makes those of the second step, and then
    /// `Replaying::finish` makes the store. Neither the workers nor the pieces change the result.
    ///
    /// Err: the same as for `recover`.
    pub fn divide(
        self,
        alloc: Global,
        workers: Workers,
        most: Pieces,
    ) -> Result<(Dividing, Vec<DivideTask>), Fault>
        ensures divided { (logs parts : List Input) → AreFed logs parts self → IsAnswerFrom seen_fed logs parts (λ ls ps made. IsDividingOf ls ps made.0) result }
        ensures tasks { IfOk result (λ made. made.1.items ≡ divide_tasks made.0) }
        ensures few { IfOk result (λ made. length made.1.items ≤ workers) }
        ensures pieces { IfOk result (λ made. length made.0.cuts < most) }
        ensures whole { (logs parts : List Input) → AreFed logs parts self → OnOk result (All IsSome logs × All IsSome parts) }
    {
        let Fed { outcomes } = self;
        if outcomes.logs.is_empty() {
            return Err(Fault::NoLogs);
        }
        divide_scanned(alloc, outcomes, workers, most)
    }
}

/// Begins recovery from these answers of the scans, for threads of the caller.
fn divide_scanned(
    alloc: Global,
    outcomes: Outcomes,
    workers: Workers,
    most: Pieces,
) -> Result<(Dividing, Vec<DivideTask>), Fault>
    requires { (logs parts : List Seen) × AreOutcomes logs parts outcomes }
    ensures divided { (logs parts : List Seen) → AreOutcomes logs parts outcomes → IsAnswerFrom (λ seen. seen) logs parts (λ ls ps made. IsDividingOf ls ps made.0) result }
    ensures tasks { IfOk result (λ made. made.1.items ≡ divide_tasks made.0) }
    ensures few { IfOk result (λ made. length made.1.items ≤ workers) }
    ensures pieces { IfOk result (λ made. length made.0.cuts < most) }
    ensures whole { OnOk result (AreAllOk outcomes) }
{
    let found = find(alloc, outcomes)?;
    Ok(Dividing::of(alloc, found, workers, most)?)
}
