//! Laws: what holds for all logs and parts.
ghost use Rattle.std.specs.Prelude.{◌≡◌, ◌+◌, List, Option, ℕ, Contains};
ghost use Rattle.mt_words.specs.declared.fault.Fault.{Fault};
ghost use Rattle.mt_words.specs.declared.update.Update.{Update};
ghost use Rattle.mt_words.specs.Changes.{Logged};
ghost use Rattle.mt_words.specs.Walks.{Pair};
ghost use Rattle.mt_scan.specs.PartScans.{KnownPart};
ghost use Rattle.mt_scan.specs.Choice.{CheckpointReading, IsChosenOf};
ghost use Rattle.mt_replay.specs.Survivors.{log_updates};
ghost use Rattle.mt_replay.specs.Walk.{IsWalk};
ghost use Rattle.mt_replay.specs.Cells.{AreApart};
ghost use Rattle.mt_recover.specs.Recovery.{IsStoreOf, survivors};
ghost use Rattle.mt_recover.specs.Report.{Outcome, IsRecoveredOf};
ghost use Rattle.mt_recover.specs.Laws.{SaysTheSame};
ghost use Rattle.mt_recover.specs.Verdict.{IsVerdict};

/// States that no two updates of logs share a stamp, and that no two survivors of a key do, whichever checkpoint is
/// chosen. Given updates have at most one walk. This is a law: it has nothing to run.
pub fn one_walk()
    ensures apart { (logs : List (List Logged)) (a b : Update) →
        Contains (log_updates logs) a → Contains (log_updates logs) b → a.stamp ≡ b.stamp → a ≡ b }
    ensures survivors { (parts : List KnownPart) (cutoff : ℕ) (chosen : Option CheckpointReading) (logs : List (List Logged)) →
        IsChosenOf parts cutoff chosen → AreApart (survivors cutoff chosen logs) }
    ensures one { (updates : List Update) (pairs others : List Pair) →
        IsWalk updates pairs → IsWalk updates others → pairs ≡ others }
{}

/// States that logs and parts have at most one store and at most one fault, and never both. This is a law: it has
/// nothing to run.
pub fn one_verdict()
    ensures one_store { (logs parts : List (List ℕ)) (pairs others : List Pair) →
        IsStoreOf logs parts pairs → IsStoreOf logs parts others → pairs ≡ others }
    ensures one_fault { (logs parts : List (List ℕ)) (fault other : Fault) →
        IsVerdict logs parts fault → IsVerdict logs parts other → fault ≡ other }
    ensures not_both { (logs parts : List (List ℕ)) (pairs : List Pair) (fault : Fault) →
        IsStoreOf logs parts pairs → IsVerdict logs parts fault → ⊥ }
{}

/// States that logs and parts have at most one report, apart from where its lists are stored. The report adds up: each
/// complete record is a mark, or an update that is early, late or survives, and each entry of the chosen checkpoint
/// survives. This is a law: it has nothing to run.
pub fn one_report()
    ensures one { (logs parts : List (List ℕ)) (outcome other : Outcome) →
        IsRecoveredOf logs parts outcome → IsRecoveredOf logs parts other → SaysTheSame outcome.report other.report }
    ensures adds_up { (logs parts : List (List ℕ)) (outcome : Outcome) → IsRecoveredOf logs parts outcome →
        outcome.report.records + outcome.report.entries
        ≡ outcome.report.marks + outcome.report.early + outcome.report.late + outcome.report.survivors }
{}
