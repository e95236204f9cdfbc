//! The law of starting afresh, from a checkpoint of a recovered store and one log.
ghost use Rattle.std.specs.Prelude.{◌≡◌, ℕ, ◌≤◌, ◌<◌, Some, List, [], ◌∷◌, ◌++◌, map, Contains};
ghost use Rattle.mt_words.specs.declared.fault.Fault.{Fault};
ghost use Rattle.mt_words.specs.declared.update.Update.{Update};
ghost use Rattle.mt_words.specs.Walks.{Pair};
ghost use Rattle.mt_record.specs.Logs.{LogReading, IsReading};
ghost use Rattle.mt_checkpoint.specs.Checkpoints.{Checkpoint, HasPairs, log_reading};
ghost use Rattle.mt_replay.specs.Walk.{IsWalk};
ghost use Rattle.mt_scan.specs.Choice.{CheckpointReading};
ghost use Rattle.mt_recover.specs.Recovery.{AreReadings, Facts, survivors, records_of, IsStoreOf};
ghost use Rattle.mt_recover.specs.Report.{Outcome, IsRecoveredOf};
ghost use Rattle.mt_recover.specs.Verdict.{IsVerdict};
ghost use Rattle.mt_writer.specs.Files.{OpenFile};
ghost use Rattle.mt_writer.specs.Journals.{Journal, file_of};
ghost use Rattle.mt_laws.specs.Lives.{LogOf, only, IsFreshStart};
ghost use Rattle.mt_laws.specs.Writing.{Server, writing, left_slot, IsCrashOf, AreStops, IsWithin, Called};
ghost use Rattle.mt_laws.specs.Fresh.{AreAllParts, reading_with, log_file, IsFresh, GoOnAfter, surviving, updates_after, AreAbove};

/// States that a recovered store that is written as a checkpoint and its log is recovered from these files alone: the
/// same store and no fault, whatever the checkpoint's number, cutoff and version, however the pairs are split into parts,
/// and in whatever order and format the parts come. The checkpoint is chosen, and the cutoff is one above its own.
///
/// It also states what comes after, if the checkpoint's version is at least the report's `version_below_cutoff`. Logs with
/// which a server goes on have a store, and no fault. If each of their updates from the checkpoint's cutoff on has a version
/// above the checkpoint's, the store is that of the updates that survived before and of theirs, as if they had followed. At
/// the cutoff of the recovery, the files are a fresh start as `a_life_of_crashes` takes it. This is a law: it has nothing
/// to run.
pub fn a_fresh_start_is_the_same_store()
    ensures store { (logs parts files : List (List ℕ)) (log : List ℕ) (pairs : List Pair) (checkpoint : Checkpoint) →
        IsStoreOf logs parts pairs → HasPairs pairs checkpoint → AreAllParts checkpoint files → IsReading log (log_reading checkpoint) →
        IsStoreOf (log ∷ []) files pairs }
    ensures no_fault { (logs parts files : List (List ℕ)) (log : List ℕ) (pairs : List Pair) (checkpoint : Checkpoint) (fault : Fault) →
        IsStoreOf logs parts pairs → HasPairs pairs checkpoint → AreAllParts checkpoint files → IsReading log (log_reading checkpoint) →
        IsVerdict (log ∷ []) files fault → ⊥ }
    ensures same { (logs parts files : List (List ℕ)) (log : List ℕ) (pairs : List Pair) (checkpoint : Checkpoint) (outcome : Outcome) →
        IsStoreOf logs parts pairs → HasPairs pairs checkpoint → AreAllParts checkpoint files → IsReading log (log_reading checkpoint) →
        IsRecoveredOf (log ∷ []) files outcome → IsFresh pairs checkpoint outcome }
    ensures some { (logs parts later files : List (List ℕ)) (readings : List LogReading) (pairs : List Pair) (checkpoint : Checkpoint) →
        IsStoreOf logs parts pairs → HasPairs pairs checkpoint → AreAllParts checkpoint files →
        AreReadings later readings → GoOnAfter checkpoint readings → (others : List Pair) × IsStoreOf later files others }
    ensures goes_on { (logs parts later files : List (List ℕ)) (before after : Outcome) (checkpoint : Checkpoint) →
        (was : IsRecoveredOf logs parts before) → HasPairs before.store checkpoint →
        before.report.version_below_cutoff ≤ checkpoint.version → AreAllParts checkpoint files →
        (is : IsRecoveredOf later files after) → checkpoint.cutoff < after.report.cutoff →
        AreAbove checkpoint (updates_after checkpoint is.store.basis.facts) →
        IsWalk (surviving was.store.basis.facts ++ updates_after checkpoint is.store.basis.facts) after.store }
    ensures step { (logs parts : List (List ℕ)) (before : Outcome) (checkpoint : Checkpoint) →
        (was : IsRecoveredOf logs parts before) → HasPairs before.store checkpoint →
        checkpoint.cutoff ≡ before.report.cutoff → before.report.version_below_cutoff ≤ checkpoint.version →
        IsFreshStart was.store.basis.facts (log_file checkpoint) (reading_with checkpoint before.store) }
{}

/// States that a server with one clock for timestamps and versions, as a keeper's, may start afresh. After any crash, and any
/// stops of a resume, each survivor has a version below the cutoff, and the report's `version_below_cutoff` is at most the
/// cutoff. A fresh start whose entries have a version of at most the cutoff is within its checkpoint's end, and the server
/// that goes on with it has the promise again. This is a law: it has nothing to run.
pub fn a_fresh_start_goes_on()
    ensures versions { (s : Server) (names : List (LogOf OpenFile)) (left parts now now_parts : List (List ℕ)) (facts : Facts now now_parts) → Called s →
        IsCrashOf s names left parts → AreStops left parts now now_parts → (u : Update) →
        Contains (survivors facts.cutoff facts.chosen (records_of facts.readings)) u → u.stamp.version < facts.cutoff }
    ensures reported { (s : Server) (names : List (LogOf OpenFile)) (left parts now now_parts : List (List ℕ)) (outcome : Outcome) → Called s →
        IsCrashOf s names left parts → AreStops left parts now now_parts → IsRecoveredOf now now_parts outcome →
        outcome.report.version_below_cutoff ≤ outcome.report.cutoff }
    ensures within { (left parts : List (List ℕ)) (facts : Facts left parts) (file : OpenFile) (new : CheckpointReading) →
        (start : IsFreshStart facts file new) → start.version ≤ facts.cutoff → IsWithin new }
    ensures called { (s : Server) (names : List (LogOf OpenFile)) (left parts now now_parts : List (List ℕ)) (facts : Facts now now_parts) (j : Journal)
        (new : CheckpointReading) (clock : ℕ) (places : List ℕ) → Called s → IsCrashOf s names left parts → AreStops left parts now now_parts →
        (start : IsFreshStart facts (file_of j) new) → start.version ≤ facts.cutoff → facts.cutoff ≤ clock →
        Called (record { clock = clock; acked = s.acked; slots = map (left_slot facts.cutoff) names ++ writing j ∷ []; places = places; checkpoints = only (Some new) }) }
{}
