//! Laws of logs that a crash cut. Only the first law speaks of segments of workers' logs too.
ghost use Rattle.std.specs.Prelude.{◌≡◌, ◌≤◌, ◌<◌, List, Option, ℕ, Contains};
ghost use Rattle.mt_words.specs.declared.update.Update.{Update};
ghost use Rattle.mt_words.specs.Walks.{Pair};
ghost use Rattle.mt_record.specs.Logs.{LogReading, IsReading};
ghost use Rattle.mt_scan.specs.Choice.{CheckpointReading};
ghost use Rattle.mt_scan.specs.Cutoff.{HasLast, IsCutoff};
ghost use Rattle.mt_replay.specs.Survivors.{log_updates};
ghost use Rattle.mt_replay.specs.Walk.{IsWalk};
ghost use Rattle.mt_scan.specs.Segments.{IsGap};
ghost use Rattle.mt_recover.specs.Recovery.{AreReadings, begin_of, survivors, records_of, IsStoreOf};
ghost use Rattle.mt_writer.specs.Files.{IsCutFileOf};
ghost use Rattle.mt_laws.specs.Crashes.{SaysBeginning, IsCrash, AreSyncedBeyond};

/// States that a beginning of a log's text, if it has the whole header, is a log with the same header, whose records are a
/// beginning of the log's, whatever follows it. This is a law: it has nothing to run.
pub fn a_cut_log_is_a_log()
    ensures { (left written : List ℕ) (log : LogReading) →
        IsReading written log → IsCutFileOf left written → SaysBeginning left log }
{}

/// States that if no log that a crash left has a gap, exactly the updates survive that survive of the logs as they were
/// written, up to the same cutoff. So the store after the crash is the walk of these. This is a law: it has nothing to
/// run.
pub fn a_crash_loses_nothing_below_the_cutoff()
    ensures survivors { (left : List (List ℕ)) (histories readings : List LogReading) (cutoff : ℕ) (chosen : Option CheckpointReading) →
        IsCrash left histories → AreReadings left readings → IsCutoff readings cutoff →
        ((i : ℕ) → IsGap (begin_of chosen) readings i → ⊥) →
        survivors cutoff chosen (records_of readings) ≡ survivors cutoff chosen (records_of histories) }
    ensures store { (left parts : List (List ℕ)) (histories : List LogReading) (pairs : List Pair) →
        IsCrash left histories → (store : IsStoreOf left parts pairs) →
        IsWalk (survivors store.basis.facts.cutoff store.basis.facts.chosen (records_of histories)) pairs }
{}

/// States that if what a crash left of each log has a last timestamp above `time`, each update of the written logs from
/// the chosen checkpoint's begin up to `time` survives. So it is if each log was synced up to such a timestamp. This is a
/// law: it has nothing to run.
pub fn acknowledged_is_safe()
    ensures synced { (left : List (List ℕ)) (readings : List LogReading) (time : ℕ) →
        AreReadings left readings → AreSyncedBeyond time left →
        (last : ℕ) → HasLast readings last → time < last }
    ensures survives { (left parts : List (List ℕ)) (histories : List LogReading) (pairs : List Pair) (time : ℕ) →
        IsCrash left histories → (store : IsStoreOf left parts pairs) →
        ((last : ℕ) → HasLast store.basis.facts.readings last → time < last) →
        (u : Update) → Contains (log_updates (records_of histories)) u →
        begin_of store.basis.facts.chosen ≤ u.timestamp → u.timestamp ≤ time →
        Contains (survivors store.basis.facts.cutoff store.basis.facts.chosen (records_of store.basis.facts.readings)) u }
{}
