//! Laws of checkpoints that were written while updates went on.
ghost use Rattle.std.specs.Prelude.{◌≡◌, ◌≤◌, ◌<◌, ◌↔◌, List, Option, Some, None, ℕ, Contains};
ghost use Rattle.mt_words.specs.declared.update.Update.{Update};
ghost use Rattle.mt_words.specs.Changes.{Logged};
ghost use Rattle.mt_words.specs.Walks.{Pair};
ghost use Rattle.mt_record.specs.Logs.{LogReading};
ghost use Rattle.mt_scan.specs.Choice.{CheckpointReading};
ghost use Rattle.mt_replay.specs.Survivors.{log_updates};
ghost use Rattle.mt_replay.specs.Walk.{IsWalk};
ghost use Rattle.mt_recover.specs.Recovery.{begin_of, survivors, records_of, IsStoreOf};
ghost use Rattle.mt_laws.specs.Crashes.{IsCrash, AreSyncedBeyond, IsSound, since, StandFor};

/// States that recovery over a sound checkpoint that ends below the cutoff makes the same store as recovery of the whole
/// logs without a checkpoint. This is a law: it has nothing to run.
pub fn a_sound_checkpoint_changes_nothing()
    ensures { (logs : List (List Logged)) (cutoff : ℕ) (checkpoint : CheckpointReading) (pairs : List Pair) →
        checkpoint.end < cutoff → IsSound (log_updates logs) checkpoint →
        IsWalk (survivors cutoff (Some checkpoint) logs) pairs ↔ IsWalk (survivors cutoff None logs) pairs }
{}

/// States that logs with the same updates from the chosen checkpoint's begin on make the same store up to the same
/// cutoff. So earlier updates may be deleted, and so may logs that have no others, if the rest keeps its order. This is
/// a law: it has nothing to run.
pub fn old_records_may_go()
    ensures { (kept full : List (List Logged)) (cutoff : ℕ) (chosen : Option CheckpointReading) (pairs : List Pair) →
        since (begin_of chosen) kept ≡ since (begin_of chosen) full →
        IsWalk (survivors cutoff chosen kept) pairs ↔ IsWalk (survivors cutoff chosen full) pairs }
{}

/// States that the store after a crash is that of all updates ever written below the cutoff, if the kept logs and the
/// chosen checkpoint stand for these. If each log was synced beyond `time`, each update up to `time` is among them.
/// This is a law: it has nothing to run.
pub fn acknowledged_is_in_the_history()
    ensures store { (left parts : List (List ℕ)) (kept : List LogReading) (full : List (List Logged)) (pairs : List Pair) →
        IsCrash left kept → (store : IsStoreOf left parts pairs) →
        StandFor store.basis.facts.chosen (records_of kept) full →
        IsWalk (survivors store.basis.facts.cutoff None full) pairs }
    ensures acknowledged { (left parts : List (List ℕ)) (full : List (List Logged)) (pairs : List Pair) (time : ℕ) →
        (store : IsStoreOf left parts pairs) → AreSyncedBeyond time left →
        (u : Update) → Contains (log_updates full) u → u.timestamp ≤ time →
        Contains (survivors store.basis.facts.cutoff None full) u }
{}
