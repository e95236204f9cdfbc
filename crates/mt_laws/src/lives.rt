//! Laws of a server that crashes, resumes and goes on, again and again.
ghost use Rattle.std.specs.Prelude.{◌≡◌, ◌⊎◌, ◌↔◌, ℕ, ◌-◌, ◌^◌, ◌<◌, None, Some, List, [], ◌∷◌, ◌++◌, map, Contains};
ghost use Rattle.std.specs.List.{AllZip};
ghost use Rattle.mt_words.specs.declared.record.Change.{Change};
ghost use Rattle.mt_words.specs.declared.update.Origin.{Origin};
ghost use Rattle.mt_words.specs.declared.update.Update.{Update};
ghost use Rattle.mt_words.specs.Changes.{Logged};
ghost use Rattle.mt_words.specs.Updates.{update_at};
ghost use Rattle.mt_words.specs.Walks.{Pair};
ghost use Rattle.mt_scan.specs.Choice.{CheckpointReading};
ghost use Rattle.mt_replay.specs.Survivors.{log_updates};
ghost use Rattle.mt_replay.specs.Walk.{IsWalk};
ghost use Rattle.mt_recover.specs.Recovery.{begin_of, survivors, IsStoreOf};
ghost use Rattle.mt_writer.specs.Files.{OpenFile};
ghost use Rattle.mt_laws.specs.Lives.{IsBehind, LogOf, there, deleted, those_there, as_written, history_of, updates_in, Checkpoints, IsNewOver, AddNew, IsLater, HaveTimestamps, MayComeNext, AreLeftOf, only, IsLeftOf, left_behind, running, down, Life};
ghost use Rattle.mt_laws.specs.Names.{AreNamesLeft};

/// States that in each life of a server over logs and checkpoints, after each crash, there is a store and no fault. It is
/// that of all updates below the cutoff that were written and that no resume dropped, those of deleted logs included, and
/// each update that was ever acknowledged is among them. The server can resume with these updates, or start afresh in a
/// new folder if the cutoff is not the greatest timestamp. Then, as in each state in which it runs, a new update can be
/// acknowledged. And there are such lives: one in which a log with an acknowledged update is deleted before a crash, and
/// one with two segments. This is a law: it has nothing to run.
pub fn a_life_of_crashes()
    ensures no_fault { (acked : List Update) (logs : List (LogOf (List Logged))) (left parts : List (List ℕ)) →
        Life (down acked logs left parts) → (pairs : List Pair) × IsStoreOf left parts pairs }
    ensures store { (acked : List Update) (logs : List (LogOf (List Logged))) (left parts : List (List ℕ)) (pairs : List Pair) →
        Life (down acked logs left parts) → (store : IsStoreOf left parts pairs) →
        IsWalk (survivors store.basis.facts.cutoff None (history_of logs)) pairs }
    ensures acknowledged { (acked : List Update) (logs : List (LogOf (List Logged))) (left parts : List (List ℕ)) (pairs : List Pair) →
        Life (down acked logs left parts) → (store : IsStoreOf left parts pairs) →
        (u : Update) → Contains acked u → Contains (survivors store.basis.facts.cutoff None (history_of logs)) u }
    ensures goes_on { (acked : List Update) (logs : List (LogOf (List Logged))) (left parts : List (List ℕ)) (pairs : List Pair) →
        Life (down acked logs left parts) → (store : IsStoreOf left parts pairs) →
        (after : List (LogOf OpenFile)) × Life (running acked after (only store.basis.facts.chosen)) ×
        ((u : Update) → Contains (updates_in after) u ↔ Contains (survivors store.basis.facts.cutoff None (history_of logs)) u) }
    ensures acknowledges { (acked : List Update) (logs : List (LogOf OpenFile)) (checkpoints : Checkpoints) (time : ℕ) (change : Change) →
        Life (running acked logs checkpoints) → MayComeNext acked (updates_in logs) checkpoints time change →
        (origin : Origin) × (after : List (LogOf OpenFile)) × Life (running (update_at origin time change ∷ acked) after checkpoints) }
    ensures afresh { (acked : List Update) (logs : List (LogOf (List Logged))) (left parts : List (List ℕ)) (pairs : List Pair) →
        Life (down acked logs left parts) → (store : IsStoreOf left parts pairs) → store.basis.facts.cutoff < 2 ^ 64 - 1 →
        (file : OpenFile) × (new : CheckpointReading) ×
        Life (running acked (map (left_behind store.basis.facts.cutoff) logs ++ there file ∷ []) (only (Some new))) }
    ensures some { (u : Update) × (old : List Logged) × Contains (log_updates (old ∷ [])) u × (logs : List (LogOf (List Logged))) × (left parts : List (List ℕ)) ×
        Life (down (u ∷ []) (deleted old ∷ logs) left parts) }
    ensures some_segments { (u : Update) × (first next : OpenFile) × IsBehind first next ×
        Life (running (u ∷ []) (there first ∷ there next ∷ []) (only None)) }
{}

/// States that a life goes on over any names that a crash loses of those that were made, and any files that it loses of
/// those that were deleted, since the folder was synced. What is left is of a life with the same acknowledged updates and
/// the same history; so also once the folder is synced and these files are deleted. This is a law: it has nothing to run.
pub fn a_crash_of_names()
    ensures crash { (acked : List Update) (before after : List (LogOf OpenFile)) (checkpoints : Checkpoints) (left parts : List (List ℕ)) →
        Life (running acked before checkpoints) → AreNamesLeft (begin_of checkpoints.base) before after →
        AllZip (IsLeftOf (those_there after)) (those_there after) left → AreLeftOf checkpoints parts →
        Life (down acked (map as_written after) left parts) }
    ensures deleted { (acked : List Update) (before after : List (LogOf OpenFile)) (checkpoints : Checkpoints) →
        Life (running acked before checkpoints) → AreNamesLeft (begin_of checkpoints.base) before after →
        Life (running acked after checkpoints) }
    ensures history { (begin : ℕ) (before after : List (LogOf OpenFile)) → AreNamesLeft begin before after →
        history_of (map as_written after) ≡ history_of (map as_written before) }
{}

/// States that a server whose versions are timestamps need not know the versions that it gave: an update that is later
/// than all before it, and than the end of each checkpoint, is new over each checkpoint. This is a law: it has nothing to
/// run.
pub fn versions_may_be_timestamps()
    ensures new { (updates : List Update) (checkpoints : Checkpoints) (u : Update) → HaveTimestamps (u ∷ updates) checkpoints →
        IsLater updates checkpoints u → (checkpoint : CheckpointReading) → Contains checkpoints.written checkpoint →
        IsNewOver updates checkpoint u }
    ensures all { (before after : List Update) (checkpoints : Checkpoints) → HaveTimestamps (before ++ after) checkpoints →
        ((u : Update) → Contains after u → Contains before u ⊎ IsLater before checkpoints u) →
        AddNew checkpoints before after }
{}
