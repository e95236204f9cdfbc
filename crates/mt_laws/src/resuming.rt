//! Laws of resuming in place after a crash: of every state on the way, and of what comes after.
ghost use Rattle.std.specs.Prelude.{◌≡◌, ◌<◌, ◌^◌, if◌then◌else◌, List, Option, ℕ, Contains, IsPermutation};
ghost use Rattle.std.specs.List.{AllZip};
ghost use Rattle.mt_words.specs.declared.update.Update.{Update};
ghost use Rattle.mt_words.specs.Walks.{Pair};
ghost use Rattle.mt_record.specs.Logs.{LogReading, IsReading};
ghost use Rattle.mt_record.specs.LogTexts.{IsLast};
ghost use Rattle.mt_scan.specs.PartScans.{KnownPart};
ghost use Rattle.mt_scan.specs.Choice.{CheckpointReading, IsChosenOf};
ghost use Rattle.mt_replay.specs.Survivors.{log_updates};
ghost use Rattle.mt_recover.specs.Recovery.{AreReadings, Facts, records_of, IsStoreOf};
ghost use Rattle.mt_record.specs.Resuming.{greatest_timestamp, is_ended, resumed, IsResumed, Replaces};
ghost use Rattle.mt_laws.specs.Resuming.{IsReplaced, IsOnTheWay, FindTheSame, AreDeleting, NoneBecomesValid, IsResume, IsContinued, GoesOnFrom};

/// States that what replaces a log is a log. Its last timestamp is the cutoff or, if the log was ended, the greatest one:
/// no log claims more than the cutoff, and an ended log holds back nothing. Replacing it again changes nothing. A file of
/// any format says what replaces the log of the file that it replaces. This is a law: it has nothing to run.
pub fn a_resumed_log_is_a_log()
    ensures reading { (before after : List ℕ) (log : LogReading) (cutoff : ℕ) → cutoff < 2 ^ 64 →
        IsReading before log → IsResumed cutoff before after → IsReading after (resumed cutoff log) }
    ensures last { (log : LogReading) (cutoff last : ℕ) → cutoff < 2 ^ 64 → IsLast (resumed cutoff log) last →
        last ≡ (if is_ended log.records then greatest_timestamp else cutoff) }
    ensures again { (log : LogReading) (cutoff : ℕ) → resumed cutoff (resumed cutoff log) ≡ resumed cutoff log }
    ensures file { (before after : List ℕ) (cutoff salt workers : ℕ) → cutoff < 2 ^ 64 → Replaces cutoff salt workers before after →
        IsReplaced cutoff before after }
{}

/// States that every state on the way of a resume has the same store, with the same cutoff, chosen checkpoint and
/// survivors. So it has no fault, and resuming from it leads to the same logs as from the start: it may stop, and begin
/// again, at any step. This is a law: it has nothing to run.
pub fn resuming_changes_nothing()
    ensures store { (logs parts now left : List (List ℕ)) (pairs : List Pair) →
        (store : IsStoreOf logs parts pairs) → IsOnTheWay store.basis.facts now left → IsStoreOf now left pairs }
    ensures same { (logs parts now left : List (List ℕ)) (pairs : List Pair) →
        (store : IsStoreOf logs parts pairs) → IsOnTheWay store.basis.facts now left →
        (after : Facts now left) → FindTheSame store.basis.facts after }
    ensures again { (logs parts now left after : List (List ℕ)) (pairs : List Pair) →
        (store : IsStoreOf logs parts pairs) → IsOnTheWay store.basis.facts now left →
        (found : Facts now left) → AllZip (IsReplaced found.cutoff) now after →
        AllZip (IsReplaced store.basis.facts.cutoff) logs after }
{}

/// States that recovery finds the same cutoff and chooses the same checkpoint in whatever order the logs are. This is a
/// law: it has nothing to run.
pub fn logs_may_come_in_any_order()
    ensures { (logs others parts : List (List ℕ)) (facts : Facts logs parts) (after : Facts others parts) → IsPermutation logs others →
        (after.cutoff ≡ facts.cutoff) × (after.chosen ≡ facts.chosen) }
{}

/// States that no checkpoint becomes valid while the parts of those that are not chosen are deleted by the rule: where
/// there are more parts with a number than some complete one names, a broken part with the number is there until all
/// others are gone. So each state is as `resuming_changes_nothing` asks. This is a law: it has nothing to run.
pub fn deleting_makes_no_checkpoint_valid()
    ensures { (before after : List KnownPart) (cutoff : ℕ) (chosen : Option CheckpointReading) →
        IsChosenOf before cutoff chosen → AreDeleting chosen before after → NoneBecomesValid chosen before after }
{}

/// States that after a whole resume new records only add to what survived. The cutoff does not fall. What survives next
/// is what survived, and of the updates at or past the old cutoff those below the new one; none of these is an update
/// that the resume dropped. This is a law: it has nothing to run.
pub fn an_update_after_a_resume()
    ensures goes_on { (logs parts resumed later left : List (List ℕ)) (pairs : List Pair) →
        (store : IsStoreOf logs parts pairs) → IsResume store.basis.facts resumed left →
        AllZip IsContinued resumed later →
        (now : Facts later left) → GoesOnFrom store.basis.facts now }
    ensures dropped { (logs parts resumed left : List (List ℕ)) (readings : List LogReading) (pairs : List Pair) →
        (store : IsStoreOf logs parts pairs) → IsResume store.basis.facts resumed left →
        AreReadings resumed readings →
        (u : Update) → Contains (log_updates (records_of readings)) u → u.timestamp < store.basis.facts.cutoff }
{}
