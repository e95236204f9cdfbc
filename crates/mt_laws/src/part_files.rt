//! Laws of the files of parts: what a crash leaves of them, and that they may be written, stood on, deleted, and left by a
//! resume or a fresh start.
ghost use Rattle.std.specs.Prelude.{◌≡◌, false, ℕ, Some, None, List, [], ◌++◌, Contains};
ghost use Rattle.mt_words.specs.Walks.{Pair};
ghost use Rattle.mt_checkpoint.specs.Checkpoints.{Checkpoint, HasPairs};
ghost use Rattle.mt_scan.specs.Choice.{CheckpointReading, IsValid};
ghost use Rattle.mt_recover.specs.Recovery.{Facts, IsStoreOf};
ghost use Rattle.mt_laws.specs.Lives.{Checkpoints, AreLeftOf, only};
ghost use Rattle.mt_laws.specs.Fresh.{AreAllParts, reading_with};
ghost use Rattle.mt_laws.specs.PartFiles.{PartFile, bytes_of, AllSynced, IsNoPartOf, AreKept, IsSyncedIn, AreFilesOf, AreNewFiles, AreChosenFiles};

/// States that what a crash leaves of the files of parts is as `a_life_of_crashes` asks: no checkpoint becomes valid that
/// was not, and the one that the server stands on stays valid. This is a law: it has nothing to run.
pub fn a_crash_makes_no_checkpoint_valid()
    ensures { (checkpoints : Checkpoints) (files left : List PartFile) →
        AreFilesOf checkpoints files → AreKept (λ file. file.synced ≡ false) files left → AreLeftOf checkpoints (bytes_of left) }
{}

/// States that the files of parts stay as `a_crash_makes_no_checkpoint_valid` asks while the parts of a further checkpoint
/// come, of a number above that of each part in the folder: no other checkpoint changes. This is a law: it has nothing to
/// run.
pub fn a_checkpoint_written_while_running()
    ensures { (checkpoints : Checkpoints) (written : List CheckpointReading) (number : ℕ) (files new : List PartFile) →
        (before : AreFilesOf checkpoints files) → (parts : AreNewFiles before.known number new) →
        ((checkpoint : CheckpointReading) → Contains checkpoints.written checkpoint → Contains written checkpoint) →
        ((checkpoint : CheckpointReading) → IsValid parts.known checkpoint → Contains written checkpoint) →
        AreFilesOf (record checkpoints { written = written }) (files ++ new) }
{}

/// States that a checkpoint whose parts are all there and synced was written, and that the files of parts are as
/// `a_crash_makes_no_checkpoint_valid` asks once the server stands on it. This is a law: it has nothing to run.
pub fn standing_on_a_checkpoint()
    ensures { (checkpoints : Checkpoints) (files : List PartFile) (new : CheckpointReading) →
        (before : AreFilesOf checkpoints files) → IsSyncedIn files before.known new →
        Contains checkpoints.written new × AreFilesOf (record checkpoints { base = Some new }) files }
{}

/// States that the files of parts stay as `a_crash_makes_no_checkpoint_valid` asks while parts of other checkpoints than
/// the one that the server stands on are deleted, in any order and synced or not, and when the folder is synced. This is a
/// law: it has nothing to run.
pub fn dropping_old_parts()
    ensures { (checkpoints : Checkpoints) (files left : List PartFile) →
        AreFilesOf checkpoints files → AreKept (IsNoPartOf checkpoints.base) files left → AreFilesOf checkpoints left }
{}

/// States that the files of parts are as `a_crash_makes_no_checkpoint_valid` asks after a resume, which leaves the parts of
/// the chosen checkpoint and no others. This is a law: it has nothing to run.
pub fn a_resume_leaves_the_chosen_parts()
    ensures { (left parts : List (List ℕ)) (facts : Facts left parts) (files : List PartFile) →
        AreChosenFiles facts.chosen facts.known files → AreFilesOf (only facts.chosen) files }
{}

/// States that the files of parts are as `a_crash_makes_no_checkpoint_valid` asks at a fresh start, once all parts of its
/// checkpoint are there and synced, and where no part is there. This is a law: it has nothing to run.
pub fn the_parts_of_a_fresh_start()
    ensures start { (logs parts : List (List ℕ)) (pairs : List Pair) (checkpoint : Checkpoint) (files : List PartFile) →
        IsStoreOf logs parts pairs → HasPairs pairs checkpoint → AreAllParts checkpoint (bytes_of files) →
        AllSynced files → AreFilesOf (only (Some (reading_with checkpoint pairs))) files }
    ensures none { AreFilesOf (only None) [] }
{}
