//! Laws of a server that writes its logs by `mt_writer`.
ghost use Rattle.std.specs.Prelude.{◌≡◌, ◌<◌, ◌++◌, ℕ, List, [], ◌∷◌, map, length, flat_map, Contains};
ghost use Rattle.mt_words.specs.declared.update.Update.{Update};
ghost use Rattle.mt_words.specs.Changes.{Logged};
ghost use Rattle.mt_block.specs.Blocks.{block, IsBody, HasNoHead, IsTornEnd};
ghost use Rattle.mt_record.specs.Spelling.{spelling};
ghost use Rattle.mt_replay.specs.Survivors.{log_updates};
ghost use Rattle.mt_writer.specs.Files.{OpenFile};
ghost use Rattle.mt_writer.specs.Journals.{Journal, Writer, Keeps, file_of};
ghost use Rattle.mt_laws.specs.Lives.{IsLeftOf, LogOf, as_written, down, Life};
ghost use Rattle.mt_laws.specs.Writing.{sealed, gone, IsNewest, HasBlocks, IsCrashOf, Server, files_there, state_of, Stands, Called};

/// States that a server over writers lives, in whatever order it calls them, and however often it crashes, and resumes or
/// starts afresh: after any calls its state is one of a life, and all stands for more calls. What a crash leaves at any
/// moment, with any of the names that the folder's sync was not reported of, is of such a life too. After each crash the
/// server can go on with each log. And there are calls, and a crash, by which an update is acknowledged, the next segment
/// begins, a checkpoint is written, and the old segment with the update is deleted. This is a law: it has nothing to run.
pub fn calls_are_a_life()
    ensures life { (s : Server) → Called s → Life (state_of s) }
    ensures stands { (s : Server) → Called s → Stands s }
    ensures crashes { (s : Server) (names : List (LogOf OpenFile)) (left parts : List (List ℕ)) → Called s → IsCrashOf s names left parts →
        Life (down s.acked (map as_written names) left parts) }
    ensures goes_on { (s : Server) (names : List (LogOf OpenFile)) (left parts : List (List ℕ)) → Called s → IsCrashOf s names left parts →
        (after : Server) × Called after × (after.acked ≡ s.acked) × ((j : Journal) → Contains after.slots (sealed j) → IsNewest (files_there after) (file_of j) → ⊥) }
    ensures some { (s : Server) × (u : Update) × (old : List Logged) × Contains s.acked u × Contains (log_updates (old ∷ [])) u × Contains s.slots (gone old) ×
        Called s × (names : List (LogOf OpenFile)) × (left parts : List (List ℕ)) × IsCrashOf s names left parts }
{}

/// States that a crash may leave anything behind the blocks of a file that are synced: zeros, bytes of other files, or a
/// part of the block that was taken, or all of it and anything behind that. So the disk may write in any order. Only no
/// head of a block of the file may stand there by chance, and no bytes at all behind a file that a later segment follows.
/// This is a law: it has nothing to run.
pub fn what_a_crash_leaves()
    ensures whole { (files : List OpenFile) (w : Writer) (j : Journal) (mark : ℕ) (file : List ℕ) → Keeps w j → HasBlocks mark j file → IsLeftOf files (file_of j) file }
    ensures anything { (files : List OpenFile) (w : Writer) (j : Journal) (mark : ℕ) (file left : List ℕ) → Keeps w j → HasBlocks mark j file → IsNewest files (file_of j) →
        HasNoHead mark left → IsLeftOf files (file_of j) (file ++ left) }
    ensures part { (files : List OpenFile) (w : Writer) (j : Journal) (mark : ℕ) (file left lost : List ℕ) → Keeps w j → HasBlocks mark j file → IsNewest files (file_of j) →
        IsBody (flat_map spelling j.taken) → block mark (flat_map spelling j.taken) ≡ left ++ lost → 0 < length lost → IsLeftOf files (file_of j) (file ++ left) }
    ensures torn { (files : List OpenFile) (w : Writer) (j : Journal) (mark : ℕ) (file left : List ℕ) → Keeps w j → HasBlocks mark j file → IsNewest files (file_of j) →
        IsTornEnd mark left → IsLeftOf files (file_of j) (file ++ left) }
{}
