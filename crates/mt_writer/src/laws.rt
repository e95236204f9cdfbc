//! What a writer's journal says of its file, and each call of the file's steps. What the file of a part says.
ghost use Rattle.std.specs.Prelude.{◌≡◌, [], Some, false, Option, List, ℕ};
ghost use Rattle.mt_words.specs.Changes.{Logged};
ghost use Rattle.mt_words.specs.declared.record.Change.{Change};
ghost use Rattle.mt_record.specs.declared.feed.head.Head.{Head};
ghost use Rattle.mt_record.specs.Logs.{log_bytes};
ghost use Rattle.mt_record.specs.Opening.{Opens};
ghost use Rattle.mt_record.specs.Parts.{IsPartReading};
ghost use Rattle.mt_writer.specs.Framing.{IsFileWith};
ghost use Rattle.mt_writer.specs.Files.{OpenFile, IsOpenFile, IsWritten, IsSynced};
ghost use Rattle.mt_writer.specs.PartFiles.{Part, IsPartOf, reading_of};
ghost use Rattle.mt_writer.specs.Journals.{Journal, Writer, Keeps, file_of, holding, taking, syncing, IsReached};

/// States that the file of a journal that a writer keeps is an open file, and that appending a record and taking bytes
/// only append to it, and a sync only syncs more of it. This is a law: it has nothing to run.
pub fn a_journal_is_an_open_file()
    ensures opens { (w : Writer) (j : Journal) → Keeps w j → IsOpenFile (file_of j) }
    ensures written { (j : Journal) (r : Logged) → IsWritten (file_of j) (file_of (holding j r)) }
    ensures taken { (j : Journal) → IsWritten (file_of j) (file_of (taking j)) }
    ensures synced { (w : Writer) (j : Journal) → Keeps w j → IsSynced (file_of j) (file_of (syncing j)) }
{}

/// States that a file that is written or synced further is reached as far as it was, so that an earlier reach may stand
/// for it. This is a law: it has nothing to run.
pub fn a_reach_stays_true()
    ensures written { (reach : ℕ) (before after : OpenFile) → IsWritten before after → IsReached reach before → IsReached reach after }
    ensures synced { (reach : ℕ) (w : Writer) (j : Journal) → Keeps w j → IsReached reach (file_of j) → IsReached reach (file_of (syncing j)) }
{}

/// States that the text of a file with these records is that of a header and the records, and that no torn block follows
/// it. This is a law: it has nothing to run.
pub fn a_file_has_its_text()
    ensures { (mark : Option ℕ) (head : Head) (records : List Logged) (bytes : List ℕ) → IsFileWith mark head records bytes →
        Opens bytes (log_bytes head records) false }
{}

/// States that a part that has ended, of which all bytes were taken, is read as a part with its entries and its end. This
/// is a law: it has nothing to run.
pub fn a_written_part_is_read()
    ensures { (w : Part) (above : Option (List ℕ)) (entries : List Change) (taken : List ℕ) (end : ℕ) → IsPartOf w above entries taken → w.end ≡ Some end → w.ready ≡ [] →
        IsPartReading taken (reading_of w.header entries end) }
{}
