//! A law that holds for all checkpoints of stores.
ghost use Rattle.std.specs.Prelude.{◌≡◌, ℕ, ◌<◌, List, length};
ghost use Rattle.std.specs.List.{flat_map};
ghost use Rattle.mt_words.specs.Walks.{Pair, IsMap};
ghost use Rattle.mt_record.specs.Logs.{IsReading};
ghost use Rattle.mt_record.specs.Parts.{IsPartReading};
ghost use Rattle.mt_checkpoint.specs.Checkpoints.{Checkpoint, HasPairs, entries_with, part_reading, IsPartFile, log_reading, IsLogFile};

/// The files of the parts of a checkpoint of a store are parts, with the entries of their pairs. The entries of all parts,
/// one part after another, are those of the store. The file of the log is a log with one mark. This is a law: it has
/// nothing to run.
pub fn a_written_checkpoint_is_read()
    ensures parts { (pairs : List Pair) (checkpoint : Checkpoint) (salt part : ℕ) (bytes : List ℕ) →
        IsMap pairs → HasPairs pairs checkpoint → part < length checkpoint.parts → IsPartFile salt checkpoint part bytes →
        IsPartReading bytes (part_reading checkpoint part) }
    ensures entries { (pairs : List Pair) (checkpoint : Checkpoint) →
        HasPairs pairs checkpoint →
        flat_map (entries_with checkpoint.version) checkpoint.parts ≡ entries_with checkpoint.version pairs }
    ensures log { (pairs : List Pair) (checkpoint : Checkpoint) (salt : ℕ) (bytes : List ℕ) →
        HasPairs pairs checkpoint → IsLogFile salt checkpoint bytes → IsReading bytes (log_reading checkpoint) }
{}
