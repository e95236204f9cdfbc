//! Laws that hold for all bytes.
ghost use Rattle.std.specs.Prelude.{◌≡◌, ◌<◌, ◌^◌, ◌++◌, ℕ, Bool, List, [], length, map};
ghost use Rattle.std.specs.List.{flat_map};
ghost use Rattle.mt_words.specs.declared.limits.Format.{Format};
ghost use Rattle.mt_words.specs.Limits.{limits_of};
ghost use Rattle.mt_words.specs.declared.record.Change.{Change};
ghost use Rattle.mt_words.specs.Changes.{Logged, IsLawful, IsEntry};
ghost use Rattle.mt_record.specs.declared.read.FeedFault.{FeedFault};
ghost use Rattle.mt_record.specs.Spelling.{spelling};
ghost use Rattle.mt_record.specs.declared.feed.head.Head.{Head};
ghost use Rattle.mt_record.specs.Heads.{IsHead, head_bytes};
ghost use Rattle.mt_record.specs.declared.salvage.Items.{Items};
ghost use Rattle.mt_record.specs.declared.salvage.Items.TheVariants.{Records, Entries};
ghost use Rattle.mt_record.specs.declared.salvage.Found.{Found};
ghost use Rattle.mt_record.specs.Salvage.{AreFound, AreFoundIn, bytes_of, spans, marked, KeepMost, salvaged_part};
ghost use Rattle.mt_record.specs.Logs.{IsLog, LogReading, IsReading};
ghost use Rattle.mt_record.specs.LogFaults.{IsLogFault};
ghost use Rattle.mt_record.specs.declared.part_text.PartHead.{PartHead};
ghost use Rattle.mt_record.specs.declared.part_text.PartFault.{PartFault};
ghost use Rattle.mt_record.specs.Parts.{IsPart, IsPartHead, entry_spelling, PartReading, IsPartReading};
ghost use Rattle.mt_record.specs.PartFaults.{IsPartFault};

/// A text is a log in at most one way. A file is a log in at most one way and has at most one fault, never both. No encoding of a record begins the
/// encoding of another record. This is a law: it has nothing to run.
pub fn one_reading()
    ensures one_log { (bytes : List ℕ) (head other : Head) (records others : List Logged) (tail rest : List ℕ) →
        IsLog bytes head records tail → IsLog bytes other others rest →
        (head ≡ other) × (records ≡ others) × (tail ≡ rest) }
    ensures one_fault { (bytes : List ℕ) (fault other : FeedFault) →
        IsLogFault bytes fault → IsLogFault bytes other → fault ≡ other }
    ensures one_reading { (bytes : List ℕ) (log other : LogReading) → IsReading bytes log → IsReading bytes other → log ≡ other }
    ensures not_both { (bytes : List ℕ) (log : LogReading) (fault : FeedFault) → IsReading bytes log → IsLogFault bytes fault → ⊥ }
    ensures prefix_free { (format : Format) (r s : Logged) (more : List ℕ) →
        IsLawful (limits_of format) r → IsLawful (limits_of format) s → spelling s ≡ spelling r ++ more →
        (r ≡ s) × (more ≡ []) }
{}

/// A text is a part of a checkpoint in at most one way. A file is a part in at most one way and has at most one fault,
/// never both. No encoding of an entry begins the encoding of another entry. This is a law: it has nothing to run.
pub fn one_part()
    ensures one_part { (bytes : List ℕ) (head other : PartHead) (entries others : List Change) (end fin : ℕ) →
        IsPart bytes head entries end → IsPart bytes other others fin →
        (head ≡ other) × (entries ≡ others) × (end ≡ fin) }
    ensures one_fault { (bytes : List ℕ) (fault other : PartFault) →
        IsPartFault bytes fault → IsPartFault bytes other → fault ≡ other }
    ensures one_reading { (bytes : List ℕ) (part other : PartReading) →
        IsPartReading bytes part → IsPartReading bytes other → part ≡ other }
    ensures not_both { (bytes : List ℕ) (part : PartReading) (fault : PartFault) →
        IsPartReading bytes part → IsPartFault bytes fault → ⊥ }
    ensures prefix_free { (format : Format) (entry other : Change) (more : List ℕ) →
        IsEntry (limits_of format) entry → IsEntry (limits_of format) other →
        entry_spelling other ≡ entry_spelling entry ++ more → (entry ≡ other) × (more ≡ []) }
{}

/// The bytes of a damaged log or of a broken part have one list of records or entries: those and the bytes that are skipped,
/// in order, each once. What is kept of the records of the pieces of a log is, after a header of the same format, a log of
/// exactly these; the entries of the pieces of a part are, between its header and a footer, a part of exactly these. This is a
/// law: it has nothing to run.
pub fn one_salvage()
    ensures one_list { (items : Items) (format : Format) (bytes : List ℕ) (found others : List Found) →
        AreFound items (limits_of format) bytes found → AreFound items (limits_of format) bytes others →
        spans found ≡ spans others }
    ensures in_order { (items : Items) (format : Format) (bytes : List ℕ) (found : List Found) →
        AreFound items (limits_of format) bytes found →
        (rest : List ℕ) × (bytes ≡ flat_map (λ item. item.skipped.now ++ item.bytes.now) found ++ rest) }
    ensures log { (head : Head) (pieces : List (List ℕ)) (found : List Found) (marks : List Bool) → IsHead head →
        AreFoundIn Records (limits_of head.format) pieces found →
        KeepMost (map (λ item. item.timestamp) found) marks →
        (records : List Logged) × IsLog (head_bytes head ++ bytes_of (marked marks found)) head records [] ×
        (length records ≡ length (marked marks found)) }
    ensures part { (head : PartHead) (pieces : List (List ℕ)) (entries : List Found) (end : ℕ) →
        IsPartHead head → end < 2 ^ 64 → AreFoundIn Entries (limits_of head.format) pieces entries →
        length entries < 2 ^ 32 →
        (changes : List Change) × IsPart (salvaged_part head entries end) head changes end ×
        (length changes ≡ length entries) }
{}
