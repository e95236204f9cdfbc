//! Laws of all bytes: they are a log or have a fault, and they are a part or have a fault. `one_reading` and `one_part`
//! of `mt_record` say that they are so in one way only, and never both.
ghost use Rattle.std.specs.Prelude.{◌⊎◌, List, ℕ};
ghost use Rattle.mt_words.specs.Slices.{AreBytes};
ghost use Rattle.mt_record.specs.declared.read.FeedFault.{FeedFault};
ghost use Rattle.mt_record.specs.declared.part_text.PartFault.{PartFault};
ghost use Rattle.mt_record.specs.Logs.{LogReading, IsReading};
ghost use Rattle.mt_record.specs.LogFaults.{IsLogFault};
ghost use Rattle.mt_record.specs.Parts.{PartReading, IsPartReading};
ghost use Rattle.mt_record.specs.PartFaults.{IsPartFault};
ghost use Rattle.mt_scan.specs.PartScans.{KnownPart, IsKnown};

/// States that any bytes are a log or have a fault. This is a law: it has nothing to run.
pub fn some_reading()
    ensures { (bytes : List ℕ) → AreBytes bytes →
        ((log : LogReading) × IsReading bytes log) ⊎ ((fault : FeedFault) × IsLogFault bytes fault) }
{}

/// States that any bytes are a part of a checkpoint or have a fault. So any bytes are known as a whole part, a broken one
/// or a nameless one. This is a law: it has nothing to run.
pub fn some_part()
    ensures part { (bytes : List ℕ) →
        ((part : PartReading) × IsPartReading bytes part) ⊎ ((fault : PartFault) × IsPartFault bytes fault) }
    ensures known { (bytes : List ℕ) → (known : KnownPart) × IsKnown bytes known }
{}
