//! Laws of errors in files of format 4.
ghost use Rattle.std.specs.Prelude.{◌⊎◌, List, ℕ, length};
ghost use Rattle.mt_crc.specs.Crc.{IsBurst};
ghost use Rattle.mt_words.specs.declared.fault.Fault.{Fault};
ghost use Rattle.mt_record.specs.declared.read.FeedFault.{FeedFault};
ghost use Rattle.mt_record.specs.Opening.{IsSealed};
ghost use Rattle.mt_record.specs.Logs.{LogReading, IsReading};
ghost use Rattle.mt_record.specs.LogFaults.{IsLogFault};
ghost use Rattle.mt_record.specs.Answered.{fault_at};
ghost use Rattle.mt_record.specs.Parts.{PartReading, IsSealedPart, IsPartReading};
ghost use Rattle.mt_recover.specs.Report.{Outcome, IsRecoveredOf};
ghost use Rattle.mt_recover.specs.Verdict.{IsVerdict};
ghost use Rattle.mt_laws.specs.Crashes.{IsBeginningOf};
ghost use Rattle.mt_laws.specs.Damage.{DifferAtTheEnd, HasBurst};

/// States that a burst of errors, within 32 bits, in a log of format 4 is seen: the log has a fault, or it says the same. The
/// exception is its last blocks, at most two: errors there may look like what a crash leaves. Then one of the two files says a
/// beginning of what the other says. Of logs and parts, recovery names the fault of that log, or has the same store and
/// report, or the same fault as before, with the same exception. This is a law: it has nothing to run.
pub fn a_changed_bit_is_seen()
    ensures log { (before after : List ℕ) (log : LogReading) → IsSealed before → IsReading before log → IsBurst before after →
        ((fault : FeedFault) × IsLogFault after fault) ⊎ (IsReading after log ⊎ DifferAtTheEnd before after) }
    ensures beginning { (before after : List ℕ) (log other : LogReading) → DifferAtTheEnd before after → IsReading before log → IsReading after other →
        IsBeginningOf other log ⊎ IsBeginningOf log other }
    ensures recovery { (logs others parts : List (List ℕ)) (outcome : Outcome) → (burst : HasBurst logs others) → IsRecoveredOf logs parts outcome →
        ((fault : FeedFault) × IsVerdict others parts (fault_at (length burst.front) fault))
        ⊎ (IsRecoveredOf others parts outcome ⊎ DifferAtTheEnd burst.before burst.after) }
    ensures refusal { (logs others parts : List (List ℕ)) (fault : Fault) (burst : HasBurst logs others) (log : LogReading) → IsReading burst.before log → IsVerdict logs parts fault →
        ((new : FeedFault) × IsVerdict others parts (fault_at (length burst.front) new))
        ⊎ (IsVerdict others parts fault ⊎ DifferAtTheEnd burst.before burst.after) }
{}

/// States that a burst of errors, within 32 bits, makes no part of a part of format 4: recovery knows it as broken or nameless.
/// This is a law: it has nothing to run.
pub fn a_changed_part_is_no_part()
    ensures { (before after : List ℕ) (part other : PartReading) → IsSealedPart before → IsPartReading before part → IsBurst before after →
        IsPartReading after other → ⊥ }
{}
