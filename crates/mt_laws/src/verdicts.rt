//! The law that recovery has an answer to all bytes.
ghost use Rattle.std.specs.Prelude.{◌⊎◌, List, ℕ, All};
ghost use Rattle.mt_words.specs.declared.fault.Fault.{Fault};
ghost use Rattle.mt_words.specs.Slices.{AreBytes};
ghost use Rattle.mt_words.specs.Walks.{Pair};
ghost use Rattle.mt_recover.specs.Recovery.{IsStoreOf};
ghost use Rattle.mt_recover.specs.Verdict.{IsVerdict};

/// States that logs and parts have a store or a fault, whatever bytes they are. With `one_verdict` of `mt_recover`: one
/// store or one fault, and never both. This is a law: it has nothing to run.
pub fn some_verdict()
    ensures { (logs parts : List (List ℕ)) → All AreBytes logs →
        ((pairs : List Pair) × IsStoreOf logs parts pairs) ⊎ ((fault : Fault) × IsVerdict logs parts fault) }
{}
