//! What holds of all files.
ghost use Rattle.std.specs.Prelude.{◌≡◌, ◌≢◌, ◌<◌, ◌⊎◌, ◌++◌, ℕ, List, [], length, take, codes, replicate, All};
ghost use Rattle.byteorder.specs.Endian.{big_from};
ghost use Rattle.mt_crc.specs.Crc.{AreBytes, IsBurst};
ghost use Rattle.mt_block.specs.declared.header.Header.{Header};
ghost use Rattle.mt_block.specs.declared.part_header.PartHeader.{PartHeader};
ghost use Rattle.mt_block.specs.Parts.{part_header_bytes, BeginsPart};
ghost use Rattle.mt_block.specs.Blocks.{IsHeader, IsBody, IsFile, IsDamaged, Begins, LosesFew, HasNoHead, header_bytes, mark_of, block, blocks};

/// States that bytes are a file in at most one way, or damaged in at most one way, never both. This is a law: it has nothing to
/// run.
pub fn one_file()
    ensures one_file { (bytes : List ℕ) (header new : Header) (bodies others : List (List ℕ)) (end rest : List ℕ) →
        IsFile bytes header bodies end → IsFile bytes new others rest → (header ≡ new) × (bodies ≡ others) × (end ≡ rest) }
    ensures not_both { (bytes : List ℕ) (header new : Header) (bodies others : List (List ℕ)) (end : List ℕ) →
        IsFile bytes header bodies end → IsDamaged bytes new others → ⊥ }
    ensures one_damage { (bytes : List ℕ) (header new : Header) (bodies others : List (List ℕ)) →
        IsDamaged bytes header bodies → IsDamaged bytes new others → (header ≡ new) × (bodies ≡ others) }
{}

/// States that bytes that begin with a header are a file, or damaged. This is a law: it has nothing to run.
pub fn some_file()
    ensures { (bytes : List ℕ) (header : Header) (rest : List ℕ) → AreBytes bytes → IsHeader header → bytes ≡ header_bytes header ++ rest →
        ((bodies : List (List ℕ)) × (end : List ℕ) × IsFile bytes header bodies end) ⊎ ((bodies : List (List ℕ)) × IsDamaged bytes header bodies) }
{}

/// States that whatever a crash leaves after whole blocks is a torn end, if no head stands in it. None stands in zeros. The
/// beginning of a block is a torn end as well. This is a law: it has nothing to run.
pub fn what_a_crash_leaves()
    ensures zeros { (mark n : ℕ) → HasNoHead mark (replicate n 0) }
    ensures anything { (header : Header) (bodies : List (List ℕ)) (left : List ℕ) → IsHeader header → All IsBody bodies → HasNoHead (mark_of header) left →
        IsFile (header_bytes header ++ (blocks (mark_of header) bodies ++ left)) header bodies left }
    ensures beginning { (header : Header) (bodies : List (List ℕ)) (body left lost : List ℕ) → IsHeader header → All IsBody bodies → IsBody body →
        block (mark_of header) body ≡ left ++ lost → 0 < length lost →
        IsFile (header_bytes header ++ (blocks (mark_of header) bodies ++ left)) header bodies left }
{}

/// States that a burst of errors makes of a file no file, or one with the same header and the same bodies, but for the last
/// ones, at most two. This is a law: it has nothing to run.
pub fn a_changed_bit_is_seen()
    ensures { (bytes other : List ℕ) (header new : Header) (bodies others : List (List ℕ)) (end rest : List ℕ) →
        IsFile bytes header bodies end → IsFile other new others rest → IsBurst bytes other →
        (header ≡ new) × (LosesFew bodies others ⊎ LosesFew others bodies) }
{}

/// States that a burst of errors makes no log of an older format of a file: the magic is the same, or the first length is 0. This
/// is a law: it has nothing to run.
pub fn damage_makes_no_older_log()
    ensures { (bytes other : List ℕ) (header : Header) (more : List ℕ) → bytes ≡ header_bytes header ++ more → IsBurst bytes other →
        (take 4 other ≡ codes "MTL4") ⊎ ((big_from 12 4 other ≡ 0) × (big_from 20 4 other ≡ 0)) }
{}

/// States that a burst of errors makes no other part of a part, and none of an older format: the magic is the same, or the first
/// length is 1. This is a law: it has nothing to run.
pub fn a_changed_part_is_seen()
    ensures blocks { (bytes other : List ℕ) (header new : PartHeader) (bodies others : List (List ℕ)) →
        BeginsPart bytes header bodies [] → BeginsPart other new others [] → IsBurst bytes other → ⊥ }
    ensures older { (bytes other : List ℕ) (header : PartHeader) (more : List ℕ) → bytes ≡ part_header_bytes header ++ more → IsBurst bytes other →
        (take 4 other ≡ codes "MTC4") ⊎ (big_from 20 4 other ≡ 1) }
{}
