//! What checksums show of bytes that changed.
ghost use Rattle.std.specs.Prelude.{◌≡◌, ◌≢◌, ◌++◌, ◌^◌, ◌<◌, ℕ, List};
ghost use Rattle.mt_crc.specs.Crc.{AreBytes, IsBurst, IsOdd, codeword, crc32c_append};

/// States that the checksum of bytes in chunks is that of all bytes. This is a law: it has nothing to run.
pub fn chunks_have_the_same_checksum()
    ensures { (crc : ℕ) (xs ys : List ℕ) → crc32c_append crc (xs ++ ys) ≡ crc32c_append (crc32c_append crc xs) ys }
{}

/// States that bytes that differ only within 32 bits in a row have different checksums. This is a law: it has nothing to run.
pub fn a_burst_changes_the_checksum()
    ensures { (crc : ℕ) (xs ys : List ℕ) → IsBurst xs ys → crc32c_append crc xs ≢ crc32c_append crc ys }
{}

/// States that equally long bytes that differ in an odd number of bits, wherever these are, have different checksums. This
/// is a law: it has nothing to run.
pub fn an_odd_change_changes_the_checksum()
    ensures { (crc : ℕ) (xs ys : List ℕ) → IsOdd xs ys → crc32c_append crc xs ≢ crc32c_append crc ys }
{}

/// States that bytes with their checksum become no other such bytes by a burst, in what is covered, in the checksum or across
/// the seam, nor by an odd number of changed bits. This is a law: it has nothing to run.
pub fn no_change_makes_a_codeword()
    ensures burst { (crc : ℕ) (xs ys : List ℕ) → crc < 2 ^ 32 → AreBytes xs → AreBytes ys → ¬ (IsBurst (codeword crc xs) (codeword crc ys)) }
    ensures odd { (crc : ℕ) (xs ys : List ℕ) → crc < 2 ^ 32 → AreBytes xs → AreBytes ys → ¬ (IsOdd (codeword crc xs) (codeword crc ys)) }
{}
