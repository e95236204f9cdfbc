//! The magic that a file begins with: three letters that tell a log from a part, and the digit of the format.
ghost use Rattle.std.specs.Prelude.{◌≡◌, ◌≢◌, ◌++◌, List, ℕ, IfSome, IfNone, MatchBool};
ghost use Rattle.mt_words.specs.declared.limits.Format.{Format as AnyFormat};
ghost use Rattle.mt_words.specs.Limits.{magic};
ghost use Rattle.mt_record.specs.Fronts.{GoesWithMagic};

use mt_words::Format;

/// The error for bytes that cannot begin with a magic: they neither begin with the letters and the digit of a format,
/// nor are the beginning of these.
pub struct NoMagic;

/// Returns the format of a file that begins with these letters, and the bytes after its digit. Returns None if the
/// bytes do not begin with the letters and the digit of a format.
pub fn format_at<'a>(letters: &[u8], bytes: &'a [u8]) -> Option<(Format, &'a [u8])>
    ensures found { IfSome result (λ x. bytes.now ≡ magic letters.now x.0 ++ x.1.now) }
    ensures none { IfNone result
        ((format : AnyFormat) (more : List ℕ) → bytes.now ≢ magic letters.now format ++ more) }
{
    let (digit, rest) = bytes.strip_prefix(letters)?.split_first()?;
    Some((Format::of_digit(*digit)?, rest))
}

/// Returns whether the bytes begin with these letters and the digit of a format, or are the beginning of such four
/// bytes.
pub fn goes_with_magic(letters: &[u8], bytes: &[u8]) -> bool
    ensures { MatchBool result (GoesWithMagic letters.now bytes.now) (GoesWithMagic letters.now bytes.now → ⊥) }
{
    format_at(letters, bytes).is_some() || letters.starts_with(bytes)
}
