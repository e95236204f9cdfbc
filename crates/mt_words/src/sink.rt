//! Sinks for the pairs of a walk.
ghost use Rattle.std.specs.Prelude.{◌≡◌, ◌++◌, ◌∷◌, [], OnOk};
ghost use Rattle.mt_words.specs.Limits.{widest};
ghost use Rattle.mt_words.specs.Walks.{KeysRise};
ghost use Rattle.mt_words.specs.Words.{IsKey};

use crate::fault::Memory;
use crate::key::Key;
use crate::packed::PackedColumns;

/// A sink for the pairs of a walk, which come one by one in rising order of their keys. It is a list of pairs, or the
/// draft of a tree.
pub trait PairSink: Drop {
    ghost use Rattle.std.specs.Prelude.{List};
    ghost use Rattle.mt_words.specs.Walks.{Pair};

    ghost pairs: { Self → List Pair };

    /// Appends a pair. Err: out of memory; then the contents are unspecified.
    fn push_pair(&mut self, key: &[u8], columns: PackedColumns) -> Result<(), Memory>
        requires lawful { IsKey widest key.now }
        requires rises { KeysRise (pairs self.old ++ (key.now, columns) ∷ []) }
        ensures { OnOk result (pairs self.new ≡ pairs self.old ++ (key.now, columns) ∷ []) };
}

impl PairSink for Vec<(Key, PackedColumns)> {
    ghost pairs = { λ pairs. pairs.items };

    fn push_pair(&mut self, key: &[u8], columns: PackedColumns) -> Result<(), Memory> {
        let key = Key::copy_of(*self.allocator(), key)?;
        self.push((key, columns))?;
        Ok(())
    }
}
