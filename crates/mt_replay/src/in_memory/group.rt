//! The result of the updates of one key, if they are in memory.
ghost use Rattle.std.specs.Prelude.{◌≡◌, ◌↔◌, ◌++◌, [], ◌∷◌, List, ℕ, map, IsTrue};
ghost use Rattle.mt_words.specs.declared.limits.TheConstants.{MOST_COLUMNS};
ghost use Rattle.mt_words.specs.declared.update.Update.{Update as UpdateValue};
ghost use Rattle.mt_words.specs.Limits.{widest};
ghost use Rattle.mt_words.specs.Words.{AreColumns, AreNumbers};
ghost use Rattle.mt_words.specs.Changes.{set, erased, writes_of, IsReset};
ghost use Rattle.mt_words.specs.Writes.{AreWrites};
ghost use Rattle.mt_replay.specs.Cells.{Written, IsNewestOf, IsCellOf, written};
ghost use Rattle.mt_replay.specs.Groups.{IsGroupOf, HasLawfulWrites, AreFreeFrom};

use crate::group::{Bytes, Group, Write, is_newer};
use mt_words::{Column, Columns, Kind, MOST_COLUMNS, Stamp, Update, Value};

impl Bytes for Value {
    ghost contents = { λ bytes. bytes.items };

    fn as_bytes(&self) -> &[u8] {
        self.as_slice()
    }
}

impl Group<Value> {
    /// Applies an update of the key. Updates may come in any order. The update's bytes are moved.
    pub(crate) fn apply(&mut self, update: Update)
        ensures group { (updates : List UpdateValue) (key : List ℕ) → update.key ≡ key →
            IsGroupOf updates key self.old → IsGroupOf (updates ++ update ∷ []) key self.new }
        ensures lawful { HasLawfulWrites update }
    {
        let Update {
            key: _,
            stamp,
            timestamp: _,
            kind,
        } = update;
        self.clear_by(is_reset(&kind).then_some(stamp));
        self.apply_writes(stamp, kind);
    }

    /// Applies the writes of a change of this kind.
    fn apply_writes(&mut self, stamp: Stamp, kind: Kind)
        ensures reset { self.new.reset ≡ self.old.reset }
        ensures writes { (writes : List Written) → IsCellOf writes self.old.slots →
            IsCellOf (writes ++ written stamp (writes_of kind)) self.new.slots }
        ensures lawful { AreWrites widest (writes_of kind) }
    {
        match kind {
            Kind::Put(columns) | Kind::Whole(columns) => self.apply_columns(stamp, columns),
            Kind::Erase(numbers) => self.apply_numbers(stamp, numbers.as_slice()),
            Kind::Remove => {}
        }
    }

    /// Applies a write of each column.
    fn apply_columns(&mut self, stamp: Stamp, columns: Columns)
        ensures reset { self.new.reset ≡ self.old.reset }
        ensures writes { (writes : List Written) → IsCellOf writes self.old.slots →
            IsCellOf (writes ++ written stamp (map set columns)) self.new.slots }
        ensures lawful { AreColumns widest columns }
    {
        let mut rest = columns;
        while let Some(column) = rest.pop() {
            let Column { number, bytes } = column;
            self.keep(stamp, number, Some(bytes));
        }
    }

    /// Applies an erase of each column.
    fn apply_numbers(&mut self, stamp: Stamp, numbers: &[u8])
        requires { AreNumbers widest numbers.now }
        ensures reset { self.new.reset ≡ self.old.reset }
        ensures writes { (writes : List Written) → IsCellOf writes self.old.slots →
            IsCellOf (writes ++ written stamp (map erased numbers.now)) self.new.slots }
    {
        for number in numbers {
            self.keep(stamp, *number, None);
        }
    }

    /// Returns the group of the updates of both.
    pub(crate) fn merge(self, other: Group<Value>) -> Group<Value>
        ensures { (updates others : List UpdateValue) (key : List ℕ) → IsGroupOf updates key self →
            IsGroupOf others key other → IsGroupOf (updates ++ others) key result }
    {
        let Group { reset, writes, .. } = other;
        let mut merged = self;
        merged.clear_by(reset);
        // Any column may come.
        merged.end = MOST_COLUMNS as u8;
        keep_each(&mut merged.writes, writes);
        merged
    }
}

/// Returns whether a change of this kind clears all columns of its key.
fn is_reset(kind: &Kind) -> bool
    ensures { IsTrue result ↔ IsReset kind.now }
{
    matches!(kind, Kind::Remove | Kind::Whole(_))
}

/// Keeps the greater of two writes of each column.
fn keep_each(
    kept: &mut [Option<Write<Value>>; MOST_COLUMNS],
    writes: [Option<Write<Value>>; MOST_COLUMNS],
)
    ensures cell { (seen others : List Written) → IsCellOf seen kept.old → IsCellOf others writes →
        IsCellOf (seen ++ others) kept.new }
    ensures free { AreFreeFrom MOST_COLUMNS kept.old → AreFreeFrom MOST_COLUMNS kept.new }
{
    let mut rest = writes;
    for number in 0..MOST_COLUMNS {
        keep_newest(&mut kept[number], rest[number].take());
    }
}

/// Keeps the greater of two writes of a column. Either may be absent.
fn keep_newest(kept: &mut Option<Write<Value>>, write: Option<Write<Value>>)
    ensures { IsNewestOf kept.old write kept.new }
{
    if let Some(write) = write {
        if is_newer(kept, &write) {
            *kept = Some(write);
        }
    }
}
