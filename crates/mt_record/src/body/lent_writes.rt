//! Writes of columns, borrowed from their bytes one after another.
ghost use Rattle.std.specs.Prelude.{◌≡◌, [], ◌∷◌, List, ℕ, IfSome, IfNone};
ghost use Rattle.std.specs.Option.{option_map};
ghost use Rattle.mt_words.specs.Limits.{widest};
ghost use Rattle.mt_words.specs.Writes.{IsWrite};
ghost use Rattle.mt_record.specs.Decoding.{IsCarried, writes_carried};

use mt_words::{Payload, column_at};
use std::marker::Model;

/// The writes of an update that are left to take.
#[derive(Drop)]
pub struct LentWrites<'a> {
    /// How they are encoded.
    payload: Payload,
    left: u8,
    bytes: &'a [u8],
}

impl<'a> Model for LentWrites<'a> {
    ghost use Rattle.std.specs.Prelude.{List};
    ghost use Rattle.mt_words.specs.Changes.{Write};
    ghost use Rattle.mt_record.specs.Decoding.{writes_from, AreLent};

    ghost Value = { List Write };

    ghost view = { λ w. writes_from w.payload w.left w.bytes.now };

    ghost invariant = { λ w. AreLent w.payload w.left w.bytes.now };
}

impl<'a> LentWrites<'a> {
    /// Returns the writes of a change that carries these bytes.
    pub(crate) fn of_carried(payload: Payload, carried: &'a [u8]) -> LentWrites<'a>
        requires { IsCarried payload carried.now }
        ensures { result ≡ writes_carried payload carried.now }
    {
        match payload {
            Payload::Nothing => LentWrites {
                payload,
                left: 0,
                bytes: carried,
            },
            Payload::Columns | Payload::Numbers => LentWrites {
                payload,
                left: carried[0],
                bytes: &carried[1..],
            },
        }
    }

    /// Removes the next write and returns its column number and its bytes. An erase has no bytes. Returns None if no
    /// write is left.
    pub fn next(&mut self) -> Option<(u8, Option<&'a [u8]>)>
        ensures some { IfSome result (λ write. self.old ≡ (write.0, option_map (λ bytes. bytes.now) write.1) ∷ self.new) }
        ensures lawful { IfSome result (λ write. IsWrite widest (write.0, option_map (λ bytes. bytes.now) write.1)) }
        ensures none { IfNone result ((self.old ≡ []) × (self.new ≡ [])) }
    {
        match self.payload {
            Payload::Nothing => None,
            Payload::Columns => {
                let (number, bytes, after) = column_at(self.bytes)?;
                self.left -= 1;
                self.bytes = after;
                Some((number, Some(bytes)))
            }
            Payload::Numbers => {
                let (number, after) = self.bytes.split_first()?;
                self.left -= 1;
                self.bytes = after;
                Some((*number, None))
            }
        }
    }
}
