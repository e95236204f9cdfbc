//! A list of updates as texts.
ghost use Rattle.std.specs.Prelude.{◌≡◌, ◌<◌, ◌++◌, [], ◌∷◌, OnOk, OnErr, length, slice_index_or};
ghost use Rattle.mt_words.specs.declared.update.Update.{Update as UpdateValue};

use crate::kept::byte_strings::ByteStrings;
use crate::kept::text::Text;
use mt_words::Memory;
use std::alloc::Global;
use std::marker::Model;

/// Updates, one after another in one buffer: of each its origin in a few bytes, and its body. So a run of them is read
/// as one stream.
#[derive(Drop)]
pub struct Bodies {
    texts: ByteStrings,
}

impl Model for Bodies {
    ghost use Rattle.std.specs.Prelude.{List, All, map};
    ghost use Rattle.mt_words.specs.declared.update.Update.{Update};
    ghost use Rattle.mt_record.specs.Steps.Texts.{update_in_text, IsUpdateText};

    ghost Value = { List Update };

    ghost view = { λ b. map update_in_text b.texts };

    ghost invariant = { λ b. All IsUpdateText b.texts };
}

impl Bodies {
    /// Creates an empty list.
    pub fn new(alloc: Global) -> Bodies
        ensures { result ≡ [] }
    {
        Bodies {
            texts: ByteStrings::new(alloc),
        }
    }

    /// Returns the number of updates.
    pub fn len(&self) -> usize
        ensures { result ≡ length self.now }
    {
        self.texts.len()
    }

    /// Returns the text of the update at this place.
    pub fn text(&self, at: usize) -> Text<'_>
        requires { at < length self.now }
        ensures { (d : UpdateValue) → result ≡ slice_index_or self.now at d }
    {
        Text::of_text(self.texts.get(at))
    }

    /// Appends a copy of a text. Err: out of memory; nothing is appended.
    pub fn push(&mut self, text: &Text<'_>) -> Result<(), Memory>
        ensures ok { OnOk result (self.new ≡ self.old ++ text.now ∷ []) }
        ensures err { OnErr result (self.new ≡ self.old) }
    {
        let (origin, body) = text.parts();
        self.texts.push_joined(origin, body)
    }
}
