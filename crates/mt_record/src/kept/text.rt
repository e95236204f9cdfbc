//! Updates as texts: of each its origin, then its body.
//!
//!     entry                                  0 | body
//!     record 5 of log 3, as most             1 | 0003 | 00000005 | body
//!     one whose log or number is greater     2 | log, 8 bytes | record, 8 bytes | body
ghost use Rattle.std.specs.Prelude.{◌≡◌, ◌++◌};
ghost use Rattle.mt_words.specs.declared.update.Origin.TheVariants.{Checkpoint};
ghost use Rattle.mt_words.specs.Limits.{widest};
ghost use Rattle.mt_words.specs.Words.{IsKey};
ghost use Rattle.mt_record.specs.Steps.Texts.{IsUpdateText, update_in_text, short_text, long_text};

use crate::body::lent::Lent;
use byteorder::{BigEndian, ByteOrder};
use mt_words::Origin;
use std::marker::Model;

/// The number of bytes of the origin of most updates: a tag, a log below 2^16 and a record below 2^32.
const SHORT: usize = 7;

/// The number of bytes of the origin of any log update: a tag, a log and a record.
const LONG: usize = 17;

/// An update as its text, or as the body of a checkpoint's entry. It takes three words.
#[derive(Drop)]
pub struct Text<'a> {
    bytes: &'a [u8],
    /// Whether the bytes are the body of an entry, with no origin before it.
    is_entry: bool,
}

impl<'a> Model for Text<'a> {
    ghost use Rattle.mt_words.specs.declared.update.Update.{Update};
    ghost use Rattle.mt_record.specs.Steps.Texts.{update_told, IsTold};

    ghost Value = { Update };

    ghost view = { λ t. update_told t.is_entry t.bytes.now };

    ghost invariant = { λ t. IsTold t.is_entry t.bytes.now };
}

impl<'a> Text<'a> {
    /// Returns the text of an entry.
    pub fn of_entry(entry: Lent<'a>) -> Text<'a>
        requires { entry.stamp.origin ≡ Checkpoint }
        ensures { result ≡ entry.entry }
    {
        Text {
            bytes: entry.body(),
            is_entry: true,
        }
    }

    /// Returns the update of a text.
    pub(crate) fn of_text(bytes: &'a [u8]) -> Text<'a>
        requires { IsUpdateText bytes.now }
        ensures { result ≡ update_in_text bytes.now }
    {
        Text {
            bytes,
            is_entry: false,
        }
    }

    /// Returns the same text again.
    pub fn copy(&self) -> Text<'a>
        ensures { result ≡ self.now }
    {
        Text {
            bytes: self.bytes,
            is_entry: self.is_entry,
        }
    }

    /// Returns the text as its origin, or nothing if its bytes have it already, and its bytes.
    pub(crate) fn parts(&self) -> (&[u8], &'a [u8])
        ensures text { IsUpdateText (result.0.now ++ result.1.now) }
        ensures says { update_in_text (result.0.now ++ result.1.now) ≡ self.now }
    {
        if self.is_entry {
            return (&[0], self.bytes);
        }
        (&[], self.bytes)
    }

    /// Returns the update.
    pub fn lent(&self) -> Lent<'a>
        ensures { result ≡ self.now }
    {
        if self.is_entry {
            return Lent::of(Origin::Checkpoint, self.bytes);
        }
        lent_in(self.bytes)
    }

    /// Returns the key that it changes.
    pub fn key(&self) -> &'a [u8]
        ensures value { result.now ≡ self.now.key }
        ensures lawful { IsKey widest self.now.key }
    {
        self.lent().key()
    }
}

/// Returns the update of a text.
fn lent_in(text: &[u8]) -> Lent<'_>
    requires { IsUpdateText text.now }
    ensures { result ≡ update_in_text text.now }
{
    match text[0] {
        0 => Lent::of(Origin::Checkpoint, &text[1..]),
        1 => {
            let log = usize::from(BigEndian::read_u16(&text[1..]));
            let record = u64::from(BigEndian::read_u32(&text[3..]));
            Lent::of(Origin::Log { log, record }, &text[SHORT..])
        }
        _ => {
            let log = BigEndian::read_u64(&text[1..]) as usize;
            let record = BigEndian::read_u64(&text[9..]);
            Lent::of(Origin::Log { log, record }, &text[LONG..])
        }
    }
}

/// Returns the text of an origin in a log below 2^16, at a record below 2^32.
#[inline(always)]
pub(crate) fn short(log: u16, record: u32) -> [u8; SHORT]
    ensures { result ≡ short_text log «record» }
{
    let mut text = [1; SHORT];
    BigEndian::write_u16(&mut text[1..], log);
    BigEndian::write_u32(&mut text[3..], record);
    text
}

/// Returns the text of an origin in any log.
pub(crate) fn long(log: u64, record: u64) -> [u8; LONG]
    ensures { result ≡ long_text log «record» }
{
    let mut text = [2; LONG];
    BigEndian::write_u64(&mut text[1..], log);
    BigEndian::write_u64(&mut text[9..], record);
    text
}
