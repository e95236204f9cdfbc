//! An update that is borrowed from its body.
ghost use Rattle.std.specs.Prelude.{◌≡◌, ◌≢◌, ◌↔◌, IsTrue, IfSome, IfNone, map};
ghost use Rattle.mt_words.specs.declared.code.Payload.TheVariants as payloads;
ghost use Rattle.mt_words.specs.Limits.{widest};
ghost use Rattle.mt_words.specs.Words.{IsKey};
ghost use Rattle.mt_words.specs.Codes.{code_of, payload_of};
ghost use Rattle.mt_words.specs.Changes.{IsReset, set, writes_of};
ghost use Rattle.mt_words.specs.Packed.{ArePacked, columns_counted};
ghost use Rattle.mt_words.specs.Writes.{AreWrites};
ghost use Rattle.mt_record.specs.Decoding.{IsChangeBody, update_in};

use crate::body::lent_writes::LentWrites;
use crate::body::spelled;
use mt_words::{Origin, Stamp};
use std::marker::Model;

/// An update: a reference to its body, and where it comes from.
#[derive(Drop)]
pub struct Lent<'a> {
    origin: Origin,
    body: &'a [u8],
}

impl<'a> Model for Lent<'a> {
    ghost use Rattle.mt_words.specs.declared.update.Update.{Update};
    ghost use Rattle.mt_record.specs.Decoding.{IsChangeBody, update_in};

    ghost Value = { Update };

    ghost view = { λ u. update_in u.origin u.body.now };

    ghost invariant = { λ u. IsChangeBody u.body.now };
}

impl<'a> Lent<'a> {
    /// Returns the update with this origin and this body.
    pub fn of(origin: Origin, body: &'a [u8]) -> Lent<'a>
        requires { IsChangeBody body.now }
        ensures { result ≡ update_in origin body.now }
    {
        Lent { origin, body }
    }

    /// Returns where the update comes from.
    pub fn origin(&self) -> Origin
        ensures { result ≡ self.now.stamp.origin }
    {
        self.origin
    }

    /// Returns its body.
    pub fn body(&self) -> &'a [u8]
        ensures lawful { IsChangeBody result.now }
        ensures says { update_in self.now.stamp.origin result.now ≡ self.now }
    {
        self.body
    }

    /// Returns the key that it changes.
    pub fn key(&self) -> &'a [u8]
        ensures value { result.now ≡ self.now.key }
        ensures lawful { IsKey widest self.now.key }
    {
        spelled::change(self.body).key
    }

    /// Returns its place among the updates of the key.
    pub fn stamp(&self) -> Stamp
        ensures { result ≡ self.now.stamp }
    {
        Stamp {
            version: spelled::change(self.body).version,
            origin: self.origin,
        }
    }

    /// Returns the timestamp of its record.
    pub fn timestamp(&self) -> u64
        ensures { result ≡ self.now.timestamp }
    {
        spelled::timestamp(self.body)
    }

    /// Returns whether it clears all columns of its key before it sets its own.
    pub fn is_reset(&self) -> bool
        ensures { IsTrue result ↔ IsReset self.now.kind }
    {
        spelled::is_reset(self.body)
    }

    /// Returns what it writes. A remove writes nothing.
    pub fn writes(&self) -> LentWrites<'a>
        ensures value { result ≡ writes_of self.now.kind }
        ensures lawful { AreWrites widest (writes_of self.now.kind) }
    {
        spelled::writes(self.body)
    }

    /// Returns the block of the columns that it sets, which `PackedColumns::of_bytes` takes, if it is a put or an entry.
    pub fn columns(&self) -> Option<&'a [u8]>
        ensures some { IfSome result (λ block.
            ArePacked block.now × (writes_of self.now.kind ≡ map set (columns_counted block.now))) }
        ensures none { IfNone result (payload_of (code_of self.now.kind) ≢ payloads.Columns) }
    {
        spelled::columns(self.body)
    }
}
