//! Reads the fields of a validated body, without copying.
ghost use Rattle.std.specs.Prelude.{◌≡◌, ◌≢◌, ◌↔◌, IsTrue, IfSome, IfNone, map};
ghost use Rattle.mt_words.specs.declared.code.Payload.TheVariants as payloads;
ghost use Rattle.mt_words.specs.Codes.{payload_of};
ghost use Rattle.mt_words.specs.Changes.{IsReset, set, writes_of};
ghost use Rattle.mt_words.specs.Packed.{ArePacked, columns_counted};
ghost use Rattle.mt_record.specs.LogTexts.{version_of};
ghost use Rattle.mt_record.specs.Decoding.{decode, IsBody, IsChangeBody, is_mark_in, code_in, time_in, version_in, key_in, carried_in, kind_in};

use crate::body::lent_writes::LentWrites;
use crate::body::{ChangeFields, MARK, fields_of};
use byteorder::{BigEndian, ByteOrder};
use mt_words::{Code, Payload};

/// Returns whether the body is that of a mark.
pub fn is_mark(body: &[u8]) -> bool
    requires { IsBody body.now }
    ensures { result ≡ is_mark_in body.now }
{
    body[0] == MARK
}

/// Returns the timestamp of the body.
pub fn timestamp(body: &[u8]) -> u64
    requires { IsBody body.now }
    ensures { result ≡ time_in body.now }
{
    BigEndian::read_u64(&body[1..])
}

/// Returns the version of the body's change, or 0 for a mark, which has none.
pub fn version(body: &[u8]) -> u64
    requires { IsBody body.now }
    ensures { result ≡ version_of (decode body.now).change }
{
    if is_mark(body) {
        return 0;
    }
    change(body).version
}

/// Returns the code of a change.
pub fn code(body: &[u8]) -> Code
    requires { IsChangeBody body.now }
    ensures { result ≡ code_in body.now }
{
    Code::of_byte(body[0]).unwrap()
}

/// Returns the fields of a change.
#[inline(always)]
pub fn change(body: &[u8]) -> ChangeFields<'_>
    requires { IsChangeBody body.now }
    ensures version { result.version ≡ version_in body.now }
    ensures key { result.key.now ≡ key_in body.now }
    ensures carried { result.carried.now ≡ carried_in body.now }
{
    fields_of(&body[9..])
}

/// Returns whether a change clears all columns of its key before it sets its own.
#[tactic(auto, using(crate::proofs::Decodes::code_clears))]
pub fn is_reset(body: &[u8]) -> bool
    requires { IsChangeBody body.now }
    ensures { IsTrue result ↔ IsReset (kind_in body.now) }
{
    code(body).clears()
}

/// Returns what a change writes. A remove writes nothing.
pub fn writes(body: &[u8]) -> LentWrites<'_>
    requires { IsChangeBody body.now }
    ensures { result ≡ writes_of (kind_in body.now) }
{
    LentWrites::of_carried(code(body).payload(), change(body).carried)
}

/// Returns the block of the columns that a put or an entry carries. Returns None for another change.
pub fn columns(body: &[u8]) -> Option<&[u8]>
    requires { IsChangeBody body.now }
    ensures some { IfSome result (λ block.
        ArePacked block.now × (writes_of (kind_in body.now) ≡ map set (columns_counted block.now))) }
    ensures none { IfNone result (payload_of (code_in body.now) ≢ payloads.Columns) }
{
    match code(body).payload() {
        Payload::Columns => Some(change(body).carried),
        Payload::Nothing | Payload::Numbers => None,
    }
}
