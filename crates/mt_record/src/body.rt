//! Splits the change in a body into its fields, without copying. A body is what stands between the two lengths of a
//! record or an entry.
pub mod check;
pub mod copy;
pub mod fields;
pub mod lent;
pub mod lent_writes;
pub mod spelled;

ghost use Rattle.std.specs.Prelude.{◌≡◌, IfSome, IfNone};
ghost use Rattle.mt_words.specs.declared.record.Change.{Change as ChangeValue};
ghost use Rattle.mt_record.specs.Spelling.{change_bytes, FitsChange};
ghost use Rattle.mt_record.specs.Steps.Bodies.{SpellFields, HasNoFields, HasFields, AreFieldsIn};

use crate::body::fields::{counted_at, u64_at};
use byteorder::{BigEndian, ByteOrder};

/// The kind byte of a mark. A mark changes nothing, so it has no code.
pub const MARK: u8 = 3;

/// The fields of a change, borrowed from its bytes.
#[derive(Clone, Copy)]
pub struct ChangeFields<'a> {
    pub version: u64,
    pub key: &'a [u8],
    /// The bytes after the key: what its kind carries.
    pub carried: &'a [u8],
}

/// Returns the fields of a change, whatever its kind carries. Returns None if the bytes are too short for a version and
/// a key.
#[inline(always)]
pub fn fields_at(bytes: &[u8]) -> Option<ChangeFields<'_>>
    ensures found { IfSome result (SpellFields bytes.now) }
    ensures none { IfNone result (HasNoFields bytes.now) }
{
    let (version, rest) = u64_at(bytes)?;
    let (key, carried) = counted_at(rest)?;
    Some(ChangeFields {
        version,
        key,
        carried,
    })
}

/// Returns the fields of a change. The bytes were checked to be one.
#[inline(always)]
pub fn fields_of(bytes: &[u8]) -> ChangeFields<'_>
    requires { HasFields bytes.now }
    ensures { (change : ChangeValue) → FitsChange change → bytes.now ≡ change_bytes change → AreFieldsIn change result }
{
    let (version, rest) = bytes.split_at(8);
    let (length, rest) = rest.split_at(2);
    let (key, carried) = rest.split_at(usize::from(BigEndian::read_u16(length)));
    ChangeFields {
        version: BigEndian::read_u64(version),
        key,
        carried,
    }
}
