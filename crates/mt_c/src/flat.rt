//! The flat form of pairs: each is encoded as the entry of a part.
ghost use Rattle.std.specs.Prelude.{◌≡◌, ◌<◌, ◌+◌, ◌^◌, ◌⊎◌, length};
ghost use Rattle.mt_words.specs.Limits.{widest};
ghost use Rattle.mt_words.specs.Words.{IsKey};
ghost use Rattle.mt_words.specs.Built.{entry_of};
ghost use Rattle.mt_record.specs.Spelling.{change_bytes, with_length};
ghost use Rattle.mt_c.specs.declared.status.TheConstants.{DONE, SHORT};
ghost use Rattle.mt_c.specs.Buffers.{Writes};
ghost use Rattle.mt_c.specs.Flat.{pair_bytes};

use crate::status::{DONE, SHORT};
use mt_words::PackedColumns;

/// Writes the flat form of the pair to the beginning of `out` if it has room there, and its length to `count`.
pub fn write_pair(key: &[u8], columns: &PackedColumns, out: &mut [u8], count: &mut usize) -> u32
    requires { IsKey widest key.now }
    ensures written { Writes (pair_bytes (key.now, columns.now)) out.old out.new count.new result }
    ensures certain { (result ≡ DONE) ⊎ (result ≡ SHORT) }
{
    let length = pair_length(key, columns);
    *count = length;
    if length > out.len() {
        return SHORT;
    }
    fill_pair(key, columns, &mut out[..length]);
    DONE
}

/// Returns the number of bytes of the pair's flat form.
pub fn pair_length(key: &[u8], columns: &PackedColumns) -> usize
    requires { IsKey widest key.now }
    ensures value { result ≡ length (pair_bytes (key.now, columns.now)) }
    ensures some { 0 < result }
{
    8 + fields_length(key, columns)
}

/// Fills `out` with the flat form of the pair.
pub fn fill_pair(key: &[u8], columns: &PackedColumns, out: &mut [u8])
    requires lawful { IsKey widest key.now }
    requires exact { length out.old ≡ length (pair_bytes (key.now, columns.now)) }
    ensures { out.new ≡ pair_bytes (key.now, columns.now) }
{
    let length = fields_length(key, columns);
    let frame = (length as u32).to_be_bytes();
    let (front, rest) = out.split_at_mut(4);
    front.copy_from_slice(&frame);
    let (fields, back) = rest.split_at_mut(length);
    fill_fields(key, columns, fields);
    back.copy_from_slice(&frame);
}

/// Returns the number of bytes of the pair's version, key and columns.
fn fields_length(key: &[u8], columns: &PackedColumns) -> usize
    requires { IsKey widest key.now }
    ensures value { result ≡ length (change_bytes (entry_of 0 key.now columns.now)) }
    ensures few { result < 2 ^ 26 }
{
    10 + key.len() + columns.as_bytes().len()
}

/// Fills `out` with the version 0, the key and the columns.
fn fill_fields(key: &[u8], columns: &PackedColumns, out: &mut [u8])
    requires lawful { IsKey widest key.now }
    requires exact { length out.old ≡ length (change_bytes (entry_of 0 key.now columns.now)) }
    ensures { out.new ≡ change_bytes (entry_of 0 key.now columns.now) }
{
    let (version, rest) = out.split_at_mut(8);
    version.copy_from_slice(&0u64.to_be_bytes());
    let (counted, block) = rest.split_at_mut(2 + key.len());
    fill_counted(key, counted);
    block.copy_from_slice(columns.as_bytes());
}

/// Fills `out` with the length of the bytes, then the bytes.
pub fn fill_counted(bytes: &[u8], out: &mut [u8])
    requires short { length bytes.now < 2 ^ 16 }
    requires exact { length out.old ≡ 2 + length bytes.now }
    ensures { out.new ≡ with_length bytes.now }
{
    let (front, rest) = out.split_at_mut(2);
    front.copy_from_slice(&(bytes.len() as u16).to_be_bytes());
    rest.copy_from_slice(bytes);
}
