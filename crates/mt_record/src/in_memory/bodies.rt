//! Encodes updates in memory as bodies.
ghost use Rattle.std.specs.Prelude.{◌≡◌, IfOk};
ghost use Rattle.mt_record.specs.Decoding.{IsChangeBody, update_in};

use crate::encode::put::{put_bytes, put_counted};
use crate::encode::{kind_length, put_kind};
use mt_words::{Memory, Update};
use std::alloc::Global;

/// Returns the body of an update, whether the update is lawful or not. Err: out of memory.
pub fn body_of_update(alloc: Global, update: &Update) -> Result<Vec<u8>, Memory>
    ensures lawful { IfOk result (λ body. IsChangeBody body.items) }
    ensures says { IfOk result (λ body. update_in update.now.stamp.origin body.items ≡ update.now) }
{
    let key = update.key.as_bytes();
    let mut body = Vec::with_capacity(alloc, 19 + key.len() + kind_length(&update.kind))?;
    put_bytes(&[update.kind.code().byte()], &mut body);
    put_bytes(&update.timestamp.to_be_bytes(), &mut body);
    put_bytes(&update.stamp.version.to_be_bytes(), &mut body);
    put_counted(key, &mut body);
    put_kind(&update.kind, &mut body);
    Ok(body)
}
