//! A share of the updates of a log. It owns its records.
ghost use Rattle.std.specs.Prelude.{◌≡◌, ◌+◌, ◌<◌, length, map, slice_index_or};
ghost use Rattle.mt_words.specs.Changes.{Logged};
ghost use Rattle.mt_words.specs.Updates.{update_of};
ghost use Rattle.mt_words.specs.OneLog.{as_list};
ghost use Rattle.mt_record.specs.Steps.Bodies.{IsLawfulBody};
ghost use Rattle.mt_record.specs.Steps.Kept.{IsShare};
ghost use Rattle.mt_record.specs.Decoding.{IsBody, decode};

use crate::body::lent::Lent;
use crate::body::spelled;
use crate::kept::block::Block;
use mt_words::Origin;
use std::marker::Model;

/// Some consecutive records of a log, kept as their encoded bodies. Marks are among them.
#[derive(Debug, Drop)]
pub struct Share {
    log: usize,
    /// The number of the first record.
    from: usize,
    bodies: Block,
}

impl Model for Share {
    ghost use Rattle.std.specs.Prelude.{map};
    ghost use Rattle.mt_record.specs.Decoding.{decode};
    ghost use Rattle.mt_record.specs.Shares.{ShareView};
    ghost use Rattle.mt_record.specs.Steps.Kept.{IsShare};

    ghost Value = { ShareView };

    ghost view = { λ s. record { log = s.log; from = s.from; records = map decode s.bodies } };

    ghost invariant = { λ s. IsShare s.from s.bodies };
}

impl Share {
    /// Returns the share of these bodies in the log of this number. The first is that of record `from`.
    pub(crate) fn of(log: usize, from: usize, bodies: Block) -> Share
        requires { IsShare from bodies }
        ensures { result ≡ record { log = log; from = from; records = map decode bodies } }
    {
        Share { log, from, bodies }
    }

    /// Returns the number of records, marks included.
    pub fn len(&self) -> usize
        ensures { result ≡ length self.now.records }
    {
        self.bodies.len()
    }

    /// Returns the update of the record with this number in the share. Returns None if the record is a mark.
    pub fn update(&self, number: usize) -> Option<Lent<'_>>
        requires { number < length self.now.records }
        ensures { (d : Logged) →
            as_list result ≡ update_of self.now.log (self.now.from + number) (slice_index_or self.now.records number d) }
    {
        let body = self.body(number);
        if spelled::is_mark(body) {
            return None;
        }
        let record = (self.from + number) as u64;
        Some(Lent::of(
            Origin::Log {
                record,
                log: self.log,
            },
            body,
        ))
    }

    /// Returns the body of the record with this number in the share.
    fn body(&self, number: usize) -> &[u8]
        requires { number < length self.now.records }
        ensures lawful { IsLawfulBody result.now }
        ensures body { IsBody result.now }
        ensures says { (d : Logged) → decode result.now ≡ slice_index_or self.now.records number d }
    {
        self.bodies.get(number)
    }
}
