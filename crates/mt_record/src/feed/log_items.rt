//! The items of a log, in order: its header and its records.
ghost use Rattle.std.specs.Prelude.{◌≡◌, List, ℕ, None, Some};
ghost use Rattle.mt_words.specs.Changes.{Logged};
ghost use Rattle.mt_record.specs.LogFeeding.{log_so_far, HoldsLog, IsLogLeft, IsLogFaulty, StepsLog, damage_after};

use crate::body::spelled;
use crate::feed::blocks::Sealed;
use crate::feed::frame::{frame_wanted, next_record};
use crate::feed::head::{head_bytes_wanted, next_header};
use crate::feed::items::{Items, Step};
use crate::feed::magic::NoMagic;
use crate::front::{LogFront, Rest};
use crate::kept::Records;
use crate::read::FeedFault;
use mt_words::What;

/// What was read of a log so far.
#[derive(Drop)]
pub struct LogItems<R: Records> {
    /// How far the bytes that were read are a log, once the header is complete. Nothing follows the records read.
    pub front: Option<LogFront>,
    /// The records that were not yet taken, in order.
    pub ready: R,
}

impl<R: Records> Items for LogItems<R> {
    type Fault = FeedFault;

    ghost Taken = { List Logged };

    ghost holds = { λ taken items. HoldsLog taken (log_so_far R.listed items) };

    ghost is_left = { λ items. IsLogLeft (log_so_far R.listed items) };

    ghost shows = { λ items. IsLogFaulty (log_so_far R.listed items) };

    fn read_next<'a>(&mut self, bytes: &'a [u8]) -> Step<'a, FeedFault> {
        let Some(front) = &mut self.front else {
            return self.read_header(bytes);
        };
        read_record(front, &mut self.ready, bytes)
    }

    /// Returns the number of bytes of a header until the header is read, and then those that a record asks for.
    fn bytes_wanted(&self, held: &[u8]) -> usize {
        if self.front.is_none() {
            return head_bytes_wanted(held);
        }
        frame_wanted(held)
    }

    ghost refused = { λ items rest memory fault is. Prim.rw is tt };
}

impl<R: Records> Sealed for LogItems<R> {
    ghost damage = { λ items. damage_after (log_so_far R.listed items) };

    fn damaged(&self) -> FeedFault {
        let nth = match self.front {
            Some(front) => front.count,
            None => 0,
        };
        FeedFault::Record {
            nth,
            what: What::Checksum,
        }
    }
}

impl<R: Records> LogItems<R> {
    /// Reads the header.
    #[tactic(auto, using(crate::proofs::LogFeeds::header_read))]
    fn read_header<'a>(&mut self, bytes: &'a [u8]) -> Step<'a, FeedFault>
        ensures { self.old.front ≡ None → StepsLog R.listed self.old self.new bytes.now result }
    {
        match next_header(bytes) {
            Ok(Some((head, after))) => {
                self.front = Some(LogFront {
                    head,
                    count: 0,
                    latest: 0,
                    version: 0,
                    bytes: (bytes.len() - after.len()) as u64,
                    rest: Rest::Nothing,
                });
                Ok(Some(after))
            }
            Ok(None) => Ok(None),
            Err(NoMagic) => Err(FeedFault::Header),
        }
    }
}

/// Reads a record, and adds it to the front and to the records read.
#[inline(always)]
fn read_record<'a, R: Records>(
    front: &mut LogFront,
    ready: &mut R,
    bytes: &'a [u8],
) -> Step<'a, FeedFault>
    ensures { StepsLog R.listed (record { front = Some front.old; ready = ready.old }) (record { front = Some front.new; ready = ready.new }) bytes.now result }
{
    match next_record(front.head.format, front.latest, bytes) {
        Ok(Some((timestamp, body, after))) => {
            ready.put_record(body)?;
            let length = (bytes.len() - after.len()) as u64;
            front.count = front.count.saturating_add(1);
            front.latest = timestamp;
            front.version = front.version.max(spelled::version(body));
            front.bytes = front.bytes.saturating_add(length);
            Ok(Some(after))
        }
        Ok(None) => Ok(None),
        Err(what) => Err(FeedFault::Record {
            nth: front.count,
            what,
        }),
    }
}
