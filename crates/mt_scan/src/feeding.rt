//! Feeding the bytes of a source, chunk by chunk.
ghost use Rattle.std.specs.Prelude.{◌≡◌, ◌+◌, ◌++◌, ◌<◌, ◌^◌, [], List, ℕ, false, length, if◌then◌else◌, is_ok, IfOk, OnOk, OnErr, IsOk, IsTrue};
ghost use Rattle.mt_record.specs.LogFeeding.{IsLogFed};
ghost use Rattle.mt_record.specs.PartFeeding.{IsPartFed};
ghost use Rattle.mt_scan.specs.Scans.{OfTold};
ghost use Rattle.mt_scan.specs.Steps.Feeding.{NeedsNoMore, AreFew, FeedsPiece};

use crate::source::{Source, SourceFault};
use mt_record::{KeptEntries, KeptRecords, LogFeed, PartFeed};

/// A feed: it receives bytes chunk by chunk, and keeps their first fault.
pub trait Fed {
    /// After the first feed was fed these bytes, it is the second.
    ghost was_fed: { Self → Self → List ℕ → Type 0 };

    /// Feeds the next chunk, or the empty one at the end. Returns false if the feed then has a fault, which more bytes
    /// do not change.
    fn feed_next(&mut self, piece: &[u8]) -> bool
        ensures fed { (begun : Self) (bytes : List ℕ) → was_fed begun self.old bytes → length (bytes ++ piece.now) < 2 ^ 64 →
            was_fed begun self.new (bytes ++ piece.now) }
        ensures stops { result ≡ false → (begun : Self) → NeedsNoMore (was_fed begun) self.new };
}

impl Fed for LogFeed<KeptRecords> {
    ghost was_fed = { λ _ feed bytes. IsLogFed feed bytes [] };

    fn feed_next(&mut self, piece: &[u8]) -> bool {
        self.feed(piece).is_ok()
    }
}

impl Fed for PartFeed<KeptEntries> {
    ghost was_fed = { λ _. IsPartFed };

    fn feed_next(&mut self, piece: &[u8]) -> bool {
        self.feed(piece).is_ok()
    }
}

/// Feeds the bytes of the source up to its end or their first fault, and reads no further. Err: the source failed.
pub fn feed_all<S: Source, F: Fed>(source: &mut S, feed: &mut F) -> Result<(), SourceFault>
    requires { F.was_fed feed.old feed.old [] }
    ensures fed { OnOk result (OfTold (S.seen source.old).told (F.was_fed feed.old feed.new)) }
    ensures failed { (S.seen source.new).failures ≡
        (if is_ok result then (S.seen source.old).failures else (S.seen source.old).failures + 1) }
    ensures steady { IsTrue (S.seen source.old).steady → IsOk result }
{
    'pieces: while feed_piece(source, feed)? {}
    Ok(())
}

/// Feeds the next chunk, or the empty one at the end. Returns false at the end, and after a fault of the bytes. Err: the
/// source failed; then nothing was fed.
fn feed_piece<S: Source, F: Fed>(source: &mut S, feed: &mut F) -> Result<bool, SourceFault>
    ensures fed { (begun : F) (bytes : List ℕ) → F.was_fed begun feed.old bytes → AreFew (S.seen source.old) bytes →
        IfOk result (FeedsPiece (F.was_fed begun) (S.seen source.old) (S.seen source.new) feed.new bytes) }
    ensures unfed { OnErr result (feed.new ≡ feed.old) }
    ensures failed { (S.seen source.new).failures ≡
        (if is_ok result then (S.seen source.old).failures else (S.seen source.old).failures + 1) }
    ensures steady { IsTrue (S.seen source.old).steady → IsOk result × IsTrue (S.seen source.new).steady }
{
    let count = source.advance()?;
    let goes_on = feed.feed_next(source.piece());
    Ok(goes_on & (count > 0))
}
