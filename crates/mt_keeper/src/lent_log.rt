//! Logs that are lent to threads.
ghost use Rattle.std.specs.Prelude.{◌≡◌, true};

use mt_record::Segment;
use mt_shared::Hand;
use mt_writer::LogWriter;
use std::marker::Model;

/// A log that a keeper lent to a thread. It is never copied, so contracts know all that its thread did with it.
#[derive(Drop)]
pub struct LentLog {
    /// The right to take steps on the shared words.
    pub(crate) hand: Hand,
    /// The number of the log.
    pub(crate) number: usize,
    /// The segment that its file is, if it is one.
    pub(crate) segment: Option<Segment>,
    /// The `from` of its file's header.
    pub(crate) from: u64,
    pub(crate) writer: LogWriter,
    /// How many stamps it may draw still.
    pub(crate) left: u64,
    /// Whether a write or a sync failed.
    pub(crate) failed: bool,
}

impl Model for LentLog {
    ghost use Rattle.mt_keeper.specs.Crews.{LentView};

    ghost Value = { LentView };

    ghost view = { λ l. record {
      table = l.hand.table;
      place = l.hand.number;
      number = l.number;
      segment = l.segment;
      from = l.from;
      writer = l.writer;
      acts = l.hand.acts;
      left = l.left;
      failed = l.failed;
    } };
}

impl LentLog {
    /// Returns the number of the log, by which the keeper's calls name it.
    pub fn number(&self) -> usize
        ensures { result ≡ self.now.number }
    {
        self.number
    }

    /// Notes that a write or a sync of the log failed. From then on each call of it is refused, and the log is synced no
    /// further.
    pub fn failed(&mut self)
        ensures value { self.new ≡ record self.old { failed = true } }
    {
        self.failed = true;
    }
}
