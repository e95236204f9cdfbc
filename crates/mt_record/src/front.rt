//! How far bytes are a log.
ghost use Rattle.std.specs.Prelude.{◌≡◌, ◌↔◌, max, List, ℕ, IsTrue};
ghost use Rattle.mt_record.specs.declared.front.Rest.TheVariants.{Torn};
ghost use Rattle.mt_record.specs.Logs.{LogReading, IsReading};
ghost use Rattle.mt_record.specs.LogTexts.{IsLast, front_in};

use crate::feed::head::Head;
use mt_words::What;

/// How far bytes are a log: their header, the complete records after it, and what follows these.
#[derive(Clone, Copy, Debug)]
pub struct LogFront {
    pub head: Head,
    /// The number of complete records, counted up to 2^64 - 1.
    pub count: u64,
    /// The timestamp of the last of them, or 0 without any.
    pub latest: u64,
    /// The greatest version of the complete records, or 0 if none has a version.
    pub version: u64,
    /// The number of bytes of the header and of the complete records, counted up to 2^64 - 1. In a file of format 4
    /// these are bytes of its text: a segment's header, and what stands in the blocks.
    pub bytes: u64,
    pub rest: Rest,
}

/// What follows the complete records of a log.
#[derive(Clone, Copy, Debug, PartialEq, Eq)]
pub enum Rest {
    Nothing,
    /// A torn tail.
    Torn,
    /// Bytes that make the log faulty.
    Faulty(What),
}

impl LogFront {
    /// Returns the timestamp below which updates may be missing.
    pub fn from(&self) -> u64
        ensures { result ≡ self.now.head.from }
    {
        self.head.from
    }

    /// Returns the last timestamp: the greatest of `from` and the timestamps of the complete records.
    pub fn last(&self) -> u64
        ensures value { result ≡ max self.now.head.from self.now.latest }
        ensures last { (bytes : List ℕ) (log : LogReading) → IsReading bytes log → self.now ≡ front_in log → IsLast log result }
    {
        self.head.from.max(self.latest)
    }

    /// Returns the number of complete records, counted up to 2^64 - 1.
    pub fn whole(&self) -> u64
        ensures { result ≡ self.now.count }
    {
        self.count
    }

    /// Returns whether a torn tail follows the complete records.
    pub fn torn(&self) -> bool
        ensures value { IsTrue result ↔ (self.now.rest ≡ Torn) }
        ensures torn { (log : LogReading) → self.now ≡ front_in log → result ≡ log.torn }
    {
        self.rest == Rest::Torn
    }
}
