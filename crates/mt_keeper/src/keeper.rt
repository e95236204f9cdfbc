//! The keeper of all logs of a server.
ghost use Rattle.std.specs.Prelude.{◌≡◌, ◌<◌, ℕ, IfSome, IfNone, true, Contains};
ghost use Rattle.mt_words.specs.declared.update.Update.{Update};
ghost use Rattle.mt_writer.specs.Journals.{NewFile};
ghost use Rattle.mt_laws.specs.Writing.{Server, AllReached, files_there, updates_of};
ghost use Rattle.mt_keeper.specs.Keeping.{Holds, reach_in};
ghost use Rattle.mt_keeper.specs.Calling.{Steps, acknowledged};
ghost use Rattle.mt_keeper.specs.Refusals.{IsAt};
ghost use Rattle.mt_keeper.specs.declared.keeper.Stage.TheVariants.{Coming};

use mt_record::Segment;
use mt_writer::{LogWriter, NewLog};
use std::marker::Model;

/// What may be done with a file.
#[derive(Drop)]
pub(crate) enum Stage {
    /// It is to be created.
    Coming(NewLog),
    /// It is written.
    Writing(LogWriter),
    /// It is sealed, with this last timestamp, and a later segment of its log is there.
    Followed(u64),
    /// It is being deleted.
    Going,
    /// It is deleted.
    Gone,
}

/// A file of a log.
#[derive(Drop)]
pub(crate) struct Log {
    /// The segment that it is, if it is there and is one.
    pub(crate) segment: Option<Segment>,
    /// The `from` of its header, if it is there.
    pub(crate) from: u64,
    pub(crate) stage: Stage,
}

/// A checkpoint that is being made.
#[derive(Clone, Copy)]
pub(crate) struct Making {
    pub(crate) begin: u64,
    /// Its end, if all keys are read.
    pub(crate) end: Option<u64>,
}

/// Keeps all logs of a server. Each file of a log has a number, by which calls name it.
#[derive(Drop)]
pub struct Keeper {
    /// The last stamp.
    pub(crate) clock: u64,
    pub(crate) logs: Vec<Log>,
    /// The number of the next worker.
    pub(crate) workers: u32,
    /// The begin of the checkpoint that the server stands on, or 0.
    pub(crate) base: u64,
    pub(crate) making: Option<Making>,
    /// The number of the next checkpoint.
    pub(crate) next: u32,
    /// The salt of the next file.
    pub(crate) salt: u64,
    /// Whether a write or a sync failed.
    pub(crate) failed: bool,
}

impl Model for Keeper {
    ghost use Rattle.mt_keeper.specs.Keeping.{Keeping};

    ghost Value = { Keeping };

    ghost view = { λ k. record {
      clock = k.clock;
      logs = k.logs.items;
      workers = k.workers;
      base = k.base;
      making = k.making;
      next = k.next;
      salt = k.salt;
      failed = k.failed;
    } };
}

impl Keeper {
    /// Returns the bytes of a file that is to be created. They are written under another name and synced, the file is
    /// renamed, and the folder is synced. Then `created` is called. None: no such file is to be created.
    pub fn bytes(&self, log: usize) -> Option<&[u8]>
        ensures bytes { IfSome result (λ bytes. (new : NewFile) × IsAt self.now log (Coming new) × (bytes.now ≡ new.bytes)) }
        ensures none { IfNone result ((new : NewFile) → IsAt self.now log (Coming new) → ⊥) }
    {
        let Some(log) = self.logs.get(log) else {
            return None;
        };
        match &log.stage {
            Stage::Coming(new) => Some(new.bytes()),
            _ => None,
        }
    }

    /// Returns the timestamp below which all updates may be acknowledged.
    pub fn acknowledged_below(&self) -> u64
        ensures reached { (s : Server) → Holds self.now s → AllReached result (files_there s) }
        ensures step { (s : Server) (u : Update) → Holds self.now s → Contains (updates_of s.slots) u → u.timestamp < result → Steps s (acknowledged s u) self.now }
    {
        let mut least = self.clock.saturating_add(1);
        for log in &self.logs {
            if let Some(reach) = log.stage.reach() {
                least = least.min(reach);
            }
        }
        least
    }

    /// Notes that a write or a sync failed. From then on each call is refused, and nothing more is acknowledged.
    pub fn failed(&mut self)
        ensures value { self.new ≡ record self.old { failed = true } }
        ensures kept { (s : Server) → Holds self.old s → Holds self.new s }
    {
        self.failed = true;
    }
}

impl Stage {
    /// Returns how far the file is synced, if it is the newest of its log.
    pub(crate) fn reach(&self) -> Option<u64>
        ensures { result ≡ reach_in self.now }
    {
        match self {
            Stage::Coming(new) => Some(new.mark()),
            Stage::Writing(writer) => Some(writer.reach()),
            Stage::Followed(_) | Stage::Going | Stage::Gone => None,
        }
    }
}
