//! The first log of an empty folder.
ghost use Rattle.std.specs.Prelude.{◌≡◌, ◌<◌, [], IfOk, vec_len, vec_capacity};
ghost use Rattle.mt_record.specs.Encoding.{segment_head};
ghost use Rattle.mt_writer.specs.Journals.{Begins, begun};
ghost use Rattle.mt_laws.specs.Writing.{Called};
ghost use Rattle.mt_keeper.specs.Keeping.{Holds};
ghost use Rattle.mt_keeper.specs.Calling.{first};
ghost use Rattle.mt_keeper.specs.Filing.{HasFile, next_salt};

use crate::keeper::{Keeper, Log, Stage};
use mt_block::Header;
use mt_record::Segment;
use mt_words::Memory;
use mt_writer::NewLog;
use std::alloc::Global;

/// The first log of an empty folder, which is to be created: segment 0 of worker 0, with a mark at 1.
#[derive(Drop)]
pub struct First {
    new: NewLog,
    /// Has room for the log.
    logs: Vec<Log>,
    ghost begins: { Begins new (segment_head 0 0 0) × (new.mark ≡ 1) },
    ghost room: { (logs.items ≡ []) × (vec_len logs < vec_capacity logs) },
}

impl First {
    /// Begins the log. `salt` is a random number. Err: out of memory.
    pub fn begin(alloc: Global, salt: u64) -> Result<First, Memory>
        ensures { IfOk result (λ first. first.new.header ≡ record { salt = salt; worker = 0; segment = 0; workers = 1; from = 0 }) }
    {
        let header = Header {
            salt,
            worker: 0,
            segment: 0,
            workers: 1,
            from: 0,
        };
        let new = NewLog::begin(alloc, header, 1)?;
        let logs = Vec::with_capacity(alloc, 1)?;
        Ok(First { new, logs })
    }

    /// Returns the bytes of its file. They are written under another name and synced, the file is renamed, and the
    /// folder is synced.
    pub fn bytes(&self) -> &[u8]
        ensures { result.now ≡ self.now.new.bytes }
    {
        self.new.bytes()
    }

    /// Returns the keeper of the log, which has number 0 and may be written.
    pub fn created(self) -> Keeper
        ensures called { Called first }
        ensures holds { Holds result first }
        ensures file { HasFile result 0 (begun (segment_head 0 0 0) 1) self.new.bytes }
        ensures salt { result.salt ≡ next_salt self.new.header.salt }
    {
        let segment = Some(Segment {
            worker: 0,
            number: 0,
        });
        let salt = self.new.header().salt.wrapping_add(1);
        let mut logs = self.logs;
        logs.push_reserved(Log {
            segment,
            from: 0,
            stage: Stage::Writing(self.new.created()),
        });
        Keeper {
            clock: 1,
            logs,
            workers: 1,
            base: 0,
            making: None,
            next: 1,
            salt,
            failed: false,
        }
    }
}
