//! Why a keeper refuses a call.
ghost use Rattle.std.specs.Prelude.{◌≡◌};
ghost use Rattle.mt_writer.specs.declared.writer_fault.WriterFault.TheVariants as writer_faults;
ghost use Rattle.mt_keeper.specs.declared.keeper_fault.KeeperFault.TheVariants as faults;

use mt_words::Memory;
use mt_writer::WriterFault;
use thiserror::Error;

/// Why a keeper refuses a call.
#[derive(Clone, Copy, Debug, PartialEq, Eq, Error)]
pub enum KeeperFault {
    /// There is no such log, or it is not ready for the call.
    #[error("no such log")]
    Log,
    /// What the call waits for did not happen yet.
    #[error("too early")]
    Early,
    /// The writer of the log refuses it.
    #[error("{0}")]
    Writer(WriterFault),
}

impl From<WriterFault> for KeeperFault {
    ghost from_gives = { λ fault refused. refused ≡ faults.Writer fault };

    fn from(fault: WriterFault) -> KeeperFault {
        KeeperFault::Writer(fault)
    }
}

impl From<Memory> for KeeperFault {
    ghost from_gives = { λ _ refused. refused ≡ faults.Writer writer_faults.Memory };

    fn from(_memory: Memory) -> KeeperFault {
        KeeperFault::Writer(WriterFault::Memory)
    }
}
