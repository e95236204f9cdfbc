//! The status that tells C why a keeper refuses a call.
ghost use Rattle.std.specs.Prelude.{◌≡◌, ◌≢◌, ◌∷◌, []};
ghost use Rattle.mt_c.specs.Keepers.{writer_status, fault_status};
ghost use Rattle.mt_c.specs.Statuses.{IsOneOf};
ghost use Rattle.mt_c.specs.declared.status.TheConstants.{DONE, MEMORY, WRONG, EARLY, FULL, FAILED};

use crate::status::{EARLY, FAILED, FULL, MEMORY, WRONG};
use mt_keeper::KeeperFault;
use mt_writer::WriterFault;

/// Returns the status that tells why a keeper refuses.
pub fn fault_status(fault: KeeperFault) -> u32
    ensures value { result ≡ fault_status fault }
    ensures not_done { result ≢ DONE }
    ensures certain { IsOneOf (MEMORY ∷ WRONG ∷ EARLY ∷ FULL ∷ FAILED ∷ []) result }
{
    match fault {
        KeeperFault::Log => WRONG,
        KeeperFault::Early => EARLY,
        KeeperFault::Writer(fault) => writer_status(fault),
    }
}

/// Returns the status that tells why a writer refuses.
fn writer_status(fault: WriterFault) -> u32
    ensures value { result ≡ writer_status fault }
    ensures not_done { result ≢ DONE }
    ensures certain { IsOneOf (MEMORY ∷ WRONG ∷ EARLY ∷ FULL ∷ FAILED ∷ []) result }
{
    match fault {
        WriterFault::Failed => FAILED,
        WriterFault::Ended | WriterFault::Full => FULL,
        WriterFault::Untaken => EARLY,
        WriterFault::Version | WriterFault::Key | WriterFault::Columns => WRONG,
        WriterFault::Memory => MEMORY,
    }
}
