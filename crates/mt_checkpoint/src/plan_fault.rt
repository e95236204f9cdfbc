//! Why there is no checkpoint of a store.
ghost use Rattle.std.specs.Prelude.{◌≡◌};
ghost use Rattle.mt_checkpoint.specs.declared.plan_fault.PlanFault.TheVariants as faults;

use mt_words::Memory;
use std::alloc::AllocFailed;
use thiserror::Error;

/// Why there is no checkpoint of a store.
#[derive(Clone, Copy, Debug, PartialEq, Eq, Error)]
pub enum PlanFault {
    /// No timestamp is above that of the checkpoint.
    #[error("no timestamp is left")]
    Timestamp,
    /// No version is above that of the entries.
    #[error("no version is left")]
    Version,
    /// More than `MOST_PARTS` parts are needed.
    #[error("too many parts")]
    Parts,
    /// Out of memory.
    #[error("no memory")]
    Memory,
}

impl From<Memory> for PlanFault {
    ghost from_gives = { λ _ fault. fault ≡ faults.Memory };

    fn from(_memory: Memory) -> PlanFault {
        PlanFault::Memory
    }
}

impl<T: Drop> From<AllocFailed<T>> for PlanFault {
    ghost from_gives = { λ _ fault. fault ≡ faults.Memory };

    fn from(_refused: AllocFailed<T>) -> PlanFault {
        PlanFault::Memory
    }
}
