//! Why not all was printed.
ghost use Rattle.std.specs.Prelude.{◌≡◌};
ghost use Rattle.mt_text.specs.declared.print_fault.PrintFault.TheVariants as faults;

use mt_words::Memory;
use std::io;
use thiserror::Error;

/// Why not all was printed.
#[derive(Debug, Drop, Error)]
pub enum PrintFault {
    /// Write error on the output.
    #[error("output failed")]
    Output(io::Error),
    /// Out of memory.
    #[error("no memory")]
    Memory,
}

impl From<io::Error> for PrintFault {
    ghost from_gives = { λ error fault. fault ≡ faults.Output error };

    fn from(error: io::Error) -> PrintFault {
        PrintFault::Output(error)
    }
}

impl From<Memory> for PrintFault {
    ghost from_gives = { λ _ fault. fault ≡ faults.Memory };

    fn from(_memory: Memory) -> PrintFault {
        PrintFault::Memory
    }
}
