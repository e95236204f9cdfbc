//! What is wrong with a line of a case file.
use mt_words::Memory;
use std::alloc::{AllocError, AllocFailed};
use std::io;

/// Why a line of a case file is not understood, as text.
#[derive(Clone, Copy)]
pub struct Mistake(pub &'static str);

impl Mistake {
    pub const LINE: Mistake = Mistake("no such line");

    pub const NUMBER: Mistake = Mistake("not a number, or out of range");

    pub const NO_PASS: Mistake = Mistake(
        "a letter stands for nothing, since the case does not begin with its line each",
    );

    pub const DIGITS: Mistake = Mistake("not hexadecimal digits");

    pub const COLUMN: Mistake = Mistake("not a column, or not above the one before it");

    pub const KEY: Mistake = Mistake("the key is too long: spell it in bytes");

    pub const CUTS: Mistake = Mistake("the cuts do not rise, or are too many");

    pub const UNLAWFUL: Mistake = Mistake("no lawful record or entry: spell it in bytes");

    pub const FORMAT: Mistake = Mistake("an entry that format 1 does not have");

    pub const NO_DRAFT: Mistake = Mistake("no log and no part before it");

    pub const NO_NAME: Mistake = Mistake("no such name above");

    pub const TWICE: Mistake = Mistake("the name is there already");

    pub const PLACE: Mistake = Mistake("no such place in the bytes");

    pub const SPELLING: Mistake = Mistake("the bytes are others");

    pub const MISPLACED: Mistake = Mistake(
        "an entry in a log or behind bytes, or a record in a part",
    );

    pub const NOTHING: Mistake = Mistake("the case expects nothing");

    pub const SLOT: Mistake = Mistake("a slot has no buffer");

    pub const MEMORY: Mistake = Mistake("no memory");
}

impl From<Memory> for Mistake {
    fn from(_refused: Memory) -> Mistake {
        Mistake::MEMORY
    }
}

impl From<AllocError> for Mistake {
    fn from(_refused: AllocError) -> Mistake {
        Mistake::MEMORY
    }
}

impl<T: Drop> From<AllocFailed<T>> for Mistake {
    fn from(_refused: AllocFailed<T>) -> Mistake {
        Mistake::MEMORY
    }
}

/// Only writes to memory use this. They fail only if memory runs out.
impl From<io::Error> for Mistake {
    fn from(_refused: io::Error) -> Mistake {
        Mistake::MEMORY
    }
}
