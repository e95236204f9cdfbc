//! A log that a keeper lent to a thread of C.
use mt_keeper::{Crew, LentLog};
use std::marker::Model;
use std::sync::Arc;

/// A log that was handed out. Its thread needs nothing else.
#[derive(Drop)]
pub struct Borrower {
    pub crew: Arc<Crew>,
    /// How many logs of the crew come before it.
    pub number: usize,
    pub log: LentLog,
}

impl Model for Borrower {
    ghost use Rattle.std.specs.Arc.{arc_value};
    ghost use Rattle.mt_c.specs.Borrowing.{BorrowerView, IsBorrower};

    ghost Value = { BorrowerView };

    ghost view = { λ b. record { crew = arc_value b.crew; number = b.number; log = b.log } };

    ghost invariant = { λ b. IsBorrower (record { crew = arc_value b.crew; number = b.number; log = b.log }) };
}
