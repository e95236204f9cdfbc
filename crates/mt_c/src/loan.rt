//! A keeper that lent its logs to threads of C.
ghost use Rattle.std.specs.Prelude.{◌≡◌, ◌↔◌, [], List, IfOk, IfErr, IfSome, OnOk, OnErr, IsNone, IsTrue, MatchOption, MatchResult};
ghost use Rattle.std.specs.List.{AllZip};
ghost use Rattle.std.specs.Arc.{arc_value};
ghost use Rattle.mt_laws.specs.Writing.{Server};
ghost use Rattle.mt_keeper.specs.Keeping.{Holds};
ghost use Rattle.mt_keeper.specs.Crews.{Deed, HasDone, HaveOneOrder};
ghost use Rattle.mt_keeper.specs.Refusals.{LendsNone};
ghost use Rattle.mt_c.specs.Loans.{Awaits, HasAll, Hires, IsFresh, joined, crew_in};

use crate::borrower::Borrower;
use mt_keeper::{Crew, Keeper, KeeperFault, LentLog};
use mt_words::Memory;
use std::alloc::Global;
use std::marker::Model;
use std::sync::Arc;

/// The crew of a loan.
#[derive(Drop)]
pub enum Shared {
    /// No borrower has it.
    Whole(Crew),
    /// Borrowers may have it too.
    Among(Arc<Crew>),
}

impl Shared {
    /// Returns the crew, to be shared if there is memory.
    fn among(self, alloc: Global) -> Shared
        ensures { crew_in result ≡ crew_in self }
    {
        match self {
            Shared::Whole(crew) => match Arc::new(alloc, crew) {
                Ok(crew) => Shared::Among(crew),
                Err(refused) => Shared::Whole(refused.value),
            },
            among => among,
        }
    }

    /// Shares the crew once more. None: it cannot be shared.
    fn another(&self) -> Option<Arc<Crew>>
        ensures { IfSome result (λ crew. arc_value crew ≡ crew_in self.now) }
    {
        match self {
            Shared::Whole(_) => None,
            Shared::Among(crew) => match Arc::try_clone(crew) {
                Ok(crew) => Some(crew),
                Err(_) => None,
            },
        }
    }

    /// Returns the crew itself. Err: a borrower has it.
    fn whole(self) -> Result<Crew, Shared>
        ensures { MatchResult result (λ crew. crew ≡ crew_in self) (λ shared. crew_in shared ≡ crew_in self) }
    {
        match self {
            Shared::Whole(crew) => Ok(crew),
            Shared::Among(crew) => match Arc::try_unwrap(crew) {
                Ok(crew) => Ok(crew),
                Err(crew) => Err(Shared::Among(crew)),
            },
        }
    }
}

/// A keeper that lent its logs.
#[derive(Drop)]
pub struct Loan {
    crew: Shared,
    /// How many logs it lent.
    count: usize,
    /// Those that are not handed out. Has room for all.
    logs: Vec<LentLog>,
}

impl Model for Loan {
    ghost use Rattle.std.specs.Prelude.{◌≡◌, ◌≤◌, length, vec_capacity};
    ghost use Rattle.mt_c.specs.Loans.{IsLoan, LoanView, crew_in};

    ghost Value = { LoanView };

    ghost view = { λ l. record { crew = crew_in l.crew; logs = l.logs.items } };

    ghost invariant = { λ l. IsLoan (record { crew = crew_in l.crew; logs = l.logs.items }) × (l.count ≡ length (crew_in l.crew).numbers) × (l.count ≤ vec_capacity l.logs) };
}

impl Loan {
    /// Lends the logs of the keeper. Err: why it lends none, and the keeper.
    pub fn begin(alloc: Global, keeper: Keeper) -> Result<Loan, (KeeperFault, Keeper)>
        ensures fresh { IfOk result (IsFresh keeper) }
        ensures err { IfErr result (λ err. err.1 ≡ keeper) }
        ensures fault { IfErr result (λ err. LendsNone keeper err.0) }
    {
        match keeper.lend(alloc) {
            Ok((crew, logs)) => {
                let count = logs.len();
                Ok(Loan {
                    crew: Shared::Whole(crew),
                    count,
                    logs,
                })
            }
            Err(err) => Err(err),
        }
    }

    /// Makes ready to hand out a log, if there is memory.
    pub fn ready(self, alloc: Global) -> Loan
        ensures { result ≡ self }
    {
        let Loan { crew, count, logs } = self;
        Loan {
            crew: crew.among(alloc),
            count,
            logs,
        }
    }

    /// Hands out the last log. `None`: all are handed out. Err: it is not ready.
    pub fn hire(&mut self) -> Result<Option<Borrower>, Memory>
        ensures done { IfOk result (λ hired. MatchOption hired ((self.old.logs ≡ []) × (self.new ≡ self.old)) (Hires self.old self.new)) }
        ensures kept { OnErr result (self.new ≡ self.old) }
    {
        let Some(crew) = self.crew.another() else {
            return Err(Memory);
        };
        let Some(log) = self.logs.pop() else {
            return Ok(None);
        };
        let number = self.logs.len();
        Ok(Some(Borrower { crew, number, log }))
    }

    /// Returns whether this borrower is the last one that was handed out and is not back.
    pub fn awaits(&self, borrower: &Borrower) -> bool
        ensures { IsTrue result ↔ Awaits self.now borrower.now }
    {
        borrower.number == self.logs.len()
    }

    /// Takes the log back.
    pub fn join(&mut self, borrower: Borrower)
        requires awaits { Awaits self.old borrower }
        requires own { borrower.crew ≡ self.old.crew }
        ensures { self.new ≡ joined self.old borrower }
    {
        let Borrower { log, .. } = borrower;
        self.logs.push_reserved(log);
    }

    /// Returns whether no log is handed out.
    fn has_all(&self) -> bool
        ensures { IsTrue result ↔ HasAll self.now }
    {
        self.logs.len() == self.count
    }

    /// Takes all logs back, and returns the keeper. Err: the loan; with `Memory` there is no memory, else a log is handed out.
    pub fn close(self, alloc: Global) -> Result<Keeper, (Option<Memory>, Loan)>
        ensures order { (s : Server) (deeds : List (List Deed)) → Holds self.crew.before s → AllZip (HasDone self.crew.before) self.logs deeds →
            IfOk result (HaveOneOrder self.crew.numbers deeds s) }
        ensures all { OnOk result (HasAll self) }
        ensures err { IfErr result (λ err. (err.1 ≡ self) × (IsNone err.0 ↔ (HasAll self → ⊥))) }
    {
        if !self.has_all() {
            return Err((None, self));
        }
        let Loan { crew, count, logs } = self;
        match crew.whole() {
            Ok(crew) => match crew.close(alloc, logs) {
                Ok(keeper) => Ok(keeper),
                Err((crew, logs)) => {
                    let crew = Shared::Whole(crew);
                    Err((Some(Memory), Loan { crew, count, logs }))
                }
            },
            Err(crew) => Err((Some(Memory), Loan { crew, count, logs })),
        }
    }
}
