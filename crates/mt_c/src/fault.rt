//! Faults as C sees them.
ghost use Rattle.std.specs.Prelude.{◌≡◌, ◌≢◌, Some, IfSome, IfNone};
ghost use Rattle.mt_words.specs.declared.fault.Fault.{Fault};
ghost use Rattle.mt_words.specs.declared.fault.What.{What};
ghost use Rattle.mt_c.specs.Told.{c_fault, index_of, what_number, CanBeTold};

use mt_words::{Fault, What};

/// Why there is no store.
#[repr(C)]
#[derive(Clone, Copy, PartialEq, Eq)]
pub struct CFault {
    /// The number of the fault.
    pub kind: u32,
    /// What is wrong with the record, from 1 on, or 0 if the fault is none of a record.
    pub what: u32,
    /// The number of the log or part, or 0 if the fault names none.
    pub index: u64,
    /// The number of the record, or 0 if the fault is none of a record.
    pub nth: u64,
}

impl CFault {
    /// Returns the fault as C sees it.
    pub fn of(fault: Fault) -> CFault
        ensures { result ≡ c_fault fault }
    {
        let (what, nth) = match fault {
            Fault::Record { what, nth, .. } => (number_of(what), nth),
            _ => (0, 0),
        };
        CFault {
            kind: u32::from(fault.number()),
            what,
            index: index_in(fault) as u64,
            nth,
        }
    }

    /// Returns the fault that C sees so, or None if recovery tells no such fault.
    pub fn found(&self) -> Option<Fault>
        ensures value { IfSome result (λ fault. CanBeTold fault × (self.now ≡ c_fault fault)) }
        ensures refused { IfNone result ((fault : Fault) → CanBeTold fault → self.now ≢ c_fault fault) }
    {
        let fault = self.read()?;
        if CFault::of(fault) == *self {
            Some(fault)
        } else {
            None
        }
    }

    /// Returns the fault that has this kind, index and record. None: recovery tells no fault of this kind.
    fn read(&self) -> Option<Fault>
        ensures told { IfSome result CanBeTold }
        ensures found { (fault : Fault) → CanBeTold fault → self.now ≡ c_fault fault → result ≡ Some fault }
    {
        let log = self.index as usize;
        match self.kind {
            1 => Some(Fault::NoLogs),
            2 => Some(Fault::Header { log }),
            3 => Some(Fault::Record {
                log,
                nth: self.nth,
                what: what_of(self.what)?,
            }),
            4 => Some(Fault::Source { log }),
            5 => Some(Fault::PartSource { part: log }),
            6 => Some(Fault::Gap { log }),
            9 => Some(Fault::Doubled { log }),
            10 => Some(Fault::Torn { log }),
            _ => None,
        }
    }
}

/// Returns what is wrong with a record by its number, or None if there is no such number.
fn what_of(number: u32) -> Option<What>
    ensures { (what : What) → number ≡ what_number what → result ≡ Some what }
{
    Some(match number {
        1 => What::Length,
        2 => What::Trailer,
        3 => What::Kind,
        4 => What::Frame,
        5 => What::Version,
        6 => What::Key,
        7 => What::Columns,
        8 => What::Clock,
        9 => What::Checksum,
        _ => return None,
    })
}

/// Returns the number of the log, part or piece that the fault names, or 0.
fn index_in(fault: Fault) -> usize
    ensures { result ≡ index_of fault }
{
    match fault {
        Fault::NoLogs | Fault::Memory => 0,
        Fault::Header { log }
        | Fault::Record { log, .. }
        | Fault::Source { log }
        | Fault::Gap { log }
        | Fault::Doubled { log }
        | Fault::Torn { log } => log,
        Fault::PartSource { part } => part,
        Fault::Missing { piece } => piece as usize,
    }
}

/// Returns the number of what is wrong with a record.
fn number_of(what: What) -> u32
    ensures { result ≡ what_number what }
{
    match what {
        What::Length => 1,
        What::Trailer => 2,
        What::Kind => 3,
        What::Frame => 4,
        What::Version => 5,
        What::Key => 6,
        What::Columns => 7,
        What::Clock => 8,
        What::Checksum => 9,
    }
}
