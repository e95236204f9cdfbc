//! The report of a recovery, as C sees it.
ghost use Rattle.std.specs.Prelude.{◌≡◌, ◌≢◌, ◌-◌, ◌^◌, ◌∷◌, [], min, slice_get};
ghost use Rattle.mt_recover.specs.Report.{Outcome};
ghost use Rattle.mt_c.specs.Holding.{HoldsOutcome, Holds, IsStore};
ghost use Rattle.mt_c.specs.Reports.{number_or_most, c_report, Tells};
ghost use Rattle.mt_c.specs.Statuses.{IsOneOf, IsRefusedUnless};
ghost use Rattle.mt_c.specs.declared.status.TheConstants.{DONE, WRONG, ABSENT};

use crate::held::Held;
use crate::place::Place;
use crate::status::{ABSENT, DONE, WRONG};
use mt_recover::Report;

/// The report of a recovery as C sees it. A number above 2^64 - 1 is told as 2^64 - 1.
#[repr(C)]
#[derive(Clone, Copy)]
pub struct CReport {
    /// The timestamp below which updates survive.
    pub cutoff: u64,
    /// The greatest timestamp in the logs.
    pub last: u64,
    /// The greatest version in the logs and in the chosen checkpoint, or 0.
    pub version: u64,
    /// The number of the chosen checkpoint, or 2^64 - 1 if there is none.
    pub checkpoint: u64,
    /// The timestamp from which updates survive.
    pub begin: u64,
    /// The number of entries in the chosen checkpoint.
    pub entries: u64,
    /// The number of log files.
    pub logs: u64,
    /// The number of writers' logs.
    pub writers: u64,
    /// The number of complete records, marks included.
    pub records: u64,
    /// The number of marks among them.
    pub marks: u64,
    /// The number of log files that end in a torn tail.
    pub torn: u64,
    /// The number of log files with a hole before them.
    pub holes: u64,
    /// The number of invalid checkpoints.
    pub skipped: u64,
    /// The number of nameless parts.
    pub nameless: u64,
    /// The number of updates below `begin`.
    pub early: u64,
    /// The number of updates at or after the cutoff.
    pub late: u64,
    /// The number of updates and entries that survive.
    pub survivors: u64,
    /// The number of keys in the store.
    pub keys: u64,
    /// The number of layers of its tree.
    pub layers: u64,
}

impl CReport {
    /// Returns the report as C sees it.
    fn of(report: &Report) -> CReport
        ensures { result ≡ c_report report.now }
    {
        CReport {
            cutoff: report.cutoff,
            last: report.last,
            version: report.version,
            checkpoint: checkpoint_in(report),
            begin: report.begin,
            entries: capped(report.entries),
            logs: report.logs as u64,
            writers: report.writers as u64,
            records: capped(report.records),
            marks: capped(report.marks),
            torn: report.torn as u64,
            holes: report.holes as u64,
            skipped: report.skipped.len() as u64,
            nameless: report.nameless.len() as u64,
            early: capped(report.early),
            late: capped(report.late),
            survivors: capped(report.survivors),
            keys: capped(report.keys),
            layers: report.layers,
        }
    }
}

/// Returns the number of the chosen checkpoint, or 2^64 - 1 if there is none.
fn checkpoint_in(report: &Report) -> u64
    ensures { result ≡ number_or_most report.now.checkpoint }
{
    match report.checkpoint {
        Some(number) => u64::from(number),
        None => u64::MAX,
    }
}

/// Returns the number, or 2^64 - 1 if it is above that.
fn capped(number: u128) -> u64
    ensures { result ≡ min number (2 ^ 64 - 1) }
{
    if number > u128::from(u64::MAX) {
        return u64::MAX;
    }
    number as u64
}

/// Tells the report of the store. `WRONG`: the place does not hold a store.
#[unsafe(no_mangle)]
pub extern "C" fn mtr_get_report(store: &mut Place, report: &mut CReport) -> u32
    ensures same { store.new.handle.value ≡ store.old.handle.value }
    ensures done { (outcome : Outcome) → HoldsOutcome outcome store.old.handle.value → (result ≡ DONE) × (report.new ≡ c_report outcome.report) }
    ensures kept { result ≢ DONE → report.new ≡ report.old }
    ensures certain { IsOneOf (DONE ∷ WRONG ∷ []) result }
    ensures refused { IsRefusedUnless (Holds IsStore store.old.handle.value) result }
{
    let Some(Held::Store(recovered)) = store.held() else {
        return WRONG;
    };
    *report = CReport::of(recovered.report());
    DONE
}

/// Tells where the complete records of a log end: the number of bytes of its header and of these records, or 2^64 - 1 if
/// there are more. `ABSENT`: there is no log of this number. `WRONG`: the place does not hold a store.
#[unsafe(no_mangle)]
pub extern "C" fn mtr_report_end(store: &mut Place, log: usize, end: &mut u64) -> u32
    ensures same { store.new.handle.value ≡ store.old.handle.value }
    ensures told { (outcome : Outcome) → HoldsOutcome outcome store.old.handle.value → Tells (slice_get outcome.report.ends.items log) end.new result }
    ensures kept { result ≢ DONE → end.new ≡ end.old }
    ensures certain { IsOneOf (DONE ∷ WRONG ∷ ABSENT ∷ []) result }
    ensures refused { IsRefusedUnless (Holds IsStore store.old.handle.value) result }
{
    let Some(Held::Store(recovered)) = store.held() else {
        return WRONG;
    };
    let Some(bytes) = recovered.report().ends.get(log) else {
        return ABSENT;
    };
    *end = *bytes;
    DONE
}

/// Tells the number of the invalid checkpoint at position `i`; they rise. `ABSENT`: there are not so many. `WRONG`: the
/// place does not hold a store.
#[unsafe(no_mangle)]
pub extern "C" fn mtr_report_skipped(store: &mut Place, i: usize, number: &mut u64) -> u32
    ensures same { store.new.handle.value ≡ store.old.handle.value }
    ensures told { (outcome : Outcome) → HoldsOutcome outcome store.old.handle.value → Tells (slice_get outcome.report.skipped.items i) number.new result }
    ensures kept { result ≢ DONE → number.new ≡ number.old }
    ensures certain { IsOneOf (DONE ∷ WRONG ∷ ABSENT ∷ []) result }
    ensures refused { IsRefusedUnless (Holds IsStore store.old.handle.value) result }
{
    let Some(Held::Store(recovered)) = store.held() else {
        return WRONG;
    };
    let Some(checkpoint) = recovered.report().skipped.get(i) else {
        return ABSENT;
    };
    *number = u64::from(*checkpoint);
    DONE
}

/// Tells the position of the nameless part at position `i`; they rise. `ABSENT`: there are not so many. `WRONG`: the
/// place does not hold a store.
#[unsafe(no_mangle)]
pub extern "C" fn mtr_report_nameless(store: &mut Place, i: usize, part: &mut u64) -> u32
    ensures same { store.new.handle.value ≡ store.old.handle.value }
    ensures told { (outcome : Outcome) → HoldsOutcome outcome store.old.handle.value → Tells (slice_get outcome.report.nameless.items i) part.new result }
    ensures kept { result ≢ DONE → part.new ≡ part.old }
    ensures certain { IsOneOf (DONE ∷ WRONG ∷ ABSENT ∷ []) result }
    ensures refused { IsRefusedUnless (Holds IsStore store.old.handle.value) result }
{
    let Some(Held::Store(recovered)) = store.held() else {
        return WRONG;
    };
    let Some(position) = recovered.report().nameless.get(i) else {
        return ABSENT;
    };
    *part = *position as u64;
    DONE
}
