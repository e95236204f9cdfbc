//! Lends logs to threads, and takes them back.
ghost use Rattle.std.specs.Prelude.{◌≡◌, ◌⊎◌, ◌↔◌, ◌<◌, ◌≤◌, ◌^◌, ℕ, Some, None, List, [], map, length, All, IfOk, IfErr, IsErr, IfSome, slice_get};
ghost use Rattle.std.specs.List.{AllZip};
ghost use Rattle.mt_laws.specs.Writing.{Server};
ghost use Rattle.mt_keeper.specs.Keeping.{Holds};
ghost use Rattle.std.specs.Prelude.{IsTrue, ◌||◌, vec_len, vec_capacity};
ghost use Rattle.mt_shared.specs.Words.{fresh_hands};
ghost use Rattle.mt_keeper.specs.Crews.{LentView, Deed, HasDone, HaveOneOrder, have_failed, written_from, words_of};
ghost use Rattle.mt_keeper.specs.Lending.{AreLent, IsDealt, IsFresh, MayLend};
ghost use Rattle.mt_keeper.specs.Refusals.{LendsNone};

use crate::keeper::{Keeper, Log, Stage};
use crate::keeper_fault::KeeperFault;
use crate::lent_log::LentLog;
use mt_shared::{Hand, Words};
use mt_words::Memory;
use mt_writer::WriterFault;
use std::alloc::Global;
use std::marker::Model;
use std::mem;
use std::snapshot::Snapshot;

/// The most stamps that a lent log draws.
pub const MOST_STAMPS: u64 = 1 << 44;

/// The most logs of a keeper that lends them.
pub const MOST_LOGS: usize = 1 << 16;

/// A keeper lends its logs up to this last stamp.
pub const LATEST_LENT: u64 = 1 << 63;

/// Threads that write logs which a keeper lent to them, without a lock.
#[derive(Drop)]
pub struct Crew {
    /// The clock, and then how far each log is synced.
    pub(crate) words: Words,
    /// The number of logs, lent or not.
    pub(crate) logs: usize,
    /// The keeper, without the logs that are lent.
    keeper: Keeper,
    /// The numbers of the logs that are lent.
    numbers: Vec<usize>,
    /// The keeper as it was. This field takes no bytes.
    before: Snapshot<Keeper>,
}

impl Model for Crew {
    ghost use Rattle.mt_keeper.specs.Crews.{CrewView};
    ghost use Rattle.std.specs.Prelude.{◌≡◌, length, vec_len, vec_capacity};
    ghost use Rattle.mt_keeper.specs.Lending.{IsDealt, IsParted, MayLend};

    ghost Value = { CrewView };

    ghost view = { λ c. record { table = c.words.table; before = c.before.value; numbers = c.numbers.items } };

    ghost invariant = { λ c. (c.logs ≡ length c.before.value.logs) × MayLend c.before.value × IsParted c.before.value c.numbers.items c.keeper
        × IsDealt c.before.value c.words c.numbers.items };
}

impl Keeper {
    /// Lends each log that is written. Err: the keeper as it was. `Failed`: a write or a sync failed. `Ended`: the last stamp
    /// is too late. `Full`: there are too many logs.
    pub fn lend(self, alloc: Global) -> Result<(Crew, Vec<LentLog>), (KeeperFault, Keeper)>
        ensures crew { IfOk result (λ lent. (lent.0.before ≡ self) × (lent.0.numbers ≡ written_from 0 self.logs)) }
        ensures logs { IfOk result (λ lent. map (λ (l : LentView). l.number) lent.1.items ≡ written_from 0 self.logs) }
        ensures fresh { IfOk result (λ lent. All (λ l. (l.table ≡ lent.0.table) × HasDone self l []) lent.1.items) }
        ensures err { IfErr result (λ err. err.1 ≡ self) }
        ensures fault { IfErr result (λ err. LendsNone self err.0) }
    {
        if self.failed {
            return Err((WriterFault::Failed.into(), self));
        }
        if self.clock >= LATEST_LENT {
            return Err((WriterFault::Ended.into(), self));
        }
        if self.logs.len() > MOST_LOGS {
            return Err((WriterFault::Full.into(), self));
        }
        match deal(alloc, &self) {
            Err(memory) => Err((memory.into(), self)),
            Ok(dealt) => Ok(part(self, dealt)),
        }
    }
}

/// What is made to lend logs.
struct Dealt {
    words: Words,
    numbers: Vec<usize>,
    hands: Vec<Hand>,
    /// Has room for all lent logs.
    lent: Vec<LentLog>,
}

/// Makes what lending takes. Err: out of memory.
fn deal(alloc: Global, keeper: &Keeper) -> Result<Dealt, Memory>
    ensures made { IfOk result (λ d. IsDealt keeper.now d.words d.numbers.items) }
    ensures hands { IfOk result (λ d. d.hands.items ≡ fresh_hands d.words.table (length d.numbers.items)) }
    ensures lent { IfOk result (λ d. (d.lent.items ≡ []) × (vec_len d.lent ≡ 0) × (length d.numbers.items ≤ vec_capacity d.lent)) }
{
    let mut words = Vec::new(alloc);
    let mut numbers = Vec::new(alloc);
    words.push(keeper.clock)?;
    for number in 0..keeper.logs.len() {
        let log = &keeper.logs[number];
        words.push(log.stage.reach().unwrap_or(u64::MAX))?;
        if let Stage::Writing(_) = log.stage {
            numbers.push(number)?;
        }
    }
    let count = numbers.len();
    let lent = Vec::with_capacity(alloc, count)?;
    let (words, hands) = Words::open(alloc, words, count)?;
    Ok(Dealt {
        words,
        numbers,
        hands,
        lent,
    })
}

/// Takes the written logs out of the keeper.
fn part(keeper: Keeper, dealt: Dealt) -> (Crew, Vec<LentLog>)
    requires may { MayLend keeper }
    requires made { IsDealt keeper dealt.words dealt.numbers.items }
    requires hands { dealt.hands.items ≡ fresh_hands dealt.words.table (length dealt.numbers.items) }
    requires lent { (dealt.lent.items ≡ []) × (vec_len dealt.lent ≡ 0) × (length dealt.numbers.items ≤ vec_capacity dealt.lent) }
    ensures crew { (result.0.before ≡ keeper) × (result.0.numbers ≡ dealt.numbers.items) }
    ensures many { length result.1.items ≡ length dealt.numbers.items }
    ensures fresh { (i : ℕ) (lent : LentView) → slice_get result.1.items i ≡ Some lent → IsFresh keeper result.0.table dealt.numbers.items i lent }
{
    let before = Snapshot::of(&keeper);
    let mut keeper = keeper;
    let Dealt {
        words,
        numbers,
        hands,
        mut lent,
    } = dealt;
    for hand in hands {
        let number = numbers[hand.number()];
        let gone = Log {
            segment: None,
            from: 0,
            stage: Stage::Gone,
        };
        let log = mem::replace(&mut keeper.logs[number], gone);
        let Log {
            segment,
            from,
            stage,
        } = log;
        let Stage::Writing(writer) = stage else {
            unreachable!()
        };
        lent.push_reserved(LentLog {
            hand,
            number,
            segment,
            from,
            writer,
            left: MOST_STAMPS,
            failed: false,
        });
    }
    let logs = keeper.logs.len();
    let crew = Crew {
        words,
        logs,
        keeper,
        numbers,
        before,
    };
    (crew, lent)
}

impl Crew {
    /// Takes all lent logs back, and returns the keeper. All that was done with them has one order, as calls of one server.
    /// Err: not all lent logs are there, in the order in which they were lent, or out of memory; then the crew and the logs are
    /// returned.
    pub fn close(self, alloc: Global, lent: Vec<LentLog>) -> Result<Keeper, (Crew, Vec<LentLog>)>
        requires { All (λ l. l.table ≡ self.table) lent.items }
        ensures order { (s : Server) (deeds : List (List Deed)) → Holds self.before s → AllZip (HasDone self.before) lent.items deeds →
            IfOk result (HaveOneOrder self.numbers deeds s) }
        ensures kept { IfOk result (λ keeper. keeper ≡ record self.before { clock = keeper.clock; logs = keeper.logs; failed = keeper.failed }) }
        ensures failed { IfOk result (λ keeper. keeper.failed ≡ (self.before.failed || have_failed lent.items)) }
        ensures back { IfErr result (λ back. (back.0 ≡ self) × (back.1 ≡ lent)) }
    {
        if !are_all(&lent, &self.numbers) {
            return Err((self, lent));
        }
        let Ok(mut hands) = Vec::with_capacity(alloc, lent.len()) else {
            return Err((self, lent));
        };
        let Crew {
            words,
            mut keeper,
            ..
        } = self;
        for log in lent {
            let LentLog {
                hand,
                number,
                segment,
                from,
                writer,
                failed,
                ..
            } = log;
            hands.push_reserved(hand);
            keeper.logs[number] = Log {
                segment,
                from,
                stage: Stage::Writing(writer),
            };
            keeper.failed = keeper.failed | failed;
        }
        let Ok(clock) = words.close(hands) else {
            unreachable!()
        };
        keeper.clock = clock;
        Ok(keeper)
    }
}

/// Returns whether these are the logs of these numbers, in order.
fn are_all(lent: &[LentLog], numbers: &[usize]) -> bool
    ensures { IsTrue result ↔ AreLent numbers.now lent.now }
{
    if lent.len() != numbers.len() {
        return false;
    }
    for i in 0..lent.len() {
        let log = &lent[i];
        if log.hand.number() != i || log.number != numbers[i] {
            return false;
        }
    }
    true
}
