//! Words that threads share.
ghost use Rattle.std.specs.Prelude.{◌≡◌, ◌+◌, ◌%◌, ◌^◌, ◌<◌, ℕ, length, slice_index, All, IfSome, IfOk, IfErr, OnOk, List};
ghost use Rattle.std.specs.Prelude.{IsTrue, IsErr, ◌↔◌};
ghost use Rattle.mt_shared.specs.Words.{AreAll, Step, Leads, acts_by, acts_at, act, acted, fresh_hands};

use crate::hand::Hand;
use crate::known::{Add, Known, Load, Opening, Rule, Share, Swap};
use atomic_table::Table;
use std::alloc::{AllocError, Global};
use std::marker::Model;
use std::snapshot::Snapshot;

/// Words that threads share.
#[derive(Drop)]
pub struct Words {
    table: Table<(), Known, Opening, Rule, Global>,
    /// The number of hands.
    hands: usize,
}

impl Model for Words {
    ghost use Rattle.std.specs.Prelude.{◌≡◌, ◌<◌, length};
    ghost use Rattle.mt_shared.specs.Words.{WordsView};

    ghost Value = { WordsView };

    ghost view = { λ w. record { table = w.table.shared.table_id; first = w.table.shared.key.words.value.items; hands = w.hands } };

    ghost invariant = { λ w. (w.table.shared.table_id.words ≡ length w.table.shared.key.words.value.items) × (w.hands ≡ w.table.shared.key.hands) × (0 < w.table.shared.table_id.words) × (w.table.shared.table_id.slots ≡ 0) };
}

impl Words {
    /// Opens words with these values, and returns them with their hands, in order of their numbers. Err: out of memory.
    pub fn open(
        alloc: Global,
        words: Vec<u64>,
        hands: usize,
    ) -> Result<(Words, Vec<Hand>), AllocError>
        requires { 0 < length words.items }
        ensures words { IfOk result (λ opened. (opened.0.first ≡ words.items) × (opened.0.hands ≡ hands)) }
        ensures hands { IfOk result (λ opened. opened.1.items ≡ fresh_hands opened.0.table hands) }
    {
        let mut dealt = Vec::with_capacity(alloc, hands)?;
        let opening = Opening {
            words: Snapshot::of(&words),
            hands,
        };
        let (table, mut seat) = Table::of_words(alloc, &words, &opening)?;
        for number in 0..hands {
            let seat = table.shared.split_seat::<Share>(&mut seat);
            dealt.push_reserved(Hand { number, seat });
        }
        Ok((Words { table, hands }, dealt))
    }

    /// Adds to a word, and returns what it was. The sum wraps around.
    pub fn add(&self, hand: &mut Hand, word: usize, more: u64) -> u64
        requires { (hand.old.table ≡ self.now.table) × (word < length self.now.first) }
        ensures { hand.new ≡ acted hand.old (act word result ((result + more) % 2 ^ 64)) }
    {
        self.table
            .shared
            .fetch_add::<Add>(&mut hand.seat, word, more)
    }

    /// Returns a word.
    pub fn load(&self, hand: &mut Hand, word: usize) -> u64
        requires { (hand.old.table ≡ self.now.table) × (word < length self.now.first) }
        ensures { hand.new ≡ acted hand.old (act word result result) }
    {
        self.table.shared.load::<Load>(&mut hand.seat, word)
    }

    /// Puts another value in a word, and returns what it was.
    pub fn swap(&self, hand: &mut Hand, word: usize, value: u64) -> u64
        requires { (hand.old.table ≡ self.now.table) × (word < length self.now.first) }
        ensures { hand.new ≡ acted hand.old (act word result value) }
    {
        self.table.shared.swap::<Swap>(&mut hand.seat, word, value)
    }

    /// Takes all hands back, and returns the first word. All steps have one order, in which each finds what plain words have
    /// there. Err: not all hands are there, in order of their numbers; then the words and the hands are returned.
    pub fn close(self, mut hands: Vec<Hand>) -> Result<u64, (Words, Vec<Hand>)>
        requires { All (λ hand. hand.table ≡ self.table) hands.items }
        ensures order { IfOk result (λ first. (history : List Step) × (after : List ℕ) × Leads self.first history after × (slice_index after 0 ≡ first) × ((k : ℕ) → acts_by k history ≡ acts_at k hands.items)) }
        ensures missing { IsErr result ↔ (AreAll self.hands hands.items → ⊥) }
        ensures back { IfErr result (λ back. (back.0 ≡ self) × (back.1 ≡ hands)) }
    {
        if !are_all(&hands, self.hands) {
            return Err((self, hands));
        }
        let Words { table, .. } = self;
        let Some(last) = hands.pop() else {
            let closed = table.close();
            let first = closed.word(0);
            closed.free();
            return Ok(first);
        };
        let Hand { mut seat, .. } = last;
        while let Some(hand) = hands.pop() {
            let Hand { seat: other, .. } = hand;
            table.shared.join_seat::<Share>(&mut seat, other);
        }
        let closed = table.close_with(seat);
        let first = closed.word(0);
        closed.free();
        Ok(first)
    }
}

/// Returns whether these are all hands, in order of their numbers.
fn are_all(hands: &[Hand], count: usize) -> bool
    ensures { IsTrue result ↔ AreAll count hands.now }
{
    if hands.len() != count {
        return false;
    }
    for i in 0..hands.len() {
        let hand = &hands[i];
        if hand.number != i {
            return false;
        }
    }
    true
}
