//! Scans that share the cutoff: a scan finds what the pass of another noted.
ghost use Rattle.std.specs.Prelude.{◌≡◌};

use crate::asserting::assert_same;
use crate::logs::LOG_FROM_3_TO_9;
use mt_board::{Board, Pass};
use mt_scan::{Source, SourceFault, scan_shared};
use std::marker::Model;
use std::process::Abort;

/// The length of the first chunk: the header and a put.
const FIRST_PIECE: usize = 45;

/// A source of two chunks with a pass that notes 5 when the first one is read, and another number at the end.
#[derive(Drop)]
struct Noting<'a> {
    board: &'a Board,
    pass: Pass,
    shown: &'a [u8],
    rest: &'a [u8],
    at_end: u64,
}

impl<'a> Model for Noting<'a> {
    ghost use Rattle.std.specs.Prelude.{◌≡◌, Some, length, true, false};
    ghost use Rattle.mt_scan.specs.Sources.{Seen};

    ghost Value = { Seen };

    ghost view = { λ noting. record {
      told = Some noting.rest.now;
      bound = length noting.rest.now;
      failures = 0;
      steady = true;
      shown = noting.shown.now;
      spent = false;
    } };

    ghost invariant = { λ noting. noting.pass.board ≡ noting.board.now };
}

impl Source for Noting<'_> {
    ghost seen = { λ noting. noting };

    fn advance(&mut self) -> Result<usize, SourceFault> {
        if self.rest.is_empty() {
            self.board.note(&mut self.pass, self.at_end);
        }
        // Before the first call no bytes are shown.
        let count = if self.shown.is_empty() {
            self.board.note(&mut self.pass, 5);
            self.rest.len().min(FIRST_PIECE)
        } else {
            self.rest.len()
        };
        (self.shown, self.rest) = self.rest.split_at(count);
        Ok(count)
    }

    fn piece(&self) -> &[u8] {
        self.shown
    }
}

/// Scans that source. Returns how many updates are kept, how many are dropped, and the least number afterwards.
fn scan_noting<R: Abort + AllocGlobal>(rt: &R, at_end: u64) -> (usize, u64, u64) {
    let opened = Board::open(rt.alloc(), 0, 2);
    let (board, mut passes) = opened.expect(rt, "a board");
    let pass = passes.pop().expect(rt, "a second pass");
    let mut first = passes.pop().expect(rt, "a first pass");
    let mut source = Noting {
        board: &board,
        pass,
        shown: &[],
        rest: LOG_FROM_3_TO_9,
        at_end,
    };
    let scan = scan_shared(rt.alloc(), &mut source, 0, &board, &mut first);
    let scan = scan.expect(rt, "a scan");
    (scan.updates.len(), scan.dropped, board.least(&mut first))
}

#[test]
fn a_scan_looks_before_each_call_of_its_source(rt: HostRuntime) {
    assert_same(&rt, &scan_noting(&rt, u64::MAX), &(1, 2, 5));
    assert_same(&rt, &scan_noting(&rt, 2), &(1, 2, 2));
}
