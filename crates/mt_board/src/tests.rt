//! Tests of what no contract says: that a claim draws the next number, and that a look finds what another pass noted.
//! Also tests of the order of faults.
ghost use Rattle.std.specs.Prelude.{◌≡◌};

use crate::{Board, BoardFault, Pass};
use std::process::Abort;

/// Opens a board with `total` numbers, and returns it with its two passes in order.
fn open_for_two<R: Abort + AllocGlobal>(rt: &R, total: u32) -> (Board, Pass, Pass)
    ensures { (result.1.board ≡ result.0) × (result.2.board ≡ result.0) }
{
    let opened = Board::open(rt.alloc(), total, 2);
    let (board, mut passes) = opened.expect(rt, "a board");
    let second = passes.pop().expect(rt, "a second pass");
    let first = passes.pop().expect(rt, "a first pass");
    (board, first, second)
}

#[test]
fn passes_draw_in_turn(rt: HostRuntime) {
    let (board, mut first, mut second) = open_for_two(&rt, 3);
    let drawn = [
        board.claim(&mut first),
        board.claim(&mut second),
        board.claim(&mut first),
        board.claim(&mut second),
        board.claim(&mut first),
    ];
    assert_eq!(&rt; drawn, [Some(0), Some(1), Some(2), None, None]);
}

#[test]
fn a_board_without_numbers_has_none_to_claim(rt: HostRuntime) {
    let (board, mut passes) = Board::open(rt.alloc(), 0, 1).expect(&rt, "a board");
    let mut pass = passes.pop().expect(&rt, "a pass");
    assert_eq!(&rt; board.claim(&mut pass), None);
}

#[test]
fn a_look_finds_what_another_pass_noted(rt: HostRuntime) {
    let (board, mut first, mut second) = open_for_two(&rt, 3);
    assert_eq!(&rt; board.least(&mut second), u64::MAX);
    board.note(&mut first, 7);
    board.note(&mut second, 9);
    assert_eq!(&rt; board.least(&mut second), 7);
}

#[test]
fn a_board_closes_once_all_passes_are_back(rt: HostRuntime) {
    let (board, mut first, second) = open_for_two(&rt, 3);
    board.note(&mut first, 7);
    let passes = vec![in rt.alloc(); first].expect(&rt, "memory");
    let Err((board, mut passes)) = board.close(passes) else {
        panic!(&rt; "closed without its second pass")
    };
    passes.push(second).expect(&rt, "memory");
    let Ok(closed) = board.close(passes) else {
        panic!(&rt; "not closed with all its passes")
    };
    assert_eq!(&rt; closed.least, 7);
}

#[test]
fn the_total_is_refused_before_the_passes(rt: HostRuntime) {
    let refused = [
        (4097, 1, BoardFault::Total),
        (4097, 65, BoardFault::Total),
        (0, 65, BoardFault::Passes),
        (0, 0, BoardFault::Passes),
    ];
    for (total, passes, fault) in refused {
        let Err(found) = Board::open(rt.alloc(), total, passes) else {
            panic!(&rt; "opened with {total} numbers and {passes} passes")
        };
        assert_eq!(&rt; found, fault);
    }
}
