//! Where a walk of a store ends.
use crate::asserting::assert_same;
use crate::logs::LOG_OF_THREE;
use mt_recover::recover_logs;
use mt_tree::Visitor;
use mt_words::PackedColumns;

/// A visitor that counts the pairs it is shown. It refuses one of them, and is full after some.
#[derive(Clone, Copy)]
struct Counting {
    refused: u64,
    full: u64,
}

impl Visitor<u64> for Counting {
    type Error = ();

    ghost shown = { λ _ _ _. Unit {0} };

    fn visit(&self, shown: &mut u64, _key: &[u8], _columns: &PackedColumns) -> Result<(), ()> {
        *shown = shown.saturating_add(1);
        if *shown == self.refused {
            Err(())
        } else {
            Ok(())
        }
    }

    fn is_full(&self, shown: &u64) -> bool {
        *shown == self.full
    }

    ghost none = { λ _. record {} };

    ghost more = { λ _ _ _ _ _ _ _. record {} };
}

#[test]
fn a_walk_ends_once_its_visitor_is_full_or_refuses_a_pair(rt: HostRuntime) {
    let recovered = recover_logs(rt.alloc(), &[LOG_OF_THREE]);
    let recovered = recovered.expect(&rt, "a store");
    for (refused, full) in [(2, 9), (9, 2)] {
        let mut shown = 0;
        let visitor = Counting { refused, full };
        let walked = recovered.store().visit(&visitor, &mut shown);
        assert_same(&rt, &walked.is_err(), &(refused == 2));
        assert_same(&rt, &shown, &2);
    }
}
