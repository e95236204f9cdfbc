//! A source that the test defines, in a box.
ghost use Rattle.std.specs.Prelude.{[], Some, true, false};

use crate::asserting::assert_same;
use mt_recover::{Inputs, recover_one};
use mt_scan::{Source, SourceFault};
use mt_words::Fault;

/// A source without bytes, which borrows nothing.
#[derive(Drop)]
struct Nothing;

impl Source for Nothing {
    ghost seen = { λ _. record {
      told = Some [];
      bound = 0;
      failures = 0;
      steady = true;
      shown = [];
      spent = false;
    } };

    fn advance(&mut self) -> Result<usize, SourceFault> {
        Ok(0)
    }

    fn piece(&self) -> &[u8] {
        &[]
    }
}

#[test]
fn a_boxed_source_is_a_source(rt: HostRuntime) {
    let boxed: Box<dyn Source + Send> = Box::new(rt.alloc(), Nothing).expect(&rt, "memory");
    let logs = vec![in rt.alloc(); boxed].expect(&rt, "memory");
    let parts = Vec::new(rt.alloc());
    let answer = recover_one(rt.alloc(), Inputs { logs, parts });
    assert_same(&rt, &answer.err(), &Some(Fault::Header { log: 0 }));
}
