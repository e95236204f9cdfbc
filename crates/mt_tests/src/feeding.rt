//! A log in chunks: what can be taken before it ends.
use crate::asserting::assert_same;
use crate::logs::LOG_A;
use mt_record::LogFeed;

#[test]
fn gives_at_the_end_the_records_that_were_not_taken(rt: HostRuntime) {
    let mut feed = LogFeed::new(rt.alloc());
    let (put, mark) = LOG_A.split_at(45);
    feed.feed(put).expect(&rt, "no fault");
    assert_same(&rt, &feed.take().len(), &1);
    feed.feed(mark).expect(&rt, "no fault");
    let text = feed.finish().expect(&rt, "a log");
    assert_same(&rt, &text.records.len(), &1);
}
