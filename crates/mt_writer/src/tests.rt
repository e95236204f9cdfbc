//! Tests of what no contract says: that a log takes records and hands them out, and is sealed, and that a part is written.
use crate::{LogWriter, NewLog, PartWriter, PartWriterFault, WriterFault};
use mt_block::{Header, PartHeader};
use mt_record::{Given, Rest, read_log};

const HEADER: Header = Header {
    salt: 7,
    worker: 3,
    segment: 0,
    workers: 4,
    from: 0,
};

/// Puts one column under `k`, and returns the timestamp.
fn put(log: &mut LogWriter, now: u64, version: u64) -> Result<u64, WriterFault> {
    let red = Given {
        number: 0,
        bytes: b"red",
    };
    log.put(now, version, b"k", &[red])
}

#[test]
fn what_is_written_is_read(rt: HostRuntime) {
    let alloc = rt.alloc();
    let new = NewLog::begin(alloc, HEADER, 5).expect(&rt, "memory");
    let mut file = Vec::new(alloc);
    file.extend_from_slice(new.bytes()).expect(&rt, "memory");
    let mut log = new.created();
    assert_eq!(&rt; put(&mut log, 7, 7), Ok(7));
    assert_eq!(&rt; put(&mut log, 6, 8), Ok(7));
    assert_eq!(&rt; log.erase(8, 9, b"k", &[0]), Ok(8));
    assert_eq!(&rt; log.remove(8, 10, b"k"), Ok(8));
    assert_eq!(&rt; log.mark(9), Ok(9));
    let bytes = log.take(Vec::new(alloc)).expect(&rt, "bytes");
    file.extend_from_slice(&bytes).expect(&rt, "memory");
    let text = read_log(alloc, &file).expect(&rt, "a log");
    assert_eq!(&rt; text.front.count, 6);
    assert_eq!(&rt; text.front.latest, 9);
    assert!(&rt; text.front.rest == Rest::Nothing);
}

#[test]
fn a_segment_is_sealed_after_a_sync(rt: HostRuntime) {
    let alloc = rt.alloc();
    let new = NewLog::begin(alloc, HEADER, 5).expect(&rt, "memory");
    let mut log = new.created();
    assert_eq!(&rt; log.mark(6), Ok(6));
    let _ = log.take(Vec::new(alloc));
    log.synced();
    assert!(&rt; log.seal().is_ok());
}

#[test]
fn an_ended_log_takes_no_mark(rt: HostRuntime) {
    let new = NewLog::begin(rt.alloc(), HEADER, 5).expect(&rt, "memory");
    let mut log = new.created();
    assert!(&rt; log.end().is_ok());
    assert_eq!(&rt; log.mark(6), Err(WriterFault::Ended));
}

const PART: PartHeader = PartHeader {
    salt: 1,
    number: 7,
    part: 1,
    parts: 2,
    begin: 100,
};

/// Appends the entry of a key, with one column of one byte.
fn enter(part: &mut PartWriter, key: &[u8]) -> Result<(), PartWriterFault> {
    let column = Given {
        number: 0,
        bytes: b"z",
    };
    part.entry(9, key, &[column])
}

#[test]
fn a_part_has_its_entries(rt: HostRuntime) {
    let alloc = rt.alloc();
    let mut part = PartWriter::begin_above(alloc, PART, b"b").expect(&rt, "memory");
    assert_eq!(&rt; enter(&mut part, b"c"), Ok(()));
    assert_eq!(&rt; part.end(100), Ok(()));
    let bytes = part.take(Vec::new(alloc));
    assert_eq!(&rt; bytes.as_slice(), ONE_ENTRY);
}

/// Part 1 of 2: its header, the head of a block, one entry, the footer, and the checksum of the block.
const ONE_ENTRY: &[u8] =
    b"MTC4\0\0\0\0\0\0\0\x01\0\0\0\x07\0\x01\0\x02\0\0\0\x01\0\0\0\0\0\0\0\x64\xc0\xf4\x56\x4b\
    \xc0\xf4\x56\x4b\0\0\0\x28\x23\xa1\0\x9e\
    \0\0\0\x10\0\0\0\0\0\0\0\x09\0\x01c\x01\0\0\x01z\0\0\0\x10\
    \0\0\0\0\0\0\0\0\0\0\0\x64\0\0\0\x01\
    \xc4\xe4\xde\x78";

#[test]
fn keys_rise(rt: HostRuntime) {
    let mut part = PartWriter::begin_above(rt.alloc(), PART, b"b").expect(&rt, "memory");
    assert_eq!(&rt; enter(&mut part, b"b"), Err(PartWriterFault::Order));
    assert_eq!(&rt; enter(&mut part, b"c"), Ok(()));
    assert_eq!(&rt; enter(&mut part, b"c"), Err(PartWriterFault::Order));
    assert_eq!(&rt; enter(&mut part, b"ca"), Ok(()));
    assert_eq!(&rt; part.end(99), Err(PartWriterFault::End));
    assert_eq!(&rt; part.end(100), Ok(()));
    assert_eq!(&rt; enter(&mut part, b"d"), Err(PartWriterFault::Ended));
}
