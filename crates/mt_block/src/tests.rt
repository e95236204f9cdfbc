//! A file by hand, whose checksums were computed by another program.
use crate::{
    Header, PartHeader, append_block, append_blocks, find_head, header_at, next_block,
    part_header_at,
};

const HEADER: Header = Header {
    salt: 1,
    worker: 2,
    segment: 3,
    workers: 4,
    from: 5,
};

/// A header and a block with the body `abc`.
const FILE: &[u8] =
    b"MTL4\0\0\0\0\0\0\0\x01\0\0\0\0\0\0\0\x02\0\0\0\0\0\0\0\x03\0\0\0\x04\0\0\0\0\0\0\0\x05\xf5\x91\x68\x53\
    \xf5\x91\x68\x53\0\0\0\x03\x25\xb9\xae\x4aabc\xb9\x4b\x98\xd7";

#[test]
fn a_header_and_a_block_are_written(rt: HostRuntime) {
    let mut file = HEADER.bytes(rt.alloc()).expect(&rt, "memory");
    append_block(HEADER.mark(), b"abc", &mut file).expect(&rt, "memory");
    assert_eq!(&rt; file.as_slice(), FILE);
}

#[test]
fn a_header_and_a_block_are_read(rt: HostRuntime) {
    let (header, rest) = header_at(FILE).expect(&rt, "a header");
    assert_eq!(&rt; header, HEADER);
    let Ok(Some((body, rest))) = next_block(header.mark(), rest) else {
        panic!(&rt; "a block");
    };
    assert_eq!(&rt; body, b"abc".as_slice());
    assert!(&rt; rest.is_empty());
}

#[test]
fn a_head_is_found_and_zeros_are_none(rt: HostRuntime) {
    assert_eq!(&rt; find_head(HEADER.mark(), FILE), 44);
    assert!(&rt; next_block(HEADER.mark(), &[0; 20]).is_err());
    assert_eq!(&rt; find_head(HEADER.mark(), &[0; 20]), 20);
}

#[test]
fn a_header_of_a_part_is_written_and_read(rt: HostRuntime) {
    let bytes =
        b"MTC4\0\0\0\0\0\0\0\x01\0\0\0\x02\0\x03\0\x04\0\0\0\x01\0\0\0\0\0\0\0\x05\x2f\x54\x91\x90";
    let header = PartHeader {
        salt: 1,
        number: 2,
        part: 3,
        parts: 4,
        begin: 5,
    };
    let file = header.bytes(rt.alloc()).expect(&rt, "memory");
    assert_eq!(&rt; file.as_slice(), bytes.as_slice());
    let (read, rest) = part_header_at(bytes).expect(&rt, "a header");
    assert_eq!(&rt; read, header);
    assert!(&rt; rest.is_empty());
}

#[test]
fn bytes_are_sealed_and_none_make_no_block(rt: HostRuntime) {
    let mut file = HEADER.bytes(rt.alloc()).expect(&rt, "memory");
    append_blocks(HEADER.mark(), b"abc", &mut file).expect(&rt, "memory");
    append_blocks(HEADER.mark(), b"", &mut file).expect(&rt, "memory");
    assert_eq!(&rt; file.as_slice(), FILE);
}
