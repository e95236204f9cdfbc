//! Copies of keys and columns, and the one text of a fault that no program prints.
use crate::asserting::assert_bytes;
use mt_words::{Columns, Fault, Key, PackedColumns};

#[test]
fn copies_keys_and_columns_loose_and_packed(rt: HostRuntime) {
    let key = Key::new(Vec::new(rt.alloc())).expect(&rt, "a key");
    assert!(rt; key.try_copy().is_ok());
    let copy = Columns::new(rt.alloc()).try_copy().expect(&rt, "memory");
    let packed = PackedColumns::of(rt.alloc(), &copy).expect(&rt, "memory");
    assert!(rt; packed.try_copy().is_ok());
}

#[test]
fn a_missing_piece_is_named(rt: HostRuntime) {
    let text = Fault::Missing { piece: 3 }.to_string(rt.alloc());
    let text = text.expect(&rt, "memory");
    assert_bytes(&rt, "", text.as_bytes(), b"piece 3: missing");
}
