//! Tests of what no contract says: that hands take turns on the words, and that words close once all hands are back.
use crate::Words;

#[test]
fn hands_take_turns(rt: HostRuntime) {
    let values = vec![in rt.alloc(); 5, 7].expect(&rt, "memory");
    let (words, mut hands) = Words::open(rt.alloc(), values, 2).expect(&rt, "words");
    let mut second = hands.pop().expect(&rt, "a second hand");
    let mut first = hands.pop().expect(&rt, "a first hand");
    let found = [
        words.add(&mut first, 0, 1),
        words.add(&mut second, 0, 1),
        words.swap(&mut first, 1, 9),
        words.load(&mut second, 1),
    ];
    assert_eq!(&rt; found, [5, 6, 7, 9]);
}
