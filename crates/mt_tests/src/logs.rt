//! Logs and parts of the tests, as bytes.

/// A log of 62 bytes: a put of key a at timestamp 3, and a mark at 5.
pub const LOG_A: &[u8] = b"MTL1\0\0\0\0\0\0\0\0\
    \0\0\0\x19\x01\0\0\0\0\0\0\0\x03\0\0\0\0\0\0\0\x01\0\x01a\x01\0\0\x01x\0\0\0\x19\
    \0\0\0\x09\x03\0\0\0\0\0\0\0\x05\0\0\0\x09";

/// A log of 62 bytes: a put of key b at timestamp 4, and a mark at 6.
pub const LOG_B: &[u8] = b"MTL1\0\0\0\0\0\0\0\0\
    \0\0\0\x19\x01\0\0\0\0\0\0\0\x04\0\0\0\0\0\0\0\x01\0\x01b\x01\0\0\x01y\0\0\0\x19\
    \0\0\0\x09\x03\0\0\0\0\0\0\0\x06\0\0\0\x09";

/// A log of puts of keys b, d and f, and a mark above them.
pub const LOG_OF_THREE: &[u8] = b"MTL1\0\0\0\0\0\0\0\0\
    \0\0\0\x19\x01\0\0\0\0\0\0\0\x01\0\0\0\0\0\0\0\x01\0\x01b\x01\0\0\x011\0\0\0\x19\
    \0\0\0\x19\x01\0\0\0\0\0\0\0\x02\0\0\0\0\0\0\0\x01\0\x01d\x01\0\0\x012\0\0\0\x19\
    \0\0\0\x19\x01\0\0\0\0\0\0\0\x03\0\0\0\0\0\0\0\x01\0\x01f\x01\0\0\x013\0\0\0\x19\
    \0\0\0\x09\x03\0\0\0\0\0\0\0\x09\0\0\0\x09";

/// A log of 128 bytes: puts of keys a, b and c at timestamps 3, 6 and 7, and a mark at 9.
pub const LOG_FROM_3_TO_9: &[u8] = b"MTL1\0\0\0\0\0\0\0\0\
    \0\0\0\x19\x01\0\0\0\0\0\0\0\x03\0\0\0\0\0\0\0\x01\0\x01a\x01\0\0\x01x\0\0\0\x19\
    \0\0\0\x19\x01\0\0\0\0\0\0\0\x06\0\0\0\0\0\0\0\x01\0\x01b\x01\0\0\x01y\0\0\0\x19\
    \0\0\0\x19\x01\0\0\0\0\0\0\0\x07\0\0\0\0\0\0\0\x01\0\x01c\x01\0\0\x01z\0\0\0\x19\
    \0\0\0\x09\x03\0\0\0\0\0\0\0\x09\0\0\0\x09";

/// A log of format 2 with `from` 2: a put of key a at version 3, an erase of its column 1 at version 4, and a mark.
pub const LATE_LOG: &[u8] = b"MTL2\0\0\0\0\0\0\0\x02\
    \0\0\0\x19\x01\0\0\0\0\0\0\0\x05\0\0\0\0\0\0\0\x03\0\x01a\x01\0\0\x01n\0\0\0\x19\
    \0\0\0\x16\x04\0\0\0\0\0\0\0\x06\0\0\0\0\0\0\0\x04\0\x01a\x01\x01\0\0\0\x16\
    \0\0\0\x09\x03\0\0\0\0\0\0\0\x0a\0\0\0\x09";

/// A part of 64 bytes: number 1, begin 2, part 0 of 1, end 4, and one entry: key a at version 1 with 0=o and 1=p.
pub const PART: &[u8] = b"MTC1\0\0\0\x01\0\0\0\0\0\0\0\x02\0\0\0\x01\
    \0\0\0\x14\0\0\0\0\0\0\0\x01\0\x01a\x02\0\0\x01o\x01\0\x01p\0\0\0\x14\
    \0\0\0\0\0\0\0\0\0\0\0\x04\0\0\0\x01";
