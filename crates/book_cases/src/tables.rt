// Bytes, and what is told of them: 0 if they are read as a book, else the number of the fault, as docs/FORMAT.md has it, which the table
// is held to. The house's key is 32 times `h`, and the secrets are letters too.

pub const BOOKS: [(&[u8], u8); 25] = [
    // two keys, the greatest number first, and the least; no keys; one secret under two numbers
    (
        b"\x17hhhhhhhhhhhhhhhhhhhhhhhhhhhhhhhh\x00\x02\x14\x0f\xffaaaaaaaaaaaaaaaaaaaaaaaaaaaaaaaa\x14\x00\x00bbbbbbbbbbbbbbbbbbbbbbbbbbbbbbbb",
        0,
    ),
    (b"\x17hhhhhhhhhhhhhhhhhhhhhhhhhhhhhhhh\x00\x00", 0),
    (
        b"\x17hhhhhhhhhhhhhhhhhhhhhhhhhhhhhhhh\x00\x02\x14\x00\x05aaaaaaaaaaaaaaaaaaaaaaaaaaaaaaaa\x14\x00\x06aaaaaaaaaaaaaaaaaaaaaaaaaaaaaaaa",
        0,
    ),
    // another kind than a book's, or than a key's
    (b"", 1),
    (b"\x16", 1),
    (
        b"\x16hhhhhhhhhhhhhhhhhhhhhhhhhhhhhhhh\x00\x01\x14\x00\x05aaaaaaaaaaaaaaaaaaaaaaaaaaaaaaaa",
        1,
    ),
    (
        b"\x17hhhhhhhhhhhhhhhhhhhhhhhhhhhhhhhh\x00\x01\x13\x00\x05aaaaaaaaaaaaaaaaaaaaaaaaaaaaaaaa",
        1,
    ),
    (
        b"\x17hhhhhhhhhhhhhhhhhhhhhhhhhhhhhhhh\x00\x02\x14\x00\x05aaaaaaaaaaaaaaaaaaaaaaaaaaaaaaaa\x17\x00\x06bbbbbbbbbbbbbbbbbbbbbbbbbbbbbbbb",
        1,
    ),
    // a byte left over, or missing
    (b"\x17hhhhhhhhhhhhhhhhhhhhhhhhhhhhhhhh\x00\x00\x14", 1),
    (
        b"\x17hhhhhhhhhhhhhhhhhhhhhhhhhhhhhhhh\x00\x01\x14\x00\x05aaaaaaaaaaaaaaaaaaaaaaaaaaaaaaaa\x00",
        1,
    ),
    (
        b"\x17hhhhhhhhhhhhhhhhhhhhhhhhhhhhhhhh\x00\x01\x14\x00\x05aaaaaaaaaaaaaaaaaaaaaaaaaaaaaaaa\x14\x00\x06bbbbbbbbbbbbbbbbbbbbbbbbbbbbbbbb",
        1,
    ),
    (
        b"\x17hhhhhhhhhhhhhhhhhhhhhhhhhhhhhhhh\xff\xff\x14\x00\x05aaaaaaaaaaaaaaaaaaaaaaaaaaaaaaaa",
        1,
    ),
    (
        b"\x17hhhhhhhhhhhhhhhhhhhhhhhhhhhhhhhh\x00\x01\x14\x00\x05aaaaaaaaaaaaaaaaaaaaaaaaaaaaaaa",
        1,
    ),
    // a number past the last, and cut behind it or inside of it
    (
        b"\x17hhhhhhhhhhhhhhhhhhhhhhhhhhhhhhhh\x00\x01\x14\x10\x00aaaaaaaaaaaaaaaaaaaaaaaaaaaaaaaa",
        2,
    ),
    (
        b"\x17hhhhhhhhhhhhhhhhhhhhhhhhhhhhhhhh\x00\x01\x14\x10\x00",
        2,
    ),
    (
        b"\x17hhhhhhhhhhhhhhhhhhhhhhhhhhhhhhhh\x00\x01\x14\xff\xff",
        2,
    ),
    (b"\x17hhhhhhhhhhhhhhhhhhhhhhhhhhhhhhhh\x00\x01\x14\x10", 1),
    // a second key of a number: with its own secret or the first one's, cut behind the number, not cut but short, cut inside of the number; a third
    (
        b"\x17hhhhhhhhhhhhhhhhhhhhhhhhhhhhhhhh\x00\x02\x14\x00\x05aaaaaaaaaaaaaaaaaaaaaaaaaaaaaaaa\x14\x00\x05bbbbbbbbbbbbbbbbbbbbbbbbbbbbbbbb",
        2,
    ),
    (
        b"\x17hhhhhhhhhhhhhhhhhhhhhhhhhhhhhhhh\x00\x02\x14\x00\x05aaaaaaaaaaaaaaaaaaaaaaaaaaaaaaaa\x14\x00\x05aaaaaaaaaaaaaaaaaaaaaaaaaaaaaaaa",
        2,
    ),
    (
        b"\x17hhhhhhhhhhhhhhhhhhhhhhhhhhhhhhhh\x00\x02\x14\x00\x05aaaaaaaaaaaaaaaaaaaaaaaaaaaaaaaa\x14\x00\x05",
        2,
    ),
    (
        b"\x17hhhhhhhhhhhhhhhhhhhhhhhhhhhhhhhh\x00\x02\x14\x00\x05aaaaaaaaaaaaaaaaaaaaaaaaaaaaaaaa\x14\x00\x05bbbbbbb",
        2,
    ),
    (
        b"\x17hhhhhhhhhhhhhhhhhhhhhhhhhhhhhhhh\x00\x02\x14\x00\x05aaaaaaaaaaaaaaaaaaaaaaaaaaaaaaaa\x14\x00",
        1,
    ),
    (
        b"\x17hhhhhhhhhhhhhhhhhhhhhhhhhhhhhhhh\x00\x03\x14\x00\x05aaaaaaaaaaaaaaaaaaaaaaaaaaaaaaaa\x14\x00\x06bbbbbbbbbbbbbbbbbbbbbbbbbbbbbbbb\x14\x00\x05",
        2,
    ),
    // the first fault is told: a second key before another kind, another kind before a number
    (
        b"\x17hhhhhhhhhhhhhhhhhhhhhhhhhhhhhhhh\x00\x03\x14\x00\x05aaaaaaaaaaaaaaaaaaaaaaaaaaaaaaaa\x14\x00\x05bbbbbbbbbbbbbbbbbbbbbbbbbbbbbbbb\x00",
        2,
    ),
    (
        b"\x17hhhhhhhhhhhhhhhhhhhhhhhhhhhhhhhh\x00\x02\x14\x00\x05aaaaaaaaaaaaaaaaaaaaaaaaaaaaaaaa\x15\x00\x05bbbbbbbbbbbbbbbbbbbbbbbbbbbbbbbb",
        1,
    ),
];

// Key 4095 and then key 5.
pub const TWO: &[u8] =
    b"\x17hhhhhhhhhhhhhhhhhhhhhhhhhhhhhhhh\x00\x02\x14\x0f\xffaaaaaaaaaaaaaaaaaaaaaaaaaaaaaaaa\x14\x00\x05bbbbbbbbbbbbbbbbbbbbbbbbbbbbbbbb";

// The same, and then key 6.
pub const THREE: &[u8] =
    b"\x17hhhhhhhhhhhhhhhhhhhhhhhhhhhhhhhh\x00\x03\x14\x0f\xffaaaaaaaaaaaaaaaaaaaaaaaaaaaaaaaa\x14\x00\x05bbbbbbbbbbbbbbbbbbbbbbbbbbbbbbbb\x14\x00\x06cccccccccccccccccccccccccccccccc";
