// What is loaded and written.

/// Sheets, each with what it tries: those that are accepted, and those that are refused by a test.
pub const SHEETS: [&[u32]; 60] = [
    // Accepted: the end alone
    &[0xF0000000],
    // the program's example
    &[0x20001003, 0x2000FFFF, 0xF0000002],
    // places
    &[0x10000003, 0x20000009, 0x10000000, 0x20000008, 0xF0000004],
    // a place past memory with no word after it
    &[0x1000FFFF, 0xF0000001],
    // a later word over an earlier one
    &[0x20000001, 0x10000000, 0x20000002, 0xF0000003],
    // general registers
    &[0x30000001, 0x30010002, 0x30020003, 0x30070008, 0xF0000004],
    // special registers
    &[0x30081111, 0x30092222, 0x300A3333, 0x300B4444, 0xF0000004],
    // a later preset over an earlier one
    &[0x30050001, 0x3005FFFF, 0xF0000002],
    // 20: kind 0
    &[0x00000000, 0xF0000001],
    // kind 4
    &[0x40000000, 0xF0000001],
    // kind 14
    &[0xE0000000, 0xF0000001],
    // 22: register 12, and 11 is one
    &[0x300C0001, 0xF0000001],
    &[0x300B0001, 0xF0000001],
    // register 15
    &[0x300F0001, 0xF0000001],
    // 23: a word at 4, and at 3 is one
    &[0x10000004, 0x20000001, 0xF0000002],
    &[0x10000003, 0x20000001, 0xF0000002],
    // a word at 65,535
    &[0x1000FFFF, 0x20000001, 0xF0000002],
    // five words, and four are
    &[
        0x20000001, 0x20000002, 0x20000003, 0x20000004, 0x20000005, 0xF0000005,
    ],
    &[0x20000001, 0x20000002, 0x20000003, 0x20000004, 0xF0000004],
    // 24: no record
    &[],
    // no end
    &[0x20000001],
    // 26: the count is one less
    &[0x20000001, 0x20000002, 0xF0000001],
    // one more, as if the end counted itself
    &[0x20000001, 0x20000002, 0xF0000003],
    // lacks a preset, and has it
    &[0x20000001, 0x30000001, 0xF0000001],
    &[0x20000001, 0x30000001, 0xF0000002],
    // lacks a place, and has it
    &[0x20000001, 0x10000003, 0xF0000001],
    &[0x20000001, 0x10000003, 0xF0000002],
    // is that of three of four records, of four kinds, and of all four
    &[0x70000001, 0x30000001, 0x10000003, 0x20000001, 0xF0000003],
    &[0x70000001, 0x30000001, 0x10000003, 0x20000001, 0xF0000004],
    // has bit 27
    &[0xF8000000],
    // 25: a word after the end
    &[0x20000001, 0xF0000001, 0x20000002],
    // an end after it
    &[0xF0000000, 0xF0000000],
    // anything after it
    &[0xF0000000, 0x00000000],
    // More than one test fails: 20 and 21
    &[0x4FFFFFFF],
    // 21 and 22
    &[0x301C0000],
    // 21 and 23
    &[0x10000004, 0x20010000],
    // 23 and a later 20
    &[0x10000004, 0x20000000, 0x00000000],
    // 26 and 25
    &[0xF0000001, 0xF0000000],
    // 22 and 24
    &[0x300C0000],
    // Editions: the first and the second
    &[0x70000001, 0xF0000001],
    &[0x70000002, 0xF0000001],
    // a later one over an earlier one
    &[0x70000001, 0x70000002, 0xF0000002],
    &[0x70000002, 0x70000001, 0xF0000002],
    // after words and presets
    &[0x20000001, 0x30000003, 0x70000002, 0xF0000003],
    // between two words, whose addresses stay the next ones
    &[0x20000001, 0x70000002, 0x20000002, 0xF0000003],
    // 26: the count lacks the edition, and has it
    &[0x70000002, 0x20000001, 0xF0000001],
    &[0x70000002, 0x20000001, 0xF0000002],
    // 20: the kinds beside it
    &[0x60000002, 0xF0000001],
    &[0x80000002, 0xF0000001],
    // 34: edition 0
    &[0x70000000, 0xF0000001],
    // edition 3
    &[0x70000003, 0xF0000001],
    // edition 65,535
    &[0x7000FFFF, 0xF0000001],
    // edition 258, whose low byte is 2
    &[0x70000102, 0xF0000001],
    // More than one test fails: 21 and 34
    &[0x70010003],
    // 22 and a later 34
    &[0x300C0000, 0x70000003],
    // 34 and a later 22
    &[0x70000003, 0x300C0000],
    // 34 and a later 23
    &[0x70000000, 0x10000004, 0x20000001],
    // 34 and 24
    &[0x70000003],
    // a refused sheet of edition 2
    &[0x70000002, 0x20000001],
    &[0x70000002, 0x70000003, 0xF0000002],
];

/// Memories of four words, to be written.
pub const MEMORIES: [[u16; 4]; 6] = [
    // no nonzero word
    [0, 0, 0, 0],
    // no zero
    [1, 2, 3, 4],
    // a stretch at the front, and at the end
    [9, 0, 0, 0],
    [0, 0, 0, 9],
    // two stretches
    [5, 0, 6, 0xFFFF],
    [5, 0, 6, 0],
];

/// The bytes of the program's example.
pub const BYTES: [u8; 12] = [3, 0x10, 0, 0x20, 0xFF, 0xFF, 0, 0x20, 2, 0, 0, 0xF0];
