//! Runs sheets and other inputs through `line_of`, and prints each line after its label: every end
//! and fault of docs/SHEETS.md, The line, every refusal of a sheet, and inputs that are too short
//! or too long (What the program reads).
#![tactic(auto)]

ghost use Rattle.std.specs.Prelude.{◌≤◌, length};

use line::line_of;
use std::io;

// The ends of a run.
const EXAMPLE: [u32; 3] = [0x20001003, 0x2000FFFF, 0xF0000002];
// ef preset to halt: no step is made.
const HALTED: [u32; 2] = [0x300B0001, 0xF0000001];
// Every register preset to another value, and ef to halt.
const PRESETS: [u32; 13] = [
    0x30000009, 0x3001000A, 0x30020063, 0x30030064, 0x300403E7, 0x300503E8, 0x3006270F, 0x30072710,
    0x30080001, 0x30090002, 0x300A0003, 0x300B0005, 0xF000000C,
];
// jmpoff -1: the longest run.
const LIMIT: [u32; 2] = [0x200060FF, 0xF0000001];
// A loop that counts r0 down from 1,000, then halts: dec r0, eqz r0, inv, cjmpoff -4, hlt.
const COUNTED: [u32; 7] = [
    0x300003E8, 0x20004820, 0x20005010, 0x20005000, 0x200061FC, 0x2000FFFF, 0xF0000006,
];
// A word, read by a later instruction, from a place of its own: read r1 from the address in r0.
const PLACED: [u32; 7] = [
    0x30000100, 0x20002001, 0x2000FFFF, 0x10000100, 0x2000BEEF, 0x10000000, 0xF0000006,
];
// Every number of the line has five digits where it can.
const LARGE: [u32; 13] = [
    0x3000FFFF, 0x3001FFFF, 0x3002FFFF, 0x3003FFFF, 0x3004FFFF, 0x3005FFFF, 0x3006FFFF, 0x3007FFFF,
    0x3008FFFF, 0x3009FFFF, 0x300AFFFF, 0x300BFFFE, 0xF000000C,
];

const UNDECODABLE: [u32; 3] = [0x20000000, 0x20004600, 0xF0000002];
// All of memory is nop.
const FETCH: [u32; 1] = [0xF0000000];
// push r0 with a fresh sp.
const PUSH: [u32; 2] = [0x200023D0, 0xF0000001];
// read r0 from 0x8000.
const READ: [u32; 3] = [0x30018000, 0x20002010, 0xF0000002];
// dmov d0 from d1.
const DECIMAL: [u32; 2] = [0x20002118, 0xF0000001];
// shl r0 by r1.
const SHIFT: [u32; 4] = [0x30000001, 0x30010010, 0x20004410, 0xF0000003];
// bitset of bit 0xFFFF of r0.
const BIT: [u32; 3] = [0x3001FFFF, 0x20004710, 0xF0000002];
// neg r0.
const NEGATION: [u32; 3] = [0x30008000, 0x20004800, 0xF0000002];

// shr r0 by r1, eqz r0, hlt, with 0xFFFF and 16: the edition decides, of two records the later.
const RULE: [u32; 5] = [0x3000FFFF, 0x30010010, 0x20004510, 0x20005010, 0x2000FFFF];
// The end of those, with no edition before them.
const RULE_END: u32 = 0xF0000005;

const FIRST: u32 = 0x70000001;

const SECOND: u32 = 0x70000002;

// bitset of bit 16 of r0, then neg r1, with 0xFFFF and 0x8000, in edition 2.
const REST: [u32; 8] = [
    SECOND, 0x3000FFFF, 0x30018000, 0x30020010, 0x20004720, 0x20004801, 0x2000FFFF, 0xF0000007,
];
// dmov d0 from d1 stops in edition 2 too.
const DECIMAL_2: [u32; 3] = [SECOND, 0x20002118, 0xF0000002];

// The refusals of a sheet.
const KIND: [u32; 2] = [0x40000000, 0xF0000001];

const BITS: [u32; 2] = [0x20010000, 0xF0000001];

const REGISTER: [u32; 2] = [0x300C0000, 0xF0000001];

const ADDRESS: [u32; 3] = [0x10008000, 0x20000001, 0xF0000002];

const NO_END: [u32; 1] = [0x20000001];

const AFTER_END: [u32; 2] = [0xF0000000, 0x00000000];

const COUNT: [u32; 2] = [0x20000001, 0xF0000000];
// SHIFT, of which the preset of r1 was lost: it would shift by 0.
const LOST: [u32; 3] = [0x30000001, 0x20004410, 0xF0000003];
// The count is tested before the records after the end.
const COUNT_FIRST: [u32; 3] = [0x20000001, 0xF0000000, 0x00000000];

// Prints the line of an input after its label. (Functions and not a `Display`, since a line is
// bytes.)
fn show(rt: &impl Print, label: &[u8], input: &[u8]) -> io::Result<()> {
    rt.write_all(label)?;
    rt.write_all(b": ")?;
    rt.write_all(line_of(input).as_slice())
}

// Prints the line of a sheet of at most 64 records after its label.
fn show_sheet(rt: &impl Print, label: &[u8], sheet: &[u32]) -> io::Result<()> {
    let mut records = [[0u8; 4]; 64];
    for (bytes, record) in records.iter_mut().zip(sheet) {
        *bytes = record.to_le_bytes();
    }
    match records.get(..sheet.len()) {
        Some(records) => show(rt, label, records.as_flattened()),
        None => Ok(()),
    }
}

fn show_ends(rt: &impl Print) -> io::Result<()> {
    show_sheet(rt, b"example", &EXAMPLE)?;
    show_sheet(rt, b"halted before a step", &HALTED)?;
    show_sheet(rt, b"presets", &PRESETS)?;
    show_sheet(rt, b"limit", &LIMIT)?;
    show_sheet(rt, b"counted down", &COUNTED)?;
    show_sheet(rt, b"placed word", &PLACED)
}

fn show_faults(rt: &impl Print) -> io::Result<()> {
    show_sheet(rt, b"undecodable", &UNDECODABLE)?;
    show_sheet(rt, b"fetch past memory", &FETCH)?;
    show_sheet(rt, b"push past memory", &PUSH)?;
    show_sheet(rt, b"read past memory", &READ)?;
    show_sheet(rt, b"large numbers", &LARGE)?;
    show_sheet(rt, b"decimal", &DECIMAL)?;
    show_sheet(rt, b"shift by 16", &SHIFT)?;
    show_sheet(rt, b"bit 65535", &BIT)?;
    show_sheet(rt, b"negation", &NEGATION)
}

fn show_refusals(rt: &impl Print) -> io::Result<()> {
    show_sheet(rt, b"unknown kind", &KIND)?;
    show_sheet(rt, b"a bit that must be 0", &BITS)?;
    show_sheet(rt, b"register 12", &REGISTER)?;
    show_sheet(rt, b"address 32768", &ADDRESS)?;
    show_sheet(rt, b"no end", &NO_END)?;
    show_sheet(rt, b"after the end", &AFTER_END)?;
    show_sheet(rt, b"count", &COUNT)?;
    show_sheet(rt, b"lost preset", &LOST)?;
    show_sheet(rt, b"count first", &COUNT_FIRST)
}

// The rule after at most two records of editions.
fn show_edition(rt: &impl Print, label: &[u8], editions: &[u32]) -> io::Result<()>
    requires { length editions.now ≤ 2 }
{
    let mut sheet = [0; 8];
    let (front, rest) = sheet.split_at_mut(editions.len());
    front.copy_from_slice(editions);
    rest[..5].copy_from_slice(&RULE);
    rest[5] = RULE_END + editions.len() as u32;
    show_sheet(rt, label, &sheet[..editions.len() + 6])
}

fn show_editions(rt: &impl Print) -> io::Result<()> {
    show_edition(rt, b"no edition", &[])?;
    show_edition(rt, b"edition 1", &[FIRST])?;
    show_edition(rt, b"edition 2", &[SECOND])?;
    show_edition(rt, b"editions 1 and 2", &[FIRST, SECOND])?;
    show_edition(rt, b"editions 2 and 1", &[SECOND, FIRST])?;
    show_sheet(rt, b"bit 16 and 32768", &REST)?;
    show_sheet(rt, b"decimal in edition 2", &DECIMAL_2)?;
    // after all but the end
    show_sheet(
        rt,
        b"edition after words",
        &[0x20004510, 0x2000FFFF, 0x30010010, SECOND, 0xF0000004],
    )?;
    show_edition(rt, b"edition 0", &[0x70000000])?;
    show_edition(rt, b"edition 3", &[0x70000003])?;
    show_edition(rt, b"edition 65535", &[0x7000FFFF])?;
    show_edition(rt, b"editions 2 and 3", &[SECOND, 0x70000003])?;
    show_edition(rt, b"bit 16 of an edition", &[0x70010002])?;
    show_edition(rt, b"bit 27 of an edition", &[0x78000002])?;
    // the bits are tested before the edition, and records in order
    show_edition(rt, b"bit 16 of edition 3", &[0x70010003])?;
    show_edition(rt, b"register 12, edition 3", &[0x300C0000, 0x70000003])?;
    show_edition(rt, b"edition 3, register 12", &[0x70000003, 0x300C0000])?;
    // the end counts it too
    show_sheet(
        rt,
        b"edition not counted",
        &[SECOND, 0x2000FFFF, 0xF0000001],
    )
}

// Word records of nop.
const NOP: u32 = 0x20000000;
// The end record of 8,191 of them.
const NOPS_END: u32 = 0xF0001FFF;

fn show_short(rt: &impl Print) -> io::Result<()> {
    let bytes = [0u8; 4];
    show(rt, b"0 bytes", &bytes[..0])?;
    show(rt, b"1 byte", &bytes[..1])?;
    show(rt, b"2 bytes", &bytes[..2])?;
    show(rt, b"3 bytes", &bytes[..3])?;
    show(rt, b"4 bytes", &bytes)
}

fn show_long(rt: &impl Print) -> io::Result<()> {
    // 8,191 words and their end, with room for one record more
    let mut records = [NOP.to_le_bytes(); 8193];
    records[8191] = NOPS_END.to_le_bytes();
    records[8192] = [0; 4];
    let bytes = records.as_flattened();
    show(rt, b"32764 bytes", &bytes[..32764])?;
    show(rt, b"32768 bytes", &bytes[..32768])?;
    show(rt, b"32769 bytes", &bytes[..32769])?;
    show(rt, b"32772 bytes", bytes)
}

fn main(rt: HostRuntime) -> io::Result<()> {
    show_ends(&rt)?;
    show_faults(&rt)?;
    show_refusals(&rt)?;
    show_editions(&rt)?;
    show_short(&rt)?;
    show_long(&rt)
}
