//! Decodes all 65,536 words, as an instruction and as the number of a register of each sort,
//! encodes what they stand for again, and prints how many are of each kind and sort
//! (docs/MACHINE.md, Instructions).
#![tactic(auto)]

use instructions::{DR, GPR, Instruction, Register, SPR};
use std::io;

// The names of the rows: the 43 kinds, then the rows that have a name below.
const NAMES: [&str; 48] = [
    "nop", "hlt", "mov", "dmov", "putl", "puth", "read", "write", "spread", "spwrite", "dread",
    "dwrite", "push", "pop", "movso", "movsi", "spadd", "spinc", "spdec", "not", "and", "booland",
    "or", "xor", "shl", "shr", "bitset", "neg", "inc", "dec", "add", "sub", "mul", "inv", "eqz",
    "eq", "gt", "gteq", "jmpoff", "cjmpoff", "cjmp", "call", "ret", "other", "wrong", "general",
    "special", "decimal",
];

// No instruction's word.
const OTHER: u8 = 43;

// An instruction whose word is another, or a refusal with another word.
const WRONG: u8 = 44;

const GENERAL: u8 = 45;

const SPECIAL: u8 = 46;

const DECIMAL: u8 = 47;

fn main(rt: HostRuntime) -> io::Result<()> {
    // A count for every byte, so that a row needs no bound.
    let mut counts = [0; 256];
    for w in 0..=u16::MAX {
        count(&mut counts, w);
    }
    for (name, count) in NAMES.iter().zip(counts) {
        println!(rt; "{name:<8}{count}")?;
    }
    Ok(())
}

// Counts a word in the row of its kind, and in that of each sort of which it decodes to a register
// whose number it is again.
fn count(counts: &mut [u64; 256], w: u16) {
    let general = GPR::decode(w).is_some_and(|r| r.number() == w);
    let special = SPR::decode(w).is_some_and(|r| r.encode() == w);
    let decimal = DR::decode(w).is_some_and(|r| r.encode() == w);
    count_in(counts, row(w));
    if general {
        count_in(counts, GENERAL);
    }
    if special {
        count_in(counts, SPECIAL);
    }
    if decimal {
        count_in(counts, DECIMAL);
    }
}

// Counts one more in a row.
fn count_in(counts: &mut [u64; 256], row: u8) {
    let at = row as usize;
    counts[at] = counts[at].wrapping_add(1);
}

// The row in which a word counts: that of its kind, or that it is of none or does not come back.
fn row(w: u16) -> u8 {
    match Instruction::decode(w) {
        Ok(ins) if ins.encode() == w => kind(ins),
        Err(e) if e.word == w => OTHER,
        _ => WRONG,
    }
}

// The row of an instruction's kind: its place in `NAMES`. (No cast gives it, as instructions have
// operands.)
fn kind(ins: Instruction) -> u8 {
    match ins {
        Instruction::Nop => 0,
        Instruction::Hlt => 1,
        Instruction::Mov { .. } => 2,
        Instruction::DMov { .. } => 3,
        Instruction::Putl { .. } => 4,
        Instruction::Puth { .. } => 5,
        Instruction::Read { .. } => 6,
        Instruction::Write { .. } => 7,
        Instruction::Spread { .. } => 8,
        Instruction::Spwrite { .. } => 9,
        Instruction::DRead { .. } => 10,
        Instruction::DWrite { .. } => 11,
        Instruction::Push { .. } => 12,
        Instruction::Pop { .. } => 13,
        Instruction::Movso { .. } => 14,
        Instruction::Movsi { .. } => 15,
        Instruction::Spadd { .. } => 16,
        Instruction::Spinc => 17,
        Instruction::Spdec => 18,
        Instruction::Not { .. } => 19,
        Instruction::And { .. } => 20,
        Instruction::Booland { .. } => 21,
        Instruction::Or { .. } => 22,
        Instruction::Xor { .. } => 23,
        Instruction::Shl { .. } => 24,
        Instruction::Shr { .. } => 25,
        Instruction::Bitset { .. } => 26,
        Instruction::Neg { .. } => 27,
        Instruction::Inc { .. } => 28,
        Instruction::Dec { .. } => 29,
        Instruction::Add { .. } => 30,
        Instruction::Sub { .. } => 31,
        Instruction::Mul { .. } => 32,
        Instruction::Inv => 33,
        Instruction::Eqz { .. } => 34,
        Instruction::Eq { .. } => 35,
        Instruction::Gt { .. } => 36,
        Instruction::Gteq { .. } => 37,
        Instruction::Jmpoff { .. } => 38,
        Instruction::Cjmpoff { .. } => 39,
        Instruction::Cjmp { .. } => 40,
        Instruction::Call { .. } => 41,
        Instruction::Ret => 42,
    }
}
