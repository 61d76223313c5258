// A word: what it decodes to, the word that this encodes to, and how a step of it stops.
use emulator::{Answer, Core};
use instructions::Instruction;
use memory::{Fault, Stop};
use numbers::{instruction, pack};
use std::io;

// The mnemonics, by the numbers of their kinds.
const MNEMONICS: [&str; 43] = [
    "nop", "hlt", "mov", "dmov", "putl", "puth", "read", "write", "spread", "spwrite", "dread",
    "dwrite", "push", "pop", "movso", "movsi", "spadd", "spinc", "spdec", "not", "and", "booland",
    "or", "xor", "shl", "shr", "bitset", "neg", "inc", "dec", "add", "sub", "mul", "inv", "eqz",
    "eq", "gt", "gteq", "jmpoff", "cjmpoff", "cjmp", "call", "ret",
];

/// Prints the word's line: `2153 2153 mov 3 5`, `2118 2118 dmov 0 1 stops 12`, `2158 undecodable`.
/// If an undecodable word is answered with another, that is written too.
pub fn print(rt: &impl Print, word: u16) -> io::Result<()> {
    print!(rt; "{word:04X}")?;
    match Instruction::decode(word) {
        Ok(ins) => {
            print_instruction(rt, ins)?;
            print_stop(rt, word)?;
        }
        Err(e) if e.word == word => print!(rt; " undecodable")?,
        Err(e) => print!(rt; " undecodable {:04X}", e.word)?,
    }
    println!(rt)
}

// The word that it encodes to, its mnemonic, and the numbers of the operands that it has.
fn print_instruction(rt: &impl Print, ins: Instruction) -> io::Result<()> {
    let [_, kind, first, second] = pack(ins).to_be_bytes();
    let mnemonic = MNEMONICS.get(kind as usize).copied().unwrap_or("?");
    print!(rt; " {:04X} {mnemonic}", ins.encode())?;
    // Of the instruction of its kind whose operands have the number 1, one that it lacks has 0.
    let [_, _, has_first, has_second] = instruction(kind, 1, 1).map_or(0, pack).to_be_bytes();
    for (operand, has) in [(first, has_first), (second, has_second)] {
        if has == 1 {
            print!(rt; " {operand}")?;
        }
    }
    Ok(())
}

// How a step of it stops, in the first edition and in memory of this word alone. The registers have
// 0x8000: an address out of range, too large an amount, and the word that has no negation.
fn stop(word: u16) -> Option<Stop> {
    let core = Core {
        gprs: [0x8000; 8],
        sp: 0x8000,
        ..Core::new()
    };
    match core.step(&mut [word], &mut [0], 1).answer {
        Answer::Fault(stop) => Some(stop),
        _ => None,
    }
}

fn print_stop(rt: &impl Print, word: u16) -> io::Result<()> {
    match stop(word) {
        Some(stop) => print!(rt; " stops {}", Fault::from(stop).number),
        None => Ok(()),
    }
}
