//! What C and Rust hosts call to decode and encode (docs/MACHINE.md, Instructions), as
//! include/nilguseg.h tells them: libnilguseg_words.a. It is a static library of its own: in one
//! with the run, a second call of `Instruction::decode` keeps the compiler from inlining it there,
//! and a step takes about twice as long.
#![tactic(auto)]

ghost use Rattle.std.specs.Prelude.{◌≡◌};
ghost use Rattle.instructions.specs.Decoding.{decode_of};
ghost use Rattle.numbers.specs.Instruction.{decoded_number, encoded_number};

use instructions::Instruction;
use numbers::{instruction, pack};

/// What a word decodes to: the kind in bits 23..16, as the header numbers the kinds, the first
/// operand in bits 15..8 and the second in bits 7..0, 0 where there is none. A word that stands for
/// no instruction has 10 (docs/NUMBERS.md) in bits 31..24 and itself in bits 15..0. The call is
/// never refused.
#[unsafe(no_mangle)]
pub extern "C" fn nilguseg_decode(word: u16) -> u32
    ensures { result ≡ decoded_number (decode_of word) }
{
    match Instruction::decode(word) {
        Ok(ins) => pack(ins),
        Err(e) => 10 * 0x1000000 + e.word as u32,
    }
}

/// The word of an instruction, by the numbers that `nilguseg_decode` answers, or 0x10000, which is
/// no word: where the kind is above 42, or a register operand above 7 (above 3 for special and
/// decimal registers). A spread or spwrite offset above 15 goes by its low four bits; an operand
/// that the kind doesn't have is ignored.
#[tactic(auto, using(numbers::proofs::Laws::of_bytes))]
#[unsafe(no_mangle)]
pub extern "C" fn nilguseg_encode(kind: u8, first: u8, second: u8) -> u32
    ensures { result ≡ encoded_number kind first second }
{
    match instruction(kind, first, second) {
        Some(ins) => ins.encode() as u32,
        None => 0x10000,
    }
}
