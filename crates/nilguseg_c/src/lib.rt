//! What C and Rust hosts call to step, run, load and write, and to compare word lists:
//! libnilguseg.a. A slice is a pointer and then a length, which counts elements, not bytes; an
//! array is a pointer. include/nilguseg.h tells a C host what each call takes and answers. The
//! numbers of faults and refusals are those of docs/NUMBERS.md.
#![tactic(auto)]

// `Instruction::decode` must have no caller here but the cycle, or it is not inlined into the run:
// see `nilguseg_words`.

ghost use Rattle.std.specs.Prelude.{◌≡◌, ◌≢◌, ◌<◌, ◌≤◌, ◌+◌, ◌*◌, ◌/◌, ◌^◌, ℕ, List, [], ◌∷◌, length, take, Ok, None, MatchOption};
ghost use Rattle.memory.specs.Memory.{lent};
ghost use Rattle.emulator.specs.Machine.{plan_of, plain, step_of, run_of};
ghost use Rattle.run_laws.specs.Agreement.{AgreesWithOthers};
ghost use Rattle.emulator.specs.Core.{new_core};
ghost use Rattle.order.specs.Order.{order_of, part_of};
ghost use Rattle.sheet.specs.Load.{left, load_words_of, load_sheet_of};
ghost use Rattle.sheet.specs.Write.{write_sheet_of};
ghost use Rattle.nilguseg.specs.Host.{core_from, call, step_call, run_call, load_call, write_call, order_number, part_call, words_of};
ghost use Rattle.nilguseg_c.specs.Host.{exchanged};
ghost use Rattle.nilguseg.specs.Refusal.{refused_step, IsRefusedStep, refused_run, IsRefusedRun, IsWritten};
ghost use Rattle.refusal_laws.specs.Tests.{first_failing, run_tests, sheet_tests, words_tests, write_tests};

use nilguseg::{core_of, order_number, put_load, put_run, put_step, written_number};
use order::{compare, earlier_part};
use sheet::{load_sheet, load_words, write_sheet};

/// One step: fetch the word at ip, advance ip, decode, execute (docs/MACHINE.md, One step).
///
/// Lent for writing: the twelve words of the core, memory, and as many marks as memory has words,
/// to which the step adds and of which it clears none. The edition is 1 or 2. The answer has 0
/// stepped, 1 halted before, 3 fault or 4 refused in bits 31..24, the number in bits 23..16 and a
/// fault's value in bits 15..0. Faults are 10 to 14. A refusal, by the first of 1, 2 and 34, leaves
/// all that was lent.
#[unsafe(no_mangle)]
pub extern "C" fn nilguseg_step(
    core: &mut [u16; 12],
    memory: &mut [u16],
    marks: &mut [u8],
    edition: u16,
) -> u32
    ensures step { call result (core.new ∷ memory.new ∷ marks.new ∷ []) ≡ step_call (step_of plan_of (core_from core.old) (lent memory.old marks.old) edition) }
    // Refused exactly where a test fails, by the first that does; then all that was lent for
    // writing keeps its value.
    ensures refused { MatchOption
        (first_failing (run_tests None edition (lent memory.old marks.old)))
        (¬ IsRefusedStep result)
        (λ n. call result (core.new ∷ memory.new ∷ marks.new ∷ [])
        ≡ call (refused_step n) (core.old ∷ memory.old ∷ marks.old ∷ [])) }
{
    put_step(core_of(*core).step(memory, marks, edition), core)
}

/// A run of at most `limit` steps (docs/MACHINE.md, The run).
///
/// It is lent what `nilguseg_step` is, and sets all marks to 0 first. The answer has 1 halted,
/// 2 limit, 3 fault or 4 refused in bits 63..56, the number in bits 55..48, a fault's value in bits
/// 47..32 and the steps counted in bits 31..0. Faults are 10 to 14. A refusal, by the first of 1, 2
/// and 34, leaves all that was lent, the marks too, and has 0 steps.
#[unsafe(no_mangle)]
pub extern "C" fn nilguseg_run(
    core: &mut [u16; 12],
    memory: &mut [u16],
    marks: &mut [u8],
    edition: u16,
    limit: u32,
) -> u64
    ensures run { call result (core.new ∷ memory.new ∷ marks.new ∷ []) ≡ run_call (run_of plan_of (core_from core.old) (lent memory.old marks.old) edition limit) }
    // Refused exactly where a test fails, by the first that does; then all that was lent for
    // writing keeps its value.
    ensures refused { MatchOption
        (first_failing (run_tests None edition (lent memory.old marks.old)))
        (¬ IsRefusedRun result)
        (λ n. call result (core.new ∷ memory.new ∷ marks.new ∷ [])
        ≡ call (refused_run n) (core.old ∷ memory.old ∷ marks.old ∷ [])) }
    // If no host test refuses it: any other such run of this core, edition and limit agrees with
    // it, if its memory is as long and starts equal wherever this run's final marks include 1.
    ensures agreement { AgreesWithOthers (plain edition) (core_from core.old)
        (lent memory.old marks.old) limit marks.new }
{
    put_run(core_of(*core).run(memory, marks, edition, limit), core)
}

/// Loads a plain word list (docs/MACHINE.md, Word lists and their order): memory becomes its words,
/// and 0 past them.
///
/// Lent for reading: the words. Lent for writing: the core, which becomes a fresh one, the edition,
/// which becomes 1, and memory. The answer is 0, or the number of the refusal, the first of 1 and
/// 3. Where it is refused, memory keeps its words; the host gets the fresh core and edition 1 all
/// the same.
#[unsafe(no_mangle)]
pub extern "C" fn nilguseg_load_words(
    core: &mut [u16; 12],
    edition: &mut u16,
    words: &[u16],
    memory: &mut [u16],
) -> u32
    ensures loaded { call result (core.new ∷ (edition.new ∷ []) ∷ memory.new ∷ []) ≡ load_call (load_words_of words.now memory.old) }
    // Refused exactly where a test fails, by the first that does; then memory keeps its words, and
    // the host gets a fresh core and edition 1.
    ensures refused { MatchOption
        (first_failing (words_tests words.now (length memory.old)))
        (result ≡ 0)
        (λ n. call result (core.new ∷ (edition.new ∷ []) ∷ memory.new ∷ [])
        ≡ call n (words_of new_core ∷ (1 ∷ []) ∷ memory.old ∷ [])) }
{
    put_load(load_words(words, memory), core, edition)
}

/// Loads a rule sheet (docs/SHEETS.md, The records).
///
/// Lent for reading: the sheet's 32-bit records. Lent for writing: the core, the edition and
/// memory, which become what the sheet says. The answer is 0, or the number of the refusal: 1;
/// record by record the first of 20, 21, 22, 34, 23, 26 and 25; or 24, after the last record. Where
/// it is refused, memory keeps its words, and the host gets a fresh core and edition 1.
#[unsafe(no_mangle)]
pub extern "C" fn nilguseg_load_sheet(
    core: &mut [u16; 12],
    edition: &mut u16,
    sheet: &[u32],
    memory: &mut [u16],
) -> u32
    ensures loaded { call result (core.new ∷ (edition.new ∷ []) ∷ memory.new ∷ []) ≡ load_call (load_sheet_of sheet.now memory.old) }
    // Refused exactly where a test fails, by the first that does; then memory keeps its words, and
    // the host gets a fresh core and edition 1.
    ensures refused { MatchOption
        (first_failing (sheet_tests sheet.now (length memory.old)))
        (result ≡ 0)
        (λ n. call result (core.new ∷ (edition.new ∷ []) ∷ memory.new ∷ [])
        ≡ call n (words_of new_core ∷ (1 ∷ []) ∷ memory.old ∷ [])) }
{
    put_load(load_sheet(sheet, memory), core, edition)
}

/// Writes the rule sheet of a core, an edition and memory (docs/SHEETS.md, What the writer gives).
///
/// Lent for reading: the core and memory. Lent for writing: a buffer for the sheet's 32-bit
/// records. The answer is the number of records, the end included; the buffer past them stays. A
/// refusal, by the first of 1, 34 and 4, has its number in bits 63..32 and leaves the buffer.
#[unsafe(no_mangle)]
pub extern "C" fn nilguseg_write_sheet(
    core: &[u16; 12],
    edition: u16,
    memory: &[u16],
    sheet: &mut [u32],
) -> u64
    ensures written { call result (sheet.new ∷ []) ≡ write_call (write_sheet_of (core_from core.now) edition memory.now sheet.old) }
    // Refused exactly where a test fails, by the first that does, whose number stands from bit 32
    // on; then the buffer keeps its words.
    ensures refused { MatchOption
        (first_failing (write_tests (core_from core.now) edition memory.now (length sheet.old)))
        (IsWritten result)
        (λ n. call result (sheet.new ∷ []) ≡ call (n * 2 ^ 32) (sheet.old ∷ [])) }
    // So many records always have room, whatever the memory.
    ensures fits { 14 + length memory.now + (length memory.now + 1) / 2 ≤ length sheet.old
        → result ≢ 4 * 2 ^ 32 }
    // Unless it is refused, what it wrote loads back into any memory as long: the core, the edition
    // and the words.
    ensures loads_back { (held : List ℕ) → length held ≡ length memory.now → IsWritten result
        → load_sheet_of (take result sheet.new) held
        ≡ left (Ok tt) (core_from core.now) edition memory.now }
{
    written_number(write_sheet(core_of(*core), edition, memory, sheet))
}

/// Which of two word lists comes first (docs/MACHINE.md, Word lists and their order).
///
/// Lent for reading: the two lists, of any lengths; they may overlap. The answer is 0 for equal
/// lists, 1 where the first comes first, 2 where the second does. The call is never refused.
#[unsafe(no_mangle)]
pub extern "C" fn nilguseg_compare(first: &[u16], second: &[u16]) -> u32
    ensures order { result ≡ order_number (order_of first.now second.now) }
    // If the lists change places, first and second change places in the answer.
    ensures exchanged { order_number (order_of second.now first.now) ≡ exchanged result }
{
    order_number(compare(first, second))
}

/// The part of the earlier list from the first place where they differ on.
///
/// Lent for reading: the two lists, of any lengths. Lent for writing: `from`, which becomes the
/// place from which on the part is, counted in words from 0: in the second list for the answer 2,
/// else in the first. It is that list's length where the part is empty. The answer is that of
/// `nilguseg_compare`. The call is never refused.
#[unsafe(no_mangle)]
pub extern "C" fn nilguseg_earlier(first: &[u16], second: &[u16], from: &mut usize) -> u32
    ensures { call result ((from.new ∷ []) ∷ []) ≡ part_call (part_of first.now second.now) }
{
    let part = earlier_part(first, second);
    *from = part.from;
    order_number(part.order)
}
