// The numbers that a call answers to C. They are functions, since a number alone doesn't say of
// what it is, and neither side of most is of this crate.
ghost use Rattle.std.specs.Prelude.{◌≡◌, ◌/◌, ◌^◌};
ghost use Rattle.emulator.specs.Answers.{answer_of, end_of};
ghost use Rattle.nilguseg.specs.Host.{answered, outcome_number, loaded_number, written_number, order_number};
ghost use Rattle.nilguseg.specs.Refusal.{how_of};

use emulator::{Answer, End};
use memory::Fault;
use sheet::SheetRefusal;
use std::cmp::Ordering;

fn number(how: u8, number: u8, value: u16) -> u32
    ensures number { result ≡ answered how number value }
    // The upper bits say how the call came out.
    ensures how { result / 2 ^ 24 ≡ how }
{
    how as u32 * 0x1000000 + number as u32 * 0x10000 + value as u32
}

/// The number of a run's end: 1 halted, 2 limit, 3 fault, 4 refused or 5 ended by the log in bits
/// 31..24, the number of docs/NUMBERS.md in bits 23..16, a fault's value in bits 15..0.
pub fn end_number(end: End) -> u32
    ensures number { result ≡ outcome_number (end_of end) }
    // The upper bits say how the run came out.
    ensures how { result / 2 ^ 24 ≡ how_of (end_of end) }
{
    match end {
        End::Halted => number(1, 0, 0),
        End::Limit => number(2, 0, 0),
        End::Fault(stop) => {
            let fault = Fault::from(stop);
            number(3, fault.number, fault.value)
        }
        End::Refused(refusal) => number(4, refusal.number(), 0),
        End::Log(end) => number(5, end.number(), 0),
    }
}

/// The number of a step: 0 if it stepped. Any other has the number of a run that ends so.
pub fn step_number(answer: Answer) -> u32
    ensures number { result ≡ outcome_number (answer_of answer) }
    // The upper bits say how the step came out.
    ensures how { result / 2 ^ 24 ≡ how_of (answer_of answer) }
{
    match answer {
        Answer::Stepped => number(0, 0, 0),
        Answer::Halted => end_number(End::Halted),
        Answer::Fault(stop) => end_number(End::Fault(stop)),
        Answer::Refused(refusal) => end_number(End::Refused(refusal)),
    }
}

/// The number of a load: 0 if it is done, or that of the refusal.
pub fn loaded_number(answer: Result<(), SheetRefusal>) -> u32
    ensures { result ≡ loaded_number answer }
{
    match answer {
        Ok(()) => 0,
        Err(refusal) => refusal.number() as u32,
    }
}

/// The number of a write: that of the records in bits 31..0, or that of the refusal from bit 32 on.
pub fn written_number(answer: Result<usize, SheetRefusal>) -> u64
    ensures { result ≡ written_number answer }
{
    match answer {
        Ok(count) => count as u64,
        Err(refusal) => refusal.number() as u64 * 0x100000000,
    }
}

/// The number of a comparison: 0 for equal lists, 1 where the first comes first, 2 where the second
/// does.
pub fn order_number(order: Ordering) -> u32
    ensures { result ≡ order_number order }
{
    match order {
        Ordering::Equal => 0,
        Ordering::Less => 1,
        Ordering::Greater => 2,
    }
}
