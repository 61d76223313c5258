// From the input's bytes to the line.
ghost use Rattle.std.specs.Prelude.{◌≡◌, [], ◌∷◌, ◌++◌, ◌≤◌, length};
ghost use Rattle.arrayvec.specs.ArrayVec.{array_vec_len};
ghost use Rattle.sheet.specs.Refusal.{sheet_refusal_number};
ghost use Rattle.line.specs.Line.{fields, state_of, refused_line, run_line, sheet_line, line_of};

use crate::line::{Line, push_field, push_fields, push_word};
use emulator::{End, Run};
use memory::Fault;
use sheet::{SheetRefusal, load_sheet, records};

// Pushes what a run leaves, and the line feed: at most 84 bytes.
#[tactic(auto, using(crate::proofs::LineLaws::state_laws), unfolding(crate::specs::Line::fields))]
fn push_state(line: &mut Line, run: Run)
    requires { array_vec_len line.old ≤ 44 }
    ensures { line.new.items ≡ line.old.items ++ (fields (state_of run.steps run.core) ++ 10 ∷ []) }
{
    let core = run.core;
    push_field(line, run.steps);
    push_fields(line, &[core.ip, core.rp, core.sp, core.ef]);
    push_fields(line, &core.gprs);
    line.push(b'\n');
}

// `refused` and the number. (Cold, or it would be inlined at each of several refusals:
// docs/PERFORMANCE.md.)
#[tactic(auto, using(crate::proofs::LineLaws::field_laws), unfolding(crate::specs::Line::row, crate::specs::Line::fields))]
#[cold]
fn refused_line(refusal: SheetRefusal) -> Line
    ensures { result.items ≡ refused_line (sheet_refusal_number refusal) }
{
    let mut line = Line::new();
    push_word(&mut line, b"refused");
    push_field(&mut line, u32::from(refusal.number()));
    line.push(b'\n');
    line
}

// The line of a run.
#[tactic(auto, unfolding(crate::specs::Line::end_line, crate::specs::Line::row, crate::specs::Line::fields))]
fn ran_line(run: Run) -> Line
    ensures { result.items ≡ run_line (Ok run) }
{
    let mut line = Line::new();
    match run.end {
        End::Halted => {
            push_word(&mut line, b"halted");
            push_state(&mut line, run);
        }
        End::Limit => {
            push_word(&mut line, b"limit");
            push_state(&mut line, run);
        }
        End::Fault(stop) => {
            let fault = Fault::from(stop);
            push_word(&mut line, b"fault");
            push_fields(&mut line, &[u16::from(fault.number), fault.value]);
            push_state(&mut line, run);
        }
        End::Refused(refusal) => {
            return refused_line(SheetRefusal::Host(refusal));
        }
        // no run here has a log
        End::Log(_) => {}
    }
    line
}

// Loads the sheet and runs it.
#[tactic(auto, unfolding(crate::specs::Line::sheet_line))]
fn run_sheet(sheet: &[u32]) -> Result<Run, SheetRefusal>
    ensures { run_line result ≡ sheet_line sheet.now }
{
    let mut memory = [0u16; 32768];
    let mut marks = [0u8; 32768];
    let load = load_sheet(sheet, &mut memory);
    load.answer?;
    Ok(
        load.core
            .run(&mut memory, &mut marks, load.edition, 1000000),
    )
}

// The same with the sheet that the input is.
#[tactic(auto, unfolding(crate::specs::Line::line_of))]
fn run_input(input: &[u8]) -> Result<Run, SheetRefusal>
    ensures { run_line result ≡ line_of input.now }
{
    let mut sheet = [0u32; 8192];
    let count = records(input, &mut sheet)?;
    run_sheet(&sheet[..count])
}

/// The line of an input, whatever its bytes are, the line feed at its end included (docs/SHEETS.md,
/// The line): that of the run in 32,768 words with limit 1,000,000, or `refused` and the number of
/// the first test that fails (docs/NUMBERS.md, The order of the tests).
#[tactic(auto, unfolding(crate::specs::Line::line_of))]
pub fn line_of(input: &[u8]) -> Line
    ensures line { result.items ≡ line_of input.now }
    ensures upper_bound { array_vec_len result ≤ 128 }
{
    match run_input(input) {
        Ok(run) => ran_line(run),
        Err(refusal) => refused_line(refusal),
    }
}
