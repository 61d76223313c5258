//! The program `berth`: reads a rule sheet's bytes from standard input, runs it, prints one line.
//! `run` is the program over any reader and writer, `main` hands it the standard streams, and
//! `arguments` has what it says where it is called with one.
//! It makes true docs/SHEETS.md, The line, and What the program reads.
#![tactic(auto)]

ghost use Rattle.line.specs.Line.{line_of};
ghost use Rattle.std.specs.Io.KnownBytes.{Appends, Consumes, IsAtEnd};
ghost use Rattle.std.specs.Io.{ReadsAtMost};
ghost use Rattle.std.specs.Prelude.{◌<◌, IfOk, IfSome, OnOk, length, take};

mod arguments;

use arguments::{USE, has_argument};
use line::line_of;
use std::io;
use std::io::{Read, Write};
use std::process::ExitCode;

// Reads until `buf` is full or the input ends, and answers how many bytes it put at the start of
// `buf`. (`read_to_end` wants a `Vec`, and there is no heap.)
fn read_full<R: Read>(reader: &mut R, buf: &mut [u8]) -> io::Result<usize>
    ensures bound { ReadsAtMost result buf.new }
    ensures bytes { IfOk result (λ n. Consumes (R.remaining reader.old) (R.remaining reader.new) (take n buf.new)) }
    ensures full_or_end { IfOk result (λ n. n < length buf.new → IsAtEnd (R.remaining reader.new)) }
{
    let mut done = 0;
    while done < buf.len() {
        let n = reader.read(&mut buf[done..])?;
        if n == 0 {
            break;
        }
        done += n;
    }
    Ok(done)
}

/// Writes the line of the whole input, of which it reads at most one byte more than may be
/// accepted. Where it succeeds, the writer has got that line and nothing else, if the bytes of both
/// are known; an error of the reader or the writer is handed on.
// (It isn't inlined, so that the loop of the sheet's run stands well: docs/PERFORMANCE.md.)
#[inline(never)]
pub fn run<R: Read, W: Write>(reader: &mut R, writer: &mut W) -> io::Result<()>
    ensures line { OnOk result (IfSome (R.remaining reader.old)
        (λ input. Appends (W.contents writer.old) (W.contents writer.new) (line_of input))) }
{
    // One byte more than the longest input that is accepted tells that there are too many.
    let mut input = [0u8; 32769];
    let read = read_full(reader, &mut input)?;
    writer.write_all(line_of(&input[..read]).as_slice())
}

fn main(rt: HostRuntime) -> io::Result<ExitCode> {
    if has_argument(&rt) {
        let _ = rt.stderr().write_all(USE.as_bytes());
        return Ok(ExitCode::from(2));
    }
    run(&mut rt.stdin(), &mut rt.stdout())?;
    Ok(ExitCode::SUCCESS)
}
