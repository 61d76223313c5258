//! The line that the program `berth` prints, from the bytes of its input (docs/SHEETS.md, What the
//! program reads, and The line): `run` loads the sheet, runs it and writes the line's fields, by
//! the pushes of `line`. Nothing here allocates, and no stream is read or
//! written.
#![tactic(auto)]

mod line;
mod run;

pub use line::Line;
pub use run::line_of;
