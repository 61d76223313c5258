//! Word lists and rule sheets: `load` reads them into memory and a core, `write` writes a sheet
//! from these, and `input` takes a sheet's records from the bytes of a program's input. `fields`
//! tells what one record says, `refusal` why a call is refused. They make true docs/SHEETS.md, The
//! records, What the writer gives and What the program reads, and of word lists docs/MACHINE.md,
//! Word lists and their order.
#![tactic(auto)]

mod fields;
mod input;
mod load;
mod refusal;
mod write;

pub use input::records;
pub use load::{Load, load_sheet, load_words};
pub use refusal::SheetRefusal;
pub use write::write_sheet;
