//! The program takes no arguments: whether it was called with one, and what it says then.
use std::env::FillError;
use std::rt::Env;

/// What the program reads, said where it is called with an argument.
pub(crate) const USE: &str =
    "berth takes no arguments. It reads a rule sheet's bytes from standard input, four for each\n\
    record, low byte first. A sheet that is text is run by scripts/berth FILE.\n";

/// Whether the program was called with an argument, be it an empty one.
// (`env::args` would copy each argument to a heap. Here the first is asked for with no room for it:
// it is there if it is empty or too long.)
pub(crate) fn has_argument(env: &impl Env) -> bool {
    !matches!(env.arg(1, &mut []), Err(FillError::NotPresent))
}
