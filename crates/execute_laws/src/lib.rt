//! Theorems about the definitions of `execute`. Each is the contract of a function with an empty
//! body: specs/ states it, proofs/ proves it. Words stay words (docs/MACHINE.md, Registers), and
//! the editions differ in two stops alone (docs/MACHINE.md, Editions).
#![tactic(auto)]

ghost use Rattle.execute_laws.specs.Editions.{Editions};
ghost use Rattle.execute_laws.specs.Words.{Words};

/// An instruction that sees 16-bit words leaves 16-bit words.
#[tactic(auto, using(crate::proofs::Words::words))]
pub fn words_stay_words()
    ensures words { Words }
{}

/// The editions differ in the stops 13 and 14 alone: where edition 1 makes neither, edition 2 has
/// the same effect, and edition 2 makes neither.
#[tactic(auto, using(crate::proofs::Editions::editions))]
pub fn editions_differ_by_stops()
    ensures editions { Editions }
{}
