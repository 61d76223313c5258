//! Theorems about the definitions of `instructions`. Each is the contract of a function with an
//! empty body: specs/ states it, proofs/ proves it. They tie decoding to the words of
//! docs/MACHINE.md, Instructions.
#![tactic(auto)]

ghost use Rattle.encoding_laws.specs.Count.{Count};
ghost use Rattle.encoding_laws.specs.Inverse.{Inverse};

/// Decoding is exactly the inverse of the table of words, and 6,118 words decode, so many to each
/// of the 43 kinds.
#[tactic(auto, using(crate::proofs::Inverse::inverse, crate::proofs::Count::counted))]
pub fn decoding_inverts_encoding()
    ensures inverse { Inverse }
    ensures count { Count }
{}
