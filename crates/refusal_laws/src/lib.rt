//! Theorems about the refusals of every call. Each is the contract of a function with an empty
//! body: specs/ states it, proofs/ proves it. They make docs/NUMBERS.md true, The order of the
//! tests and What is left unchanged; specs/Tests.antt has the tests of each call in order.
#![tactic(auto)]

ghost use Rattle.refusal_laws.specs.Refused.{Refused, RefusedLine};

/// A call is refused by the first of its tests that fails, exactly where one fails; then every word
/// and byte that it was lent keeps its value, and it hands back the core that it was given, a load
/// a fresh one and edition 1. The line of `berth` tells the same number.
#[tactic(auto, using(crate::proofs::Refused::refused, crate::proofs::Line::refused_line))]
pub fn first_failing_test_refuses()
    ensures calls { Refused }
    ensures line { RefusedLine }
{}
