//! Theorems about the definitions of `order`. Each is the contract of a function with an empty
//! body: specs/ states it, proofs/ proves it. They show that the order of docs/MACHINE.md, Word
//! lists and their order, is one, and which lists are equal by it.
#![tactic(auto)]

ghost use Rattle.order_laws.specs.Claims.{Equality, FirstDifference, LoadAlike, Total, Transitive};

/// Of two lists exactly one comes first or they are equal, and the order is transitive.
#[tactic(auto, using(crate::proofs::Claims::total, crate::proofs::Claims::transitive))]
pub fn lists_are_ordered()
    ensures total { Total }
    ensures transitive { Transitive }
{}

/// Equal lists are those that differ in trailing zeros only; they answer alike against every third
/// list, and load alike wherever both fit.
#[tactic(auto, using(crate::proofs::Claims::equality, crate::proofs::Claims::load_alike))]
pub fn equal_lists_are_alike()
    ensures equality { Equality }
    ensures load_alike { LoadAlike }
{}

/// Two lists are compared at the first place where they differ, and the part handed back, if it has
/// a word, begins with the smaller one there.
#[tactic(auto, using(crate::proofs::Claims::first_difference))]
pub fn first_difference_decides()
    ensures first_difference { FirstDifference }
{}
