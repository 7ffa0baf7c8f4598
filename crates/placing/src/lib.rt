// What a plan is, what is promised of it and why it holds: the definitions and theorems stand in specs/. The functions of `theorems` carry the theorems
// in their contracts and compute nothing; those of `predicates` are the tests that the definitions are made of, for a planner to use.
#![tactic(auto)]

pub mod predicates;
pub mod theorems;
