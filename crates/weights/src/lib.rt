// Weights of jobs: what a kind of weight owes, and what can be said of weights whatever their kind.
#![tactic(auto)]

pub mod bytes;
pub mod fault;
pub mod kind;
pub mod ranking;
pub mod totals;
