// Calls on a plan, what one call and what a run of calls makes of it, and why a call or a question is refused.
// The definitions stand in specs/, the argument in proofs/.
#![tactic(auto)]

pub mod faults;
pub mod terms;
pub mod theorems;
