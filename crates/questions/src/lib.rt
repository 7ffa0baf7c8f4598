// What is asked of the rows of a plan, in rank order, and of the weight store beside them. Nothing here changes anything.
#![tactic(auto)]

pub mod order;
pub mod stretch;
pub mod tally;
pub mod terms;
