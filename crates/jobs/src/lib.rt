// Jobs, lists of them and the table that holds them: what a job is, and for what causes a table refuses one.
#![tactic(auto)]

pub mod admission;
pub mod list;
pub mod printed;
pub mod rows;
pub mod terms;
