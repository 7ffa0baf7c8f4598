// The planner: a plan of one-slot jobs, the calls that change its table, the questions about it, and the load of a sheet.
#![tactic(auto)]

mod asking;
mod changes;
mod filling;
mod loading;
mod others;
mod planner;
mod ranking;
mod refusal;
mod refusing;
mod shift;
mod table;

pub use planner::Plan;
pub use refusal::LoadRefusal;
