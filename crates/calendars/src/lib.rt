// Calendars: which links are open in which slot, as a mask of eight bits for each slot.
#![tactic(auto)]

pub mod calendar;
pub mod carried_on;
pub mod closed_stretch;
pub mod even;
pub mod fault;
pub mod lent;
pub mod links;
pub mod listed;
pub mod places;
