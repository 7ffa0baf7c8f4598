// The writer of job sheets: a plan's table and a calendar as the bytes of a sheet.
#![tactic(auto)]

pub mod fault;
mod front;
mod records;
pub mod writer;
