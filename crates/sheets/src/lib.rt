// Job sheets: their records, the reader and its faults.
#![tactic(auto)]

pub mod fault;
pub mod front;
mod job_record;
pub mod kind;
pub mod reader;
mod record;
pub mod sheet;
pub mod tag;
