// The text of a plan and the line of a refusal, put into a lent buffer.
#![tactic(auto)]

mod fault;
mod printing;
mod putting;

pub use fault::BufferFault;
pub use printing::{print, print_refusal};
