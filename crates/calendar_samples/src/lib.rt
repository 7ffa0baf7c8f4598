// Piles of calendars, asked for the mask of a slot, and tests that run tables of cases.
#![tactic(auto)]

pub mod piles;
#[cfg(test)]
mod tests;
