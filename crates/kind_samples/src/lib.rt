// Samples of the three kinds of weight, run as tests.
#![tactic(auto)]

#[cfg(test)]
mod tests;
