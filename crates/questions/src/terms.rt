// What tallies are made of.

// How many jobs are kept, and how many are dropped.
#[derive(Clone, Copy, Debug, PartialEq, Eq)]
pub struct Tally {
    pub kept: usize,
    pub dropped: usize,
}

// A tally with the total of the kept jobs' weights, and that of the dropped ones.
#[derive(Clone, Copy, Debug, PartialEq, Eq)]
pub struct TotalTally<T> {
    pub jobs: Tally,
    pub kept_total: T,
    pub dropped_total: T,
}
