// The calls, and why a call or a question is refused.
use jobs::terms::{Job, TableFault};

// What changes the table of a plan.
#[derive(Clone, Copy)]
pub enum Call<W> {
    Offer(Job<W>),
    Withdraw(u16),
    Reweigh(u16, W),
}

// What is wrong with a weight store.
#[derive(Clone, Copy, Debug, PartialEq, Eq)]
pub enum StoreFault {
    // It has fewer than 256 entries.
    TooShort = 14,
    // Its first entries do not put the plan's jobs in rank order.
    OutOfRank = 6,
}

// Why a call is refused.
#[derive(Clone, Copy, Debug, PartialEq, Eq)]
pub enum CallFault {
    Store(StoreFault),
    // The table refuses the job that is offered.
    Table(TableFault),
    // No job of the table has the number.
    NumberUnknown,
}

// Why a job has no stretch.
#[derive(Clone, Copy, Debug, PartialEq, Eq)]
pub enum StretchFault {
    NumberUnknown = 12,
    // It is kept.
    JobKept = 13,
}

// What a call answers: whether the named job is kept now and the number of the other job whose standing changed, or why it is refused.
// A pair, as the definitions of a call's outcome read it.
pub type Answer = Result<(bool, Option<u16>), CallFault>;
