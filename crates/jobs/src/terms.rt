// The subject's plain types.

// A one-slot job: it may sit in the slots from `ready` up to, and without, `deadline`.
#[derive(Clone, Copy, Debug, PartialEq, Eq)]
pub struct Job<W> {
    pub number: u16,
    pub ready: u16,
    pub deadline: u16,
    pub weight: W,
}

// A place that a job has: one link in one slot. The lesser is dealt first: slot by slot, in a slot the lowest link first.
#[derive(Clone, Copy, Debug, PartialEq, Eq, PartialOrd, Ord)]
pub struct Seat {
    pub slot: u16,
    pub link: u8,
}

// A job in a plan, its weight lying elsewhere: kept with a seat, dropped without.
#[derive(Clone, Copy, Debug, PartialEq, Eq)]
pub struct Row {
    pub number: u16,
    pub ready: u16,
    pub deadline: u16,
    pub seat: Option<Seat>,
}

#[derive(Clone, Copy, Debug, PartialEq, Eq)]
pub enum Standing {
    Kept,
    Dropped,
    Absent,
}

// Why a table refuses a job, with the job's number.
#[derive(Clone, Copy, Debug, PartialEq, Eq)]
pub enum TableFault {
    NumberZero(u16),
    NoWindow(u16),
    NumberTaken(u16),
    TableFull(u16),
}
