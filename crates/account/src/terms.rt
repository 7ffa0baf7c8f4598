// What the lines of a script say.
use calls::terms::Call;
use weights::fault::WeightFault;

// What is asked of a plan.
#[derive(Clone, Copy)]
pub(crate) enum Question {
    Standing(u16),
    Seat(u16),
    Stretch(u16),
    Tally,
    Print,
}

// What a line commands.
#[derive(Clone, Copy)]
pub(crate) enum Command<W> {
    Make(Call<W>),
    // A call that is not made, since its weight is out of range.
    NoWeight(WeightFault),
    Ask(Question),
}

// The calendar that a script begins with: links and end, or the masks.
#[derive(Drop)]
pub(crate) enum Base {
    Even { links: u16, end: u16 },
    Listed(Vec<u8>),
}

// The slots from `first` up to, and without, `past` lose the links of a mask.
#[derive(Clone, Copy)]
pub(crate) struct Closed {
    pub(crate) first: u16,
    pub(crate) past: u16,
    pub(crate) links: u8,
}
