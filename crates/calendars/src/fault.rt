// Why a calendar is not made.
ghost use Rattle.std.specs.Prelude.{◌≡◌};
ghost use Rattle.calendars.specs.Faults.{calendar_fault_number};

#[derive(Clone, Copy, Debug, PartialEq, Eq)]
pub enum CalendarFault {
    // an even calendar has 8 links at most
    TooManyLinks,
    // a calendar ends by slot 1,024
    TooLong,
    // a stretch does not end before it begins
    Backwards,
    // a stretch ends by slot 1,024
    PastLastSlot,
}

impl CalendarFault {
    // The refusal's number, which is 16 for each cause.
    pub fn number(&self) -> u8
        ensures value { result ≡ calendar_fault_number self.now }
    {
        16
    }
}
