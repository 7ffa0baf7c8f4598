// Why something is no weight of a kind.
ghost use Rattle.std.specs.Prelude.{◌≡◌};
ghost use Rattle.weights.specs.Fault.{weight_fault_number};

// The one cause: the bytes, or the numbers handed to a constructor, are no weight of the kind.
#[derive(Clone, Copy, Debug, PartialEq, Eq)]
pub enum WeightFault {
    NoWeight = 7,
}

impl WeightFault {
    // The refusal's number.
    pub fn number(&self) -> u8
        ensures { result ≡ weight_fault_number self.now }
    {
        *self as u8
    }
}

// A space has not the width of the kind whose weight is to be written there.
#[derive(Clone, Copy, Debug, PartialEq, Eq)]
pub struct WrongWidth;
