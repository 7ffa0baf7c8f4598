// Why a sheet is not written.
ghost use Rattle.std.specs.Prelude.{◌≡◌};
ghost use Rattle.writing.specs.declared.fault.WriteFault.TheVariants.{Store};
ghost use Rattle.writing.specs.Faults.{write_fault_number};

use calls::terms::StoreFault;

#[derive(Clone, Copy, Debug, PartialEq, Eq)]
pub enum WriteFault {
    // What is wrong with the weight store.
    Store(StoreFault),
    // The buffer is too short for the sheet.
    TooShort,
}

// What is wrong with the store, whole.
impl From<StoreFault> for WriteFault {
    ghost from_gives = { λ fault given. given ≡ Store fault };

    fn from(fault: StoreFault) -> WriteFault {
        Self::Store(fault)
    }
}

impl WriteFault {
    // The refusal's number.
    pub fn number(&self) -> u8
        ensures { result ≡ write_fault_number self.now }
    {
        match self {
            WriteFault::Store(fault) => fault.number(),
            WriteFault::TooShort => 15,
        }
    }
}
