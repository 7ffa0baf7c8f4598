// Why a sheet is not loaded: for want of a store, or as the reader or the table refuses it.
ghost use Rattle.std.specs.Prelude.{◌≡◌};
ghost use Rattle.plan.specs.declared.refusal.LoadRefusal.TheVariants.{Sheet};
ghost use Rattle.plan.specs.Loading.{load_refusal_number, load_refusal_byte, load_refusal_job};

use sheets::fault::LoadFault;

#[derive(Clone, Copy, Debug, PartialEq, Eq)]
pub enum LoadRefusal {
    // The weight store has fewer than 256 entries; no record is to blame.
    StoreTooShort,
    // The fault of the sheet, whole.
    Sheet(LoadFault),
}

impl LoadRefusal {
    // The refusal's number.
    pub fn number(&self) -> u8
        ensures { result ≡ load_refusal_number self.now }
    {
        match self {
            LoadRefusal::StoreTooShort => 14,
            LoadRefusal::Sheet(fault) => fault.number(),
        }
    }

    // The byte of the refused record's tag, the sheet's length where a record is missing; None where it is not a record that is refused.
    pub fn byte(&self) -> Option<usize>
        ensures { result ≡ load_refusal_byte self.now }
    {
        match self {
            LoadRefusal::StoreTooShort => None,
            LoadRefusal::Sheet(fault) => Some(fault.byte()),
        }
    }

    // The number of the job, where the table refused it.
    pub fn job(&self) -> Option<u16>
        ensures { result ≡ load_refusal_job self.now }
    {
        match self {
            LoadRefusal::StoreTooShort => None,
            LoadRefusal::Sheet(fault) => fault.job(),
        }
    }
}

impl From<LoadFault> for LoadRefusal {
    ghost from_gives = { λ fault refusal. refusal ≡ Sheet fault };

    fn from(fault: LoadFault) -> LoadRefusal {
        Self::Sheet(fault)
    }
}
