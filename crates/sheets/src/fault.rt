// Why a sheet is refused: by the reader, or by the table that takes its jobs.
ghost use Rattle.std.specs.Prelude.{◌≡◌};
ghost use Rattle.sheets.specs.declared.fault.SheetFault.TheVariants.{NoWeight};
ghost use Rattle.sheets.specs.declared.fault.LoadFault.TheVariants.{Sheet};
ghost use Rattle.sheets.specs.Faults.{sheet_fault_number, load_fault_number, load_fault_byte, load_fault_job};

use jobs::terms::TableFault;
use weights::fault::WeightFault;

// The reader's own causes.
#[derive(Clone, Copy, Debug, PartialEq, Eq)]
pub enum SheetFault {
    // The sheet ends inside a record.
    EndsInside = 1,
    UnknownTag = 2,
    // A record is out of order or missing.
    OutOfOrder = 3,
    // The kind code is not the one asked for.
    OtherKind = 4,
    // The length is wrong for the tag.
    WrongLength = 5,
    // The bytes are no weight of the kind.
    NoWeight = 7,
}

// The reader's fault or the table's, whole, with the byte of the refused record's tag.
#[derive(Clone, Copy, Debug, PartialEq, Eq)]
pub enum LoadFault {
    Sheet(SheetFault, usize),
    Table(TableFault, usize),
}

impl SheetFault {
    // The refusal's number.
    pub fn number(&self) -> u8
        ensures { result ≡ sheet_fault_number self.now }
    {
        *self as u8
    }

    // The same fault, as that of the record whose tag stands at this byte: no From, since the byte goes in beside the fault.
    pub(crate) fn at(self, byte: usize) -> LoadFault
        ensures { result ≡ Sheet self byte }
    {
        LoadFault::Sheet(self, byte)
    }
}

// Bytes that are no weight.
impl From<WeightFault> for SheetFault {
    ghost from_gives = { λ _ fault. fault ≡ NoWeight };

    fn from(fault: WeightFault) -> SheetFault {
        match fault {
            WeightFault::NoWeight => SheetFault::NoWeight,
        }
    }
}

impl LoadFault {
    // The refusal's number.
    pub fn number(&self) -> u8
        ensures { result ≡ load_fault_number self.now }
    {
        match self {
            LoadFault::Sheet(fault, _) => fault.number(),
            LoadFault::Table(fault, _) => fault.number(),
        }
    }

    // The byte of the refused record's tag; the sheet's length where a record is missing.
    pub fn byte(&self) -> usize
        ensures { result ≡ load_fault_byte self.now }
    {
        match self {
            LoadFault::Sheet(_, byte) | LoadFault::Table(_, byte) => *byte,
        }
    }

    // The number of the job that the table refused.
    pub fn job(&self) -> Option<u16>
        ensures { result ≡ load_fault_job self.now }
    {
        match self {
            LoadFault::Sheet(_, _) => None,
            LoadFault::Table(fault, _) => Some(fault.job()),
        }
    }
}
