// The numbers of the refusals, and the wider fault that a store's or a table's is to a call.
ghost use Rattle.std.specs.Prelude.{◌≡◌};
ghost use Rattle.calls.specs.declared.terms.CallFault.TheVariants.{Store, Table};
ghost use Rattle.calls.specs.Faults.{store_fault_number, call_fault_number, stretch_fault_number};

use crate::terms::{CallFault, StoreFault, StretchFault};
use jobs::terms::TableFault;

impl StoreFault {
    // The refusal's number.
    pub fn number(&self) -> u8
        ensures { result ≡ store_fault_number self.now }
    {
        *self as u8 // 14 or 6
    }
}

impl CallFault {
    // The refusal's number.
    pub fn number(&self) -> u8
        ensures { result ≡ call_fault_number self.now }
    {
        match self {
            CallFault::Store(fault) => fault.number(),
            CallFault::Table(fault) => fault.number(),
            CallFault::NumberUnknown => 12,
        }
    }
}

impl From<StoreFault> for CallFault {
    ghost from_gives = { λ fault f. f ≡ Store fault };

    fn from(fault: StoreFault) -> CallFault {
        Self::Store(fault)
    }
}

impl From<TableFault> for CallFault {
    ghost from_gives = { λ fault f. f ≡ Table fault };

    fn from(fault: TableFault) -> CallFault {
        Self::Table(fault)
    }
}

impl StretchFault {
    // The refusal's number.
    pub fn number(&self) -> u8
        ensures { result ≡ stretch_fault_number self.now }
    {
        *self as u8 // 12 or 13
    }
}
