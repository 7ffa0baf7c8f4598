// A plan: its table of jobs in rank order, each with its seat. The weights lie in a store of the caller's.
ghost use Rattle.std.specs.Prelude.{◌≡◌, ◌≤◌, [], length};
ghost use Rattle.plan.specs.Rows.{Numbered, Tabled, Windows};
ghost use Rattle.plan.specs.Tables.{rows_of};

use crate::table::Table;
use jobs::terms::Row;

// Each job of its table has a window that ends by slot 1,024, and none has the number 0.
#[derive(Clone, Copy)]
pub struct Plan {
    pub(crate) table: Table,
    ghost windows: { Windows (rows_of table) },
    ghost numbered: { Numbered (rows_of table) },
}

impl Plan {
    ghost use Rattle.plan.specs.Plans.{rows_in};

    // A plan without jobs.
    pub fn open() -> Plan
        ensures made { rows_in result ≡ [] }
    {
        Plan {
            table: Table::new(),
        }
    }

    // The jobs of the table, in rank order, with their seats: at most 256, no number twice and none 0, each with its window.
    pub fn rows(&self) -> &[Row]
        ensures value { result.now ≡ rows_in self.now }
        ensures admissible { Tabled (rows_in self.now) }
        ensures few { length result.now ≤ 256 }
    {
        self.table.rows()
    }
}
