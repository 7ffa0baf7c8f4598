// The jobs of a plan, in rank order, each with its seat.
ghost use Rattle.std.specs.Prelude.{◌≡◌, ◌≤◌, length, take};
ghost use Rattle.plan.specs.Rows.{Distinct};

use jobs::terms::Row;

mod drawn;
mod rows;

// Up to 256 rows, of which the first `count` are in use; no two of those have one number. An array with its count: there is no heap, and
// a table is copied for each call, which the kit's array list is not.
#[derive(Clone, Copy)]
pub(crate) struct Table {
    rows: [Row; 256],
    count: usize,
    ghost whole: { length rows ≡ 256 },
    ghost few: { count ≤ 256 },
    ghost distinct: { Distinct (take count rows) },
}
