// Jobs as rows of a plan.
ghost use Rattle.std.specs.Prelude.{◌≡◌};
ghost use Rattle.jobs.specs.Rows.{unseated};

use crate::terms::{Job, Row};

// The row of a job that has no seat yet.
impl<W> From<&Job<W>> for Row {
    ghost from_gives = { λ job row. row ≡ unseated job.now };

    fn from(job: &Job<W>) -> Row {
        Row {
            number: job.number,
            ready: job.ready,
            deadline: job.deadline,
            seat: None,
        }
    }
}
