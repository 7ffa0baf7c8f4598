// Whether a table takes a job, and the numbers of its refusals.
ghost use Rattle.std.specs.Prelude.{◌≡◌, MatchResult};
ghost use Rattle.jobs.specs.Admission.{Admissible, RefusedFor, table_fault_number, table_fault_job};

use crate::terms::{Job, TableFault};

impl TableFault {
    // The refusal's number.
    pub fn number(&self) -> u8
        ensures { result ≡ table_fault_number self.now }
    {
        match self {
            TableFault::NumberZero(_) => 8,
            TableFault::NoWindow(_) => 9,
            TableFault::NumberTaken(_) => 10,
            TableFault::TableFull(_) => 11,
        }
    }

    // The number of the job that was refused.
    pub fn job(&self) -> u16
        ensures { result ≡ table_fault_job self.now }
    {
        let (TableFault::NumberZero(job)
        | TableFault::NoWindow(job)
        | TableFault::NumberTaken(job)
        | TableFault::TableFull(job)) = self;
        *job
    }
}

impl<W> Job<W> {
    // Whether a table with `count` jobs, in which the job's number is taken or not, takes the job; else the first cause against it.
    pub fn admission(&self, taken: bool, count: usize) -> Result<(), TableFault>
        ensures { MatchResult result (λ _. Admissible self.now.number self.now.ready self.now.deadline taken count) (RefusedFor self.now.number self.now.ready self.now.deadline taken count) }
    {
        if self.number == 0 {
            Err(TableFault::NumberZero(self.number))
        } else if self.ready >= self.deadline || self.deadline > 1024 {
            Err(TableFault::NoWindow(self.number))
        } else if taken {
            Err(TableFault::NumberTaken(self.number))
        } else if count >= 256 {
            Err(TableFault::TableFull(self.number))
        } else {
            Ok(())
        }
    }
}
