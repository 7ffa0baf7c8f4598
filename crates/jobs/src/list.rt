// Jobs one after the other, wherever they lie.
ghost use Rattle.std.specs.Prelude.{◌≡◌, List, length};
ghost use Rattle.jobs.specs.declared.terms.Job.{Job};
ghost use Rattle.jobs.specs.Lists.{nth};

use crate::terms::Job;

// A list of jobs means the jobs that it holds: it tells how many there are, and the k-th, counted from 0.
pub trait JobList<W> {
    // these are the jobs that it holds
    ghost holds: { Self → List (Job W) → Type 0 };

    // How many there are.
    fn job_count(&self) -> usize
        ensures value { (jobs : List (Job W)) → holds self.now jobs → result ≡ length jobs };

    // The k-th; None from their number on.
    fn nth_job(&self, k: usize) -> Option<Job<W>>
        ensures value { (jobs : List (Job W)) → holds self.now jobs → result ≡ nth jobs k };
}

// Jobs that lie one behind the other.
impl<W: Copy> JobList<W> for &[Job<W>] {
    ghost holds = { λ s jobs. jobs ≡ s.now };

    fn job_count(&self) -> usize {
        self.len()
    }

    fn nth_job(&self, k: usize) -> Option<Job<W>> {
        self.get(k).copied()
    }
}
