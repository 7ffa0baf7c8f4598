// A job's record: number, ready slot and deadline in two bytes each, then the weight.
ghost use Rattle.std.specs.Prelude.{◌≡◌, ◌+◌, ◌<◌, ◌⊎◌, List, length, drop, MatchOption, MatchResult, ◌≢◌};
ghost use Rattle.jobs.specs.Admission.{taken};
ghost use Rattle.jobs.specs.declared.terms.Job.{Job};
ghost use Rattle.sheets.specs.Format.{job_value, job_records, JobAt};

use jobs::terms::Job;
use weights::fault::WeightFault;
use weights::kind::OrderedWeight;

// The job with this value; refused exactly when the bytes behind the first six are no weight of the kind.
pub(crate) fn job_of<W: OrderedWeight>(value: &[u8]) -> Result<Job<W>, WeightFault>
    ensures { MatchResult result (λ job. job_value W.OrderedWeight.encoding job ≡ value.now) (λ _. (length value.now < 6) ⊎ ((w : W) → W.OrderedWeight.encoding w ≢ drop 6 value.now)) }
{
    let [n1, n0, r1, r0, d1, d0, weight @ ..] = value else {
        return Err(WeightFault::NoWeight);
    };
    Ok(Job {
        number: u16::from_be_bytes([*n1, *n0]),
        ready: u16::from_be_bytes([*r1, *r0]),
        deadline: u16::from_be_bytes([*d1, *d0]),
        weight: W::read(weight)?,
    })
}

// Whether one of the jobs of these records has the number. Rows and lists of jobs have a search of their own: there is no common type.
pub(crate) fn number_taken<W: OrderedWeight>(records: &[u8], number: u16) -> bool
    ensures { (jobs : List (Job W)) → records.now ≡ job_records W.OrderedWeight.encoding jobs → result ≡ taken number jobs }
{
    // Compared as a sheet writes it, so that no record's number is put together.
    let wanted = number.to_be_bytes();
    let mut parts = records.chunks_exact(9 + W::WIDTH);
    parts.any(|record| record[3] == wanted[0] && record[4] == wanted[1])
}

// The job of the k-th of these records; None where there is no such record, or its bytes are no job.
pub(crate) fn job_at<W: OrderedWeight>(records: &[u8], k: usize) -> Option<Job<W>>
    ensures { MatchOption result ((job : Job W) → JobAt W.OrderedWeight.encoding (9 + W.OrderedWeight.WIDTH) records.now k job → ⊥) (λ job. JobAt W.OrderedWeight.encoding (9 + W.OrderedWeight.WIDTH) records.now k job) }
{
    let size = 9 + W::WIDTH;
    let at = k.checked_mul(size)?;
    let record = records.get(at..)?.get(..size)?;
    job_of(&record[3..]).ok()
}
