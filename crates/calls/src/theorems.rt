// The theorems on calls and runs, each named in the contract of a function that computes nothing.
ghost use Rattle.calls.specs.Alone.{OutcomeAlone, RunAlone};
ghost use Rattle.calls.specs.Calls.{Starts, RunPromised};

// A newly opened plan is the plan of the empty table, and a run of calls that begins with the plan of a table keeps the whole promise.
pub fn runs_keep_the_promise<W>()
    ensures starts { Starts W }
    ensures promised { RunPromised W }
{}

// A call at a moment has one answer and leaves one moment, and so does a run of calls.
pub fn calls_have_one_outcome<W>()
    ensures call { OutcomeAlone W }
    ensures run { RunAlone W }
{}
