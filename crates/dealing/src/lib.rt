// The argument behind the planner, over indices. No code runs here: each function carries theorems in its contract.
#![tactic(auto)]

ghost use Rattle.dealing.specs.Boards.{LoadFitsRoom, PlacedOrOverloaded};
ghost use Rattle.dealing.specs.Choice.{ChoiceExists, ChoiceUnique, KeptArePlaced, DroppedHasFullRun, ReasonedIsLargest, KeepsMost};
ghost use Rattle.dealing.specs.Counting.{Injection};
ghost use Rattle.dealing.specs.Dealing.{OrderKeepsDeadlines, DealingExists, DealingUnique, LateJobOverloads, SeatedArePlaced, PlaceableAreSeated};
ghost use Rattle.dealing.specs.Insertion.{InsertionChangesOne, MoveChangesOne};
ghost use Rattle.dealing.specs.Stretches.{StretchExists, StretchIsFull};

// A set that goes into another is no larger.
pub fn injections_count()
    ensures { Injection }
{}

// A set of jobs has a placing exactly where no run of slots is overloaded.
pub fn placeable_sets_fit()
    ensures fits { LoadFitsRoom }
    ensures either { PlacedOrOverloaded }
{}

// Places can be dealt in each order of the jobs, in one way alone; where the order keeps deadlines, so does dealing.
pub fn dealing_is_determined()
    ensures exists { DealingExists }
    ensures unique { DealingUnique }
    ensures deadlines { OrderKeepsDeadlines }
{}

// Dealing by deadline seats all of a set exactly where the set has a placing.
pub fn dealing_seats_every_placeable_set()
    ensures late { LateJobOverloads }
    ensures placed { SeatedArePlaced }
    ensures seated { PlaceableAreSeated }
{}

// Keeping in turn makes one choice, and the kept jobs have a placing together.
pub fn keeping_in_turn_is_determined()
    ensures exists { ChoiceExists }
    ensures unique { ChoiceUnique }
    ensures placed { KeptArePlaced }
{}

// A dropped job stands in a run of slots that jobs kept before it fill.
pub fn dropped_jobs_have_full_runs()
    ensures run { DroppedHasFullRun }
    ensures stretch { StretchExists }
    ensures full { StretchIsFull }
{}

// A set whose left out jobs all have full runs is largest; so is what is kept in turn, on each front of the ranks.
pub fn reasoned_sets_are_largest()
    ensures reasoned { ReasonedIsLargest }
    ensures kept { KeepsMost }
{}

// One job more, or one that moves, changes at most one other.
pub fn one_other_changes()
    ensures inserted { InsertionChangesOne }
    ensures moved { MoveChangesOne }
{}
