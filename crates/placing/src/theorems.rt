// The theorems, each named in the contract of a function that computes nothing.
ghost use Rattle.placing.specs.Change.{OfferChangesOne, OfferOnlyDrops, WithdrawalChangesOne, WithdrawalOnlyRevives, RerankingChangesOne, AnswerAlone};
ghost use Rattle.placing.specs.Orders.{HeavierThenLowerMeans, HeavierThenLowerRanks, EarliestThenLowerMeans, EarliestThenLowerServes};
ghost use Rattle.placing.specs.Theorems.{SameKept, DroppedHasFullStretch, FrontKeepsMost, ReasonedKeepsMost, ReasonsMakeBest, PlanSound, TotalsFollowCounts, PlanHeaviest, OnePlan, PlanAlone, PlanExists, DrawnFrom};

// The rank order in force, for each kind of weight, and the order of service in force: what they say, and that they obey what the theorems ask of such orders.
pub fn the_orders_are_lawful<W>()
    ensures ranks { HeavierThenLowerRanks W }
    ensures heavier { HeavierThenLowerMeans W }
    ensures serves { EarliestThenLowerServes }
    ensures earliest { EarliestThenLowerMeans }
{}

// Who is kept does not depend on the order of service.
pub fn service_order_keeps_the_same()
    ensures { SameKept }
{}

// A dropped row has a stretch, full of rows kept before it.
pub fn dropped_rows_have_full_stretches()
    ensures { DroppedHasFullStretch }
{}

// No rival keeps more than a plan, on any front of the ranks, or than any reasoned placing, however it was found.
pub fn no_rival_keeps_more()
    ensures front { FrontKeepsMost }
    ensures reasoned { ReasonedKeepsMost }
{}

// The plan of a table has a reason for each dropped job and is best at every weight level; reasons alone make any placing best.
pub fn plans_are_best_and_reasoned<W>()
    ensures plan { PlanSound W }
    ensures best { ReasonsMakeBest W }
{}

// No rival's total is heavier than that of the plan.
pub fn no_rival_is_heavier<W, X>()
    ensures counts { TotalsFollowCounts W X }
    ensures heaviest { PlanHeaviest W X }
{}

// Tables with the same jobs, under equal masks, have one plan, seat for seat.
pub fn equal_tables_have_equal_plans<W>()
    ensures rows { OnePlan }
    ensures tables { PlanAlone W }
{}

// Each table has a plan; rows that sit where dealing in order has them are it.
pub fn every_table_has_a_plan()
    ensures exists { PlanExists }
    ensures drawn { DrawnFrom }
{}

// An offer, a withdrawal and a new rank change the standing of at most one other job, in one direction, and there is one right answer as to which.
pub fn one_other_changes()
    ensures offer { OfferChangesOne }
    ensures drops { OfferOnlyDrops }
    ensures withdrawal { WithdrawalChangesOne }
    ensures revives { WithdrawalOnlyRevives }
    ensures reranking { RerankingChangesOne }
    ensures answer { AnswerAlone }
{}
