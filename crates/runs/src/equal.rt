// Calendars that may stand for each other.
ghost use Rattle.std.specs.Prelude.{◌≡◌, true, Decides};
ghost use Rattle.calendars.specs.Places.{SameMasks};
ghost use Rattle.calls.specs.Alone.{EqualPlans};
ghost use Rattle.calls.specs.Moments.{in_force};

use calendars::calendar::Calendar;
use calendars::places::same_masks;
use weights::kind::OrderedWeight;

// Whether two calendars, of whatever types, have the same masks. If so, tables with the same jobs, in whatever order, have equal plans
// under them: the same rows in the same order, the same seats, the same weights.
pub fn interchangeable<W: OrderedWeight, C: Calendar, D: Calendar>(c: &C, d: &D) -> bool
    ensures answers { Decides result (SameMasks (C.Calendar.mask c.now) (D.Calendar.mask d.now)) }
    ensures equal { result ≡ true → EqualPlans (in_force W.OrderedWeight.no_lighter (C.Calendar.mask c.now)) (in_force W.OrderedWeight.no_lighter (D.Calendar.mask d.now)) }
{
    same_masks(c, d)
}
