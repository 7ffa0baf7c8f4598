// The tests that the definitions of a plan are made of: of bare numbers, as the definitions are, since jobs and rows both have them.
ghost use Rattle.std.specs.Prelude.{◌≡◌, Decides};
ghost use Rattle.placing.specs.Orders.{ServedFirst, goes_first};
ghost use Rattle.placing.specs.Placing.{InWindow};
ghost use Rattle.placing.specs.Plan.{Earlier};

use jobs::terms::Seat;

// Whether the slot lies in the window of a job: from `ready` up to, and without, `deadline`. An empty window has no slot.
pub fn in_window(ready: u16, deadline: u16, slot: u16) -> bool
    ensures answers { Decides result (InWindow ready deadline slot) }
{
    (ready..deadline).contains(&slot)
}

// Whether, of two ready jobs, the first is seated before the other: it has the earlier deadline, or the same one and the lower number.
// A job does not go before itself.
pub fn goes_first(deadline: u16, number: u16, other_deadline: u16, other_number: u16) -> bool
    ensures answers { Decides result (ServedFirst deadline number other_deadline other_number) }
    ensures value { result ≡ goes_first deadline number other_deadline other_number }
{
    (deadline, number) < (other_deadline, other_number)
}

// Whether place `a` is dealt before place `b`: slot by slot upward, in a slot the lowest link first.
pub fn earlier(a: Seat, b: Seat) -> bool
    ensures answers { Decides result (Earlier a b) }
{
    a < b
}
