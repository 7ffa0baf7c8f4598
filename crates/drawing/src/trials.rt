// Rows tried in rank order, each kept if it has a place beside those kept before it.
ghost use Rattle.std.specs.Prelude.{◌≡◌, ℕ, ◌<◌, ◌≤◌, Bool, true, false, MatchOption, None, length, slice_index, slice_index_or};
ghost use Rattle.dealing.specs.Boards.{Placing};
ghost use Rattle.dealing.specs.Choice.{adding};
ghost use Rattle.placing.specs.Index.{table_of};
ghost use Rattle.placing.specs.Placing.{row};
ghost use Rattle.drawing.specs.Slots.{board_by, Numbered};
ghost use Rattle.drawing.specs.Draw.{Drawable};
ghost use Rattle.drawing.specs.Trial.{order, seat_of, carried_in, settled_in, SucceedsIn, FailsIn, below, DealtToAll, Chosen, OfRows};

use jobs::terms::Row;
use placing::predicates::goes_first;

// The row that sits at each open place, where one does. A calendar has 8,192 open places at most. A bare array of fixed size: there is no
// heap, and which rows may sit there depends on the rows, which a struct of the places would have to hold too.
pub(crate) type Places = [Option<u8>; 8192];

// What a trial reads: the rows, and in `counts[s]` how many open places lie in the slots below s.
// The places stand outside: a method that wrote them through `&mut self` would owe clauses that the rows and counts stay.
#[derive(Drop)]
pub(crate) struct Trials<'a> {
    pub(crate) rows: &'a [Row],
    pub(crate) counts: &'a [u16; 1025],
    ghost drawable: { Drawable rows.now },
    ghost numbered: { Numbered counts.now },
    ghost room: { slice_index counts.now 1024 ≤ 8192 },
}

impl Trials<'_> {
    // The first open place of the slots from `slot` on.
    fn first_place(&self, slot: u16) -> usize
        requires { slot ≤ 1024 }
        ensures value { result ≡ slice_index self.now.counts.now slot }
    {
        usize::from(self.counts[usize::from(slot)])
    }

    // Whether row i is served before row j.
    fn served_first(&self, i: usize, j: usize) -> bool
        requires { (i < length self.now.rows.now) × (j < length self.now.rows.now) }
        ensures value { result ≡ order self.now.rows.now i j }
    {
        let a = self.rows[i];
        let b = self.rows[j];
        goes_first(a.deadline, a.number, b.deadline, b.number)
    }

    // The empty place at which the trial of row x ends, if it has a place beside those that are seated.
    fn probe(&self, places: &Places, x: usize) -> Option<usize>
        requires within { x < length self.now.rows.now }
        requires early { (row self.now.rows.now x).ready ≤ 1024 }
        requires seated { OfRows places.now (length self.now.rows.now) }
        ensures cases { MatchOption result ((e : ℕ) × FailsIn self.now.rows.now self.now.counts.now places.now x e) (λ e. SucceedsIn self.now.rows.now self.now.counts.now places.now x e) }
    {
        let mut carried = x;
        let mut p = self.first_place(self.rows[x].ready);
        // not a range: its end moves with the row in hand
        while p < self.first_place(self.rows[carried].deadline) {
            let Some(sitting) = places[p] else {
                return Some(p);
            };
            let sitting = usize::from(sitting);
            if self.served_first(carried, sitting) {
                carried = sitting;
            }
            p += 1;
        }
        None
    }

    // Makes the changes of the trial of row x, which ends at the empty place e.
    fn settle(&self, places: &mut Places, x: usize, e: usize)
        requires within { x < length self.now.rows.now }
        requires early { (row self.now.rows.now x).ready ≤ 1024 }
        requires seated { OfRows places.old (length self.now.rows.now) }
        requires succeeds { SucceedsIn self.now.rows.now self.now.counts.now places.old x e }
        ensures seated { OfRows places.new (length self.now.rows.now) }
        ensures made { (q : ℕ) → q < e → seat_of places.new q ≡ settled_in self.now.rows.now self.now.counts.now places.old x q }
        ensures leaves { seat_of places.new e ≡ carried_in self.now.rows.now self.now.counts.now places.old x e }
        ensures same { (q : ℕ) → e < q → seat_of places.new q ≡ seat_of places.old q }
    {
        let mut carried = x;
        // by place, since the places are written on the way
        for p in self.first_place(self.rows[x].ready)..e {
            if let Some(sitting) = places[p] {
                let sitting = usize::from(sitting);
                if self.served_first(carried, sitting) {
                    places[p] = Some(carried as u8);
                    carried = sitting;
                }
            }
        }
        places[e] = Some(carried as u8);
    }

    // Keeps row x, and deals the places anew, if it has a place beside the rows that are seated; else leaves all as it is. Answers a bool,
    // since whether the row is kept is all that there is to say.
    fn trial(&self, places: &mut Places, x: usize) -> bool
        requires within { x < length self.now.rows.now }
        requires seated { OfRows places.old (length self.now.rows.now) }
        ensures seated { OfRows places.new (length self.now.rows.now) }
        ensures made { (kept : ℕ → Bool) → DealtToAll self.now.rows.now self.now.counts.now (below kept x) places.old → result ≡ true → DealtToAll self.now.rows.now self.now.counts.now (adding kept x) places.new }
        ensures refused { (kept : ℕ → Bool) → DealtToAll self.now.rows.now self.now.counts.now (below kept x) places.old → result ≡ false → Placing (board_by self.now.counts.now) (table_of self.now.rows.now) (adding kept x) → ⊥ }
        ensures same { result ≡ false → places.new ≡ places.old }
    {
        if self.rows[x].ready >= self.rows[x].deadline {
            return false;
        }
        match self.probe(places, x) {
            Some(e) => {
                self.settle(places, x, e);
                true
            }
            None => false,
        }
    }

    // Tries the rows in rank order, from empty places on.
    pub(crate) fn deal(&self, places: &mut Places)
        requires empty { (p : ℕ) → slice_index_or places.old p None ≡ None }
        ensures seated { OfRows places.new (length self.now.rows.now) }
        ensures leaves { Chosen self.now.rows.now self.now.counts.now places.new }
    {
        // by rank, since a trial is that of the row at a rank
        for x in 0..self.rows.len() {
            self.trial(places, x);
        }
    }
}
