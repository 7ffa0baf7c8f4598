// Whether rows can be drawn.
ghost use Rattle.std.specs.Prelude.{◌≡◌, ℕ, ◌<◌, length, Decides};
ghost use Rattle.placing.specs.Placing.{row};
ghost use Rattle.drawing.specs.Draw.{Drawable};

use jobs::terms::Row;

// Whether a row before row i has its number. Sheets and lists of jobs have a search of their own: there is no common type.
fn number_taken(rows: &[Row], i: usize) -> bool
    requires { i < length rows.now }
    ensures answers { Decides result ((j : ℕ) × (j < i) × ((row rows.now j).number ≡ (row rows.now i).number)) }
{
    let number = rows[i].number;
    rows[..i].iter().any(|row| row.number == number)
}

// At most 256 rows, deadlines up to 1,024, and no two rows with one number: by rank, since each row is held against those before it.
pub(crate) fn drawable(rows: &[Row]) -> bool
    ensures answers { Decides result (Drawable rows.now) }
{
    rows.len() <= 256 && (0..rows.len()).all(|i| rows[i].deadline <= 1024 && !number_taken(rows, i))
}
