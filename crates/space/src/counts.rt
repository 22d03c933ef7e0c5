ghost use Rattle.std.specs.Prelude.{◌≡◌, ◌==◌, option_map};
ghost use Rattle.std.specs.List.{find};
ghost use Rattle.space.specs.Counts.{counts_of};

// Each q with a column, and 1 + q + .. + q^m at m = 1, 2 and 3.
const COUNTS: [(u8, [usize; 3]); 10] = [
    (2, [3, 7, 15]),
    (3, [4, 13, 40]),
    (4, [5, 21, 85]),
    (5, [6, 31, 156]),
    (7, [8, 57, 400]),
    (8, [9, 73, 585]),
    (9, [10, 91, 820]),
    (11, [12, 133, 1464]),
    (13, [14, 183, 2380]),
    (16, [17, 273, 4369]),
];

// The row of q. A function of its own: in one chain with what is made of the row, the proof does not follow the search.
fn row_of(rows: &[(u8, [usize; 3])], q: u8) -> Option<&(u8, [usize; 3])>
    ensures { option_map (λ row. row.now) result ≡ find (λ row. row.0 == q) rows.now }
{
    rows.iter().find(|row| row.0 == q)
}

// The counts of places over q symbols, where q has a column.
#[tactic(auto, using(crate::proofs::Columns::column_found))]
pub(crate) fn counts_of(q: u8) -> Option<[usize; 3]>
    ensures { result ≡ counts_of q }
{
    let row = row_of(&COUNTS, q)?;
    Some(row.1)
}
