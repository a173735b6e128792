// The right's rows put into the left's table.
ghost use Rattle.std.specs.Prelude.{◌≡◌};
ghost use Rattle.table.specs.Layout.{view_of};
ghost use Rattle.join.specs.Join.{join_place, joined_table};
ghost use Rattle.join.specs.Steps.{Joinable, Numbered, Next, EachPlaced, renumbered_by};

use base::masks::Members;
use table::{MAX_PLACES, TableBytes, rows, writing};

// The mask of the places that the blocks of these references have in the result, by the list `places`.
fn renumbered(references: u64, places: &[u8; MAX_PLACES]) -> u64
    requires { EachPlaced references places.now }
    ensures { result ≡ renumbered_by references places.now }
{
    let mut mask: u64 = 0;
    for k in Members(references) {
        mask |= 1u64 << usize::from(places[k]);
    }
    mask
}

// Joins the right's place j to the table. If the table does not hold its block, its row is put at the next place; else the block is marked where it
// stands, if the right has interpreted it.
fn join_place(table: &mut TableBytes, right: &TableBytes, j: usize, places: &[u8; MAX_PLACES])
    requires { Next table.old right.now j places.now }
    ensures { table.new ≡ join_place table.old (view_of right.now) j }
{
    let place = usize::from(places[j]);
    if rows::count_of(table) <= place {
        let references = renumbered(rows::references_at(right, j), places);
        writing::put_carried(table, right, j, references);
        return;
    }
    if rows::is_interpreted(right, j) {
        writing::set_mark(table, place);
    }
}

// Joins all places of the right to the left's table, in their order.
pub fn join_rows(left: &mut TableBytes, right: &TableBytes, places: &[u8; MAX_PLACES])
    requires { Joinable left.old right.now × Numbered left.old right.now places.now }
    ensures { left.new ≡ joined_table left.old right.now }
{
    for j in 0..rows::count_of(right) {
        join_place(left, right, j, places);
    }
}
