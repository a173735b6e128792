// Check 29: whether place 0 of a table may be retired.
ghost use Rattle.std.specs.Prelude.{◌≡◌, ◌≤◌, ◌<◌};
ghost use Rattle.base.specs.Search.{any_below};
ghost use Rattle.table.specs.View.{max_places};
ghost use Rattle.table.specs.Layout.{count_of, view_of};
ghost use Rattle.retire.specs.Retiring.{waits_for_first, retirable};
ghost use Rattle.retire.specs.Steps.{follows_one};

use table::{TableBytes, rows};

// Whether place i refers to place 0 and is not interpreted.
fn waits(table: &TableBytes, i: usize) -> bool
    requires { i < max_places }
    ensures { result ≡ waits_for_first (view_of table.now) i }
{
    base::in_mask(rows::references_at(table, i), 0) && !rows::is_interpreted(table, i)
}

// Whether place i holds an interpreted block of this site, with a sequence number greater than this one.
fn follows(table: &TableBytes, i: usize, site: u8, sequence: u16) -> bool
    requires { i < max_places }
    ensures { result ≡ follows_one table.now site sequence i }
{
    rows::site_at(table, i) == site
        && rows::is_interpreted(table, i)
        && sequence < rows::sequence_at(table, i)
}

// Whether some place below k refers to place 0 and is not interpreted.
fn any_waits(table: &TableBytes, k: usize) -> bool
    requires { k ≤ max_places }
    ensures { result ≡ any_below (waits_for_first (view_of table.now)) k }
{
    (0..k).any(|i| waits(table, i))
}

// Whether some place below k holds an interpreted block of this site, with a sequence number greater than this one.
fn any_follows(table: &TableBytes, k: usize, site: u8, sequence: u16) -> bool
    requires { k ≤ max_places }
    ensures { result ≡ any_below (follows_one table.now site sequence) k }
{
    (0..k).any(|i| follows(table, i, site, sequence))
}

// Whether place 0 of a table that holds k blocks may be retired: it is interpreted, and so is every block that refers to it, and its site has a later
// block that is interpreted.
pub fn may_retire(table: &TableBytes, k: usize) -> bool
    requires { (k ≤ max_places) × (0 < k) × (k ≡ count_of table.now) }
    ensures { result ≡ retirable (view_of table.now) }
{
    let site = rows::site_at(table, 0);
    let sequence = rows::sequence_at(table, 0);
    rows::is_interpreted(table, 0) && !any_waits(table, k) && any_follows(table, k, site, sequence)
}
