// The parts of a table's form: whether its setup, its count and every row are in form.
ghost use Rattle.std.specs.Prelude.{◌≡◌, ◌&&◌, ◌≤◌, ◌<◌, eqb};
ghost use Rattle.base.specs.Search.{any_below, all_below};
ghost use Rattle.setup.specs.Setup.{max_sites};
ghost use Rattle.table.specs.View.{max_places, interpreted};
ghost use Rattle.table.specs.Layout.{setup_of, retired_of, digest_at, row_at, view_of};
ghost use Rattle.table.specs.Rules.{has_digest, parent_in_form, row_in_form, held_in_form};
ghost use Rattle.table.specs.Steps.{Lower, RowContext, row_with, group_at, print_at, prints_met, marks_closed};

use crate::{ROW_SIZE, ROWS_OFFSET, TableBytes, rows, rules};
use setup::MAX_SITES;

// How many groups of digests there are. A digest's first byte tells its group, and its second byte its print in the group. Equal digests have group
// and print in common, and different digests seldom do.
const GROUPS: usize = 16;

fn group_at(table: &TableBytes, i: usize) -> usize
    requires { i < max_places }
    ensures { result ≡ group_at table.now i }
{
    usize::from(table[ROWS_OFFSET + ROW_SIZE * i]) % GROUPS
}

fn print_at(table: &TableBytes, i: usize) -> usize
    requires { i < max_places }
    ensures { result ≡ print_at table.now i }
{
    usize::from(table[ROWS_OFFSET + ROW_SIZE * i + 1]) % base::PRINTS
}

// Whether a lower place holds the digest of place i, where `prints` is the mask of the prints that the lower places have in its group. Where the
// digest's own print is not among these, no digest is compared.
fn is_repeated(table: &TableBytes, i: usize, prints: u64) -> bool
    requires { (i < max_places) × (prints ≡ prints_met table.now i) }
    ensures { result ≡ any_below (has_digest (view_of table.now) (digest_at table.now i)) i }
{
    base::in_mask(prints, print_at(table, i))
        && rules::place_of(table, i, rows::digest_at(table, i)).is_some()
}

// Whether place i, if it is interpreted, has all its references interpreted, where `marked` is the mask of the lower places that are interpreted.
fn marks_closed(table: &TableBytes, i: usize, references: u64, marked: u64) -> bool
    requires place { i < max_places }
    requires lower { Lower table.now i references marked }
    ensures { result ≡ marks_closed table.now i references }
{
    !rows::is_interpreted(table, i) || (marked | references) == marked
}

// Whether the parent of place i may have been retired: the table has retired something, and place i is interpreted.
fn may_lack_parent(table: &TableBytes, i: usize) -> bool
    requires { i < max_places }
    ensures { result ≡ (eqb (retired_of table.now) 1 && interpreted (row_at table.now i)) }
{
    rows::retired_of(table) == 1 && rows::is_interpreted(table, i)
}

// The parent rule of form for the row of place i with these references: one parent, or none where the parent may have been retired. The references
// are gone over once.
fn parent_in_form(table: &TableBytes, i: usize, references: u64) -> bool
    requires { i < max_places }
    ensures { result ≡ parent_in_form (view_of table.now) i (row_with table.now i references) }
{
    let sequence = rows::sequence_at(table, i);
    if sequence == 0 {
        return true;
    }
    let parents = rules::parents_among(table, i, references, rows::site_at(table, i), sequence);
    parents == 1 || (may_lack_parent(table, i) && parents == 0)
}

// Whether the row of place i is in form, where its site is below n. Of the lower places `marked` is the mask of those that are interpreted, and `own`
// the mask of those of the row's own site: a parent is among the latter, so the parent rule goes over no other reference. `prints` is the mask of the
// prints that the lower places have in the group of the row's digest.
fn row_in_form(table: &TableBytes, i: usize, marked: u64, own: u64, prints: u64) -> bool
    requires place { i < max_places }
    requires row_context { RowContext table.now i marked own prints }
    ensures { result ≡ row_in_form (setup_of table.now) (view_of table.now) i }
{
    if 1 < rows::mark_at(table, i) {
        return false;
    }
    let references = rows::references_at(table, i);
    if (references >> i) != 0 {
        return false;
    }
    if (block::MAX_REFERENCES as u32) < u64::count_ones(references) {
        return false;
    }
    if is_repeated(table, i, prints) {
        return false;
    }
    if !marks_closed(table, i, references, marked) {
        return false;
    }
    parent_in_form(table, i, references & own)
}

// Whether every row below k is in form. Three kinds of masks are kept of the rows gone over: the interpreted places, the places of each site, and the
// prints of each group. So no row looks through the rows below it.
fn rows_in_form(table: &TableBytes, k: usize) -> bool
    requires places { k ≤ max_places }
    requires table_bound { (setup_of table.now).sites ≤ max_sites }
    ensures { result ≡ all_below (row_in_form (setup_of table.now) (view_of table.now)) k }
{
    let n = usize::from(rows::sites_of(table));
    let mut marked: u64 = 0;
    let mut of_site = [0u64; MAX_SITES];
    let mut of_group = [0u64; GROUPS];
    for i in 0..k {
        let site = usize::from(rows::site_at(table, i));
        if n <= site {
            return false;
        }
        let own = of_site[site];
        let group = group_at(table, i);
        let prints = of_group[group];
        if !row_in_form(table, i, marked, own, prints) {
            return false;
        }
        if rows::is_interpreted(table, i) {
            marked = marked | (1u64 << i);
        }
        of_site[site] = own | (1u64 << i);
        of_group[group] = prints | (1u64 << print_at(table, i));
    }
    true
}

// Whether the setup is lawful, the byte for what has been retired 0 or 1, the count up to 64, and every row below the count in form.
pub fn held_in_form(table: &TableBytes) -> bool
    ensures { result ≡ held_in_form (setup_of table.now) (view_of table.now) }
{
    if !setup::lawful(rows::sites_of(table), rows::owners_of(table)) {
        return false;
    }
    if 1 < rows::retired_of(table) {
        return false;
    }
    let k = rows::count_of(table);
    if crate::MAX_PLACES < k {
        return false;
    }
    rows_in_form(table, k)
}
