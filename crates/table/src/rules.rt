// Searches and rules on what is held, which several calls share.
ghost use Rattle.std.specs.Prelude.{◌≡◌, ◌&&◌, ◌≤◌, ◌<◌, ltb};
ghost use Rattle.base.specs.Search.{below, found_below};
ghost use Rattle.base.specs.Mask.{in_mask};
ghost use Rattle.table.specs.View.{max_places};
ghost use Rattle.table.specs.Layout.{view_of, row_at};
ghost use Rattle.table.specs.Rules.{has_digest, place_of, parent_row, parents, parent_rule, refers_uninterpreted};
ghost use Rattle.table.specs.Steps.{row_of, parent_at};

use crate::{TableBytes, rows};
use base::masks::Members;

// Whether place j holds the block of this digest. A call of it would make its searches wait for the digest.
#[inline(always)]
pub fn has_digest(table: &TableBytes, j: usize, digest: &[u8]) -> bool
    requires { j < max_places }
    ensures { result ≡ has_digest (view_of table.now) digest.now j }
{
    base::same(rows::digest_at(table, j), digest)
}

// The lowest place below k that holds the block of this digest.
pub fn place_of(table: &TableBytes, k: usize, digest: &[u8]) -> Option<usize>
    requires { k ≤ max_places }
    ensures { result ≡ below k (place_of (view_of table.now) k digest.now) }
{
    (0..k).find(|j| has_digest(table, *j, digest))
}

// Whether the block at place j is a parent for a block of this site and sequence number.
fn parent_at(table: &TableBytes, j: usize, site: u8, sequence: u16) -> bool
    requires { j < max_places }
    ensures { result ≡ parent_at table.now site sequence j }
{
    rows::site_at(table, j) == site
        && u32::from(rows::sequence_at(table, j)) + 1 == u32::from(sequence)
}

// Whether the block at place j is the parent of a block with these references, site and sequence number: it is among the references, of that site,
// and its sequence number is one less.
pub fn refers_to_parent(
    table: &TableBytes,
    j: usize,
    references: u64,
    site: u8,
    sequence: u16,
) -> bool
    requires { j < max_places }
    ensures { result ≡ (in_mask references j && parent_row (row_of site sequence references) (row_at table.now j)) }
{
    base::in_mask(references, j) && parent_at(table, j, site, sequence)
}

// Whether place j is below k and holds a parent for a block of this site and sequence number.
fn parent_below(table: &TableBytes, k: usize, j: usize, site: u8, sequence: u16) -> bool
    requires { j < max_places }
    ensures { result ≡ (ltb j k && parent_at table.now site sequence j) }
{
    j < k && parent_at(table, j, site, sequence)
}

// How many of the references below k are parents of a block of this site and sequence number. The loop takes a turn for each reference, from the
// highest down, and for no other place.
pub fn parents_among(
    table: &TableBytes,
    k: usize,
    references: u64,
    site: u8,
    sequence: u16,
) -> usize
    requires { k ≤ max_places }
    ensures { result ≡ parents (view_of table.now) k (row_of site sequence references) }
{
    let mut count: usize = 0;
    for j in Members(references) {
        if parent_below(table, k, j, site, sequence) {
            count += 1;
        }
    }
    count
}

// Whether a block of this site and sequence number keeps the parent rule, where its references are among the places below k.
pub fn parent_rule(table: &TableBytes, k: usize, references: u64, site: u8, sequence: u16) -> bool
    requires { k ≤ max_places }
    ensures { result ≡ parent_rule (view_of table.now) k (row_of site sequence references) }
{
    sequence == 0 || parents_among(table, k, references, site, sequence) == 1
}

// Whether place j is among the references and is not interpreted.
fn refers_uninterpreted(table: &TableBytes, j: usize, references: u64) -> bool
    requires { j < max_places }
    ensures { result ≡ refers_uninterpreted (view_of table.now) (row_of 0 0 references) j }
{
    base::in_mask(references, j) && !rows::is_interpreted(table, j)
}

// The lowest of the references below k that is not interpreted.
pub fn first_uninterpreted(table: &TableBytes, k: usize, references: u64) -> Option<usize>
    requires { k ≤ max_places }
    ensures { result ≡ found_below (refers_uninterpreted (view_of table.now) (row_of 0 0 references)) k }
{
    (0..k).find(|j| refers_uninterpreted(table, *j, references))
}
