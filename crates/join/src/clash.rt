// Check 24: blocks of equal digests with different fields or references.
ghost use Rattle.std.specs.Prelude.{◌≡◌, ◌<◌, eqb};
ghost use Rattle.base.specs.Search.{found_below, all_below};
ghost use Rattle.base.specs.Mask.{in_mask};
ghost use Rattle.setup.specs.Setup.{slot_count};
ghost use Rattle.table.specs.View.{max_places};
ghost use Rattle.table.specs.Layout.{count_of, counted_request_at, view_of};
ghost use Rattle.join.specs.Join.{same_block, clash_at};
ghost use Rattle.join.specs.Promises.{BothFormed};
ghost use Rattle.join.specs.Steps.{PlacesFound, within_by};

use base::masks::Members;
use table::{MAX_PLACES, TableBytes, rows};

// Two tables in form, and the lists of the places that the blocks of each have in the other.
#[derive(Drop)]
pub struct Matched<'a> {
    pub left: &'a TableBytes,
    pub right: &'a TableBytes,
    pub in_right: [u8; MAX_PLACES],
    pub in_left: [u8; MAX_PLACES],
    ghost formed: { BothFormed left.now right.now },
    ghost left_found: { PlacesFound right.now left.now in_right },
    ghost right_found: { PlacesFound left.now right.now in_left },
}

// Whether a place is in the mask; false for a number above 63, which is no place.
fn is_in(mask: u64, place: usize) -> bool
    ensures { result ≡ in_mask mask place }
{
    place < MAX_PLACES && base::in_mask(mask, place)
}

// Whether the blocks of these references, which stand in the other table at the places of the list, all stand there at places of the mask.
fn refers_within(references: u64, places: &[u8; MAX_PLACES], mask: u64) -> bool
    ensures { result ≡ within_by references places.now mask }
{
    for k in Members(references) {
        if !is_in(mask, usize::from(places[k])) {
            return false;
        }
    }
    true
}

// Whether two places of two tables have the same counted request in every slot.
fn same_requests(table: &TableBytes, i: usize, other: &TableBytes, j: usize) -> bool
    requires { (i < max_places) × (j < max_places) }
    ensures { result ≡ all_below (λ slot. eqb (counted_request_at table.now i slot) (counted_request_at other.now j slot)) slot_count }
{
    (0..setup::SLOTS).all(|slot| rows::request_at(table, i, slot)
        == rows::request_at(other, j, slot))
}

#[tactic(auto, using(table::proofs::InForm::formed_places))]
impl Matched<'_> {
    // Whether the left's place i and the right's place j have the same fields, interpreted aside, and refer to the same blocks.
    #[tactic(auto, using(table::proofs::InForm::formed_places), unfolding(crate::specs::Join::same_block))]
    fn same_block(&self, i: usize, j: usize) -> bool
        requires { (i < count_of self.now.left.now) × (j < count_of self.now.right.now) }
        ensures { result ≡ same_block (view_of self.now.left.now) i (view_of self.now.right.now) j }
    {
        if rows::site_at(self.left, i) != rows::site_at(self.right, j) {
            return false;
        }
        if rows::sequence_at(self.left, i) != rows::sequence_at(self.right, j) {
            return false;
        }
        if !same_requests(self.left, i, self.right, j) {
            return false;
        }
        let referred = rows::references_at(self.left, i);
        let others = rows::references_at(self.right, j);
        if !refers_within(referred, &self.in_right, others) {
            return false;
        }
        refers_within(others, &self.in_left, referred)
    }

    // Whether the right holds the digest of the left's place i with different fields or references.
    fn clash_at(&self, i: usize) -> bool
        requires { i < count_of self.now.left.now }
        ensures { result ≡ clash_at (view_of self.now.left.now) (view_of self.now.right.now) i }
    {
        let j = usize::from(self.in_right[i]);
        j < rows::count_of(self.right) && !self.same_block(i, j)
    }

    // The lowest place of the left that clashes with a place of the right.
    pub fn first_clash(&self) -> Option<usize>
        ensures { result ≡ found_below (clash_at (view_of self.now.left.now) (view_of self.now.right.now)) (count_of self.now.left.now) }
    {
        (0..rows::count_of(self.left)).find(|i| self.clash_at(*i))
    }
}
