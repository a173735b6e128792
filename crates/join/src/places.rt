// Where the blocks of one table stand in another. Each block is looked up once by its digest; all that follows goes by places.
ghost use Rattle.std.specs.Prelude.{◌≡◌};
ghost use Rattle.table.specs.Layout.{view_of};
ghost use Rattle.join.specs.Join.{joined_count};
ghost use Rattle.join.specs.Promises.{BothFormed};
ghost use Rattle.join.specs.Steps.{PlacesFound, Numbered};

use crate::clash::Matched;
use table::index::Index;
use table::{MAX_PLACES, TableBytes, rows};

// The list of the places in the table of the blocks of `other`. It has the table's count for a block that the table does not hold: a count stands for
// no place, as the definition `place_in` of specs/Join.antt has it.
#[tactic(auto, using(table::proofs::InForm::formed_places))]
pub fn place_all(table: &TableBytes, other: &TableBytes) -> [u8; MAX_PLACES]
    requires { BothFormed table.now other.now }
    ensures { PlacesFound table.now other.now result }
{
    let mut places = [0u8; MAX_PLACES];
    let index = Index::new(table);
    let held = rows::count_of(table);
    for k in 0..rows::count_of(other) {
        let place = index.find(rows::digest_at(other, k));
        places[k] = place.unwrap_or(held) as u8;
    }
    places
}

// The list of the places that the right's blocks have in the result, and how many blocks the result has.
#[derive(Drop)]
pub struct Numbering {
    pub places: [u8; MAX_PLACES],
    pub count: usize,
}

// Gives each block of the right that is not in the left the next place behind the left's blocks; a block that is in the left keeps its place there.
#[tactic(auto, using(table::proofs::InForm::formed_places))]
pub fn number_extras(matched: &Matched) -> Numbering
    ensures count { result.count ≡ joined_count (view_of matched.now.left.now) (view_of matched.now.right.now) }
    ensures numbered { Numbered matched.now.left.now matched.now.right.now result.places }
{
    let held = rows::count_of(matched.left);
    let mut places = matched.in_left;
    let mut next = held;
    for j in 0..rows::count_of(matched.right) {
        if held <= usize::from(places[j]) {
            places[j] = next as u8;
            next += 1;
        }
    }
    Numbering {
        places,
        count: next,
    }
}
