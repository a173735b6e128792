// The record parts of the joined table, copied to the third buffer.
ghost use Rattle.std.specs.Prelude.{◌≡◌, ◌≤◌, ◌<◌};
ghost use Rattle.base.specs.Bytes.{splice};
ghost use Rattle.table.specs.View.{max_places};
ghost use Rattle.table.specs.Layout.{count_of, view_of};
ghost use Rattle.records.specs.Layout.{part_start};
ghost use Rattle.join.specs.Join.{interpreted_at, handed_back, copied_below, joined_records};
ghost use Rattle.join.specs.Steps.{Joinable, PlacesFound, Numbered, extras_below};

use records::RecordBuffer;
use table::{MAX_PLACES, TableBytes, rows};

// Two sides that can be joined, and the lists of the places that the left's blocks have in the right, and the right's in the result.
#[derive(Drop)]
pub struct Sides<'a> {
    pub left: &'a TableBytes,
    pub right: &'a TableBytes,
    pub left_records: &'a RecordBuffer,
    pub right_records: &'a RecordBuffer,
    pub in_right: &'a [u8; MAX_PLACES],
    pub in_result: &'a [u8; MAX_PLACES],
    ghost joinable: { Joinable left.now right.now },
    ghost left_found: { PlacesFound right.now left.now in_right.now },
    ghost numbered: { Numbered left.now right.now in_result.now },
}

// Whether place i holds an interpreted block; false for a number from the count on, where no block is held.
fn interpreted_at(table: &TableBytes, i: usize) -> bool
    requires { count_of table.now ≤ max_places }
    ensures { result ≡ interpreted_at (view_of table.now) i }
{
    i < rows::count_of(table) && rows::is_interpreted(table, i)
}

#[tactic(auto, using(table::proofs::InForm::formed_places))]
impl<'a> Sides<'a> {
    // The record part for a block at the left's place i and the right's place j, either of which may be a count and so no place: the part of the side
    // that interpreted it, the left's if both did, an empty part of the left's if neither.
    #[tactic(auto, using(table::proofs::InForm::formed_places, crate::proofs::References::interpreted_low), unfolding(crate::specs::Join::handed_back))]
    fn part_of(&self, i: usize, j: usize) -> &'a [u16]
        ensures { result.now ≡ handed_back (view_of self.now.left.now) (view_of self.now.right.now) self.now.left_records.now self.now.right_records.now i j }
    {
        if interpreted_at(self.left, i) {
            return records::part(self.left_records, i);
        }
        if interpreted_at(self.right, j) {
            return records::part(self.right_records, j);
        }
        let left_records = self.left_records;
        &left_records[..0]
    }

    // Copies the record part for a block at the left's place i and the right's place j to a place of the third buffer.
    #[tactic(auto, using(crate::proofs::PartSteps::handed_short))]
    fn copy_part(&self, i: usize, j: usize, place: usize, third: &mut RecordBuffer)
        requires { place < max_places }
        ensures { third.new ≡ splice third.old (part_start place) (handed_back (view_of self.now.left.now) (view_of self.now.right.now) self.now.left_records.now self.now.right_records.now i j) }
    {
        records::put_part(third, place, self.part_of(i, j));
    }

    // Copies the record parts for the blocks of the left to the third buffer, at their places.
    fn copy_left(&self, third: &mut RecordBuffer)
        ensures { third.new ≡ copied_below (view_of self.now.left.now) (view_of self.now.right.now) self.now.left_records.now self.now.right_records.now self.now.left.now third.old (count_of self.now.left.now) }
    {
        for i in 0..rows::count_of(self.left) {
            self.copy_part(i, usize::from(self.in_right[i]), i, third);
        }
    }

    // Copies the record parts for the right's blocks that are not in the left to the third buffer, at the places behind the left's.
    fn copy_extras(&self, third: &mut RecordBuffer)
        ensures { third.new ≡ extras_below self.now.left.now self.now.right.now self.now.left_records.now self.now.right_records.now third.old (count_of self.now.right.now) }
    {
        let held = rows::count_of(self.left);
        for j in 0..rows::count_of(self.right) {
            let place = usize::from(self.in_result[j]);
            if held <= place {
                self.copy_part(held, j, place, third);
            }
        }
    }

    // Copies the record parts for the blocks of the result to the third buffer, at their places in the result.
    #[tactic(auto, using(crate::proofs::CopyOrder::all_copied))]
    pub fn copy_parts(&self, third: &mut RecordBuffer)
        ensures { third.new ≡ joined_records self.now.left.now self.now.right.now self.now.left_records.now self.now.right_records.now third.old }
    {
        self.copy_left(third);
        self.copy_extras(third);
    }
}
