// Joining two controllers: two tables and their records made one. Promises: `join` answers and leaves what specs/Join.antt says, for any
// tables and buffers; each of 2, 12, 31, 23, 24 and 25 comes under its cause and under no other, form is kept, and the result is told without the
// order in which it is made (specs/Promises.antt). Assumes nothing.

#![tactic(auto)]

mod clash;
mod parts;
mod places;
mod rows;

ghost use Rattle.std.specs.Prelude.{◌≡◌};
ghost use Rattle.answer.specs.Checks.{answer_to};
ghost use Rattle.answer.specs.Refusals.{answer_of, done_of};
ghost use Rattle.table.specs.Layout.{setup_of};
ghost use Rattle.join.specs.Join.{neither_retired, same_setup, join_answer, joined, copied};
ghost use Rattle.join.specs.Steps.{tables_checks, blocks_answer, blocks_table, blocks_records, SameSetup};

use answer::Refusal;
use clash::Matched;
use parts::Sides;
use records::RecordBuffer;
use table::{MAX_PLACES, TableBytes};

// Whether neither of two tables has retired anything.
fn neither_retired(left: &TableBytes, right: &TableBytes) -> bool
    ensures { result ≡ neither_retired left.now right.now }
{
    table::rows::retired_of(left) == 0 && table::rows::retired_of(right) == 0
}

// Whether the setups of two tables are the same.
fn same_setup(left: &TableBytes, right: &TableBytes) -> bool
    ensures { result ≡ same_setup (setup_of left.now) (setup_of right.now) }
{
    table::rows::sites_of(left) == table::rows::sites_of(right)
        && base::same(table::rows::owners_of(left), table::rows::owners_of(right))
}

// The checks behind those of form and of length that read no single block: 31 and 23.
fn check_sides(left: &TableBytes, right: &TableBytes) -> Result<(), Refusal>
    ensures { done_of result ≡ answer_to (tables_checks left.now right.now) 0 }
{
    if !neither_retired(left, right) {
        return Err(Refusal::HasRetired);
    }
    if !same_setup(left, right) {
        return Err(Refusal::OtherSetup);
    }
    Ok(())
}

// Joins two sides of one setup: looks up each block of either side in the other, makes the checks of the blocks, 24 and 25, and if they hold copies
// the record parts to the third buffer and makes the left's table that of both sides. The answer is how many blocks the result has.
fn join_blocks(
    left: &mut TableBytes,
    right: &TableBytes,
    left_records: &RecordBuffer,
    right_records: &RecordBuffer,
    third: &mut RecordBuffer,
) -> Result<usize, Refusal>
    requires { SameSetup left.old right.now }
    ensures value { answer_of result ≡ blocks_answer left.old right.now }
    ensures left_after { left.new ≡ blocks_table left.old right.now }
    ensures third_after { third.new ≡ blocks_records left.old right.now left_records.now right_records.now third.old }
{
    let matched = Matched {
        left,
        right,
        in_right: places::place_all(right, left),
        in_left: places::place_all(left, right),
    };
    if let Some(i) = matched.first_clash() {
        return Err(Refusal::Clash(i));
    }
    let numbering = places::number_extras(&matched);
    if MAX_PLACES < numbering.count {
        return Err(Refusal::TooManyBlocks);
    }
    let sides = Sides {
        left,
        right,
        left_records,
        right_records,
        in_right: &matched.in_right,
        in_result: &numbering.places,
    };
    sides.copy_parts(third);
    rows::join_rows(left, right, &numbering.places);
    Ok(numbering.count)
}

// Makes the left's table that of both sides, and copies the record parts of its interpreted places to the third buffer, whose rest stays. Answers
// with the number of blocks. Refuses in the order of document 02; a refusal changes nothing.
pub fn join<'a>(
    left: &mut [u8],
    right: &[u8],
    left_records: &'a [u16],
    right_records: &'a [u16],
    third: &mut [u16],
) -> Result<usize, Refusal>
    ensures value { answer_of result ≡ join_answer left.old right.now left_records.now right_records.now third.old }
    ensures left_after { left.new ≡ joined left.old right.now left_records.now right_records.now third.old }
    ensures third_after { third.new ≡ copied left.old right.now left_records.now right_records.now third.old }
{
    let Some(left) = table::formed_mut(left) else {
        return Err(Refusal::OutOfForm);
    };
    let Some(right) = table::formed(right) else {
        return Err(Refusal::OutOfForm);
    };
    let Some(left_records) = left_records.as_array() else {
        return Err(Refusal::RecordsSize);
    };
    let Some(right_records) = right_records.as_array() else {
        return Err(Refusal::RecordsSize);
    };
    let Some(third) = third.as_mut_array() else {
        return Err(Refusal::RecordsSize);
    };
    check_sides(left, right)?;
    join_blocks(left, right, left_records, right_records, third)
}
