// Retiring: place 0 leaves the table, and every other place and its records move down by one. Promises: `retire` answers and leaves what
// specs/Retiring.antt says, for any table and record buffer; form is kept, each of 2, 12, 13 and 29 comes under its cause and under no other,
// and a campaign whose places are all interpreted can go on (specs/Promises.antt). Assumes nothing.

#![tactic(auto)]

mod may;

ghost use Rattle.std.specs.Prelude.{◌≡◌};
ghost use Rattle.answer.specs.Refusals.{done_of};
ghost use Rattle.retire.specs.Retiring.{retiring, retired_table, retired_records};

use answer::Refusal;
use table::rows;

// Retires place 0. Refuses with 2, 12, 13 or 29, in that order; a refusal changes nothing.
pub fn retire(table: &mut [u8], records: &mut [u16]) -> Result<(), Refusal>
    ensures value { done_of result ≡ retiring table.old records.old }
    ensures table_after { table.new ≡ retired_table table.old records.old }
    ensures records_after { records.new ≡ retired_records table.old records.old }
{
    let Some(table) = table::formed_mut(table) else {
        return Err(Refusal::OutOfForm);
    };
    let Some(records) = records.as_mut_array() else {
        return Err(Refusal::RecordsSize);
    };
    let count = rows::count_of(table);
    let Some(left) = count.checked_sub(1) else {
        return Err(Refusal::UnknownPlace);
    };
    if !may::may_retire(table, count) {
        return Err(Refusal::NotRetirable);
    }
    records::move_parts(records, count);
    table::moving::move_down(table, left);
    Ok(())
}
