// Taking back: the last place leaves the table, as if its block had not been admitted. Promises: `take_back` answers and leaves what
// specs/TakingBack.antt says, for any table; form is kept, each of 2, 32 and 33 comes under its cause and under no other, and straight after an
// admission what is left is the table before it, all bytes (specs/Promises.antt). Assumes nothing.

#![tactic(auto)]

ghost use Rattle.std.specs.Prelude.{◌≡◌};
ghost use Rattle.answer.specs.Refusals.{done_of};
ghost use Rattle.take_back.specs.TakingBack.{taking_back, taken_back};

use answer::Refusal;
use table::rows;

// Takes the block at the last place out of the table. Refuses with 2, 32 or 33, in that order; a refusal changes nothing.
pub fn take_back(table: &mut [u8]) -> Result<(), Refusal>
    ensures value { done_of result ≡ taking_back table.old }
    ensures table_after { table.new ≡ taken_back table.old }
{
    let Some(table) = table::formed_mut(table) else {
        return Err(Refusal::OutOfForm);
    };
    let Some(last) = rows::count_of(table).checked_sub(1) else {
        return Err(Refusal::NothingHeld);
    };
    if rows::is_interpreted(table, last) {
        return Err(Refusal::LastInterpreted);
    }
    table::writing::clear_last(table, last);
    Ok(())
}
