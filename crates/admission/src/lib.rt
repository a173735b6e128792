// Admission of a block to a site's table. Promises: `admit` answers and leaves what specs/Admission.antt says, for all bytes and numbers;
// form is kept, and each of 2 to 11 and 18 comes under its cause and under no other (specs/Promises.antt). Assumes nothing.

#![tactic(auto)]

mod held;

ghost use Rattle.std.specs.Prelude.{◌≡◌, true};
ghost use Rattle.sha256.specs.Sha256.{sha256};
ghost use Rattle.answer.specs.Refusals.{answer_of};
ghost use Rattle.block.specs.Reading.{fields_of};
ghost use Rattle.table.specs.Form.{in_form};
ghost use Rattle.admission.specs.Admission.{admission, admitted};
ghost use Rattle.admission.specs.Steps.{held_answer, entered};

use answer::Refusal;
use block::{Fields, ShapedBlock};
use table::TableBytes;
use table::index::Index;

// Makes checks 8 to 11 of a block that the reader accepts, and puts the block at the next place if they hold.
fn enter(table: &mut TableBytes, block: &ShapedBlock, fields: Fields) -> Result<usize, Refusal>
    requires { (in_form table.old ≡ true) × (fields ≡ fields_of block.now) }
    ensures value { answer_of result ≡ held_answer table.old block.now }
    ensures table_after { table.new ≡ entered table.old block.now }
{
    let digest = sha256::digest(block.bytes());
    let index = Index::new(table);
    let found = held::look_up(&index, block.references());
    let place = held::held_answer(&index, block, &digest, found)?;
    table::writing::put_row(
        table,
        &digest,
        fields.site,
        fields.sequence,
        found.places,
        block.requests(),
    );
    Ok(place)
}

// Puts the block at the table's next place and answers with that place. Refuses in the order of the documents; a refusal changes nothing.
pub fn admit(table: &mut [u8], block: &[u8], verdict: u8) -> Result<usize, Refusal>
    ensures value { answer_of result ≡ admission sha256 table.old block.now verdict }
    ensures table_after { table.new ≡ admitted sha256 table.old block.now verdict }
{
    let Some(table) = table::formed_mut(table) else {
        return Err(Refusal::OutOfForm);
    };
    let Some(shaped) = ShapedBlock::new(block) else {
        return Err(Refusal::Misshapen);
    };
    if table::rows::sites_of(table) <= shaped.site() {
        return Err(Refusal::UnknownSite);
    }
    if verdict != 1 {
        return Err(Refusal::Unverified);
    }
    let reading = shaped.read();
    // A block that the reader refuses goes no further.
    let Ok(fields) = reading else {
        return reading.map(|_| 0);
    };
    enter(table, &shaped, fields)
}
