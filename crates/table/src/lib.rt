// A site's table: the setup and what is held of each block, as bytes that the caller lends. No other library computes an index into a table.
// Promises: whether a lent buffer of any length and content is a table in form is as specs/Form.antt says, a fresh table is the layout of its setup,
// a table in form is the layout of its own contents (proofs/TableLayout.antt), and what is written is what specs/Layout.antt and Writing.antt say.
// Assumes nothing of the bytes.

#![tactic(auto)]

mod form;
pub mod index;
pub mod moving;
pub mod rows;
pub mod rules;
pub mod writing;

ghost use Rattle.std.specs.Prelude.{◌≡◌, true, false, length, replicate, MatchOption};
ghost use Rattle.std.specs.Borrow.{sem, LendsIf, Array, u8};
ghost use Rattle.answer.specs.Refusals.{done_of};
ghost use Rattle.setup.specs.Setup.{slot_count};
ghost use Rattle.table.specs.Layout.{table_size};
ghost use Rattle.table.specs.Form.{in_form};
ghost use Rattle.table.specs.Fresh.{empty_table, fresh_table, fresh_answer, fresh_in};

use answer::Refusal;
use block::REFERENCE_SIZE;
use setup::SLOTS;

pub const MAX_PLACES: usize = 64;

// Where each field of the table stands, then where each field of a row stands. A row begins with the digest.
const OWNERS_OFFSET: usize = 1;

const RETIRED_OFFSET: usize = OWNERS_OFFSET + SLOTS;

const COUNT_OFFSET: usize = RETIRED_OFFSET + 1;

const ROWS_OFFSET: usize = COUNT_OFFSET + 1;

const SITE_OFFSET: usize = REFERENCE_SIZE;

const SEQUENCE_OFFSET: usize = SITE_OFFSET + 1;

const REFERENCES_OFFSET: usize = SEQUENCE_OFFSET + 2;

const REQUESTS_OFFSET: usize = REFERENCES_OFFSET + size_of::<u64>();

const MARK_OFFSET: usize = REQUESTS_OFFSET + 2 * SLOTS;

const ROW_SIZE: usize = MARK_OFFSET + 1;

pub const TABLE_SIZE: usize = ROWS_OFFSET + ROW_SIZE * MAX_PLACES;

// The bytes of a table, in form or not.
pub type TableBytes = [u8; TABLE_SIZE];

// A table handed back by value: refusal 0 and the empty table, or refusal 1 and all zeros. It is no Result, since a table comes beside a refusal too.
#[derive(Drop)]
pub struct FreshTable {
    pub refusal: u8,
    pub table: TableBytes,
}

// The empty table of a setup, by value; all zeros and refusal 1 if the setup is not lawful.
pub fn fresh(sites: u8, owners: [u8; SLOTS]) -> FreshTable
    ensures { result ≡ fresh_table (record { sites = sites; owners = owners }) }
{
    let mut table = [0; TABLE_SIZE];
    if !setup::lawful(sites, &owners) {
        return FreshTable { refusal: 1, table };
    }
    put_setup(sites, &owners, &mut table);
    FreshTable { refusal: 0, table }
}

// Makes a buffer of zeros the empty table of a setup, by putting the site count and the owners at its front.
fn put_setup(sites: u8, owners: &[u8], table: &mut TableBytes)
    requires { (length owners.now ≡ slot_count) × (table.old ≡ replicate table_size 0) }
    ensures { table.new ≡ empty_table (record { sites = sites; owners = owners.now }) }
{
    base::put(table, 0, &[sites]);
    base::put(table, OWNERS_OFFSET, owners);
}

// Makes a lent buffer the empty table of a setup. A refusal leaves the buffer as it was.
pub fn fresh_in(sites: u8, owners: &[u8], table: &mut [u8]) -> Result<(), Refusal>
    ensures value { done_of result ≡ fresh_answer (record { sites = sites; owners = owners.now }) table.old }
    ensures table_after { table.new ≡ fresh_in (record { sites = sites; owners = owners.now }) table.old }
{
    if !setup::lawful(sites, owners) {
        return Err(Refusal::UnlawfulSetup);
    }
    let Some(table) = table.as_mut_array() else {
        return Err(Refusal::OutOfForm);
    };
    table.fill(0);
    put_setup(sites, owners, table);
    Ok(())
}

// Whether a lent buffer is a table in form.
pub fn in_form(table: &[u8]) -> bool
    ensures { result ≡ in_form table.now }
{
    let Some(table) = table.as_array() else {
        return false;
    };
    if !form::held_in_form(table) {
        return false;
    }
    let end = ROWS_OFFSET + ROW_SIZE * rows::count_of(table);
    base::all_zero(&table[end..])
}

// The table in a lent buffer, None where the buffer is not a table in form.
pub fn formed(buffer: &[u8]) -> Option<&TableBytes>
    ensures { MatchOption result (in_form buffer.now ≡ false) (λ table. (table.now ≡ buffer.now) × (in_form buffer.now ≡ true)) }
{
    if !in_form(buffer) {
        return None;
    }
    buffer.as_array()
}

// The same table, to be written: what is written into it stands in the buffer.
pub fn formed_mut(buffer: &mut [u8]) -> Option<&mut TableBytes>
    ensures table { MatchOption result (in_form buffer.old ≡ false) (λ table. (table.now ≡ buffer.old) × (in_form buffer.old ≡ true)) }
    ensures* writes_back { sem 𝓛 (LendsIf (Array u8 0) (Array u8 0) buffer.entry result (λ written. written) buffer.old) }
{
    if !in_form(buffer) {
        return None;
    }
    buffer.as_mut_array()
}
