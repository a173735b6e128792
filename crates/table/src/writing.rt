// What is written into a table: a row at the next place, made from a block or carried from another table; a mark; and zeros over the last row.
ghost use Rattle.std.specs.Prelude.{◌≡◌, suc, ◌+◌, ◌*◌, ◌≤◌, ◌<◌, length};
ghost use Rattle.base.specs.Bytes.{splice};
ghost use Rattle.setup.specs.Setup.{slot_count};
ghost use Rattle.table.specs.View.{max_places};
ghost use Rattle.table.specs.Layout.{count_of, row_size, row_bytes, with_row, with_mark};
ghost use Rattle.table.specs.Writing.{without_row};
ghost use Rattle.table.specs.Steps.{row_with, counted_request_bytes, new_row, with_references};

use crate::{
    COUNT_OFFSET, MARK_OFFSET, REFERENCES_OFFSET, REQUESTS_OFFSET, ROW_SIZE, ROWS_OFFSET,
    SEQUENCE_OFFSET, SITE_OFFSET, TableBytes, rows,
};
use block::{DigestBytes, requests};
use setup::SLOTS;

// Puts the counted request of each slot, out of a request list, two bytes each from index `at` on.
fn put_requests(table: &mut [u8], at: usize, list: &[u8])
    requires { at + 2 * slot_count ≤ length table.old }
    ensures { table.new ≡ splice table.old at (counted_request_bytes list.now) }
{
    for slot in 0..SLOTS {
        let number = requests::counted_request(list, slot as u8);
        base::put(table, at + 2 * slot, &number.to_be_bytes());
    }
}

// Writes the bytes of an uninterpreted row from index `at` on.
fn write_row(
    table: &mut [u8],
    at: usize,
    digest: &DigestBytes,
    site: u8,
    sequence: u16,
    references: u64,
    requests: &[u8],
)
    requires { at + row_size ≤ length table.old }
    ensures { table.new ≡ splice table.old at (row_bytes (new_row digest.now site sequence references requests.now)) }
{
    base::put(table, at, digest);
    base::put(table, at + SITE_OFFSET, &[site]);
    base::put(table, at + SEQUENCE_OFFSET, &sequence.to_be_bytes());
    base::put(table, at + REFERENCES_OFFSET, &references.to_le_bytes());
    put_requests(table, at + REQUESTS_OFFSET, requests);
    base::put(table, at + MARK_OFFSET, &[0u8]);
}

// Puts an uninterpreted row at the next place, and makes the count one more.
pub fn put_row(
    table: &mut TableBytes,
    digest: &DigestBytes,
    site: u8,
    sequence: u16,
    references: u64,
    requests: &[u8],
)
    requires { count_of table.old < max_places }
    ensures { table.new ≡ with_row table.old (new_row digest.now site sequence references requests.now) }
{
    let place = rows::count_of(table);
    let at = ROWS_OFFSET + ROW_SIZE * place;
    write_row(table, at, digest, site, sequence, references, requests);
    base::put(table, COUNT_OFFSET, &[(place + 1) as u8]);
}

// Writes the bytes of a row from index `at` on, with these references in place of its own.
fn write_carried(table: &mut [u8], at: usize, row: &[u8], references: u64)
    requires { (at + row_size ≤ length table.old) × (length row.now ≡ row_size) }
    ensures { table.new ≡ splice table.old at (with_references row.now references) }
{
    base::put(table, at, &row[0..REFERENCES_OFFSET]);
    base::put(table, at + REFERENCES_OFFSET, &references.to_le_bytes());
    base::put(table, at + REQUESTS_OFFSET, &row[REQUESTS_OFFSET..]);
}

// Puts the row of place j of another table at the next place, with these references in place of its own, and makes the count one more.
pub fn put_carried(table: &mut TableBytes, other: &TableBytes, j: usize, references: u64)
    requires { (count_of table.old < max_places) × (j < max_places) }
    ensures { table.new ≡ with_row table.old (row_with other.now j references) }
{
    let place = rows::count_of(table);
    let from = ROWS_OFFSET + ROW_SIZE * j;
    write_carried(
        table,
        ROWS_OFFSET + ROW_SIZE * place,
        &other[from..from + ROW_SIZE],
        references,
    );
    base::put(table, COUNT_OFFSET, &[(place + 1) as u8]);
}

// Marks a place interpreted.
pub fn set_mark(table: &mut TableBytes, place: usize)
    requires { place < max_places }
    ensures { table.new ≡ with_mark table.old place }
{
    base::put(table, ROWS_OFFSET + ROW_SIZE * place + MARK_OFFSET, &[1u8]);
}

// Puts zeros at the last place, and makes the count one less.
pub fn clear_last(table: &mut TableBytes, last: usize)
    requires { (count_of table.old ≡ suc last) × (last < max_places) }
    ensures { table.new ≡ without_row table.old }
{
    let none = [0u8; ROW_SIZE];
    base::put(table, ROWS_OFFSET + ROW_SIZE * last, &none);
    base::put(table, COUNT_OFFSET, &[last as u8]);
}
