// A table without its place 0: every other row moves one place down.
ghost use Rattle.std.specs.Prelude.{◌≡◌, suc, ◌<◌};
ghost use Rattle.base.specs.Bytes.{splice};
ghost use Rattle.table.specs.View.{max_places};
ghost use Rattle.table.specs.Layout.{rows_offset, count_of};
ghost use Rattle.table.specs.Writing.{moved_bytes, moved_rows, move_down};

use crate::{REFERENCES_OFFSET, RETIRED_OFFSET, ROW_SIZE, ROWS_OFFSET, TableBytes, rows};

// The bytes that the row of place i has one place lower. Its references move down by one too, and a reference to place 0 vanishes.
fn moved_bytes(table: &TableBytes, i: usize) -> [u8; ROW_SIZE]
    requires { i < max_places }
    ensures { result ≡ moved_bytes table.now i }
{
    let references = rows::references_at(table, i);
    let at = ROWS_OFFSET + ROW_SIZE * i;
    let mut row = [0u8; ROW_SIZE];
    base::put(&mut row, 0, &table[at..at + ROW_SIZE]);
    base::put(
        &mut row,
        REFERENCES_OFFSET,
        &(references >> 1).to_le_bytes(),
    );
    row
}

// Moves the rows of the places 1 to k one place down; all other bytes stay.
fn move_rows(table: &mut TableBytes, k: usize)
    requires { k < max_places }
    ensures { table.new ≡ splice table.old rows_offset (moved_rows table.old k) }
{
    for i in 0..k {
        let row = moved_bytes(table, i + 1);
        base::put(table, ROWS_OFFSET + ROW_SIZE * i, &row);
    }
}

// Takes place 0 out of the table: the other rows move one place down, zeros come to stand at the place that was the last, and the table keeps that
// something has been retired, and that `left` places are left.
pub fn move_down(table: &mut TableBytes, left: usize)
    requires { (count_of table.old ≡ suc left) × (left < max_places) }
    ensures { table.new ≡ move_down table.old }
{
    move_rows(table, left);
    let none = [0u8; ROW_SIZE];
    base::put(table, ROWS_OFFSET + ROW_SIZE * left, &none);
    base::put(table, RETIRED_OFFSET, &[1u8, left as u8]);
}
