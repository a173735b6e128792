// The ancestors of a place.
ghost use Rattle.std.specs.Prelude.{◌≡◌, ◌<◌};
ghost use Rattle.table.specs.View.{max_places};
ghost use Rattle.table.specs.Layout.{references_at};
ghost use Rattle.watch.specs.Steps.{gathered};

use table::{TableBytes, rows};

// The mask of the ancestors of a place: the places that it refers to, those that these refer to, and so on. A place refers only to lower places, so
// one pass from the highest down finds all.
pub fn ancestor_mask(table: &TableBytes, place: usize) -> u64
    requires { place < max_places }
    ensures { result ≡ gathered table.now place (references_at table.now place) }
{
    let mut mask = rows::references_at(table, place);
    for i in (0..place).rev() {
        if base::in_mask(mask, i) {
            mask |= rows::references_at(table, i);
        }
    }
    mask
}
