// The place of a digest, found by the digest's first byte.
ghost use Rattle.std.specs.Prelude.{◌≡◌, true, get_or};
ghost use Rattle.base.specs.Search.{below};
ghost use Rattle.table.specs.Layout.{count_of, view_of};
ghost use Rattle.table.specs.Rules.{place_of};
ghost use Rattle.table.specs.Form.{in_form};
ghost use Rattle.table.specs.Steps.{index_of};

use crate::{TableBytes, rows, rules};

// The index has an entry for each of the 256 bytes.
pub const INDEX_SIZE: usize = 256;

// A table in form with its index: for each byte, one more than the highest place whose digest begins with the byte, 0 if there is none.
#[derive(Drop)]
pub struct Index<'a> {
    pub table: &'a TableBytes,
    pub ends: [u8; INDEX_SIZE],
    pub ghost formed: { in_form table.now ≡ true },
    pub ghost indexed: { ends ≡ index_of table.now },
}

// The first byte of a digest, 0 if it has none.
fn first_of(digest: &[u8]) -> u8
    ensures { result ≡ get_or digest.now 0 0 }
{
    digest.first().copied().unwrap_or(0)
}

// What the index has for each byte.
fn index_of(table: &TableBytes) -> [u8; INDEX_SIZE]
    requires { in_form table.now ≡ true }
    ensures { result ≡ index_of table.now }
{
    let k = rows::count_of(table);
    let mut ends = [0u8; INDEX_SIZE];
    for j in 0..k {
        ends[usize::from(first_of(rows::digest_at(table, j)))] = (j + 1) as u8;
    }
    ends
}

impl<'a> Index<'a> {
    // The index of a table in form.
    pub fn new(table: &'a TableBytes) -> Index<'a>
        requires { in_form table.now ≡ true }
        ensures { result.table.now ≡ table.now }
    {
        let ends = index_of(table);
        Index { table, ends }
    }

    // The place that holds the block of this digest. No digest from the end in the index on begins with this digest's first byte, so the search goes
    // down from there, and mostly ends at once: few digests begin alike.
    pub fn find(&self, digest: &[u8]) -> Option<usize>
        ensures { result ≡ below (count_of self.now.table.now) (place_of (view_of self.now.table.now) (count_of self.now.table.now) digest.now) }
    {
        let end = usize::from(self.ends[usize::from(first_of(digest))]);
        for j in (0..end).rev() {
            if rules::has_digest(self.table, j, digest) {
                return Some(j);
            }
        }
        None
    }
}
