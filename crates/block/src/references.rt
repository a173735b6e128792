// The reference list of a block: the bytes `&block[5..5 + 32 * p]`.
ghost use Rattle.std.specs.Prelude.{◌≡◌, ◌+◌, ◌*◌, ◌/◌, ◌≤◌, length};
ghost use Rattle.base.specs.Search.{below};
ghost use Rattle.block.specs.Limits.{reference_size};
ghost use Rattle.block.specs.Layout.{reference_at};
ghost use Rattle.block.specs.Reading.{reference_repeated_at};
ghost use Rattle.block.specs.Steps.{first_same, first_repeated};

use crate::{DigestBytes, REFERENCE_SIZE};

// Reference i of the list.
pub fn reference(list: &[u8], i: usize) -> &DigestBytes
    requires { reference_size * i + reference_size ≤ length list.now }
    ensures { result.now ≡ reference_at list.now i }
{
    let at = REFERENCE_SIZE * i;
    list[at..at + REFERENCE_SIZE].as_array().unwrap()
}

// The index of the first of the references before k that equals the key.
pub fn first_same(list: &[u8], k: usize, key: &[u8]) -> Option<usize>
    requires { reference_size * k ≤ length list.now }
    ensures { result ≡ below k (first_same list.now k key.now) }
{
    (0..k).find(|j| base::same(reference(list, *j), key))
}

// Whether reference i of the list equals an earlier one.
fn is_repeated(list: &[u8], i: usize) -> bool
    requires { reference_size * i + reference_size ≤ length list.now }
    ensures { result ≡ reference_repeated_at list.now i }
{
    first_same(list, i, reference(list, i)).is_some()
}

// The index of the first reference of the list that equals an earlier one.
pub fn first_repeated(list: &[u8]) -> Option<usize>
    ensures { result ≡ below (length list.now / reference_size) (first_repeated list.now) }
{
    (0..list.len() / REFERENCE_SIZE).find(|i| is_repeated(list, *i))
}
